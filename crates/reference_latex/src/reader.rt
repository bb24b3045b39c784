//! A text of LaTeX is read.
use crate::address::address_of;
use crate::commands::{Command, Switch, command_of, switch_of};
use crate::formula::formula_runs;
use crate::output::{Output, Style};
use crate::run::{Format, Run};
use crate::source::Source;
use crate::symbols::ligature_at;
use std::alloc::{AllocError, Global};
use std::mem::replace;
use unicode_normalization::char::compose;

/// How many parts may be in one another for a command to change what its argument writes.
const DEEPEST_CHANGE: usize = 50;

/// How many commands are noted that aren't known.
const MOST_UNKNOWN: usize = 20;

/// What is done with what an argument wrote.
#[derive(Clone, Copy)]
enum Ending {
    Nothing,
    /// The mark is put on its first letter.
    Accent(char),
    Upper,
    Lower,
    /// The quotation mark follows it.
    Quote(&'static str),
}

/// What ends a part of the text.
#[derive(Clone, Copy, PartialEq, Eq)]
enum Part {
    /// The end of the text.
    All,
    /// A brace.
    Group,
    /// A command is the part, and comes next.
    Command,
    /// A command is the part, and is done.
    Done,
}

/// A part of the text that is open.
#[derive(Drop)]
struct Frame {
    style: Style,
    part: Part,
    ending: Ending,
    /// How many runs stand before it.
    begin: usize,
}

/// What was read of a text of LaTeX.
#[derive(Drop)]
pub(crate) struct ReadRuns {
    pub(crate) runs: Vec<Run>,
    /// The commands that aren't known, each once. `$` stands for a formula.
    pub(crate) unknown: Vec<String>,
}

#[derive(Drop)]
struct Reader<'s> {
    source: Source<'s>,
    output: Output,
    /// The outermost first. What is being read isn't among them.
    outer: Vec<Frame>,
    frame: Frame,
    unknown: Vec<String>,
}

/// The runs of a text of LaTeX. What stands in braces, and isn't the argument of a command, is
/// protected. Of a command that isn't known its arguments stay.
pub(crate) fn read_runs(alloc: Global, text: &str) -> Result<ReadRuns, AllocError> {
    let mut reader = Reader {
        source: Source::new(text),
        output: Output {
            alloc,
            runs: Vec::new(alloc),
        },
        outer: Vec::new(alloc),
        frame: Frame {
            style: Style::plain(alloc),
            part: Part::All,
            ending: Ending::Nothing,
            begin: 0,
        },
        unknown: Vec::new(alloc),
    };
    reader.read_all(text.len())?;
    Ok(ReadRuns {
        runs: reader.output.runs,
        unknown: reader.unknown,
    })
}

impl<'s> Reader<'s> {
    /// Reads a text of so many bytes. A step takes a character or ends a part, and a character
    /// begins one part at most.
    fn read_all(&mut self, length: usize) -> Result<(), AllocError> {
        for _ in 0..length.saturating_mul(4).saturating_add(4) {
            if self.frame.part == Part::Done {
                self.end_part()?;
            } else if !self.source.rest.is_empty() {
                self.step()?;
            } else if self.frame.part == Part::All {
                return Ok(());
            } else {
                self.end_part()?;
            }
        }
        Ok(())
    }

    /// Reads what stands next.
    fn step(&mut self) -> Result<(), AllocError> {
        if self.frame.part == Part::Command {
            self.frame.part = Part::Done;
            let _ = self.source.take();
            let name = self.name()?;
            return self.command(name.as_str());
        }
        match self.source.first() {
            Some('}') => self.brace(),
            Some('{') => {
                let _ = self.source.take();
                let mut style = self.frame.style.copy()?;
                style.is_protected = true;
                self.begin_part(style, Part::Group, Ending::Nothing)
            }
            Some('\\') if !self.source.rest.starts_with("\\(") => self.backslash(),
            _ => self.text(),
        }
    }

    /// A closing brace. One that closes nothing is left out.
    fn brace(&mut self) -> Result<(), AllocError> {
        let _ = self.source.take();
        if self.frame.part == Part::Group {
            return self.end_part();
        }
        self.frame.style = Style::plain(self.output.alloc);
        Ok(())
    }

    /// A command, which may change the rest of its group.
    fn backslash(&mut self) -> Result<(), AllocError> {
        let _ = self.source.take();
        let name = self.name()?;
        match switch_of(name.as_str()) {
            Some(Switch::To(format)) => {
                let style = self.frame.style.with(format)?;
                self.frame.style = style;
                Ok(())
            }
            Some(Switch::Plain) => {
                self.frame.style.formats.clear();
                Ok(())
            }
            None => self.command(name.as_str()),
        }
    }

    /// Text, a sign that stands for text, or a formula.
    fn text(&mut self) -> Result<(), AllocError> {
        if let Some(formula) = self.source.take_formula() {
            return self.formula(formula);
        }
        if let Some((sign, text)) = ligature_at(self.source.rest) {
            let _ = self.source.takes(sign);
            return self.push(text);
        }
        let plain = self.source.take_plain();
        if !plain.is_empty() {
            return self.push(plain);
        }
        match self.source.take() {
            Some(c) => self.push_char(c),
            None => Ok(()),
        }
    }

    fn push(&mut self, text: &str) -> Result<(), AllocError> {
        let frame = &self.frame;
        self.output.push(text, &frame.style, frame.begin)
    }

    fn push_char(&mut self, c: char) -> Result<(), AllocError> {
        let frame = &self.frame;
        self.output.push_char(c, &frame.style, frame.begin)
    }

    /// Takes the name of a command, behind its backslash: letters, or one other character.
    fn name(&mut self) -> Result<String, AllocError> {
        let alloc = self.output.alloc;
        let name = self.source.take_name();
        if name.is_empty() {
            let mut name = String::new(alloc);
            if let Some(c) = self.source.take() {
                name.push(c)?;
            }
            return Ok(name);
        }
        let _ = self.source.takes("*");
        self.source.skip_space();
        String::from_str(alloc, name)
    }
}

// ---- commands

impl<'s> Reader<'s> {
    /// What a command writes.
    fn command(&mut self, name: &str) -> Result<(), AllocError> {
        match command_of(name) {
            Command::Symbol(text) => {
                let _ = self.source.takes("{}");
                self.push(text)
            }
            Command::Formula => {
                let formula = self.source.take_group().unwrap_or("");
                self.formula(formula)
            }
            Command::Address => self.address(),
            Command::LeftOut(count) => {
                self.skip_groups(count);
                self.shown_group()
            }
            Command::Silent(count) => {
                self.skip_groups(count);
                Ok(())
            }
            Command::Transparent => self.shown_group(),
            Command::Unknown => {
                self.note(name)?;
                self.shown_group()
            }
            other => self.changing(other),
        }
    }

    /// What a command writes that changes its argument.
    fn changing(&mut self, command: Command) -> Result<(), AllocError> {
        let mut style = self.frame.style.copy()?;
        match command {
            Command::Accent(mark) => self.argument(style, Ending::Accent(mark)),
            Command::Upper => self.argument(style, Ending::Upper),
            Command::Lower => self.argument(style, Ending::Lower),
            Command::Format(format) => {
                let mut inside = style.with(format)?;
                inside.is_protected = style.is_protected || format == Format::SmallCaps;
                self.argument(inside, Ending::Nothing)
            }
            Command::Quote => self.quote(style),
            _ => {
                style.is_protected = true;
                self.argument(style, Ending::Nothing)
            }
        }
    }

    /// A text in quotation marks, which change inside others.
    fn quote(&mut self, style: Style) -> Result<(), AllocError> {
        let (opening, closing) = if style.is_quoted {
            ("‘", "’")
        } else {
            ("“", "”")
        };
        self.push(opening)?;
        let mut style = style;
        style.is_quoted = !style.is_quoted;
        self.argument(style, Ending::Quote(closing))
    }

    /// Begins the argument of a command: a group, a command, or one character.
    fn argument(&mut self, style: Style, ending: Ending) -> Result<(), AllocError> {
        self.source.skip_space();
        match self.source.first() {
            Some('{') => {
                let _ = self.source.take();
                self.begin_part(style, Part::Group, ending)
            }
            Some('\\') => self.begin_part(style, Part::Command, ending),
            Some('}') | None => self.begin_part(style, Part::Done, ending),
            Some(c) => {
                let _ = self.source.take();
                self.begin_part(style, Part::Done, ending)?;
                self.push_char(c)
            }
        }
    }

    /// Begins a group that stands here, as it is.
    fn shown_group(&mut self) -> Result<(), AllocError> {
        let mut ahead = self.source;
        ahead.skip_space();
        if ahead.takes("{") {
            self.source = ahead;
            let style = self.frame.style.copy()?;
            return self.begin_part(style, Part::Group, Ending::Nothing);
        }
        Ok(())
    }

    /// Leaves out so many groups that stand here.
    fn skip_groups(&mut self, count: usize) {
        for _ in 0..count {
            let _ = self.source.take_group();
        }
    }

    /// An address as it stands, whose case no style changes.
    fn address(&mut self) -> Result<(), AllocError> {
        let alloc = self.output.alloc;
        let address = address_of(alloc, self.source.take_group().unwrap_or(""))?;
        let mut style = self.frame.style.copy()?;
        style.is_protected = true;
        let begin = self.frame.begin;
        self.output.push(address.as_str(), &style, begin)
    }

    /// A formula: its letters are never changed.
    fn formula(&mut self, source: &str) -> Result<(), AllocError> {
        let alloc = self.output.alloc;
        let begin = self.frame.begin;
        match formula_runs(alloc, source)? {
            Some(runs) => {
                for run in &runs {
                    let mut style = self.frame.style.copy()?;
                    style.is_protected = true;
                    style.formats.extend_from_slice(&run.formats)?;
                    self.output.push(run.text.as_str(), &style, begin)?;
                }
                Ok(())
            }
            None => {
                self.note("$")?;
                let mut style = self.frame.style.copy()?;
                style.is_protected = true;
                self.output.push(source, &style, begin)
            }
        }
    }

    /// Notes a command that isn't known.
    fn note(&mut self, name: &str) -> Result<(), AllocError> {
        let is_noted = self.unknown.iter().any(|noted| noted.as_str() == name);
        if !is_noted && self.unknown.len() < MOST_UNKNOWN {
            self.unknown
                .push(String::from_str(self.output.alloc, name)?)?;
        }
        Ok(())
    }
}

// ---- parts

impl<'s> Reader<'s> {
    fn begin_part(&mut self, style: Style, part: Part, ending: Ending) -> Result<(), AllocError> {
        let frame = Frame {
            style,
            part,
            ending,
            begin: self.output.runs.len(),
        };
        let outer = replace(&mut self.frame, frame);
        self.outer.push(outer)?;
        Ok(())
    }

    /// Ends the innermost part.
    fn end_part(&mut self) -> Result<(), AllocError> {
        let Some(outer) = self.outer.pop() else {
            return Ok(());
        };
        let part = replace(&mut self.frame, outer);
        let ending = if self.outer.len() < DEEPEST_CHANGE {
            part.ending
        } else {
            Ending::Nothing
        };
        match ending {
            Ending::Nothing => Ok(()),
            Ending::Accent(mark) => {
                let text = self.output.take_text(part.begin)?;
                let text = accented(self.output.alloc, text.as_str(), mark)?;
                self.push(text.as_str())
            }
            Ending::Upper => self.output.change_case(part.begin, true),
            Ending::Lower => self.output.change_case(part.begin, false),
            Ending::Quote(mark) => self.push(mark),
        }
    }
}

/// A text with a mark on its first letter, or on a space.
fn accented(alloc: Global, text: &str, mark: char) -> Result<String, AllocError> {
    let mut letters = text.chars();
    let base = match letters.next() {
        Some('\u{131}') => 'i',
        Some('\u{237}') => 'j',
        Some(c) => c,
        None => '\u{a0}',
    };
    let mut out = String::new(alloc);
    match compose(base, mark) {
        Some(c) => out.push(c)?,
        None => {
            out.push(base)?;
            out.push(mark)?;
        }
    }
    out.push_str(letters.as_str())?;
    Ok(out)
}
