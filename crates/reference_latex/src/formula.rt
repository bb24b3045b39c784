//! Small formulas.
use crate::alphabets::{Alphabet, in_alphabet};
use crate::formula_signs::{FormulaCommand, formula_command};
use crate::output::{Output, Style};
use crate::run::{Format, Run};
use crate::source::Source;
use std::alloc::{AllocError, Global};
use std::mem::replace;

/// How many parts of a formula may be in one another.
const DEEPEST: usize = 20;

/// What ends a part of a formula.
#[derive(Clone, Copy, PartialEq, Eq)]
enum Part {
    /// The end of the formula.
    All,
    /// A brace.
    Group,
    /// It is what stands next: a group, a command, a number or a character.
    Next,
    /// It is done.
    Done,
}

/// A part of a formula that is open.
#[derive(Drop)]
struct Frame {
    style: Style,
    /// The format of letters.
    letters: Option<Format>,
    part: Part,
    /// The alphabet of its capitals.
    alphabet: Option<Alphabet>,
    /// How many runs stand before it.
    begin: usize,
}

#[derive(Drop)]
struct Formula<'s> {
    source: Source<'s>,
    output: Output,
    /// The outermost first. What is being read isn't among them.
    outer: Vec<Frame>,
    frame: Frame,
    is_known: bool,
}

/// The runs of a formula, whose letters are italic; none of one that has what isn't known.
///
/// # Errors
/// Where memory is refused.
pub(crate) fn formula_runs(alloc: Global, source: &str) -> Result<Option<Vec<Run>>, AllocError> {
    let mut formula = Formula {
        source: Source::new(source),
        output: Output {
            alloc,
            runs: Vec::new(alloc),
        },
        outer: Vec::new(alloc),
        frame: Frame {
            style: Style::plain(alloc),
            letters: Some(Format::Italic),
            part: Part::All,
            alphabet: None,
            begin: 0,
        },
        is_known: true,
    };
    formula.read_all(source.len())?;
    if formula.is_known {
        Ok(Some(formula.output.runs))
    } else {
        Ok(None)
    }
}

impl<'s> Formula<'s> {
    /// Reads a formula of so many bytes. A step takes a character or ends a part, and a character
    /// begins one part at most.
    fn read_all(&mut self, length: usize) -> Result<(), AllocError> {
        for _ in 0..length.saturating_mul(4).saturating_add(4) {
            if !self.is_known {
                return Ok(());
            } else if self.frame.part == Part::Done {
                self.end_part()?;
            } else if self.source.rest.is_empty() {
                self.is_known = self.frame.part == Part::All;
                return Ok(());
            } else {
                self.step()?;
            }
        }
        Ok(())
    }

    /// Reads what stands next.
    fn step(&mut self) -> Result<(), AllocError> {
        if self.skips_space() {
            return Ok(());
        }
        let is_group = self.frame.part == Part::Group;
        if self.frame.part == Part::Next {
            self.frame.part = Part::Done;
        }
        if self.source.first().is_some_and(|c| c.is_ascii_digit()) {
            let number = self.source.take_number();
            return self.push(number);
        }
        let letters = self.frame.letters;
        match self.source.take() {
            Some('}') if is_group => self.end_part(),
            Some('}') | None => {
                self.is_known = false;
                Ok(())
            }
            Some('{') => self.begin_part(Part::Group, letters, None),
            Some('^') => self.begin_script(Format::Superscript),
            Some('_') => self.begin_script(Format::Subscript),
            Some('\\') => self.backslash(),
            Some(c) => self.character(c),
        }
    }

    /// Takes white space, which upright letters show.
    fn skips_space(&mut self) -> bool {
        let before = self.source.rest.len();
        let is_shown = self.frame.letters.is_none() && self.frame.part != Part::Next;
        if !is_shown {
            self.source.skip_space();
        }
        self.source.rest.len() < before
    }

    fn character(&mut self, c: char) -> Result<(), AllocError> {
        if c.is_alphabetic() {
            let mut text = String::new(self.output.alloc);
            text.push(c)?;
            return self.push_letter(text.as_str());
        }
        let sign = match c {
            '-' => '−',
            '*' => '∗',
            '\'' => '′',
            '~' => '\u{a0}',
            c => c,
        };
        let frame = &self.frame;
        self.output.push_char(sign, &frame.style, frame.begin)
    }

    fn push(&mut self, text: &str) -> Result<(), AllocError> {
        let frame = &self.frame;
        self.output.push(text, &frame.style, frame.begin)
    }

    /// Appends a letter, with the format of letters.
    fn push_letter(&mut self, text: &str) -> Result<(), AllocError> {
        match self.frame.letters {
            Some(format) => {
                let style = self.frame.style.with(format)?;
                let begin = self.frame.begin;
                self.output.push(text, &style, begin)
            }
            None => self.push(text),
        }
    }

    /// Reads a command, behind its backslash.
    fn backslash(&mut self) -> Result<(), AllocError> {
        let name = self.source.take_name();
        let command = if name.is_empty() {
            let mut name = String::new(self.output.alloc);
            if let Some(c) = self.source.take() {
                name.push(c)?;
            }
            formula_command(name.as_str())
        } else {
            self.source.skip_space();
            formula_command(name)
        };
        match command {
            FormulaCommand::Letter(letter) => self.push_letter(letter),
            FormulaCommand::Sign(sign) => self.push(sign),
            FormulaCommand::Letters(letters) => self.begin_part(Part::Next, letters, None),
            FormulaCommand::Alphabet(alphabet) => {
                self.begin_part(Part::Next, None, Some(alphabet))
            }
            FormulaCommand::Unknown => {
                self.is_known = false;
                Ok(())
            }
        }
    }

    /// Begins what is above or below the line.
    fn begin_script(&mut self, format: Format) -> Result<(), AllocError> {
        let letters = self.frame.letters;
        self.begin_part(Part::Next, letters, None)?;
        let style = self.frame.style.with(format)?;
        self.frame.style = style;
        Ok(())
    }

    fn begin_part(
        &mut self,
        part: Part,
        letters: Option<Format>,
        alphabet: Option<Alphabet>,
    ) -> Result<(), AllocError> {
        if self.outer.len() >= DEEPEST {
            self.is_known = false;
        }
        let frame = Frame {
            style: self.frame.style.copy()?,
            letters,
            part,
            alphabet,
            begin: self.output.runs.len(),
        };
        let outer = replace(&mut self.frame, frame);
        self.outer.push(outer)?;
        Ok(())
    }

    /// Ends the innermost part.
    fn end_part(&mut self) -> Result<(), AllocError> {
        let Some(outer) = self.outer.pop() else {
            return Ok(());
        };
        let part = replace(&mut self.frame, outer);
        match part.alphabet {
            Some(alphabet) => {
                let text = self.output.take_text(part.begin)?;
                let text = in_alphabet(self.output.alloc, text.as_str(), alphabet)?;
                self.push(text.as_str())
            }
            None => Ok(()),
        }
    }
}
