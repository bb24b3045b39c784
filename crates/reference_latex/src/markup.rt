//! Texts of CSL-JSON.
use crate::run::{Format, Run, single_spaced};
use crate::words::{is_lower, letters_at, words_of};
use std::alloc::{AllocError, Global};

fn begin_tag(format: Format) -> &'static str {
    match format {
        Format::Italic => "<i>",
        Format::Bold => "<b>",
        Format::SmallCaps => "<span style=\"font-variant:small-caps;\">",
        Format::Superscript => "<sup>",
        Format::Subscript => "<sub>",
        Format::NoCase => "<span class=\"nocase\">",
    }
}

fn end_tag(format: Format) -> &'static str {
    match format {
        Format::Italic => "</i>",
        Format::Bold => "</b>",
        Format::Superscript => "</sup>",
        Format::Subscript => "</sub>",
        Format::SmallCaps | Format::NoCase => "</span>",
    }
}

/// A text with tags, and those that are open.
#[derive(Drop)]
struct Tagged {
    text: String,
    open: Vec<Format>,
}

impl Tagged {
    /// Closes tags until no more than so many are open.
    fn close(&mut self, kept: usize) -> Result<(), AllocError> {
        for _ in kept..self.open.len() {
            if let Some(format) = self.open.pop() {
                self.text.push_str(end_tag(format))?;
            }
        }
        Ok(())
    }

    fn open(&mut self, format: Format) -> Result<(), AllocError> {
        self.text.push_str(begin_tag(format))?;
        self.open.push(format)?;
        Ok(())
    }

    /// Appends a text with these formats.
    fn push(&mut self, text: &str, formats: &[Format]) -> Result<(), AllocError> {
        let kept = same_beginning(&self.open, formats);
        self.close(kept)?;
        for format in formats.iter().skip(kept) {
            self.open(*format)?;
        }
        self.text.push_str(text)
    }

    /// Appends a run. No style may change its case where it is kept.
    fn push_run(&mut self, alloc: Global, run: &Run, is_kept: bool) -> Result<(), AllocError> {
        if !is_kept {
            return self.push(run.text.as_str(), &run.formats);
        }
        let mut formats = Vec::new(alloc);
        formats.push(Format::NoCase)?;
        formats.extend_from_slice(&run.formats)?;
        self.push(run.text.as_str(), &formats)
    }
}

/// How many formats both have at their beginnings.
fn same_beginning(open: &[Format], formats: &[Format]) -> usize {
    open.iter()
        .zip(formats.iter())
        .take_while(|pair| *pair.0 == *pair.1)
        .count()
}

fn nothing_tagged(alloc: Global) -> Tagged {
    Tagged {
        text: String::new(alloc),
        open: Vec::new(alloc),
    }
}

/// The runs as a text of CSL-JSON, with its tags.
///
/// # Errors
/// Where memory is refused.
pub fn csl_text(alloc: Global, runs: &[Run]) -> Result<String, AllocError> {
    let mut tagged = nothing_tagged(alloc);
    for run in &single_spaced(alloc, runs)? {
        tagged.push_run(alloc, run, false)?;
    }
    tagged.close(0)?;
    Ok(tagged.text)
}

/// The runs as a title of CSL-JSON. Words that a style may not change stand in a span of class
/// `nocase`, if it could: the case rules of CSL leave alone what has a capital.
///
/// # Errors
/// Where memory is refused.
pub fn csl_title(alloc: Global, runs: &[Run]) -> Result<String, AllocError> {
    let runs = single_spaced(alloc, runs)?;
    let mut tagged = nothing_tagged(alloc);
    let mut before: Option<char> = None;
    let mut rest = runs.as_slice();
    for _ in 0..runs.len() {
        let (own, behind) = group_of(rest);
        let is_kept = keeps_case(alloc, before, own, behind)?;
        for run in own {
            tagged.push_run(alloc, run, is_kept)?;
        }
        before = own
            .last()
            .and_then(|run| run.text.as_str().chars().next_back());
        rest = behind;
    }
    tagged.close(0)?;
    Ok(tagged.text)
}

/// The first runs, as far as they are protected or not, and the others.
fn group_of(runs: &[Run]) -> (&[Run], &[Run]) {
    let is_protected = runs.first().is_some_and(|run| run.is_protected);
    let count = runs
        .iter()
        .take_while(|run| run.is_protected == is_protected)
        .count();
    runs.split_at_checked(count).unwrap_or((runs, &[]))
}

/// Whether a span has to keep the case of runs.
fn keeps_case(
    alloc: Global,
    before: Option<char>,
    own: &[Run],
    behind: &[Run],
) -> Result<bool, AllocError> {
    if !own.first().is_some_and(|run| run.is_protected) {
        return Ok(false);
    }
    let mut letters = Vec::new(alloc);
    for run in own {
        letters.extend(run.text.as_str().chars())?;
    }
    let after = behind
        .first()
        .and_then(|run| run.text.as_str().chars().next());
    Ok(stands_apart(before, &letters, after) && has_lower_word(alloc, &letters)?)
}

/// Whether letters are no part of a longer word, which the characters beside them show.
fn stands_apart(before: Option<char>, letters: &[char], after: Option<char>) -> bool {
    !(is_letter(before) && is_letter(letters.first().copied())
        || is_letter(letters.last().copied()) && is_letter(after))
}

fn is_letter(c: Option<char>) -> bool {
    c.is_some_and(|c| c.is_alphanumeric())
}

fn has_lower_word(alloc: Global, letters: &[char]) -> Result<bool, AllocError> {
    for word in &words_of(alloc, letters)? {
        if is_lower(letters_at(letters, *word)) {
            return Ok(true);
        }
    }
    Ok(false)
}
