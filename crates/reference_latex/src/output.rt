//! What is written of a text.
use crate::run::{Format, Run};
use std::alloc::{AllocError, Global};

/// How many formats may be in one another. What is deeper adds none.
const DEEPEST: usize = 16;

/// How a text is written.
#[derive(Drop)]
pub(crate) struct Style {
    pub(crate) formats: Vec<Format>,
    pub(crate) is_protected: bool,
    /// Whether it stands in quotation marks that are the outer ones.
    pub(crate) is_quoted: bool,
}

impl Style {
    pub(crate) fn plain(alloc: Global) -> Style {
        Style {
            formats: Vec::new(alloc),
            is_protected: false,
            is_quoted: false,
        }
    }

    pub(crate) fn copy(&self) -> Result<Style, AllocError> {
        Ok(Style {
            formats: self.formats.clone()?,
            is_protected: self.is_protected,
            is_quoted: self.is_quoted,
        })
    }

    /// The same, and one format more.
    pub(crate) fn with(&self, format: Format) -> Result<Style, AllocError> {
        let mut style = self.copy()?;
        if style.formats.len() < DEEPEST {
            style.formats.push(format)?;
        }
        Ok(style)
    }
}

/// The runs that are written.
#[derive(Drop)]
pub(crate) struct Output {
    pub(crate) alloc: Global,
    pub(crate) runs: Vec<Run>,
}

impl Output {
    /// Appends a text: to the last run where that is one of these formats, and not one of those
    /// first ones that are done.
    pub(crate) fn push(
        &mut self,
        text: &str,
        style: &Style,
        done: usize,
    ) -> Result<(), AllocError> {
        if done < self.runs.len() {
            if let Some(last) = self.runs.last_mut() {
                if is_like(last, style) {
                    return last.text.push_str(text);
                }
            }
        }
        let run = self.run_of(text, style)?;
        self.runs.push(run)?;
        Ok(())
    }

    fn run_of(&self, text: &str, style: &Style) -> Result<Run, AllocError> {
        Ok(Run {
            text: String::from_str(self.alloc, text)?,
            formats: style.formats.clone()?,
            is_protected: style.is_protected,
        })
    }

    /// Appends a character.
    pub(crate) fn push_char(
        &mut self,
        c: char,
        style: &Style,
        done: usize,
    ) -> Result<(), AllocError> {
        let mut text = String::new(self.alloc);
        text.push(c)?;
        self.push(text.as_str(), style, done)
    }

    /// The text of the runs from an index on, which are removed.
    pub(crate) fn take_text(&mut self, begin: usize) -> Result<String, AllocError> {
        let mut text = String::new(self.alloc);
        for run in self.runs.iter().skip(begin) {
            text.push_str(run.text.as_str())?;
        }
        self.runs.truncate(begin);
        Ok(text)
    }

    /// Puts the runs from an index on into capitals, or into small letters.
    pub(crate) fn change_case(&mut self, begin: usize, is_upper: bool) -> Result<(), AllocError> {
        let alloc = self.alloc;
        for run in self.runs.iter_mut().skip(begin) {
            let changed = in_case(alloc, run.text.as_str(), is_upper)?;
            run.text = changed;
        }
        Ok(())
    }
}

fn is_like(run: &Run, style: &Style) -> bool {
    run.is_protected == style.is_protected && run.formats.as_slice() == style.formats.as_slice()
}

fn in_case(alloc: Global, text: &str, is_upper: bool) -> Result<String, AllocError> {
    let mut changed = String::new(alloc);
    for c in text.chars() {
        if is_upper {
            changed.extend(c.to_uppercase())?;
        } else {
            changed.extend(c.to_lowercase())?;
        }
    }
    Ok(changed)
}
