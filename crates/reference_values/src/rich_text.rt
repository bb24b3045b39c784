//! Text with markup.
use crate::markup::runs_of;
use std::alloc::{AllocError, Global};

/// Where a run stands against the line of its text.
#[derive(Clone, Copy, PartialEq, Eq)]
pub enum Baseline {
    Normal,
    Superscript,
    Subscript,
}

/// How a run differs from the text that it is written into.
///
/// Markup of the same kind flips: italics within italics are upright again, and so with bold and
/// with small capitals. So `italic` says whether the run is flipped, and a writer that writes the
/// whole text in italics writes such a run upright.
#[derive(Clone, Copy, PartialEq, Eq)]
pub struct RunStyle {
    pub italic: bool,
    pub bold: bool,
    pub small_caps: bool,
    /// The innermost of the superscripts and subscripts around the run.
    pub baseline: Baseline,
    /// Whether no text-case changes the run.
    pub keeps_case: bool,
}

impl RunStyle {
    /// The style of a run without markup.
    pub const PLAIN: RunStyle = RunStyle {
        italic: false,
        bold: false,
        small_caps: false,
        baseline: Baseline::Normal,
        keeps_case: false,
    };
}

/// A text of one style.
#[derive(Clone, PartialEq, Eq, Drop)]
pub struct Run {
    pub text: String,
    pub style: RunStyle,
}

/// A text in runs. No run is empty; neighbours differ in style.
#[derive(Clone, PartialEq, Eq, Drop)]
pub struct RichText {
    pub runs: Vec<Run>,
}

impl RichText {
    /// The text that this markup writes: that of CSL-JSON, which is
    /// `<i>`, `<b>`, `<sc>`, `<sup>`, `<sub>`, `<span style="font-variant:small-caps;">` and
    /// `<span class="nocase">`. A tag that is none of these, or that no other tag answers, is text.
    ///
    /// # Errors
    /// Where memory is refused.
    pub fn of_markup(alloc: Global, markup: &str) -> Result<RichText, AllocError> {
        Ok(RichText {
            runs: runs_of(alloc, markup)?,
        })
    }

    /// The text without its markup.
    ///
    /// # Errors
    /// Where memory is refused.
    pub fn plain(&self, alloc: Global) -> Result<String, AllocError> {
        let mut text = String::new(alloc);
        for run in &self.runs {
            text.push_str(run.text.as_str())?;
        }
        Ok(text)
    }

    pub fn is_empty(&self) -> bool {
        self.runs.is_empty()
    }
}
