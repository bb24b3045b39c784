//! Texts of LaTeX.
pub use crate::address::address_of;
pub use crate::markup::{csl_text, csl_title};
use crate::reader::read_runs;
use crate::run::{Run, plain};
use std::alloc::{AllocError, Global};

/// What a text of LaTeX says.
#[derive(Drop)]
pub struct LatexText {
    pub runs: Vec<Run>,
    /// The commands that aren't known, each once, without their backslash. `$` stands for a formula
    /// that is kept as its source.
    pub unknown: Vec<String>,
}

/// What a text of LaTeX says. What stands in braces, and isn't the argument of a command, keeps its
/// case. Of a command that isn't known its arguments stay.
///
/// # Errors
/// Where memory is refused.
pub fn read_latex(alloc: Global, source: &str) -> Result<LatexText, AllocError> {
    let read = read_runs(alloc, source)?;
    Ok(LatexText {
        runs: read.runs,
        unknown: read.unknown,
    })
}

/// The text that a text of LaTeX is, without its formats.
///
/// # Errors
/// Where memory is refused.
pub fn plain_of(alloc: Global, source: &str) -> Result<String, AllocError> {
    plain(alloc, &read_runs(alloc, source)?.runs)
}
