//! Texts with formats.
use std::alloc::{AllocError, Global};

/// How a part of a text is set.
#[derive(Clone, Copy, PartialEq, Eq)]
pub enum Format {
    Italic,
    Bold,
    SmallCaps,
    Superscript,
    Subscript,
    /// No style may change its case.
    NoCase,
}

/// A part of a text.
#[derive(Drop)]
pub struct Run {
    pub text: String,
    /// The outermost first.
    pub formats: Vec<Format>,
    /// Whether no style may change its case.
    pub is_protected: bool,
}

/// Whether the character is a space at which a line may break.
fn is_space(c: char) -> bool {
    matches!(c, ' ' | '\t' | '\r' | '\n' | '\u{b}' | '\u{c}')
}

/// The text with single spaces, and with none at its beginning behind another one.
fn collapsed(alloc: Global, text: &str, is_behind_space: bool) -> Result<String, AllocError> {
    let mut out = String::new(alloc);
    let mut is_behind_space = is_behind_space;
    for c in text.chars() {
        if !is_space(c) {
            out.push(c)?;
        } else if !is_behind_space {
            out.push(' ')?;
        }
        is_behind_space = is_space(c);
    }
    Ok(out)
}

/// A run of another text with the same formats.
fn like(run: &Run, text: String) -> Result<Run, AllocError> {
    Ok(Run {
        text,
        formats: run.formats.clone()?,
        is_protected: run.is_protected,
    })
}

/// The runs with single spaces, with none at both ends, and without empty runs. Spaces that don't
/// break a line stay.
///
/// # Errors
/// Where memory is refused.
pub fn single_spaced(alloc: Global, runs: &[Run]) -> Result<Vec<Run>, AllocError> {
    let mut found = Vec::with_capacity(alloc, runs.len())?;
    let mut is_behind_space = true;
    for run in runs {
        let text = collapsed(alloc, run.text.as_str(), is_behind_space)?;
        if !text.is_empty() {
            is_behind_space = text.as_str().ends_with(' ');
            found.push(like(run, text)?)?;
        }
    }
    end_trimmed(alloc, &mut found)?;
    Ok(found)
}

/// Removes the space at the end of the last run, and the run if it was nothing else. No run before
/// ends with a space then.
fn end_trimmed(alloc: Global, runs: &mut Vec<Run>) -> Result<(), AllocError> {
    if let Some(last) = runs.pop() {
        let text = last.text.as_str().trim_end_matches(' ');
        if !text.is_empty() {
            let text = String::from_str(alloc, text)?;
            runs.push(like(&last, text)?)?;
        }
    }
    Ok(())
}

/// The text alone, with single spaces.
///
/// # Errors
/// Where memory is refused.
pub fn plain(alloc: Global, runs: &[Run]) -> Result<String, AllocError> {
    let mut out = String::new(alloc);
    for run in &single_spaced(alloc, runs)? {
        out.push_str(run.text.as_str())?;
    }
    Ok(out)
}

/// The runs up to the first colon; none where there is no colon.
///
/// # Errors
/// Where memory is refused.
pub fn before_colon(alloc: Global, runs: &[Run]) -> Result<Vec<Run>, AllocError> {
    let mut found = Vec::new(alloc);
    for run in runs {
        match run.text.as_str().split_once(':') {
            Some((head, _)) => {
                let head = String::from_str(alloc, head)?;
                found.push(like(run, head)?)?;
                return Ok(found);
            }
            None => found.push(like(run, run.text.clone()?)?)?,
        }
    }
    found.clear();
    Ok(found)
}
