//! What is wrong and odd in a style file or a locale file.
use crate::finding::Finding;
use fault_places::place::FaultPlace;
use program_command::one_line::is_direction;
use std::alloc::{AllocError, Global};
use std::fmt;
use style_elements::error::StyleError;
use style_elements::warning::Warning;
use style_reader::file::faults_in_file;
use style_xml::error::Place;

/// What is wrong with a style file or a locale file of this text, in the order of the places: each
/// with its line, and a caret below it.
///
/// # Errors
///
/// Where memory is refused.
pub fn style_faults(alloc: Global, text: &str) -> Result<Vec<Finding>, AllocError> {
    let mut faults = Vec::new(alloc);
    for error in &faults_in_file(alloc, text)? {
        faults.push(match error {
            StyleError::Malformed(fault, place) => fault_at(alloc, text, *place, fault)?,
            StyleError::Refused(fault, place) => fault_at(alloc, text, *place, fault)?,
            StyleError::OutOfMemory => return Err(AllocError),
        })?;
    }
    Ok(faults)
}

fn fault_at<W: fmt::Display>(
    alloc: Global,
    text: &str,
    place: Place,
    why: &W,
) -> Result<Finding, AllocError> {
    let mut fault = Finding::error(alloc, FaultPlace::Line(place), why)?;
    fault.excerpt = Some(line_with_caret(alloc, text, place)?);
    Ok(fault)
}

/// What is odd in a style file or a locale file, by the warnings of its reader.
///
/// # Errors
///
/// Where memory is refused.
pub fn style_warnings(alloc: Global, warnings: &[Warning]) -> Result<Vec<Finding>, AllocError> {
    let mut findings = Vec::new(alloc);
    for warning in warnings {
        let place = FaultPlace::Line(warning.place);
        findings.push(Finding::warning(alloc, place, warning)?)?;
    }
    Ok(findings)
}

/// How many characters of a line are shown at most.
const MOST_SHOWN: usize = 100;

/// How many of them stand before the place at most, in a line that is longer.
const MOST_BEFORE: usize = 60;

/// The line of a text that has this place, as far as it is shown, and below it a caret at the
/// place.
fn line_with_caret(alloc: Global, text: &str, place: Place) -> Result<String, AllocError> {
    let line = text.lines().nth(place.line.saturating_sub(1)).unwrap_or("");
    let before = place.column.saturating_sub(1);
    let is_long = line.chars().count() > MOST_SHOWN;
    let start = if is_long {
        before.saturating_sub(MOST_BEFORE)
    } else {
        0
    };
    let mut shown = String::from_str(alloc, "    ")?;
    for c in line.chars().skip(start).take(MOST_SHOWN) {
        shown.push(if is_shown(c) { c } else { ' ' })?;
    }
    shown.push_str("\n    ")?;
    for _ in start..before {
        shown.push(' ')?;
    }
    shown.push('^')?;
    Ok(shown)
}

/// Whether a character is shown as it is.
fn is_shown(c: char) -> bool {
    !c.is_control() && !is_direction(c)
}
