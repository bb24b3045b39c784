//! What is wrong and odd in files, as errors of a command and as lines on standard error.
use crate::document_error::DocumentError;
use crate::error::CommandError;
use cite_limits::error::Excess;
use cite_limits::places::place_in;
use fault_places::place::FaultPlace;
use program_faults::faults::style_warnings;
use program_faults::finding::{Finding, PrintedFinding};
use std::alloc::{AllocError, Global};
use std::fmt;
use style_elements::error::StyleError;
use style_elements::warning::Warning;
use style_file::style::CslStyle;
use style_xml::error::Place;

/// What is wrong with a file as a whole.
///
/// # Errors
///
/// Where memory is refused.
pub fn refused<W: fmt::Display>(
    alloc: Global,
    path: &str,
    why: &W,
) -> Result<CommandError, AllocError> {
    refused_in(alloc, path, FaultPlace::Whole, why)
}

/// What is wrong at a line and a column of a file.
///
/// # Errors
///
/// Where memory is refused.
pub fn refused_at<W: fmt::Display>(
    alloc: Global,
    path: &str,
    place: Place,
    why: &W,
) -> Result<CommandError, AllocError> {
    refused_in(alloc, path, FaultPlace::Line(place), why)
}

/// What is wrong at a place of a file.
///
/// # Errors
///
/// Where memory is refused.
pub fn refused_in<W: fmt::Display>(
    alloc: Global,
    path: &str,
    place: FaultPlace,
    why: &W,
) -> Result<CommandError, AllocError> {
    refused_for(alloc, path, Finding::error(alloc, place, why)?)
}

/// The error of a file that has this fault.
///
/// # Errors
///
/// Where memory is refused.
pub fn refused_for(alloc: Global, path: &str, fault: Finding) -> Result<CommandError, AllocError> {
    let mut faults = Vec::new(alloc);
    faults.push(fault)?;
    refused_for_all(alloc, path, faults)
}

/// The error of a file that has these faults.
///
/// # Errors
///
/// Where memory is refused.
pub fn refused_for_all(
    alloc: Global,
    path: &str,
    faults: Vec<Finding>,
) -> Result<CommandError, AllocError> {
    Ok(CommandError::Refused {
        path: String::from_str(alloc, path)?,
        faults,
    })
}

/// What the style in a file exceeds; this is the text of the file.
///
/// # Errors
///
/// Where memory is refused.
pub fn limit_exceeded(
    alloc: Global,
    path: &str,
    text: &str,
    style: &CslStyle,
    excess: &Excess,
) -> Result<CommandError, AllocError> {
    let place = FaultPlace::at_line(place_in(alloc, text, style, excess.place)?);
    Ok(CommandError::LimitExceeded {
        path: String::from_str(alloc, path)?,
        fault: Finding::error(alloc, place, excess)?,
    })
}

/// Why the document in a file has no answer.
///
/// # Errors
///
/// Where memory is refused.
pub fn document_refused(
    alloc: Global,
    path: &str,
    why: DocumentError,
) -> Result<CommandError, AllocError> {
    Ok(CommandError::Document {
        path: String::from_str(alloc, path)?,
        why,
    })
}

/// What is wrong with a style file or a locale file.
///
/// # Errors
///
/// Where memory is refused.
pub fn style_refused(
    alloc: Global,
    path: &str,
    error: &StyleError,
) -> Result<CommandError, AllocError> {
    match error {
        StyleError::Malformed(fault, place) => refused_at(alloc, path, *place, fault),
        StyleError::Refused(fault, place) => refused_at(alloc, path, *place, fault),
        StyleError::OutOfMemory => Ok(CommandError::OutOfMemory),
    }
}

/// Prints what was found in a file. A line that can't be printed is left out.
pub fn show_findings(rt: &impl Eprint, path: &str, findings: &[Finding]) {
    for finding in findings {
        let line = PrintedFinding { path, finding };
        let _ = eprintln!(rt; "{line}");
    }
}

/// Prints what is odd in a style file or a locale file. A line that can't be printed is left out.
///
/// # Errors
///
/// Where memory is refused.
pub fn show_style_warnings(
    rt: &(impl Eprint + AllocGlobal),
    path: &str,
    warnings: &[Warning],
) -> Result<(), AllocError> {
    show_findings(rt, path, &style_warnings(rt.alloc(), warnings)?);
    Ok(())
}

/// Prints what is odd in a file as a whole. A line that can't be printed is left out.
///
/// # Errors
///
/// Where memory is refused.
pub fn show_warning<W: fmt::Display>(
    rt: &(impl Eprint + AllocGlobal),
    path: &str,
    warning: &W,
) -> Result<(), AllocError> {
    let finding = Finding::warning(rt.alloc(), FaultPlace::Whole, warning)?;
    let finding = &finding;
    let line = PrintedFinding { path, finding };
    let _ = eprintln!(rt; "{line}");
    Ok(())
}
