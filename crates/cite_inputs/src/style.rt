//! The style of a call.
use crate::error::{CallError, refusal};
use crate::json::no_utf8_at;
use crate::reader::TextReader;
use crate::remark::{Fault, ParentStyle, Remark};
use crate::texts::TextName;
use fault_places::place::FaultPlace;
use std::alloc::{AllocError, Global};
use style_elements::error::StyleError;
use style_elements::warning::Warning;
use style_file::style::{CslStyle, DependentStyle, StyleFile};
use style_reader::file::{faults_in_file, read_style};
use style_xml::error::place_at;

impl TextReader {
    /// The style of a style file.
    ///
    /// # Errors
    ///
    /// `Fault` where the text is no style file, or a dependent style; `OutOfMemory`.
    pub(crate) fn style(&mut self, bytes: &[u8]) -> Result<CslStyle, CallError> {
        match str::from_utf8(bytes) {
            Ok(text) => self.style_in(text),
            Err(error) => Err(no_utf8(self.alloc, bytes, error.valid_up_to())),
        }
    }

    fn style_in(&mut self, text: &str) -> Result<CslStyle, CallError> {
        match read_style(self.alloc, text) {
            Ok((file, warnings)) => {
                self.warn_of_file(TextName::Style, &warnings)?;
                independent(self.alloc, file)
            }
            Err(error) => Err(file_refusal(self.alloc, TextName::Style, &error)),
        }
    }

    /// Warns of what is odd in a style file or a locale file.
    pub(crate) fn warn_of_file(
        &mut self,
        name: TextName,
        warnings: &[Warning],
    ) -> Result<(), AllocError> {
        for warning in warnings {
            self.warn(name, FaultPlace::Line(warning.place), warning)?;
        }
        Ok(())
    }
}

/// The error of a style file that is no UTF-8 from this byte on.
fn no_utf8(alloc: Global, bytes: &[u8], byte: usize) -> CallError {
    let valid = &bytes[..byte.min(bytes.len())];
    let text = str::from_utf8(valid).unwrap_or("");
    let place = FaultPlace::Line(place_at(text, byte));
    no_utf8_at(alloc, TextName::Style, place, byte)
}

/// All that is wrong with a style file, in the order of the places; nothing where the text is no
/// UTF-8.
///
/// # Errors
///
/// Where memory is refused.
pub fn style_faults(alloc: Global, bytes: &[u8]) -> Result<Vec<Remark>, AllocError> {
    let mut remarks = Vec::new(alloc);
    if let Ok(text) = str::from_utf8(bytes) {
        for error in &faults_in_file(alloc, text)? {
            remarks.push(style_remark(alloc, error)?)?;
        }
    }
    Ok(remarks)
}

fn style_remark(alloc: Global, error: &StyleError) -> Result<Remark, AllocError> {
    let (place, message) = match error {
        StyleError::Malformed(fault, place) => (*place, format!(in alloc; "{fault}")?),
        StyleError::Refused(fault, place) => (*place, format!(in alloc; "{fault}")?),
        StyleError::OutOfMemory => return Err(AllocError),
    };
    Ok(Remark {
        text: TextName::Style,
        place: FaultPlace::Line(place),
        message,
    })
}

/// Why a text is no style file or no locale file.
pub(crate) fn file_refusal(alloc: Global, name: TextName, error: &StyleError) -> CallError {
    match error {
        StyleError::Malformed(fault, place) => {
            refusal(alloc, name, FaultPlace::Line(*place), fault)
        }
        StyleError::Refused(fault, place) => refusal(alloc, name, FaultPlace::Line(*place), fault),
        StyleError::OutOfMemory => CallError::OutOfMemory,
    }
}

/// A style that stands for itself.
fn independent(alloc: Global, file: StyleFile) -> Result<CslStyle, CallError> {
    match file {
        StyleFile::Independent(style) => Ok(style),
        StyleFile::Dependent(style) => Err(CallError::Fault(dependent_fault(alloc, style)?)),
    }
}

/// What is wrong with a style that stands for another one.
fn dependent_fault(alloc: Global, style: DependentStyle) -> Result<Fault, AllocError> {
    let DependentStyle {
        info: _,
        default_locale,
        parent,
    } = style;
    let link = parent.as_str();
    let message = format!(in alloc; "it stands for the style `{link}`, which is to be given")?;
    Ok(Fault {
        remark: Remark {
            text: TextName::Style,
            place: FaultPlace::Whole,
            message,
        },
        parent: Some(ParentStyle {
            link: parent,
            language: default_locale,
        }),
    })
}
