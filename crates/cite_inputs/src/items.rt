//! The items of a call.
use crate::error::CallError;
use crate::json::{no_json, no_utf8, wrong_part};
use crate::options::CallOptions;
use crate::reader::TextReader;
use crate::texts::TextName;
use fault_places::place::FaultPlace;
use reference_files::form::ReferenceForm;
use reference_files::reading::read_file;
use reference_items::json::json_of;
use reference_items::reading::ReadItems;
use reference_json::fault::{Fault, ReferencesError};
use reference_json::reading::{read_references, read_sound_references};
use reference_values::reference::References;
use std::alloc::{AllocError, Global};
use style_english::language::DEFAULT_LANGUAGE;
use style_xml::error::Place;

impl TextReader {
    /// The items of CSL-JSON, BibTeX, BibLaTeX or RIS: in the form that the options name, or else
    /// in that of the beginning of the text. Of a draft, an item with a fault is left out, with a
    /// warning.
    ///
    /// # Errors
    ///
    /// `Fault` where the text is none; `OutOfMemory`.
    pub fn items(&mut self, bytes: &[u8], options: &CallOptions) -> Result<References, CallError> {
        match self.converted_items(bytes, options)? {
            Some(json) => self.json_items(json.as_bytes(), options.is_draft),
            None => self.json_items(bytes, options.is_draft),
        }
    }

    /// The CSL-JSON of items in another form, with warnings of what is lost of their entries and of
    /// what can't be read. None where the items are CSL-JSON.
    ///
    /// # Errors
    ///
    /// `Fault` where the text is no UTF-8; `OutOfMemory`.
    pub(crate) fn converted_items(
        &mut self,
        bytes: &[u8],
        options: &CallOptions,
    ) -> Result<Option<String>, CallError> {
        let form = options.form_of(bytes);
        if form == ReferenceForm::Json {
            return Ok(None);
        }
        let text = match str::from_utf8(bytes) {
            Ok(text) => text,
            Err(error) => return Err(no_utf8(self.alloc, TextName::Items, error.valid_up_to())),
        };
        let language = options.language.as_deref().unwrap_or(DEFAULT_LANGUAGE);
        match read_file(self.alloc, form, text, language)? {
            Some(read) => {
                self.warn_of_entries(&read)?;
                Ok(Some(json_of(self.alloc, &read.items)?))
            }
            None => Ok(None),
        }
    }

    /// Warns of what of a text is no entry that can be read, and of what items don't have of their
    /// entries.
    fn warn_of_entries(&mut self, read: &ReadItems) -> Result<(), AllocError> {
        for fault in &read.faults {
            let place = FaultPlace::Line(Place {
                line: fault.line,
                column: fault.column,
            });
            self.warn(TextName::Items, place, &fault.reason)?;
        }
        for loss in &read.losses {
            let place = FaultPlace::Field {
                entry: loss.entry.clone()?,
                field: loss.field.clone()?,
            };
            self.warn(TextName::Items, place, &loss.reason)?;
        }
        Ok(())
    }

    /// The items of CSL-JSON. Of a draft, an item with a fault is left out, with a warning.
    ///
    /// # Errors
    ///
    /// `Fault` where the text is none; `OutOfMemory`.
    pub(crate) fn json_items(
        &mut self,
        bytes: &[u8],
        is_draft: bool,
    ) -> Result<References, CallError> {
        let read = if is_draft {
            read_sound_references(self.alloc, bytes)
        } else {
            read_references(self.alloc, bytes)
        };
        match read {
            Ok(read) => {
                for warning in &read.warnings {
                    self.warn_of_part(TextName::Items, &warning.pointer, &warning.kind)?;
                }
                Ok(read.references)
            }
            Err(error) => Err(items_refusal(self.alloc, &error)),
        }
    }
}

/// Why a text has no items.
fn items_refusal(alloc: Global, error: &ReferencesError) -> CallError {
    match error {
        ReferencesError::NoUtf8 { byte } => no_utf8(alloc, TextName::Items, *byte),
        ReferencesError::NoJson { line, column } => {
            no_json(alloc, TextName::Items, *line, *column)
        }
        ReferencesError::Fault(fault) => item_refusal(alloc, fault),
        ReferencesError::OutOfMemory => CallError::OutOfMemory,
    }
}

fn item_refusal(alloc: Global, fault: &Fault) -> CallError {
    let found = &fault.found;
    let wanted = &fault.wanted;
    match format!(in alloc; "found {found}, wanted {wanted}") {
        Ok(why) => wrong_part(alloc, TextName::Items, &fault.pointer, &why),
        Err(_) => CallError::OutOfMemory,
    }
}
