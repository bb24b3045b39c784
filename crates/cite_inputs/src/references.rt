//! References in any form, as CSL-JSON.
ghost use Rattle.std.specs.Prelude.{◌≡◌, IfErr};

use crate::entries::entries_in;
use crate::error::CallError;
use crate::findings::{print_findings, print_items};
use crate::json::json_value;
use crate::options::options_of;
use crate::reader::TextReader;
use crate::texts::TextName;
use serde_json::Value;
use std::alloc::Global;

/// The items of a text of CSL-JSON, BibTeX, BibLaTeX or RIS, as a JSON object: `items`, their list
/// in CSL-JSON, and `warnings`, the list of what was lost of their entries or is odd in them, as
/// `find_fault` has it. Where the text or the options are wrong, `fault` says what is, and there
/// are no `items`. Of the options `from`, `locale` and `entries` count: where that is true,
/// `entries` has those of BibTeX as they stand in the text.
///
/// # Errors
///
/// `OutOfMemory`, and no other.
pub fn read_references(alloc: Global, text: &[u8], options: &[u8]) -> Result<String, CallError>
    ensures { IfErr result (λ e. e ≡ CallError.OutOfMemory) }
{
    let mut reader = TextReader::new(alloc);
    let read = reader.items_as_json(text, options);
    let printed = match read {
        Ok(read) => print_items(alloc, read.items.as_str(), &read.entries, &reader.warnings),
        Err(CallError::Fault(fault)) => print_findings(alloc, Some(fault), &[], &reader.warnings),
        Err(_) => return Err(CallError::OutOfMemory),
    };
    match printed {
        Ok(text) => Ok(text),
        Err(_) => Err(CallError::OutOfMemory),
    }
}

/// What was read of a text of references, as JSON.
#[derive(Drop)]
struct ReadJson {
    /// The list of items, in CSL-JSON.
    items: String,
    /// The list of entries, where it is asked for.
    entries: Option<Value>,
}

impl TextReader {
    /// The items of a text, and its entries where the options ask for them.
    fn items_as_json(&mut self, text: &[u8], options: &[u8]) -> Result<ReadJson, CallError> {
        let options = options_of(self.alloc, options)?;
        let items = match self.converted_items(text, &options)? {
            Some(json) => json,
            None => self.items_as_they_stand(text)?,
        };
        let entries = if options.shows_entries {
            Some(entries_in(self.alloc, text, options.form_of(text))?)
        } else {
            None
        };
        Ok(ReadJson { items, entries })
    }

    /// The list of items of CSL-JSON, as it stands there.
    fn items_as_they_stand(&mut self, text: &[u8]) -> Result<String, CallError> {
        drop(self.json_items(text, false)?);
        let whole = json_value(self.alloc, TextName::Items, text)?;
        let items = whole.get("items").unwrap_or(&whole);
        Ok(items.to_string(self.alloc)?)
    }
}
