//! The JSON of what changed.
use crate::changes::{KeyedTexts, changed, gone, has_same_keys};
use crate::style::SessionStyle;
use crate::written::WrittenTexts;
use cite_inputs::options::AnswerForm;
use csl_base::text::Text;
use ordered_map::map::OrderedMap;
use serde_json::Value;
use std::alloc::{AllocError, Global};
use style_file::sections::{BibliographyOptions, SecondFieldAlign};

/// What a list of texts has in the JSON.
#[derive(Clone, Copy)]
struct ListNames {
    /// The name of a key.
    key: &'static str,
    /// The name of the list of all keys.
    keys: &'static str,
    /// The name of what is JSON itself, and no text.
    whole: &'static str,
}

const OF_CITATIONS: ListNames = ListNames {
    key: "key",
    keys: "keys",
    whole: "citation",
};

const OF_BIBLIOGRAPHY: ListNames = ListNames {
    key: "id",
    keys: "ids",
    whole: "item",
};

/// A JSON object with what changed since an answer; with everything where there was none.
///
/// # Errors
///
/// Where memory is refused.
pub(crate) fn print_changes(
    alloc: Global,
    style: &SessionStyle,
    old: Option<&WrittenTexts>,
    new: &WrittenTexts,
) -> Result<String, AllocError> {
    let (old_citations, old_items) = match old {
        Some(old) => (Some(&old.citations), old.bibliography.as_ref()),
        None => (None, None),
    };
    let mut printer = Printer {
        alloc,
        is_json: style.form == AnswerForm::Json,
        out: String::from_str(alloc, "{")?,
    };
    if let Some(items) = &new.bibliography {
        printer.push_str("\"bibliography\":{")?;
        printer.push_changes(OF_BIBLIOGRAPHY, old_items, items)?;
        printer.push_layout(style)?;
        printer.push_str("},")?;
    }
    printer.push_str("\"citations\":{")?;
    printer.push_changes(OF_CITATIONS, old_citations, &new.citations)?;
    printer.push_str("}}")?;
    Ok(printer.out)
}

/// Prints what changed.
#[derive(Drop)]
struct Printer {
    alloc: Global,
    /// Whether the texts are JSON themselves.
    is_json: bool,
    out: String,
}

impl Printer {
    fn push_str(&mut self, text: &str) -> Result<(), AllocError> {
        self.out.push_str(text)
    }

    /// Adds what changed in a list of texts; all of it where there was none.
    fn push_changes(
        &mut self,
        names: ListNames,
        old: Option<&KeyedTexts>,
        new: &KeyedTexts,
    ) -> Result<(), AllocError> {
        let nothing = OrderedMap::new(self.alloc);
        let before = old.unwrap_or(&nothing);
        self.push_str("\"changed\":[")?;
        for (place, entry) in changed(self.alloc, before, new)?.iter().enumerate() {
            self.push_comma(place)?;
            self.push_entry(names, *entry)?;
        }
        self.push_str("],\"gone\":[")?;
        for (place, key) in gone(self.alloc, before, new)?.iter().enumerate() {
            self.push_comma(place)?;
            self.push_text(*key)?;
        }
        self.push_str("]")?;
        if old.is_none() || !has_same_keys(before, new) {
            self.push_keys(names, new)?;
        }
        Ok(())
    }

    /// Adds the list of all keys.
    fn push_keys(&mut self, names: ListNames, texts: &KeyedTexts) -> Result<(), AllocError> {
        self.push_str(",\"")?;
        self.push_str(names.keys)?;
        self.push_str("\":[")?;
        for (place, (key, _)) in texts.as_slice().iter().enumerate() {
            self.push_comma(place)?;
            self.push_text(key)?;
        }
        self.push_str("]")
    }

    /// Adds a text with its key.
    fn push_entry(&mut self, names: ListNames, entry: &(Text, Text)) -> Result<(), AllocError> {
        self.push_str("{\"")?;
        self.push_str(names.key)?;
        self.push_str("\":")?;
        self.push_text(&entry.0)?;
        if self.is_json {
            self.push_str(",\"")?;
            self.push_str(names.whole)?;
            self.push_str("\":")?;
            self.push_str(entry.1.as_str())?;
        } else {
            self.push_str(",\"text\":")?;
            self.push_text(&entry.1)?;
        }
        self.push_str("}")
    }

    /// Adds how the items of a bibliography are laid out, where they are JSON.
    fn push_layout(&mut self, style: &SessionStyle) -> Result<(), AllocError> {
        match &style.styling.style.bibliography {
            Some(section) if self.is_json => {
                let layout = layout_of(self.alloc, &section.options)?;
                self.push_str(layout.as_str())
            }
            _ => Ok(()),
        }
    }

    /// Adds a text as JSON.
    fn push_text(&mut self, text: &Text) -> Result<(), AllocError> {
        let value = Value::String(String::from_str(self.alloc, text.as_str())?);
        let json = value.to_string(self.alloc)?;
        self.push_str(json.as_str())
    }

    fn push_comma(&mut self, place: usize) -> Result<(), AllocError> {
        if place == 0 {
            return Ok(());
        }
        self.push_str(",")
    }
}

/// The members that say how items are laid out, as in the JSON of an answer.
fn layout_of(alloc: Global, options: &BibliographyOptions) -> Result<String, AllocError> {
    let entries = options.entry_spacing;
    let lines = options.line_spacing;
    let hangs = options.hanging_indent;
    let align = match options.second_field_align {
        None => "",
        Some(SecondFieldAlign::Flush) => ",\"second_field_align\":\"flush\"",
        Some(SecondFieldAlign::Margin) => ",\"second_field_align\":\"margin\"",
    };
    format!(in alloc;
        ",\"entry_spacing\":{entries},\"hanging_indent\":{hangs},\"line_spacing\":{lines}{align}"
    )
}
