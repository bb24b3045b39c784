//! Abbreviations of texts, as of the titles of journals.
use reference_values::rich_text::RichText;
use std::alloc::{AllocError, Global};
use std::collections::BTreeMap;
use style_file::variable::TextVariable;

/// The short forms of texts, without regard to case.
#[derive(Drop)]
pub struct Abbreviations {
    tables: Vec<AbbreviationTable>,
}

/// The short forms of the texts of a variable, by these in small letters.
#[derive(Drop)]
struct AbbreviationTable {
    variable: TextVariable,
    short_forms: BTreeMap<String, RichText>,
}

impl Abbreviations {
    /// No short forms.
    pub fn new(alloc: Global) -> Abbreviations {
        Abbreviations {
            tables: Vec::new(alloc),
        }
    }

    /// Adds the short form of a text of a variable, in the place of one that it has.
    ///
    /// # Errors
    ///
    /// Where memory is refused.
    pub fn add(
        &mut self,
        alloc: Global,
        variable: TextVariable,
        long: &str,
        short: &str,
    ) -> Result<(), AllocError> {
        let long = in_small_letters(alloc, long)?;
        let short = RichText::of_markup(alloc, short)?;
        for table in self.tables.iter_mut() {
            if table.variable == variable {
                table.short_forms.insert(long, short)?;
                return Ok(());
            }
        }
        let mut short_forms = BTreeMap::new(alloc);
        short_forms.insert(long, short)?;
        self.tables.push(AbbreviationTable {
            variable,
            short_forms,
        })?;
        Ok(())
    }

    /// The short form of this text of a variable, if it has one.
    ///
    /// # Errors
    ///
    /// Where memory is refused.
    pub fn short_form(
        &self,
        alloc: Global,
        variable: TextVariable,
        long: &str,
    ) -> Result<Option<&RichText>, AllocError> {
        for table in &self.tables {
            if table.variable == variable {
                let long = in_small_letters(alloc, long)?;
                return Ok(table.short_forms.get(long.as_str()));
            }
        }
        Ok(None)
    }
}

/// The text, without spaces around it, in small letters.
fn in_small_letters(alloc: Global, text: &str) -> Result<String, AllocError> {
    let mut small = String::new(alloc);
    for c in text.trim().chars() {
        for letter in c.to_lowercase() {
            small.push(letter)?;
        }
    }
    Ok(small)
}
