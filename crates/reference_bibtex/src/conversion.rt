//! An entry as an item.
use crate::inheritance::{Field, Whole};
use reference_fields::languages::language_of;
use reference_fields::lists::members_of;
use reference_fields::strings::small;
use reference_fields::tables::{is_article, is_part_of_book, is_silent, type_of};
use reference_items::item::Item;
use reference_items::reading::Loss;
use reference_latex::run::{Run, plain};
use reference_latex::sentence::sentence_case;
use reference_latex::text::{csl_text, csl_title, plain_of, read_latex};
use std::alloc::{AllocError, Global};
use std::mem::replace;

/// The fields that say the language.
const OF_LANGUAGES: [&str; 3] = ["langid", "hyphenation", "language"];

/// An entry that becomes an item. Which fields it used, and what isn't kept of them, is noted.
#[derive(Drop)]
pub(crate) struct Conversion<'e> {
    pub(crate) alloc: Global,
    pub(crate) whole: Whole<'e>,
    /// Whether each field is used.
    used: Vec<bool>,
    pub(crate) losses: Vec<Loss>,
    pub(crate) item: Item,
    pub(crate) is_biblatex: bool,
    /// Whether titles are put into sentence case.
    is_english: bool,
    /// The tag of the language, or an empty text.
    pub(crate) language: String,
}

/// The conversion of an entry. `language` is that of entries that say none.
///
/// # Errors
/// Where memory is refused.
pub(crate) fn conversion_of<'e>(
    alloc: Global,
    whole: Whole<'e>,
    is_biblatex: bool,
    language: &str,
) -> Result<Conversion<'e>, AllocError> {
    let mut used = Vec::new(alloc);
    for field in &whole.fields {
        used.push(OF_LANGUAGES.iter().any(|name| *name == field.name))?;
    }
    let item = Item {
        id: String::from_str(alloc, whole.key)?,
        item_type: "document",
        members: Vec::new(alloc),
    };
    let mut conversion = Conversion {
        alloc,
        whole,
        used,
        losses: Vec::new(alloc),
        item,
        is_biblatex,
        is_english: false,
        language: String::new(alloc),
    };
    conversion.begin(language)?;
    Ok(conversion)
}

impl<'e> Conversion<'e> {
    /// Notes what is wrong in fields, and the language.
    fn begin(&mut self, language: &str) -> Result<(), AllocError> {
        self.lose_troubles()?;
        let told = self.told_language()?;
        let tag = if told.is_empty() {
            language
        } else {
            told.as_str()
        };
        self.is_english = tag
            .split('-')
            .next()
            .is_some_and(|tag| tag.eq_ignore_ascii_case("en"));
        self.language = told;
        let item_type = self.item_type()?;
        self.item.item_type = item_type;
        Ok(())
    }

    fn lose_troubles(&mut self) -> Result<(), AllocError> {
        let troubles = replace(&mut self.whole.troubles, Vec::new(self.alloc));
        for trouble in &troubles {
            self.lose(trouble.field, trouble.reason.as_str())?;
        }
        Ok(())
    }

    // Fields

    /// Notes that something of a field isn't kept, once.
    pub(crate) fn lose(&mut self, field: &str, reason: &str) -> Result<(), AllocError> {
        let is_noted = self.losses.iter().any(|loss| loss.field.as_str() == field
            && loss.reason.as_str() == reason);
        if is_noted {
            return Ok(());
        }
        self.losses.push(Loss {
            entry: String::from_str(self.alloc, self.whole.key)?,
            field: String::from_str(self.alloc, field)?,
            reason: String::from_str(self.alloc, reason)?,
        })?;
        Ok(())
    }

    /// Notes that a field is used.
    pub(crate) fn uses(&mut self, name: &str) {
        let index = self
            .whole
            .fields
            .iter()
            .position(|field| field.name == name);
        if let Some(used) = index.and_then(|index| self.used.get_mut(index)) {
            *used = true;
        }
    }

    /// Whether a field is used.
    pub(crate) fn is_used(&self, name: &str) -> bool {
        let index = self
            .whole
            .fields
            .iter()
            .position(|field| field.name == name);
        index.is_some_and(|index| self.used.get(index).copied().unwrap_or(false))
    }

    /// The first of some fields that is there, which is used.
    pub(crate) fn first_of(&mut self, names: &[&str]) -> Option<Field<'e>> {
        for name in names {
            let index = self
                .whole
                .fields
                .iter()
                .position(|field| field.name == *name);
            if let Some(field) = index
                .and_then(|index| self.whole.fields.get(index))
                .copied()
            {
                self.uses(field.name);
                return Some(field);
            }
        }
        None
    }

    /// The first of some fields that is there, as it stands in the file.
    pub(crate) fn source(&mut self, names: &[&str]) -> &'e str {
        match self.first_of(names) {
            Some(field) => field.value,
            None => "",
        }
    }

    /// The runs of a text of a field.
    pub(crate) fn runs_in(&mut self, field: &str, text: &str) -> Result<Vec<Run>, AllocError> {
        let read = read_latex(self.alloc, text)?;
        for command in &read.unknown {
            let command = command.as_str();
            if command == "$" {
                self.lose(field, "a formula, kept as its source")?;
            } else {
                let reason = format!(in self.alloc; "the command \\{command}")?;
                self.lose(field, reason.as_str())?;
            }
        }
        Ok(read.runs)
    }

    /// The runs of the first of some fields that is there.
    pub(crate) fn runs(&mut self, names: &[&str]) -> Result<Vec<Run>, AllocError> {
        match self.first_of(names) {
            Some(field) => self.runs_in(field.name, field.value),
            None => Ok(Vec::new(self.alloc)),
        }
    }

    /// The text of the first of some fields that is there.
    pub(crate) fn text(&mut self, names: &[&str]) -> Result<String, AllocError> {
        let runs = self.runs(names)?;
        csl_text(self.alloc, &runs)
    }

    /// The same without its formats.
    pub(crate) fn plain(&mut self, names: &[&str]) -> Result<String, AllocError> {
        let runs = self.runs(names)?;
        plain(self.alloc, &runs)
    }

    /// The same as a text in small letters, and without LaTeX.
    pub(crate) fn word(&mut self, name: &str) -> Result<String, AllocError> {
        let source = self.source(&[name]);
        small(self.alloc, source)
    }

    /// The runs of a title, in sentence case where it is English.
    pub(crate) fn title_runs(&mut self, names: &[&str]) -> Result<Vec<Run>, AllocError> {
        let runs = self.runs(names)?;
        if self.is_english {
            sentence_case(self.alloc, &runs)
        } else {
            Ok(runs)
        }
    }

    pub(crate) fn title(&mut self, names: &[&str]) -> Result<String, AllocError> {
        let runs = self.title_runs(names)?;
        csl_title(self.alloc, &runs)
    }

    /// The members of a list, or in BibTeX the text.
    pub(crate) fn literals(&mut self, name: &str) -> Result<String, AllocError> {
        if !self.is_biblatex {
            return self.text(&[name]);
        }
        let mut text = String::new(self.alloc);
        let Some(field) = self.first_of(&[name]) else {
            return Ok(text);
        };
        for member in &members_of(self.alloc, field.value)? {
            let runs = self.runs_in(field.name, member.as_str())?;
            push_member(&mut text, csl_text(self.alloc, &runs)?.as_str())?;
        }
        Ok(text)
    }

    /// Puts the text of the first of some fields beside a variable.
    pub(crate) fn put_text_of(
        &mut self,
        variable: &'static str,
        names: &[&str],
    ) -> Result<(), AllocError> {
        let text = self.text(names)?;
        self.item.put_text(variable, text)
    }

    // What the item is

    pub(crate) fn is_part(&self) -> bool {
        is_part_of_book(self.whole.kind)
    }

    pub(crate) fn is_periodical(&self) -> bool {
        self.whole.kind == "periodical"
    }

    pub(crate) fn has_main_title(&self) -> bool {
        self.whole.has("maintitle")
    }

    /// The tag of the language that the entry says; empty where it says none.
    fn told_language(&mut self) -> Result<String, AllocError> {
        let Some(field) = self.first_of(&OF_LANGUAGES) else {
            return Ok(String::new(self.alloc));
        };
        let members = members_of(self.alloc, field.value)?;
        let first = members.first().map(|member| member.as_str());
        let name = plain_of(self.alloc, first.unwrap_or(""))?;
        let name = small(self.alloc, name.as_str())?;
        let tag = language_of(self.alloc, name.as_str())?;
        if tag.is_empty() {
            self.lose(field.name, "no language of babel, polyglossia or ISO 639")?;
        }
        Ok(tag)
    }

    fn item_type(&mut self) -> Result<&'static str, AllocError> {
        let kind = self.whole.kind;
        let subtype = self.word("entrysubtype")?;
        if is_article(kind) && kind != "review" {
            match subtype.as_str() {
                "magazine" => return Ok("article-magazine"),
                "newspaper" => return Ok("article-newspaper"),
                _ => {}
            }
        }
        if !subtype.is_empty() {
            self.lose("entrysubtype", "CSL has no such type")?;
        }
        if kind == "unpublished" && self.has_event() {
            return Ok("speech");
        }
        if type_of(kind).is_none() {
            self.lose("type", "no such type, read as a document")?;
        }
        Ok(type_of(kind).unwrap_or("document"))
    }

    fn has_event(&self) -> bool {
        self.whole.has("eventtitle") || self.whole.has("eventdate") || self.whole.has("venue")
    }

    /// Makes the item, and notes the fields that it doesn't use.
    ///
    /// # Errors
    /// Where memory is refused.
    pub(crate) fn convert(&mut self) -> Result<(), AllocError> {
        self.put_titles()?;
        self.put_other_titles()?;
        self.put_persons()?;
        self.put_dates()?;
        self.put_rest()?;
        self.lose_unused()
    }

    fn put_rest(&mut self) -> Result<(), AllocError> {
        self.put_numbers()?;
        self.put_publication()?;
        self.put_identifiers()?;
        self.put_notes()
    }

    fn lose_unused(&mut self) -> Result<(), AllocError> {
        for index in 0..self.whole.fields.len() {
            let Some(field) = self.whole.fields.get(index).copied() else {
                break;
            };
            let is_used = self.used.get(index).copied().unwrap_or(true);
            if !is_used && !is_silent(field.name) {
                self.lose(field.name, "CSL has no place for it")?;
            }
        }
        Ok(())
    }
}

/// Appends a member of a list, if it isn't empty.
pub(crate) fn push_member(text: &mut String, member: &str) -> Result<(), AllocError> {
    if !text.is_empty() && !member.is_empty() {
        text.push_str("; ")?;
    }
    text.push_str(member)
}
