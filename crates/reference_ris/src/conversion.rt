//! A record as an item.
use crate::dates::date_of;
use crate::syntax::{RisField, RisRecord};
use crate::tables::{Tag, has_isbn, has_issue, is_book, tag_of, type_of};
use reference_items::item::{Item, ItemDate, ItemName, MemberValue};
use std::alloc::{AllocError, Global};

/// What isn't kept of a record: its tag, and why.
#[derive(Drop)]
pub(crate) struct LostTag {
    pub(crate) tag: String,
    pub(crate) reason: String,
}

/// A record that becomes an item.
#[derive(Drop)]
pub(crate) struct Conversion {
    pub(crate) alloc: Global,
    /// Its id is empty where no tag says one.
    pub(crate) item: Item,
    pub(crate) lost: Vec<LostTag>,
    first_page: String,
    last_page: String,
}

/// The item of a record.
///
/// # Errors
/// Where memory is refused.
pub(crate) fn converted(alloc: Global, record: &RisRecord<'_>) -> Result<Conversion, AllocError> {
    let kind = record.kind.as_str();
    let mut conversion = Conversion {
        alloc,
        item: Item {
            id: String::new(alloc),
            item_type: type_of(kind).unwrap_or("document"),
            members: Vec::new(alloc),
        },
        lost: Vec::new(alloc),
        first_page: String::new(alloc),
        last_page: String::new(alloc),
    };
    if type_of(kind).is_none() {
        conversion.lose("TY", "no such type, read as a document")?;
    }
    for field in &record.fields {
        if !field.value.is_empty() {
            conversion.field(field)?;
        }
    }
    conversion.put_pages()?;
    Ok(conversion)
}

impl Conversion {
    fn lose(&mut self, tag: &str, reason: &str) -> Result<(), AllocError> {
        let is_noted = self.lost.iter().any(|lost| lost.tag.as_str() == tag
            && lost.reason.as_str() == reason);
        if is_noted {
            return Ok(());
        }
        self.lost.push(LostTag {
            tag: String::from_str(self.alloc, tag)?,
            reason: String::from_str(self.alloc, reason)?,
        })?;
        Ok(())
    }

    /// Takes what a line says.
    fn field(&mut self, field: &RisField<'_>) -> Result<(), AllocError> {
        let value = field.value.as_str();
        let item_type = self.item.item_type;
        match tag_of(field.tag) {
            Tag::Text(variable) => self.text(field, variable),
            Tag::Texts(variable, sign) => self.texts(variable, sign, value),
            Tag::Names(variable) => self.name(variable, value),
            Tag::Date(variable) => self.date(field, variable),
            Tag::Container if is_book(item_type) => self.text(field, "collection-title"),
            Tag::Container => self.text(field, "container-title"),
            Tag::BookTitle if is_book(item_type) => self.text(field, "title"),
            Tag::BookTitle => self.text(field, "container-title"),
            Tag::Editors if is_book(item_type) => self.name("collection-editor", value),
            Tag::Editors => self.name("editor", value),
            Tag::Issue if has_issue(item_type) => self.text(field, "issue"),
            Tag::Issue => self.text(field, "number"),
            Tag::Number if has_isbn(item_type) => self.text(field, "ISBN"),
            Tag::Number => self.text(field, "ISSN"),
            Tag::Kind if !value.starts_with("10.") => self.text(field, "genre"),
            other => self.special(field, other),
        }
    }

    /// Takes what a line says that has a rule of its own.
    fn special(&mut self, field: &RisField<'_>, tag: Tag) -> Result<(), AllocError> {
        let value = field.value.as_str();
        match tag {
            Tag::FirstPage => self.first_page.push_str(value),
            Tag::LastPage => self.last_page.push_str(value),
            Tag::Doi | Tag::Kind => self.put_once(field.tag, "DOI", bare_doi(value)),
            Tag::Id if self.item.id.is_empty() => self.item.id.push_str(value),
            Tag::Silent => Ok(()),
            _ => self.lose(field.tag, "CSL has no place for it"),
        }
    }

    fn has(&self, variable: &str) -> bool {
        self.item
            .members
            .iter()
            .any(|member| member.name == variable)
    }

    /// Puts a text beside a variable that has none.
    fn put_once(
        &mut self,
        tag: &str,
        variable: &'static str,
        text: &str,
    ) -> Result<(), AllocError> {
        if self.has(variable) {
            return self.lose(tag, "the item has such a text, left out");
        }
        let text = String::from_str(self.alloc, text)?;
        self.item.put_text(variable, text)
    }

    fn text(&mut self, field: &RisField<'_>, variable: &'static str) -> Result<(), AllocError> {
        self.put_once(field.tag, variable, field.value.as_str())
    }

    /// Adds a text to those of a variable.
    fn texts(&mut self, variable: &'static str, sign: &str, text: &str) -> Result<(), AllocError> {
        for member in self.item.members.iter_mut() {
            if member.name == variable {
                return extend_text(&mut member.value, sign, text);
            }
        }
        let text = String::from_str(self.alloc, text)?;
        self.item.put_text(variable, text)
    }

    /// Adds a name to those of a variable.
    fn name(&mut self, variable: &'static str, text: &str) -> Result<(), AllocError> {
        let name = name_of(self.alloc, text)?;
        for member in self.item.members.iter_mut() {
            if member.name == variable {
                return extend_names(&mut member.value, name);
            }
        }
        let mut names = Vec::new(self.alloc);
        names.push(name)?;
        self.item.put_names(variable, names)
    }

    fn date(&mut self, field: &RisField<'_>, variable: &'static str) -> Result<(), AllocError> {
        let date = date_of(self.alloc, field.value.as_str())?;
        for member in self.item.members.iter_mut() {
            if member.name == variable {
                keep_longer(&mut member.value, date);
                return Ok(());
            }
        }
        self.item.put_date(variable, date)
    }

    /// Puts the pages, which may stand in the first of two tags.
    fn put_pages(&mut self) -> Result<(), AllocError> {
        let mut pages = self.first_page.clone()?;
        if !pages.is_empty() && !self.last_page.is_empty() && self.first_page != self.last_page {
            pages.push('-')?;
            pages.push_str(self.last_page.as_str())?;
        } else if pages.is_empty() {
            pages.push_str(self.last_page.as_str())?;
        }
        self.item.put_text("page", pages)
    }
}

fn extend_text(value: &mut MemberValue, sign: &str, more: &str) -> Result<(), AllocError> {
    if let MemberValue::Text(text) = value {
        text.push_str(sign)?;
        text.push_str(more)?;
    }
    Ok(())
}

fn extend_names(value: &mut MemberValue, name: ItemName) -> Result<(), AllocError> {
    if let MemberValue::Names(names) = value {
        names.push(name)?;
    }
    Ok(())
}

/// Keeps the date that says more of the two.
fn keep_longer(value: &mut MemberValue, date: ItemDate) {
    if let MemberValue::Date(known) = value {
        if !has_month(known) && has_month(&date) || !has_day(known) && has_day(&date) {
            *known = date;
        }
    }
}

fn has_month(date: &ItemDate) -> bool {
    date.points.first().is_some_and(|point| point.month != 0)
}

fn has_day(date: &ItemDate) -> bool {
    date.points.first().is_some_and(|point| point.day != 0)
}

/// A name: a family name, a given name and a suffix, with commas between. What has no comma is the
/// name of an institution.
fn name_of(alloc: Global, text: &str) -> Result<ItemName, AllocError> {
    let mut parts = text.split(',');
    let family = parts.next().unwrap_or("").trim();
    let given = parts.next();
    let suffix = parts.next().unwrap_or("").trim();
    let (family, literal) = match given {
        Some(_) => (family, ""),
        None => ("", family),
    };
    Ok(ItemName {
        family: String::from_str(alloc, family)?,
        given: String::from_str(alloc, given.unwrap_or("").trim())?,
        dropping_particle: String::new(alloc),
        non_dropping_particle: String::new(alloc),
        suffix: String::from_str(alloc, suffix)?,
        literal: String::from_str(alloc, literal)?,
    })
}

/// A DOI without what resolves it.
fn bare_doi(doi: &str) -> &str {
    match doi.find("10.") {
        Some(begin) if doi.starts_with("http") || doi.starts_with("doi:") => {
            doi.get(begin..).unwrap_or(doi)
        }
        _ => doi,
    }
}
