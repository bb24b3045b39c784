//! Publishers and places of items, and what is said of the publication.
use crate::conversion::{Conversion, push_member};
use crate::titles::joined_by;
use reference_fields::genres::{country_of, genre_of, state_of};
use reference_fields::lists::members_of;
use reference_fields::strings::small;
use reference_latex::text::csl_text;
use std::alloc::AllocError;

/// The variables of notes that have fields of their own.
const NOTES: &[(&str, &[&str])] = &[
    ("annote", &["annotation", "annote"]),
    ("abstract", &["abstract"]),
    ("keyword", &["keywords", "keyword"]),
];

impl<'e> Conversion<'e> {
    /// Puts publishers and places, the genre, the state and the language.
    pub(crate) fn put_publication(&mut self) -> Result<(), AllocError> {
        self.put_publisher()?;
        self.put_place()?;
        self.put_text_of("event-place", &["venue"])?;
        self.put_original()?;
        self.put_kind()
    }

    fn put_publisher(&mut self) -> Result<(), AllocError> {
        let mut publisher = self.literals("school")?;
        for field in ["institution", "organization"] {
            push_member(&mut publisher, self.literals(field)?.as_str())?;
        }
        push_member(&mut publisher, self.how_published()?.as_str())?;
        push_member(&mut publisher, self.literals("publisher")?.as_str())?;
        self.item.put_text("publisher", publisher)
    }

    /// How it was published, unless that is an address.
    fn how_published(&mut self) -> Result<String, AllocError> {
        let source = self.whole.value("howpublished").unwrap_or("");
        let is_address = ["\\url", "http://", "https://"]
            .iter()
            .any(|begin| source.starts_with(*begin));
        if is_address && !self.whole.has("url") {
            return Ok(String::new(self.alloc));
        }
        self.text(&["howpublished"])
    }

    fn put_place(&mut self) -> Result<(), AllocError> {
        let place = self.literals("address")?;
        if self.whole.kind == "patent" {
            let countries = self.countries()?;
            self.item.put_text("jurisdiction", countries)?;
            return self.item.put_text("publisher-place", place);
        }
        let location = self.literals("location")?;
        let place = if place.is_empty() { location } else { place };
        self.item.put_text("publisher-place", place)
    }

    /// The countries in which a patent holds.
    fn countries(&mut self) -> Result<String, AllocError> {
        let mut countries = String::new(self.alloc);
        let source = self.source(&["location"]);
        for member in &members_of(self.alloc, source)? {
            let runs = self.runs_in("location", member.as_str())?;
            let name = csl_text(self.alloc, &runs)?;
            let name = name.as_str();
            push_member(&mut countries, country_of(name).unwrap_or(name))?;
        }
        Ok(countries)
    }

    fn put_original(&mut self) -> Result<(), AllocError> {
        self.put_text_of("original-publisher", &["origpublisher"])?;
        let place = self.literals("origlocation")?;
        self.item.put_text("original-publisher-place", place)
    }

    fn put_kind(&mut self) -> Result<(), AllocError> {
        self.put_genre()?;
        let state = self.text(&["pubstate"])?;
        let known = state_of(small(self.alloc, state.as_str())?.as_str());
        let state = match known {
            Some(known) => String::from_str(self.alloc, known)?,
            None => state,
        };
        self.item.put_text("status", state)?;
        let language = self.language.clone()?;
        self.item.put_text("language", language)
    }

    fn put_genre(&mut self) -> Result<(), AllocError> {
        let told = self.text(&["type"])?;
        let kind = self.whole.kind;
        let name = if told.is_empty() && matches!(kind, "mastersthesis" | "phdthesis") {
            String::from_str(self.alloc, kind)?
        } else {
            told
        };
        let known = genre_of(small(self.alloc, name.as_str())?.as_str());
        let genre = match known {
            Some(known) => String::from_str(self.alloc, known)?,
            None => name,
        };
        self.item.put_text("genre", genre)
    }

    /// Puts notes.
    pub(crate) fn put_notes(&mut self) -> Result<(), AllocError> {
        let note = self.text(&["note"])?;
        let addendum = self.text(&["addendum"])?;
        let note = joined_by(self.alloc, note, addendum, '.')?;
        self.item.put_text("note", note)?;
        for (variable, names) in NOTES {
            self.put_text_of(*variable, *names)?;
        }
        Ok(())
    }
}
