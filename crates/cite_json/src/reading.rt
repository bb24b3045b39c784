//! Reading citations.
use crate::fault::{CitationFault, CitationsError, Wanted};
use crate::oddities::{Holder, note_number, oddity_of};
use crate::warning::{CiteWarning, WarningKind};
use cite_tasks::cites::{Citation, Cite};
use cite_walk::cite::CiteLocator;
use reference_json::fault::{Pointer, Step};
use reference_json::unkept::{NumberTexts, Unkept};
use reference_values::rich_text::RichText;
use serde_json::{Map, Number, Value};
use std::alloc::{AllocError, Global};
use style_file::locator::LocatorType;

/// What was read of citations.
#[derive(Drop)]
pub struct ReadCitations {
    pub citations: Vec<Citation>,
    /// The `citationID` of each citation, at its place, where it has one.
    pub ids: Vec<Option<String>>,
    /// What is otherwise than it stands in the JSON, in the order of the cites.
    pub warnings: Vec<CiteWarning>,
}

/// The citations of JSON. A citation is a list of cites, or an object as in CSL's
/// csl-citation.json: its cites as `citationItems`, and maybe a `citationID` and `properties`, with
/// the number of its note as `noteIndex` (0 for a citation in the text) and `unsorted` where its
/// cites keep their order. A cite is an object with an `id` and maybe a `locator`, a `label`, which
/// is `page` where it is missing, a `prefix` and a `suffix`, which may have markup as the texts of
/// items, `suppress-author`, `author-only`, `hidden` and `note`.
///
/// # Errors
///
/// `NoUtf8` and `NoJson` where the bytes are none; `Fault` with the first part that is not of its
/// form; `OutOfMemory`.
pub fn read_citations(alloc: Global, bytes: &[u8]) -> Result<ReadCitations, CitationsError> {
    let unkept = Unkept::of_bytes(alloc, bytes)?;
    let value = value_of(alloc, bytes)?;
    let Some(items) = value.as_array() else {
        return Err(refusal(Place::Whole.pointer(alloc)?, Wanted::Citations));
    };
    let mut reader = Reader::new(alloc, unkept)?;
    let mut citations = Vec::new(alloc);
    let mut ids = Vec::new(alloc);
    for (index, item) in items.iter().enumerate() {
        let citation = reader.citation(index, item)?;
        citations.push(citation)?;
        ids.push(reader.id_of(index, item)?)?;
    }
    Ok(ReadCitations {
        citations,
        ids,
        warnings: reader.warnings,
    })
}

/// The JSON value that the bytes are.
fn value_of(alloc: Global, bytes: &[u8]) -> Result<Value, CitationsError> {
    let text = match str::from_utf8(bytes) {
        Ok(text) => text,
        Err(error) => {
            return Err(CitationsError::NoUtf8 {
                byte: error.valid_up_to(),
            });
        }
    };
    match Value::from_str(alloc, text) {
        Ok(value) => Ok(value),
        Err(error) if error.is_memory() => Err(CitationsError::OutOfMemory),
        Err(error) => Err(CitationsError::NoJson {
            line: error.line(),
            column: error.column(),
        }),
    }
}

fn refusal(pointer: Pointer, wanted: Wanted) -> CitationsError {
    CitationsError::Fault(CitationFault { pointer, wanted })
}

/// A place in the list of citations, by indexes from 0.
#[derive(Clone, Copy)]
enum Place {
    Whole,
    Citation(usize),
    /// The properties of a citation that is an object.
    Properties(usize),
    Cite {
        citation: usize,
        cite: usize,
        form: CitationForm,
    },
}

/// How a citation stands in the JSON.
#[derive(Clone, Copy)]
enum CitationForm {
    List,
    Object,
}

const CITES: &str = "citationItems";

const CITATION_ID: &str = "citationID";

const PROPERTIES: &str = "properties";

impl Place {
    /// The pointer to the place.
    fn pointer(self, alloc: Global) -> Result<Pointer, AllocError> {
        let mut steps = Vec::new(alloc);
        match self {
            Place::Whole => {}
            Place::Citation(citation) => steps.push(Step::Item(citation))?,
            Place::Properties(citation) => {
                steps.push(Step::Item(citation))?;
                steps.push(key_step(alloc, PROPERTIES)?)?;
            }
            Place::Cite {
                citation,
                cite,
                form,
            } => {
                steps.push(Step::Item(citation))?;
                if let CitationForm::Object = form {
                    steps.push(key_step(alloc, CITES)?)?;
                }
                steps.push(Step::Item(cite))?;
            }
        }
        Ok(Pointer { steps })
    }

    /// The pointer to the member of this key.
    fn member(self, alloc: Global, key: &str) -> Result<Pointer, AllocError> {
        let mut pointer = self.pointer(alloc)?;
        pointer.steps.push(key_step(alloc, key)?)?;
        Ok(pointer)
    }

    /// What the object at the place is.
    fn holder(self) -> Holder {
        match self {
            Place::Whole | Place::Citation(_) => Holder::Citation,
            Place::Properties(_) => Holder::Properties,
            Place::Cite { .. } => Holder::Cite,
        }
    }
}

fn key_step(alloc: Global, key: &str) -> Result<Step, AllocError> {
    Ok(Step::Key(String::from_str(alloc, key)?))
}

/// What is said of a citation beside its cites.
#[derive(Clone, Copy)]
struct Properties {
    note: Option<usize>,
    is_unsorted: bool,
}

impl Properties {
    /// Those of a citation that has none.
    const NONE: Properties = Properties {
        note: None,
        is_unsorted: false,
    };

    fn of_object(object: &Map<String, Value>) -> Properties {
        Properties {
            note: note_at(object, "noteIndex").filter(|note| *note > 0),
            is_unsorted: flag_at(object, "unsorted"),
        }
    }
}

/// Reads citations, and keeps what is odd in them.
#[derive(Drop)]
struct Reader {
    alloc: Global,
    warnings: Vec<CiteWarning>,
    number_texts: NumberTexts,
}

impl Reader {
    /// A reader of a value that doesn't keep this of its text. It has warned of repeated keys.
    fn new(alloc: Global, unkept: Unkept) -> Result<Reader, AllocError> {
        let Unkept {
            repeated_keys,
            number_texts,
        } = unkept;
        let mut warnings = Vec::new(alloc);
        for pointer in repeated_keys {
            warnings.push(CiteWarning {
                pointer,
                kind: WarningKind::RepeatedKey,
            })?;
        }
        Ok(Reader {
            alloc,
            warnings,
            number_texts,
        })
    }

    fn citation(&mut self, citation: usize, item: &Value) -> Result<Citation, CitationsError> {
        match item {
            Value::Array(cites) => {
                self.citation_of(citation, CitationForm::List, cites, Properties::NONE)
            }
            Value::Object(object) => self.citation_of_object(citation, object),
            _ => {
                let pointer = Place::Citation(citation).pointer(self.alloc)?;
                Err(refusal(pointer, Wanted::Citation))
            }
        }
    }

    /// The id that a citation has in the document.
    fn id_of(&self, citation: usize, item: &Value) -> Result<Option<String>, AllocError> {
        match item.as_object() {
            Some(object) => self.text_at(Place::Citation(citation), object, CITATION_ID),
            None => Ok(None),
        }
    }

    fn citation_of_object(
        &mut self,
        citation: usize,
        object: &Map<String, Value>,
    ) -> Result<Citation, CitationsError> {
        let place = Place::Citation(citation);
        let Some(Value::Array(cites)) = object.get(CITES) else {
            return Err(refusal(place.pointer(self.alloc)?, Wanted::Cites));
        };
        self.warn_of_members(place, object)?;
        let properties = match object.get(PROPERTIES) {
            Some(Value::Object(properties)) => {
                self.warn_of_members(Place::Properties(citation), properties)?;
                Properties::of_object(properties)
            }
            _ => Properties::NONE,
        };
        self.citation_of(citation, CitationForm::Object, cites, properties)
    }

    fn citation_of(
        &mut self,
        citation: usize,
        form: CitationForm,
        members: &[Value],
        properties: Properties,
    ) -> Result<Citation, CitationsError> {
        let mut cites = Vec::new(self.alloc);
        let mut note = properties.note;
        for (cite, member) in members.iter().enumerate() {
            let place = Place::Cite {
                citation,
                cite,
                form,
            };
            let Some(object) = member.as_object() else {
                return Err(refusal(place.pointer(self.alloc)?, Wanted::Cite));
            };
            cites.push(self.cite(place, cite, object)?)?;
            note = self.note_with(place, object, properties, note)?;
        }
        Ok(Citation {
            cites,
            missing_behind: Vec::new(self.alloc),
            note,
            is_alone: note.is_none(),
            is_unsorted: properties.is_unsorted,
        })
    }

    /// The note of a citation, with what one more of its cites says of it. The citation's own
    /// properties go before its cites, and its first cites before others.
    fn note_with(
        &mut self,
        place: Place,
        object: &Map<String, Value>,
        properties: Properties,
        note: Option<usize>,
    ) -> Result<Option<usize>, AllocError> {
        let own = note_at(object, "note");
        if own.is_some() && properties.note.is_some() && own != properties.note {
            self.warn(place, "note", WarningKind::OtherNote)?;
        }
        Ok(note.or(own))
    }

    /// The cite of this number in its citation.
    fn cite(
        &mut self,
        place: Place,
        number: usize,
        object: &Map<String, Value>,
    ) -> Result<Cite, CitationsError> {
        let alloc = self.alloc;
        let Some(id) = self.text_at(place, object, "id")? else {
            return Err(refusal(place.pointer(alloc)?, Wanted::Id));
        };
        self.warn_of_members(place, object)?;
        Ok(Cite {
            id,
            place: number,
            locator: self.locator_of(place, object)?,
            prefix: self
                .text_at(place, object, "prefix")?
                .unwrap_or(String::new(alloc)),
            suffix: self
                .text_at(place, object, "suffix")?
                .unwrap_or(String::new(alloc)),
            suppresses_author: flag_at(object, "suppress-author"),
            is_author_only: flag_at(object, "author-only"),
            is_hidden: flag_at(object, "hidden"),
            missing_before: Vec::new(alloc),
        })
    }

    fn locator_of(
        &self,
        place: Place,
        object: &Map<String, Value>,
    ) -> Result<Option<CiteLocator>, AllocError> {
        let Some(text) = self.text_at(place, object, "locator")? else {
            return Ok(None);
        };
        let text = RichText::of_markup(self.alloc, text.as_str().trim())?;
        if text.is_empty() {
            return Ok(None);
        }
        let kind = locator_type_of(object);
        Ok(Some(CiteLocator { kind, text }))
    }

    /// The text or the number at a key.
    fn text_at(
        &self,
        place: Place,
        object: &Map<String, Value>,
        key: &str,
    ) -> Result<Option<String>, AllocError> {
        match object.get(key) {
            Some(Value::String(text)) => Ok(Some(text.clone()?)),
            Some(Value::Number(number)) => Ok(Some(self.number_text(place, key, number)?)),
            _ => Ok(None),
        }
    }

    fn number_text(&self, place: Place, key: &str, number: &Number) -> Result<String, AllocError> {
        if self.number_texts.may_have(number) {
            let pointer = place.member(self.alloc, key)?;
            return self.number_texts.text_at(self.alloc, &pointer, number);
        }
        format!(in self.alloc; "{number}")
    }

    /// Warns of each member that is left out.
    fn warn_of_members(
        &mut self,
        place: Place,
        object: &Map<String, Value>,
    ) -> Result<(), AllocError> {
        for key in object.keys() {
            let key = key.as_str();
            if let Some(kind) = oddity_of(place.holder(), object, key) {
                self.warn(place, key, kind)?;
            }
        }
        Ok(())
    }

    fn warn(&mut self, place: Place, key: &str, kind: WarningKind) -> Result<(), AllocError> {
        let pointer = place.member(self.alloc, key)?;
        self.warnings.push(CiteWarning { pointer, kind })?;
        Ok(())
    }
}

/// The number of a note at a key.
fn note_at(object: &Map<String, Value>, key: &str) -> Option<usize> {
    note_number(object.get(key)?)
}

/// The kind of the locator of a cite: a page where it names no known one.
fn locator_type_of(object: &Map<String, Value>) -> LocatorType {
    match object.get("label") {
        Some(Value::String(name)) => {
            LocatorType::of_name(name.as_str()).unwrap_or(LocatorType::Page)
        }
        _ => LocatorType::Page,
    }
}

fn flag_at(object: &Map<String, Value>, name: &str) -> bool {
    match object.get(name) {
        Some(value) => value.as_bool().unwrap_or(false),
        None => false,
    }
}
