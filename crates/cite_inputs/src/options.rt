//! The options of a call.
use crate::error::{CallError, refusal};
use crate::json::{json_value, wrong_part};
use crate::texts::TextName;
use cite_json::abbreviations::{AbbreviationsError, abbreviations_of};
use cite_limits::budget::USUAL_PART;
use cite_limits::cost::Cost;
use cite_walk::abbreviations::Abbreviations;
use fault_places::place::FaultPlace;
use reference_files::form::ReferenceForm;
use reference_json::fault::{Pointer, Step};
use serde_json::Value;
use std::alloc::{AllocError, Global};
use write_forms::forms::Form;

/// The options of a call.
#[derive(Drop)]
pub struct CallOptions {
    /// The language, in place of the style's.
    pub language: Option<String>,
    /// Whether items are listed that no cite is of.
    pub lists_all: bool,
    /// Short forms of texts, beside those of the items.
    pub abbreviations: Option<Abbreviations>,
    /// What the style may take for each cite and each item.
    pub part: Cost,
    /// The form of the answer, where one is named.
    pub form: Option<AnswerForm>,
    /// Whether the document is a draft, in which cites of items that aren't there are no fault.
    pub is_draft: bool,
    /// The form of the items, where one is named.
    pub from: Option<ReferenceForm>,
    /// Whether `read_references` gives the entries of BibTeX, too.
    pub shows_entries: bool,
}

/// The form of an answer.
#[derive(Clone, Copy, PartialEq, Eq)]
pub enum AnswerForm {
    /// JSON with trees.
    Json,
    /// Texts, each on a line of its own.
    Lines(Form),
}

impl CallOptions {
    /// The form of these items: the one that is named, or else that of their beginning.
    pub(crate) fn form_of(&self, items: &[u8]) -> ReferenceForm {
        self.from.unwrap_or(ReferenceForm::of_bytes(items))
    }
}

/// The options that a text has. An empty text has none.
///
/// # Errors
///
/// `Fault` where it is no object of options; `OutOfMemory`.
pub(crate) fn options_of(alloc: Global, bytes: &[u8]) -> Result<CallOptions, CallError> {
    let mut options = CallOptions {
        language: None,
        lists_all: false,
        abbreviations: None,
        part: USUAL_PART,
        form: None,
        is_draft: false,
        from: None,
        shows_entries: false,
    };
    if bytes.is_empty() {
        return Ok(options);
    }
    let value = json_value(alloc, TextName::Options, bytes)?;
    let Some(object) = value.as_object() else {
        let place = FaultPlace::Pointer(String::new(alloc));
        return Err(refusal(
            alloc,
            TextName::Options,
            place,
            &"wanted an object of options",
        ));
    };
    for key in object.keys() {
        if let Some(value) = object.get(key.as_str()) {
            set_option(alloc, &mut options, key.as_str(), value)?;
        }
    }
    Ok(options)
}

fn set_option(
    alloc: Global,
    options: &mut CallOptions,
    key: &str,
    value: &Value,
) -> Result<(), CallError> {
    match key {
        "locale" => match value {
            Value::String(tag) => options.language = Some(tag.clone()?),
            _ => return Err(wrong_option(alloc, key, "wanted a language tag, which is a text")),
        },
        "nocite" => options.lists_all = truth_in(alloc, key, value)?,
        "abbreviations" => options.abbreviations = Some(abbreviations_in(alloc, value)?),
        "limits" => options.part = part_in(alloc, value)?,
        "form" => options.form = Some(form_in(alloc, value)?),
        "draft" => options.is_draft = truth_in(alloc, key, value)?,
        "entries" => options.shows_entries = truth_in(alloc, key, value)?,
        "from" => options.from = Some(reference_form_in(alloc, value)?),
        _ => return Err(wrong_option(alloc, key, UNKNOWN_KEY)),
    }
    Ok(())
}

/// What is wrong with an unknown key.
const UNKNOWN_KEY: &str = "unknown key; the options are `locale`, `nocite`, `abbreviations`, \
    `limits`, `form`, `draft`, `from` and `entries`";

/// The truth value that the value of this option is.
fn truth_in(alloc: Global, key: &str, value: &Value) -> Result<bool, CallError> {
    match value {
        Value::Bool(truth) => Ok(*truth),
        _ => Err(wrong_option(alloc, key, "wanted true or false")),
    }
}

/// The form that the value names.
fn form_in(alloc: Global, value: &Value) -> Result<AnswerForm, CallError> {
    match value.as_str().unwrap_or("") {
        "json" => Ok(AnswerForm::Json),
        "text" => Ok(AnswerForm::Lines(Form::Text)),
        "html" => Ok(AnswerForm::Lines(Form::Html)),
        "markdown" => Ok(AnswerForm::Lines(Form::Markdown)),
        "latex" => Ok(AnswerForm::Lines(Form::Latex)),
        _ => {
            let why = "wanted `text`, `html`, `markdown`, `latex` or `json`";
            Err(wrong_option(alloc, "form", why))
        }
    }
}

/// The form of references that the value names.
fn reference_form_in(alloc: Global, value: &Value) -> Result<ReferenceForm, CallError> {
    match ReferenceForm::of_name(value.as_str().unwrap_or("")) {
        Some(form) => Ok(form),
        None => {
            let why = "wanted `csl-json`, `bibtex`, `biblatex` or `ris`";
            Err(wrong_option(alloc, "from", why))
        }
    }
}

/// The limits that the value is; those that it lacks are the usual ones.
fn part_in(alloc: Global, value: &Value) -> Result<Cost, CallError> {
    let wanted = "wanted an object of `steps` and `bytes`, which are numbers from 0 on";
    let Some(object) = value.as_object() else {
        return Err(wrong_option(alloc, "limits", wanted));
    };
    let mut part = USUAL_PART;
    for key in object.keys() {
        let number = match object.get(key.as_str()) {
            Some(value) => limit_of(value),
            None => None,
        };
        match (key.as_str(), number) {
            ("steps", Some(steps)) => part.steps = steps,
            ("bytes", Some(bytes)) => part.bytes = bytes,
            _ => return Err(wrong_option(alloc, "limits", wanted)),
        }
    }
    Ok(part)
}

/// The limit that a value is, if it is one.
fn limit_of(value: &Value) -> Option<usize> {
    match value.as_u64() {
        Some(limit) => usize::try_from(limit).ok(),
        None => None,
    }
}

/// The abbreviations that the value is.
fn abbreviations_in(alloc: Global, value: &Value) -> Result<Abbreviations, CallError> {
    match abbreviations_of(alloc, value) {
        Ok(abbreviations) => Ok(abbreviations),
        Err(AbbreviationsError::Fault(fault)) => {
            let pointer = &fault.pointer;
            let pointer = format!(in alloc; "/abbreviations{pointer}")?;
            Err(wrong_part(alloc, TextName::Options, &pointer, &fault.wanted))
        }
        Err(AbbreviationsError::OutOfMemory) => Err(CallError::OutOfMemory),
    }
}

/// The error of an option that isn't what is wanted.
pub fn wrong_option(alloc: Global, key: &str, why: &'static str) -> CallError {
    match pointer_to(alloc, key) {
        Ok(pointer) => wrong_part(alloc, TextName::Options, &pointer, &why),
        Err(_) => CallError::OutOfMemory,
    }
}

fn pointer_to(alloc: Global, key: &str) -> Result<Pointer, AllocError> {
    let mut steps = Vec::new(alloc);
    steps.push(Step::Key(String::from_str(alloc, key)?))?;
    Ok(Pointer { steps })
}
