//! Reading what is asked for: citations, and a bibliography.
ghost use Rattle.std.specs.Prelude.{◌≡◌, Some, codes, map, option_map, slice_get, string_bytes, IfOk};
ghost use Rattle.serde_json.specs.Data.{Data, array};
ghost use Rattle.serde_json.specs.Find.{as_str, at};
ghost use Rattle.serde_json.specs.View.{view, items_view};
ghost use Rattle.value_styles.specs.StyleView.{code_view};
ghost use Rattle.driver_lookup.specs.PropertiesView.{locator_view};
ghost use Rattle.driver_passes.specs.RequestView.{cite_view, cites_view, request_view};
ghost use Rattle.document_requests.specs.Form.{request_with};
ghost use Rattle.document_requests.specs.Indexes.{cite_at, each_of};
ghost use Rattle.document_requests.specs.JobView.{
  asked_bibliography_view,
  asked_cite_view,
  asked_cites_view,
  asked_locator_view,
  asked_request_view,
  asked_requests_view,
};
ghost use Rattle.document_values.specs.Words.{
  all_items,
  items_of_key,
  list_form,
  name_form,
  required,
  where_present,
};
ghost use Rattle.document_requests.specs.Finders.{text_in};
ghost use Rattle.document_requests.specs.Requests.{
  apart_form,
  item_form,
  locator_form,
  request_form,
  wanted_form,
};
ghost use Rattle.document_requests.specs.Targets.{files_in, request_in};
ghost use Rattle.document_values.specs.Names.{one_of};
ghost use Rattle.document_values.specs.Tables.{locators};
ghost use Rattle.document_values.specs.Reads.{Faults, IsErrorOf, Reads};

use crate::finders::Indexes;
use crate::found::FoundStyle;
use crate::rounds::Rounds;
use csl_base::entry::PlainEntry;
use csl_base::locale::LocaleCode;
use csl_base::taxonomy::Locator;
use document_values::error::ReadError;
use document_values::fault;
use document_values::refusals::{lacking, unlike};
use document_values::tables::{APARTS, LOCATORS, PURPOSES};
use document_values::words::{
    flag, list_of, object_with, one_of, optional_code, optional_name, optional_number,
    required_list, required_text, text_of,
};
use driver_lookup::apart::Apart;
use driver_lookup::locator::{LocatorPayload, SpecificLocator};
use driver_lookup::purpose::CitePurpose;
use driver_passes::item::CitationItem;
use driver_passes::request::CitationRequest;
use driver_styles::terms::TermTables;
use serde_json::Value;
use std::alloc::{AllocError, Global};
use std::convert::Infallible;

/// A request for the driver, whose locators hold no payloads.
pub type Request<'e> = CitationRequest<'e, PlainEntry, Infallible>;

/// A cite for the driver.
pub type Item<'e> = CitationItem<'e, PlainEntry, Infallible>;

/// A locator of the document: what it counts, and its text.
#[derive(Drop)]
pub struct AskedLocator {
    pub kind: Locator,
    pub text: String,
}

/// A cite of the document. It holds its own texts, so the JSON can be dropped before it is written.
#[derive(Drop)]
pub struct AskedCite {
    /// The index of its entry.
    pub entry: usize,
    pub locator: Option<AskedLocator>,
    pub locale: Option<LocaleCode>,
    pub hidden: bool,
    pub purpose: Option<CitePurpose>,
    pub apart: Option<Apart>,
}

/// A request of the document.
#[derive(Drop)]
pub struct AskedRequest {
    pub items: Vec<AskedCite>,
    /// The index of its style.
    pub style: usize,
    pub locale: Option<LocaleCode>,
    pub note_number: Option<usize>,
}

// ---- cites

/// The index of the entry whose key the value is.
fn known_entry(alloc: Global, entries: &Indexes<'_>, value: &Value) -> Result<usize, ReadError>
    ensures read { Reads (λ i. i) result (name_form (text_in entries.now) (view value.now)) }
    ensures fault { Faults result (view value.now) }
{
    let Some(key) = value.as_str() else {
        return Err(unlike(alloc, value, fault::Wanted::Entry));
    };
    match entries.get(key) {
        Some(index) => Ok(*index),
        None => Err(unlike(alloc, value, fault::Wanted::Entry)),
    }
}

#[tactic(auto, using(document_values::proofs::Ways::fails_outside))]
fn required_entry(alloc: Global, entries: &Indexes<'_>, value: &Value) -> Result<usize, ReadError>
    ensures read { Reads (λ i. i) result
        (required (name_form (text_in entries.now)) (codes "entry") (view value.now)) }
    ensures fault { Faults result (view value.now) }
{
    match value.get("entry") {
        Some(member) => known_entry(alloc, entries, member).map_err(|error| error.under(
            alloc, "entry",
        )),
        None => Err(lacking(alloc, value, "entry")),
    }
}

/// What the first item of a locator says it counts.
///
/// # Errors
/// The fault of an item that names no locator, as one of the list; lack of memory.
#[tactic(auto, using(document_values::proofs::Ways::fails_outside))]
pub fn locator_kind(alloc: Global, item: &Value) -> Result<Locator, ReadError>
    ensures read { Reads (λ k. k) result (one_of locators (view item.now)) }
    ensures fault { (whole : Data) → at 0 whole ≡ Some (view item.now) → Faults result whole }
{
    one_of(alloc, LOCATORS, item).map_err(|error| error.in_item(0))
}

/// A copy of the second item of a locator, its text.
#[tactic(auto, using(document_values::proofs::Ways::fails_outside))]
fn locator_text(alloc: Global, item: &Value) -> Result<String, ReadError>
    ensures read { Reads string_bytes result (as_str (view item.now)) }
    ensures fault { (whole : Data) → at 1 whole ≡ Some (view item.now) → Faults result whole }
{
    text_of(alloc, item).map_err(|error| error.in_item(1))
}

#[tactic(auto, using(crate::proofs::Items::item_in))]
fn locator_of(alloc: Global, value: &Value) -> Result<AskedLocator, ReadError>
    ensures read { Reads asked_locator_view result (locator_form (view value.now)) }
    ensures fault { Faults result (view value.now) }
{
    match list_of(alloc, value)? {
        [kind, text] => Ok(AskedLocator {
            kind: locator_kind(alloc, kind)?,
            text: locator_text(alloc, text)?,
        }),
        _ => Err(unlike(alloc, value, fault::Wanted::Locator)),
    }
}

#[tactic(auto, using(document_values::proofs::Ways::fails_outside))]
fn optional_locator(alloc: Global, value: &Value) -> Result<Option<AskedLocator>, ReadError>
    ensures read { Reads (option_map asked_locator_view) result
        (where_present locator_form (codes "locator") (view value.now)) }
    ensures fault { Faults result (view value.now) }
{
    match value.get("locator") {
        None => Ok(None),
        Some(member) => match locator_of(alloc, member) {
            Ok(locator) => Ok(Some(locator)),
            Err(error) => Err(error.under(alloc, "locator")),
        },
    }
}

/// Where a caller's own words stand, which is said only where works are disambiguated as CSL has
/// it.
fn apart_of(alloc: Global, rounds: Rounds, value: &Value) -> Result<Apart, ReadError>
    ensures read { Reads (λ a. a) result (apart_form rounds (view value.now)) }
    ensures fault { Faults result (view value.now) }
{
    match rounds {
        Rounds::Csl => one_of(alloc, APARTS, value),
        Rounds::Mode(_) => Err(unlike(alloc, value, fault::Wanted::KeyOfCsl)),
    }
}

#[tactic(auto, using(document_values::proofs::Ways::fails_outside))]
fn optional_apart(alloc: Global, rounds: Rounds, value: &Value) -> Result<Option<Apart>, ReadError>
    ensures read { Reads (λ a. a) result
        (where_present (apart_form rounds) (codes "apart") (view value.now)) }
    ensures fault { Faults result (view value.now) }
{
    match value.get("apart") {
        None => Ok(None),
        Some(member) => match apart_of(alloc, rounds, member) {
            Ok(apart) => Ok(Some(apart)),
            Err(error) => Err(error.under(alloc, "apart")),
        },
    }
}

#[tactic(auto, unfolding(crate::specs::Requests::item_form))]
fn item_of(
    alloc: Global,
    entries: &Indexes<'_>,
    rounds: Rounds,
    value: &Value,
) -> Result<AskedCite, ReadError>
    ensures read { Reads asked_cite_view result
        (item_form (text_in entries.now) rounds (view value.now)) }
    ensures fault { Faults result (view value.now) }
{
    let object = object_with(
        alloc,
        &["entry", "locator", "locale", "hidden", "purpose", "apart"],
        value,
    )?;
    let entry = required_entry(alloc, entries, object)?;
    let locator = optional_locator(alloc, object)?;
    let locale = optional_code(alloc, object, "locale")?;
    let hidden = flag(alloc, object, "hidden")?;
    let purpose = optional_name(alloc, PURPOSES, object, "purpose")?;
    let apart = optional_apart(alloc, rounds, object)?;
    Ok(AskedCite {
        entry,
        locator,
        locale,
        hidden,
        purpose,
        apart,
    })
}

#[tactic(auto, using(document_values::proofs::Ways::item_there))]
fn all_cites(
    alloc: Global,
    entries: &Indexes<'_>,
    rounds: Rounds,
    items: &[Value],
) -> Result<Vec<AskedCite>, ReadError>
    ensures read { Reads (λ v. asked_cites_view v.items) result
        (all_items (item_form (text_in entries.now) rounds) (items_view items.now)) }
    ensures fault { Faults result (array (items_view items.now)) }
{
    let mut cites = Vec::with_capacity(alloc, items.len())?;
    for (place, item) in items.iter().enumerate() {
        match item_of(alloc, entries, rounds, item) {
            Ok(cite) => cites.push(cite)?,
            Err(error) => return Err(error.in_item(place)),
        }
    }
    Ok(cites)
}

/// The cites under the key `items`, which has to be there.
#[tactic(auto, using(document_values::proofs::Ways::fails_outside))]
fn cites_at(
    alloc: Global,
    entries: &Indexes<'_>,
    rounds: Rounds,
    object: &Value,
) -> Result<Vec<AskedCite>, ReadError>
    ensures read { Reads (λ v. asked_cites_view v.items) result
        (items_of_key (item_form (text_in entries.now) rounds) (codes "items") (view object.now)) }
    ensures fault { Faults result (view object.now) }
{
    let list = required_list(alloc, object, "items")?;
    match all_cites(alloc, entries, rounds, list) {
        Ok(cites) => Ok(cites),
        Err(error) => Err(error.under(alloc, "items")),
    }
}

// ---- requests

/// The error of an object whose key `style` names no style.
fn unknown_style(alloc: Global, value: &Value) -> ReadError
    ensures { IsErrorOf result (view value.now) }
{
    match value.get("style") {
        Some(member) => unlike(alloc, member, fault::Wanted::Style).under(alloc, "style"),
        None => lacking(alloc, value, "style"),
    }
}

/// The index of the style whose name is under the key `style`, which has to be there.
fn required_style(alloc: Global, styles: &Indexes<'_>, value: &Value) -> Result<usize, ReadError>
    ensures read { Reads (λ i. i) result
        (required (name_form (text_in styles.now)) (codes "style") (view value.now)) }
    ensures fault { Faults result (view value.now) }
{
    let name = required_text(alloc, value, "style")?;
    match styles.get(name) {
        Some(index) => Ok(*index),
        None => Err(unknown_style(alloc, value)),
    }
}

#[tactic(auto, unfolding(crate::specs::Requests::request_form))]
fn request_of(
    alloc: Global,
    styles: &Indexes<'_>,
    entries: &Indexes<'_>,
    rounds: Rounds,
    value: &Value,
) -> Result<AskedRequest, ReadError>
    ensures read { Reads asked_request_view result
        (request_form (text_in styles.now) (text_in entries.now) rounds (view value.now)) }
    ensures fault { Faults result (view value.now) }
{
    let object = object_with(alloc, &["style", "locale", "note", "items"], value)?;
    let style = required_style(alloc, styles, object)?;
    let locale = optional_code(alloc, object, "locale")?;
    let note_number = optional_number(alloc, object, "note")?;
    let items = cites_at(alloc, entries, rounds, object)?;
    Ok(AskedRequest {
        items,
        style,
        locale,
        note_number,
    })
}

#[tactic(auto, using(document_values::proofs::Ways::item_there))]
fn all_requests(
    alloc: Global,
    styles: &Indexes<'_>,
    entries: &Indexes<'_>,
    rounds: Rounds,
    items: &[Value],
) -> Result<Vec<AskedRequest>, ReadError>
    ensures read { Reads (λ v. asked_requests_view v.items) result
        (all_items (request_form (text_in styles.now) (text_in entries.now) rounds)
        (items_view items.now)) }
    ensures fault { Faults result (array (items_view items.now)) }
{
    let mut requests = Vec::with_capacity(alloc, items.len())?;
    for (place, item) in items.iter().enumerate() {
        match request_of(alloc, styles, entries, rounds, item) {
            Ok(request) => requests.push(request)?,
            Err(error) => return Err(error.in_item(place)),
        }
    }
    Ok(requests)
}

/// The requests of the document, in this mode.
#[tactic(auto, using(document_values::proofs::Ways::fails_outside))]
pub fn requests_of(
    alloc: Global,
    styles: &Indexes<'_>,
    entries: &Indexes<'_>,
    rounds: Rounds,
    object: &Value,
) -> Result<Vec<AskedRequest>, ReadError>
    ensures read { Reads (λ v. asked_requests_view v.items) result
        (items_of_key (request_form (text_in styles.now) (text_in entries.now) rounds)
        (codes "requests") (view object.now)) }
    ensures fault { Faults result (view object.now) }
{
    let list = required_list(alloc, object, "requests")?;
    match all_requests(alloc, styles, entries, rounds, list) {
        Ok(requests) => Ok(requests),
        Err(error) => Err(error.under(alloc, "requests")),
    }
}

// ---- requests for the driver

/// A copy of a language, if there is one.
pub fn copied_code(
    alloc: Global,
    code: &Option<LocaleCode>,
) -> Result<Option<LocaleCode>, AllocError>
    ensures { IfOk result (λ c. option_map code_view c ≡ option_map code_view code.now) }
{
    match code {
        Some(code) => Ok(Some(LocaleCode(String::from_str(alloc, code.0.as_str())?))),
        None => Ok(None),
    }
}

fn driver_locator(locator: &Option<AskedLocator>) -> Option<SpecificLocator<'_, Infallible>>
    ensures { option_map locator_view result ≡ option_map asked_locator_view locator.now }
{
    match locator {
        Some(locator) => Some(SpecificLocator(
            locator.kind,
            LocatorPayload::Str(locator.text.as_str()),
        )),
        None => None,
    }
}

fn driver_item<'r>(
    alloc: Global,
    entries: &'r [PlainEntry],
    cite: &'r AskedCite,
) -> Result<Option<Item<'r>>, AllocError>
    ensures { IfOk result (λ item. option_map cite_view item
        ≡ cite_at (slice_get entries.now) (asked_cite_view cite.now)) }
{
    let Some(entry) = entries.get(cite.entry) else {
        return Ok(None);
    };
    let locator = driver_locator(&cite.locator);
    let locale = copied_code(alloc, &cite.locale)?;
    let mut item = CitationItem::new(entry, locator, locale, cite.hidden, cite.purpose);
    item.apart = cite.apart;
    Ok(Some(item))
}

fn driver_items<'r>(
    alloc: Global,
    entries: &'r [PlainEntry],
    cites: &'r [AskedCite],
) -> Result<Option<Vec<Item<'r>>>, AllocError>
    ensures { IfOk result (λ items. option_map (λ v. cites_view v.items) items
        ≡ each_of (cite_at (slice_get entries.now)) (asked_cites_view cites.now)) }
{
    let mut items = Vec::with_capacity(alloc, cites.len())?;
    for cite in cites {
        match driver_item(alloc, entries, cite)? {
            Some(item) => items.push(item)?,
            None => return Ok(None),
        }
    }
    Ok(Some(items))
}

/// What the indexes of requests point to, and the tables of the locales that are asked for terms
/// that a style doesn't have.
#[derive(Clone, Copy)]
pub struct Targets<'r, 'f> {
    pub styles: &'r [FoundStyle<'f>],
    pub entries: &'r [PlainEntry],
    pub files: &'r TermTables<'f>,
}

/// The request that the driver takes; none where an index of it points to nothing.
///
/// # Errors
/// Where memory is refused.
pub fn driver_request<'r, 'f: 'r>(
    alloc: Global,
    request: &'r AskedRequest,
    targets: Targets<'r, 'f>,
) -> Result<Option<Request<'r>>, AllocError>
    ensures { IfOk result (λ made. option_map request_view made
        ≡ option_map (request_with (files_in targets.entry))
        (request_in targets.entry request.now)) }
{
    let Targets {
        styles,
        entries,
        files,
    } = targets;
    let Some(found) = styles.get(request.style) else {
        return Ok(None);
    };
    let Some(items) = driver_items(alloc, entries, &request.items)? else {
        return Ok(None);
    };
    let locale = copied_code(alloc, &request.locale)?;
    let note = request.note_number;
    match found.prepared() {
        Some(prepared) => Ok(Some(CitationRequest::of_prepared(
            items, prepared, locale, files, note,
        ))),
        None => Ok(Some(CitationRequest::new(items, found.style, locale, files.locales(), note))),
    }
}

// ---- the bibliography

/// What is asked of the bibliography.
#[derive(Drop)]
pub struct Wanted {
    /// The index of its style.
    pub style: usize,
    /// The locale of its terms, if the document names one.
    pub locale: Option<LocaleCode>,
    /// The order of its entries, by their indexes, if the document has one.
    pub order: Option<Vec<usize>>,
}

#[tactic(auto, using(document_values::proofs::Ways::item_there))]
fn all_keyed(alloc: Global, entries: &Indexes<'_>, items: &[Value]) -> Result<Vec<usize>, ReadError>
    ensures read { Reads (λ v. v.items) result
        (all_items (name_form (text_in entries.now)) (items_view items.now)) }
    ensures fault { Faults result (array (items_view items.now)) }
{
    let mut found = Vec::new(alloc);
    for (place, item) in items.iter().enumerate() {
        match known_entry(alloc, entries, item) {
            Ok(index) => found.push(index)?,
            Err(error) => return Err(error.in_item(place)),
        }
    }
    Ok(found)
}

fn order_of(alloc: Global, entries: &Indexes<'_>, value: &Value) -> Result<Vec<usize>, ReadError>
    ensures read { Reads (λ v. v.items) result
        (list_form (name_form (text_in entries.now)) (view value.now)) }
    ensures fault { Faults result (view value.now) }
{
    let list = list_of(alloc, value)?;
    all_keyed(alloc, entries, list)
}

#[tactic(auto, using(document_values::proofs::Ways::fails_outside))]
fn optional_order(
    alloc: Global,
    entries: &Indexes<'_>,
    value: &Value,
) -> Result<Option<Vec<usize>>, ReadError>
    ensures read { Reads (option_map (λ v. v.items)) result
        (where_present (list_form (name_form (text_in entries.now))) (codes "order")
        (view value.now)) }
    ensures fault { Faults result (view value.now) }
{
    match value.get("order") {
        None => Ok(None),
        Some(member) => match order_of(alloc, entries, member) {
            Ok(order) => Ok(Some(order)),
            Err(error) => Err(error.under(alloc, "order")),
        },
    }
}

/// What is asked of the bibliography, of an object of its own.
#[tactic(auto, unfolding(crate::specs::Requests::wanted_form))]
pub fn bibliography_request_of(
    alloc: Global,
    styles: &Indexes<'_>,
    entries: &Indexes<'_>,
    value: &Value,
) -> Result<Wanted, ReadError>
    ensures read { Reads asked_bibliography_view result
        (wanted_form (text_in styles.now) (text_in entries.now) (view value.now)) }
    ensures fault { Faults result (view value.now) }
{
    let object = object_with(alloc, &["style", "locale", "order"], value)?;
    let style = required_style(alloc, styles, object)?;
    let locale = optional_code(alloc, object, "locale")?;
    let order = optional_order(alloc, entries, object)?;
    Ok(Wanted {
        style,
        locale,
        order,
    })
}
