//! Reading locales.
ghost use Rattle.std.specs.Prelude.{codes, map};
ghost use Rattle.serde_json.specs.Data.{array};
ghost use Rattle.serde_json.specs.View.{view, items_view};
ghost use Rattle.value_styles.specs.StyleView.{locale_view, term_view};
ghost use Rattle.document_values.specs.Words.{all_items, name_form, optional_items, required};
ghost use Rattle.document_values.specs.Names.{term_named};
ghost use Rattle.document_styles.specs.Locales.{term_form, locale_form};
ghost use Rattle.document_values.specs.Reads.{Faults, Reads};

use csl_base::locale::{Locale, LocalizedTerm};
use csl_base::taxonomy::{Term, TermForm};
use document_values::error::ReadError;
use document_values::names::term_of;
use document_values::refusals::lacking;
use document_values::tables::TERM_FORMS;
use document_values::words::{
    name_or, object_with, optional_code, optional_flag, optional_list, optional_text,
};
use serde_json::Value;
use std::alloc::Global;

/// The term that the key `name` names.
#[tactic(auto, using(document_values::proofs::Ways::fails_outside))]
fn required_term(alloc: Global, object: &Value) -> Result<Term, ReadError>
    ensures read { Reads (λ t. t) result
        (required (name_form term_named) (codes "name") (view object.now)) }
    ensures fault { Faults result (view object.now) }
{
    match object.get("name") {
        Some(member) => term_of(alloc, member).map_err(|error| error.under(alloc, "name")),
        None => Err(lacking(alloc, object, "name")),
    }
}

#[tactic(auto, unfolding(crate::specs::Locales::term_form))]
fn localized_term_of(alloc: Global, value: &Value) -> Result<LocalizedTerm, ReadError>
    ensures read { Reads term_view result (term_form (view value.now)) }
    ensures fault { Faults result (view value.now) }
{
    let object = object_with(alloc, &["name", "form", "single", "multiple"], value)?;
    let name = required_term(alloc, object)?;
    let form = name_or(alloc, TERM_FORMS, object, "form", TermForm::Long)?;
    let single = optional_text(alloc, object, "single")?;
    let multiple = optional_text(alloc, object, "multiple")?;
    Ok(LocalizedTerm {
        name,
        form,
        single,
        multiple,
    })
}

#[tactic(auto, using(document_values::proofs::Ways::item_there))]
fn all_terms(alloc: Global, items: &[Value]) -> Result<Vec<LocalizedTerm>, ReadError>
    ensures read { Reads (λ v. map term_view v.items) result
        (all_items term_form (items_view items.now)) }
    ensures fault { Faults result (array (items_view items.now)) }
{
    let mut terms = Vec::new(alloc);
    for (place, item) in items.iter().enumerate() {
        match localized_term_of(alloc, item) {
            Ok(term) => terms.push(term)?,
            Err(error) => return Err(error.in_item(place)),
        }
    }
    Ok(terms)
}

/// The terms under the key `terms`; none where the key is absent.
#[tactic(auto, using(document_values::proofs::Ways::fails_outside))]
fn terms_at(alloc: Global, object: &Value) -> Result<Vec<LocalizedTerm>, ReadError>
    ensures read { Reads (λ v. map term_view v.items) result
        (optional_items term_form (codes "terms") (view object.now)) }
    ensures fault { Faults result (view object.now) }
{
    let list = optional_list(alloc, object, "terms")?;
    match all_terms(alloc, list) {
        Ok(terms) => Ok(terms),
        Err(error) => Err(error.under(alloc, "terms")),
    }
}

#[tactic(auto, unfolding(crate::specs::Locales::locale_form))]
fn locale_of(alloc: Global, value: &Value) -> Result<Locale, ReadError>
    ensures read { Reads locale_view result (locale_form (view value.now)) }
    ensures fault { Faults result (view value.now) }
{
    let object = object_with(alloc, &["lang", "punctuation_in_quote", "terms"], value)?;
    let lang = optional_code(alloc, object, "lang")?;
    let punctuation_in_quote = optional_flag(alloc, object, "punctuation_in_quote")?;
    let terms = terms_at(alloc, object)?;
    Ok(Locale {
        lang,
        terms,
        punctuation_in_quote,
    })
}

#[tactic(auto, using(document_values::proofs::Ways::item_there))]
fn all_locales(alloc: Global, items: &[Value]) -> Result<Vec<Locale>, ReadError>
    ensures read { Reads (λ v. map locale_view v.items) result
        (all_items locale_form (items_view items.now)) }
    ensures fault { Faults result (array (items_view items.now)) }
{
    let mut locales = Vec::new(alloc);
    for (place, item) in items.iter().enumerate() {
        match locale_of(alloc, item) {
            Ok(locale) => locales.push(locale)?,
            Err(error) => return Err(error.in_item(place)),
        }
    }
    Ok(locales)
}

/// The locales under a key; none where the key is absent.
#[tactic(auto, using(document_values::proofs::Ways::fails_outside))]
pub fn locales_at(alloc: Global, object: &Value, key: &str) -> Result<Vec<Locale>, ReadError>
    ensures read { Reads (λ v. map locale_view v.items) result
        (optional_items locale_form key.now (view object.now)) }
    ensures fault { Faults result (view object.now) }
{
    let list = optional_list(alloc, object, key)?;
    match all_locales(alloc, list) {
        Ok(locales) => Ok(locales),
        Err(error) => Err(error.under(alloc, key)),
    }
}
