//! Reading styles. Where a style says nothing, it is of the class in-text, and has what CSL 1.0.2
//! gives by default: names disambiguated by cite, notes near within 5, spacings of 1, and whole
//! lists of names substituted.
ghost use Rattle.std.specs.Prelude.{◌≡◌, IfOk, codes, pos, option_and_then, option_map};
ghost use Rattle.serde_json.specs.Data.{array, object as object_of};
ghost use Rattle.serde_json.specs.Find.{as_object};
ghost use Rattle.serde_json.specs.View.{view, items_view, members_view};
ghost use Rattle.value_styles.specs.ElementView.{macro_view, macros_view};
ghost use Rattle.value_styles.specs.StyleView.{
  layout_view,
  citation_view,
  bibliography_view,
  style_view,
};
ghost use Rattle.document_values.specs.Words.{
  all_items,
  all_members,
  member_form,
  object_with,
  optional,
  optional_items,
  required,
  where_present,
};
ghost use Rattle.document_styles.specs.NamedStyleView.{named_style_view, named_styles_view};
ghost use Rattle.document_styles.specs.Styles.{
  single,
  spacing,
  non_zero,
  line_spacing,
  layout_form,
  citation_keys,
  citation_form,
  bibliography_keys,
  bibliography_form,
  macro_form,
  style_keys,
  style_form,
  styles_form,
};
ghost use Rattle.document_values.specs.Reads.{Faults, Reads};

use crate::elements::{elements_at, formatting_in};
use crate::locales::locales_at;
use crate::options::options_at;
use csl_base::element::CslMacro;
use csl_base::style::{
    Bibliography, Citation, DisambiguationRule, IndependentStyle, Layout, StyleClass, StyleInfo,
    StyleSettings, SubsequentAuthorSubstituteRule,
};
use document_values::error::ReadError;
use document_values::fault::Wanted;
use document_values::refusals::{lacking, unlike};
use document_values::tables::{
    CATEGORIES, CLASSES, COLLAPSES, GIVEN_NAME_RULES, SECOND_FIELD_ALIGNS, SUBSTITUTE_RULES,
};
use document_values::words::{
    flag, name_or, number_or, object_with, optional_code, optional_list, optional_name,
    optional_names, optional_text, text_at, whole_between,
};
use serde_json::{Map, Value};
use std::alloc::Global;
use std::num::NonZeroI16;

/// A style and the name that the document gives it.
#[derive(Drop)]
pub struct NamedStyle {
    pub name: String,
    pub style: IndependentStyle,
}

// ---- spacings

fn spacing_of(alloc: Global, value: &Value) -> Result<i16, ReadError>
    ensures read { Reads (λ n. n) result (spacing (view value.now)) }
    ensures fault { Faults result (view value.now) }
{
    let number = whole_between(alloc, value, -32768, 32767, Wanted::Spacing)?;
    Ok(number as i16)
}

#[tactic(auto, using(document_values::proofs::Ways::fails_outside))]
fn spacing_or_single(alloc: Global, value: &Value, key: &str) -> Result<i16, ReadError>
    ensures read { Reads (λ n. n) result (optional (pos 1) spacing key.now (view value.now)) }
    ensures fault { Faults result (view value.now) }
{
    match value.get(key) {
        None => Ok(1),
        Some(member) => spacing_of(alloc, member).map_err(|error| error.under(alloc, key)),
    }
}

fn non_zero(number: i16) -> Option<NonZeroI16>
    ensures { result ≡ non_zero number }
{
    NonZeroI16::new(number)
}

fn single() -> NonZeroI16
    ensures { result ≡ single }
{
    NonZeroI16::new(1).unwrap()
}

/// The spacing that the value is, which may not be 0.
fn line_spacing_of(alloc: Global, value: &Value) -> Result<NonZeroI16, ReadError>
    ensures read { Reads (λ n. n) result (line_spacing (view value.now)) }
    ensures fault { Faults result (view value.now) }
{
    let number = spacing_of(alloc, value)?;
    match non_zero(number) {
        Some(spacing) => Ok(spacing),
        None => Err(unlike(alloc, value, Wanted::LineSpacing)),
    }
}

#[tactic(auto, using(document_values::proofs::Ways::fails_outside))]
fn line_spacing_or_single(alloc: Global, value: &Value, key: &str) -> Result<NonZeroI16, ReadError>
    ensures read { Reads (λ n. n) result (optional single line_spacing key.now (view value.now)) }
    ensures fault { Faults result (view value.now) }
{
    match value.get(key) {
        None => Ok(single()),
        Some(member) => line_spacing_of(alloc, member).map_err(|error| error.under(alloc, key)),
    }
}

// ---- layouts

#[tactic(auto, unfolding(crate::specs::Styles::layout_form))]
fn layout_of(alloc: Global, object: &Value) -> Result<Layout, ReadError>
    ensures read { Reads layout_view result (layout_form (view object.now)) }
    ensures fault { Faults result (view object.now) }
{
    let elements = elements_at(alloc, object, "elements")?;
    let formatting = formatting_in(alloc, object)?;
    let prefix = optional_text(alloc, object, "prefix")?;
    let suffix = optional_text(alloc, object, "suffix")?;
    let delimiter = optional_text(alloc, object, "delimiter")?;
    Ok(Layout {
        elements,
        formatting,
        prefix,
        suffix,
        delimiter,
    })
}

/// The value, which has to be an object with no keys but those of a citation.
fn citation_object(alloc: Global, value: &Value) -> Result<&Value, ReadError>
    ensures read { Reads (λ v. view v.now) result (object_with citation_keys (view value.now)) }
    ensures fault { Faults result (view value.now) }
    ensures same { IfOk result (λ v. v.now ≡ value.now) }
{
    object_with(
        alloc,
        &[
            "elements",
            "prefix",
            "suffix",
            "delimiter",
            "italic",
            "bold",
            "font_variant",
            "text_decoration",
            "vertical_align",
            "add_givenname",
            "givenname_rule",
            "add_names",
            "add_year_suffix",
            "cite_group_delimiter",
            "year_suffix_delimiter",
            "after_collapse_delimiter",
            "collapse",
            "near_note_distance",
            "options",
        ],
        value,
    )
}

#[tactic(auto, unfolding(crate::specs::Styles::citation_form))]
fn citation_of(alloc: Global, value: &Value) -> Result<Citation, ReadError>
    ensures read { Reads citation_view result (citation_form (view value.now)) }
    ensures fault { Faults result (view value.now) }
{
    let object = citation_object(alloc, value)?;
    let layout = layout_of(alloc, object)?;
    let disambiguate_add_givenname = flag(alloc, object, "add_givenname")?;
    let givenname_disambiguation_rule = name_or(
        alloc,
        GIVEN_NAME_RULES,
        object,
        "givenname_rule",
        DisambiguationRule::ByCite,
    )?;
    let disambiguate_add_names = flag(alloc, object, "add_names")?;
    let disambiguate_add_year_suffix = flag(alloc, object, "add_year_suffix")?;
    let cite_group_delimiter = optional_text(alloc, object, "cite_group_delimiter")?;
    let year_suffix_delimiter = optional_text(alloc, object, "year_suffix_delimiter")?;
    let after_collapse_delimiter = optional_text(alloc, object, "after_collapse_delimiter")?;
    let collapse = optional_name(alloc, COLLAPSES, object, "collapse")?;
    let near_note_distance = number_or(alloc, object, "near_note_distance", 5)?;
    let name_options = options_at(alloc, object)?;
    Ok(Citation {
        layout,
        disambiguate_add_givenname,
        givenname_disambiguation_rule,
        disambiguate_add_names,
        disambiguate_add_year_suffix,
        cite_group_delimiter,
        year_suffix_delimiter,
        after_collapse_delimiter,
        collapse,
        near_note_distance,
        name_options,
    })
}

/// The value, which has to be an object with no keys but those of a bibliography.
fn bibliography_object(alloc: Global, value: &Value) -> Result<&Value, ReadError>
    ensures read { Reads (λ v. view v.now) result (object_with bibliography_keys (view value.now)) }
    ensures fault { Faults result (view value.now) }
    ensures same { IfOk result (λ v. v.now ≡ value.now) }
{
    object_with(
        alloc,
        &[
            "elements",
            "prefix",
            "suffix",
            "italic",
            "bold",
            "font_variant",
            "text_decoration",
            "vertical_align",
            "hanging_indent",
            "second_field_align",
            "line_spacing",
            "entry_spacing",
            "substitute",
            "substitute_rule",
            "options",
        ],
        value,
    )
}

#[tactic(auto, unfolding(crate::specs::Styles::bibliography_form))]
fn bibliography_of(alloc: Global, value: &Value) -> Result<Bibliography, ReadError>
    ensures read { Reads bibliography_view result (bibliography_form (view value.now)) }
    ensures fault { Faults result (view value.now) }
{
    let object = bibliography_object(alloc, value)?;
    let layout = layout_of(alloc, object)?;
    let hanging_indent = flag(alloc, object, "hanging_indent")?;
    let second_field_align = optional_name(
        alloc,
        SECOND_FIELD_ALIGNS,
        object,
        "second_field_align",
    )?;
    let line_spacing = line_spacing_or_single(alloc, object, "line_spacing")?;
    let entry_spacing = spacing_or_single(alloc, object, "entry_spacing")?;
    let subsequent_author_substitute = optional_text(alloc, object, "substitute")?;
    let subsequent_author_substitute_rule = name_or(
        alloc,
        SUBSTITUTE_RULES,
        object,
        "substitute_rule",
        SubsequentAuthorSubstituteRule::CompleteAll,
    )?;
    let name_options = options_at(alloc, object)?;
    Ok(Bibliography {
        layout,
        hanging_indent,
        second_field_align,
        line_spacing,
        entry_spacing,
        subsequent_author_substitute,
        subsequent_author_substitute_rule,
        name_options,
    })
}

#[tactic(auto, using(document_values::proofs::Ways::fails_outside))]
fn required_citation(alloc: Global, value: &Value) -> Result<Citation, ReadError>
    ensures read { Reads citation_view result
        (required citation_form (codes "citation") (view value.now)) }
    ensures fault { Faults result (view value.now) }
{
    match value.get("citation") {
        Some(member) => citation_of(alloc, member).map_err(|error| error.under(alloc, "citation")),
        None => Err(lacking(alloc, value, "citation")),
    }
}

#[tactic(auto, using(document_values::proofs::Ways::fails_outside))]
fn optional_bibliography(alloc: Global, value: &Value) -> Result<Option<Bibliography>, ReadError>
    ensures read { Reads (option_map bibliography_view) result
        (where_present bibliography_form (codes "bibliography") (view value.now)) }
    ensures fault { Faults result (view value.now) }
{
    match value.get("bibliography") {
        None => Ok(None),
        Some(member) => match bibliography_of(alloc, member) {
            Ok(bibliography) => Ok(Some(bibliography)),
            Err(error) => Err(error.under(alloc, "bibliography")),
        },
    }
}

// ---- macros

#[tactic(auto, unfolding(crate::specs::Styles::macro_form))]
fn macro_of(alloc: Global, value: &Value) -> Result<CslMacro, ReadError>
    ensures read { Reads macro_view result (macro_form (view value.now)) }
    ensures fault { Faults result (view value.now) }
{
    let object = object_with(alloc, &["name", "children"], value)?;
    let name = text_at(alloc, object, "name")?;
    let children = elements_at(alloc, object, "children")?;
    Ok(CslMacro { name, children })
}

#[tactic(auto, using(document_values::proofs::Ways::item_there))]
fn all_macros(alloc: Global, items: &[Value]) -> Result<Vec<CslMacro>, ReadError>
    ensures read { Reads (λ v. macros_view v.items) result
        (all_items macro_form (items_view items.now)) }
    ensures fault { Faults result (array (items_view items.now)) }
{
    let mut macros = Vec::new(alloc);
    for (place, item) in items.iter().enumerate() {
        match macro_of(alloc, item) {
            Ok(one) => macros.push(one)?,
            Err(error) => return Err(error.in_item(place)),
        }
    }
    Ok(macros)
}

#[tactic(auto, using(document_values::proofs::Ways::fails_outside))]
fn macros_of(alloc: Global, object: &Value) -> Result<Vec<CslMacro>, ReadError>
    ensures read { Reads (λ v. macros_view v.items) result
        (optional_items macro_form (codes "macros") (view object.now)) }
    ensures fault { Faults result (view object.now) }
{
    let list = optional_list(alloc, object, "macros")?;
    match all_macros(alloc, list) {
        Ok(macros) => Ok(macros),
        Err(error) => Err(error.under(alloc, "macros")),
    }
}

// ---- styles

/// The value, which has to be an object with no keys but those of a style.
fn style_object(alloc: Global, value: &Value) -> Result<&Value, ReadError>
    ensures read { Reads (λ v. view v.now) result (object_with style_keys (view value.now)) }
    ensures fault { Faults result (view value.now) }
    ensures same { IfOk result (λ v. v.now ≡ value.now) }
{
    object_with(
        alloc,
        &[
            "class",
            "categories",
            "default_locale",
            "locale",
            "options",
            "macros",
            "citation",
            "bibliography",
        ],
        value,
    )
}

#[tactic(auto, unfolding(crate::specs::Styles::style_form))]
fn style_of(alloc: Global, value: &Value) -> Result<IndependentStyle, ReadError>
    ensures read { Reads style_view result (style_form (view value.now)) }
    ensures fault { Faults result (view value.now) }
{
    let object = style_object(alloc, value)?;
    let class = name_or(alloc, CLASSES, object, "class", StyleClass::InText)?;
    let category = optional_names(alloc, CATEGORIES, object, "categories")?;
    let default_locale = optional_code(alloc, object, "default_locale")?;
    let locale = locales_at(alloc, object, "locale")?;
    let options = options_at(alloc, object)?;
    let macros = macros_of(alloc, object)?;
    let citation = required_citation(alloc, object)?;
    let bibliography = optional_bibliography(alloc, object)?;
    Ok(IndependentStyle {
        info: StyleInfo { category },
        settings: StyleSettings { class, options },
        default_locale,
        locale,
        macros,
        citation,
        bibliography,
    })
}

fn named_style_of(alloc: Global, name: &str, value: &Value) -> Result<NamedStyle, ReadError>
    ensures read { Reads named_style_view result
        (member_form style_form name.now (view value.now)) }
    ensures fault { Faults result (view value.now) }
{
    Ok(NamedStyle {
        name: String::from_str(alloc, name)?,
        style: style_of(alloc, value)?,
    })
}

fn all_styles(alloc: Global, members: &Map<String, Value>) -> Result<Vec<NamedStyle>, ReadError>
    ensures read { Reads (λ v. named_styles_view v.items) result
        (all_members style_form (members_view members.now.entries)) }
    ensures fault { Faults result (object_of (members_view members.now.entries)) }
{
    let mut styles = Vec::new(alloc);
    for (name, member) in members {
        let key = name.as_str();
        match named_style_of(alloc, key, member) {
            Ok(style) => styles.push(style)?,
            Err(error) => return Err(error.under(alloc, key)),
        }
    }
    Ok(styles)
}

/// The styles that the value is, which has to be an object.
fn styles_in(alloc: Global, value: &Value) -> Result<Vec<NamedStyle>, ReadError>
    ensures read { Reads (λ v. named_styles_view v.items) result
        (option_and_then (all_members style_form) (as_object (view value.now))) }
    ensures fault { Faults result (view value.now) }
{
    match value.as_object() {
        Some(members) => all_styles(alloc, members),
        None => Err(unlike(alloc, value, Wanted::Object)),
    }
}

/// The styles of the document, by name. Of a name that stands twice the last is kept.
#[tactic(auto, using(document_values::proofs::Ways::fails_outside), unfolding(crate::specs::Styles::styles_form))]
pub fn styles_of(alloc: Global, object: &Value) -> Result<Vec<NamedStyle>, ReadError>
    ensures read { Reads (λ v. named_styles_view v.items) result (styles_form (view object.now)) }
    ensures fault { Faults result (view object.now) }
{
    match object.get("styles") {
        Some(member) => styles_in(alloc, member).map_err(|error| error.under(alloc, "styles")),
        None => Err(lacking(alloc, object, "styles")),
    }
}
