//! Reading driven styles: those of a host, which have a name in place of layouts. Where a style
//! says nothing, it has what an ordinary style has by default.
ghost use Rattle.std.specs.Prelude.{◌≡◌, IfOk, codes, option_and_then, option_map, pos};
ghost use Rattle.serde_json.specs.Data.{object as object_of};
ghost use Rattle.serde_json.specs.Find.{as_object};
ghost use Rattle.serde_json.specs.View.{view, members_view};
ghost use Rattle.value_styles.specs.ElementView.{options_view};
ghost use Rattle.value_styles.specs.PlainLook.{no_formatting, no_options};
ghost use Rattle.value_styles.specs.StyleView.{
  layout_view,
  citation_view,
  bibliography_view,
  style_view,
};
ghost use Rattle.host_memo.specs.HostStyle.{one_text};
ghost use Rattle.document_values.specs.Reads.{Faults, Reads};
ghost use Rattle.document_values.specs.Words.{member_form, object_with, optional, where_present};
ghost use Rattle.document_styles.specs.NamedStyleView.{named_style_view, named_styles_view};
ghost use Rattle.document_styles.specs.Styles.{line_spacing, non_zero, single, spacing};
ghost use Rattle.document_driven.specs.DrivenStyles.{
  affixes_form,
  driven_bibliography_form,
  driven_bibliography_keys,
  driven_citation,
  driven_citation_form,
  driven_citation_keys,
  driven_members,
  driven_style_form,
  driven_style_keys,
  driven_styles_form,
  no_layout,
};

use csl_base::element::InheritableNameOptions;
use csl_base::formatting::StyleFormatting;
use csl_base::style::{
    Bibliography, Citation, DisambiguationRule, IndependentStyle, Layout, StyleClass, StyleInfo,
    StyleSettings, SubsequentAuthorSubstituteRule,
};
use document_styles::styles::NamedStyle;
use document_values::error::ReadError;
use document_values::fault::Wanted;
use document_values::refusals::{lacking, unlike};
use document_values::tables::{
    CLASSES, COLLAPSES, GIVEN_NAME_RULES, SECOND_FIELD_ALIGNS, SUBSTITUTE_RULES,
};
use document_values::words::{
    flag, name_or, number_or, object_with, optional_code, optional_name, optional_text,
    whole_between,
};
use host_memo::host_style::named;
use serde_json::{Map, Value};
use std::alloc::Global;
use std::num::NonZeroI16;

fn no_options() -> InheritableNameOptions
    ensures { options_view result ≡ no_options }
{
    InheritableNameOptions {
        and: None,
        name_delimiter: None,
        names_delimiter: None,
        et_al_min: None,
        et_al_use_first: None,
        name_form: None,
        initialize_with: None,
    }
}

// ---- spacings

fn spacing_of(alloc: Global, value: &Value) -> Result<i16, ReadError>
    ensures read { Reads (λ n. n) result (spacing (view value.now)) }
    ensures fault { Faults result (view value.now) }
{
    let number = whole_between(alloc, value, -32768, 32767, Wanted::Spacing)?;
    Ok(number as i16)
}

#[tactic(auto, using(document_values::proofs::Ways::fails_outside))]
fn spacing_or_single(alloc: Global, value: &Value, key: &str) -> Result<i16, ReadError>
    ensures read { Reads (λ n. n) result (optional (pos 1) spacing key.now (view value.now)) }
    ensures fault { Faults result (view value.now) }
{
    match value.get(key) {
        None => Ok(1),
        Some(member) => spacing_of(alloc, member).map_err(|error| error.under(alloc, key)),
    }
}

fn non_zero(number: i16) -> Option<NonZeroI16>
    ensures { result ≡ non_zero number }
{
    NonZeroI16::new(number)
}

fn single() -> NonZeroI16
    ensures { result ≡ single }
{
    NonZeroI16::new(1).unwrap()
}

/// The spacing that the value is, which may not be 0.
fn line_spacing_of(alloc: Global, value: &Value) -> Result<NonZeroI16, ReadError>
    ensures read { Reads (λ n. n) result (line_spacing (view value.now)) }
    ensures fault { Faults result (view value.now) }
{
    let number = spacing_of(alloc, value)?;
    match non_zero(number) {
        Some(spacing) => Ok(spacing),
        None => Err(unlike(alloc, value, Wanted::LineSpacing)),
    }
}

#[tactic(auto, using(document_values::proofs::Ways::fails_outside))]
fn line_spacing_or_single(alloc: Global, value: &Value, key: &str) -> Result<NonZeroI16, ReadError>
    ensures read { Reads (λ n. n) result (optional single line_spacing key.now (view value.now)) }
    ensures fault { Faults result (view value.now) }
{
    match value.get(key) {
        None => Ok(single()),
        Some(member) => line_spacing_of(alloc, member).map_err(|error| error.under(alloc, key)),
    }
}

// ---- citations

fn plain() -> StyleFormatting
    ensures { result ≡ no_formatting }
{
    StyleFormatting::default()
}

/// The layout of a style of this name, with the affixes of the object.
#[tactic(auto, unfolding(crate::specs::DrivenStyles::affixes_form))]
fn layout_of(alloc: Global, name: &str, object: &Value) -> Result<Layout, ReadError>
    ensures read { Reads layout_view result (affixes_form (one_text name.now) (view object.now)) }
    ensures fault { Faults result (view object.now) }
{
    let elements = named(alloc, name)?;
    let prefix = optional_text(alloc, object, "prefix")?;
    let suffix = optional_text(alloc, object, "suffix")?;
    let delimiter = optional_text(alloc, object, "delimiter")?;
    Ok(Layout {
        elements,
        formatting: plain(),
        prefix,
        suffix,
        delimiter,
    })
}

/// The value, which has to be an object with no keys but those of a citation.
fn citation_object(alloc: Global, value: &Value) -> Result<&Value, ReadError>
    ensures read { Reads (λ v. view v.now) result
        (object_with driven_citation_keys (view value.now)) }
    ensures fault { Faults result (view value.now) }
    ensures same { IfOk result (λ v. v.now ≡ value.now) }
{
    object_with(
        alloc,
        &[
            "prefix",
            "suffix",
            "delimiter",
            "add_givenname",
            "givenname_rule",
            "add_names",
            "add_year_suffix",
            "cite_group_delimiter",
            "year_suffix_delimiter",
            "after_collapse_delimiter",
            "collapse",
            "near_note_distance",
        ],
        value,
    )
}

#[tactic(auto, unfolding(crate::specs::DrivenStyles::driven_citation_form))]
fn citation_of(alloc: Global, name: &str, value: &Value) -> Result<Citation, ReadError>
    ensures read { Reads citation_view result (driven_citation_form name.now (view value.now)) }
    ensures fault { Faults result (view value.now) }
{
    let object = citation_object(alloc, value)?;
    let layout = layout_of(alloc, name, object)?;
    let disambiguate_add_givenname = flag(alloc, object, "add_givenname")?;
    let givenname_disambiguation_rule = name_or(
        alloc,
        GIVEN_NAME_RULES,
        object,
        "givenname_rule",
        DisambiguationRule::ByCite,
    )?;
    let disambiguate_add_names = flag(alloc, object, "add_names")?;
    let disambiguate_add_year_suffix = flag(alloc, object, "add_year_suffix")?;
    let cite_group_delimiter = optional_text(alloc, object, "cite_group_delimiter")?;
    let year_suffix_delimiter = optional_text(alloc, object, "year_suffix_delimiter")?;
    let after_collapse_delimiter = optional_text(alloc, object, "after_collapse_delimiter")?;
    let collapse = optional_name(alloc, COLLAPSES, object, "collapse")?;
    let near_note_distance = number_or(alloc, object, "near_note_distance", 5)?;
    Ok(Citation {
        layout,
        disambiguate_add_givenname,
        givenname_disambiguation_rule,
        disambiguate_add_names,
        disambiguate_add_year_suffix,
        cite_group_delimiter,
        year_suffix_delimiter,
        after_collapse_delimiter,
        collapse,
        near_note_distance,
        name_options: no_options(),
    })
}

#[tactic(auto, using(document_values::proofs::Ways::fails_outside))]
fn citation_at(alloc: Global, name: &str, object: &Value) -> Result<Citation, ReadError>
    ensures read { Reads citation_view result (driven_citation name.now (view object.now)) }
    ensures fault { Faults result (view object.now) }
{
    match object.get("citation") {
        None => citation_of(alloc, name, &Value::Object(Map::new(alloc))),
        Some(member) => match citation_of(alloc, name, member) {
            Ok(citation) => Ok(citation),
            Err(error) => Err(error.under(alloc, "citation")),
        },
    }
}

// ---- bibliographies

fn no_layout(alloc: Global) -> Layout
    ensures { layout_view result ≡ no_layout }
{
    Layout {
        elements: Vec::new(alloc),
        formatting: plain(),
        prefix: None,
        suffix: None,
        delimiter: None,
    }
}

/// The value, which has to be an object with no keys but those of a bibliography.
fn bibliography_object(alloc: Global, value: &Value) -> Result<&Value, ReadError>
    ensures read { Reads (λ v. view v.now) result
        (object_with driven_bibliography_keys (view value.now)) }
    ensures fault { Faults result (view value.now) }
    ensures same { IfOk result (λ v. v.now ≡ value.now) }
{
    object_with(
        alloc,
        &[
            "hanging_indent",
            "second_field_align",
            "line_spacing",
            "entry_spacing",
            "substitute",
            "substitute_rule",
        ],
        value,
    )
}

#[tactic(auto, unfolding(crate::specs::DrivenStyles::driven_bibliography_form))]
fn bibliography_of(alloc: Global, value: &Value) -> Result<Bibliography, ReadError>
    ensures read { Reads bibliography_view result (driven_bibliography_form (view value.now)) }
    ensures fault { Faults result (view value.now) }
{
    let object = bibliography_object(alloc, value)?;
    let hanging_indent = flag(alloc, object, "hanging_indent")?;
    let second_field_align = optional_name(
        alloc,
        SECOND_FIELD_ALIGNS,
        object,
        "second_field_align",
    )?;
    let line_spacing = line_spacing_or_single(alloc, object, "line_spacing")?;
    let entry_spacing = spacing_or_single(alloc, object, "entry_spacing")?;
    let subsequent_author_substitute = optional_text(alloc, object, "substitute")?;
    let subsequent_author_substitute_rule = name_or(
        alloc,
        SUBSTITUTE_RULES,
        object,
        "substitute_rule",
        SubsequentAuthorSubstituteRule::CompleteAll,
    )?;
    Ok(Bibliography {
        layout: no_layout(alloc),
        hanging_indent,
        second_field_align,
        line_spacing,
        entry_spacing,
        subsequent_author_substitute,
        subsequent_author_substitute_rule,
        name_options: no_options(),
    })
}

#[tactic(auto, using(document_values::proofs::Ways::fails_outside))]
fn bibliography_at(alloc: Global, object: &Value) -> Result<Option<Bibliography>, ReadError>
    ensures read { Reads (option_map bibliography_view) result
        (where_present driven_bibliography_form (codes "bibliography") (view object.now)) }
    ensures fault { Faults result (view object.now) }
{
    match object.get("bibliography") {
        None => Ok(None),
        Some(member) => match bibliography_of(alloc, member) {
            Ok(bibliography) => Ok(Some(bibliography)),
            Err(error) => Err(error.under(alloc, "bibliography")),
        },
    }
}

// ---- styles

/// The value, which has to be an object with no keys but those of a driven style.
fn style_object(alloc: Global, value: &Value) -> Result<&Value, ReadError>
    ensures read { Reads (λ v. view v.now) result (object_with driven_style_keys (view value.now)) }
    ensures fault { Faults result (view value.now) }
    ensures same { IfOk result (λ v. v.now ≡ value.now) }
{
    object_with(
        alloc,
        &["class", "default_locale", "citation", "bibliography"],
        value,
    )
}

#[tactic(auto, unfolding(crate::specs::DrivenStyles::driven_style_form))]
fn style_of(alloc: Global, name: &str, value: &Value) -> Result<IndependentStyle, ReadError>
    ensures read { Reads style_view result (driven_style_form name.now (view value.now)) }
    ensures fault { Faults result (view value.now) }
{
    let object = style_object(alloc, value)?;
    let class = name_or(alloc, CLASSES, object, "class", StyleClass::InText)?;
    let default_locale = optional_code(alloc, object, "default_locale")?;
    let citation = citation_at(alloc, name, object)?;
    let bibliography = bibliography_at(alloc, object)?;
    Ok(IndependentStyle {
        info: StyleInfo {
            category: Vec::new(alloc),
        },
        settings: StyleSettings {
            class,
            options: no_options(),
        },
        default_locale,
        locale: Vec::new(alloc),
        macros: Vec::new(alloc),
        citation,
        bibliography,
    })
}

fn named_style_of(alloc: Global, name: &str, value: &Value) -> Result<NamedStyle, ReadError>
    ensures read { Reads named_style_view result
        (member_form (driven_style_form name.now) name.now (view value.now)) }
    ensures fault { Faults result (view value.now) }
{
    Ok(NamedStyle {
        name: String::from_str(alloc, name)?,
        style: style_of(alloc, name, value)?,
    })
}

fn all_styles(alloc: Global, members: &Map<String, Value>) -> Result<Vec<NamedStyle>, ReadError>
    ensures read { Reads (λ v. named_styles_view v.items) result
        (driven_members (members_view members.now.entries)) }
    ensures fault { Faults result (object_of (members_view members.now.entries)) }
{
    let mut styles = Vec::new(alloc);
    for (name, member) in members {
        let key = name.as_str();
        match named_style_of(alloc, key, member) {
            Ok(style) => styles.push(style)?,
            Err(error) => return Err(error.under(alloc, key)),
        }
    }
    Ok(styles)
}

/// The styles that the value is, which has to be an object.
fn styles_in(alloc: Global, value: &Value) -> Result<Vec<NamedStyle>, ReadError>
    ensures read { Reads (λ v. named_styles_view v.items) result
        (option_and_then driven_members (as_object (view value.now))) }
    ensures fault { Faults result (view value.now) }
{
    match value.as_object() {
        Some(members) => all_styles(alloc, members),
        None => Err(unlike(alloc, value, Wanted::Object)),
    }
}

/// The driven styles of the document, by name. Of a name that stands twice the last is kept.
#[tactic(auto, using(document_values::proofs::Ways::fails_outside), unfolding(crate::specs::DrivenStyles::driven_styles_form))]
pub fn driven_styles_of(alloc: Global, object: &Value) -> Result<Vec<NamedStyle>, ReadError>
    ensures read { Reads (λ v. named_styles_view v.items) result
        (driven_styles_form (view object.now)) }
    ensures fault { Faults result (view object.now) }
{
    match object.get("styles") {
        Some(member) => styles_in(alloc, member).map_err(|error| error.under(alloc, "styles")),
        None => Err(lacking(alloc, object, "styles")),
    }
}
