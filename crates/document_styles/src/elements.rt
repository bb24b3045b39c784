//! Reading elements.
ghost use Rattle.std.specs.Prelude.{◌≡◌, codes, map, option_map, None};
ghost use Rattle.serde_json.specs.Data.{array};
ghost use Rattle.serde_json.specs.View.{view, items_view};
ghost use Rattle.value_styles.specs.Element.{elements_of};
ghost use Rattle.value_styles.specs.ElementView.{look, target_view, element_view, branch_view};
ghost use Rattle.document_values.specs.Words.{all_items, items_of_key, required, name_form};
ghost use Rattle.document_values.specs.Names.{variable_named};
ghost use Rattle.document_styles.specs.Elements.{
  slant_of,
  weight_of,
  formatting_form,
  look_form,
  target_form,
  text_form,
  number_form,
  date_form,
  names_form,
  variable_form,
  condition_named,
  condition_form,
  group_form,
  branch_form,
  choose_form,
  element_form,
  element_over,
  ElementsNest,
};
ghost use Rattle.document_values.specs.Reads.{Faults, IsErrorOf, Reads};

use crate::options::options_at;
use csl_base::element::{
    Affixes, ChooseBranch, ChooseMatch, Condition, LayoutRenderingElement, TextTarget,
};
use csl_base::formatting::{Display, FontStyle, FontWeight, StyleFormatting};
use csl_base::taxonomy::{TermForm, Variable};
use document_values::error::ReadError;
use document_values::fault::Wanted;
use document_values::names::{named, term_of, variable_of};
use document_values::refusals::{lacking, unlike};
use document_values::tables::{
    DATE_VARIABLES, DISPLAYS, FONT_VARIANTS, MATCHES, NAME_VARIABLES, NUMBER_VARIABLES, POSITIONS,
    STANDARD_VARIABLES, TERM_FORMS, TEXT_DECORATIONS, VERTICAL_ALIGNS,
};
use document_values::words::{
    flag, name_at, name_or, names_at, object_with, one_of, optional_list, optional_name,
    optional_names, optional_text, required_list, required_text, text_of,
};
use serde_json::Value;
use std::alloc::Global;

// ---- what elements have in common

/// What every element but a choice has.
#[derive(Drop)]
pub struct Look {
    affixes: Affixes,
    formatting: StyleFormatting,
    display: Option<Display>,
}

/// The formatting that an object asks for: by `italic`, `bold`, `font_variant`, `text_decoration`
/// and `vertical_align`.
#[tactic(auto, unfolding(crate::specs::Elements::formatting_form))]
pub fn formatting_in(alloc: Global, object: &Value) -> Result<StyleFormatting, ReadError>
    ensures read { Reads (λ f. f) result (formatting_form (view object.now)) }
    ensures fault { Faults result (view object.now) }
{
    let italic = flag(alloc, object, "italic")?;
    let bold = flag(alloc, object, "bold")?;
    let font_variant = optional_name(alloc, FONT_VARIANTS, object, "font_variant")?;
    let text_decoration = optional_name(alloc, TEXT_DECORATIONS, object, "text_decoration")?;
    let vertical_align = optional_name(alloc, VERTICAL_ALIGNS, object, "vertical_align")?;
    Ok(StyleFormatting {
        font_style: italic.then_some(FontStyle::Italic),
        font_variant,
        font_weight: bold.then_some(FontWeight::Bold),
        text_decoration,
        vertical_align,
    })
}

#[tactic(auto, unfolding(crate::specs::Elements::look_form))]
fn look_of(alloc: Global, object: &Value) -> Result<Look, ReadError>
    ensures read { Reads (λ l. look l.affixes l.formatting l.display) result
        (look_form (view object.now)) }
    ensures fault { Faults result (view object.now) }
{
    let prefix = optional_text(alloc, object, "prefix")?;
    let suffix = optional_text(alloc, object, "suffix")?;
    let formatting = formatting_in(alloc, object)?;
    let display = optional_name(alloc, DISPLAYS, object, "display")?;
    Ok(Look {
        affixes: Affixes { prefix, suffix },
        formatting,
        display,
    })
}

// ---- elements with no elements inside

#[tactic(auto, using(document_values::proofs::Ways::fails_outside), unfolding(crate::specs::Elements::target_form))]
fn target_of(alloc: Global, object: &Value) -> Result<TextTarget, ReadError>
    ensures read { Reads target_view result (target_form (view object.now)) }
    ensures fault { Faults result (view object.now) }
{
    let form = name_or(alloc, TERM_FORMS, object, "form", TermForm::Long)?;
    let plural = flag(alloc, object, "plural")?;
    match (
        object.get("value"),
        object.get("variable"),
        object.get("macro"),
        object.get("term"),
    ) {
        (Some(text), None, None, None) => match text_of(alloc, text) {
            Ok(text) => Ok(TextTarget::Value(text)),
            Err(error) => Err(error.under(alloc, "value")),
        },
        (None, Some(name), None, None) => match one_of(alloc, STANDARD_VARIABLES, name) {
            Ok(variable) => Ok(TextTarget::Standard(variable)),
            Err(error) => Err(error.under(alloc, "variable")),
        },
        (None, None, Some(name), None) => match text_of(alloc, name) {
            Ok(name) => Ok(TextTarget::Macro(name)),
            Err(error) => Err(error.under(alloc, "macro")),
        },
        (None, None, None, Some(name)) => match term_of(alloc, name) {
            Ok(term) => Ok(TextTarget::Term(term, form, plural)),
            Err(error) => Err(error.under(alloc, "term")),
        },
        _ => Err(unlike(alloc, object, Wanted::Target)),
    }
}

#[tactic(auto, unfolding(crate::specs::Elements::text_form))]
fn text_element_of(alloc: Global, value: &Value) -> Result<LayoutRenderingElement, ReadError>
    ensures read { Reads element_view result (text_form (view value.now)) }
    ensures fault { Faults result (view value.now) }
{
    let object = object_with(
        alloc,
        &[
            "kind",
            "prefix",
            "suffix",
            "italic",
            "bold",
            "font_variant",
            "text_decoration",
            "vertical_align",
            "display",
            "value",
            "variable",
            "macro",
            "term",
            "form",
            "plural",
            "quotes",
            "strip_periods",
        ],
        value,
    )?;
    let target = target_of(alloc, object)?;
    let quotes = flag(alloc, object, "quotes")?;
    let strip_periods = flag(alloc, object, "strip_periods")?;
    let look = look_of(alloc, object)?;
    Ok(LayoutRenderingElement::Text {
        target,
        quotes,
        strip_periods,
        affixes: look.affixes,
        formatting: look.formatting,
        display: look.display,
    })
}

#[tactic(auto, unfolding(crate::specs::Elements::number_form))]
fn number_of(alloc: Global, value: &Value) -> Result<LayoutRenderingElement, ReadError>
    ensures read { Reads element_view result (number_form (view value.now)) }
    ensures fault { Faults result (view value.now) }
{
    let object = object_with(
        alloc,
        &[
            "kind",
            "prefix",
            "suffix",
            "italic",
            "bold",
            "font_variant",
            "text_decoration",
            "vertical_align",
            "display",
            "variable",
        ],
        value,
    )?;
    let variable = name_at(alloc, NUMBER_VARIABLES, object, "variable")?;
    let look = look_of(alloc, object)?;
    Ok(LayoutRenderingElement::Number {
        variable,
        affixes: look.affixes,
        formatting: look.formatting,
        display: look.display,
    })
}

#[tactic(auto, unfolding(crate::specs::Elements::date_form))]
fn date_of(alloc: Global, value: &Value) -> Result<LayoutRenderingElement, ReadError>
    ensures read { Reads element_view result (date_form (view value.now)) }
    ensures fault { Faults result (view value.now) }
{
    let object = object_with(
        alloc,
        &[
            "kind",
            "prefix",
            "suffix",
            "italic",
            "bold",
            "font_variant",
            "text_decoration",
            "vertical_align",
            "display",
            "variable",
        ],
        value,
    )?;
    let variable = name_at(alloc, DATE_VARIABLES, object, "variable")?;
    let look = look_of(alloc, object)?;
    Ok(LayoutRenderingElement::Date {
        variable,
        affixes: look.affixes,
        formatting: look.formatting,
        display: look.display,
    })
}

#[tactic(auto, unfolding(crate::specs::Elements::names_form))]
fn names_of(alloc: Global, value: &Value) -> Result<LayoutRenderingElement, ReadError>
    ensures read { Reads element_view result (names_form (view value.now)) }
    ensures fault { Faults result (view value.now) }
{
    let object = object_with(
        alloc,
        &[
            "kind",
            "prefix",
            "suffix",
            "italic",
            "bold",
            "font_variant",
            "text_decoration",
            "vertical_align",
            "display",
            "variables",
            "substitute",
            "options",
        ],
        value,
    )?;
    let variables = names_at(alloc, NAME_VARIABLES, object, "variables")?;
    let substitute = optional_names(alloc, NAME_VARIABLES, object, "substitute")?;
    let options = options_at(alloc, object)?;
    let look = look_of(alloc, object)?;
    Ok(LayoutRenderingElement::Names {
        variables,
        substitute,
        options,
        affixes: look.affixes,
        formatting: look.formatting,
        display: look.display,
    })
}

// ---- conditions

/// The member of the key `variable`, which names a variable of any kind.
#[tactic(auto, using(document_values::proofs::Ways::fails_outside))]
fn required_variable(alloc: Global, object: &Value) -> Result<Variable, ReadError>
    ensures read { Reads (λ v. v) result
        (required (name_form variable_named) (codes "variable") (view object.now)) }
    ensures fault { Faults result (view object.now) }
{
    match object.get("variable") {
        Some(member) => variable_of(alloc, member).map_err(|error| error.under(alloc, "variable")),
        None => Err(lacking(alloc, object, "variable")),
    }
}

#[tactic(auto, unfolding(crate::specs::Elements::variable_form))]
fn tested_variable_of(alloc: Global, value: &Value) -> Result<Variable, ReadError>
    ensures read { Reads (λ v. v) result (variable_form (view value.now)) }
    ensures fault { Faults result (view value.now) }
{
    let object = object_with(alloc, &["variable"], value)?;
    required_variable(alloc, object)
}

fn condition_named(name: &str) -> Option<Condition>
    ensures { result ≡ condition_named name.now }
{
    if name == "disambiguate" {
        return Some(Condition::Disambiguate);
    }
    named(POSITIONS, name).map(Condition::Position)
}

#[tactic(auto, unfolding(crate::specs::Elements::condition_form))]
fn condition_of(alloc: Global, value: &Value) -> Result<Condition, ReadError>
    ensures read { Reads (λ c. c) result (condition_form (view value.now)) }
    ensures fault { Faults result (view value.now) }
{
    match value.as_str() {
        Some(name) => match condition_named(name) {
            Some(condition) => Ok(condition),
            None => Err(unlike(alloc, value, Wanted::Condition)),
        },
        None => Ok(Condition::Variable(tested_variable_of(alloc, value)?)),
    }
}

#[tactic(auto, using(document_values::proofs::Ways::item_there))]
fn conditions_of(alloc: Global, items: &[Value]) -> Result<Vec<Condition>, ReadError>
    ensures read { Reads (λ v. v.items) result (all_items condition_form (items_view items.now)) }
    ensures fault { Faults result (array (items_view items.now)) }
{
    let mut conditions = Vec::new(alloc);
    for (place, item) in items.iter().enumerate() {
        match condition_of(alloc, item) {
            Ok(condition) => conditions.push(condition)?,
            Err(error) => return Err(error.in_item(place)),
        }
    }
    Ok(conditions)
}

/// The conditions under the key `if`, which has to be there.
#[tactic(auto, using(document_values::proofs::Ways::fails_outside))]
fn tests_at(alloc: Global, object: &Value) -> Result<Vec<Condition>, ReadError>
    ensures read { Reads (λ v. v.items) result
        (items_of_key condition_form (codes "if") (view object.now)) }
    ensures fault { Faults result (view object.now) }
{
    let list = required_list(alloc, object, "if")?;
    match conditions_of(alloc, list) {
        Ok(conditions) => Ok(conditions),
        Err(error) => Err(error.under(alloc, "if")),
    }
}

// ---- elements in which elements stand

/// The error of an element of an unknown kind.
fn unknown_kind(alloc: Global, value: &Value) -> ReadError
    ensures { IsErrorOf result (view value.now) }
{
    match value.get("kind") {
        Some(member) => unlike(alloc, member, Wanted::Kind).under(alloc, "kind"),
        None => lacking(alloc, value, "kind"),
    }
}

#[cycle(elements)]
fn element_of(alloc: Global, value: &Value) -> Result<LayoutRenderingElement, ReadError>
    ensures read { Reads element_view result (element_form (view value.now)) }
    ensures fault { Faults result (view value.now) }
{
    element_of_kind(alloc, value)
}

#[cycle(elements)]
fn element_of_kind(alloc: Global, value: &Value) -> Result<LayoutRenderingElement, ReadError>
    ensures read { Reads element_view result (element_over element_form (view value.now)) }
    ensures fault { Faults result (view value.now) }
{
    match required_text(alloc, value, "kind")? {
        "text" => text_element_of(alloc, value),
        "number" => number_of(alloc, value),
        "date" => date_of(alloc, value),
        "names" => names_of(alloc, value),
        "group" => group_of(alloc, value),
        "choose" => choose_of(alloc, value),
        _ => Err(unknown_kind(alloc, value)),
    }
}

#[cycle(elements)]
#[tactic(auto, using(document_values::proofs::Ways::item_there))]
fn all_elements(alloc: Global, items: &[Value]) -> Result<Vec<LayoutRenderingElement>, ReadError>
    ensures read { Reads (λ v. map element_view v.items) result
        (all_items element_form (items_view items.now)) }
    ensures fault { Faults result (array (items_view items.now)) }
{
    let mut elements = Vec::new(alloc);
    for (place, item) in items.iter().enumerate() {
        match element_of(alloc, item) {
            Ok(element) => elements.push(element)?,
            Err(error) => return Err(error.in_item(place)),
        }
    }
    Ok(elements)
}

/// The elements under a key, which has to be there.
#[cycle(elements)]
#[tactic(auto, using(document_values::proofs::Ways::fails_outside))]
pub fn elements_at(
    alloc: Global,
    object: &Value,
    key: &str,
) -> Result<Vec<LayoutRenderingElement>, ReadError>
    ensures read { Reads (λ v. map element_view v.items) result
        (items_of_key element_form key.now (view object.now)) }
    ensures fault { Faults result (view object.now) }
{
    let list = required_list(alloc, object, key)?;
    match all_elements(alloc, list) {
        Ok(elements) => Ok(elements),
        Err(error) => Err(error.under(alloc, key)),
    }
}

#[cycle(elements)]
#[tactic(auto, unfolding(crate::specs::Elements::group_form))]
fn group_of(alloc: Global, value: &Value) -> Result<LayoutRenderingElement, ReadError>
    ensures read { Reads element_view result (group_form element_form (view value.now)) }
    ensures fault { Faults result (view value.now) }
{
    let object = object_with(
        alloc,
        &[
            "kind",
            "prefix",
            "suffix",
            "italic",
            "bold",
            "font_variant",
            "text_decoration",
            "vertical_align",
            "display",
            "children",
            "delimiter",
        ],
        value,
    )?;
    let children = elements_at(alloc, object, "children")?;
    let delimiter = optional_text(alloc, object, "delimiter")?;
    let look = look_of(alloc, object)?;
    Ok(LayoutRenderingElement::Group {
        children,
        delimiter,
        affixes: look.affixes,
        formatting: look.formatting,
        display: look.display,
    })
}

#[cycle(elements)]
#[tactic(auto, using(document_values::proofs::Ways::fails_outside), unfolding(crate::specs::Elements::choose_form))]
fn choose_of(alloc: Global, value: &Value) -> Result<LayoutRenderingElement, ReadError>
    ensures read { Reads element_view result (choose_form element_form (view value.now)) }
    ensures fault { Faults result (view value.now) }
{
    let object = object_with(alloc, &["kind", "branches", "else"], value)?;
    let branches = branches_at(alloc, object)?;
    let last = optional_list(alloc, object, "else")?;
    match all_elements(alloc, last) {
        Ok(otherwise) => Ok(LayoutRenderingElement::Choose {
            branches,
            otherwise,
        }),
        Err(error) => Err(error.under(alloc, "else")),
    }
}

#[cycle(elements)]
#[tactic(auto, using(document_values::proofs::Ways::item_there))]
fn all_branches(alloc: Global, items: &[Value]) -> Result<Vec<ChooseBranch>, ReadError>
    ensures read { Reads (λ v. map branch_view v.items) result
        (all_items (branch_form element_form) (items_view items.now)) }
    ensures fault { Faults result (array (items_view items.now)) }
{
    let mut branches = Vec::new(alloc);
    for (place, item) in items.iter().enumerate() {
        match branch_of(alloc, item) {
            Ok(branch) => branches.push(branch)?,
            Err(error) => return Err(error.in_item(place)),
        }
    }
    Ok(branches)
}

/// The branches under the key `branches`, which has to be there.
#[cycle(elements)]
#[tactic(auto, using(document_values::proofs::Ways::fails_outside))]
fn branches_at(alloc: Global, object: &Value) -> Result<Vec<ChooseBranch>, ReadError>
    ensures read { Reads (λ v. map branch_view v.items) result
        (items_of_key (branch_form element_form) (codes "branches") (view object.now)) }
    ensures fault { Faults result (view object.now) }
{
    let list = required_list(alloc, object, "branches")?;
    match all_branches(alloc, list) {
        Ok(branches) => Ok(branches),
        Err(error) => Err(error.under(alloc, "branches")),
    }
}

#[cycle(elements)]
#[tactic(auto, unfolding(crate::specs::Elements::branch_form))]
fn branch_of(alloc: Global, value: &Value) -> Result<ChooseBranch, ReadError>
    ensures read { Reads branch_view result (branch_form element_form (view value.now)) }
    ensures fault { Faults result (view value.now) }
{
    let object = object_with(alloc, &["if", "match", "children"], value)?;
    let children = elements_at(alloc, object, "children")?;
    let conditions = tests_at(alloc, object)?;
    let rule = name_or(alloc, MATCHES, object, "match", ChooseMatch::All)?;
    Ok(ChooseBranch {
        conditions,
        rule,
        children,
    })
}

/// What an element is doesn't depend on how deep elements may nest.
#[tactic(auto, using(crate::proofs::Nesting::elements_nest))]
pub fn elements_nest()
    ensures { ElementsNest }
{}
