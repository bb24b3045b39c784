//! Reading trees.
ghost use Rattle.std.specs.Prelude.{◌≡◌, codes};
ghost use Rattle.serde_json.specs.Data.{array};
ghost use Rattle.serde_json.specs.View.{view, items_view};
ghost use Rattle.value_trees.specs.Child.{kids_of};
ghost use Rattle.value_trees.specs.ChildView.{child_view};
ghost use Rattle.document_values.specs.Words.{all_items, items_of_key};
ghost use Rattle.document_values.specs.Reads.{Faults, Reads};
ghost use Rattle.document_values.specs.Tables.{AreRowsOf};
ghost use Rattle.document_tasks.specs.TreeForm.{
  font_styles,
  font_weights,
  full_formatting_form,
  text_or_link,
  text_child_form,
  markup_form,
  cite_mark_form,
  elem_form,
  node_over,
  node_form,
  NodesNest,
  tree_form,
};

use crate::metas::optional_meta;
use crate::wholes::whole_at;
use csl_base::elem::{Elem, ElemChild, ElemChildren};
use csl_base::formatting::{
    FontStyle, FontVariant, FontWeight, Formatted, Formatting, TextDecoration, VerticalAlign,
};
use csl_base::text::Text;
use document_values::error::ReadError;
use document_values::tables::{DISPLAYS, FONT_VARIANTS, TEXT_DECORATIONS, VERTICAL_ALIGNS};
use document_values::texts::{held_text_at, optional_held_text};
use document_values::words::{
    list_of, name_at, name_or, object_with, optional_name, required_list,
};
use serde_json::Value;
use std::alloc::Global;

/// How letters slant.
const FONT_STYLES: &[(&str, FontStyle)] = &[
    ("normal", FontStyle::Normal),
    ("italic", FontStyle::Italic),
];

/// How heavy letters are.
const FONT_WEIGHTS: &[(&str, FontWeight)] = &[
    ("normal", FontWeight::Normal),
    ("bold", FontWeight::Bold),
];

/// Each table has the rows that its definition lists.
pub fn rows_are_as_defined()
    ensures styles { AreRowsOf font_styles FONT_STYLES.now }
    ensures weights { AreRowsOf font_weights FONT_WEIGHTS.now }
{}

// ---- nodes with no nodes inside

#[tactic(auto, unfolding(crate::specs::TreeForm::full_formatting_form))]
fn formatting_of(alloc: Global, object: &Value) -> Result<Formatting, ReadError>
    ensures read { Reads (λ f. f) result (full_formatting_form (view object.now)) }
    ensures fault { Faults result (view object.now) }
{
    let font_style = name_at(alloc, FONT_STYLES, object, "font_style")?;
    let font_weight = name_at(alloc, FONT_WEIGHTS, object, "font_weight")?;
    let font_variant = name_or(
        alloc,
        FONT_VARIANTS,
        object,
        "font_variant",
        FontVariant::Normal,
    )?;
    let text_decoration = name_or(
        alloc,
        TEXT_DECORATIONS,
        object,
        "text_decoration",
        TextDecoration::None,
    )?;
    let vertical_align = name_or(
        alloc,
        VERTICAL_ALIGNS,
        object,
        "vertical_align",
        VerticalAlign::None,
    )?;
    Ok(Formatting {
        font_style,
        font_variant,
        font_weight,
        text_decoration,
        vertical_align,
    })
}

fn text_or_link(text: Formatted, url: Option<Text>) -> ElemChild
    ensures { child_view result ≡ text_or_link text url }
{
    match url {
        None => ElemChild::Text(text),
        Some(url) => ElemChild::Link { text, url },
    }
}

#[tactic(auto, unfolding(crate::specs::TreeForm::text_child_form))]
fn text_of(alloc: Global, value: &Value) -> Result<ElemChild, ReadError>
    ensures read { Reads child_view result (text_child_form (view value.now)) }
    ensures fault { Faults result (view value.now) }
{
    let keys = &[
        "font_style",
        "font_weight",
        "font_variant",
        "text_decoration",
        "vertical_align",
        "text",
        "url",
    ];
    let object = object_with(alloc, keys, value)?;
    let formatting = formatting_of(alloc, object)?;
    let text = held_text_at(alloc, object, "text")?;
    let url = optional_held_text(alloc, object, "url")?;
    Ok(text_or_link(Formatted { text, formatting }, url))
}

#[tactic(auto, unfolding(crate::specs::TreeForm::markup_form))]
fn markup_of(alloc: Global, value: &Value) -> Result<ElemChild, ReadError>
    ensures read { Reads child_view result (markup_form (view value.now)) }
    ensures fault { Faults result (view value.now) }
{
    let object = object_with(alloc, &["markup"], value)?;
    Ok(ElemChild::Markup(held_text_at(alloc, object, "markup")?))
}

#[tactic(auto, unfolding(crate::specs::TreeForm::cite_mark_form))]
fn cite_of(alloc: Global, value: &Value) -> Result<ElemChild, ReadError>
    ensures read { Reads child_view result (cite_mark_form (view value.now)) }
    ensures fault { Faults result (view value.now) }
{
    let keys = &[
        "font_style",
        "font_weight",
        "font_variant",
        "text_decoration",
        "vertical_align",
        "cite",
    ];
    let object = object_with(alloc, keys, value)?;
    let format = formatting_of(alloc, object)?;
    let cite_idx = whole_at(alloc, object, "cite")?;
    Ok(ElemChild::Transparent { cite_idx, format })
}

// ---- nodes in which nodes stand

#[cycle(nodes)]
fn node_of(alloc: Global, value: &Value) -> Result<ElemChild, ReadError>
    ensures read { Reads child_view result (node_form (view value.now)) }
    ensures fault { Faults result (view value.now) }
{
    node_of_kind(alloc, value)
}

#[cycle(nodes)]
fn node_of_kind(alloc: Global, value: &Value) -> Result<ElemChild, ReadError>
    ensures read { Reads child_view result (node_over node_form (view value.now)) }
    ensures fault { Faults result (view value.now) }
{
    if value.get("children").is_some() {
        return element_of(alloc, value);
    }
    if value.get("markup").is_some() {
        return markup_of(alloc, value);
    }
    if value.get("cite").is_some() {
        return cite_of(alloc, value);
    }
    text_of(alloc, value)
}

#[cycle(nodes)]
#[tactic(auto, using(document_values::proofs::Ways::item_there))]
fn all_nodes(alloc: Global, items: &[Value]) -> Result<ElemChildren, ReadError>
    ensures read { Reads (λ t. t) result (all_items node_form (items_view items.now)) }
    ensures fault { Faults result (array (items_view items.now)) }
{
    let mut nodes = ElemChildren::new(alloc);
    for (place, item) in items.iter().enumerate() {
        match node_of(alloc, item) {
            Ok(node) => nodes.push(node)?,
            Err(error) => return Err(error.in_item(place)),
        }
    }
    Ok(nodes)
}

/// The nodes under the key `children`, which has to be there.
#[cycle(nodes)]
#[tactic(auto, using(document_values::proofs::Ways::fails_outside))]
fn children_at(alloc: Global, object: &Value) -> Result<ElemChildren, ReadError>
    ensures read { Reads (λ t. t) result
        (items_of_key node_form (codes "children") (view object.now)) }
    ensures fault { Faults result (view object.now) }
{
    let list = required_list(alloc, object, "children")?;
    match all_nodes(alloc, list) {
        Ok(children) => Ok(children),
        Err(error) => Err(error.under(alloc, "children")),
    }
}

#[cycle(nodes)]
#[tactic(auto, unfolding(crate::specs::TreeForm::elem_form))]
fn element_of(alloc: Global, value: &Value) -> Result<ElemChild, ReadError>
    ensures read { Reads child_view result (elem_form node_form (view value.now)) }
    ensures fault { Faults result (view value.now) }
{
    let object = object_with(alloc, &["children", "display", "meta"], value)?;
    let children = children_at(alloc, object)?;
    let display = optional_name(alloc, DISPLAYS, object, "display")?;
    let meta = optional_meta(alloc, object)?;
    Ok(ElemChild::Elem(Elem {
        children,
        display,
        meta,
    }))
}

/// The tree that the value is, in the form of an answer's JSON.
///
/// # Errors
///
/// Where the value is of another form, which is refused by its place, and where memory is refused.
pub fn tree_of(alloc: Global, value: &Value) -> Result<ElemChildren, ReadError>
    ensures read { Reads (λ t. t) result (tree_form (view value.now)) }
    ensures fault { Faults result (view value.now) }
{
    let list = list_of(alloc, value)?;
    all_nodes(alloc, list)
}

/// What a node is doesn't depend on how deep nodes may nest.
#[tactic(auto, using(crate::proofs::Nesting::nodes_nest))]
pub fn nodes_nest()
    ensures { NodesNest }
{}
