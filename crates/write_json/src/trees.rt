//! Trees as JSON.
ghost use Rattle.std.specs.Prelude.{◌≡◌, ◌∷◌, ◌++◌, codes, OnOk, option_map, string_bytes};
ghost use Rattle.serde_json.specs.Data.{string};
ghost use Rattle.serde_json.specs.Written.{compact_text};
ghost use Rattle.value_trees.specs.Child as tree;
ghost use Rattle.value_trees.specs.ChildView.{child_view};
ghost use Rattle.write_json.specs.MetaData.{meta_data};
ghost use Rattle.write_json.specs.Pieces.{
  member_text,
  later_member,
  later_name,
  font_text,
  formatting_text,
};
ghost use Rattle.write_json.specs.TreeData.{
  variant_name,
  decoration_name,
  vertical_name,
  display_name,
  element_data,
  child_data,
  children_data,
};

use crate::metas::write_meta;
use crate::numbers::{write_comma, write_count};
use crate::strings::write_string;
use csl_base::elem::{Elem, ElemChild, ElemChildren, ElemMeta};
use csl_base::formatting::{
    Display, FontStyle, FontVariant, FontWeight, Formatted, Formatting, TextDecoration,
    VerticalAlign,
};
use std::alloc::AllocError;

/// The two members that each formatting has.
fn font_members(slant: FontStyle, weight: FontWeight) -> &'static str
    ensures { result.now ≡ font_text slant weight }
{
    match (slant, weight) {
        (FontStyle::Normal, FontWeight::Normal) => {
            "\"font_style\":\"normal\",\"font_weight\":\"normal\""
        }
        (FontStyle::Normal, FontWeight::Bold) => {
            "\"font_style\":\"normal\",\"font_weight\":\"bold\""
        }
        (FontStyle::Italic, FontWeight::Normal) => {
            "\"font_style\":\"italic\",\"font_weight\":\"normal\""
        }
        (FontStyle::Italic, FontWeight::Bold) => {
            "\"font_style\":\"italic\",\"font_weight\":\"bold\""
        }
    }
}

#[tactic(auto, unfolding(json::specs::Print::escape_byte))]
fn variant_member(variant: FontVariant) -> &'static str
    ensures { result.now ≡ later_name (codes "font_variant") (variant_name variant) }
{
    match variant {
        FontVariant::Normal => "",
        FontVariant::SmallCaps => ",\"font_variant\":\"small-caps\"",
    }
}

#[tactic(auto, unfolding(json::specs::Print::escape_byte))]
fn decoration_member(decoration: TextDecoration) -> &'static str
    ensures { result.now ≡ later_name (codes "text_decoration") (decoration_name decoration) }
{
    match decoration {
        TextDecoration::None => "",
        TextDecoration::Underline => ",\"text_decoration\":\"underline\"",
    }
}

#[tactic(auto, unfolding(json::specs::Print::escape_byte))]
fn vertical_member(align: VerticalAlign) -> &'static str
    ensures { result.now ≡ later_name (codes "vertical_align") (vertical_name align) }
{
    match align {
        VerticalAlign::None => "",
        VerticalAlign::Baseline => ",\"vertical_align\":\"baseline\"",
        VerticalAlign::Superscript => ",\"vertical_align\":\"sup\"",
        VerticalAlign::Subscript => ",\"vertical_align\":\"sub\"",
    }
}

/// Appends the members of a formatting; of those that are usual it writes only slant and weight.
#[tactic(auto, unfolding(crate::specs::Pieces::formatting_text))]
fn write_formatting(out: &mut String, format: Formatting) -> Result<(), AllocError>
    ensures { OnOk result (string_bytes out.new ≡ string_bytes out.old ++ formatting_text format) }
{
    out.push_str(font_members(format.font_style, format.font_weight))?;
    out.push_str(variant_member(format.font_variant))?;
    out.push_str(decoration_member(format.text_decoration))?;
    out.push_str(vertical_member(format.vertical_align))
}

#[tactic(auto, unfolding(json::specs::Print::escape_byte))]
fn display_member(display: Display) -> &'static str
    ensures { result.now ≡ codes ","
        ++ member_text (codes "display") (string (display_name display)) }
{
    match display {
        Display::Block => ",\"display\":\"block\"",
        Display::LeftMargin => ",\"display\":\"left-margin\"",
        Display::RightInline => ",\"display\":\"right-inline\"",
        Display::Indent => ",\"display\":\"indent\"",
    }
}

fn write_display(out: &mut String, display: &Option<Display>) -> Result<(), AllocError>
    ensures { OnOk result (string_bytes out.new
        ≡ string_bytes out.old
        ++ later_member (codes "display") (option_map (λ d. string (display_name d)) display.now)) }
{
    match display {
        None => Ok(()),
        Some(display) => out.push_str(display_member(*display)),
    }
}

#[tactic(auto, unfolding(json::specs::Print::escape_byte))]
fn write_optional_meta(out: &mut String, meta: &Option<ElemMeta>) -> Result<(), AllocError>
    ensures { OnOk result (string_bytes out.new
        ≡ string_bytes out.old ++ later_member (codes "meta") (option_map meta_data meta.now)) }
{
    match meta {
        None => Ok(()),
        Some(meta) => {
            out.push_str(",\"meta\":")?;
            write_meta(out, meta)
        }
    }
}

fn write_text(out: &mut String, text: &Formatted) -> Result<(), AllocError>
    ensures { OnOk result (string_bytes out.new
        ≡ string_bytes out.old ++ compact_text (child_data (tree.text text.now))) }
{
    out.push('{')?;
    write_formatting(out, text.formatting)?;
    out.push_str(",\"text\":")?;
    write_string(out, text.text.as_str())?;
    out.push('}')
}

fn write_markup(out: &mut String, markup: &str) -> Result<(), AllocError>
    ensures { OnOk result (string_bytes out.new
        ≡ string_bytes out.old ++ compact_text (child_data (tree.markup markup.now))) }
{
    out.push_str("{\"markup\":")?;
    write_string(out, markup)?;
    out.push('}')
}

fn write_link(out: &mut String, text: &Formatted, url: &str) -> Result<(), AllocError>
    ensures { OnOk result (string_bytes out.new
        ≡ string_bytes out.old ++ compact_text (child_data (tree.link text.now url.now))) }
{
    out.push('{')?;
    write_formatting(out, text.formatting)?;
    out.push_str(",\"text\":")?;
    write_string(out, text.text.as_str())?;
    out.push_str(",\"url\":")?;
    write_string(out, url)?;
    out.push('}')
}

fn write_cite(out: &mut String, cite: usize, format: Formatting) -> Result<(), AllocError>
    ensures { OnOk result (string_bytes out.new
        ≡ string_bytes out.old ++ compact_text (child_data (tree.transparent cite format))) }
{
    out.push_str("{\"cite\":")?;
    write_count(out, cite)?;
    out.push(',')?;
    write_formatting(out, format)?;
    out.push('}')
}

/// Appends a child of an element.
#[cycle(write)]
pub(crate) fn write_child(out: &mut String, child: &ElemChild) -> Result<(), AllocError>
    ensures { OnOk result (string_bytes out.new
        ≡ string_bytes out.old ++ compact_text (child_data (child_view child.now))) }
{
    match child {
        ElemChild::Text(text) => write_text(out, text),
        ElemChild::Elem(element) => write_element(out, element),
        ElemChild::Markup(markup) => write_markup(out, markup.as_str()),
        ElemChild::Link { text, url } => write_link(out, text, url.as_str()),
        ElemChild::Transparent { cite_idx, format } => write_cite(out, *cite_idx, *format),
    }
}

#[cycle(write)]
fn write_element(out: &mut String, element: &Elem) -> Result<(), AllocError>
    ensures { OnOk result (string_bytes out.new
        ≡ string_bytes out.old
        ++ compact_text (element_data
        (children_data element.now.children) element.now.display element.now.meta)) }
{
    out.push_str("{\"children\":")?;
    write_children(out, &element.children)?;
    write_display(out, &element.display)?;
    write_optional_meta(out, &element.meta)?;
    out.push('}')
}

/// Appends the children, as an array.
#[cycle(write)]
pub(crate) fn write_children(out: &mut String, children: &ElemChildren) -> Result<(), AllocError>
    ensures { OnOk result (string_bytes out.new
        ≡ string_bytes out.old ++ compact_text (children_data children.now)) }
{
    out.push('[')?;
    let mut later = false;
    for child in &children.0 {
        write_comma(out, later)?;
        write_child(out, child)?;
        later = true;
    }
    out.push(']')
}
