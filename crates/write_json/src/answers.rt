//! Answers as JSON.
ghost use Rattle.std.specs.Prelude.{◌≡◌, ◌∷◌, ◌++◌, map, codes, OnOk, option_map, string_bytes};
ghost use Rattle.serde_json.specs.Data.{array, string, boolean, number, unsigned};
ghost use Rattle.serde_json.specs.View.{items_of};
ghost use Rattle.serde_json.specs.Written.{compact_text};
ghost use Rattle.value_trees.specs.ChildView.{child_view};
ghost use Rattle.write_json.specs.TreeData.{child_data};
ghost use Rattle.write_json.specs.AnswerData.{
  align_name,
  item_data,
  bibliography_data,
  citation_data,
  answer_data,
};
ghost use Rattle.write_json.specs.Pieces.{member_text, later_member};

use crate::numbers::{write_comma, write_count, write_short};
use crate::strings::write_string;
use crate::trees::{write_child, write_children};
use csl_base::elem::ElemChild;
use csl_base::style::SecondFieldAlign;
use driver_assembly::rendered::{
    BibliographyItem, Rendered, RenderedBibliography, RenderedCitation,
};
use std::alloc::AllocError;

#[tactic(auto, unfolding(json::specs::Print::escape_byte))]
fn align_member(align: SecondFieldAlign) -> &'static str
    ensures { result.now ≡ codes ","
        ++ member_text (codes "second_field_align") (string (align_name align)) }
{
    match align {
        SecondFieldAlign::Flush => ",\"second_field_align\":\"flush\"",
        SecondFieldAlign::Margin => ",\"second_field_align\":\"margin\"",
    }
}

fn write_align(out: &mut String, align: &Option<SecondFieldAlign>) -> Result<(), AllocError>
    ensures { OnOk result (string_bytes out.new ≡ string_bytes out.old
        ++ later_member (codes "second_field_align")
        (option_map (λ a. string (align_name a)) align.now)) }
{
    match align {
        None => Ok(()),
        Some(align) => out.push_str(align_member(*align)),
    }
}

fn write_note(out: &mut String, note: &Option<usize>) -> Result<(), AllocError>
    ensures { OnOk result (string_bytes out.new ≡ string_bytes out.old
        ++ later_member (codes "note_number") (option_map (λ n. number (unsigned n)) note.now)) }
{
    match note {
        None => Ok(()),
        Some(number) => {
            out.push_str(",\"note_number\":")?;
            write_count(out, *number)
        }
    }
}

fn write_field(out: &mut String, field: &Option<ElemChild>) -> Result<(), AllocError>
    ensures { OnOk result (string_bytes out.new ≡ string_bytes out.old
        ++ later_member (codes "first_field")
        (option_map (λ c. child_data (child_view c)) field.now)) }
{
    match field {
        None => Ok(()),
        Some(child) => {
            out.push_str(",\"first_field\":")?;
            write_child(out, child)
        }
    }
}

pub(crate) fn write_item(out: &mut String, item: &BibliographyItem) -> Result<(), AllocError>
    ensures { OnOk result
        (string_bytes out.new ≡ string_bytes out.old ++ compact_text (item_data item.now)) }
{
    out.push_str("{\"content\":")?;
    write_children(out, &item.content)?;
    write_field(out, &item.first_field)?;
    out.push_str(",\"key\":")?;
    write_string(out, item.key.as_str())?;
    out.push('}')
}

fn write_items(out: &mut String, items: &[BibliographyItem]) -> Result<(), AllocError>
    ensures { OnOk result (string_bytes out.new
        ≡ string_bytes out.old ++ compact_text (array (items_of (map item_data items.now)))) }
{
    out.push('[')?;
    let mut later = false;
    for item in items {
        write_comma(out, later)?;
        write_item(out, item)?;
        later = true;
    }
    out.push(']')
}

fn indent_text(hanging_indent: bool) -> &'static str
    ensures { result.now ≡ compact_text (boolean hanging_indent) }
{
    if hanging_indent { "true" } else { "false" }
}

fn write_bibliography(
    out: &mut String,
    bibliography: &RenderedBibliography,
) -> Result<(), AllocError>
    ensures { OnOk result (string_bytes out.new
        ≡ string_bytes out.old ++ compact_text (bibliography_data bibliography.now)) }
{
    out.push_str("{\"entry_spacing\":")?;
    write_short(out, bibliography.entry_spacing)?;
    out.push_str(",\"hanging_indent\":")?;
    out.push_str(indent_text(bibliography.hanging_indent))?;
    out.push_str(",\"items\":")?;
    write_items(out, bibliography.items.as_slice())?;
    out.push_str(",\"line_spacing\":")?;
    write_short(out, bibliography.line_spacing.get())?;
    write_align(out, &bibliography.second_field_align)?;
    out.push('}')
}

pub(crate) fn write_citation(
    out: &mut String,
    citation: &RenderedCitation,
) -> Result<(), AllocError>
    ensures { OnOk result (string_bytes out.new
        ≡ string_bytes out.old ++ compact_text (citation_data citation.now)) }
{
    out.push_str("{\"content\":")?;
    write_children(out, &citation.citation)?;
    write_note(out, &citation.note_number)?;
    out.push('}')
}

fn write_citations(out: &mut String, citations: &[RenderedCitation]) -> Result<(), AllocError>
    ensures { OnOk result (string_bytes out.new
        ≡ string_bytes out.old
        ++ compact_text (array (items_of (map citation_data citations.now)))) }
{
    out.push('[')?;
    let mut later = false;
    for citation in citations {
        write_comma(out, later)?;
        write_citation(out, citation)?;
        later = true;
    }
    out.push(']')
}

/// Appends the answer.
pub(crate) fn write_answer(out: &mut String, answer: &Rendered) -> Result<(), AllocError>
    ensures { OnOk result (string_bytes out.new
        ≡ string_bytes out.old ++ compact_text (answer_data answer.now)) }
{
    match &answer.bibliography {
        None => {
            out.push_str("{\"citations\":")?;
            write_citations(out, answer.citations.as_slice())?;
            out.push('}')
        }
        Some(bibliography) => {
            out.push_str("{\"bibliography\":")?;
            write_bibliography(out, bibliography)?;
            out.push_str(",\"citations\":")?;
            write_citations(out, answer.citations.as_slice())?;
            out.push('}')
        }
    }
}
