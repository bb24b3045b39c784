//! Printing an answer as text.
ghost use Rattle.std.specs.Prelude.{◌≡◌, ◌++◌, OnOk, IfOk, string_bytes};
ghost use Rattle.std.specs.List.{flat_map};
ghost use Rattle.value_trees.specs.ChildView.{child_view};
ghost use Rattle.value_trees.specs.Tree.{child_plain};
ghost use Rattle.document_answer.specs.Print.{
  citation_line,
  first_text,
  item_line,
  bibliography_lines,
  print,
};

use csl_base::elem::{BufWriteFormat, ElemChild};
use csl_driver::rendered::{BibliographyItem, Rendered, RenderedBibliography, RenderedCitation};
use std::alloc::{AllocError, Global};

fn push_child(text: &mut String, child: &ElemChild) -> Result<(), AllocError>
    ensures { OnOk result (string_bytes text.new
        ≡ string_bytes text.old ++ child_plain (child_view child.now)) }
{
    match child.write_buf(text, BufWriteFormat::Plain) {
        Ok(()) => Ok(()),
        Err(_) => Err(AllocError),
    }
}

fn push_first_field(text: &mut String, first_field: &Option<ElemChild>) -> Result<(), AllocError>
    ensures { OnOk result
        (string_bytes text.new ≡ string_bytes text.old ++ first_text first_field.now) }
{
    match first_field {
        Some(child) => push_child(text, child),
        None => Ok(()),
    }
}

fn print_citation(text: &mut String, citation: &RenderedCitation) -> Result<(), AllocError>
    ensures { OnOk result
        (string_bytes text.new ≡ string_bytes text.old ++ citation_line citation.now) }
{
    citation.citation.write_plain(text)?;
    text.push_str("\n")?;
    Ok(())
}

fn print_citations(text: &mut String, citations: &[RenderedCitation]) -> Result<(), AllocError>
    ensures { OnOk result (string_bytes text.new
        ≡ string_bytes text.old ++ flat_map citation_line citations.now) }
{
    for citation in citations {
        print_citation(text, citation)?;
    }
    Ok(())
}

fn print_item(text: &mut String, item: &BibliographyItem) -> Result<(), AllocError>
    ensures { OnOk result (string_bytes text.new ≡ string_bytes text.old ++ item_line item.now) }
{
    text.push_str(item.key.as_str())?;
    text.push_str("\t")?;
    push_first_field(text, &item.first_field)?;
    item.content.write_plain(text)?;
    text.push_str("\n")?;
    Ok(())
}

fn print_items(text: &mut String, items: &[BibliographyItem]) -> Result<(), AllocError>
    ensures { OnOk result
        (string_bytes text.new ≡ string_bytes text.old ++ flat_map item_line items.now) }
{
    for item in items {
        print_item(text, item)?;
    }
    Ok(())
}

fn print_bibliography(
    text: &mut String,
    bibliography: &Option<RenderedBibliography>,
) -> Result<(), AllocError>
    ensures { OnOk result (string_bytes text.new
        ≡ string_bytes text.old ++ bibliography_lines bibliography.now) }
{
    if let Some(bibliography) = bibliography {
        text.push_str("\n")?;
        print_items(text, bibliography.items.as_slice())?;
    }
    Ok(())
}

/// The text that the answer is printed as: each citation on a line, and then, where there is a
/// bibliography, an empty line and a line for each item, with its key, a tab and its text.
pub(crate) fn print_rendered(alloc: Global, rendered: &Rendered) -> Result<String, AllocError>
    ensures { IfOk result (λ s. string_bytes s ≡ print rendered.now) }
{
    let mut text = String::new(alloc);
    print_citations(&mut text, rendered.citations.as_slice())?;
    print_bibliography(&mut text, &rendered.bibliography)?;
    Ok(text)
}
