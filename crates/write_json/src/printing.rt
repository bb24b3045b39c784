//! The text of an answer's JSON.
ghost use Rattle.std.specs.Prelude.{◌≡◌, IfOk, string_bytes};
ghost use Rattle.serde_json.specs.Written.{compact_text};
ghost use Rattle.write_json.specs.AnswerData.{answer_data, citation_data, item_data};

use crate::answers::{write_answer, write_citation, write_item};
use driver_assembly::rendered::{BibliographyItem, Rendered, RenderedCitation};
use std::alloc::{AllocError, Global};

/// The answer as JSON, without spaces between its parts.
///
/// # Errors
/// Where memory is refused.
pub fn print_json(alloc: Global, answer: &Rendered) -> Result<String, AllocError>
    ensures { IfOk result (λ s. string_bytes s ≡ compact_text (answer_data answer.now)) }
{
    let mut text = String::new(alloc);
    write_answer(&mut text, answer)?;
    Ok(text)
}

/// A citation as it stands in the JSON of its answer.
///
/// # Errors
/// Where memory is refused.
pub fn print_citation(alloc: Global, citation: &RenderedCitation) -> Result<String, AllocError>
    ensures { IfOk result (λ s. string_bytes s ≡ compact_text (citation_data citation.now)) }
{
    let mut text = String::new(alloc);
    write_citation(&mut text, citation)?;
    Ok(text)
}

/// An item of a bibliography as it stands in the JSON of its answer.
///
/// # Errors
/// Where memory is refused.
pub fn print_item(alloc: Global, item: &BibliographyItem) -> Result<String, AllocError>
    ensures { IfOk result (λ s. string_bytes s ≡ compact_text (item_data item.now)) }
{
    let mut text = String::new(alloc);
    write_item(&mut text, item)?;
    Ok(text)
}
