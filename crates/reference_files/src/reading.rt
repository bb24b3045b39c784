//! The items of a file.
use crate::form::ReferenceForm;
use reference_bibtex::reading::{BibForm, read_bibtex};
use reference_items::reading::ReadItems;
use reference_ris::reading::read_ris;
use std::alloc::{AllocError, Global};

/// The items of a file of this form that is no CSL-JSON; none where it is. `language` is the tag of
/// the language of entries that say none.
///
/// # Errors
/// Where memory is refused.
pub fn read_file(
    alloc: Global,
    form: ReferenceForm,
    text: &str,
    language: &str,
) -> Result<Option<ReadItems>, AllocError> {
    let read = match form {
        ReferenceForm::Json => return Ok(None),
        ReferenceForm::BibTex => read_bibtex(alloc, text, BibForm::BibTex, language)?,
        ReferenceForm::BibLatex => read_bibtex(alloc, text, BibForm::BibLatex, language)?,
        ReferenceForm::Ris => read_ris(alloc, text)?,
    };
    Ok(Some(read))
}
