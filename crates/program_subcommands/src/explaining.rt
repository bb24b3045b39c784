//! Which element of a style wrote each text.
use crate::citations::citations_in;
use cite_host::answer::Answer;
use cite_program::program::ProgramError;
use cite_tasks::cites::{Citation, Cite};
use cite_tasks::error::AnswerError;
use cite_texts::quotes::QuoteMarks;
use program_command::arguments::{Options, OutputFormat};
use program_files::error::CommandError;
use program_files::references::{references_in, references_of};
use program_files::reports::refused;
use program_files::styles::FoundStyle;
use program_styles::works::{CITATIONS, REFERENCES};
use reference_values::reference::References;
use std::alloc::{AllocError, Global};
use std::rt::Files;
use write_explained::explained::{ExplainedAnswer, explained};
use write_explained::json::explained_json;
use write_explained::page::explained_page;

/// What works are called that are built in.
const BUILT_IN: &str = "the works that are built in";

/// The references of the command; without a file of them those that are built in.
///
/// # Errors
///
/// Those of `references_of`.
pub(crate) fn explained_references(
    rt: &(impl Files + Input + Eprint + AllocGlobal),
    options: &Options,
) -> Result<References, CommandError> {
    if !options.references.is_empty() {
        return references_of(rt, options);
    }
    let read = references_in(rt.alloc(), BUILT_IN, REFERENCES.as_bytes(), false)?;
    Ok(read.references)
}

/// The citations of a command without a file of them: each reference is cited alone; those that are
/// built in as they are cited there.
///
/// # Errors
///
/// `OutOfMemory`.
pub(crate) fn citations_by_default(
    alloc: Global,
    options: &Options,
    references: &References,
) -> Result<Vec<Citation>, CommandError> {
    if options.references.is_empty() {
        let read = citations_in(alloc, BUILT_IN, CITATIONS.as_bytes())?;
        return Ok(read.citations);
    }
    let mut citations = Vec::new(alloc);
    for reference in references.as_slice() {
        citations.push(citation_of(alloc, &reference.id)?)?;
    }
    Ok(citations)
}

/// A citation of this item alone.
fn citation_of(alloc: Global, id: &String) -> Result<Citation, AllocError> {
    let mut cites = Vec::new(alloc);
    cites.push(Cite {
        id: id.clone()?,
        place: 0,
        locator: None,
        prefix: String::new(alloc),
        suffix: String::new(alloc),
        suppresses_author: false,
        is_author_only: false,
        is_hidden: false,
        missing_before: Vec::new(alloc),
    })?;
    Ok(Citation {
        cites,
        missing_behind: Vec::new(alloc),
        note: None,
        is_alone: false,
        is_unsorted: false,
    })
}

/// Prints what an explained answer says of its texts.
///
/// # Errors
///
/// `Refused` where macros make a layout too long; `Output`; `OutOfMemory`.
pub(crate) fn print_explained(
    rt: &(impl Print + AllocGlobal),
    options: &Options,
    found: &FoundStyle,
    answer: &Answer,
    marks: QuoteMarks<'_>,
) -> Result<(), CommandError> {
    let alloc = rt.alloc();
    let answer = explained_in(alloc, found, answer, marks)?;
    let text = found.text.as_str();
    if options.format == OutputFormat::Html {
        let page = explained_page(alloc, &answer, found.path.as_str(), text)?;
        return Ok(print!(rt; "{}", page.as_str())?);
    }
    let json = explained_json(alloc, &answer, text)?;
    Ok(println!(rt; "{}", json.as_str())?)
}

fn explained_in<'s>(
    alloc: Global,
    found: &'s FoundStyle,
    answer: &Answer,
    marks: QuoteMarks<'_>,
) -> Result<ExplainedAnswer<'s>, CommandError> {
    match explained(alloc, &found.style, answer, marks) {
        Ok(answer) => Ok(answer),
        Err(ProgramError::OutOfMemory) => Err(CommandError::OutOfMemory),
        Err(ProgramError::TooLong) => {
            let why = AnswerError::StyleTooLong;
            Err(refused(alloc, found.path.as_str(), &why)?)
        }
    }
}
