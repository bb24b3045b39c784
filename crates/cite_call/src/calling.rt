//! The calls.
ghost use Rattle.std.specs.Prelude.{◌≡◌, IfErr};

use crate::answering::StyledDocument;
use crate::lines::print_lines;
use cite_answer::printing::print_answer;
use cite_host::answer::Answer;
use cite_inputs::document::CallDocument;
use cite_inputs::error::CallError;
use cite_inputs::findings::print_findings;
use cite_inputs::options::AnswerForm;
use cite_inputs::reader::TextReader;
use cite_inputs::remark::{Fault, Remark};
use cite_inputs::style::style_faults;
use cite_inputs::texts::{CallTexts, TextName};
use cite_locale::chain::LocaleChain;
use fault_places::place::FaultPlace;
use std::alloc::{AllocError, Global};

/// The citations and the bibliography of these texts, which is there where the style has one: as
/// JSON, in the form of the driver's answers, or as lines in the form that the options name.
///
/// # Errors
///
/// `Fault` where a text is wrong; `LimitExceeded` where the style takes more than its limits;
/// `TooManyItems`; `OutOfMemory`.
pub fn cite(alloc: Global, texts: CallTexts<'_>) -> Result<String, CallError> {
    let mut reader = TextReader::new(alloc);
    let document = reader.document(texts)?;
    print_document(alloc, texts.style, &document)
}

/// Prints what comes of a document; this is the text of its style.
fn print_document(
    alloc: Global,
    text: &[u8],
    document: &CallDocument,
) -> Result<String, CallError> {
    let styling = &document.styling;
    let locale = styling.locale(alloc)?;
    let mut answer = answered(alloc, text, document, &locale)?;
    answer.citations.truncate(document.shown);
    let marks = locale.quote_marks();
    Ok(match styling.options.form {
        Some(AnswerForm::Lines(form)) => print_lines(alloc, form, &answer, marks)?,
        _ => print_answer(alloc, &styling.style, &document.citations, &answer, marks)?,
    })
}

/// What comes of a document in the words of a language.
fn answered(
    alloc: Global,
    text: &[u8],
    document: &CallDocument,
    locale: &LocaleChain<'_>,
) -> Result<Answer, CallError> {
    let CallDocument {
        styling,
        references,
        citations,
        ..
    } = document;
    StyledDocument::new(styling, text, locale, references, citations).answer(alloc)
}

/// What is wrong and odd in these texts, as a JSON object: `fault`, where a text is wrong;
/// `faults`, the list of all that is wrong with the style, where that text is the style; and
/// `warnings`, the list of what was read otherwise than it stands in the texts, up to the fault. No
/// citation is written.
///
/// # Errors
///
/// `OutOfMemory`, and no other.
pub fn find_fault(alloc: Global, texts: CallTexts<'_>) -> Result<String, CallError>
    ensures { IfErr result (λ e. e ≡ CallError.OutOfMemory) }
{
    let mut reader = TextReader::new(alloc);
    let fault = match first_fault(alloc, &mut reader, texts) {
        Ok(fault) => fault,
        Err(_) => return Err(CallError::OutOfMemory),
    };
    let Ok(faults) = all_faults(alloc, texts, &fault) else {
        return Err(CallError::OutOfMemory);
    };
    match print_findings(alloc, fault, &faults, &reader.warnings) {
        Ok(text) => Ok(text),
        Err(_) => Err(CallError::OutOfMemory),
    }
}

/// What is wrong in these texts.
fn first_fault(
    alloc: Global,
    reader: &mut TextReader,
    texts: CallTexts<'_>,
) -> Result<Option<Fault>, CallError> {
    match checked(alloc, reader, texts) {
        Ok(()) => Ok(None),
        Err(CallError::Fault(fault)) => Ok(Some(fault)),
        Err(CallError::LimitExceeded(remark)) => Ok(Some(Fault {
            remark,
            parent: None,
        })),
        Err(error) => Err(error),
    }
}

/// All that is wrong with the style, where the fault is at a place of it.
fn all_faults(
    alloc: Global,
    texts: CallTexts<'_>,
    fault: &Option<Fault>,
) -> Result<Vec<Remark>, AllocError> {
    match fault {
        Some(
            Fault {
                remark: Remark {
                    text: TextName::Style,
                    place: FaultPlace::Line(_),
                    ..
                },
                ..
            },
        ) => style_faults(alloc, texts.style),
        _ => Ok(Vec::new(alloc)),
    }
}

/// Reads these texts, and keeps nothing but warnings.
fn checked(alloc: Global, reader: &mut TextReader, texts: CallTexts<'_>) -> Result<(), CallError> {
    let document = reader.document(texts)?;
    document.styling.check(alloc, texts.style)
}
