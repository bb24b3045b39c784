//! Citations and bibliographies.
use crate::citations::{citation_warnings, citations_in};
use crate::explaining::{citations_by_default, explained_references, print_explained};
use cite_host::answer::{Answer, Document};
use cite_json::listing::{citation_of_all, uncited};
use cite_json::notes::number_notes;
use cite_json::unknown::with_missing;
use cite_limits::budget::USUAL_PART;
use cite_limits::cost::Cost;
use cite_locale::chain::LocaleChain;
use cite_tasks::cites::Citation;
use cite_tasks::error::AnswerError;
use cite_walk::abbreviations::Abbreviations;
use program_command::arguments::{Options, OutputFormat};
use program_files::abbreviations::told_abbreviations;
use program_files::error::CommandError;
use program_files::files::bytes_of;
use program_files::locales::locales_of;
use program_files::references::references_of;
use program_files::reports::{limit_exceeded, refused, show_findings};
use program_files::styles::{FoundStyle, style_of};
use program_files::unknown_ids::{check_ids, warn_of_unknown};
use program_pages::linking::targets_of;
use program_pages::page::ListLayout;
use program_pages::printing::{
    Printing, print_bibliography, print_both, print_citations, print_json,
};
use reference_values::reference::References;
use std::alloc::{AllocError, Global};
use std::rt::Files;
use style_file::style::CslStyle;

/// What of an answer is printed.
#[derive(Clone, Copy, PartialEq, Eq)]
enum Printed {
    Citations,
    Bibliography,
    Both,
    /// Both, and which element of the style wrote each text.
    Explained,
}

/// The citations of a command.
#[derive(Drop)]
struct Cited {
    citations: Vec<Citation>,
    /// The same citations as those of a draft, where the document is one: their cites of items that
    /// aren't there are missing ones.
    drafted: Option<Vec<Citation>>,
    /// How many of them are the file's. One more, which isn't shown, cites what they don't.
    count: usize,
}

impl Cited {
    /// The citations as they are written.
    fn written(&self) -> &[Citation] {
        match &self.drafted {
            Some(drafted) => drafted,
            None => &self.citations,
        }
    }
}

/// What the files of a command have.
#[derive(Clone, Copy)]
struct AskedDocument<'p> {
    found: &'p FoundStyle,
    references: &'p References,
    cited: &'p Cited,
    abbreviations: Option<&'p Abbreviations>,
}

/// Prints citations, and the bibliography where it is asked for.
///
/// # Errors
///
/// Each of `CommandError` but `Usage`.
pub fn cite(
    rt: &(impl Files + Input + Print + Eprint + AllocGlobal + Clone + Drop),
    options: &Options,
) -> Result<(), CommandError> {
    let printed = if options.has_bibliography {
        Printed::Both
    } else {
        Printed::Citations
    };
    print_answer(rt, options, printed)
}

/// Prints a bibliography.
///
/// # Errors
///
/// Each of `CommandError` but `Usage`.
pub fn bibliography(
    rt: &(impl Files + Input + Print + Eprint + AllocGlobal + Clone + Drop),
    options: &Options,
) -> Result<(), CommandError> {
    print_answer(rt, options, Printed::Bibliography)
}

/// Prints which element of the style wrote each text of citations and of their bibliography.
///
/// # Errors
///
/// Each of `CommandError` but `Usage`.
pub fn explain(
    rt: &(impl Files + Input + Print + Eprint + AllocGlobal + Clone + Drop),
    options: &Options,
) -> Result<(), CommandError> {
    let found = style_of(rt, options)?;
    let abbreviations = told_abbreviations(rt, options)?;
    let references = explained_references(rt, options)?;
    let cited = explained_citations(rt, options, &found.style, &references)?;
    let asked = AskedDocument {
        found: &found,
        references: &references,
        cited: &cited,
        abbreviations: abbreviations.as_ref(),
    };
    print_document(rt, options, Printed::Explained, asked)
}

/// The citations of the file, or else those of each reference.
fn explained_citations(
    rt: &(impl Files + Input + Eprint + AllocGlobal),
    options: &Options,
    style: &CslStyle,
    references: &References,
) -> Result<Cited, CommandError> {
    if options.citations.is_some() {
        return citations_of(rt, options, style, references);
    }
    let citations = citations_by_default(rt.alloc(), options, references)?;
    let count = citations.len();
    Ok(Cited {
        citations,
        drafted: None,
        count,
    })
}

fn print_answer(
    rt: &(impl Files + Input + Print + Eprint + AllocGlobal + Clone + Drop),
    options: &Options,
    printed: Printed,
) -> Result<(), CommandError> {
    let found = style_of(rt, options)?;
    let abbreviations = told_abbreviations(rt, options)?;
    let references = references_of(rt, options)?;
    let cited = citations_of(rt, options, &found.style, &references)?;
    let asked = AskedDocument {
        found: &found,
        references: &references,
        cited: &cited,
        abbreviations: abbreviations.as_ref(),
    };
    print_document(rt, options, printed, asked)
}

/// The citations of the command; without a file of them one of all references.
fn citations_of(
    rt: &(impl Files + Input + Eprint + AllocGlobal),
    options: &Options,
    style: &CslStyle,
    references: &References,
) -> Result<Cited, CommandError> {
    let Some(path) = options.citations.as_deref() else {
        let citations = citation_of_all(rt.alloc(), references)?;
        return Ok(Cited {
            citations,
            drafted: None,
            count: 0,
        });
    };
    let mut citations = shown_citations(rt, path)?;
    let count = citations.len();
    if options.is_draft {
        warn_of_unknown(rt, path, &citations, references)?;
    } else {
        check_ids(rt.alloc(), path, &citations, references)?;
    }
    number_notes(rt.alloc(), &mut citations)?;
    if options.lists_uncited {
        let uncited = uncited(rt.alloc(), references, &citations)?;
        citations.push(uncited)?;
    }
    let drafted = if options.is_draft {
        let sorts = !style.citation.sort.is_empty();
        Some(with_missing(rt.alloc(), &citations, references, sorts)?)
    } else {
        None
    };
    Ok(Cited {
        citations,
        drafted,
        count,
    })
}

/// The citations in a file. What is odd in them is printed.
fn shown_citations(
    rt: &(impl Files + Input + Eprint + AllocGlobal),
    path: &str,
) -> Result<Vec<Citation>, CommandError> {
    let bytes = bytes_of(rt, path)?;
    let read = citations_in(rt.alloc(), path, &bytes)?;
    show_findings(rt, path, &citation_warnings(rt.alloc(), &read.warnings)?);
    Ok(read.citations)
}

fn print_document(
    rt: &(impl Files + Input + Print + Eprint + AllocGlobal),
    options: &Options,
    printed: Printed,
    asked: AskedDocument<'_>,
) -> Result<(), CommandError> {
    let language = asked.found.language(rt.alloc(), options)?;
    print_in_language(rt, options, printed, asked, language.as_str())
}

/// Prints what comes of a document in the language of this tag.
fn print_in_language<'p>(
    rt: &(impl Files + Input + Print + Eprint + AllocGlobal),
    options: &'p Options,
    printed: Printed,
    asked: AskedDocument<'p>,
    language: &'p str,
) -> Result<(), CommandError> {
    let style = &asked.found.style;
    let files = locales_of(rt, options, language)?;
    let locale = LocaleChain::new(rt.alloc(), language, &style.locales, &files)?;
    let answer = answer_of(rt.alloc(), options, asked, &locale, language, printed)?;
    if printed == Printed::Explained {
        return print_explained(rt, options, asked.found, &answer, locale.quote_marks());
    }
    let marks = locale.quote_marks();
    if options.format == OutputFormat::Json {
        return print_json(rt, style, &asked.cited.citations, &answer, marks);
    }
    let targets = asked_targets(rt.alloc(), options, asked.cited)?;
    let bibliography = style.bibliography.as_ref();
    let printing = Printing {
        format: options.format,
        is_standalone: options.is_standalone,
        targets: &targets,
        layout: bibliography.map(|section| ListLayout::of_style(&section.options)),
        language,
        marks,
    };
    print_in_form(rt, &printing, &answer, printed)
}

/// Where the cites of each citation lead: to their items, if links are asked for.
fn asked_targets(
    alloc: Global,
    options: &Options,
    cited: &Cited,
) -> Result<Vec<Vec<String>>, AllocError> {
    if options.links_citations {
        targets_of(alloc, &cited.citations)
    } else {
        Ok(Vec::new(alloc))
    }
}

/// Prints what is wanted of an answer.
fn print_in_form(
    rt: &(impl Print + Eprint + AllocGlobal),
    printing: &Printing<'_>,
    answer: &Answer,
    printed: Printed,
) -> Result<(), CommandError> {
    match printed {
        Printed::Citations => print_citations(rt, printing, answer),
        Printed::Bibliography => print_bibliography(rt, printing, answer),
        Printed::Both | Printed::Explained => print_both(rt, printing, answer),
    }
}

/// What comes of a document: the citations of the file, and the bibliography if it is wanted.
fn answer_of(
    alloc: Global,
    options: &Options,
    asked: AskedDocument<'_>,
    locale: &LocaleChain<'_>,
    language: &str,
    printed: Printed,
) -> Result<Answer, CommandError> {
    let document = Document {
        style: &asked.found.style,
        locale,
        language,
        references: asked.references,
        citations: asked.cited.written(),
        abbreviations: asked.abbreviations,
        lists_items: options.format == OutputFormat::Json || printed != Printed::Citations,
        part: part_of(options),
    };
    let answer = if printed == Printed::Explained {
        document.explained_answer(alloc)
    } else {
        document.answer(alloc)
    };
    match answer {
        Ok(mut answer) => {
            answer.citations.truncate(asked.cited.count);
            Ok(answer)
        }
        Err(error) => Err(placed(alloc, options, asked.found, error)?),
    }
}

/// What the style may take for each cite and each item.
fn part_of(options: &Options) -> Cost {
    Cost {
        steps: options.most_steps.unwrap_or(USUAL_PART.steps),
        bytes: options.most_bytes.unwrap_or(USUAL_PART.bytes),
    }
}

/// Why there is no answer, with the file in which that is.
fn placed(
    alloc: Global,
    options: &Options,
    found: &FoundStyle,
    error: AnswerError,
) -> Result<CommandError, AllocError> {
    match error {
        AnswerError::NoReference { citation, id } => {
            let id = id.as_str();
            let why = format!(in alloc; "/{citation}: there is no item `{id}`")?;
            refused(alloc, options.citations_path(), &why)
        }
        AnswerError::StyleTooLong => refused(alloc, options.style.as_str(), &error),
        AnswerError::LimitExceeded(excess) => {
            let (path, text) = (found.path.as_str(), found.text.as_str());
            limit_exceeded(alloc, path, text, &found.style, &excess)
        }
        AnswerError::OutOfMemory => Ok(CommandError::OutOfMemory),
        AnswerError::TooManyItems => Ok(CommandError::Answer(error)),
    }
}
