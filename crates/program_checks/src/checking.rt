//! Files are checked: styles, locale files, references, citations and documents.
use crate::documents::document_fault;
use crate::findings::{CheckedFile, Content, print_list, push_checked, show_checked};
use cite_limits::budget::USUAL_PART;
use cite_tasks::error::AnswerError;
use cite_tasks::limits::check_style;
use program_command::arguments::{CheckFormat, CheckOptions};
use program_faults::faults::{style_faults, style_warnings};
use program_faults::finding::Finding;
use program_files::entries::converted;
use program_files::error::{CommandError, LIMIT_EXCEEDED};
use program_files::files::{bytes_of, bytes_refused};
use program_files::items::item_warnings;
use program_files::json_causes::{behind_mark, value_or_null};
use program_files::references::references_in;
use program_files::reports::{limit_exceeded, refused, refused_for, refused_for_all};
use program_subcommands::citations::{citation_warnings, citations_in};
use std::alloc::{AllocError, Global};
use std::process::ExitCode;
use std::rt::Files;
use style_elements::error::StyleError;
use style_file::style::StyleFile;
use style_reader::file::{CslFile, read_file};

/// What a file is, by how it begins.
#[derive(Clone, Copy)]
enum FileKind {
    /// A style or a locale file, which is XML.
    Csl,
    /// References, which are a JSON list, or stand in an object under `items`.
    References,
    /// Citations, which are a JSON list of lists.
    Citations,
    /// A document of `cite_run`, which is a JSON object.
    Document,
}

/// Prints what each file is, and what is odd or wrong in it. The exit status is that of the file
/// that is worst off.
///
/// # Errors
///
/// `Output`; `OutOfMemory`.
pub fn check_all(
    rt: &(impl Files + Input + Print + Eprint + AllocGlobal),
    options: &CheckOptions,
) -> Result<ExitCode, CommandError> {
    let mut worst = WorstFile::default();
    let mut values = Vec::new(rt.alloc());
    for path in &options.files {
        let path = path.as_str();
        let checked = check_file(rt, path)?;
        worst.add(checked.status(options.fails_on_warnings));
        match options.format {
            CheckFormat::Text => show_checked(rt, path, &checked)?,
            CheckFormat::Json => push_checked(rt.alloc(), &mut values, path, &checked)?,
        }
    }
    if options.format == CheckFormat::Json {
        print_list(rt, values)?;
    }
    Ok(worst.code())
}

/// How badly off the worst of some files is.
#[derive(Clone, Copy, Default)]
struct WorstFile {
    is_unread: bool,
    is_wrong: bool,
    is_excessive: bool,
}

impl WorstFile {
    /// Adds a file by its exit status.
    fn add(&mut self, status: u8) {
        self.is_unread = self.is_unread || status == 1;
        self.is_wrong = self.is_wrong || status == 2;
        self.is_excessive = self.is_excessive || status == LIMIT_EXCEEDED;
    }

    /// The exit status of all files.
    fn code(self) -> ExitCode {
        if self.is_unread {
            ExitCode::from(1)
        } else if self.is_wrong {
            ExitCode::from(2)
        } else if self.is_excessive {
            ExitCode::from(LIMIT_EXCEEDED)
        } else {
            ExitCode::SUCCESS
        }
    }
}

/// What comes of the check of a file.
///
/// # Errors
///
/// `OutOfMemory`.
fn check_file(
    rt: &(impl Files + Input + AllocGlobal),
    path: &str,
) -> Result<CheckedFile, CommandError> {
    let mut warnings = Vec::new(rt.alloc());
    match content_of(rt, path, &mut warnings) {
        Ok(content) => Ok(CheckedFile {
            warnings,
            outcome: Ok(content),
        }),
        Err(error) if error.ends_all() => Err(error),
        Err(error) => Ok(CheckedFile {
            warnings,
            outcome: Err(error),
        }),
    }
}

/// What a file is. What is odd in it is added to the warnings.
fn content_of(
    rt: &(impl Files + Input + AllocGlobal),
    path: &str,
    warnings: &mut Vec<Finding>,
) -> Result<Content, CommandError> {
    let alloc = rt.alloc();
    let bytes = bytes_of(rt, path)?;
    if let Some(converted) = converted(alloc, path, None, &bytes)? {
        add_all(warnings, converted.warnings)?;
        return references(alloc, path, converted.json.as_str().as_bytes(), warnings);
    }
    match FileKind::of_bytes(alloc, &bytes) {
        FileKind::Csl => csl(alloc, path, &bytes, warnings),
        FileKind::References => references(alloc, path, &bytes, warnings),
        FileKind::Citations => citations(alloc, path, &bytes, warnings),
        FileKind::Document => document(alloc, path, &bytes),
    }
}

fn add_all(warnings: &mut Vec<Finding>, others: Vec<Finding>) -> Result<(), AllocError> {
    for warning in others {
        warnings.push(warning)?;
    }
    Ok(())
}

impl FileKind {
    fn of_bytes(alloc: Global, bytes: &[u8]) -> FileKind {
        let mut marks = bytes.iter().copied().filter(|byte| !is_space(*byte));
        match (marks.next(), marks.next()) {
            (Some(b'['), Some(b'[')) => FileKind::Citations,
            (Some(b'['), _) => FileKind::References,
            (Some(b'{'), _) if has_items(alloc, bytes) => FileKind::References,
            (Some(b'{'), _) => FileKind::Document,
            (Some(b'@' | b'%'), _) => FileKind::References,
            _ => FileKind::Csl,
        }
    }
}

/// Whether a byte is white space, or of a byte order mark.
fn is_space(byte: u8) -> bool {
    matches!(byte, b' ' | b'\t' | b'\n' | b'\r' | 0xef | 0xbb | 0xbf)
}

/// Whether a JSON object has `items`, as references do.
fn has_items(alloc: Global, bytes: &[u8]) -> bool {
    let value = value_or_null(alloc, behind_mark(bytes));
    value.get("items").is_some()
}

/// Which style or locale a file of these bytes is.
fn csl(
    alloc: Global,
    path: &str,
    bytes: &[u8],
    warnings: &mut Vec<Finding>,
) -> Result<Content, CommandError> {
    match str::from_utf8(bytes) {
        Ok(text) => csl_of_text(alloc, path, text, warnings),
        Err(_) => Err(bytes_refused(alloc, path, bytes)?),
    }
}

fn csl_of_text(
    alloc: Global,
    path: &str,
    text: &str,
    warnings: &mut Vec<Finding>,
) -> Result<Content, CommandError> {
    match read_file(alloc, text) {
        Ok((file, odd)) => {
            add_all(warnings, style_warnings(alloc, &odd)?)?;
            csl_content(alloc, path, text, &file)
        }
        Err(StyleError::OutOfMemory) => Err(CommandError::OutOfMemory),
        Err(_) => Err(csl_refused(alloc, path, text)?),
    }
}

fn csl_content(
    alloc: Global,
    path: &str,
    text: &str,
    file: &CslFile,
) -> Result<Content, CommandError> {
    check_limits(alloc, path, text, file)?;
    Ok(Content::of_csl(file)?)
}

/// What is wrong with a style file or a locale file of this text.
fn csl_refused(alloc: Global, path: &str, text: &str) -> Result<CommandError, AllocError> {
    refused_for_all(alloc, path, style_faults(alloc, text)?)
}

/// Refuses a style that takes more than it may whatever the items have.
fn check_limits(alloc: Global, path: &str, text: &str, file: &CslFile) -> Result<(), CommandError> {
    let CslFile::Style(StyleFile::Independent(style)) = file else {
        return Ok(());
    };
    match check_style(alloc, style, USUAL_PART) {
        Ok(()) => Ok(()),
        Err(AnswerError::LimitExceeded(excess)) => {
            Err(limit_exceeded(alloc, path, text, style, &excess)?)
        }
        Err(AnswerError::OutOfMemory) => Err(CommandError::OutOfMemory),
        Err(error) => Err(refused(alloc, path, &error)?),
    }
}

/// How many references there are in a file of these bytes.
fn references(
    alloc: Global,
    path: &str,
    bytes: &[u8],
    warnings: &mut Vec<Finding>,
) -> Result<Content, CommandError> {
    let read = references_in(alloc, path, bytes, false)?;
    add_all(warnings, item_warnings(alloc, bytes, &read.warnings)?)?;
    Ok(Content::References(read.references.len()))
}

/// How many citations there are in a file of these bytes.
fn citations(
    alloc: Global,
    path: &str,
    bytes: &[u8],
    warnings: &mut Vec<Finding>,
) -> Result<Content, CommandError> {
    let read = citations_in(alloc, path, bytes)?;
    add_all(warnings, citation_warnings(alloc, &read.warnings)?)?;
    Ok(Content::Citations(read.citations.len()))
}

/// Whether a file of these bytes is a document.
fn document(alloc: Global, path: &str, bytes: &[u8]) -> Result<Content, CommandError> {
    match document_fault(alloc, bytes)? {
        None => Ok(Content::Document),
        Some(fault) => Err(refused_for(alloc, path, fault)?),
    }
}
