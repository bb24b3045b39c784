//! What comes of the check of a file, as lines of text and as JSON.
use fault_places::place::FaultPlace;
use program_command::one_line::OneLine;
use program_faults::finding::Finding;
use program_files::error::CommandError;
use program_files::reports::show_findings;
use serde_json::{Map, Value, put};
use std::alloc::{AllocError, Global};
use std::{fmt, io};
use style_file::style::StyleFile;
use style_reader::file::CslFile;

/// What a file is.
#[derive(Drop)]
pub(crate) enum Content {
    IndependentStyle {
        title: String,
        id: String,
    },
    DependentStyle {
        title: String,
        id: String,
        /// The identifier of the style for which it stands.
        parent: String,
    },
    /// A locale file of the language of this tag.
    Locale(String),
    /// So many references.
    References(usize),
    /// So many citations.
    Citations(usize),
    Document,
}

/// What comes of the check of a file.
#[derive(Drop)]
pub(crate) struct CheckedFile {
    /// What is odd in it, in the order in which that is printed.
    pub warnings: Vec<Finding>,
    /// What it is, or what is wrong with it.
    pub outcome: Result<Content, CommandError>,
}

impl CheckedFile {
    /// The exit status of the file. Where it fails on warnings, it is wrong if it has one.
    pub(crate) fn status(&self, fails_on_warnings: bool) -> u8 {
        match &self.outcome {
            Err(error) => error.status(),
            Ok(_) if fails_on_warnings && !self.warnings.is_empty() => 2,
            Ok(_) => 0,
        }
    }
}

impl Content {
    /// What a style file or a locale file is.
    ///
    /// # Errors
    ///
    /// Where memory is refused.
    pub(crate) fn of_csl(file: &CslFile) -> Result<Content, AllocError> {
        match file {
            CslFile::Style(StyleFile::Independent(style)) => Ok(Content::IndependentStyle {
                title: style.info.title.clone()?,
                id: style.info.id.clone()?,
            }),
            CslFile::Style(StyleFile::Dependent(style)) => Ok(Content::DependentStyle {
                title: style.info.title.clone()?,
                id: style.info.id.clone()?,
                parent: style.parent.clone()?,
            }),
            CslFile::Locale(locale) => Ok(Content::Locale(locale.language.clone()?)),
        }
    }

    /// The name of what it is, as JSON has it.
    fn kind(&self) -> &'static str {
        match self {
            Content::IndependentStyle { .. } => "independent style",
            Content::DependentStyle { .. } => "dependent style",
            Content::Locale(_) => "locale",
            Content::References(_) => "references",
            Content::Citations(_) => "citations",
            Content::Document => "document",
        }
    }
}

impl fmt::Display for Content {
    fn fmt<W: fmt::Write>(&self, f: &mut fmt::Formatter<W>) -> fmt::Result {
        match self {
            Content::IndependentStyle { title, id } => {
                let title = OneLine(title.as_str());
                let id = OneLine(id.as_str());
                write!(f, "independent style {title} ({id})")
            }
            Content::DependentStyle { parent, .. } => {
                let parent = OneLine(parent.as_str());
                write!(f, "dependent style of {parent}")
            }
            Content::Locale(language) => {
                let language = OneLine(language.as_str());
                write!(f, "locale {language}")
            }
            Content::References(1) => f.write_str("1 reference"),
            Content::References(count) => write!(f, "{count} references"),
            Content::Citations(1) => f.write_str("1 citation"),
            Content::Citations(count) => write!(f, "{count} citations"),
            Content::Document => f.write_str("document"),
        }
    }
}

// ---- text

/// Prints what is odd or wrong in a file, and what it is. A line on standard error that can't be
/// printed is left out.
///
/// # Errors
///
/// Where the line on standard output can't be printed.
pub(crate) fn show_checked(
    rt: &(impl Print + Eprint),
    path: &str,
    checked: &CheckedFile,
) -> io::Result<()> {
    show_findings(rt, path, &checked.warnings);
    match &checked.outcome {
        Ok(content) => println!(rt; "{}: {content}", OneLine(path)),
        Err(error) => {
            let _ = eprintln!(rt; "{error}");
            Ok(())
        }
    }
}

// ---- JSON

/// Prints values as a list on a line.
///
/// # Errors
///
/// `Output`; `OutOfMemory`.
pub(crate) fn print_list(
    rt: &(impl Print + AllocGlobal),
    values: Vec<Value>,
) -> Result<(), CommandError> {
    let list = Value::Array(values).to_string(rt.alloc())?;
    Ok(println!(rt; "{}", list.as_str())?)
}

/// Adds a file as a JSON object: what it is, and what is odd or wrong in it.
///
/// # Errors
///
/// Where memory is refused.
pub(crate) fn push_checked(
    alloc: Global,
    values: &mut Vec<Value>,
    path: &str,
    checked: &CheckedFile,
) -> Result<(), AllocError> {
    let findings = findings_of(alloc, checked)?;
    let mut members = content_members(alloc, path, checked)?;
    put(&mut members, alloc, "findings", Value::Array(findings))?;
    Ok(values.push(Value::Object(members))?)
}

/// The members that say which file it is, and what it is.
fn content_members(
    alloc: Global,
    path: &str,
    checked: &CheckedFile,
) -> Result<Map<String, Value>, AllocError> {
    let mut members = Map::new(alloc);
    put_text(alloc, &mut members, "file", path)?;
    if let Ok(content) = &checked.outcome {
        put_content(alloc, &mut members, content)?;
    }
    Ok(members)
}

/// What is odd or wrong in a file.
fn findings_of(alloc: Global, checked: &CheckedFile) -> Result<Vec<Value>, AllocError> {
    let mut findings = Vec::new(alloc);
    push_findings(alloc, &mut findings, &checked.warnings)?;
    if let Err(error) = &checked.outcome {
        push_error(alloc, &mut findings, error)?;
    }
    Ok(findings)
}

/// Adds what a file is.
fn put_content(
    alloc: Global,
    members: &mut Map<String, Value>,
    content: &Content,
) -> Result<(), AllocError> {
    put_text(alloc, members, "kind", content.kind())?;
    match content {
        Content::IndependentStyle { title, id } => {
            put_text(alloc, members, "title", title.as_str())?;
            put_text(alloc, members, "id", id.as_str())
        }
        Content::DependentStyle { title, id, parent } => {
            put_text(alloc, members, "title", title.as_str())?;
            put_text(alloc, members, "id", id.as_str())?;
            put_text(alloc, members, "parent", parent.as_str())
        }
        Content::Locale(language) => put_text(alloc, members, "language", language.as_str()),
        Content::References(count) | Content::Citations(count) => {
            put(members, alloc, "count", Value::from(*count))
        }
        Content::Document => Ok(()),
    }
}

/// Adds the findings of an error of a file.
fn push_error(
    alloc: Global,
    values: &mut Vec<Value>,
    error: &CommandError,
) -> Result<(), AllocError> {
    match error {
        CommandError::Refused { faults, .. } => push_findings(alloc, values, faults),
        CommandError::LimitExceeded { fault, .. } => Ok(values.push(json_of(alloc, fault)?)?),
        CommandError::Unreadable { why, .. } => push_fault(alloc, values, why),
        other => push_fault(alloc, values, other),
    }
}

/// Adds what is wrong with a file as a whole.
fn push_fault<W: fmt::Display>(
    alloc: Global,
    values: &mut Vec<Value>,
    why: &W,
) -> Result<(), AllocError> {
    let fault = Finding::error(alloc, FaultPlace::Whole, why)?;
    Ok(values.push(json_of(alloc, &fault)?)?)
}

fn push_findings(
    alloc: Global,
    values: &mut Vec<Value>,
    findings: &[Finding],
) -> Result<(), AllocError> {
    for finding in findings {
        values.push(json_of(alloc, finding)?)?;
    }
    Ok(())
}

/// A finding as a JSON object, with its message as it is printed.
fn json_of(alloc: Global, finding: &Finding) -> Result<Value, AllocError> {
    let mut members = Map::new(alloc);
    put_text(alloc, &mut members, "severity", finding.severity.name())?;
    finding.place.put_into(alloc, &mut members)?;
    let message = format!(in alloc; "{}", OneLine(finding.message.as_str()))?;
    put(&mut members, alloc, "message", Value::String(message))?;
    Ok(Value::Object(members))
}

fn put_text(
    alloc: Global,
    members: &mut Map<String, Value>,
    key: &'static str,
    text: &str,
) -> Result<(), AllocError> {
    put(
        members,
        alloc,
        key,
        Value::String(String::from_str(alloc, text)?),
    )
}
