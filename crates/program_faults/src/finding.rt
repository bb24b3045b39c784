//! What is wrong or odd in a file, and where.
use fault_places::place::FaultPlace;
use program_command::one_line::OneLine;
use std::alloc::{AllocError, Global};
use std::fmt;
use style_xml::error::Place;

/// Whether a file is wrong or odd.
#[derive(Clone, Copy, Debug, PartialEq, Eq)]
pub enum Severity {
    /// The file is wrong: it isn't read.
    Error,
    /// The file is odd: it is read all the same.
    Warning,
}

/// Something that is wrong or odd in a file.
#[derive(Debug, Drop)]
pub struct Finding {
    pub severity: Severity,
    pub place: FaultPlace,
    /// What it is, in words.
    pub message: String,
    /// The line of the file that has the place, and below it a caret, where they are shown.
    pub excerpt: Option<String>,
}

impl Severity {
    /// Its name in messages.
    pub fn name(self) -> &'static str {
        match self {
            Severity::Error => "error",
            Severity::Warning => "warning",
        }
    }
}

impl Finding {
    /// What is wrong at a place of a file.
    ///
    /// # Errors
    ///
    /// Where memory is refused.
    pub fn error<W: fmt::Display>(
        alloc: Global,
        place: FaultPlace,
        why: &W,
    ) -> Result<Finding, AllocError> {
        Finding::new(alloc, Severity::Error, place, why)
    }

    /// What is odd at a place of a file.
    ///
    /// # Errors
    ///
    /// Where memory is refused.
    pub fn warning<W: fmt::Display>(
        alloc: Global,
        place: FaultPlace,
        what: &W,
    ) -> Result<Finding, AllocError> {
        Finding::new(alloc, Severity::Warning, place, what)
    }

    fn new<W: fmt::Display>(
        alloc: Global,
        severity: Severity,
        place: FaultPlace,
        message: &W,
    ) -> Result<Finding, AllocError> {
        Ok(Finding {
            severity,
            place,
            message: format!(in alloc; "{message}")?,
            excerpt: None,
        })
    }
}

/// A finding in the file with this path, as it is printed: on a line, with its excerpt below.
#[derive(Clone, Copy)]
pub struct PrintedFinding<'f> {
    pub path: &'f str,
    pub finding: &'f Finding,
}

impl<'f> fmt::Display for PrintedFinding<'f> {
    fn fmt<W: fmt::Write>(&self, f: &mut fmt::Formatter<W>) -> fmt::Result {
        let path = OneLine(self.path);
        let name = self.finding.severity.name();
        let message = OneLine(self.finding.message.as_str());
        write!(f, "{path}:")?;
        if let FaultPlace::Line(Place { line, column }) = &self.finding.place {
            write!(f, "{line}:{column}:")?;
        }
        write!(f, " {name}: ")?;
        write_part(f, &self.finding.place)?;
        write!(f, "{message}")?;
        write_excerpt(f, self.finding)
    }
}

/// Writes which part of the file a place is, before what is found there.
fn write_part<W: fmt::Write>(f: &mut fmt::Formatter<W>, place: &FaultPlace) -> fmt::Result {
    match place {
        FaultPlace::Whole | FaultPlace::Line(_) => Ok(()),
        FaultPlace::Pointer(pointer) => {
            let pointer = OneLine(pointer.as_str());
            write!(f, "{pointer}: ")
        }
        FaultPlace::Field { entry, field } => {
            let entry = OneLine(entry.as_str());
            let field = OneLine(field.as_str());
            write!(f, "{entry}: {field}: ")
        }
    }
}

/// Writes the lines below a finding.
fn write_excerpt<W: fmt::Write>(f: &mut fmt::Formatter<W>, finding: &Finding) -> fmt::Result {
    match &finding.excerpt {
        Some(excerpt) => {
            f.write_char('\n')?;
            f.write_str(excerpt.as_str())
        }
        None => Ok(()),
    }
}
