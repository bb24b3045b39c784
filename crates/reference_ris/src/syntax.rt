//! The syntax of RIS files.
use reference_items::reading::Fault;
use std::alloc::{AllocError, Global};

/// A line of a record: its tag, and what it says.
#[derive(Drop)]
pub struct RisField<'t> {
    pub tag: &'t str,
    /// With the lines that continue it.
    pub value: String,
}

/// A record.
#[derive(Drop)]
pub struct RisRecord<'t> {
    /// What its `TY` says.
    pub kind: String,
    pub fields: Vec<RisField<'t>>,
}

/// What stands in a RIS file.
#[derive(Drop)]
pub struct ReadRecords<'t> {
    pub records: Vec<RisRecord<'t>>,
    pub faults: Vec<Fault>,
}

/// The records of a RIS file. What is wrong in one costs no other.
///
/// # Errors
/// Where memory is refused.
pub fn read_records(alloc: Global, text: &str) -> Result<ReadRecords<'_>, AllocError> {
    let mut file = File {
        alloc,
        read: ReadRecords {
            records: Vec::new(alloc),
            faults: Vec::new(alloc),
        },
        is_open: false,
    };
    for (index, line) in text.lines().enumerate() {
        file.line(index.saturating_add(1), line)?;
    }
    if file.is_open {
        let lines = text.lines().count();
        file.fault(lines, "no `ER` ends the last record")?;
    }
    Ok(file.read)
}

#[derive(Drop)]
struct File<'t> {
    alloc: Global,
    read: ReadRecords<'t>,
    /// Whether a record has begun, and not ended.
    is_open: bool,
}

impl<'t> File<'t> {
    fn fault(&mut self, line: usize, reason: &str) -> Result<(), AllocError> {
        self.read.faults.push(Fault {
            line,
            column: 1,
            reason: String::from_str(self.alloc, reason)?,
        })?;
        Ok(())
    }

    fn line(&mut self, number: usize, line: &'t str) -> Result<(), AllocError> {
        match tagged(line) {
            Some(("TY", value)) => self.begin(number, value),
            Some(("ER", _)) => {
                self.is_open = false;
                Ok(())
            }
            Some((tag, value)) if self.is_open => self.field(tag, value),
            Some(_) => self.fault(number, "a line outside records, left out"),
            None => self.continued(number, line.trim()),
        }
    }

    fn begin(&mut self, number: usize, kind: &str) -> Result<(), AllocError> {
        if self.is_open {
            self.fault(number, "no `ER` ends the record before this one")?;
        }
        self.is_open = true;
        self.read.records.push(RisRecord {
            kind: String::from_str(self.alloc, kind)?,
            fields: Vec::new(self.alloc),
        })?;
        Ok(())
    }

    fn field(&mut self, tag: &'t str, value: &str) -> Result<(), AllocError> {
        let value = String::from_str(self.alloc, value)?;
        if let Some(record) = self.read.records.last_mut() {
            record.fields.push(RisField { tag, value })?;
        }
        Ok(())
    }

    /// Adds a line without a tag to the one before.
    fn continued(&mut self, number: usize, line: &str) -> Result<(), AllocError> {
        if line.is_empty() {
            return Ok(());
        }
        if !self.is_open {
            return self.fault(number, "a line without a tag, left out");
        }
        match self.read.records.last_mut() {
            Some(record) => match record.fields.last_mut() {
                Some(field) => add_line(&mut field.value, line),
                None => Ok(()),
            },
            None => Ok(()),
        }
    }
}

fn add_line(value: &mut String, line: &str) -> Result<(), AllocError> {
    if !value.is_empty() {
        value.push(' ')?;
    }
    value.push_str(line)
}

/// The tag with which a line begins, and what it says. A tag is a capital and a capital or a digit,
/// behind which stand spaces and a hyphen; blanks may stand before it.
fn tagged(line: &str) -> Option<(&str, &str)> {
    let line = line.trim_start_matches(|c: char| matches!(c, '\u{feff}' | ' ' | '\t'));
    let (tag, behind) = line.split_at_checked(2)?;
    let is_tag = tag.starts_with(|c: char| c.is_ascii_uppercase())
        && tag
            .bytes()
            .all(|byte| byte.is_ascii_uppercase() || byte.is_ascii_digit());
    let value = behind.trim_start_matches(' ').strip_prefix('-')?;
    if !is_tag || !behind.starts_with(' ') || !(value.is_empty() || value.starts_with(' ')) {
        return None;
    }
    Some((tag, value.trim()))
}
