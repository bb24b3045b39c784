//! Entries.

/// A field.
#[derive(Drop)]
pub struct BibField {
    /// Its name, in small letters.
    pub name: String,
    /// Its text as it stands in the file, with single spaces.
    pub value: String,
}

/// What is wrong in a field.
#[derive(Drop)]
pub struct Problem {
    pub field: String,
    pub reason: String,
}

/// An entry.
#[derive(Drop)]
pub struct BibEntry {
    pub key: String,
    /// Its type, in small letters.
    pub kind: String,
    /// Each of another name, in the order of the file.
    pub fields: Vec<BibField>,
    pub problems: Vec<Problem>,
}

impl BibEntry {
    /// The field of this name.
    pub fn field(&self, name: &str) -> Option<&str> {
        let field = self
            .fields
            .iter()
            .find(|field| field.name.as_str() == name)?;
        Some(field.value.as_str())
    }
}
