//! Numbers of items.
use crate::conversion::Conversion;
use reference_fields::tables::{is_article, is_part_of_book, is_whole_book};
use std::alloc::{AllocError, Global};

/// The variables of numbers that have fields of their own.
const NUMBERS: &[(&str, &[&str])] = &[
    ("edition", &["edition"]),
    ("number-of-volumes", &["volumes"]),
    ("number-of-pages", &["pagetotal", "numpages"]),
    ("chapter-number", &["chapter"]),
    ("version", &["version"]),
];

impl<'e> Conversion<'e> {
    /// Puts the numbers.
    pub(crate) fn put_numbers(&mut self) -> Result<(), AllocError> {
        for (variable, names) in NUMBERS {
            self.put_text_of(*variable, *names)?;
        }
        self.put_volume()?;
        self.put_pages()?;
        self.put_issue()
    }

    fn put_volume(&mut self) -> Result<(), AllocError> {
        let mut volume = self.text(&["volume"])?;
        let part = self.text(&["part"])?;
        if !volume.is_empty() && !part.is_empty() {
            volume.push('.')?;
        }
        volume.push_str(part.as_str())?;
        self.item.put_text("volume", volume)
    }

    /// Puts the pages, or what stands for them in a journal that has none.
    fn put_pages(&mut self) -> Result<(), AllocError> {
        let pages = self.text(&["pages"])?;
        let pages = if pages.is_empty() {
            self.text(&["eid", "articleno"])?
        } else {
            pages
        };
        let pages = with_hyphens(self.alloc, pages.as_str())?;
        self.item.put_text("page", pages)
    }

    /// Puts the number and the issue, by the type of the entry.
    fn put_issue(&mut self) -> Result<(), AllocError> {
        let number = self.text(&["number"])?;
        let issue = self.text(&["issue"])?;
        let kind = self.whole.kind;
        if is_article(kind) {
            return self.put_joined_issue(number, issue.as_str());
        }
        let variable = if is_whole_book(kind) || is_part_of_book(kind) {
            "collection-number"
        } else {
            "number"
        };
        self.item.put_text(variable, number)?;
        self.item.put_text("issue", issue)
    }

    fn put_joined_issue(&mut self, number: String, issue: &str) -> Result<(), AllocError> {
        let mut joined = number;
        if !joined.is_empty() && !issue.is_empty() {
            joined.push_str(", ")?;
        }
        joined.push_str(issue)?;
        self.item.put_text("issue", joined)
    }
}

/// The text with hyphens in place of dashes between numbers.
fn with_hyphens(alloc: Global, text: &str) -> Result<String, AllocError> {
    let mut out = String::new(alloc);
    for c in text.chars() {
        out.push(if c == '–' { '-' } else { c })?;
    }
    Ok(out)
}
