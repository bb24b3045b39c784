//! Places of faults.

/// The place of the beginning of an entry, from which those of its faults are counted.
#[derive(Clone, Copy)]
pub(crate) struct Places {
    pub line: usize,
    pub column: usize,
}

impl Places {
    /// The place behind a text that begins here.
    pub fn behind(self, text: &str) -> Places {
        match text.rsplit_once('\n') {
            Some((before, line)) => Places {
                line: self
                    .line
                    .saturating_add(1)
                    .saturating_add(before.bytes().filter(|byte| *byte == b'\n').count()),
                column: line.chars().count().saturating_add(1),
            },
            None => Places {
                line: self.line,
                column: self.column.saturating_add(text.chars().count()),
            },
        }
    }
}

/// What stands in a text before its end.
pub(crate) fn text_before<'t>(text: &'t str, end: &str) -> &'t str {
    text.get(..text.len().saturating_sub(end.len()))
        .unwrap_or(text)
}
