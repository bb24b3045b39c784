//! How formatting is written.
use crate::runs::Format;

/// What formatting of a text is written by.
#[derive(Clone, Copy, PartialEq, Eq)]
pub(crate) enum Notation {
    /// Marks of Markdown.
    Marks,
    /// Tags of HTML.
    Tags,
}

impl Notation {
    /// That of a text of these formats, which stands between these letters: marks, where there are
    /// some and both sides let them be read as such.
    pub fn of(formats: &[Option<Format>], before: Option<char>, after: Option<char>) -> Notation {
        let have_marks = formats.iter().flatten().all(|format| has_mark(*format));
        let may_open = before.is_none_or(opens);
        let may_close = after.is_none_or(closes);
        if have_marks && may_open && may_close {
            Notation::Marks
        } else {
            Notation::Tags
        }
    }

    /// What begins a format.
    pub fn opening(self, format: Format) -> &'static str {
        match (self, format) {
            (Notation::Marks, Format::Italic) => "*",
            (Notation::Marks, Format::Bold) => "**",
            (_, Format::Bold) => "<strong>",
            (_, Format::Italic) => "<em>",
            (_, Format::Underline) => "<u>",
            (_, Format::Superscript) => "<sup>",
            (_, Format::Subscript) => "<sub>",
            (_, Format::SmallCaps) => "<span style=\"font-variant:small-caps;\">",
        }
    }

    /// What ends a format.
    pub fn closing(self, format: Format) -> &'static str {
        match (self, format) {
            (Notation::Marks, Format::Italic) => "*",
            (Notation::Marks, Format::Bold) => "**",
            (_, Format::Bold) => "</strong>",
            (_, Format::Italic) => "</em>",
            (_, Format::Underline) => "</u>",
            (_, Format::Superscript) => "</sup>",
            (_, Format::Subscript) => "</sub>",
            (_, Format::SmallCaps) => "</span>",
        }
    }
}

fn has_mark(format: Format) -> bool {
    matches!(format, Format::Italic | Format::Bold)
}

/// Whether a mark after this letter begins formatting.
fn opens(before: char) -> bool {
    matches!(
        before,
        ' ' | '\u{a0}' | '(' | '[' | '{' | '‘' | '“' | '«' | '–' | '—' | '/'
    )
}

/// Whether a mark before this letter ends formatting.
fn closes(after: char) -> bool {
    !after.is_alphanumeric() && !matches!(after, '*' | '_' | '\\')
}
