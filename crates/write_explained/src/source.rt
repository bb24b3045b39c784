//! The text of a style file: its lines, and its start tags.
use std::alloc::{AllocError, Global};
use style_xml::error::Place;

/// The text of a style file, with the places of its elements.
#[derive(Drop)]
pub(crate) struct StyleSource<'t> {
    text: &'t str,
    /// The places of each `STEP`-th byte, from the beginning on.
    marks: Vec<Place>,
    /// The place of the end.
    end: Place,
}

/// How many bytes there are from one mark to the next.
const STEP: usize = 1024;

impl<'t> StyleSource<'t> {
    /// The lines of a text.
    ///
    /// # Errors
    ///
    /// Where memory is refused.
    pub fn new(alloc: Global, text: &'t str) -> Result<StyleSource<'t>, AllocError> {
        let mut marks = Vec::new(alloc);
        let mut end = beginning(text);
        for (offset, byte) in text.as_bytes().iter().enumerate() {
            if offset % STEP == 0 {
                marks.push(end)?;
            }
            end = behind(end, *byte);
        }
        Ok(StyleSource { text, marks, end })
    }

    pub fn text(&self) -> &'t str {
        self.text
    }

    /// How many lines there are. Behind the end of the last one there is none.
    pub fn line_count(&self) -> usize {
        if self.text.ends_with('\n') {
            self.end.line.saturating_sub(1)
        } else {
            self.end.line
        }
    }

    /// The line and the column of an offset, as the faults of a style have them.
    pub fn place(&self, offset: usize) -> Place {
        let offset = offset.min(self.text.len());
        let last = self.marks.len().saturating_sub(1);
        let mark = (offset / STEP).min(last);
        let mut place = match self.marks.get(mark) {
            Some(place) => *place,
            None => beginning(self.text),
        };
        let bytes = self.text.as_bytes();
        for byte in bytes.get(mark.saturating_mul(STEP)..offset).unwrap_or(&[]) {
            place = behind(place, *byte);
        }
        Place {
            column: place.column.max(1),
            ..place
        }
    }
}

/// The place of the beginning of a text. A byte order mark has no column.
fn beginning(text: &str) -> Place {
    Place {
        line: 1,
        column: usize::from(!text.starts_with('\u{feff}')),
    }
}

/// The place behind a byte that is at a place. A character has one column.
fn behind(place: Place, byte: u8) -> Place {
    match byte {
        b'\n' => Place {
            line: place.line.saturating_add(1),
            column: 1,
        },
        0x80..=0xbf => place,
        _ => Place {
            column: place.column.saturating_add(1),
            ..place
        },
    }
}

/// Where the start tag ends that begins a text: behind its `>`, which is none of an attribute's
/// value.
pub(crate) fn end_of_tag(text: &str) -> usize {
    let mut quote = None;
    for (place, c) in text.char_indices() {
        match quote {
            Some(open) => {
                if c == open {
                    quote = None;
                }
            }
            None if c == '"' || c == '\'' => quote = Some(c),
            None if c == '>' => return place.saturating_add(1),
            None => {}
        }
    }
    text.len()
}
