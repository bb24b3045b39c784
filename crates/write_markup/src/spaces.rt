//! Texts on a line, and the spaces between them.
use cite_texts::lines::is_control;
use std::alloc::{AllocError, Global};

/// The text with a space for each run of characters that end a line, or are tabs; other control
/// characters are left out.
///
/// # Errors
///
/// Where memory is refused.
pub(crate) fn single_spaced(alloc: Global, text: &str) -> Result<String, AllocError> {
    let mut line = String::new(alloc);
    let mut is_in_break = false;
    for c in text.chars() {
        let is_break = is_control(c) && c.is_whitespace();
        if is_break && !is_in_break {
            line.push(' ')?;
        }
        if !is_control(c) {
            line.push(c)?;
        }
        is_in_break = is_break;
    }
    Ok(line)
}

/// The end of a line that is being written, for the space beside what is set off in it.
#[derive(Clone, Copy)]
pub(crate) struct LineEnd {
    /// The last character of the texts.
    last: Option<char>,
    /// Whether something that is set off began or ended after the last text.
    is_beside: bool,
}

impl LineEnd {
    /// The end of an empty line.
    pub const EMPTY: LineEnd = LineEnd {
        last: None,
        is_beside: false,
    };

    /// Something that is set off in the line begins or ends here.
    pub fn set_off(&mut self) {
        self.is_beside = true;
    }

    /// Moves behind a text. Whether a space has to stand before the text: where something is set
    /// off between two texts, and neither has a space there.
    pub fn push(&mut self, text: &str) -> bool {
        let Some(first) = text.chars().next() else {
            return false;
        };
        let lacks_space = match self.last {
            Some(last) => self.is_beside && !last.is_whitespace() && !first.is_whitespace(),
            None => false,
        };
        self.last = text.chars().next_back();
        self.is_beside = false;
        lacks_space
    }
}
