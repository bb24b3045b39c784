//! What is left of a file.

/// What is left of a file.
#[derive(Clone, Copy)]
pub(crate) struct Cursor<'t> {
    pub(crate) rest: &'t str,
}

impl<'t> Cursor<'t> {
    /// Takes a character.
    pub(crate) fn take(&mut self) -> Option<char> {
        let mut letters = self.rest.chars();
        let first = letters.next();
        self.rest = letters.as_str();
        first
    }

    /// Takes this character behind white space, if it is the next one.
    pub(crate) fn takes(&mut self, c: char) -> bool {
        self.skip_space();
        match self.rest.strip_prefix(c) {
            Some(behind) => {
                self.rest = behind;
                true
            }
            None => false,
        }
    }

    pub(crate) fn skip_space(&mut self) {
        self.rest = self.rest.trim_start();
    }

    /// Takes so many bytes.
    fn take_bytes(&mut self, count: usize) -> &'t str {
        let (taken, behind) = self.rest.split_at_checked(count).unwrap_or((self.rest, ""));
        self.rest = behind;
        taken
    }

    /// Takes a name behind white space. It is empty where none begins.
    pub(crate) fn take_name(&mut self) -> &'t str {
        self.skip_space();
        let end = self.rest.find(|c: char| !is_of_name(c));
        self.take_bytes(end.unwrap_or(self.rest.len()))
    }

    /// Takes the key of an entry behind white space.
    pub(crate) fn take_key(&mut self, is_in_braces: bool) -> &'t str {
        self.skip_space();
        let end = self.rest.find(|c: char| c == ','
            || c.is_whitespace()
            || is_in_braces && c == '}');
        self.take_bytes(end.unwrap_or(self.rest.len()))
    }

    /// Goes behind the next `@`; none where there is no more.
    pub(crate) fn next_mark(self) -> Option<Cursor<'t>> {
        let (_, behind) = self.rest.split_once('@')?;
        Some(Cursor { rest: behind })
    }

    /// Takes a text up to its end, which stands outside braces; none where it has no end.
    pub(crate) fn take_text(&mut self, end: char) -> Option<&'t str> {
        let length = text_length(self.rest, end)?;
        let text = self.take_bytes(length);
        let _ = self.take();
        Some(text)
    }
}

/// How many bytes stand before the end of a text.
fn text_length(text: &str, end: char) -> Option<usize> {
    let mut depth: usize = 0;
    for (index, c) in text.char_indices() {
        if c == end && depth == 0 {
            return Some(index);
        }
        match c {
            '{' => depth = depth.saturating_add(1),
            '}' => depth = depth.checked_sub(1)?,
            _ => {}
        }
    }
    None
}

fn is_of_name(c: char) -> bool {
    !c.is_whitespace()
        && !matches!(
            c,
            '"' | '#' | '%' | '\'' | '(' | ')' | ',' | '=' | '{' | '}'
        )
}

/// The part of a text before the next line that begins as an entry does. The text begins behind the
/// `@` of an entry.
pub(crate) fn before_next_entry(text: &str) -> &str {
    let mut length: usize = 0;
    for line in text.split_inclusive('\n') {
        if length > 0 && begins_entry(line) {
            return text.get(..length).unwrap_or(text);
        }
        length = length.saturating_add(line.len());
    }
    text
}

/// Whether a line begins as an entry does: by an `@`, a word and a brace or a parenthesis.
pub(crate) fn begins_entry(line: &str) -> bool {
    let Some(behind) = line.trim_start().strip_prefix('@') else {
        return false;
    };
    let behind = behind.trim_start_matches([' ', '\t']);
    let after = behind.trim_start_matches(|c: char| c.is_ascii_alphabetic());
    after.len() < behind.len() && after.trim_start().starts_with(['{', '('])
}
