//! Lines for what a document says; of a style file one for each element, indented by its depth, with
//! its kind and its values.
use md5::{Digest, Md5};
use std::alloc::{AllocError, Global};
use std::fmt;
use style_elements::tables::{
    DISPLAYS, FONT_STYLES, FONT_VARIANTS, FONT_WEIGHTS, TEXT_CASES, TEXT_DECORATIONS,
    VERTICAL_ALIGNS,
};
use style_file::formatting::{Affixes, Display, Formatting, TextCase};

/// Lines for what a document says.
#[derive(Drop)]
pub struct Dump {
    text: String,
    /// Whether memory was refused, so that the text lacks something.
    is_cut: bool,
}

impl Dump {
    pub fn new(alloc: Global) -> Dump {
        Dump {
            text: String::new(alloc),
            is_cut: false,
        }
    }

    /// The lines.
    ///
    /// # Errors
    ///
    /// Where memory was refused for a part of them.
    pub fn into_text(self) -> Result<String, AllocError> {
        let Dump { text, is_cut } = self;
        if is_cut { Err(AllocError) } else { Ok(text) }
    }

    /// Notes that memory was refused.
    pub fn cut(&mut self) {
        self.is_cut = true;
    }

    fn note(&mut self, is_pushed: bool) {
        self.is_cut = self.is_cut || !is_pushed;
    }

    pub fn push_str(&mut self, text: &str) {
        let is_pushed = self.text.push_str(text).is_ok();
        self.note(is_pushed);
    }

    pub fn push(&mut self, c: char) {
        let is_pushed = self.text.push(c).is_ok();
        self.note(is_pushed);
    }

    /// Two texts, one behind the other.
    pub fn put(&mut self, one: &str, other: &str) {
        self.push_str(one);
        self.push_str(other);
    }

    /// A text behind a mark.
    pub fn marked(&mut self, mark: char, text: &str) {
        self.push(mark);
        self.push_str(text);
    }

    /// A text in double quotes.
    pub fn quoted(&mut self, text: &str) {
        self.push('"');
        for c in text.chars() {
            match c {
                '\n' => self.push_str("\\n"),
                '"' => self.push_str("\\\""),
                '\\' => self.push_str("\\\\"),
                other => self.push(other),
            }
        }
        self.push('"');
    }

    /// A value as it is displayed.
    pub fn show<T: fmt::Display>(&mut self, value: &T) {
        let is_pushed = write!(self.text, "{value}").is_ok();
        self.note(is_pushed);
    }

    /// A line of a word and a value as it is displayed.
    pub fn shown_line<T: fmt::Display>(&mut self, word: &str, value: &T) {
        self.put(word, " ");
        self.show(value);
        self.close();
    }

    /// A value at a place: its line, its column and itself.
    pub fn place<T: fmt::Display>(&mut self, line: usize, column: usize, value: &T) {
        self.show(&line);
        self.push(' ');
        self.show(&column);
        self.push(' ');
        self.show(value);
    }

    /// The MD5 digest of other lines.
    pub fn digest(&mut self, said: &Dump) {
        let digest = u128::from_be_bytes(Md5::digest(said.text.as_bytes()));
        let is_pushed = write!(self.text, "{digest:032x}").is_ok();
        self.note(is_pushed && !said.is_cut);
    }

    /// Begins the line of an element of this kind.
    pub fn open(&mut self, depth: usize, kind: &str) {
        for _ in 0..depth {
            self.push(' ');
        }
        self.push_str(kind);
    }

    /// Ends a line.
    pub fn close(&mut self) {
        self.push('\n');
    }

    /// A value that is a word.
    pub fn word(&mut self, key: &str, word: &str) {
        self.push(' ');
        self.push_str(key);
        self.push('=');
        self.push_str(word);
    }

    /// A value as it is displayed, behind its key.
    pub fn shown<T: fmt::Display>(&mut self, key: &str, value: &T) {
        self.word(key, "");
        self.show(value);
    }

    /// A value that is text, in quotes.
    pub fn text(&mut self, key: &str, text: &str) {
        self.word(key, "");
        self.quoted(text);
    }

    /// A value that is text, where it is there.
    pub fn text_if_any(&mut self, key: &str, text: &Option<String>) {
        if let Some(text) = text {
            self.text(key, text.as_str());
        }
    }

    /// A value that is text, where it is not empty.
    pub fn text_if_full(&mut self, key: &str, text: &str) {
        if !text.is_empty() {
            self.text(key, text);
        }
    }

    /// A value that has a name in these rows.
    pub fn named<T: Copy + PartialEq>(&mut self, key: &str, value: T, rows: &[(&'static str, T)]) {
        for row in rows {
            if row.1 == value {
                self.word(key, row.0);
                return;
            }
        }
        self.word(key, "?");
    }

    /// A value that has a name in these rows, where it is there.
    pub fn named_if_any<T: Copy + PartialEq>(
        &mut self,
        key: &str,
        value: Option<T>,
        rows: &[(&'static str, T)],
    ) {
        if let Some(value) = value {
            self.named(key, value, rows);
        }
    }

    /// A value that has a name in these rows, where it isn't the default.
    pub fn named_if_other<T: Copy + PartialEq>(
        &mut self,
        key: &str,
        value: T,
        default: T,
        rows: &[(&'static str, T)],
    ) {
        if value != default {
            self.named(key, value, rows);
        }
    }

    /// A truth, where it is there.
    pub fn truth_if_any(&mut self, key: &str, truth: Option<bool>) {
        match truth {
            Some(true) => self.word(key, "true"),
            Some(false) => self.word(key, "false"),
            None => {}
        }
    }

    /// A truth, where it is true.
    pub fn truth_if_true(&mut self, key: &str, truth: bool) {
        if truth {
            self.word(key, "true");
        }
    }

    /// A number, where it is there.
    pub fn number_if_any(&mut self, key: &str, number: Option<u32>) {
        if let Some(number) = number {
            self.shown(key, &number);
        }
    }

    pub fn affixes(&mut self, affixes: &Affixes) {
        self.text_if_full("prefix", affixes.prefix.as_str());
        self.text_if_full("suffix", affixes.suffix.as_str());
    }

    pub fn formatting(&mut self, formatting: &Formatting) {
        self.named_if_any("font-style", formatting.font_style, FONT_STYLES);
        self.named_if_any("font-variant", formatting.font_variant, FONT_VARIANTS);
        self.named_if_any("font-weight", formatting.font_weight, FONT_WEIGHTS);
        let decoration = formatting.text_decoration;
        self.named_if_any("text-decoration", decoration, TEXT_DECORATIONS);
        self.named_if_any("vertical-align", formatting.vertical_align, VERTICAL_ALIGNS);
    }

    pub fn display(&mut self, display: Option<Display>) {
        self.named_if_any("display", display, DISPLAYS);
    }

    pub fn text_case(&mut self, text_case: Option<TextCase>) {
        self.named_if_any("text-case", text_case, TEXT_CASES);
    }
}
