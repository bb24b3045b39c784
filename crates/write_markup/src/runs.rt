//! Runs: texts of one formatting, and where elements begin and end.
use csl_base::formatting::{
    Display, FontStyle, FontVariant, FontWeight, Formatting, TextDecoration, VerticalAlign,
};
use std::alloc::AllocError;

/// A part of what a tree shows.
#[derive(Clone, Drop)]
pub enum Run {
    Text(TextRun),
    Open(ElementRun),
    Close(ElementRun),
}

/// An element of a tree.
#[derive(Clone, Drop)]
pub struct ElementRun {
    pub display: Option<Display>,
    /// The id of an item: the element leads there.
    pub target: Option<String>,
}

/// A text in one formatting.
#[derive(Clone, Drop)]
pub struct TextRun {
    text: String,
    formatting: Formatting,
    address: Option<String>,
}

/// What letters may have that is unusual.
#[derive(Clone, Copy, PartialEq, Eq)]
pub enum Format {
    Bold,
    Italic,
    SmallCaps,
    Underline,
    Superscript,
    Subscript,
}

impl TextRun {
    /// A text of one line in this formatting, which leads to this address.
    pub fn new(text: String, formatting: Formatting, address: Option<String>) -> TextRun {
        let formatting = shown_formatting(text.as_str(), formatting);
        TextRun {
            text,
            formatting,
            address,
        }
    }

    /// The letters, on a line.
    pub fn text(&self) -> &str {
        self.text.as_str()
    }

    /// Where the text leads.
    pub fn address(&self) -> Option<&str> {
        self.address.as_deref()
    }

    /// The formatting of the letters, which is usual where they are white space alone.
    pub fn formatting(&self) -> Formatting {
        self.formatting
    }

    /// Whether the letters have nothing unusual, and lead nowhere.
    pub fn is_plain(&self) -> bool {
        self.address.is_none() && self.formatting == Formatting::default()
    }

    /// What the letters have that is unusual: what stands around them nearest comes first.
    pub fn innermost_first(&self) -> [Option<Format>; 5] {
        let formatting = self.formatting;
        let is_underlined = formatting.text_decoration == TextDecoration::Underline;
        let is_small = formatting.font_variant == FontVariant::SmallCaps;
        let is_italic = formatting.font_style == FontStyle::Italic;
        let is_bold = formatting.font_weight == FontWeight::Bold;
        [
            align_format(formatting.vertical_align),
            is_underlined.then_some(Format::Underline),
            is_small.then_some(Format::SmallCaps),
            is_italic.then_some(Format::Italic),
            is_bold.then_some(Format::Bold),
        ]
    }

    /// Whether the text and one after it may be one: both lead nowhere, in one formatting.
    pub(crate) fn joins(&self, next: &TextRun) -> bool {
        self.address.is_none() && next.address.is_none() && self.formatting == next.formatting
    }

    /// Adds the letters of a text after it.
    pub(crate) fn push(&mut self, next: &TextRun) -> Result<(), AllocError> {
        self.text.push_str(next.text.as_str())
    }
}

/// The formatting that a text shows.
fn shown_formatting(text: &str, formatting: Formatting) -> Formatting {
    if text.trim().is_empty() {
        return Formatting::default();
    }
    let mut shown = formatting;
    if shown.vertical_align == VerticalAlign::Baseline {
        shown.vertical_align = VerticalAlign::None;
    }
    shown
}

fn align_format(align: VerticalAlign) -> Option<Format> {
    match align {
        VerticalAlign::None | VerticalAlign::Baseline => None,
        VerticalAlign::Superscript => Some(Format::Superscript),
        VerticalAlign::Subscript => Some(Format::Subscript),
    }
}
