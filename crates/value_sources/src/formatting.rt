//! Formatting: what a style asks for, and what a text of a tree has.
ghost use Rattle.std.specs.Prelude.{◌≡◌, string_bytes};
ghost use Rattle.value_sources.specs.Formatting.{applied};

use value_lists::text::Text;

/// How letters slant.
#[derive(Clone, Copy, PartialEq, Eq, PartialOrd, Ord, Hash)]
pub enum FontStyle {
    Normal,
    Italic,
}

/// How heavy letters are.
#[derive(Clone, Copy, PartialEq, Eq, PartialOrd, Ord, Hash)]
pub enum FontWeight {
    Normal,
    Bold,
}

/// Whether small letters are written as small capitals.
#[derive(Clone, Copy, PartialEq, Eq, PartialOrd, Ord, Hash)]
pub enum FontVariant {
    Normal,
    SmallCaps,
}

/// Whether a line stands under the letters.
#[derive(Clone, Copy, PartialEq, Eq, PartialOrd, Ord, Hash)]
pub enum TextDecoration {
    None,
    Underline,
}

/// Where letters stand on their line: nothing is said, on it, above it, below it.
#[derive(Clone, Copy, PartialEq, Eq, PartialOrd, Ord, Hash)]
pub enum VerticalAlign {
    None,
    Baseline,
    Superscript,
    Subscript,
}

/// How an element is set off from its neighbours (CSL 1.0.2, display).
#[derive(Clone, Copy, PartialEq, Eq, PartialOrd, Ord, Hash)]
pub enum Display {
    Block,
    LeftMargin,
    RightInline,
    Indent,
}

/// The formatting that a style asks for; what is absent stays as it is around it (CSL 1.0.2,
/// formatting).
#[derive(Clone, Copy, PartialEq, Eq)]
pub struct StyleFormatting {
    pub font_style: Option<FontStyle>,
    pub font_variant: Option<FontVariant>,
    pub font_weight: Option<FontWeight>,
    pub text_decoration: Option<TextDecoration>,
    pub vertical_align: Option<VerticalAlign>,
}

/// The formatting of a text.
#[derive(Clone, Copy, PartialEq, Eq, PartialOrd, Ord, Hash)]
pub struct Formatting {
    pub font_style: FontStyle,
    pub font_variant: FontVariant,
    pub font_weight: FontWeight,
    pub text_decoration: TextDecoration,
    pub vertical_align: VerticalAlign,
}

impl Default for Formatting {
    ghost use Rattle.std.specs.Prelude.{◌≡◌};
    ghost use Rattle.value_sources.specs.Formatting.{normal};

    ghost is_default = { λ formatting. formatting ≡ normal };

    /// Normal letters, with no line under them, of whose place nothing is said.
    fn default() -> Formatting {
        Formatting {
            font_style: FontStyle::Normal,
            font_variant: FontVariant::Normal,
            font_weight: FontWeight::Normal,
            text_decoration: TextDecoration::None,
            vertical_align: VerticalAlign::None,
        }
    }
}

impl Default for StyleFormatting {
    ghost use Rattle.std.specs.Prelude.{◌≡◌};
    ghost use Rattle.value_sources.specs.Formatting.{nothing_asked};

    ghost is_default = { λ asked. asked ≡ nothing_asked };

    /// Nothing is asked for.
    fn default() -> StyleFormatting {
        StyleFormatting {
            font_style: None,
            font_variant: None,
            font_weight: None,
            text_decoration: None,
            vertical_align: None,
        }
    }
}

impl Formatting {
    /// This formatting, with what the style asks for in its place.
    pub fn apply(self, asked: StyleFormatting) -> Formatting
        ensures { result ≡ applied asked self }
    {
        Formatting {
            font_style: asked.font_style.unwrap_or(self.font_style),
            font_variant: asked.font_variant.unwrap_or(self.font_variant),
            font_weight: asked.font_weight.unwrap_or(self.font_weight),
            text_decoration: asked.text_decoration.unwrap_or(self.text_decoration),
            vertical_align: asked.vertical_align.unwrap_or(self.vertical_align),
        }
    }

    /// The text in this formatting.
    pub fn add_text(self, text: String) -> Formatted
        ensures { result ≡ record { text = string_bytes text; formatting = self } }
    {
        Formatted {
            text: Text::new(text),
            formatting: self,
        }
    }
}

/// A text and its formatting.
#[derive(Clone, PartialEq, Eq, PartialOrd, Ord, Hash, Drop)]
pub struct Formatted {
    pub text: Text,
    pub formatting: Formatting,
}
