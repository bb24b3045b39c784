//! The formatting that a text has, inside what asks for some (CSL 1.0.2, Formatting).
ghost use Rattle.std.specs.Prelude.{◌≡◌};
ghost use Rattle.cite_pieces.specs.Levels.{asks};

use reference_values::rich_text::{Baseline, RunStyle};
use style_file::formatting::{
    FontStyle, FontVariant, FontWeight, Formatting, TextDecoration, VerticalAlign,
};

/// Formatting that asks for nothing.
pub const NOTHING_ASKED: Formatting = Formatting {
    font_style: None,
    font_variant: None,
    font_weight: None,
    text_decoration: None,
    vertical_align: None,
};

/// Whether some formatting is asked for.
pub(crate) fn asks_for_some(formatting: Formatting) -> bool
    ensures { result ≡ asks formatting }
{
    formatting.font_style.is_some()
        || formatting.font_variant.is_some()
        || formatting.font_weight.is_some()
        || formatting.text_decoration.is_some()
        || formatting.vertical_align.is_some()
}

/// The formatting that a text has.
#[derive(Clone, Copy, PartialEq, Eq)]
pub struct TextFormatting {
    pub font_style: FontStyle,
    pub font_variant: FontVariant,
    pub font_weight: FontWeight,
    pub text_decoration: TextDecoration,
    pub vertical_align: VerticalAlign,
}

impl TextFormatting {
    /// That of a text around which nothing is asked for.
    pub const NORMAL: TextFormatting = TextFormatting {
        font_style: FontStyle::Normal,
        font_variant: FontVariant::Normal,
        font_weight: FontWeight::Normal,
        text_decoration: TextDecoration::None,
        vertical_align: VerticalAlign::Baseline,
    };

    /// The formatting inside what asks for another one.
    pub fn with(self, asked: Formatting) -> TextFormatting {
        TextFormatting {
            font_style: asked.font_style.unwrap_or(self.font_style),
            font_variant: asked.font_variant.unwrap_or(self.font_variant),
            font_weight: asked.font_weight.unwrap_or(self.font_weight),
            text_decoration: asked.text_decoration.unwrap_or(self.text_decoration),
            vertical_align: asked.vertical_align.unwrap_or(self.vertical_align),
        }
    }

    /// The formatting inside markup. Italics in italics are upright, and so are bold letters in
    /// bold ones and small capitals in small capitals.
    pub fn with_markup(self, markup: RunStyle) -> TextFormatting {
        let mut inside = self;
        if markup.italic {
            inside.font_style = match self.font_style {
                FontStyle::Normal => FontStyle::Italic,
                FontStyle::Italic | FontStyle::Oblique => FontStyle::Normal,
            };
        }
        if markup.bold {
            inside.font_weight = match self.font_weight {
                FontWeight::Bold => FontWeight::Normal,
                FontWeight::Normal | FontWeight::Light => FontWeight::Bold,
            };
        }
        if markup.small_caps {
            inside.font_variant = match self.font_variant {
                FontVariant::Normal => FontVariant::SmallCaps,
                FontVariant::SmallCaps => FontVariant::Normal,
            };
        }
        inside.vertical_align = match markup.baseline {
            Baseline::Normal => self.vertical_align,
            Baseline::Superscript => VerticalAlign::Superscript,
            Baseline::Subscript => VerticalAlign::Subscript,
        };
        inside
    }
}
