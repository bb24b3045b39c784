//! The tags that wraps of formatting ask for.
use crate::tag::{Format, Tag};
use cite_pieces::formatting::TextFormatting;
use style_file::formatting::{FontStyle, FontVariant, FontWeight, TextDecoration, VerticalAlign};

/// The tags of one wrap, at most one for each kind of formatting.
#[derive(Clone, Copy)]
pub(crate) struct Tags {
    vertical_align: Option<Tag>,
    text_decoration: Option<Tag>,
    font_weight: Option<Tag>,
    font_variant: Option<Tag>,
    font_style: Option<Tag>,
}

impl Tags {
    /// The tags for what differs inside.
    pub fn between(around: TextFormatting, inside: TextFormatting) -> Tags {
        Tags {
            vertical_align: changed(
                around.vertical_align,
                inside.vertical_align,
                align_tag(inside.vertical_align),
            ),
            text_decoration: changed(
                around.text_decoration,
                inside.text_decoration,
                decoration_tag(inside.text_decoration),
            ),
            font_weight: changed(
                around.font_weight,
                inside.font_weight,
                weight_tag(inside.font_weight),
            ),
            font_variant: changed(
                around.font_variant,
                inside.font_variant,
                variant_tag(inside.font_variant),
            ),
            font_style: changed(
                around.font_style,
                inside.font_style,
                style_tag(inside.font_style),
            ),
        }
    }

    /// The tags, the outermost first.
    pub fn outermost_first(self) -> [Option<Tag>; 5] {
        [
            self.vertical_align,
            self.text_decoration,
            self.font_weight,
            self.font_variant,
            self.font_style,
        ]
    }
}

/// The tag, where what it is for differs.
fn changed<T: Copy + PartialEq>(around: T, inside: T, format: Format) -> Option<Tag> {
    if around == inside {
        None
    } else {
        Some(Tag::Format(format))
    }
}

fn align_tag(align: VerticalAlign) -> Format {
    match align {
        VerticalAlign::Superscript => Format::Superscript,
        VerticalAlign::Subscript => Format::Subscript,
        VerticalAlign::Baseline => Format::Baseline,
    }
}

fn decoration_tag(decoration: TextDecoration) -> Format {
    match decoration {
        TextDecoration::Underline => Format::Underline,
        TextDecoration::None => Format::NotUnderlined,
    }
}

fn weight_tag(weight: FontWeight) -> Format {
    match weight {
        FontWeight::Bold => Format::Bold,
        FontWeight::Light => Format::Light,
        FontWeight::Normal => Format::NotBold,
    }
}

fn variant_tag(variant: FontVariant) -> Format {
    match variant {
        FontVariant::SmallCaps => Format::SmallCaps,
        FontVariant::Normal => Format::NoSmallCaps,
    }
}

fn style_tag(style: FontStyle) -> Format {
    match style {
        FontStyle::Italic => Format::Italic,
        FontStyle::Oblique => Format::Oblique,
        FontStyle::Normal => Format::Upright,
    }
}
