//! How an element's text is set (CSL 1.0.2, "Affixes", "Display", "Formatting", "Text-case").

/// The value of `font-style`.
#[derive(Clone, Copy, PartialEq, Eq)]
pub enum FontStyle {
    Normal,
    Italic,
    Oblique,
}

/// The value of `font-variant`.
#[derive(Clone, Copy, PartialEq, Eq)]
pub enum FontVariant {
    Normal,
    SmallCaps,
}

/// The value of `font-weight`.
#[derive(Clone, Copy, PartialEq, Eq)]
pub enum FontWeight {
    Normal,
    Bold,
    Light,
}

/// The value of `text-decoration`.
#[derive(Clone, Copy, PartialEq, Eq)]
pub enum TextDecoration {
    None,
    Underline,
}

/// The value of `vertical-align`.
#[derive(Clone, Copy, PartialEq, Eq)]
pub enum VerticalAlign {
    Baseline,
    Superscript,
    Subscript,
}

/// How text is set. What is absent stays as it is around the element.
#[derive(Clone, Copy, PartialEq, Eq)]
pub struct Formatting {
    pub font_style: Option<FontStyle>,
    pub font_variant: Option<FontVariant>,
    pub font_weight: Option<FontWeight>,
    pub text_decoration: Option<TextDecoration>,
    pub vertical_align: Option<VerticalAlign>,
}

/// What stands before and behind an element that writes something. Both are empty by default.
#[derive(Drop)]
pub struct Affixes {
    pub prefix: String,
    pub suffix: String,
}

/// The value of `display`: how an element is set off in an item of the bibliography.
#[derive(Clone, Copy, PartialEq, Eq)]
pub enum Display {
    Block,
    LeftMargin,
    RightInline,
    Indent,
}

/// The value of `text-case`.
#[derive(Clone, Copy, PartialEq, Eq)]
pub enum TextCase {
    Lowercase,
    Uppercase,
    CapitalizeFirst,
    CapitalizeAll,
    Sentence,
    Title,
}
