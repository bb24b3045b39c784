//! Laws of equality of the values that a style, its locales and an entry are made of.

pub use value_sources::laws::{
    entry_equality_decides, formatting_equality_decides, names_equality_decides,
    taxonomy_equality_decides,
};
pub use value_styles::laws::{
    choice_equality_decides, element_equality_decides, locale_equality_decides,
    options_equality_decides, style_equality_decides,
};
