//! The texts of a call.
use std::fmt;

/// The texts of a call, which are UTF-8.
#[derive(Clone, Copy)]
pub struct CallTexts<'t> {
    /// A style file.
    pub style: &'t [u8],
    /// A JSON list of the texts of locale files; an empty text stands for an empty list.
    pub locales: &'t [u8],
    /// The items that may be cited: CSL-JSON, BibTeX, BibLaTeX or RIS.
    pub items: &'t [u8],
    /// A JSON list of citations, which are lists of cites.
    pub citations: &'t [u8],
    /// A JSON object of options; an empty text stands for an empty object. `locale` is a language
    /// tag, in place of the style's language; where `nocite` is true, all items are listed;
    /// `abbreviations` has short forms of texts (docs/STYLE_FILES.md); `from` is the form of the
    /// items, which else is that of their beginning.
    pub options: &'t [u8],
}

/// One of the texts of a call.
#[derive(Clone, Copy, Debug, PartialEq, Eq)]
pub enum TextName {
    Style,
    /// The list of locale files.
    Locales,
    /// The locale file at this place of the list, from 0.
    Locale(usize),
    Items,
    Citations,
    Options,
}

impl fmt::Display for TextName {
    fn fmt<W: fmt::Write>(&self, f: &mut fmt::Formatter<W>) -> fmt::Result {
        match self {
            TextName::Style => f.write_str("style"),
            TextName::Locales => f.write_str("locales"),
            TextName::Locale(place) => write!(f, "locales/{place}"),
            TextName::Items => f.write_str("items"),
            TextName::Citations => f.write_str("citations"),
            TextName::Options => f.write_str("options"),
        }
    }
}
