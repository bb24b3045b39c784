//! The texts of a style.

/// The texts of a style with its locales and options, which are UTF-8.
#[derive(Clone, Copy)]
pub struct SessionTexts<'t> {
    /// A style file.
    pub style: &'t [u8],
    /// A JSON list of the texts of locale files; an empty text stands for an empty list.
    pub locales: &'t [u8],
    /// A JSON object of options, as `cite_inputs::texts::CallTexts` has them; but the usual `form` is
    /// `text`. An empty text stands for an empty object.
    pub options: &'t [u8],
}
