//! The tags of HTML that is written.
ghost use Rattle.std.specs.Prelude.{◌≡◌, []};
ghost use Rattle.write_html.specs.Nesting.{Closes, Opens};
ghost use Rattle.write_html.specs.Names.{block_name, format_name, tag_name};
ghost use Rattle.write_html.specs.Text.{text_in};

use style_file::formatting::Display;

/// A tag of formatting.
#[derive(Clone, Copy, PartialEq, Eq)]
pub(crate) enum Format {
    Italic,
    Oblique,
    Upright,
    SmallCaps,
    NoSmallCaps,
    Bold,
    Light,
    NotBold,
    Underline,
    NotUnderlined,
    Superscript,
    Subscript,
    Baseline,
}

/// A tag of formatting, or of what no other tag may reach over.
#[derive(Clone, Copy, PartialEq, Eq)]
pub(crate) enum Tag {
    Format(Format),
    Link,
    Block,
}

impl Format {
    pub fn opening(self) -> &'static str
        ensures opens { Opens result.now (format_name self) }
        ensures no_text { text_in result.now ≡ [] }
    {
        match self {
            Format::Italic => "<i>",
            Format::Oblique => "<span style=\"font-style:oblique;\">",
            Format::Upright => "<span style=\"font-style:normal;\">",
            Format::SmallCaps => "<span style=\"font-variant:small-caps;\">",
            Format::NoSmallCaps => "<span style=\"font-variant:normal;\">",
            Format::Bold => "<b>",
            Format::Light => "<span style=\"font-weight:lighter;\">",
            Format::NotBold => "<span style=\"font-weight:normal;\">",
            Format::Underline => "<span style=\"text-decoration:underline;\">",
            Format::NotUnderlined => "<span style=\"text-decoration:none;\">",
            Format::Superscript => "<sup>",
            Format::Subscript => "<sub>",
            Format::Baseline => "<span style=\"baseline\">",
        }
    }
}

impl Tag {
    pub fn closing(self) -> &'static str
        ensures closes { Closes result.now (tag_name self) }
        ensures no_text { text_in result.now ≡ [] }
    {
        match self {
            Tag::Format(Format::Italic) => "</i>",
            Tag::Format(Format::Bold) => "</b>",
            Tag::Format(Format::Superscript) => "</sup>",
            Tag::Format(Format::Subscript) => "</sub>",
            Tag::Format(_) => "</span>",
            Tag::Link => "</a>",
            Tag::Block => "</div>",
        }
    }
}

/// The opening tag of an element that is set off.
pub(crate) fn opening_of_display(display: Display) -> &'static str
    ensures opens { Opens result.now block_name }
    ensures no_text { text_in result.now ≡ [] }
{
    match display {
        Display::Block => "<div class=\"csl-block\">",
        Display::LeftMargin => "<div class=\"csl-left-margin\">",
        Display::RightInline => "<div class=\"csl-right-inline\">",
        Display::Indent => "<div class=\"csl-indent\">",
    }
}
