//! Whole pages of HTML, with the style sheet of reference lists.
use program_files::error::CommandError;
use program_styles::sheet::STYLE_SHEET;
use std::alloc::{AllocError, Global};
use style_file::sections::{BibliographyOptions, SecondFieldAlign};

/// The languages that are written from right to left.
const RIGHT_TO_LEFT: &[&str] = &[
    "ar", "arc", "ckb", "dv", "fa", "he", "ps", "sd", "ug", "ur", "yi",
];

/// What a page says of itself.
#[derive(Clone, Copy)]
pub struct Page<'p> {
    /// The tag of its language.
    pub language: &'p str,
    pub title: &'p str,
}

impl Page<'_> {
    /// Prints what comes before the content.
    ///
    /// # Errors
    ///
    /// `Output`.
    pub fn begin(self, rt: &impl Print) -> Result<(), CommandError> {
        let language = if is_tag(self.language) {
            self.language
        } else {
            "und"
        };
        let direction = direction_of(language);
        let title = self.title;
        println!(rt; "<!DOCTYPE html>\n<html lang=\"{language}\" dir=\"{direction}\">\n<head>")?;
        println!(rt; "<meta charset=\"utf-8\">")?;
        println!(rt; "<meta name=\"viewport\" content=\"width=device-width, initial-scale=1\">")?;
        println!(rt; "<title>{title}</title>\n<style>\n{STYLE_SHEET}</style>\n</head>\n<body>")?;
        Ok(())
    }

    /// Prints what comes after the content.
    ///
    /// # Errors
    ///
    /// `Output`.
    pub fn end(self, rt: &impl Print) -> Result<(), CommandError> {
        Ok(println!(rt; "</body>\n</html>")?)
    }
}

/// How the items of a list are laid out.
#[derive(Clone, Copy)]
pub struct ListLayout {
    pub hanging_indent: bool,
    pub second_field_align: Option<SecondFieldAlign>,
    /// The distance of lines, as a multiple of the usual one.
    pub line_spacing: i64,
    /// The distance of items, as a multiple of a line's.
    pub entry_spacing: i64,
}

impl ListLayout {
    /// The layout that a style says.
    pub fn of_style(options: &BibliographyOptions) -> ListLayout {
        ListLayout {
            hanging_indent: options.hanging_indent,
            second_field_align: options.second_field_align,
            line_spacing: i64::from(options.line_spacing),
            entry_spacing: i64::from(options.entry_spacing),
        }
    }
}

/// Prints the opening tag of a list of items, by whose classes and properties the style sheet lays
/// it out.
///
/// # Errors
///
/// `Output`.
pub fn begin_list(rt: &impl Print, layout: ListLayout) -> Result<(), CommandError> {
    let indent = if layout.hanging_indent {
        " hanging-indent"
    } else {
        ""
    };
    let align = match layout.second_field_align {
        Some(SecondFieldAlign::Flush) => " second-field-align-flush",
        Some(SecondFieldAlign::Margin) => " second-field-align-margin",
        None => "",
    };
    let lines = layout.line_spacing;
    let entries = layout.entry_spacing;
    print!(rt; "<div id=\"refs\" class=\"references csl-bib-body{indent}{align}\" ")?;
    Ok(println!(rt; "style=\"--csl-line-spacing: {lines}; --csl-entry-spacing: {entries}\">")?)
}

/// The id of an item in a page: `ref-` and the id of its reference, where each character that an id
/// of HTML can't have is written by its number. Different references have different ids.
///
/// # Errors
///
/// Where memory is refused.
pub fn anchor(alloc: Global, id: &str) -> Result<String, AllocError> {
    let mut anchor = String::from_str(alloc, "ref-")?;
    for (place, letter) in id.char_indices() {
        if stays(id, place, letter) {
            anchor.push(letter)?;
        } else {
            let number = u32::from(letter);
            anchor.push_str(format!(in alloc; "__{number:x}_")?.as_str())?;
        }
    }
    Ok(anchor)
}

/// Whether a letter of an id at this place stands for itself. An underscore does where a letter
/// follows that does, so that none is taken for the beginning of a number.
fn stays(id: &str, place: usize, letter: char) -> bool {
    if letter == '_' {
        return match id.as_bytes().get(place.saturating_add(1)) {
            Some(next) => is_plain(char::from(*next)),
            None => false,
        };
    }
    is_plain(letter)
}

fn is_plain(letter: char) -> bool {
    letter.is_ascii_alphanumeric() || letter == '.' || letter == ':' || letter == '-'
}

/// Whether a text has the letters of a language tag.
fn is_tag(language: &str) -> bool {
    !language.is_empty()
        && language
            .chars()
            .all(|letter| letter.is_ascii_alphanumeric() || letter == '-')
}

/// The direction in which a language is written.
fn direction_of(language: &str) -> &'static str {
    let primary = match language.split_once('-') {
        Some((primary, _region)) => primary,
        None => language,
    };
    if RIGHT_TO_LEFT.iter().any(|known| *known == primary) {
        "rtl"
    } else {
        "ltr"
    }
}
