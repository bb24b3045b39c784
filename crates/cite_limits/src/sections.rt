//! What a style writes around and between cites and items, and what words it has for languages.
use crate::budget::{Budget, longest_of};
use crate::cost::{Cost, Limited};
use crate::error::{Excess, LimitError, StylePlace};
use style_file::sections::{Bibliography, Citation, Layout};
use style_file::style::CslStyle;

/// How often the longest words of a language may stand in one cite.
const WORDS_OF_ONE: usize = 100;

/// Refuses a style that writes more around one cite or item than one may take, or whose words of a
/// language are so long, or so many, that a hundred of them do.
///
/// # Errors
///
/// `Exceeded`.
pub fn check_texts(style: &CslStyle, budget: &Budget) -> Result<(), LimitError> {
    let most = budget.of_one().bytes;
    check_length(citation_length(&style.citation), most, StylePlace::Citation)?;
    if let Some(bibliography) = &style.bibliography {
        let length = bibliography_length(bibliography);
        check_length(length, most, StylePlace::Bibliography)?;
    }
    for (place, locale) in style.locales.iter().enumerate() {
        check_length(
            longest_of(locale),
            most / WORDS_OF_ONE,
            StylePlace::Locale(place),
        )?;
    }
    check_lookups(budget)
}

/// Refuses locales in which finding words takes so long that a hundred of them take more than one
/// cite may.
fn check_lookups(budget: &Budget) -> Result<(), LimitError> {
    let most = budget.of_one().steps / WORDS_OF_ONE;
    if budget.words().steps > most {
        return Err(LimitError::Exceeded(Excess {
            what: Limited::Steps,
            most,
            place: StylePlace::Locale(0),
        }));
    }
    Ok(())
}

fn check_length(length: usize, most: usize, place: StylePlace) -> Result<(), LimitError> {
    if length > most {
        return Err(LimitError::Exceeded(Excess {
            what: Limited::Bytes,
            most,
            place,
        }));
    }
    Ok(())
}

/// The length of all that stands around a citation, and between its cites.
pub fn citation_length(citation: &Citation) -> usize {
    let options = &citation.options;
    layout_length(&citation.layout)
        .saturating_add(length(&options.cite_group_delimiter))
        .saturating_add(length(&options.year_suffix_delimiter))
        .saturating_add(length(&options.after_collapse_delimiter))
}

/// The length of all that stands around an item, and in place of a name that repeats.
pub fn bibliography_length(bibliography: &Bibliography) -> usize {
    layout_length(&bibliography.layout).saturating_add(length(
        &bibliography.options.subsequent_author_substitute,
    ))
}

fn layout_length(layout: &Layout) -> usize {
    layout
        .affixes
        .prefix
        .len()
        .saturating_add(layout.affixes.suffix.len())
        .saturating_add(layout.delimiter.len())
}

fn length(text: &Option<String>) -> usize {
    text.as_deref().unwrap_or("").len()
}

/// Takes the cost of what stands around and between so many cites and items, where each of so many
/// names may be replaced.
///
/// # Errors
///
/// `Exceeded` where there is less left.
pub fn spend_texts(
    style: &CslStyle,
    budget: &Budget,
    cites: usize,
    names: usize,
) -> Result<(), LimitError> {
    let between = citation_length(&style.citation).saturating_mul(cites);
    budget.spend(Cost::of_bytes(between), StylePlace::Citation)?;
    let around = match &style.bibliography {
        Some(bibliography) => bibliography_length(bibliography).saturating_mul(names),
        None => 0,
    };
    budget.spend(Cost::of_bytes(around), StylePlace::Bibliography)
}
