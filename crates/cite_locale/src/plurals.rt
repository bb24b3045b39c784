//! When a label is plural (CSL 1.0.2, Label, plural).
use cite_texts::pages::has_several_pages;
use style_file::names::LabelPlural;
use style_file::variable::NumberVariable;

/// Whether the label of a number variable with this text is plural. Contextually, that of a count
/// of pages or volumes is so where it is higher than 1, and any other where the text has several
/// numbers.
pub fn is_plural(plural: LabelPlural, variable: NumberVariable, text: &str) -> bool {
    match plural {
        LabelPlural::Always => true,
        LabelPlural::Never => false,
        LabelPlural::Contextual => is_count(variable) && is_many(text) || has_several_pages(text),
    }
}

fn is_count(variable: NumberVariable) -> bool {
    matches!(
        variable,
        NumberVariable::NumberOfPages | NumberVariable::NumberOfVolumes
    )
}

/// Whether a text begins with a number higher than 1.
fn is_many(text: &str) -> bool {
    let text = text.trim_start();
    let behind = text.trim_start_matches(|c: char| c.is_ascii_digit());
    match text.strip_suffix(behind).unwrap_or("").parse::<u64>() {
        Ok(number) => number > 1,
        Err(_) => false,
    }
}
