//! The locator of a cite, which may begin with a label of its own, as `vol. 1, fol. 2`.
use crate::cite::CiteLocator;
use crate::values::plain_value;
use cite_locale::chain::LocaleChain;
use cite_locale::locators::locator_parts;
use reference_values::rich_text::RichText;
use std::alloc::{AllocError, Global};
use style_file::locator::LocatorType;

/// A locator as it is written.
#[derive(Drop)]
pub(crate) struct ShownLocator {
    pub kind: LocatorType,
    /// What follows its label.
    pub text: RichText,
    /// What its label counts.
    pub counted: String,
}

/// A locator as it is written. Where its text begins with a label, that is its kind; but one that
/// is an entry of a dictionary has no label in its text.
///
/// # Errors
///
/// Where memory is refused.
pub(crate) fn shown_locator(
    alloc: Global,
    locale: &LocaleChain<'_>,
    locator: &CiteLocator,
) -> Result<ShownLocator, AllocError> {
    let plain = locator.text.plain(alloc)?;
    let whole = plain.as_str().trim();
    let parts = match locator.kind {
        LocatorType::SubVerbo => Vec::new(alloc),
        kind => locator_parts(alloc, locale, whole, kind)?,
    };
    let Some(first) = parts.first() else {
        return Ok(ShownLocator {
            kind: locator.kind,
            text: locator.text.clone()?,
            counted: String::from_str(alloc, whole)?,
        });
    };
    let counted = String::from_str(alloc, first.text)?;
    let text = match whole.get(first.start..) {
        Some(behind) if first.start > 0 => plain_value(alloc, behind)?,
        _ => locator.text.clone()?,
    };
    Ok(ShownLocator {
        kind: first.label,
        text,
        counted,
    })
}
