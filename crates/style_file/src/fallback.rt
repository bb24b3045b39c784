//! Where the words of a language are looked for (CSL 1.0.2, "Locale Fallback").
use std::alloc::{AllocError, Global};

/// A place that may have a term, a date or an option for a language.
#[derive(Clone, Copy)]
pub enum LocaleSource<'a> {
    /// The `locale` of the style with this language tag.
    Style(&'a str),
    /// The `locale` of the style with no language tag.
    StyleForAll,
    /// The locale file with this language tag.
    File(&'a str),
}

/// The primary dialects of the languages that have locale files, by language.
const PRIMARY_DIALECTS: &[(&str, &str)] = &[
    ("af", "af-ZA"),
    ("bg", "bg-BG"),
    ("ca", "ca-AD"),
    ("cs", "cs-CZ"),
    ("cy", "cy-GB"),
    ("da", "da-DK"),
    ("de", "de-DE"),
    ("el", "el-GR"),
    ("en", "en-US"),
    ("es", "es-ES"),
    ("et", "et-EE"),
    ("fa", "fa-IR"),
    ("fi", "fi-FI"),
    ("fr", "fr-FR"),
    ("he", "he-IL"),
    ("hi", "hi-IN"),
    ("hr", "hr-HR"),
    ("hu", "hu-HU"),
    ("id", "id-ID"),
    ("is", "is-IS"),
    ("it", "it-IT"),
    ("ja", "ja-JP"),
    ("km", "km-KH"),
    ("ko", "ko-KR"),
    ("lt", "lt-LT"),
    ("lv", "lv-LV"),
    ("mn", "mn-MN"),
    ("nb", "nb-NO"),
    ("nl", "nl-NL"),
    ("nn", "nn-NO"),
    ("pl", "pl-PL"),
    ("pt", "pt-PT"),
    ("ro", "ro-RO"),
    ("ru", "ru-RU"),
    ("sk", "sk-SK"),
    ("sl", "sl-SI"),
    ("sr", "sr-RS"),
    ("sv", "sv-SE"),
    ("th", "th-TH"),
    ("tr", "tr-TR"),
    ("uk", "uk-UA"),
    ("vi", "vi-VN"),
    ("zh", "zh-CN"),
];

/// The language whose locale file stands for all that others lack.
const LAST_RESORT: &str = "en-US";

/// Whether two language tags are the same; case is ignored.
pub fn is_same_language(tag: &str, other: &str) -> bool {
    tag.eq_ignore_ascii_case(other)
}

/// Where each term, date and option is looked for in turn, for a document in this language: in the
/// style's locales for the dialect, for the language and for all; then in the locale files of the
/// dialect, of the language's primary dialect, and of en-US. For a language without a dialect the
/// dialect is the primary one.
///
/// # Errors
///
/// Where memory is refused.
pub fn lookup_order(alloc: Global, tag: &str) -> Result<Vec<LocaleSource<'_>>, AllocError> {
    let language = tag.split_once('-').map_or(tag, |parts| parts.0);
    let primary = primary_dialect(language).unwrap_or(language);
    let dialect = if is_same_language(tag, language) {
        primary
    } else {
        tag
    };
    let mut order = Vec::new(alloc);
    order.push(LocaleSource::Style(dialect))?;
    if !is_same_language(language, dialect) {
        order.push(LocaleSource::Style(language))?;
    }
    order.push(LocaleSource::StyleForAll)?;
    order.push(LocaleSource::File(dialect))?;
    if !is_same_language(primary, dialect) {
        order.push(LocaleSource::File(primary))?;
    }
    if !is_same_language(LAST_RESORT, dialect) && !is_same_language(LAST_RESORT, primary) {
        order.push(LocaleSource::File(LAST_RESORT))?;
    }
    Ok(order)
}

/// The primary dialect of a language.
fn primary_dialect(language: &str) -> Option<&'static str> {
    for row in PRIMARY_DIALECTS {
        if is_same_language(row.0, language) {
            return Some(row.1);
        }
    }
    None
}
