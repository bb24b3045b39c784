//! Locales by their language.
ghost use Rattle.std.specs.Prelude.{◌≡◌, map, option_map, bytes_eq};
ghost use Rattle.std.specs.Option.{option_eq};
ghost use Rattle.value_styles.specs.StyleView.{locale_view};
ghost use Rattle.driver_styles.specs.Terms.{locale_of};

use csl_base::locale::Locale;

/// The first locale of a language, or of none.
pub fn locale_of<'a>(locales: &'a [Locale], language: Option<&str>) -> Option<&'a Locale>
    ensures { option_map (λ l. locale_view l.now) result
        ≡ locale_of (option_map (λ t. t.now) language.entry) (map locale_view locales.now) }
{
    for locale in locales {
        if is_language(locale, language) {
            return Some(locale);
        }
    }
    None
}

/// Whether the locale is of this language, or where that is none, of no language.
pub fn is_language(locale: &Locale, language: Option<&str>) -> bool
    ensures { result ≡ option_eq bytes_eq (locale_view locale.now).lang
        (option_map (λ t. t.now) language.entry) }
{
    match (&locale.lang, language) {
        (Some(code), Some(language)) => code.0.as_str() == language,
        (None, None) => true,
        _ => false,
    }
}
