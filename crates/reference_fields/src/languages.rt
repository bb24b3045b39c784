//! Languages.
use crate::tables::row_of;
use std::alloc::{AllocError, Global};

/// The languages of babel and polyglossia, with the regions that pandoc gives them.
const LANGUAGES: &[(&str, &str)] = &[
    ("acadian", "fr-CA"),
    ("afrikaans", "af-ZA"),
    ("american", "en-US"),
    ("arabic", "ar"),
    ("australian", "en-GB"),
    ("austrian", "de-AT"),
    ("basque", "eu"),
    ("brazil", "pt-BR"),
    ("brazilian", "pt-BR"),
    ("british", "en-GB"),
    ("bulgarian", "bg-BG"),
    ("canadian", "en-US"),
    ("canadien", "fr-CA"),
    ("catalan", "ca-AD"),
    ("croatian", "hr-HR"),
    ("czech", "cs-CZ"),
    ("danish", "da-DK"),
    ("dutch", "nl-NL"),
    ("english", "en-US"),
    ("estonian", "et-EE"),
    ("farsi", "fa-IR"),
    ("finnish", "fi-FI"),
    ("francais", "fr-FR"),
    ("french", "fr-FR"),
    ("german", "de-DE"),
    ("germanb", "de-DE"),
    ("greek", "el-GR"),
    ("hebrew", "he-IL"),
    ("hungarian", "hu-HU"),
    ("icelandic", "is-IS"),
    ("italian", "it-IT"),
    ("japanese", "ja-JP"),
    ("latin", "la"),
    ("latvian", "lv-LV"),
    ("lithuanian", "lt-LT"),
    ("magyar", "hu-HU"),
    ("mongolian", "mn-MN"),
    ("naustrian", "de-AT"),
    ("newzealand", "en-GB"),
    ("ngerman", "de-DE"),
    ("norsk", "nb-NO"),
    ("nynorsk", "nn-NO"),
    ("polish", "pl-PL"),
    ("polutonikogreek", "el-GR"),
    ("portugues", "pt-PT"),
    ("portuguese", "pt-PT"),
    ("romanian", "ro-RO"),
    ("russian", "ru-RU"),
    ("serbian", "sr-RS"),
    ("serbianc", "sr-RS"),
    ("slovak", "sk-SK"),
    ("slovene", "sl-SI"),
    ("spanish", "es-ES"),
    ("swedish", "sv-SE"),
    ("swissgerman", "de-CH"),
    ("nswissgerman", "de-CH"),
    ("thai", "th-TH"),
    ("turkish", "tr-TR"),
    ("ukenglish", "en-GB"),
    ("ukrainian", "uk-UA"),
    ("usenglish", "en-US"),
    ("vietnamese", "vi-VN"),
];

/// The tag of the language that a name in small letters stands for: one of babel, polyglossia or ISO
/// 639; empty where it stands for none.
///
/// # Errors
/// Where memory is refused.
pub fn language_of(alloc: Global, name: &str) -> Result<String, AllocError> {
    if let Some(tag) = row_of(LANGUAGES, name) {
        return String::from_str(alloc, tag);
    }
    match name.split_once(['-', '_']) {
        None if is_code(name, 3) => String::from_str(alloc, name),
        Some((language, region)) if is_code(language, 3) && is_code(region, 2) => {
            let region = region.to_ascii_uppercase(alloc)?;
            let region = region.as_str();
            format!(in alloc; "{language}-{region}")
        }
        _ => Ok(String::new(alloc)),
    }
}

/// Whether a text is a code of two small letters, or of as many as this.
fn is_code(text: &str, most: usize) -> bool {
    text.len() >= 2 && text.len() <= most && text.bytes().all(|byte| byte.is_ascii_lowercase())
}
