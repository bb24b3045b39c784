//! The locale files of a call.
use crate::error::{CallError, refusal};
use crate::json::{json_value, wrong_item};
use crate::reader::TextReader;
use crate::style::file_refusal;
use crate::texts::TextName;
use cite_locale::tags::is_same_tag;
use fault_places::place::FaultPlace;
use std::alloc::{AllocError, Global};
use style_english::language::BUILT_IN_LANGUAGE;
use style_english::words::ENGLISH;
use style_file::fallback::{LocaleSource, lookup_order};
use style_file::locale::LocaleFile;
use style_reader::file::read_locale;

impl TextReader {
    /// The locale files in which words of this language are looked for: those of a JSON list, and
    /// American English where it isn't among them.
    ///
    /// # Errors
    ///
    /// `Fault` where the text is no list of locale files; `OutOfMemory`.
    pub(crate) fn locales(
        &mut self,
        bytes: &[u8],
        language: &str,
    ) -> Result<Vec<LocaleFile>, CallError> {
        let mut files = self.given_locales(bytes)?;
        if !has_file(&files, BUILT_IN_LANGUAGE) {
            files.push(built_in(self.alloc)?)?;
        }
        if !has_words(self.alloc, &files, language)? {
            let what = format!(in self.alloc;
                "no locale of `{language}`, its words are those of American English"
            )?;
            self.warn(TextName::Locales, FaultPlace::Whole, &what)?;
        }
        Ok(files)
    }

    /// The locale files of a JSON list. An empty text is an empty list.
    fn given_locales(&mut self, bytes: &[u8]) -> Result<Vec<LocaleFile>, CallError> {
        let alloc = self.alloc;
        let mut files = Vec::new(alloc);
        if bytes.is_empty() {
            return Ok(files);
        }
        let value = json_value(alloc, TextName::Locales, bytes)?;
        let Some(items) = value.as_array() else {
            let place = FaultPlace::Pointer(String::new(alloc));
            let why = "wanted a list of the texts of locale files";
            return Err(refusal(alloc, TextName::Locales, place, &why));
        };
        for (place, item) in items.iter().enumerate() {
            let Some(text) = item.as_str() else {
                let why = "wanted the text of a locale file";
                return Err(wrong_item(alloc, TextName::Locales, place, &why));
            };
            let file = self.locale(place, text)?;
            if has_file(&files, file.language.as_str()) {
                self.warn_of_repeated(place)?;
            }
            files.push(file)?;
        }
        Ok(files)
    }

    /// The locale file at this place of the list.
    fn locale(&mut self, place: usize, text: &str) -> Result<LocaleFile, CallError> {
        match read_locale(self.alloc, text) {
            Ok((file, warnings)) => {
                self.warn_of_file(TextName::Locale(place), &warnings)?;
                Ok(file)
            }
            Err(error) => Err(file_refusal(self.alloc, TextName::Locale(place), &error)),
        }
    }

    fn warn_of_repeated(&mut self, place: usize) -> Result<(), AllocError> {
        let what = "a locale before it is of the same language, so it is left out";
        self.warn(TextName::Locale(place), FaultPlace::Whole, &what)
    }
}

/// Whether one of the files is of this language.
fn has_file(files: &[LocaleFile], language: &str) -> bool {
    for file in files {
        if is_same_tag(file.language.as_str(), language) {
            return true;
        }
    }
    false
}

/// Whether one of the files in which words of this language are looked for is of this language,
/// in whatever dialect.
fn has_words(alloc: Global, files: &[LocaleFile], language: &str) -> Result<bool, AllocError> {
    for source in lookup_order(alloc, language)? {
        if let LocaleSource::File(tag) = source {
            if is_same_tag(without_dialect(tag), without_dialect(language))
                && has_file(files, tag)
            {
                return Ok(true);
            }
        }
    }
    Ok(false)
}

/// The language of a tag.
fn without_dialect(tag: &str) -> &str {
    match tag.split_once('-') {
        Some((language, _)) => language,
        None => tag,
    }
}

/// The words of American English that are built in.
fn built_in(alloc: Global) -> Result<LocaleFile, CallError> {
    match read_locale(alloc, ENGLISH) {
        Ok((file, _)) => Ok(file),
        Err(error) => Err(file_refusal(alloc, TextName::Locales, &error)),
    }
}
