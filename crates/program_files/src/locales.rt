//! The locale files of a command.
use crate::error::CommandError;
use crate::files::{is_absent, text_of};
use crate::reports::{show_style_warnings, show_warning, style_refused};
use program_command::arguments::Options;
use program_command::one_line::OneLine;
use std::alloc::Global;
use std::rt::Files;
use style_english::language::BUILT_IN_LANGUAGE;
use style_english::words::ENGLISH;
use style_file::fallback::{LocaleSource, is_same_language, lookup_order};
use style_file::locale::LocaleFile;
use style_reader::file::read_locale;

/// Where locale files are by default.
const LOCALES: &str = "/usr/share/citation-style-language/locales";

/// The locale files in which words of a language are looked for (CSL 1.0.2, "Locale Fallback"). A
/// file that isn't there is left out, and so is one that can't be read. A warning reports the
/// latter, and a language without any file. The words that are built in are those of American
/// English.
///
/// # Errors
///
/// `Refused` where a file is no locale; `OutOfMemory`.
pub fn locales_of(
    rt: &(impl Files + Input + Eprint + AllocGlobal),
    options: &Options,
    language: &str,
) -> Result<Vec<LocaleFile>, CommandError> {
    let folder = options.locales.as_deref();
    let mut files = Vec::new(rt.alloc());
    let mut is_found = is_same_language(language, "en")
        || is_same_language(language, BUILT_IN_LANGUAGE);
    for source in lookup_order(rt.alloc(), language)? {
        if let LocaleSource::File(tag) = source {
            if let Some(file) = locale_of(rt, folder, tag)? {
                is_found = is_found || !is_same_language(tag, BUILT_IN_LANGUAGE);
                files.push(file)?;
            }
        }
    }
    if !is_found {
        let language = OneLine(language);
        let _ = eprintln!(rt; "gamhilon: warning: no locale file of {language} is there");
    }
    Ok(files)
}

/// The locale file with this language tag, if there is one.
fn locale_of(
    rt: &(impl Files + Input + Eprint + AllocGlobal),
    folder: Option<&str>,
    tag: &str,
) -> Result<Option<LocaleFile>, CommandError> {
    let is_built_in = is_same_language(tag, BUILT_IN_LANGUAGE);
    if is_built_in && folder.is_none() {
        return Ok(Some(built_in(rt.alloc())?));
    }
    let folder = folder.unwrap_or(LOCALES);
    let path = format!(in rt.alloc(); "{folder}/locales-{tag}.xml")?;
    match text_of(rt, path.as_str()) {
        Ok(text) => Ok(Some(locale_in(rt, path.as_str(), text.as_str())?)),
        Err(CommandError::Unreadable { path, why }) => {
            if !is_absent(rt, path.as_str()) {
                let why = format!(in rt.alloc(); "can't be read, left out: {why}")?;
                show_warning(rt, path.as_str(), &why)?;
            }
            unread_locale(rt.alloc(), is_built_in)
        }
        Err(error) => Err(error),
    }
}

/// What is in the place of a locale file that isn't read.
fn unread_locale(alloc: Global, is_built_in: bool) -> Result<Option<LocaleFile>, CommandError> {
    if is_built_in {
        return Ok(Some(built_in(alloc)?));
    }
    Ok(None)
}

/// The locale in the text of a file. What is odd in it is printed.
fn locale_in(
    rt: &(impl Eprint + AllocGlobal),
    path: &str,
    text: &str,
) -> Result<LocaleFile, CommandError> {
    match read_locale(rt.alloc(), text) {
        Ok((file, warnings)) => {
            show_style_warnings(rt, path, &warnings)?;
            Ok(file)
        }
        Err(error) => Err(style_refused(rt.alloc(), path, &error)?),
    }
}

/// The words of American English that are built in.
fn built_in(alloc: Global) -> Result<LocaleFile, CommandError> {
    match read_locale(alloc, ENGLISH) {
        Ok((file, _)) => Ok(file),
        Err(error) => Err(style_refused(alloc, BUILT_IN_LANGUAGE, &error)?),
    }
}
