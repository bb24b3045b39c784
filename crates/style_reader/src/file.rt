//! Reading a file.
ghost use Rattle.std.specs.Prelude.{IfErr};
ghost use Rattle.style_elements.specs.Places.{IsErrorIn};

use crate::locale::locale_of;
use crate::style::style_of;
use std::alloc::{AllocError, Global};
use style_elements::attributes::{attribute, needed};
use style_elements::children::{NAMESPACE, local_name};
use style_elements::error::StyleError;
use style_elements::fault::{Root, Wanted};
use style_elements::macros::MacroTable;
use style_elements::reading::Reading;
use style_elements::refusal::Refusal;
use style_elements::stop::Stop;
use style_elements::warning::{Note, Oddity, Warning, warnings_of};
use style_file::locale::LocaleFile;
use style_file::style::StyleFile;
use style_xml::error::XmlError;
use style_xml::reader::read;
use style_xml::tree::Element;

/// What a file is.
#[derive(Drop)]
pub enum CslFile {
    Style(StyleFile),
    Locale(LocaleFile),
}

/// Reads a style, with warnings in the order of their places.
///
/// # Errors
///
/// `Malformed` where the text is no XML document that is read; `Refused` where it is no style, with
/// the first place where that was found; `OutOfMemory` where memory is refused.
pub fn read_style(alloc: Global, text: &str) -> Result<(StyleFile, Vec<Warning>), StyleError>
    ensures { IfErr result (IsErrorIn text.now) }
{
    match root_of(alloc, text) {
        Ok(root) => placed(alloc, text, style_in(alloc, &root)),
        Err(error) => Err(error),
    }
}

/// Reads a locale, with warnings in the order of their places.
///
/// # Errors
///
/// Those of `read_style`.
pub fn read_locale(alloc: Global, text: &str) -> Result<(LocaleFile, Vec<Warning>), StyleError>
    ensures { IfErr result (IsErrorIn text.now) }
{
    match root_of(alloc, text) {
        Ok(root) => placed(alloc, text, locale_in(alloc, &root)),
        Err(error) => Err(error),
    }
}

/// Reads a style or a locale, by its root, with warnings in the order of their places.
///
/// # Errors
///
/// Those of `read_style`.
pub fn read_file(alloc: Global, text: &str) -> Result<(CslFile, Vec<Warning>), StyleError>
    ensures { IfErr result (IsErrorIn text.now) }
{
    match root_of(alloc, text) {
        Ok(root) => placed(alloc, text, file_in(alloc, &root)),
        Err(error) => Err(error),
    }
}

/// What is wrong with a style or a locale, by its root, in the order of the places: nothing, or one
/// fault where the text is no XML document that is read, or else 20 faults at most.
///
/// # Errors
///
/// Where memory is refused.
pub fn faults_in_file(alloc: Global, text: &str) -> Result<Vec<StyleError>, AllocError> {
    let mut errors = Vec::new(alloc);
    match root_of(alloc, text) {
        Ok(root) => match file_in(alloc, &root) {
            Ok(_) => Ok(errors),
            Err(refusal) => refusal.all_in_text(alloc, text),
        },
        Err(StyleError::OutOfMemory) => Err(AllocError),
        Err(error) => {
            errors.push(error)?;
            Ok(errors)
        }
    }
}

/// The root of the document that the text is.
fn root_of(alloc: Global, text: &str) -> Result<Element, StyleError>
    ensures { IfErr result (IsErrorIn text.now) }
{
    match read(alloc, text) {
        Ok(root) => Ok(root),
        Err(XmlError::Malformed(fault, place)) => Err(StyleError::Malformed(fault, place)),
        Err(XmlError::OutOfMemory) => Err(StyleError::OutOfMemory),
    }
}

/// What was read of the text, with the places of its warnings, or of what is wrong first.
fn placed<T: Drop>(
    alloc: Global,
    text: &str,
    outcome: Result<(T, Vec<Note>), Refusal>,
) -> Result<(T, Vec<Warning>), StyleError>
    ensures { IfErr result (IsErrorIn text.now) }
{
    match outcome {
        Ok((value, notes)) => with_warnings(alloc, text, value, notes),
        Err(refusal) => Err(refusal.first_in_text(text)),
    }
}

/// A value with the warnings for its notes.
fn with_warnings<T: Drop>(
    alloc: Global,
    text: &str,
    value: T,
    notes: Vec<Note>,
) -> Result<(T, Vec<Warning>), StyleError>
    ensures { IfErr result (IsErrorIn text.now) }
{
    match warnings_of(alloc, text, notes) {
        Ok(warnings) => Ok((value, warnings)),
        Err(_) => Err(StyleError::OutOfMemory),
    }
}

/// What the document with this root is.
fn file_in(alloc: Global, root: &Element) -> Result<(CslFile, Vec<Note>), Refusal> {
    match local_name(root) {
        "style" => {
            let (style, notes) = style_in(alloc, root)?;
            Ok((CslFile::Style(style), notes))
        }
        "locale" => {
            let (locale, notes) = locale_in(alloc, root)?;
            Ok((CslFile::Locale(locale), notes))
        }
        other => Err(other_root(alloc, root, other, Root::Either)),
    }
}

/// The root of this name isn't what is wanted.
fn other_root(alloc: Global, root: &Element, name: &str, wanted: Root) -> Refusal {
    let stop = Stop::at(alloc, root.offset, name, Wanted::Root(wanted));
    Refusal::of_stop(alloc, stop)
}

/// The style with this root.
fn style_in(alloc: Global, root: &Element) -> Result<(StyleFile, Vec<Note>), Refusal> {
    let name = local_name(root);
    if name != "style" {
        return Err(other_root(alloc, root, name, Root::Style));
    }
    let mut reading = match reading_of_style(alloc, root) {
        Ok(reading) => reading,
        Err(stop) => return Err(Refusal::of_stop(alloc, stop)),
    };
    let style = style_below(root, &mut reading);
    reading.settled(style)
}

/// A reader at the beginning of a style. What is wrong with the macros as a whole is noted.
fn reading_of_style(alloc: Global, root: &Element) -> Result<Reading<'_>, Stop> {
    match MacroTable::of_style(alloc, root) {
        Ok(macros) => Ok(Reading::new(alloc, macros)),
        Err(stop) => {
            let mut reading = Reading::new(alloc, MacroTable::unordered(alloc, root)?);
            reading.go_on::<()>(Err(stop))?;
            Ok(reading)
        }
    }
}

fn style_below(root: &Element, reading: &mut Reading<'_>) -> Result<StyleFile, Stop> {
    check_root(root, reading)?;
    style_of(root, reading)
}

/// The locale file with this root.
fn locale_in(alloc: Global, root: &Element) -> Result<(LocaleFile, Vec<Note>), Refusal> {
    let name = local_name(root);
    if name != "locale" {
        return Err(other_root(alloc, root, name, Root::Locale));
    }
    let mut reading = Reading::new(alloc, MacroTable::empty(alloc));
    let file = locale_file_of(root, &mut reading);
    reading.settled(file)
}

/// The locale file that this root is.
fn locale_file_of(root: &Element, reading: &mut Reading<'_>) -> Result<LocaleFile, Stop> {
    check_root(root, reading)?;
    let language = needed(reading.alloc, root, "xml:lang")?.value.clone()?;
    Ok(LocaleFile {
        language,
        locale: locale_of(root, reading)?,
    })
}

/// Refuses a root of another namespace, and notes a version that isn't 1.0.
fn check_root(root: &Element, reading: &mut Reading<'_>) -> Result<(), Stop> {
    check_namespace(root, reading)?;
    let Some(version) = attribute(root, "version") else {
        return reading.note(root.offset, root.name.as_str(), Oddity::NoVersion);
    };
    let value = version.value.as_str();
    if value == "1.0" || value.starts_with("1.0.") {
        Ok(())
    } else {
        reading.note(version.offset, value, Oddity::Version)
    }
}

fn check_namespace(root: &Element, reading: &mut Reading<'_>) -> Result<(), Stop> {
    let is_prefixed = local_name(root).len() < root.name.len();
    let declaration = if is_prefixed { "xmlns:cs" } else { "xmlns" };
    let Some(namespace) = attribute(root, declaration) else {
        return reading.note(root.offset, root.name.as_str(), Oddity::NoNamespace);
    };
    let found = namespace.value.as_str();
    if found == NAMESPACE {
        Ok(())
    } else {
        Err(reading.stop(namespace.offset, found, Wanted::Namespace))
    }
}
