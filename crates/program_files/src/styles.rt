//! The style of a command.
use crate::error::CommandError;
use crate::files::{is_absent, text_of};
use crate::near_styles::near_style;
use crate::reports::{refused, show_style_warnings, style_refused};
use cite_locale::tags::usual_tag;
use program_command::arguments::Options;
use program_styles::styles::style_named;
use std::alloc::{AllocError, Global};
use std::fs;
use std::rt::Files;
use style_english::language::DEFAULT_LANGUAGE;
use style_file::style::{CslStyle, DependentStyle, StyleFile};
use style_reader::file::read_style;

/// Where styles are by default.
const STYLES: &str = "/usr/share/citation-style-language/styles";

/// A style, and the language that a style which depends on it asks for.
#[derive(Drop)]
pub struct FoundStyle {
    pub style: CslStyle,
    pub language: Option<String>,
    /// Where its file is, or the name of one that is built in.
    pub path: String,
    /// The text of its file.
    pub text: String,
}

/// What is in a style file, and its text.
#[derive(Drop)]
struct ReadStyle {
    file: StyleFile,
    text: String,
}

impl FoundStyle {
    /// The tag of the language in which its words are: that of the command, or else of the style.
    ///
    /// # Errors
    ///
    /// Where memory is refused.
    pub fn language(&self, alloc: Global, options: &Options) -> Result<String, AllocError> {
        let told = options
            .locale
            .as_deref()
            .or(self.language.as_deref())
            .or(self.style.default_locale.as_deref());
        usual_tag(alloc, told.unwrap_or(DEFAULT_LANGUAGE))
    }
}

/// The style of a command, with that on which it depends in its place. What is odd in it is
/// printed. A style that is built in goes before one of its name in the default folder, and after
/// it in a folder that the command line names.
///
/// # Errors
///
/// Those of `text_of`; `Refused` where it is no style, or depends on one that can't be read, or
/// that depends on another itself.
pub fn style_of(
    rt: &(impl Files + Input + Eprint + AllocGlobal + Clone + Drop),
    options: &Options,
) -> Result<FoundStyle, CommandError> {
    let name = options.style.as_str();
    let folder = options.styles.as_deref().unwrap_or(STYLES);
    let path = style_path(rt, folder, name)?;
    if let Some(text) = style_named(name) {
        if options.styles.is_none() || is_absent(rt, path.as_str()) {
            return packaged(rt, name, text);
        }
    }
    let read = match style_at(rt, path.as_str()) {
        Ok(read) => read,
        Err(CommandError::Unreadable { path, why }) => {
            return Err(no_style(rt, folder, name, path, why)?);
        }
        Err(error) => return Err(error),
    };
    let ReadStyle { file, text } = read;
    match file {
        StyleFile::Independent(style) => Ok(FoundStyle {
            style,
            language: None,
            path,
            text,
        }),
        StyleFile::Dependent(dependent) => parent_of(rt, folder, path.as_str(), dependent),
    }
}

/// The error of a style that can't be read, with a guess at which one a name meant.
fn no_style<R: Files + AllocGlobal + Clone + Drop>(
    rt: &R,
    folder: &str,
    name: &str,
    path: String,
    why: String,
) -> Result<CommandError, AllocError> {
    let near = if is_path(name) {
        None
    } else {
        near_style(rt, folder, name)?
    };
    let why = match near {
        Some(near) => {
            let (near, why) = (near.as_str(), why.as_str());
            format!(in rt.alloc(); "{why}; is it `{near}`?")?
        }
        None => why,
    };
    Ok(CommandError::Unreadable { path, why })
}

/// Whether this is the path of a style.
fn is_path(style: &str) -> bool {
    style.ends_with(".csl") || style.contains('/') || style == "-"
}

/// The style of this name that is built in, with its file.
fn packaged(
    rt: &(impl Eprint + AllocGlobal),
    name: &str,
    text: &str,
) -> Result<FoundStyle, CommandError> {
    match style_in(rt, name, text)? {
        StyleFile::Independent(style) => Ok(FoundStyle {
            style,
            language: None,
            path: String::from_str(rt.alloc(), name)?,
            text: String::from_str(rt.alloc(), text)?,
        }),
        StyleFile::Dependent(_) => {
            let why = "it depends on another style";
            Err(refused(rt.alloc(), name, &why)?)
        }
    }
}

/// Where a style is, by its name or its path.
fn style_path(
    rt: &(impl Files + AllocGlobal),
    folder: &str,
    style: &str,
) -> Result<String, CommandError> {
    let alloc = rt.alloc();
    if is_path(style) {
        return Ok(String::from_str(alloc, style)?);
    }
    let path = format!(in alloc; "{folder}/{style}.csl")?;
    if fs::read(rt, path.as_str()).is_ok() {
        return Ok(path);
    }
    let dependent = format!(in alloc; "{folder}/dependent/{style}.csl")?;
    if fs::read(rt, dependent.as_str()).is_ok() {
        return Ok(dependent);
    }
    Ok(path)
}

/// The style in a file.
fn style_at(
    rt: &(impl Files + Input + Eprint + AllocGlobal),
    path: &str,
) -> Result<ReadStyle, CommandError> {
    let text = text_of(rt, path)?;
    Ok(ReadStyle {
        file: style_in(rt, path, text.as_str())?,
        text,
    })
}

/// The style in the text of a file. What is odd in it is printed.
fn style_in(
    rt: &(impl Eprint + AllocGlobal),
    path: &str,
    text: &str,
) -> Result<StyleFile, CommandError> {
    match read_style(rt.alloc(), text) {
        Ok((style, warnings)) => {
            show_style_warnings(rt, path, &warnings)?;
            Ok(style)
        }
        Err(error) => Err(style_refused(rt.alloc(), path, &error)?),
    }
}

/// The style on which the one at a path depends: that of the folder whose name ends the link to it.
fn parent_of(
    rt: &(impl Files + Input + Eprint + AllocGlobal),
    folder: &str,
    path: &str,
    dependent: DependentStyle,
) -> Result<FoundStyle, CommandError> {
    let DependentStyle {
        info: _,
        default_locale,
        parent,
    } = dependent;
    let parent = parent_path(rt.alloc(), folder, parent.as_str())?;
    let read = match style_at(rt, parent.as_str()) {
        Ok(read) => read,
        Err(error) => return Err(parent_refused(rt.alloc(), path, error)?),
    };
    let ReadStyle { file, text } = read;
    match file {
        StyleFile::Independent(style) => Ok(FoundStyle {
            style,
            language: default_locale,
            path: parent,
            text,
        }),
        StyleFile::Dependent(_) => {
            let why = "it depends on a style itself";
            Err(refused(rt.alloc(), parent.as_str(), &why)?)
        }
    }
}

/// Where the style is to which a link leads: in the folder, by the name that ends the link.
fn parent_path(alloc: Global, folder: &str, link: &str) -> Result<String, AllocError> {
    let name = last_part(link);
    format!(in alloc; "{folder}/{name}.csl")
}

/// The error of the style at a path whose parent ended with this one.
fn parent_refused(
    alloc: Global,
    path: &str,
    error: CommandError,
) -> Result<CommandError, AllocError> {
    match error {
        CommandError::Unreadable { path: parent, why } => {
            let (parent, why) = (parent.as_str(), why.as_str());
            let why = format!(in alloc; "its parent can't be read: {parent}: {why}")?;
            refused(alloc, path, &why)
        }
        error => Ok(error),
    }
}

/// What follows the last slash of a link.
fn last_part(link: &str) -> &str {
    match link.rsplit_once('/') {
        Some((_, name)) => name,
        None => link,
    }
}
