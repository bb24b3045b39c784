//! Names of styles that are nearly one that isn't there.
use program_styles::styles::NAMES;
use std::alloc::{AllocError, Global};
use std::fs::read_dir;
use std::rt::Files;
use style_elements::nearest::Nearest;

/// The name of a style of a folder, or of one that is built in, that another may have been meant to
/// be: one that differs in case alone, or whose words begin with its letters, as `mla` stands for
/// `modern-language-association`; or else the nearest.
///
/// # Errors
///
/// Where memory is refused. A folder that can't be read has no styles.
pub fn near_style<R: Files + AllocGlobal + Clone + Drop>(
    rt: &R,
    folder: &str,
    name: &str,
) -> Result<Option<String>, AllocError> {
    let mut names = names_in(rt, folder)?;
    for other in NAMES {
        names.push(String::from_str(rt.alloc(), other)?)?;
    }
    names.sort()?;
    for other in &names {
        let other = other.as_str();
        if other.eq_ignore_ascii_case(name) || has_initials(other, name) {
            return Ok(Some(String::from_str(rt.alloc(), other)?));
        }
    }
    nearest(rt.alloc(), &names, name)
}

/// The names of the styles of a folder.
fn names_in<R: Files + AllocGlobal + Clone + Drop>(
    rt: &R,
    folder: &str,
) -> Result<Vec<String>, AllocError> {
    let mut names = Vec::new(rt.alloc());
    let Ok(entries) = read_dir(rt, folder) else {
        return Ok(names);
    };
    for entry in entries {
        if let Ok(entry) = entry {
            if let Some(name) = entry.file_name().strip_suffix(".csl") {
                names.push(String::from_str(rt.alloc(), name)?)?;
            }
        }
    }
    Ok(names)
}

/// Whether these are the letters with which the words of a name begin, in any case.
fn has_initials(name: &str, letters: &str) -> bool {
    let mut letters = letters.chars();
    for word in name.split('-') {
        let initial = word.chars().next();
        let letter = letters.next().map(|c| c.to_ascii_lowercase());
        if initial.is_none() || initial != letter {
            return false;
        }
    }
    letters.next().is_none()
}

fn nearest(alloc: Global, names: &[String], name: &str) -> Result<Option<String>, AllocError> {
    let mut nearest = Nearest::new(alloc, name);
    for other in names {
        nearest.consider(other.as_str())?;
    }
    match nearest.word() {
        Some(near) => Ok(Some(String::from_str(alloc, near)?)),
        None => Ok(None),
    }
}
