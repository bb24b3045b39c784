//! Language tags, as people write them.
use std::alloc::{AllocError, Global};

/// How many letters a region has, as `DE`.
const REGION: usize = 2;

/// How many letters a script has, as `Latn`.
const SCRIPT: usize = 4;

/// A language tag as the names of locale files have it: `de-DE` of `de_DE`, `DE-de` or `de-de`
/// (RFC 5646, 2.1.1).
///
/// # Errors
///
/// Where memory is refused.
pub fn usual_tag(alloc: Global, tag: &str) -> Result<String, AllocError> {
    let mut usual = String::new(alloc);
    for (place, part) in tag.trim().split(is_between).enumerate() {
        if place > 0 {
            usual.push('-')?;
        }
        push_part(&mut usual, place, part)?;
    }
    Ok(usual)
}

/// Whether two language tags are the same; case is ignored, and so is whether a hyphen or an
/// underscore stands between their parts.
pub fn is_same_tag(tag: &str, other: &str) -> bool {
    tag.chars()
        .map(|c| folded(c))
        .eq(other.chars().map(|c| folded(c)))
}

/// Whether a character stands between the parts of a tag.
fn is_between(c: char) -> bool {
    matches!(c, '-' | '_')
}

fn folded(c: char) -> char {
    if is_between(c) {
        '-'
    } else {
        c.to_ascii_lowercase()
    }
}

/// Adds the part at this place of a tag: a region behind the language is in capitals, and a script
/// has one.
fn push_part(usual: &mut String, place: usize, part: &str) -> Result<(), AllocError> {
    let is_region = place > 0 && part.len() == REGION;
    let is_script = place > 0 && part.len() == SCRIPT;
    for (letter, c) in part.chars().enumerate() {
        let is_capital = is_region || (is_script && letter == 0);
        usual.push(if is_capital {
            c.to_ascii_uppercase()
        } else {
            c.to_ascii_lowercase()
        })?;
    }
    Ok(())
}
