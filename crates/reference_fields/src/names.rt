//! Lists of names in .bib files, as names of CSL-JSON.
use crate::lists::{Separator, members_of, parts_of};
use reference_items::item::ItemName;
use reference_latex::text::plain_of;
use std::alloc::{AllocError, Global};

/// The names of a list, and what isn't kept of it.
#[derive(Drop)]
pub struct NamesReading {
    pub names: Vec<ItemName>,
    pub lost: Vec<String>,
}

/// The parts of a name.
#[derive(Drop)]
struct NameParts {
    family: String,
    given: String,
    particle: String,
    suffix: String,
}

/// The names of a list. A particle stays with the family name where its options say so, and else
/// it drops.
///
/// # Errors
/// Where memory is refused.
pub fn names_of(
    alloc: Global,
    text: &str,
    keeps_particles: bool,
) -> Result<NamesReading, AllocError> {
    let mut reading = NamesReading {
        names: Vec::new(alloc),
        lost: Vec::new(alloc),
    };
    for member in &members_of(alloc, text)? {
        if has_more_parts(alloc, member.as_str())? {
            let member = member.as_str();
            let reason = format!(in alloc; "a name of more than three parts, {member}")?;
            reading.lost.push(reason)?;
        }
        match name_of(alloc, member.as_str(), keeps_particles)? {
            Some(name) => reading.names.push(name)?,
            None => reading
                .lost
                .push(String::from_str(alloc, "an empty name")?)?,
        }
    }
    Ok(reading)
}

/// Whether a name has more parts between commas than names have.
fn has_more_parts(alloc: Global, text: &str) -> Result<bool, AllocError> {
    Ok(
        !is_one_group(text)
            && named_parts(alloc, text, false)?.is_none()
            && parts_of(alloc, text, Separator::Comma)?.len() > 3,
    )
}

fn name_of(
    alloc: Global,
    text: &str,
    keeps_particles: bool,
) -> Result<Option<ItemName>, AllocError> {
    if text.eq_ignore_ascii_case("others") {
        return literal(alloc, String::from_str(alloc, "others")?);
    }
    if is_one_group(text) {
        return literal(alloc, plain_of(alloc, text)?);
    }
    let (parts, keeps_particles) = match named_parts(alloc, text, keeps_particles)? {
        Some(parts) => parts,
        None => (ordered_parts(alloc, text)?, keeps_particles),
    };
    name_of_parts(alloc, parts, keeps_particles)
}

/// A name without parts; none of an empty text.
fn literal(alloc: Global, text: String) -> Result<Option<ItemName>, AllocError> {
    if text.is_empty() {
        return Ok(None);
    }
    Ok(Some(ItemName {
        family: String::new(alloc),
        given: String::new(alloc),
        dropping_particle: String::new(alloc),
        non_dropping_particle: String::new(alloc),
        suffix: String::new(alloc),
        literal: text,
    }))
}

/// Whether braces are around all of it.
fn is_one_group(text: &str) -> bool {
    if !text.starts_with('{') || text.starts_with("{\\") {
        return false;
    }
    let mut depth: usize = 0;
    for (index, c) in text.char_indices() {
        match c {
            '{' => depth = depth.saturating_add(1),
            '}' => depth = depth.saturating_sub(1),
            _ => {}
        }
        if depth == 0 {
            return index.saturating_add(1) == text.len();
        }
    }
    false
}

// ---- names that say each part by its name

/// What a part of a name is called that says its name.
#[derive(Clone, Copy)]
enum PartName {
    Family,
    Given,
    Prefix,
    Suffix,
    UsePrefix,
    /// It is for styles alone.
    Other,
}

fn part_named(name: &str) -> Option<PartName> {
    match name {
        "family" => Some(PartName::Family),
        "given" => Some(PartName::Given),
        "prefix" => Some(PartName::Prefix),
        "suffix" => Some(PartName::Suffix),
        "useprefix" => Some(PartName::UsePrefix),
        "id" | "nametemplates" | "sortingnamekeytemplate" | "uniquenametemplate" => {
            Some(PartName::Other)
        }
        _ if name.ends_with("-i") => Some(PartName::Other),
        _ => None,
    }
}

/// The parts of a name that says each part by its name, as `family=Gogh, given=Vincent`, and
/// whether its particle stays with the family name; none of any other.
fn named_parts(
    alloc: Global,
    text: &str,
    keeps_particles: bool,
) -> Result<Option<(NameParts, bool)>, AllocError> {
    let mut named = no_parts(alloc);
    let mut keeps_particles = keeps_particles;
    for part in &parts_of(alloc, text, Separator::Comma)? {
        let Some((key, value)) = part.split_once('=') else {
            return Ok(None);
        };
        let Some(name) = part_named(key.trim()) else {
            return Ok(None);
        };
        let value = plain_of(alloc, value.trim().trim_matches('"'))?;
        match name {
            PartName::Family => named.family = value,
            PartName::Given => named.given = value,
            PartName::Prefix => named.particle = value,
            PartName::Suffix => named.suffix = value,
            PartName::UsePrefix => {
                keeps_particles = value.as_str().eq_ignore_ascii_case("true");
            }
            PartName::Other => {}
        }
    }
    Ok(Some((named, keeps_particles)))
}

fn no_parts(alloc: Global) -> NameParts {
    NameParts {
        family: String::new(alloc),
        given: String::new(alloc),
        particle: String::new(alloc),
        suffix: String::new(alloc),
    }
}

// ---- names in one of the orders of BibTeX

/// A word of a name.
#[derive(Drop)]
struct Token {
    text: String,
    is_particle: bool,
}

fn tokens_of(alloc: Global, text: &str) -> Result<Vec<Token>, AllocError> {
    let mut tokens = Vec::new(alloc);
    for word in &parts_of(alloc, text, Separator::Tie)? {
        let text = plain_of(alloc, *word)?;
        if !text.is_empty() {
            // (a word in braces has no case)
            let is_group = word.starts_with('{') && !word.starts_with("{\\");
            let letter = text.as_str().chars().find(|c| c.is_alphabetic());
            let is_particle = letter.is_some_and(|c| c.is_lowercase()) && !is_group;
            tokens.push(Token { text, is_particle })?;
        }
    }
    Ok(tokens)
}

fn joined(alloc: Global, tokens: &[Token]) -> Result<String, AllocError> {
    let mut text = String::new(alloc);
    for token in tokens {
        if !text.is_empty() {
            text.push(' ')?;
        }
        text.push_str(token.text.as_str())?;
    }
    Ok(text)
}

/// The parts of a name in one of the three orders of BibTeX.
fn ordered_parts(alloc: Global, text: &str) -> Result<NameParts, AllocError> {
    let parts = parts_of(alloc, text, Separator::Comma)?;
    match parts.as_slice() {
        [] => Ok(no_parts(alloc)),
        [first] => natural_parts(alloc, &tokens_of(alloc, *first)?),
        [first, given] => family_first(alloc, *first, "", &[*given]),
        [first, suffix, given @ ..] => family_first(alloc, *first, *suffix, given),
    }
}

/// The parts of a name in its natural order.
fn natural_parts(alloc: Global, tokens: &[Token]) -> Result<NameParts, AllocError> {
    let count = tokens.len().saturating_sub(1);
    let words = tokens.get(..count).unwrap_or(&[]);
    let begin = words.iter().position(|token| token.is_particle);
    let behind = words
        .iter()
        .rev()
        .take_while(|token| !token.is_particle)
        .count();
    let (begin, end) = match begin {
        Some(begin) => (begin, count.saturating_sub(behind)),
        None => (count, count),
    };
    Ok(NameParts {
        given: joined(alloc, tokens.get(..begin).unwrap_or(&[]))?,
        particle: joined(alloc, tokens.get(begin..end).unwrap_or(&[]))?,
        family: joined(alloc, tokens.get(end..).unwrap_or(&[]))?,
        suffix: String::new(alloc),
    })
}

/// The parts of a name whose family name stands first.
fn family_first(
    alloc: Global,
    family: &str,
    suffix: &str,
    given: &[&str],
) -> Result<NameParts, AllocError> {
    let tokens = tokens_of(alloc, family)?;
    let count = tokens.len().saturating_sub(1);
    let behind = tokens
        .iter()
        .rev()
        .skip(1)
        .take_while(|token| !token.is_particle)
        .count();
    let has_particle = tokens.first().is_some_and(|token| token.is_particle);
    let end = if has_particle {
        count.saturating_sub(behind)
    } else {
        0
    };
    Ok(NameParts {
        particle: joined(alloc, tokens.as_slice().get(..end).unwrap_or(&[]))?,
        family: joined(alloc, tokens.as_slice().get(end..).unwrap_or(&[]))?,
        given: joined_words(alloc, given)?,
        suffix: joined(alloc, &tokens_of(alloc, suffix)?)?,
    })
}

/// The words of parts, as text.
fn joined_words(alloc: Global, parts: &[&str]) -> Result<String, AllocError> {
    let mut text = String::new(alloc);
    for part in parts {
        let words = joined(alloc, &tokens_of(alloc, *part)?)?;
        if !text.is_empty() && !words.is_empty() {
            text.push(' ')?;
        }
        text.push_str(words.as_str())?;
    }
    Ok(text)
}

// ---- the name

/// The name of these parts; none where it has neither a family name nor a given name.
fn name_of_parts(
    alloc: Global,
    parts: NameParts,
    keeps_particles: bool,
) -> Result<Option<ItemName>, AllocError> {
    if parts.family.is_empty() && parts.given.is_empty() {
        return Ok(None);
    }
    let mut name = ItemName {
        family: parts.family,
        given: spaced_initials(alloc, parts.given.as_str())?,
        dropping_particle: String::new(alloc),
        non_dropping_particle: String::new(alloc),
        suffix: parts.suffix,
        literal: String::new(alloc),
    };
    if keeps_particles {
        name.non_dropping_particle = parts.particle;
    } else {
        name.dropping_particle = parts.particle;
    }
    if name.non_dropping_particle.is_empty() {
        take_elided(alloc, &mut name)?;
    }
    Ok(Some(name))
}

/// Takes a particle that is joined to the family name, as in `d'Arc`, for one that stays.
fn take_elided(alloc: Global, name: &mut ItemName) -> Result<(), AllocError> {
    let Some((particle, family)) = elided(name.family.as_str()) else {
        return Ok(());
    };
    let particle = String::from_str(alloc, particle)?;
    let family = String::from_str(alloc, family)?;
    name.non_dropping_particle = particle;
    name.family = family;
    Ok(())
}

/// The particle that is joined to a family name, and the rest.
fn elided(family: &str) -> Option<(&str, &str)> {
    let letters = family.trim_start_matches(|c: char| c.is_ascii_lowercase());
    let count = family.len().saturating_sub(letters.len());
    let mark = letters.chars().next()?;
    let particle = family.get(..count)?;
    let is_particle = match mark {
        '\'' | '’' => count >= 1 && count <= 4,
        '-' => is_article(particle),
        _ => false,
    };
    let (particle, rest) = family.split_at_checked(count.saturating_add(mark.len_utf8()))?;
    if is_particle && rest.starts_with(|c: char| c.is_alphanumeric()) {
        Some((particle, rest))
    } else {
        None
    }
}

/// Whether a word is an article of Arabic names.
fn is_article(word: &str) -> bool {
    matches!(
        word,
        "al" | "el" | "as" | "ad" | "an" | "ar" | "at" | "ash" | "ed" | "es" | "ul" | "ud" | "ur"
    )
}

/// A given name with spaces between initials, as in `J. R. R.`.
fn spaced_initials(alloc: Global, given: &str) -> Result<String, AllocError> {
    let mut out = String::new(alloc);
    let mut before = ' ';
    let mut last = ' ';
    for c in given.chars() {
        if before.is_alphabetic() && last == '.' && c.is_alphabetic() {
            out.push(' ')?;
        }
        out.push(c)?;
        before = last;
        last = c;
    }
    Ok(out)
}
