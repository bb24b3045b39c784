//! Parts of names that stand within the family name or the given name.
use std::alloc::{AllocError, Global};

/// A name without its particle, and the particle.
#[derive(Drop)]
pub struct PartedName {
    pub name: String,
    pub particle: String,
}

/// A given name without the suffix behind it, and the suffix, which may be empty.
#[derive(Clone, Copy)]
pub struct SuffixedName<'g> {
    pub given: &'g str,
    pub suffix: &'g str,
    /// Whether a comma is to stand before the suffix.
    pub has_comma_suffix: bool,
}

/// What stands between the double quotes of a name that is to be kept as it is; none where it has
/// none.
pub fn quoted(name: &str) -> Option<&str> {
    name.strip_prefix('"')?.strip_suffix('"')
}

/// The suffix behind the first comma of a given name. An exclamation mark right behind that comma
/// says that a comma is to stand before the suffix.
pub fn suffix_of(given: &str) -> Option<SuffixedName<'_>> {
    let (given, behind) = given.split_once(',')?;
    if given.trim().is_empty() {
        return None;
    }
    let marked = behind.strip_prefix('!');
    Some(SuffixedName {
        given: given.trim_end(),
        suffix: marked.unwrap_or(behind).trim(),
        has_comma_suffix: marked.is_some(),
    })
}

/// The particle in front of a family name: its first words, as far as they have no letters but
/// small ones; or, where the first word is none, what stands before the only apostrophe, hyphen,
/// dash or full stop of the name. The name itself is at least a word.
///
/// # Errors
/// Where memory is refused.
pub fn leading_particle(alloc: Global, family: &str) -> Result<Option<PartedName>, AllocError> {
    match family.split_whitespace().next() {
        None => Ok(None),
        Some(first) if !is_particle(first) => attached_particle(alloc, family.trim()),
        Some(_) => {
            let words = words_of(alloc, family)?;
            let count = words.iter().take_while(|word| is_particle(**word)).count();
            let (particle, name) = words
                .as_slice()
                .split_at_checked(count)
                .unwrap_or((&[], &[]));
            name_of_words(alloc, name, particle)
        }
    }
}

/// The particle behind a given name: its last words, as far as they have no letters but small ones.
/// The name itself is at least a word.
///
/// # Errors
/// Where memory is refused.
pub fn trailing_particle(alloc: Global, given: &str) -> Result<Option<PartedName>, AllocError> {
    match given.split_whitespace().next_back() {
        Some(last) if is_particle(last) => {
            let words = words_of(alloc, given)?;
            let count = words
                .iter()
                .rev()
                .take_while(|word| is_particle(**word))
                .count();
            let begin = words.len().saturating_sub(count);
            let (name, particle) = words
                .as_slice()
                .split_at_checked(begin)
                .unwrap_or((&[], &[]));
            name_of_words(alloc, name, particle)
        }
        _ => Ok(None),
    }
}

/// A particle that is joined to its name by a mark, as in `d'Arc` and `al-Farabi`.
fn attached_particle(alloc: Global, family: &str) -> Result<Option<PartedName>, AllocError> {
    let mut pieces = family.split_inclusive(is_mark);
    let (Some(particle), Some(name), None) = (pieces.next(), pieces.next(), pieces.next()) else {
        return Ok(None);
    };
    if !is_particle(particle) || name.ends_with(is_mark) {
        return Ok(None);
    }
    Ok(Some(PartedName {
        name: String::from_str(alloc, name)?,
        particle: String::from_str(alloc, particle)?,
    }))
}

/// Whether a word may be a particle: it has no letters but small ones.
fn is_particle(word: &str) -> bool {
    word.chars().all(|c| c.is_lowercase() || is_mark(c))
}

/// Whether the character stands in particles though it is no letter.
fn is_mark(c: char) -> bool {
    matches!(c, '\'' | '’' | '-' | '–' | '.')
}

fn words_of(alloc: Global, text: &str) -> Result<Vec<&str>, AllocError> {
    let mut words = Vec::new(alloc);
    for word in text.split_whitespace() {
        words.push(word)?;
    }
    Ok(words)
}

fn name_of_words(
    alloc: Global,
    name: &[&str],
    particle: &[&str],
) -> Result<Option<PartedName>, AllocError> {
    if name.is_empty() {
        return Ok(None);
    }
    Ok(Some(PartedName {
        name: joined(alloc, name)?,
        particle: joined(alloc, particle)?,
    }))
}

/// The words with spaces between.
fn joined(alloc: Global, words: &[&str]) -> Result<String, AllocError> {
    let mut text = String::new(alloc);
    for word in words {
        if !text.is_empty() {
            text.push(' ')?;
        }
        text.push_str(*word)?;
    }
    Ok(text)
}
