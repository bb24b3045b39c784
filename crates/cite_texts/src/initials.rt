//! Given names and their initials (CSL 1.0.2, initialize-with).
use std::alloc::{AllocError, Global};

/// How initials are made of given names.
#[derive(Clone, Copy, Debug)]
pub struct Initials<'a> {
    /// What follows each initial (initialize-with).
    pub mark: &'a str,
    /// Whether initials of a compound name have a hyphen between them (initialize-with-hyphen).
    pub has_hyphens: bool,
    /// Whether names become initials (initialize). If not, only the initials that are there get the
    /// mark.
    pub shortens: bool,
}

/// Given names as initials: `Jean-Luc` is `J.-L.` with the mark `.`. A word without a capital in
/// front stays, as particles do, and so does one of a script without case; of `al-Karim` the
/// particle stays, and the name becomes an initial. What ends in a period is an initial already,
/// however long it is, and so is a single capital. Tags of markup without spaces stay around what
/// stands in them: `<b>Jean</b>` is `<b>J.</b>`.
///
/// # Errors
///
/// Where memory is refused.
pub fn in_initials(alloc: Global, given: &str, how: Initials<'_>) -> Result<String, AllocError> {
    let mut names = ShortNames {
        text: String::new(alloc),
        gap: "",
        how,
    };
    for word in given.split_whitespace() {
        names.push_word(word)?;
    }
    Ok(names.text)
}

/// Names that are being written.
#[derive(Drop)]
struct ShortNames<'a> {
    text: String,
    /// The white space before the next name.
    gap: &'a str,
    how: Initials<'a>,
}

impl ShortNames<'_> {
    fn push_word(&mut self, word: &str) -> Result<(), AllocError> {
        let inside = split_tags(word.trim_start_matches('-')).name;
        if self.how.shortens && !has_capital_first(inside) {
            return match split_particle(word) {
                Some((particle, names)) => {
                    self.push_kept(particle, false)?;
                    self.push_names(names, true)
                }
                None => self.push_kept(word, false),
            };
        }
        self.push_names(word, false)
    }

    /// Adds names with hyphens between them; `is_behind`: with a hyphen before them.
    fn push_names(&mut self, names: &str, is_behind: bool) -> Result<(), AllocError> {
        for (place, part) in names.split('-').enumerate() {
            let mut is_compound = is_behind || place > 0;
            for name in part.split_inclusive('.') {
                self.push_name(name, is_compound)?;
                is_compound = false;
            }
        }
        Ok(())
    }

    /// Adds a name with or without a period behind it; `is_compound`: with a hyphen before it.
    fn push_name(&mut self, name: &str, is_compound: bool) -> Result<(), AllocError> {
        let tagged = split_tags(name);
        let letters = tagged.name.trim_end_matches('.');
        if letters.is_empty() {
            self.text.push_str(tagged.before)?;
            return self.text.push_str(tagged.behind);
        }
        let is_initial = letters.len() < tagged.name.len() || is_single_capital(letters);
        if is_initial || (self.how.shortens && has_capital_first(letters)) {
            self.push_gap(is_compound)?;
            self.text.push_str(tagged.before)?;
            if is_initial {
                self.text.push_str(letters)?;
            } else {
                push_first_letters(&mut self.text, letters)?;
            }
            self.push_mark()?;
            self.text.push_str(tagged.behind)
        } else if self.how.shortens && is_compound {
            self.text.push_str(tagged.before)?;
            self.text.push_str(tagged.behind)
        } else {
            self.push_kept(name, is_compound)
        }
    }

    /// Adds what stands before an initial.
    fn push_gap(&mut self, is_compound: bool) -> Result<(), AllocError> {
        if is_compound && self.how.has_hyphens {
            self.text.push('-')
        } else {
            self.text.push_str(self.gap)
        }
    }

    /// Adds the mark behind an initial; the white space at its end stands only before another name.
    fn push_mark(&mut self) -> Result<(), AllocError> {
        let mark = self.how.mark;
        let seen = mark.trim_end();
        self.gap = mark.strip_prefix(seen).unwrap_or("");
        self.text.push_str(seen)
    }

    /// Adds a word as it is.
    fn push_kept(&mut self, word: &str, is_compound: bool) -> Result<(), AllocError> {
        if is_compound {
            self.text.push('-')?;
        } else if !self.text.is_empty() {
            self.text
                .push_str(if self.gap.is_empty() { " " } else { self.gap })?;
        }
        self.gap = " ";
        self.text.push_str(word)
    }
}

/// A name between tags of markup.
#[derive(Clone, Copy)]
struct Tagged<'n> {
    before: &'n str,
    name: &'n str,
    behind: &'n str,
}

/// A name without the tags before it and after it, and these tags.
fn split_tags(text: &str) -> Tagged<'_> {
    let mut inside = text;
    for _ in 0..text.len() {
        match inside.strip_prefix('<').and_then(|tag| tag.split_once('>')) {
            Some((_, behind)) => inside = behind,
            None => break,
        }
    }
    let name = inside.split('<').next().unwrap_or(inside);
    Tagged {
        before: text.strip_suffix(inside).unwrap_or(""),
        name,
        behind: inside.strip_prefix(name).unwrap_or(""),
    }
}

/// The particle in front of a word, and the names behind its hyphen, as in `al-Karim`.
fn split_particle(word: &str) -> Option<(&str, &str)> {
    let (particle, names) = word.split_once('-')?;
    let is_particle = !particle.is_empty() && particle.chars().all(|c| c.is_lowercase());
    if is_particle && has_capital_first(names) {
        Some((particle, names))
    } else {
        None
    }
}

fn has_capital_first(word: &str) -> bool {
    word.starts_with(|c: char| c.is_uppercase())
}

fn is_single_capital(letters: &str) -> bool {
    has_capital_first(letters) && letters.chars().count() == 1
}

/// Appends the first letter of a name, and the second one where the name is written with two
/// capitals, as a letter of another script sometimes is: `Iu` of `IUrii`.
fn push_first_letters(text: &mut String, name: &str) -> Result<(), AllocError> {
    let mut letters = name.chars();
    let Some(first) = letters.next() else {
        return Ok(());
    };
    text.push(first)?;
    let Some(second) = letters.next() else {
        return Ok(());
    };
    let rest = letters.as_str();
    if second.is_uppercase() && !rest.is_empty() && rest.chars().all(|c| c.is_lowercase()) {
        for letter in second.to_lowercase() {
            text.push(letter)?;
        }
    }
    Ok(())
}
