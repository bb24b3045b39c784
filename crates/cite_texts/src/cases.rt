//! Text cases (CSL 1.0.2, text-case).
use crate::words::{Gap, Word, words};
use std::alloc::{AllocError, Global};
use style_file::formatting::TextCase;

/// A language, as far as cases depend on it.
#[derive(Clone, Copy, PartialEq, Eq)]
pub enum Language {
    English,
    /// Turkish or Azerbaijani, which have letters `i` with and without a dot.
    Turkic,
    Other,
}

impl Language {
    /// The language of a tag like `en-GB`.
    pub fn of_tag(tag: &str) -> Language {
        let language = primary_language(tag);
        if language.eq_ignore_ascii_case("en") {
            Language::English
        } else if language.eq_ignore_ascii_case("tr") || language.eq_ignore_ascii_case("az") {
            Language::Turkic
        } else {
            Language::Other
        }
    }
}

/// What a tag begins with: `en` of `en-GB`. Words may follow the tag, as in `en English`.
fn primary_language(tag: &str) -> &str {
    tag.trim_start()
        .split(|c: char| !c.is_ascii_alphanumeric())
        .next()
        .unwrap_or("")
}

/// A part of a text, by its bytes.
#[derive(Clone, Copy, PartialEq, Eq)]
pub struct Span {
    /// Where it begins.
    pub start: usize,
    /// Where what is behind it begins.
    pub end: usize,
}

/// The text in this case. `CapitalizeFirst` gives the first word a capital, and `CapitalizeAll`
/// each word, where it has none. `Title` is for English alone: texts in other languages stay.
///
/// # Errors
///
/// Where memory is refused.
pub fn in_case(
    alloc: Global,
    text: &str,
    case: TextCase,
    language: Language,
) -> Result<String, AllocError> {
    Recasing::new(alloc, text, &[], case, language)?.apply(alloc, text, 0)
}

/// What a case changes in a text, found for the whole text, so that its parts can be changed one by
/// one: a word may reach from one part into the next.
#[derive(Drop)]
pub struct Recasing {
    changes: Vec<Change>,
    language: Language,
}

#[derive(Clone, Copy)]
struct Change {
    span: Span,
    letters: Letters,
}

/// What letters become.
#[derive(Clone, Copy)]
enum Letters {
    Upper,
    Lower,
    /// The sigma at the end of a word, in lower case.
    FinalSigma,
}

impl Recasing {
    /// What the case changes in a text. The words in `kept`, whose spans stand in their order, stay
    /// as they are, and count as words.
    ///
    /// # Errors
    ///
    /// Where memory is refused.
    pub fn new(
        alloc: Global,
        text: &str,
        kept: &[Span],
        case: TextCase,
        language: Language,
    ) -> Result<Recasing, AllocError> {
        let words = words(alloc, text, kept)?;
        let mut planned = Planned {
            text,
            changes: Vec::new(alloc),
        };
        let is_shouted = is_shouted(text, &words);
        for (place, word) in words.iter().enumerate() {
            if word.is_kept {
                continue;
            }
            let position = Position {
                is_first: place == 0,
                is_last: place + 1 == words.len(),
                is_shouted,
            };
            planned.push_word(*word, position, case, language)?;
        }
        Ok(Recasing {
            changes: planned.changes,
            language,
        })
    }

    /// A part of the text with its changes, where the part begins at `start`.
    ///
    /// # Errors
    ///
    /// Where memory is refused.
    pub fn apply(&self, alloc: Global, part: &str, start: usize) -> Result<String, AllocError> {
        let mut out = String::new(alloc);
        for (offset, c) in part.char_indices() {
            match self.letters_at(start.saturating_add(offset)) {
                Some(letters) => push_changed(&mut out, c, letters, self.language)?,
                None => out.push(c)?,
            }
        }
        Ok(out)
    }

    fn letters_at(&self, place: usize) -> Option<Letters> {
        let index = self
            .changes
            .partition_point(|change| change.span.end <= place);
        let change = self.changes.get(index)?;
        if change.span.start <= place {
            Some(change.letters)
        } else {
            None
        }
    }
}

fn push_changed(
    out: &mut String,
    c: char,
    letters: Letters,
    language: Language,
) -> Result<(), AllocError> {
    match (letters, c) {
        (Letters::FinalSigma, _) => out.push('ς'),
        (Letters::Upper, 'i') if language == Language::Turkic => out.push('İ'),
        (Letters::Lower, 'I') if language == Language::Turkic => out.push('ı'),
        (Letters::Lower, 'İ') if language == Language::Turkic => out.push('i'),
        (Letters::Upper, _) => {
            for upper in c.to_uppercase() {
                out.push(upper)?;
            }
            Ok(())
        }
        (Letters::Lower, _) => {
            for lower in c.to_lowercase() {
                out.push(lower)?;
            }
            Ok(())
        }
    }
}

/// Where a word stands.
#[derive(Clone, Copy)]
struct Position {
    is_first: bool,
    is_last: bool,
    /// Whether the whole text is in capitals.
    is_shouted: bool,
}

/// The changes of a text, as they are found.
#[derive(Drop)]
struct Planned<'a> {
    text: &'a str,
    changes: Vec<Change>,
}

impl<'a> Planned<'a> {
    fn push_word(
        &mut self,
        word: Word,
        position: Position,
        case: TextCase,
        language: Language,
    ) -> Result<(), AllocError> {
        match case {
            TextCase::Lowercase => self.lower(word.span),
            TextCase::Uppercase => self.upper(word.span),
            TextCase::CapitalizeFirst if !position.is_first => Ok(()),
            TextCase::CapitalizeFirst | TextCase::CapitalizeAll => self.capitalize(word.span),
            TextCase::Sentence => self.push_word_of_sentence(word, position),
            TextCase::Title if language == Language::English => {
                self.push_word_of_title(word, position)
            }
            TextCase::Title => Ok(()),
        }
    }

    /// The first word begins with a capital. Those behind it lose the one they begin with, unless
    /// they have others, or begin a sentence of their own. Lone letters stay, but for `A`.
    fn push_word_of_sentence(&mut self, word: Word, position: Position) -> Result<(), AllocError> {
        let letters = self.letters(word.span);
        if position.is_first && position.is_shouted {
            self.lower_behind_first(word.span)
        } else if position.is_first {
            self.capitalize(word.span)
        } else if position.is_shouted && letters != "I" {
            self.lower(word.span)
        } else if word.gap != Gap::Sentence && (is_capitalized(letters) || letters == "A") {
            self.lower(word.span)
        } else {
            Ok(())
        }
    }

    /// Each word begins with a capital but stop words, which do only as the first or last word,
    /// behind a colon, an exclamation mark or a question mark, and in front of a compound, as in
    /// `In-Depth`. A stop word that has a capital keeps it, as with pandoc and citeproc-js. A text
    /// in capitals stays.
    fn push_word_of_title(&mut self, word: Word, position: Position) -> Result<(), AllocError> {
        if position.is_shouted {
            return Ok(());
        }
        let letters = self.letters(word.span);
        let is_set_off = position.is_first
            || position.is_last
            || word.gap == Gap::Sentence
            || self.begins_compound(word);
        let is_small = is_stop_word(letters) && !is_set_off;
        if is_small || is_lone_greek(letters) {
            Ok(())
        } else {
            self.capitalize(word.span)
        }
    }

    /// Whether a word in running text stands before a hyphen.
    fn begins_compound(&self, word: Word) -> bool {
        let behind = self.text.get(word.span.end..).unwrap_or("");
        word.gap == Gap::Running && behind.starts_with('-')
    }

    fn letters(&self, span: Span) -> &'a str {
        self.text.get(span.start..span.end).unwrap_or("")
    }

    fn push(&mut self, start: usize, end: usize, letters: Letters) -> Result<(), AllocError> {
        self.changes.push(Change {
            span: Span { start, end },
            letters,
        })?;
        Ok(())
    }

    fn upper(&mut self, span: Span) -> Result<(), AllocError> {
        self.push(span.start, span.end, Letters::Upper)
    }

    fn lower(&mut self, span: Span) -> Result<(), AllocError> {
        let sigma = span.end.saturating_sub('Σ'.len_utf8());
        if sigma > span.start && self.letters(span).ends_with('Σ') {
            self.push(span.start, sigma, Letters::Lower)?;
            self.push(sigma, span.end, Letters::FinalSigma)
        } else {
            self.push(span.start, span.end, Letters::Lower)
        }
    }

    /// The first letter of a word becomes a capital where the word has none.
    fn capitalize(&mut self, span: Span) -> Result<(), AllocError> {
        let letters = self.letters(span);
        if letters.chars().any(|c| c.is_uppercase()) {
            return Ok(());
        }
        let end = self.end_of_first(span);
        self.push(span.start, end, Letters::Upper)
    }

    fn lower_behind_first(&mut self, span: Span) -> Result<(), AllocError> {
        let start = self.end_of_first(span);
        self.lower(Span {
            start,
            end: span.end,
        })
    }

    /// Where the first letter of a word ends.
    fn end_of_first(&self, span: Span) -> usize {
        let first = self.letters(span).chars().next();
        span.start.saturating_add(first.map_or(0, |c| c.len_utf8()))
    }
}

/// Whether a text of several words is all in capitals, kept words aside. A single word in capitals
/// is an abbreviation.
fn is_shouted(text: &str, words: &[Word]) -> bool {
    let mut loud = 0usize;
    for word in words.iter().filter(|word| !word.is_kept) {
        let letters = text.get(word.span.start..word.span.end).unwrap_or("");
        if letters.chars().any(|c| c.is_lowercase()) {
            return false;
        }
        if letters.chars().any(|c| c.is_uppercase()) {
            loud = loud.saturating_add(1);
        }
    }
    loud > 1
}

/// Whether a word has one capital, in front, and other letters: `The`.
fn is_capitalized(letters: &str) -> bool {
    let mut rest = letters.chars();
    match rest.next() {
        Some(first) => {
            first.is_uppercase() && !rest.as_str().is_empty() && !rest.any(|c| c.is_uppercase())
        }
        None => false,
    }
}

/// Whether a word is one Greek letter, which stays, as in `α-amylase`.
fn is_lone_greek(letters: &str) -> bool {
    let mut rest = letters.chars();
    matches!(rest.next(), Some('\u{370}'..='\u{3ff}')) && rest.next().is_none()
}

/// The stop words of English titles (CSL 1.0.2, Title Case Conversion), and those that processors
/// add: `about`, particles of names and the `v` of cases.
const STOP_WORDS: &[&str] = &[
    "a", "about", "an", "and", "as", "at", "but", "by", "de", "down", "for", "from", "in", "into",
    "nor", "of", "on", "onto", "or", "over", "so", "the", "till", "to", "up", "v", "van", "via",
    "von", "with", "yet",
];

fn is_stop_word(letters: &str) -> bool {
    STOP_WORDS
        .iter()
        .any(|stop| stop.eq_ignore_ascii_case(letters))
        || letters.starts_with("d’")
        || letters.starts_with("d'")
}
