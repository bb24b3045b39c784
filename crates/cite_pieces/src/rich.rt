//! Texts with markup, as the fields of an entry have it, and the quotes in them.
use crate::piece::{QuoteSource, Wrap};
use crate::pieces::Pieces;
use reference_values::rich_text::{RichText, RunStyle};
use std::alloc::{AllocError, Global};
use std::mem::replace;

/// The pieces of a text with markup that has quotes.
///
/// Quotes stand between straight or curly marks, double or single. A mark without a partner is
/// text, and a straight single one is an apostrophe then.
///
/// # Errors
///
/// Where memory is refused.
pub(crate) fn rich_pieces(alloc: Global, text: &RichText) -> Result<Pieces, AllocError> {
    let letters = letters(alloc, text)?;
    let roles = roles(alloc, &letters)?;
    let mut writer = Writer {
        alloc,
        out: Pieces::new(alloc),
        run: String::new(alloc),
        style: RunStyle::PLAIN,
        is_behind_quote: false,
    };
    for (letter, role) in letters.iter().zip(roles.iter()) {
        writer.push_letter(*letter, *role)?;
    }
    writer.flush()?;
    Ok(writer.out)
}

/// Whether a text has something that may be a quotation mark or an apostrophe.
pub(crate) fn has_quotes(text: &RichText) -> bool {
    text.runs
        .iter()
        .any(|run| run.text.as_str().contains(is_quote))
}

/// Whether a text with the markup of CSL-JSON has neither tags nor what may be a quotation mark or
/// an apostrophe.
pub(crate) fn is_plain(markup: &str) -> bool {
    !markup.contains(|c: char| c == '<' || is_quote(c))
}

/// Whether a character may be a quotation mark or an apostrophe.
fn is_quote(c: char) -> bool {
    matches!(c, '"' | '\'' | '“' | '”' | '‘' | '’')
}

/// A character and the markup around it.
#[derive(Clone, Copy)]
struct Letter {
    c: char,
    style: RunStyle,
}

fn letters(alloc: Global, text: &RichText) -> Result<Vec<Letter>, AllocError> {
    let mut letters = Vec::new(alloc);
    for run in &text.runs {
        for c in run.text.as_str().chars() {
            letters.push(Letter {
                c,
                style: run.style,
            })?;
        }
    }
    Ok(letters)
}

/// Writes letters as pieces.
#[derive(Drop)]
struct Writer {
    alloc: Global,
    out: Pieces,
    /// The letters of one style that are not written yet.
    run: String,
    style: RunStyle,
    /// Whether a quote ends before them.
    is_behind_quote: bool,
}

impl Writer {
    fn push_letter(&mut self, letter: Letter, role: Role) -> Result<(), AllocError> {
        match role {
            Role::Opens(source) => {
                self.flush()?;
                self.out.open(Wrap::Quotes(source))
            }
            Role::Closes => {
                self.flush()?;
                self.is_behind_quote = true;
                self.out.close()
            }
            Role::Text => self.push_char(letter.c, letter.style),
            Role::Apostrophe => self.push_char('’', letter.style),
        }
    }

    fn push_char(&mut self, c: char, style: RunStyle) -> Result<(), AllocError> {
        if style != self.style {
            self.flush()?;
            self.style = style;
        }
        self.run.push(c)
    }

    /// Writes the letters that wait. Those behind a quote are markup in any style: their
    /// punctuation doesn't move into it.
    fn flush(&mut self) -> Result<(), AllocError> {
        if self.run.is_empty() {
            return Ok(());
        }
        let run = replace(&mut self.run, String::new(self.alloc));
        if self.style == RunStyle::PLAIN && !self.is_behind_quote {
            return self.out.push_text(run);
        }
        self.is_behind_quote = false;
        self.out.open(Wrap::Markup(self.style))?;
        self.out.push_text(run)?;
        self.out.close()
    }
}

/// What a letter is.
#[derive(Clone, Copy)]
enum Role {
    Text,
    /// The mark before a quote.
    Opens(QuoteSource),
    /// The mark behind a quote.
    Closes,
    Apostrophe,
}

/// The marks around a quote.
#[derive(Clone, Copy, PartialEq, Eq)]
enum Pair {
    Double,
    Single,
    CurlyDouble,
    CurlySingle,
}

/// A mark that may open a quote, and waits for its partner.
#[derive(Clone, Copy)]
struct Waiting {
    place: usize,
    pair: Pair,
}

/// How many marks wait at most; of more, the later ones open nothing.
const MOST_WAITING: usize = 64;

/// What each letter is.
fn roles(alloc: Global, letters: &[Letter]) -> Result<Vec<Role>, AllocError> {
    let mut roles = Vec::new(alloc);
    for letter in letters {
        roles.push(role_alone(letter.c))?;
    }
    let mut waiting: Vec<Waiting> = Vec::new(alloc);
    for place in 0..letters.len() {
        let Some(mark) = mark_at(letters, place) else {
            continue;
        };
        if let Some(opener) = partner(&waiting, mark, place) {
            let source = source_of_quote(letters, place);
            set_role(&mut roles, opener.place, Role::Opens(source));
            set_role(&mut roles, place, Role::Closes);
            waiting = before(alloc, &waiting, opener)?;
        } else if mark.opens && waiting.len() < MOST_WAITING {
            let pair = mark.pair;
            waiting.push(Waiting { place, pair })?;
        }
    }
    Ok(roles)
}

/// Whose a quote is that ends at this place.
fn source_of_quote(letters: &[Letter], end: usize) -> QuoteSource {
    if end.saturating_add(1) == letters.len() {
        QuoteSource::FieldEnd
    } else {
        QuoteSource::Field
    }
}

/// What a letter is where it has no partner.
fn role_alone(c: char) -> Role {
    if c == '\'' {
        Role::Apostrophe
    } else {
        Role::Text
    }
}

fn set_role(roles: &mut Vec<Role>, place: usize, role: Role) {
    if let Some(known) = roles.get_mut(place) {
        *known = role;
    }
}

/// A quotation mark, and what it may do where it stands.
#[derive(Clone, Copy)]
struct Mark {
    pair: Pair,
    opens: bool,
    closes: bool,
}

/// The quotation mark at this place. A straight one opens nothing before white space, and closes
/// nothing behind it; a single one does neither within a word.
fn mark_at(letters: &[Letter], place: usize) -> Option<Mark> {
    let c = letters.get(place)?.c;
    let before = place
        .checked_sub(1)
        .and_then(|place| letters.get(place))
        .map(|letter| letter.c);
    let after = letters.get(place.saturating_add(1)).map(|letter| letter.c);
    let may_open = after.is_some_and(|c| !c.is_whitespace());
    let may_close = before.is_some_and(|c| !c.is_whitespace());
    let is_behind_word = before.is_some_and(|c| c.is_alphanumeric());
    let is_before_word = after.is_some_and(|c| c.is_alphanumeric());
    let (pair, opens, closes) = match c {
        '"' => (Pair::Double, may_open, may_close),
        '\'' => (
            Pair::Single,
            may_open && !is_behind_word,
            may_close && !is_before_word,
        ),
        '“' => (Pair::CurlyDouble, true, false),
        '”' => (Pair::CurlyDouble, false, true),
        '‘' => (Pair::CurlySingle, true, false),
        '’' => (Pair::CurlySingle, false, !is_before_word),
        _ => return None,
    };
    Some(Mark {
        pair,
        opens,
        closes,
    })
}

/// The nearest mark that waits for this one, with something between them.
fn partner(waiting: &[Waiting], mark: Mark, place: usize) -> Option<Waiting> {
    if !mark.closes {
        return None;
    }
    let mut nearest = None;
    for other in waiting {
        if other.pair == mark.pair {
            nearest = Some(*other);
        }
    }
    nearest.filter(|other| other.place.saturating_add(1) < place)
}

/// The marks that wait before this one.
fn before(alloc: Global, waiting: &[Waiting], opener: Waiting) -> Result<Vec<Waiting>, AllocError> {
    let mut left = Vec::new(alloc);
    for other in waiting {
        if other.place < opener.place {
            left.push(*other)?;
        }
    }
    Ok(left)
}
