//! What is done to a text, and to the text before a piece that is written.
ghost use Rattle.std.specs.Prelude.{
  ◌≡◌,
  ◌++◌,
  ◌-◌,
  ◌&&◌,
  length,
  take,
  string_bytes,
  nat_eq,
  option_map,
  IfOk,
  OnOk,
  OnErr,
  IsTrue,
};
ghost use Rattle.std.specs.Bool.{OnTrue};
ghost use Rattle.std.specs.List.{ends_with};
ghost use Rattle.std.specs.Str.{IsCharBoundary, trim_end, chars};
ghost use Rattle.layout_context.specs.Steps.{
  is_tight,
  opens_tight,
  is_mark,
  opens_with_mark,
  has_letter,
  without_ending,
  without_periods,
  kept_of,
  ends_in_space,
  spaced,
  is_seen,
  visible_from,
  quote_at_end,
  ends_quoted,
  pulled,
};
ghost use Rattle.layout_context.specs.Quotes.{quotes_view};

use std::alloc::AllocError;
use unicode::properties::is_alphabetic;

/// The closing quotes of a locale.
#[derive(Clone, Copy)]
pub struct ClosingQuotes<'a> {
    /// The outer ones.
    pub outer: Option<&'a str>,
    /// Those inside other quotes.
    pub inner: Option<&'a str>,
}

impl<'a> ClosingQuotes<'a> {
    /// The closing quote at the text's end: the outer one or else the inner one. Empty where there
    /// is none.
    pub fn at_end(&self, text: &str) -> &'a str
        ensures value { result.now ≡ quote_at_end (quotes_view self.now) text.now }
        ensures cut { IsCharBoundary text.now (length text.now - length result.now) }
    {
        if let Some(outer) = self.outer {
            if ends_with(text, outer) {
                return outer;
            }
        }
        if let Some(inner) = self.inner {
            if ends_with(text, inner) {
                return inner;
            }
        }
        ""
    }
}

fn is_tight(c: char) -> bool
    ensures { result ≡ is_tight c }
{
    c.is_whitespace() || c == '.' || c == ',' || c == ']' || c == ')'
}

/// Whether the text begins with white space, `.`, `,`, `]` or `)`.
pub(crate) fn opens_tight(s: &str) -> bool
    ensures { result ≡ opens_tight s.now }
{
    match s.chars().next() {
        Some(c) => is_tight(c),
        None => false,
    }
}

fn is_mark(byte: u8) -> bool
    ensures { result ≡ is_mark byte }
{
    byte == b'.' || byte == b',' || byte == b';' || byte == b'!' || byte == b'?'
}

/// Whether the text begins with `.`, `,`, `;`, `!` or `?`.
pub(crate) fn opens_with_mark(s: &str) -> bool
    ensures value { result ≡ opens_with_mark s.now }
    ensures cut { OnTrue result (IsCharBoundary s.now 1) }
{
    match s.as_bytes().first() {
        Some(byte) => is_mark(*byte),
        None => false,
    }
}

/// Whether some character of the text is alphabetic.
pub(crate) fn has_letter(s: &str) -> bool
    ensures { result ≡ has_letter s.now }
{
    s.chars().any(|c| is_alphabetic(c))
}

/// Whether the text ends so.
pub(crate) fn ends_with(text: &str, ending: &str) -> bool
    ensures value { result ≡ ends_with nat_eq text.now ending.now }
    ensures cut { OnTrue result (IsCharBoundary text.now (length text.now - length ending.now)) }
{
    text.ends_with(ending)
}

/// Whether the text ends with a space or a no-break space.
#[tactic(auto, using(crate::proofs::TextSteps::no_break_space_bytes))]
pub(crate) fn ends_in_space(text: &str) -> bool
    ensures { result ≡ ends_in_space text.now }
{
    ends_with(text, " ") || ends_with(text, "\u{a0}")
}

/// How many bytes stand before the white space at the text's end.
pub(crate) fn trimmed_len(text: &str) -> usize
    ensures kept { take result text.now ≡ trim_end text.now }
    ensures cut { IsCharBoundary text.now result }
{
    text.trim_end().len()
}

/// How many bytes stand before an ending, where the text has it; else all of them.
pub(crate) fn len_before(text: &str, ending: &str) -> usize
    ensures kept { take result text.now ≡ without_ending ending.now text.now }
    ensures cut { IsCharBoundary text.now result }
{
    if ends_with(text, ending) {
        text.len() - ending.len()
    } else {
        text.len()
    }
}

/// Adds a space, unless the text ends with one or with a no-break space.
pub(crate) fn add_space(text: &mut String) -> Result<(), AllocError>
    ensures { OnOk result (string_bytes text.new ≡ spaced (string_bytes text.old)) }
{
    if ends_in_space(text.as_str()) {
        return Ok(());
    }
    text.push(' ')
}

fn push_kept(text: &mut String, c: char, after_period: bool) -> Result<(), AllocError>
    ensures { OnOk result
        (string_bytes text.new ≡ string_bytes text.old ++ kept_of after_period c) }
{
    if c == '.' && !after_period {
        return Ok(());
    }
    text.push(c)
}

/// Appends `s`, but leaves out each period that follows no period of `s`.
pub(crate) fn push_without_periods(text: &mut String, s: &str) -> Result<(), AllocError>
    ensures { OnOk result (string_bytes text.new ≡ string_bytes text.old ++ without_periods s.now) }
{
    let mut after_period = false;
    for c in s.chars() {
        push_kept(text, c, after_period)?;
        after_period = c == '.';
    }
    Ok(())
}

/// Puts a mark before the closing quote at the text's end. Returns whether there is one.
pub(crate) fn pull(
    text: &mut String,
    quotes: ClosingQuotes<'_>,
    mark: &str,
) -> Result<bool, AllocError>
    ensures moved { IfOk result (λ moved. moved
        ≡ ends_quoted (quotes_view quotes.entry) (string_bytes text.old)) }
    ensures text { OnOk result (string_bytes text.new
        ≡ pulled (quotes_view quotes.entry) mark.now (string_bytes text.old)) }
{
    let quote = quotes.at_end(text.as_str());
    if quote.is_empty() {
        return Ok(false);
    }
    let place = text.len() - quote.len();
    text.insert_str(place, mark)?;
    Ok(true)
}

// Whether a character is seen that begins so many bytes before the offset ends.
fn is_seen(c: char, left: usize) -> bool
    ensures { result ≡ is_seen left c }
{
    left == 0 && !c.is_whitespace()
}

/// Whether a character that begins `offset` bytes on or later is not white space.
pub(crate) fn is_visible_from(text: &str, offset: usize) -> bool
    ensures { result ≡ visible_from offset (chars text.now) }
{
    let mut left = offset;
    for c in text.chars() {
        if is_seen(c, left) {
            return true;
        }
        left = left.saturating_sub(c.len_utf8());
    }
    false
}
