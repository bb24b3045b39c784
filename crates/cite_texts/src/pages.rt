//! Page ranges (CSL 1.0.2, appendix "Page Ranges").
ghost use Rattle.std.specs.Prelude.{◌≡◌, ◌≤◌, IfOk, IfSome, IsTrue, MatchOption};
ghost use Rattle.std.specs.Prelude.{[], length, string_bytes};
ghost use Rattle.std.specs.Str.{IsAscii};
ghost use Rattle.cite_texts.specs.Pages.{changed_digits, common_digits, shown_digits, whole_number};
ghost use Rattle.cite_texts.specs.Pages.{number_of, number_start, prefix_of};
ghost use Rattle.cite_texts.specs.Pages.{changes_three_of_four, chicago_digits, least_digits};
ghost use Rattle.cite_texts.specs.Pages.{is_early_in_its_hundred, is_short_or_round};

use std::alloc::{AllocError, Global};
use style_file::style::PageRangeFormat;

/// The text of a variable of pages, each range of it in this format and with the delimiter of the
/// locale between its pages. Without a format the pages stay as they are. `Expanded` writes all
/// digits (321–328), `Minimal` those that change (321–8), `MinimalTwo` two of them at least
/// (321–28), and the other formats are those of The Chicago Manual of Style, 15th edition
/// (1496–1504) and 16th (1496–504).
///
/// A range is two pages with a hyphen or an en dash between them. A page has a digit, or is a Roman
/// numeral; other hyphens stay, and so does one that is written `\-`. Only digits behind the same
/// prefix are left out, and only where the second page is the later one.
///
/// # Errors
///
/// Where memory is refused.
pub fn page_ranges(
    alloc: Global,
    text: &str,
    format: Option<PageRangeFormat>,
    delimiter: &str,
) -> Result<String, AllocError> {
    let tokens = tokens(alloc, text)?;
    let mut out = String::new(alloc);
    let mut is_written = false;
    for (place, token) in tokens.iter().enumerate() {
        let range = range_at(text, &tokens[..place], &tokens[place..]);
        if let Some((first, last)) = range {
            out.push_str(delimiter)?;
            push_last_page(alloc, &mut out, first, last, format)?;
        } else if !is_written {
            push_unescaped(alloc, &mut out, token.of(text))?;
        }
        is_written = range.is_some();
    }
    Ok(out)
}

/// Whether a text has several pages or other numbers: with a dash between them, which is not
/// written `\-`, or with other marks or words.
pub fn has_several_pages(text: &str) -> bool {
    let mut count = 0usize;
    for part in text.split(|c| kind_of(c) != Kind::Word) {
        if is_page(part) && !part.ends_with('\\') {
            count = count.saturating_add(1);
        }
    }
    count > 1
}

#[derive(Clone, Copy, PartialEq, Eq)]
enum Kind {
    Word,
    /// Hyphens or dashes, with the white space around them.
    Dash,
    Space,
    Mark,
}

/// A part of a text.
#[derive(Clone, Copy)]
struct Token {
    kind: Kind,
    start: usize,
    end: usize,
}

impl Token {
    fn of<'a>(&self, text: &'a str) -> &'a str {
        text.get(self.start..self.end).unwrap_or("")
    }
}

fn tokens(alloc: Global, text: &str) -> Result<Vec<Token>, AllocError> {
    let mut tokens = Vec::new(alloc);
    let mut is_escaped = false;
    for (start, c) in text.char_indices() {
        let kind = if is_escaped { Kind::Word } else { kind_of(c) };
        let end = start.saturating_add(c.len_utf8());
        push_token(&mut tokens, Token { kind, start, end })?;
        is_escaped = c == '\\' && !is_escaped;
    }
    Ok(tokens)
}

fn kind_of(c: char) -> Kind {
    match c {
        '-' | '–' => Kind::Dash,
        ',' | ';' | '&' => Kind::Mark,
        _ if c.is_whitespace() => Kind::Space,
        _ => Kind::Word,
    }
}

/// Adds a token, or joins it to the last one.
fn push_token(tokens: &mut Vec<Token>, next: Token) -> Result<(), AllocError> {
    if let Some(last) = tokens.last_mut() {
        if let Some(kind) = joined_kind(last.kind, next.kind) {
            last.kind = kind;
            last.end = next.end;
            return Ok(());
        }
    }
    tokens.push(next)?;
    Ok(())
}

/// What two neighbours are together, where they are one token.
fn joined_kind(first: Kind, next: Kind) -> Option<Kind> {
    match (first, next) {
        (Kind::Dash, Kind::Space) | (Kind::Space, Kind::Dash) => Some(Kind::Dash),
        _ if first == next => Some(first),
        _ => None,
    }
}

/// The pages of the range whose dash is the first token from here on, where it is one.
fn range_at<'a>(text: &'a str, before: &[Token], rest: &[Token]) -> Option<(&'a str, &'a str)> {
    let first = match before {
        [.., chained, _] if chained.kind == Kind::Dash => return None,
        [.., first] => first,
        [] => return None,
    };
    let last = match rest {
        [_, _, chained, ..] if chained.kind == Kind::Dash => return None,
        [dash, last, ..] if dash.kind == Kind::Dash => last,
        _ => return None,
    };
    let (first, last) = (first.of(text), last.of(text));
    if is_page(first) && is_page(last) {
        Some((first, last))
    } else {
        None
    }
}

/// Whether a word names a page: it has a digit, or is a Roman numeral.
fn is_page(word: &str) -> bool {
    word.chars().any(|c| c.is_numeric()) || is_roman(word)
}

fn is_roman(word: &str) -> bool {
    !word.is_empty() && word.chars().all(|c| "ivxlcdmIVXLCDM".contains(c))
}

/// A page's number, and what stands before it.
#[derive(Clone, Copy)]
struct Page<'a> {
    prefix: &'a str,
    digits: &'a str,
}

/// A page that ends in digits.
#[tactic(auto, using(crate::proofs::Ranges::number_cut, crate::proofs::Ranges::number_ascii))]
fn page_of(word: &str) -> Option<Page<'_>>
    ensures parts { MatchOption result (number_of word.now ≡ [])
        (λ page. (page.prefix.now ≡ prefix_of word.now) × (page.digits.now ≡ number_of word.now)) }
    ensures digits { IfSome result (λ page. IsAscii page.digits.now) }
{
    let (prefix, digits) = word.split_at(number_start(word.as_bytes()));
    if digits.is_empty() {
        return None;
    }
    Some(Page { prefix, digits })
}

/// Where the digits begin that a word ends in.
fn number_start(word: &[u8]) -> usize
    ensures { result ≡ number_start word.now }
{
    let mut start = word.len();
    while start > 0 && word[start - 1].is_ascii_digit() {
        start -= 1;
    }
    start
}

fn push_last_page(
    alloc: Global,
    out: &mut String,
    first: &str,
    last: &str,
    format: Option<PageRangeFormat>,
) -> Result<(), AllocError> {
    let (Some(format), Some(from), Some(to)) = (format, page_of(first), page_of(last)) else {
        return push_unescaped(alloc, out, last);
    };
    let whole = whole_number(alloc, from.digits, to.digits)?;
    if from.prefix != to.prefix || !is_later(from.digits, whole.as_str()) {
        return push_unescaped(alloc, out, last);
    }
    if format == PageRangeFormat::Expanded {
        push_unescaped(alloc, out, to.prefix)?;
    }
    out.push_str(shown_digits(format, from.digits, whole.as_str()))
}

/// The digits of the second number that a format shows. A reader who knows the first number knows
/// the second one by them.
fn shown_digits<'a>(format: PageRangeFormat, first: &str, whole: &'a str) -> &'a str
    requires digits { IsAscii whole.now }
    requires not_longer { length first.now ≤ length whole.now }
    ensures shown { result.now ≡ shown_digits format first.now whole.now }
    ensures read_back { whole_number first.now result.now ≡ whole.now }
{
    changed_digits(first, whole, least_digits(format, first, whole))
}

/// The last number with the digits of the first that were left out before it: 28 behind 321 is 328.
#[tactic(auto, using(crate::proofs::Ranges::ascii_whole))]
fn whole_number(alloc: Global, first: &str, last: &str) -> Result<String, AllocError>
    requires first { IsAscii first.now }
    requires last { IsAscii last.now }
    ensures whole { IfOk result (λ whole. string_bytes whole ≡ whole_number first.now last.now) }
    ensures digits { IfOk result (λ whole. IsAscii (string_bytes whole)) }
{
    let mut whole = String::new(alloc);
    let missing = first.len().saturating_sub(last.len());
    whole.push_str(first.get(..missing).unwrap_or(""))?;
    whole.push_str(last)?;
    Ok(whole)
}

fn is_later(first: &str, last: &str) -> bool
    ensures { IsTrue result → length first.now ≤ length last.now }
{
    last.len() > first.len() || (last.len() == first.len() && last > first)
}

/// How many of the last number's digits are written at least.
fn least_digits(format: PageRangeFormat, first: &str, last: &str) -> usize
    ensures { result ≡ least_digits format first.now last.now }
{
    match format {
        PageRangeFormat::Expanded => last.len(),
        PageRangeFormat::Minimal => 1,
        PageRangeFormat::MinimalTwo => 2,
        PageRangeFormat::ChicagoFifteen if changes_three_of_four(first, last) => last.len(),
        PageRangeFormat::ChicagoFifteen | PageRangeFormat::ChicagoSixteen => {
            chicago_digits(first, last)
        }
    }
}

/// How many digits of the last number The Chicago Manual of Style keeps at least.
fn chicago_digits(first: &str, last: &str) -> usize
    ensures { result ≡ chicago_digits first.now last.now }
{
    let digits = first.as_bytes();
    if is_short_or_round(digits) {
        last.len()
    } else if is_early_in_its_hundred(digits) {
        1
    } else {
        2
    }
}

/// Whether a number has fewer than three digits, or is a multiple of 100.
fn is_short_or_round(number: &[u8]) -> bool
    ensures { result ≡ is_short_or_round number.now }
{
    number.len() < 3 || (number[number.len() - 1] == b'0' && number[number.len() - 2] == b'0')
}

/// Whether at least three digits change, of numbers of four digits.
fn changes_three_of_four(first: &str, last: &str) -> bool
    ensures { result ≡ changes_three_of_four first.now last.now }
{
    first.len() == 4 && last.len() == 4 && common_digits(first.as_bytes(), last.as_bytes()) < 2
}

/// Whether the last digit but one is 0.
fn is_early_in_its_hundred(number: &[u8]) -> bool
    ensures { result ≡ is_early_in_its_hundred number.now }
{
    number.len() > 1 && number[number.len() - 2] == b'0'
}

/// How many digits both numbers begin with.
fn common_digits(first: &[u8], last: &[u8]) -> usize
    ensures { result ≡ common_digits first.now last.now }
{
    let mut count = 0;
    while count < first.len() && count < last.len() && first[count] == last[count] {
        count += 1;
    }
    count
}

/// The digits of the last number behind those that both begin with, so many at least. All of them
/// where one number has more digits.
fn changed_digits<'a>(first: &str, last: &'a str, kept: usize) -> &'a str
    requires { IsAscii last.now }
    ensures { result.now ≡ changed_digits first.now last.now kept }
{
    if first.len() != last.len() {
        return last;
    }
    let most = last.len().saturating_sub(kept);
    let common = common_digits(first.as_bytes(), last.as_bytes());
    last.get(common.min(most)..).unwrap_or(last)
}

/// Appends a text, in which `\-` is a hyphen.
fn push_unescaped(alloc: Global, out: &mut String, text: &str) -> Result<(), AllocError> {
    out.push_str(text.replace(alloc, "\\-", "-")?.as_str())
}
