//! Calls of a writing context that ask the style's locales for terms.
ghost use Rattle.std.specs.Prelude.{
  ◌≡◌,
  ◌+◌,
  OnOk,
  OnErr,
  IfOk,
  length,
  min,
  string_bytes,
  option_map,
};
ghost use Rattle.layout_context.specs.Quotes.{quotes_view};
ghost use Rattle.driver_lookup.specs.SourceView.{lookup_view};
ghost use Rattle.layout_context.specs.WritingState.{state, heights};
ghost use Rattle.layout_context.specs.Wording.{
  plain_term,
  closing_quotes,
  pushed,
  term_pushed,
  opening_quote,
  closing_quote,
  quotes_opened,
  quotes_closed,
  pulling_if_asked,
  chunk_pushed,
  chunks_pushed,
  joined_values,
  linked,
  marked,
  with_suffix,
  suffixed,
};

use crate::text::ClosingQuotes;
use crate::token::DisplayLoc;
use crate::writing::WritingContext;
pub use crate::writing::rendering::{
    allocator, begin_prefix, may_strip_periods, stop_stripping_periods,
};
use csl_base::elem::ElemChild;
use csl_base::entry::{Chunk, ChunkKind, ChunkedString};
use csl_base::taxonomy::{OtherTerm, Term, TermForm};
use csl_base::text::Text;
use driver_lookup::lookup::StyleLocales;
use std::alloc::{AllocError, Global};

#[tactic(auto, unfolding(crate::specs::Wording::plain_term))]
fn plain_term<'a>(style: &StyleLocales<'a>, name: OtherTerm) -> Option<&'a str>
    ensures { option_map (λ s. s.now) result ≡ plain_term (lookup_view style.now) name }
{
    style.term(None, Term::Other(name), TermForm::Long, false)
}

#[tactic(auto, unfolding(crate::specs::Wording::closing_quotes))]
fn closing_quotes<'a>(style: &StyleLocales<'a>) -> ClosingQuotes<'a>
    ensures { quotes_view result ≡ closing_quotes (lookup_view style.now) }
{
    ClosingQuotes {
        outer: plain_term(style, OtherTerm::CloseQuote),
        inner: plain_term(style, OtherTerm::CloseInnerQuote),
    }
}

/// Writes `s`.
///
/// # Errors
///
/// Where memory is refused.
pub fn push_str(
    style: &StyleLocales<'_>,
    writing: &mut WritingContext<'_>,
    s: &str,
) -> Result<(), AllocError>
    ensures done { OnOk result (state writing.new
        ≡ pushed (lookup_view style.now) s.now (state writing.old)) }
    ensures heights { heights (state writing.new) ≡ heights (state writing.old) }
{
    if writing.may_pull(s) {
        writing.push_str(closing_quotes(style), s)
    } else {
        writing.write(s)
    }
}

#[tactic(auto, unfolding(crate::specs::Wording::term_pushed))]
fn push_term(
    style: &StyleLocales<'_>,
    writing: &mut WritingContext<'_>,
    name: OtherTerm,
) -> Result<(), AllocError>
    ensures done { OnOk result (state writing.new
        ≡ term_pushed (lookup_view style.now) name (state writing.old)) }
    ensures heights { heights (state writing.new) ≡ heights (state writing.old) }
{
    match plain_term(style, name) {
        Some(term) => push_str(style, writing, term),
        None => Ok(()),
    }
}

#[tactic(auto, unfolding(crate::specs::Wording::opening_quote))]
fn opening_quote(depth: usize) -> OtherTerm
    ensures { result ≡ opening_quote depth }
{
    if depth == 0 {
        OtherTerm::OpenQuote
    } else {
        OtherTerm::OpenInnerQuote
    }
}

#[tactic(auto, unfolding(crate::specs::Wording::closing_quote))]
fn closing_quote(depth: usize) -> OtherTerm
    ensures { result ≡ closing_quote depth }
{
    if depth == 0 {
        OtherTerm::CloseQuote
    } else {
        OtherTerm::CloseInnerQuote
    }
}

/// Writes the opening quote, or inside quotes the inner one.
///
/// # Errors
///
/// Where memory is refused.
#[tactic(auto, unfolding(crate::specs::Wording::quotes_opened))]
pub fn push_quotes(
    style: &StyleLocales<'_>,
    writing: &mut WritingContext<'_>,
) -> Result<(), AllocError>
    ensures done { OnOk result (state writing.new
        ≡ quotes_opened (lookup_view style.now) (state writing.old)) }
    ensures heights { heights (state writing.new) ≡ heights (state writing.old) }
{
    push_term(style, writing, opening_quote(writing.quote_depth()))?;
    writing.deepen();
    Ok(())
}

/// Writes the closing quote of the innermost open one. Where none is open, the outer one.
///
/// # Errors
///
/// Where memory is refused.
#[tactic(auto, unfolding(crate::specs::Wording::quotes_closed))]
pub fn pop_quotes(
    style: &StyleLocales<'_>,
    writing: &mut WritingContext<'_>,
) -> Result<(), AllocError>
    ensures done { OnOk result (state writing.new
        ≡ quotes_closed (lookup_view style.now) (state writing.old)) }
    ensures heights { heights (state writing.new) ≡ heights (state writing.old) }
{
    writing.rise();
    push_term(style, writing, closing_quote(writing.quote_depth()))
}

/// Lets closing quotes pull punctuation in, where the locale has it inside quotes.
#[tactic(auto, unfolding(crate::specs::Wording::pulling_if_asked))]
pub fn may_pull_punctuation(style: &StyleLocales<'_>, writing: &mut WritingContext<'_>)
    ensures done { state writing.new
        ≡ pulling_if_asked (lookup_view style.now) (state writing.old) }
    ensures heights { heights (state writing.new) ≡ heights (state writing.old) }
{
    if style.punctuation_in_quotes() {
        writing.let_pull();
    }
}

#[tactic(auto, unfolding(crate::specs::Wording::chunk_of_kind))]
fn push_chunk(
    style: &StyleLocales<'_>,
    writing: &mut WritingContext<'_>,
    chunk: &Chunk,
) -> Result<(), AllocError>
    ensures done { OnOk result (state writing.new
        ≡ chunk_pushed (lookup_view style.now) chunk.now (state writing.old)) }
    ensures heights { heights (state writing.new) ≡ heights (state writing.old) }
{
    match chunk.kind {
        ChunkKind::Normal => push_str(style, writing, chunk.value.as_str()),
        ChunkKind::Verbatim => writing.push_verbatim(chunk.value.as_str()),
        ChunkKind::Math => writing.push_child(ElemChild::Markup(chunk.value.clone()?)),
    }
}

/// Writes a text in pieces: a verbatim one as it stands, a formula as markup.
///
/// # Errors
///
/// Where memory is refused.
pub fn push_chunked(
    style: &StyleLocales<'_>,
    writing: &mut WritingContext<'_>,
    text: &ChunkedString,
) -> Result<(), AllocError>
    ensures done { OnOk result (state writing.new
        ≡ chunks_pushed (lookup_view style.now) text.now.0 (state writing.old)) }
    ensures heights { heights (state writing.new) ≡ heights (state writing.old) }
{
    for chunk in text.0.as_slice() {
        push_chunk(style, writing, chunk)?;
    }
    Ok(())
}

pub fn joined_values(alloc: Global, text: &ChunkedString) -> Result<String, AllocError>
    ensures { IfOk result (λ joined. string_bytes joined ≡ joined_values text.now.0) }
{
    let mut joined = String::new(alloc);
    for chunk in text.0.as_slice() {
        joined.push_str(chunk.value.as_str())?;
    }
    Ok(joined)
}

/// Adds a link of a text to a URL.
///
/// # Errors
///
/// Where memory is refused.
#[tactic(auto, unfolding(crate::specs::Wording::linked))]
pub fn push_link(
    writing: &mut WritingContext<'_>,
    text: &ChunkedString,
    url: String,
) -> Result<(), AllocError>
    ensures done { OnOk result (state writing.new
        ≡ linked text.now.0 (string_bytes url) (state writing.old)) }
    ensures heights { heights (state writing.new) ≡ heights (state writing.old) }
{
    let joined = joined_values(allocator(writing), text)?;
    let text = writing.formatting().add_text(joined);
    writing.push_child(ElemChild::Link {
        text,
        url: Text::new(url),
    })
}

/// Adds a place for what the caller puts in for a cite.
///
/// # Errors
///
/// Where memory is refused.
#[tactic(auto, unfolding(crate::specs::Wording::marked))]
pub fn push_transparent(writing: &mut WritingContext<'_>, cite_idx: usize) -> Result<(), AllocError>
    ensures done { OnOk result (state writing.new ≡ marked cite_idx (state writing.old)) }
    ensures heights { heights (state writing.new) ≡ heights (state writing.old) }
{
    let format = writing.formatting();
    writing.push_child(ElemChild::Transparent { cite_idx, format })
}

// Writes the suffix, unless the text ends with it.
#[tactic(auto, unfolding(crate::specs::Wording::with_suffix))]
fn push_suffix(
    style: &StyleLocales<'_>,
    writing: &mut WritingContext<'_>,
    suffix: Option<&str>,
) -> Result<(), AllocError>
    ensures done { OnOk result (state writing.new
        ≡ with_suffix (lookup_view style.now) (option_map (λ s. s.now) suffix.entry)
        (state writing.old)) }
    ensures heights { heights (state writing.new) ≡ heights (state writing.old) }
{
    match suffix {
        Some(suffix) => {
            if writing.ends_so(suffix) {
                return Ok(());
            }
            push_str(style, writing, suffix)
        }
        None => Ok(()),
    }
}

/// Closes the frame that a prefix began, with its suffix. Where it shows nothing but the prefix, it
/// is dropped.
///
/// # Errors
///
/// Where memory is refused; the stacks are as high as before.
#[tactic(auto, unfolding(crate::specs::Wording::suffixed))]
pub fn apply_suffix(
    style: &StyleLocales<'_>,
    writing: &mut WritingContext<'_>,
    suffix: Option<&str>,
    prefix: (DisplayLoc, usize),
) -> Result<(), AllocError>
    requires { prefix.0.frames + 1 ≡ length (state writing.old).frames }
    ensures done { OnOk result (state writing.new
        ≡ suffixed (lookup_view style.now) (option_map (λ s. s.now) suffix.entry)
        prefix.0.formats prefix.1
        (state writing.old)) }
    ensures height { OnOk result (length (state writing.new).frames ≡ prefix.0.frames) }
    ensures format_height { OnOk result (length (state writing.new).formats
        ≡ min prefix.0.formats (length (state writing.old).formats)) }
    ensures refused { OnErr result (heights (state writing.new) ≡ heights (state writing.old)) }
{
    if !writing.has_content_since(&prefix)? {
        return writing.discard_elem(prefix.0);
    }
    push_suffix(style, writing, suffix)?;
    writing.commit_elem(prefix.0, None, None)
}
