//! The markup of texts in CSL-JSON.
use crate::rich_text::{Baseline, Run, RunStyle};
use std::alloc::{AllocError, Global};

/// How many tags may be open at once. A tag that would be one more is text.
pub const MAX_OPEN_TAGS: usize = 32;

/// What a tag says of the text in it.
#[derive(Clone, Copy)]
enum Markup {
    Italic,
    Bold,
    SmallCaps,
    Superscript,
    Subscript,
    NoCase,
}

/// The name of a tag, by which its end is found.
#[derive(Clone, Copy, PartialEq, Eq)]
enum Element {
    I,
    B,
    Sc,
    Sup,
    Sub,
    Span,
}

/// A part of a text with markup.
#[derive(Clone, Copy)]
enum Token<'t> {
    Text(&'t str),
    /// A tag that opens an element. A span that says nothing known has no markup.
    Start {
        element: Element,
        markup: Option<Markup>,
        inside: &'t str,
    },
    End {
        element: Element,
        inside: &'t str,
    },
}

/// What a tag does to the text behind it.
#[derive(Clone, Copy)]
enum Effect {
    /// It is text itself.
    None,
    Begins(Markup),
    Ends,
}

/// A tag whose end has not come yet.
#[derive(Clone, Copy)]
struct OpenTag {
    element: Element,
    markup: Option<Markup>,
    /// Its place among the tokens.
    place: usize,
}

/// The runs that the markup writes.
pub(crate) fn runs_of(alloc: Global, markup: &str) -> Result<Vec<Run>, AllocError> {
    if !markup.contains('<') {
        let mut runs = Vec::with_capacity(alloc, 1)?;
        push_text(alloc, &mut runs, RunStyle::PLAIN, markup)?;
        return Ok(runs);
    }
    let tokens = tokens_of(alloc, markup)?;
    let effects = effects_of(alloc, &tokens)?;
    written(alloc, &tokens, &effects)
}

// ---- tokens

/// The texts and the tags, in their order.
fn tokens_of(alloc: Global, markup: &str) -> Result<Vec<Token<'_>>, AllocError> {
    let mut tokens = Vec::new(alloc);
    for (place, piece) in markup.split('<').enumerate() {
        if place == 0 {
            tokens.push(Token::Text(piece))?;
        } else if let Some((tag, behind)) = tag_at(piece) {
            tokens.push(tag)?;
            tokens.push(Token::Text(behind))?;
        } else {
            tokens.push(Token::Text("<"))?;
            tokens.push(Token::Text(piece))?;
        }
    }
    Ok(tokens)
}

/// The tag whose `<` stands right before the piece, and what follows the tag.
fn tag_at(piece: &str) -> Option<(Token<'_>, &str)> {
    let (inside, behind) = piece.split_once('>')?;
    Some((tag_of(inside)?, behind))
}

/// The tag of what stands between `<` and `>`.
fn tag_of(inside: &str) -> Option<Token<'_>> {
    if let Some(name) = inside.strip_prefix('/') {
        let element = element_named(name)?;
        return Some(Token::End { element, inside });
    }
    let (element, markup) = match element_named(inside) {
        Some(element) => (element, markup_of(element)),
        None => (Element::Span, span_markup(inside.strip_prefix("span")?)?),
    };
    Some(Token::Start {
        element,
        markup,
        inside,
    })
}

fn element_named(name: &str) -> Option<Element> {
    match name {
        "i" => Some(Element::I),
        "b" => Some(Element::B),
        "sc" => Some(Element::Sc),
        "sup" => Some(Element::Sup),
        "sub" => Some(Element::Sub),
        "span" => Some(Element::Span),
        _ => None,
    }
}

/// What an element without attributes says.
fn markup_of(element: Element) -> Option<Markup> {
    match element {
        Element::I => Some(Markup::Italic),
        Element::B => Some(Markup::Bold),
        Element::Sc => Some(Markup::SmallCaps),
        Element::Sup => Some(Markup::Superscript),
        Element::Sub => Some(Markup::Subscript),
        Element::Span => None,
    }
}

/// What a span with these attributes says; none where they are no attributes, as in `<spanner>`.
fn span_markup(attributes: &str) -> Option<Option<Markup>> {
    if !attributes.starts_with(|c: char| c.is_whitespace()) {
        return None;
    }
    let Some((name, value)) = attributes.split_once('=') else {
        return Some(None);
    };
    let value = unquoted(value.trim());
    Some(match name.trim() {
        "class" if value == "nocase" => Some(Markup::NoCase),
        "style" if is_small_caps(value) => Some(Markup::SmallCaps),
        _ => None,
    })
}

/// What stands between quotes.
fn unquoted(value: &str) -> &str {
    for quote in ['"', '\''] {
        let inner = value
            .strip_prefix(quote)
            .and_then(|inner| inner.strip_suffix(quote));
        if let Some(inner) = inner {
            return inner.trim();
        }
    }
    value
}

/// Whether a style sheet says `font-variant: small-caps` and nothing else.
fn is_small_caps(sheet: &str) -> bool {
    let rule = sheet.strip_suffix(';').unwrap_or(sheet);
    match rule.split_once(':') {
        Some((property, value)) => property.trim() == "font-variant"
            && value.trim() == "small-caps",
        None => false,
    }
}

// ---- pairs of tags

/// What each token does: a tag that has its end begins a style, and its end ends it.
fn effects_of(alloc: Global, tokens: &[Token]) -> Result<Vec<Effect>, AllocError> {
    let mut effects = Vec::with_capacity(alloc, tokens.len())?;
    let mut open = Vec::new(alloc);
    for (place, token) in tokens.iter().enumerate() {
        effects.push(Effect::None)?;
        match *token {
            Token::Text(_) => {}
            Token::Start {
                element,
                markup,
                ..
            } => {
                if open.len() < MAX_OPEN_TAGS {
                    open.push(OpenTag {
                        element,
                        markup,
                        place,
                    })?;
                }
            }
            Token::End { element, .. } => {
                if let Some(tag) = closed(&mut open, element) {
                    pair(&mut effects, tag, place);
                }
            }
        }
    }
    Ok(effects)
}

/// The innermost open tag of this element. It and the tags in it are open no more.
fn closed(open: &mut Vec<OpenTag>, element: Element) -> Option<OpenTag> {
    let place = open.iter().rposition(|tag| tag.element == element)?;
    let tag = open.get(place).copied();
    open.truncate(place);
    tag
}

/// Lets a tag begin its style, and the tag at the place end it.
fn pair(effects: &mut [Effect], tag: OpenTag, end: usize) {
    let Some(markup) = tag.markup else {
        return;
    };
    if let Some(effect) = effects.get_mut(tag.place) {
        *effect = Effect::Begins(markup);
    }
    if let Some(effect) = effects.get_mut(end) {
        *effect = Effect::Ends;
    }
}

// ---- runs

/// The runs of the tokens.
fn written(alloc: Global, tokens: &[Token], effects: &[Effect]) -> Result<Vec<Run>, AllocError> {
    let mut runs = Vec::new(alloc);
    let mut outer = Vec::new(alloc);
    let mut style = RunStyle::PLAIN;
    for (token, effect) in tokens.iter().zip(effects) {
        match *effect {
            Effect::None => push_token(alloc, &mut runs, style, token)?,
            Effect::Begins(markup) => {
                outer.push(style)?;
                style = within(style, markup);
            }
            Effect::Ends => style = outer.pop().unwrap_or(RunStyle::PLAIN),
        }
    }
    Ok(runs)
}

/// The style of what is marked up within this style.
fn within(style: RunStyle, markup: Markup) -> RunStyle {
    let mut inner = style;
    match markup {
        Markup::Italic => inner.italic = !style.italic,
        Markup::Bold => inner.bold = !style.bold,
        Markup::SmallCaps => inner.small_caps = !style.small_caps,
        Markup::Superscript => inner.baseline = Baseline::Superscript,
        Markup::Subscript => inner.baseline = Baseline::Subscript,
        Markup::NoCase => inner.keeps_case = true,
    }
    inner
}

/// Appends a token as text.
fn push_token(
    alloc: Global,
    runs: &mut Vec<Run>,
    style: RunStyle,
    token: &Token,
) -> Result<(), AllocError> {
    match *token {
        Token::Text(text) => push_text(alloc, runs, style, text),
        Token::Start { inside, .. } | Token::End { inside, .. } => {
            push_text(alloc, runs, style, "<")?;
            push_text(alloc, runs, style, inside)?;
            push_text(alloc, runs, style, ">")
        }
    }
}

/// Appends a text: to the last run, where that has its style.
fn push_text(
    alloc: Global,
    runs: &mut Vec<Run>,
    style: RunStyle,
    text: &str,
) -> Result<(), AllocError> {
    if text.is_empty() {
        return Ok(());
    }
    match runs.last_mut() {
        Some(last) if last.style == style => last.text.push_str(text),
        _ => {
            let text = String::from_str(alloc, text)?;
            runs.push(Run { text, style })?;
            Ok(())
        }
    }
}
