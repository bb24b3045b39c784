//! Addresses in the texts of a reference list: URLs and DOIs lead there.
use crate::runs::{Run, TextRun};
use crate::spans::{Kind, Span, spans};
use cite_texts::addresses::url_address;
use std::alloc::{AllocError, Global};

/// The runs, with a text of its own for each URL and each DOI of a text, which leads there. Texts
/// that lead somewhere stay.
///
/// # Errors
///
/// Where memory is refused.
pub(crate) fn with_addresses(alloc: Global, runs: Vec<Run>) -> Result<Vec<Run>, AllocError> {
    let joined = joined(alloc, runs)?;
    let mut out = Vec::new(alloc);
    for (place, run) in joined.iter().enumerate() {
        let after = first_letter(joined.get(place.saturating_add(1)));
        match run {
            Run::Text(text) if text.address().is_none() => {
                push_parts(alloc, &mut out, text, after)?;
            }
            _ => out.push(run.clone()?)?,
        }
    }
    Ok(out)
}

/// The runs, with one text for neighbouring texts of one formatting.
fn joined(alloc: Global, runs: Vec<Run>) -> Result<Vec<Run>, AllocError> {
    let mut joined = Vec::new(alloc);
    for run in runs {
        push_joined(&mut joined, run)?;
    }
    Ok(joined)
}

fn push_joined(joined: &mut Vec<Run>, run: Run) -> Result<(), AllocError> {
    if !joins(joined.last(), &run) {
        joined.push(run)?;
        return Ok(());
    }
    match (joined.pop(), run) {
        (Some(Run::Text(mut last)), Run::Text(next)) => {
            last.push(&next)?;
            joined.push(Run::Text(last))?;
        }
        (_, run) => joined.push(run)?,
    }
    Ok(())
}

fn joins(last: Option<&Run>, next: &Run) -> bool {
    match (last, next) {
        (Some(Run::Text(last)), Run::Text(next)) => last.joins(next),
        _ => false,
    }
}

/// The first letter of a text.
fn first_letter(run: Option<&Run>) -> Option<char> {
    match run {
        Some(Run::Text(text)) => text.text().chars().next(),
        _ => None,
    }
}

/// Adds a text, with a text of its own for each address; `after` is the first letter of a text that
/// follows.
fn push_parts(
    alloc: Global,
    out: &mut Vec<Run>,
    text: &TextRun,
    after: Option<char>,
) -> Result<(), AllocError> {
    let letters: Vec<char> = text.text().chars().collect(alloc)?;
    let mut written = 0usize;
    for span in &spans(alloc, &letters, after)? {
        let before = between(alloc, &letters, written, span.begin)?;
        push_part(out, text, before, None)?;
        push_address(alloc, out, text, &letters, *span)?;
        written = span.end;
    }
    let rest = between(alloc, &letters, written, letters.len())?;
    push_part(out, text, rest, None)
}

/// Adds the letters of a text that are an address.
fn push_address(
    alloc: Global,
    out: &mut Vec<Run>,
    text: &TextRun,
    letters: &[char],
    span: Span,
) -> Result<(), AllocError> {
    let name = between(alloc, letters, span.begin, span.end)?;
    let url = url_of(alloc, span.kind, name.as_str())?;
    push_part(out, text, name, url_address(alloc, url.as_str())?)
}

/// Adds a part of a text.
fn push_part(
    out: &mut Vec<Run>,
    text: &TextRun,
    part: String,
    address: Option<String>,
) -> Result<(), AllocError> {
    if part.is_empty() {
        return Ok(());
    }
    out.push(Run::Text(TextRun::new(part, text.formatting(), address)))?;
    Ok(())
}

fn url_of(alloc: Global, kind: Kind, name: &str) -> Result<String, AllocError> {
    match kind {
        Kind::Url => String::from_str(alloc, name),
        Kind::Doi => format!(in alloc; "https://doi.org/{name}"),
    }
}

/// The letters between two places.
fn between(
    alloc: Global,
    letters: &[char],
    begin: usize,
    end: usize,
) -> Result<String, AllocError> {
    let mut text = String::new(alloc);
    for place in begin..end {
        if let Some(c) = letters.get(place) {
            text.push(*c)?;
        }
    }
    Ok(text)
}
