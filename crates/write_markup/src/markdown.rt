//! Runs as a line of Markdown.
use crate::items::ItemRuns;
use crate::markdown_beginnings::begun;
use crate::markdown_escapes::escaped;
use crate::markdown_notations::Notation;
use crate::runs::{ElementRun, Run, TextRun};
use crate::spaces::LineEnd;
use std::alloc::{AllocError, Global};

/// The Markdown of runs, on a line, which may begin a paragraph. Where the marks `*` and `**` would
/// not be read as such, beside letters, the tags `em` and `strong` stand in their place; small
/// capitals, underlines, superscripts and subscripts are tags of HTML, too. What is set off stands
/// in the line, with a space beside it.
///
/// # Errors
///
/// Where memory is refused.
pub fn markdown(alloc: Global, runs: &[Run]) -> Result<String, AllocError> {
    let mut line = String::new(alloc);
    let mut end = LineEnd::EMPTY;
    for (index, run) in runs.iter().enumerate() {
        match run {
            Run::Text(text) => {
                if end.push(text.text()) {
                    line.push(' ')?;
                }
                push_text(alloc, &mut line, text, letter_after(runs, index))?;
            }
            Run::Open(element) => {
                set_off(&mut end, element);
                push_opening(&mut line, element)?;
            }
            Run::Close(element) => {
                set_off(&mut end, element);
                push_closing(&mut line, element)?;
            }
        }
    }
    begun(alloc, line.as_str())
}

/// The Markdown of an item of a bibliography, on a line, with its first field in front.
///
/// # Errors
///
/// Where memory is refused.
pub fn markdown_item(alloc: Global, item: &ItemRuns) -> Result<String, AllocError> {
    let content = markdown(alloc, &item.content)?;
    let Some(field) = &item.first_field else {
        return Ok(content);
    };
    let field = markdown(alloc, field)?;
    let field = field.as_str();
    let content = content.as_str();
    format!(in alloc; "{field} {content}")
}

/// An item of a bibliography with this text, and with the target of its cites: a paragraph in a
/// `div` of the class `csl-entry`.
///
/// # Errors
///
/// Where memory is refused.
pub fn markdown_entry(alloc: Global, target: &str, text: &str) -> Result<String, AllocError> {
    format!(in alloc; "<div id=\"{target}\" class=\"csl-entry\">\n\n{text}\n\n</div>")
}

/// Notes where an element begins or ends that is set off.
fn set_off(end: &mut LineEnd, element: &ElementRun) {
    if element.display.is_some() {
        end.set_off();
    }
}

/// The first letter of what is written after the run at an index.
fn letter_after(runs: &[Run], index: usize) -> Option<char> {
    for run in runs.iter().skip(index.saturating_add(1)) {
        let letter = first_letter(run);
        if letter.is_some() {
            return letter;
        }
    }
    None
}

/// The first letter that is written of a run. Any mark or tag is one that no word has.
fn first_letter(run: &Run) -> Option<char> {
    match run {
        Run::Text(text) if text.is_plain() => text.text().chars().next(),
        Run::Text(_) => Some(']'),
        Run::Open(element) | Run::Close(element) if element.target.is_some() => Some(']'),
        Run::Open(element) | Run::Close(element) => element.display.map(|_display| ' '),
    }
}

fn push_opening(line: &mut String, element: &ElementRun) -> Result<(), AllocError> {
    match &element.target {
        Some(_) => line.push('['),
        None => Ok(()),
    }
}

fn push_closing(line: &mut String, element: &ElementRun) -> Result<(), AllocError> {
    match &element.target {
        Some(target) => {
            line.push_str("](#")?;
            line.push_str(target.as_str())?;
            line.push(')')
        }
        None => Ok(()),
    }
}

/// Adds a text, whose formatting and link stand around its letters, and not around the white space
/// beside them; `after` is the first letter of what is written after it.
fn push_text(
    alloc: Global,
    line: &mut String,
    run: &TextRun,
    after: Option<char>,
) -> Result<(), AllocError> {
    let begun = run.text().trim_start();
    let head = run.text().strip_suffix(begun).unwrap_or("");
    let inner = begun.trim_end();
    let tail = begun.strip_prefix(inner).unwrap_or("");
    let before = head.chars().next().or(line.as_str().chars().next_back());
    let after = tail.chars().next().or(after);
    line.push_str(head)?;
    let inner = escaped(alloc, inner, line.as_str().chars().next_back())?;
    let inner = marked(alloc, run, inner, before, after)?;
    push_linked(line, run, inner.as_str())?;
    line.push_str(tail)
}

/// Letters with their formatting.
fn marked(
    alloc: Global,
    run: &TextRun,
    letters: String,
    before: Option<char>,
    after: Option<char>,
) -> Result<String, AllocError> {
    let formats = run.innermost_first();
    let notation = Notation::of(&formats, before, after);
    let mut marked = letters;
    for format in formats.iter().flatten() {
        let opening = notation.opening(*format);
        let closing = notation.closing(*format);
        let inside = marked.as_str();
        marked = format!(in alloc; "{opening}{inside}{closing}")?;
    }
    Ok(marked)
}

/// Adds letters, which lead where their text does.
fn push_linked(line: &mut String, run: &TextRun, letters: &str) -> Result<(), AllocError> {
    match run.address() {
        Some(address) => write!(line, "[{letters}](<{address}>)"),
        None => line.push_str(letters),
    }
}
