//! Runs as a line of LaTeX.
use crate::items::ItemRuns;
use crate::latex_breaks::{is_address, with_breaks};
use crate::latex_escapes::{escaped, may_join, push_address};
use crate::runs::{ElementRun, Format, Run, TextRun};
use crate::spaces::LineEnd;
use csl_base::formatting::Display;
use std::alloc::{AllocError, Global};

/// The LaTeX of runs. A block and what is indented are paragraphs; the other things that are set
/// off stand in the line, with a space beside them.
///
/// # Errors
///
/// Where memory is refused.
pub fn latex(alloc: Global, runs: &[Run]) -> Result<String, AllocError> {
    let mut line = String::new(alloc);
    let mut last = None;
    let mut end = LineEnd::EMPTY;
    for run in runs {
        match run {
            Run::Text(text) => {
                if end.push(text.text()) {
                    line.push(' ')?;
                }
                let written = text_of(alloc, text)?;
                push_apart(&mut line, last, written.as_str())?;
                last = written.as_str().chars().next_back().or(last);
            }
            Run::Open(element) => {
                set_off(&mut end, element);
                push_opening(&mut line, element)?;
            }
            Run::Close(element) => {
                set_off(&mut end, element);
                push_closing(&mut line, element)?;
            }
        }
    }
    Ok(line)
}

/// Notes where an element begins or ends that is set off in the line.
fn set_off(end: &mut LineEnd, element: &ElementRun) {
    if let Some(Display::LeftMargin | Display::RightInline) = element.display {
        end.set_off();
    }
}

/// The LaTeX of an item of a bibliography, on a line, with its first field in front.
///
/// # Errors
///
/// Where memory is refused.
pub fn latex_item(alloc: Global, item: &ItemRuns) -> Result<String, AllocError> {
    let content = latex(alloc, &item.content)?;
    let Some(field) = &item.first_field else {
        return Ok(content);
    };
    let field = latex(alloc, field)?;
    let field = field.as_str();
    let content = content.as_str();
    format!(in alloc; "{field}\\quad {content}")
}

/// An item of a bibliography with this text, and with the target of its cites: a paragraph. Where
/// `is_hanging`, its lines are indented, but for the first.
///
/// # Errors
///
/// Where memory is refused.
pub fn latex_entry(
    alloc: Global,
    target: &str,
    text: &str,
    is_hanging: bool,
) -> Result<String, AllocError> {
    let indent = if is_hanging {
        "\\hangindent=1.5em "
    } else {
        ""
    };
    format!(in alloc; "\\noindent {indent}\\hypertarget{{{target}}}{{}}{text}\\par")
}

/// Adds a text with no ligature of its first letter and the last one of the text before it.
fn push_apart(line: &mut String, last: Option<char>, text: &str) -> Result<(), AllocError> {
    if let Some(c) = last {
        if may_join(c) && text.starts_with(c) {
            line.push_str("{}")?;
        }
    }
    line.push_str(text)
}

fn push_opening(line: &mut String, element: &ElementRun) -> Result<(), AllocError> {
    line.push_str(break_beside(element.display))?;
    match element.target.as_deref() {
        Some(target) => write!(line, "\\hyperlink{{{target}}}{{"),
        None => Ok(()),
    }
}

fn push_closing(line: &mut String, element: &ElementRun) -> Result<(), AllocError> {
    if element.target.is_some() {
        line.push('}')?;
    }
    line.push_str(break_beside(element.display))
}

/// What stands on both sides of what is set off.
fn break_beside(display: Option<Display>) -> &'static str {
    match display {
        Some(Display::Block | Display::Indent) => "\\par ",
        Some(Display::LeftMargin | Display::RightInline) | None => "",
    }
}

/// A text with its formatting and its link. An address that is shown may be broken at its signs.
fn text_of(alloc: Global, run: &TextRun) -> Result<String, AllocError> {
    let mut text = escaped(alloc, run.text())?;
    for format in run.innermost_first().iter().flatten() {
        let command = command(*format);
        let inside = text.as_str();
        text = format!(in alloc; "{command}{{{inside}}}")?;
    }
    match run.address() {
        Some(address) if is_address(run.text()) => {
            let text = with_breaks(alloc, text.as_str())?;
            linked(alloc, address, text.as_str())
        }
        Some(address) => linked(alloc, address, text.as_str()),
        None => Ok(text),
    }
}

/// A text that leads to an address.
fn linked(alloc: Global, address: &str, text: &str) -> Result<String, AllocError> {
    let mut linked = String::from_str(alloc, "\\href{")?;
    push_address(&mut linked, address)?;
    write!(linked, "}}{{{text}}}")?;
    Ok(linked)
}

/// The command that writes its argument in a format.
fn command(format: Format) -> &'static str {
    match format {
        Format::Bold => "\\textbf",
        Format::Italic => "\\textit",
        Format::SmallCaps => "\\textsc",
        Format::Underline => "\\underline",
        Format::Superscript => "\\textsuperscript",
        Format::Subscript => "\\textsubscript",
    }
}
