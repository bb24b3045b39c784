//! Answers as lines.
use cite_host::answer::Answer;
use cite_texts::quotes::QuoteMarks;
use std::alloc::{AllocError, Global};
use write_forms::forms::{Form, written};
use write_forms::items::written_item;

/// An answer in a form: a line for each citation and then, where the style has a bibliography, an
/// empty line and a line for each of its items.
///
/// # Errors
///
/// Where memory is refused.
pub(crate) fn print_lines(
    alloc: Global,
    form: Form,
    answer: &Answer,
    marks: QuoteMarks<'_>,
) -> Result<String, AllocError> {
    let mut lines = String::new(alloc);
    for citation in &answer.citations {
        let text = written(alloc, form, citation, &[], marks)?;
        push_line(&mut lines, text.as_str())?;
    }
    let Some(items) = &answer.bibliography else {
        return Ok(lines);
    };
    push_line(&mut lines, "")?;
    for item in items {
        let text = written_item(alloc, form, &item.first_field, &item.content, marks)?;
        push_line(&mut lines, text.as_str())?;
    }
    Ok(lines)
}

fn push_line(lines: &mut String, text: &str) -> Result<(), AllocError> {
    lines.push_str(text)?;
    lines.push('\n')
}
