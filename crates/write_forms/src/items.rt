//! An item of a bibliography in a form.
use crate::forms::{Form, written};
use cite_pieces::pieces::Pieces;
use cite_texts::quotes::QuoteMarks;
use cite_trees::shown::shown_tree;
use std::alloc::{AllocError, Global};
use write_markup::items::ItemRuns;
use write_markup::latex::{latex_entry, latex_item};
use write_markup::markdown::{markdown_entry, markdown_item};

/// An item of a bibliography in a form, on a line, with its first field in front. In Markdown and
/// LaTeX URLs and DOIs lead there.
///
/// # Errors
///
/// Where memory is refused.
pub fn written_item(
    alloc: Global,
    form: Form,
    first_field: &Option<Pieces>,
    content: &Pieces,
    marks: QuoteMarks<'_>,
) -> Result<String, AllocError> {
    match form {
        Form::Text => text_item(alloc, first_field, content, marks),
        Form::Html => html_item(alloc, first_field, content, marks),
        Form::Markdown => {
            let item = item_runs(alloc, first_field, content, marks)?;
            markdown_item(alloc, &item)
        }
        Form::Latex => {
            let item = item_runs(alloc, first_field, content, marks)?;
            latex_item(alloc, &item)
        }
    }
}

/// An item of a bibliography as a block: its text, as [`written_item`] gives it, with the target of
/// its cites. The block is a `div` of HTML, a paragraph of Markdown or LaTeX, and the text alone
/// where the form is text. Where `is_hanging`, the lines of a paragraph of LaTeX are indented, but
/// for the first.
///
/// # Errors
///
/// Where memory is refused.
pub fn written_block(
    alloc: Global,
    form: Form,
    target: &str,
    text: &str,
    is_hanging: bool,
) -> Result<String, AllocError> {
    match form {
        Form::Text => String::from_str(alloc, text),
        Form::Html => format!(in alloc; "<div id=\"{target}\" class=\"csl-entry\">{text}</div>"),
        Form::Markdown => markdown_entry(alloc, target, text),
        Form::Latex => latex_entry(alloc, target, text, is_hanging),
    }
}

fn item_runs(
    alloc: Global,
    first_field: &Option<Pieces>,
    content: &Pieces,
    marks: QuoteMarks<'_>,
) -> Result<ItemRuns, AllocError> {
    let first_field = match first_field {
        Some(field) => Some(shown_tree(alloc, field, marks)?),
        None => None,
    };
    let content = shown_tree(alloc, content, marks)?;
    ItemRuns::new(alloc, first_field, content)
}

fn text_item(
    alloc: Global,
    first_field: &Option<Pieces>,
    content: &Pieces,
    marks: QuoteMarks<'_>,
) -> Result<String, AllocError> {
    let content = written(alloc, Form::Text, content, &[], marks)?;
    let Some(field) = first_field else {
        return Ok(content);
    };
    let field = written(alloc, Form::Text, field, &[], marks)?;
    let field = field.as_str().trim_end();
    let space = if content.is_empty() { "" } else { " " };
    let content = content.as_str();
    format!(in alloc; "{field}{space}{content}")
}

fn html_item(
    alloc: Global,
    first_field: &Option<Pieces>,
    content: &Pieces,
    marks: QuoteMarks<'_>,
) -> Result<String, AllocError> {
    let content = written(alloc, Form::Html, content, &[], marks)?;
    let Some(field) = first_field else {
        return Ok(content);
    };
    let field = written(alloc, Form::Html, field, &[], marks)?;
    let field = field.as_str();
    if content.is_empty() {
        return format!(in alloc; "<div class=\"csl-left-margin\">{field}</div>");
    }
    let content = content.as_str();
    format!(in alloc;
        "<div class=\"csl-left-margin\">{field}</div>\
         <div class=\"csl-right-inline\">{content}</div>"
    )
}
