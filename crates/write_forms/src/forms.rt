//! A stream in a form.
use cite_pieces::pieces::Pieces;
use cite_pieces::plain::plain_text;
use cite_texts::quotes::QuoteMarks;
use cite_trees::shown::shown_tree;
use std::alloc::{AllocError, Global};
use write_html::html::html;
use write_markup::latex::latex;
use write_markup::markdown::markdown;
use write_markup::runs::Run;
use write_markup::trees::runs_of;

/// A form of what is written.
#[derive(Clone, Copy, PartialEq, Eq)]
pub enum Form {
    /// Text without formatting.
    Text,
    Html,
    /// Markdown, as CommonMark and pandoc read it.
    Markdown,
    /// LaTeX, for a document that loads hyperref.
    Latex,
}

/// A stream in a form, on a line. In Markdown and LaTeX each cite leads to the target at its place,
/// if there is one, unless a text in it leads elsewhere.
///
/// # Errors
///
/// Where memory is refused.
pub fn written(
    alloc: Global,
    form: Form,
    pieces: &Pieces,
    targets: &[String],
    marks: QuoteMarks<'_>,
) -> Result<String, AllocError> {
    match form {
        Form::Text => plain_text(alloc, pieces, marks),
        Form::Html => html(alloc, pieces, marks),
        Form::Markdown => {
            let runs = shown_runs(alloc, pieces, targets, marks)?;
            markdown(alloc, &runs)
        }
        Form::Latex => {
            let runs = shown_runs(alloc, pieces, targets, marks)?;
            latex(alloc, &runs)
        }
    }
}

fn shown_runs(
    alloc: Global,
    pieces: &Pieces,
    targets: &[String],
    marks: QuoteMarks<'_>,
) -> Result<Vec<Run>, AllocError> {
    let tree = shown_tree(alloc, pieces, marks)?;
    runs_of(alloc, &tree, targets)
}
