//! Explained answers as a page of HTML.
use crate::explained::ExplainedAnswer;
use crate::html::{AnswerMarkup, begin_page, push_answer, push_source};
use crate::source::StyleSource;
use std::alloc::{AllocError, Global};

/// A page that shows an explained answer beside the style file of this name and this text. Each text
/// leads to the element that wrote it, and each element to its texts. The page needs no other file.
///
/// # Errors
///
/// Where memory is refused.
pub fn explained_page(
    alloc: Global,
    answer: &ExplainedAnswer<'_>,
    name: &str,
    text: &str,
) -> Result<String, AllocError> {
    let mut markup = AnswerMarkup::new(alloc, StyleSource::new(alloc, text)?)?;
    begin_page(&mut markup, name)?;
    push_answer(&mut markup, answer)?;
    push_source(&mut markup, name)?;
    markup.into_page()
}
