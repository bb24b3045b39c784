//! The parts of a page.
use crate::explained::{ExplainedAnswer, ExplainedText, origin_of};
use crate::lines::AuthoredText;
use crate::origins::{Origin, Origins};
use crate::sheet::{SCRIPT, SHEET};
use crate::source::{StyleSource, end_of_tag};
use crate::strings::{push_html, push_number};
use std::alloc::{AllocError, Global};
use std::collections::BTreeSet;

/// A page that is being written.
#[derive(Drop)]
pub(crate) struct AnswerMarkup<'t> {
    alloc: Global,
    source: StyleSource<'t>,
    out: String,
    /// Where the elements begin that texts lead to.
    shown: BTreeSet<usize>,
}

impl<'t> AnswerMarkup<'t> {
    /// A page without anything.
    ///
    /// # Errors
    ///
    /// Where memory is refused.
    pub fn new(alloc: Global, source: StyleSource<'t>) -> Result<AnswerMarkup<'t>, AllocError> {
        Ok(AnswerMarkup {
            alloc,
            source,
            out: String::new(alloc),
            shown: BTreeSet::new(alloc),
        })
    }

    /// The page with its end.
    ///
    /// # Errors
    ///
    /// Where memory is refused.
    pub fn into_page(self) -> Result<String, AllocError> {
        let AnswerMarkup { mut out, .. } = self;
        out.push_str("</main>\n<script>\n")?;
        out.push_str(SCRIPT)?;
        out.push_str("</script>\n</body>\n</html>\n")?;
        Ok(out)
    }

    /// Adds the place of an element in words.
    fn push_place(&mut self, offset: usize) -> Result<(), AllocError> {
        let place = self.source.place(offset);
        self.out.push_str(" in line ")?;
        push_number(&mut self.out, place.line)?;
        self.out.push_str(", column ")?;
        push_number(&mut self.out, place.column)
    }

    fn push_part(&mut self, origins: &Origins<'_>, part: &AuthoredText) -> Result<(), AllocError> {
        match origin_of(origins, part.author) {
            Some(origin) => self.push_written(origins, origin, part.text.as_str()),
            None => push_html(&mut self.out, part.text.as_str()),
        }
    }

    /// Adds a text that an element wrote.
    fn push_written(
        &mut self,
        origins: &Origins<'_>,
        origin: Origin,
        text: &str,
    ) -> Result<(), AllocError> {
        self.shown.insert(origin.offset)?;
        self.out
            .push_str("<span class=\"text\" tabindex=\"0\" data-by=\"")?;
        push_number(&mut self.out, origin.offset)?;
        self.push_calls(origins, origin)?;
        self.out.push_str("\">")?;
        push_html(&mut self.out, text)?;
        self.out.push_str("</span>")
    }

    /// Adds where the macros around an element are called and begin, and all of this in words.
    fn push_calls(&mut self, origins: &Origins<'_>, origin: Origin) -> Result<(), AllocError> {
        let macros = origins.macros_around(self.alloc, origin)?;
        self.out.push_str("\" data-in=\"")?;
        let mut between = "";
        for called in &macros {
            self.shown.insert(called.call_offset)?;
            self.shown.insert(called.offset)?;
            self.out.push_str(between)?;
            push_number(&mut self.out, called.call_offset)?;
            self.out.push(' ')?;
            push_number(&mut self.out, called.offset)?;
            between = " ";
        }
        self.out.push_str("\" title=\"")?;
        self.out.push_str(origin.name)?;
        self.push_place(origin.offset)?;
        for called in macros.iter().rev() {
            self.out.push_str(", in the macro ")?;
            push_html(&mut self.out, called.name)?;
        }
        Ok(())
    }

    fn push_parts(
        &mut self,
        origins: &Origins<'_>,
        text: &ExplainedText,
    ) -> Result<(), AllocError> {
        self.out.push_str("<li>")?;
        for part in &text.parts {
            self.push_part(origins, part)?;
        }
        self.out.push_str("</li>\n")
    }

    /// Adds the text of the style file up to an offset, from this one on.
    fn push_lines(&mut self, start: usize, end: usize) -> Result<(), AllocError> {
        let text = self.source.text().get(start..end).unwrap_or("");
        push_html(&mut self.out, text)
    }

    /// Adds the start tag at an offset, and gives where it ends.
    fn push_tag(&mut self, start: usize) -> Result<usize, AllocError> {
        let rest = self.source.text().get(start..).unwrap_or("");
        let end = start.saturating_add(end_of_tag(rest));
        self.out
            .push_str("<span class=\"tag\" tabindex=\"0\" data-at=\"")?;
        push_number(&mut self.out, start)?;
        self.out.push_str("\">")?;
        self.push_lines(start, end)?;
        self.out.push_str("</span>")?;
        Ok(end)
    }
}

/// Adds what comes before the answer.
///
/// # Errors
///
/// Where memory is refused.
pub(crate) fn begin_page(markup: &mut AnswerMarkup<'_>, name: &str) -> Result<(), AllocError> {
    let out = &mut markup.out;
    out.push_str("<!DOCTYPE html>\n<html lang=\"en\">\n<head>\n<meta charset=\"utf-8\">\n")?;
    out.push_str("<meta name=\"viewport\" content=\"width=device-width, initial-scale=1\">\n")?;
    out.push_str("<title>")?;
    push_html(out, name)?;
    out.push_str("</title>\n<style>\n")?;
    out.push_str(SHEET)?;
    out.push_str("</style>\n</head>\n<body>\n<main>\n")
}

/// Adds the texts of an answer.
///
/// # Errors
///
/// Where memory is refused.
pub(crate) fn push_answer(
    markup: &mut AnswerMarkup<'_>,
    answer: &ExplainedAnswer<'_>,
) -> Result<(), AllocError> {
    markup.out.push_str(
        "<section class=\"answer\" aria-label=\"Answer\">\n<h2>Citations</h2>\n<ol>\n",
    )?;
    for citation in &answer.citations {
        markup.push_parts(&answer.of_citations, citation)?;
    }
    markup.out.push_str("</ol>\n")?;
    if let Some(origins) = &answer.of_items {
        markup.out.push_str("<h2>Bibliography</h2>\n<ol>\n")?;
        for item in &answer.items {
            markup.push_parts(origins, &item.text)?;
        }
        markup.out.push_str("</ol>\n")?;
    }
    markup.out.push_str("</section>\n")
}

/// Adds the text of the style file, in which the elements are set off that the texts lead to.
///
/// # Errors
///
/// Where memory is refused.
pub(crate) fn push_source(markup: &mut AnswerMarkup<'_>, name: &str) -> Result<(), AllocError> {
    markup
        .out
        .push_str("<section class=\"style\" aria-label=\"Style\">\n<h2>")?;
    push_html(&mut markup.out, name)?;
    markup.out.push_str(
        "</h2>\n<div class=\"file\">\n<pre class=\"numbers\" aria-hidden=\"true\">",
    )?;
    for line in 0..markup.source.line_count() {
        push_number(&mut markup.out, line.saturating_add(1))?;
        markup.out.push('\n')?;
    }
    markup.out.push_str("</pre>\n<pre class=\"lines\">")?;
    let shown = offsets_of(markup.alloc, &markup.shown)?;
    let mut end = 0usize;
    for start in shown {
        if start >= end {
            markup.push_lines(end, start)?;
            end = markup.push_tag(start)?;
        }
    }
    let length = markup.source.text().len();
    markup.push_lines(end, length)?;
    markup.out.push_str("</pre>\n</div>\n</section>\n")
}

fn offsets_of(alloc: Global, shown: &BTreeSet<usize>) -> Result<Vec<usize>, AllocError> {
    let mut offsets = Vec::with_capacity(alloc, shown.len())?;
    for offset in shown {
        offsets.push(*offset)?;
    }
    Ok(offsets)
}
