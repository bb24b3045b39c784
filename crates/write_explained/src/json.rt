//! Explained answers as JSON.
use crate::explained::{ExplainedAnswer, ExplainedText, origin_of};
use crate::lines::AuthoredText;
use crate::origins::{CalledMacro, Origin, Origins};
use crate::source::StyleSource;
use crate::strings::{push_json, push_number};
use std::alloc::{AllocError, Global};

/// An explained answer as JSON, on a line; this is the text of the style file.
///
/// # Errors
///
/// Where memory is refused.
pub fn explained_json(
    alloc: Global,
    answer: &ExplainedAnswer<'_>,
    text: &str,
) -> Result<String, AllocError> {
    let mut printer = Printer {
        alloc,
        source: StyleSource::new(alloc, text)?,
        out: String::from_str(alloc, "{\"citations\":[")?,
    };
    printer.push_citations(answer)?;
    printer.out.push(']')?;
    if let Some(origins) = &answer.of_items {
        printer.push_items(answer, origins)?;
    }
    printer.out.push('}')?;
    let Printer { out, .. } = printer;
    Ok(out)
}

/// JSON that is being written.
#[derive(Drop)]
struct Printer<'t> {
    alloc: Global,
    source: StyleSource<'t>,
    out: String,
}

impl Printer<'_> {
    fn push_citations(&mut self, answer: &ExplainedAnswer<'_>) -> Result<(), AllocError> {
        let mut between = "";
        for citation in &answer.citations {
            self.out.push_str(between)?;
            self.push_parts(&answer.of_citations, citation)?;
            between = ",";
        }
        Ok(())
    }

    fn push_items(
        &mut self,
        answer: &ExplainedAnswer<'_>,
        origins: &Origins<'_>,
    ) -> Result<(), AllocError> {
        self.out.push_str(",\"bibliography\":[")?;
        let mut between = "{\"id\":";
        for item in &answer.items {
            self.out.push_str(between)?;
            push_json(&mut self.out, item.id.as_str())?;
            self.out.push_str(",\"texts\":")?;
            self.push_parts(origins, &item.text)?;
            self.out.push('}')?;
            between = ",{\"id\":";
        }
        self.out.push(']')
    }

    fn push_parts(
        &mut self,
        origins: &Origins<'_>,
        text: &ExplainedText,
    ) -> Result<(), AllocError> {
        self.out.push('[')?;
        let mut between = "";
        for part in &text.parts {
            self.out.push_str(between)?;
            self.push_part(origins, part)?;
            between = ",";
        }
        self.out.push(']')
    }

    fn push_part(&mut self, origins: &Origins<'_>, part: &AuthoredText) -> Result<(), AllocError> {
        self.out.push_str("{\"text\":")?;
        push_json(&mut self.out, part.text.as_str())?;
        self.out.push_str(",\"element\":")?;
        match origin_of(origins, part.author) {
            Some(origin) => self.push_element(origins, origin)?,
            None => self.out.push_str("null")?,
        }
        self.out.push('}')
    }

    fn push_element(&mut self, origins: &Origins<'_>, origin: Origin) -> Result<(), AllocError> {
        self.out.push_str("{\"name\":")?;
        push_json(&mut self.out, origin.name)?;
        self.push_place(origin.offset)?;
        self.out.push_str(",\"macros\":[")?;
        let mut between = "";
        for called in &origins.macros_around(self.alloc, origin)? {
            self.out.push_str(between)?;
            self.push_macro(called)?;
            between = ",";
        }
        self.out.push_str("]}")
    }

    fn push_macro(&mut self, called: &CalledMacro<'_>) -> Result<(), AllocError> {
        self.out.push_str("{\"name\":")?;
        push_json(&mut self.out, called.name)?;
        self.push_place(called.offset)?;
        self.out.push_str(",\"call\":{")?;
        self.push_numbers(called.call_offset)?;
        self.out.push_str("}}")
    }

    /// Adds the line and the column of an offset behind other members.
    fn push_place(&mut self, offset: usize) -> Result<(), AllocError> {
        self.out.push(',')?;
        self.push_numbers(offset)
    }

    fn push_numbers(&mut self, offset: usize) -> Result<(), AllocError> {
        let place = self.source.place(offset);
        self.out.push_str("\"line\":")?;
        push_number(&mut self.out, place.line)?;
        self.out.push_str(",\"column\":")?;
        push_number(&mut self.out, place.column)
    }
}
