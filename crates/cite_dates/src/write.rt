//! Dates are written.
use crate::edges::{Edge, Ends};
use crate::layout::{DateLayout, PartLayout, RANGE_DELIMITER, Unit, layout_of};
use crate::span::{Differing, part_of, parted};
use crate::text::part_text;
use cite_locale::chain::LocaleChain;
use cite_pieces::output::{Element, Output, element_with};
use cite_pieces::piece::Mark;
use reference_values::date::{Date, DateSpan, PartialDate};
use std::alloc::{AllocError, Global};
use style_file::date;

/// How a date is written, beside what its element says.
#[derive(Clone, Copy)]
pub struct DateOptions<'o> {
    /// What the date is marked as.
    pub mark: Option<Mark>,
    /// What follows the year, marked as the year suffix.
    pub year_suffix: Option<&'o str>,
}

/// Writes a date as an element of a style asks for, as a child of the innermost element that is
/// open. A literal text stands in place of the date. Of a range the parts that both dates share are
/// written once (1–4 May 2008), and what stands between the dates is that of the greatest part that
/// differs. A date that lacks all parts that are asked for leaves nothing.
///
/// # Errors
///
/// Where memory is refused.
pub fn push_date<'s>(
    output: &mut Output<'s>,
    locales: &LocaleChain<'s>,
    element: &'s date::Date,
    date: &Date,
    options: DateOptions<'_>,
) -> Result<(), AllocError> {
    output.open(Element {
        display: element.display,
        text_case: element.text_case,
        mark: options.mark,
        ..element_with(&element.affixes, element.formatting)
    })?;
    match (&date.literal, &date.span) {
        (Some(literal), _) => push_literal(output, literal.as_str(), options.year_suffix)?,
        (None, Some(span)) => {
            let layout = layout_of(output.alloc(), locales, element)?;
            push_span(output, locales, &layout, span, options.year_suffix)?;
        }
        (None, None) => {}
    }
    output.close()?;
    Ok(())
}

/// Writes the text of a date, and what follows its year.
fn push_literal(
    output: &mut Output<'_>,
    literal: &str,
    year_suffix: Option<&str>,
) -> Result<(), AllocError> {
    output.push_str(literal)?;
    match year_suffix {
        Some(suffix) => push_year_suffix(output, suffix),
        None => Ok(()),
    }
}

/// Writes a span in the formatting of the locale's date.
fn push_span<'s>(
    output: &mut Output<'s>,
    locales: &LocaleChain<'s>,
    layout: &DateLayout<'s>,
    span: &DateSpan,
    year_suffix: Option<&str>,
) -> Result<(), AllocError> {
    output.open(Element {
        delimiter: layout.delimiter,
        formatting: layout.formatting,
        text_case: layout.text_case,
        ..Element::PLAIN
    })?;
    push_dates(output, locales, layout, span, ends_of(layout, year_suffix))?;
    output.close()?;
    Ok(())
}

/// How the first and the last part of a date are written.
fn ends_of<'t>(layout: &DateLayout<'_>, year_suffix: Option<&'t str>) -> Ends<'t> {
    let edge = if layout.is_localized {
        Edge::Trimmed
    } else {
        Edge::Kept
    };
    Ends {
        first: edge,
        last: edge,
        year_suffix,
    }
}

/// Writes the dates of a span.
fn push_dates<'s>(
    output: &mut Output<'s>,
    locales: &LocaleChain<'s>,
    layout: &DateLayout<'s>,
    span: &DateSpan,
    ends: Ends<'_>,
) -> Result<(), AllocError> {
    match span {
        DateSpan::On(date) => push_parts(output, locales, &layout.parts, date, ends),
        DateSpan::Between(first, last) => push_range(output, locales, layout, first, last, ends),
        DateSpan::Since(first) => {
            push_parts(output, locales, &layout.parts, first, ends)?;
            output.push_str(open_delimiter(&layout.parts))
        }
        DateSpan::Until(last) => {
            output.open(Element::PLAIN)?;
            output.push_str(open_delimiter(&layout.parts))?;
            push_block(output, locales, layout, &layout.parts, last, ends)?;
            output.close()?;
            Ok(())
        }
    }
}

/// What stands at the open end of a range.
fn open_delimiter<'s>(parts: &[PartLayout<'s>]) -> &'s str {
    match part_of(parts, Unit::Year) {
        Some(year) => year.range_delimiter,
        None => RANGE_DELIMITER,
    }
}

/// Writes a range of dates.
fn push_range<'s>(
    output: &mut Output<'s>,
    locales: &LocaleChain<'s>,
    layout: &DateLayout<'s>,
    first: &PartialDate,
    last: &PartialDate,
    ends: Ends<'_>,
) -> Result<(), AllocError> {
    let Some(range) = parted(&layout.parts, first, last) else {
        let fuller = if last.part.is_none() { first } else { last };
        return push_parts(output, locales, &layout.parts, fuller, ends);
    };
    let before = layout.parts.get(..range.begin).unwrap_or(&[]);
    let behind = layout.parts.get(range.end..).unwrap_or(&[]);
    push_parts(output, locales, before, last, ends.with_last(Edge::Kept))?;
    let mut around = ends;
    if !before.is_empty() {
        around.first = Edge::Kept;
    }
    if !behind.is_empty() {
        around.last = Edge::Kept;
    }
    output.open(Element::PLAIN)?;
    push_both(output, locales, layout, range, first, last, around)?;
    output.close()?;
    push_parts(output, locales, behind, last, ends.with_first(Edge::Kept))
}

/// Writes the parts of both dates of a range.
fn push_both<'s>(
    output: &mut Output<'s>,
    locales: &LocaleChain<'s>,
    layout: &DateLayout<'s>,
    range: Differing<'s>,
    first: &PartialDate,
    last: &PartialDate,
    ends: Ends<'_>,
) -> Result<(), AllocError> {
    let both = layout.parts.get(range.begin..range.end).unwrap_or(&[]);
    let of_first = ends.with_last(Edge::Dropped).without_suffix();
    push_block(output, locales, layout, both, first, of_first)?;
    output.push_str(range.delimiter)?;
    let of_last = ends.with_first(Edge::Dropped);
    push_block(output, locales, layout, both, last, of_last)
}

/// Writes parts as one element.
fn push_block<'s>(
    output: &mut Output<'s>,
    locales: &LocaleChain<'s>,
    layout: &DateLayout<'s>,
    parts: &[PartLayout<'s>],
    date: &PartialDate,
    ends: Ends<'_>,
) -> Result<(), AllocError> {
    output.open(Element {
        delimiter: layout.delimiter,
        ..Element::PLAIN
    })?;
    push_parts(output, locales, parts, date, ends)?;
    output.close()?;
    Ok(())
}

/// A part of a date, and its text.
#[derive(Drop)]
struct WrittenPart<'s> {
    layout: PartLayout<'s>,
    text: String,
}

/// Writes the parts that a date has.
fn push_parts<'s>(
    output: &mut Output<'s>,
    locales: &LocaleChain<'s>,
    parts: &[PartLayout<'s>],
    date: &PartialDate,
    ends: Ends<'_>,
) -> Result<(), AllocError> {
    let written = written_parts(output.alloc(), locales, parts, date)?;
    for (place, part) in written.iter().enumerate() {
        let is_first = place == 0;
        let is_last = place + 1 == written.len();
        push_part(output, part, ends.of_part(is_first, is_last))?;
    }
    Ok(())
}

/// The parts that a date has.
fn written_parts<'s>(
    alloc: Global,
    locales: &LocaleChain<'s>,
    parts: &[PartLayout<'s>],
    date: &PartialDate,
) -> Result<Vec<WrittenPart<'s>>, AllocError> {
    let mut written = Vec::new(alloc);
    for part in parts {
        if let Some(text) = part_text(alloc, locales, part.form, date)? {
            written.push(WrittenPart {
                layout: *part,
                text,
            })?;
        }
    }
    Ok(written)
}

/// Writes a part, and what follows the year.
fn push_part<'s>(
    output: &mut Output<'s>,
    part: &WrittenPart<'s>,
    ends: Ends<'_>,
) -> Result<(), AllocError> {
    let layout = part.layout;
    output.open(Element {
        prefix: ends.first.prefix(layout.prefix),
        suffix: ends.last.suffix(layout.suffix),
        formatting: layout.formatting,
        text_case: layout.text_case,
        strips_periods: layout.strips_periods,
        ..Element::PLAIN
    })?;
    output.push_str(part.text.as_str())?;
    if let (Unit::Year, Some(suffix)) = (layout.form.unit(), ends.year_suffix) {
        push_year_suffix(output, suffix)?;
    }
    output.close()?;
    Ok(())
}

fn push_year_suffix(output: &mut Output<'_>, suffix: &str) -> Result<(), AllocError> {
    output.open(Element {
        mark: Some(Mark::YearSuffix),
        ..Element::PLAIN
    })?;
    output.push_str(suffix)?;
    output.close()?;
    Ok(())
}
