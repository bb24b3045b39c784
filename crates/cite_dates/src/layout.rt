//! Which parts a date has in a style, and how each is written.
use cite_locale::chain::LocaleChain;
use std::alloc::{AllocError, Global};
use style_file::date::{
    Date, DateFormat, DatePart, DatePartName, DateParts, DayForm, MonthForm, YearForm,
};
use style_file::formatting::{Formatting, TextCase};

/// A part of a date, in the order of their sizes.
#[derive(Clone, Copy, PartialEq, Eq)]
pub enum Unit {
    Year,
    Month,
    Day,
}

/// The form of a part.
#[derive(Clone, Copy, PartialEq, Eq)]
pub enum PartForm {
    Year(YearForm),
    Month(MonthForm),
    Day(DayForm),
}

impl PartForm {
    /// What the form is for.
    pub fn unit(self) -> Unit {
        match self {
            PartForm::Year(_) => Unit::Year,
            PartForm::Month(_) => Unit::Month,
            PartForm::Day(_) => Unit::Day,
        }
    }
}

/// How a part is written.
#[derive(Clone, Copy)]
pub struct PartLayout<'s> {
    pub form: PartForm,
    pub prefix: &'s str,
    pub suffix: &'s str,
    pub range_delimiter: &'s str,
    pub formatting: Formatting,
    pub text_case: Option<TextCase>,
    pub strips_periods: bool,
}

/// How a date is written: its parts in their order, and what stands between them.
#[derive(Drop)]
pub struct DateLayout<'s> {
    pub parts: Vec<PartLayout<'s>>,
    pub delimiter: &'s str,
    /// The formatting and the text case of the locale's date.
    pub formatting: Formatting,
    pub text_case: Option<TextCase>,
    /// Whether it is the locale's. White space at the ends of its affixes is not written then.
    pub is_localized: bool,
}

/// What stands between the dates of a range where no delimiter is given.
pub const RANGE_DELIMITER: &str = "–";

/// Formatting that asks for nothing.
const NOTHING_ASKED: Formatting = Formatting {
    font_style: None,
    font_variant: None,
    font_weight: None,
    text_decoration: None,
    vertical_align: None,
};

/// The layout of a date of a style: its own, or that of the locale with the parts that are asked
/// for, as the style sets them. Without parts where no locale has a date of the form.
///
/// # Errors
///
/// Where memory is refused.
pub fn layout_of<'s>(
    alloc: Global,
    locales: &LocaleChain<'s>,
    element: &'s Date,
) -> Result<DateLayout<'s>, AllocError> {
    match &element.format {
        DateFormat::Own { parts, delimiter } => Ok(DateLayout {
            parts: own_parts(alloc, parts)?,
            delimiter: delimiter.as_str(),
            formatting: NOTHING_ASKED,
            text_case: None,
            is_localized: false,
        }),
        DateFormat::Localized {
            form,
            parts,
            settings,
        } => match locales.date(*form) {
            Some(date) => Ok(DateLayout {
                parts: localized_parts(alloc, &date.parts, *parts, settings)?,
                delimiter: date.delimiter.as_str(),
                formatting: date.formatting,
                text_case: date.text_case,
                is_localized: true,
            }),
            None => Ok(DateLayout {
                parts: Vec::new(alloc),
                delimiter: "",
                formatting: NOTHING_ASKED,
                text_case: None,
                is_localized: true,
            }),
        },
    }
}

fn own_parts<'s>(alloc: Global, parts: &'s [DatePart]) -> Result<Vec<PartLayout<'s>>, AllocError> {
    let mut layouts = Vec::new(alloc);
    for part in parts {
        push_layout(&mut layouts, part_layout(part))?;
    }
    Ok(layouts)
}

/// The parts of a locale's date that are asked for, in the form and the formatting that the style
/// sets.
fn localized_parts<'s>(
    alloc: Global,
    parts: &'s [DatePart],
    wanted: DateParts,
    settings: &'s [DatePart],
) -> Result<Vec<PartLayout<'s>>, AllocError> {
    let mut layouts = Vec::new(alloc);
    for part in parts {
        let layout = part_layout(part);
        if is_wanted(layout.form.unit(), wanted) {
            push_layout(&mut layouts, with_settings(layout, settings))?;
        }
    }
    Ok(layouts)
}

fn push_layout<'s>(
    layouts: &mut Vec<PartLayout<'s>>,
    layout: PartLayout<'s>,
) -> Result<(), AllocError> {
    layouts.push(layout)?;
    Ok(())
}

fn is_wanted(unit: Unit, wanted: DateParts) -> bool {
    match wanted {
        DateParts::YearMonthDay => true,
        DateParts::YearMonth => unit != Unit::Day,
        DateParts::Year => unit == Unit::Year,
    }
}

fn part_layout(part: &DatePart) -> PartLayout<'_> {
    PartLayout {
        form: form_of(part.name),
        prefix: part.affixes.prefix.as_str(),
        suffix: part.affixes.suffix.as_str(),
        range_delimiter: match &part.range_delimiter {
            Some(delimiter) => delimiter.as_str(),
            None => RANGE_DELIMITER,
        },
        formatting: part.formatting,
        text_case: part.text_case,
        strips_periods: part.strip_periods,
    }
}

/// The form that a part asks for, or else the default.
fn form_of(name: DatePartName) -> PartForm {
    match name {
        DatePartName::Day(form) => PartForm::Day(form.unwrap_or(DayForm::Numeric)),
        DatePartName::Month(form) => PartForm::Month(form.unwrap_or(MonthForm::Long)),
        DatePartName::Year(form) => PartForm::Year(form.unwrap_or(YearForm::Long)),
    }
}

/// A part of a locale's date as the style sets it. Its affixes are always those of the locale.
fn with_settings<'s>(layout: PartLayout<'s>, settings: &'s [DatePart]) -> PartLayout<'s> {
    let mut layout = layout;
    for part in settings {
        if let Some(form) = set_form(part.name, layout.form) {
            layout.form = form;
            layout.formatting = over(layout.formatting, part.formatting);
            layout.text_case = part.text_case.or(layout.text_case);
            layout.strips_periods = layout.strips_periods || part.strip_periods;
            if let Some(delimiter) = &part.range_delimiter {
                layout.range_delimiter = delimiter.as_str();
            }
        }
    }
    layout
}

/// The form of a part where the style has settings for it; that of the locale where they tell none.
fn set_form(name: DatePartName, form: PartForm) -> Option<PartForm> {
    match (name, form) {
        (DatePartName::Day(set), PartForm::Day(own)) => Some(PartForm::Day(set.unwrap_or(own))),
        (DatePartName::Month(set), PartForm::Month(own)) => {
            Some(PartForm::Month(set.unwrap_or(own)))
        }
        (DatePartName::Year(set), PartForm::Year(own)) => Some(PartForm::Year(set.unwrap_or(own))),
        _ => None,
    }
}

/// The formatting, with what is asked for in its place.
fn over(formatting: Formatting, asked: Formatting) -> Formatting {
    Formatting {
        font_style: asked.font_style.or(formatting.font_style),
        font_variant: asked.font_variant.or(formatting.font_variant),
        font_weight: asked.font_weight.or(formatting.font_weight),
        text_decoration: asked.text_decoration.or(formatting.text_decoration),
        vertical_align: asked.vertical_align.or(formatting.vertical_align),
    }
}
