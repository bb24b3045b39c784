//! Dates (CSL 1.0.2, "Date").
use crate::cite::SceneKind;
use crate::walk::Walk;
use cite_dates::layout::{Unit, layout_of};
use cite_dates::sorting::sorted_date;
use cite_dates::write::{DateOptions, push_date};
use cite_pieces::output::Element;
use cite_pieces::piece::Mark;
use reference_values::date;
use std::alloc::AllocError;
use style_file::date::{Date, DateFormat, DatePartName, DateParts};
use style_file::variable::Variable;

impl<'s> Walk<'s, '_> {
    /// Writes a date. Of a cite that is cut to its suffix the suffix stays alone.
    pub(crate) fn write_date(&mut self, element: &'s Date) -> Result<(), AllocError> {
        let variable = Variable::Date(element.variable);
        let reference = self.cite.reference;
        let value = match reference.date(element.variable) {
            Some(value) if !self.is_suppressed(variable) => value,
            _ => {
                self.call(false);
                return Ok(());
            }
        };
        self.output.open(Element::PLAIN)?;
        if let SceneKind::Key(_) = self.scene.kind {
            self.write_sorted_date(element, value)?;
        } else {
            self.write_shown_date(element, value)?;
        }
        if self.output.close()? {
            self.use_variable(variable)
        } else {
            self.call(false);
            Ok(())
        }
    }

    /// Writes a date as its element asks for, with the suffix of the year where it belongs here.
    fn write_shown_date(
        &mut self,
        element: &'s Date,
        value: &date::Date,
    ) -> Result<(), AllocError> {
        let mark = Mark::Date(self.dates);
        self.dates = self.dates.saturating_add(1);
        if self.cite.is_cut_to_suffix {
            self.output.open(Element {
                mark: Some(mark),
                ..Element::PLAIN
            })?;
            self.write_implicit_suffix()?;
            self.output.close()?;
            return Ok(());
        }
        let locale = self.scene.locale;
        let layout = layout_of(self.alloc(), locale, element)?;
        let has_year = layout
            .parts
            .iter()
            .any(|part| part.form.unit() == Unit::Year);
        let suffix = if has_year || value.literal.is_some() {
            self.take_implicit_suffix()?
        } else {
            None
        };
        let options = DateOptions {
            mark: Some(mark),
            year_suffix: suffix.as_deref(),
        };
        push_date(&mut self.output, locale, element, value, options)
    }

    /// Writes a date as it is sorted, with the parts that its element asks for.
    fn write_sorted_date(
        &mut self,
        element: &'s Date,
        value: &date::Date,
    ) -> Result<(), AllocError> {
        let parts = match &element.format {
            DateFormat::Localized { parts, .. } => match parts {
                DateParts::YearMonthDay => 3,
                DateParts::YearMonth => 2,
                DateParts::Year => 1,
            },
            DateFormat::Own { parts, .. } => {
                let has_day = parts
                    .iter()
                    .any(|part| matches!(part.name, DatePartName::Day(_)));
                let has_month = parts
                    .iter()
                    .any(|part| matches!(part.name, DatePartName::Month(_)));
                if has_day {
                    3
                } else if has_month {
                    2
                } else {
                    1
                }
            }
        };
        let text = sorted_date(self.alloc(), value, parts)?;
        self.output.push_str(text.as_str())
    }
}
