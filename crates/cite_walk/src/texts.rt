//! Texts (CSL 1.0.2, "Text").
use crate::cite::SceneKind;
use crate::labels::label_of;
use crate::links::Linked;
use crate::sorted::sorted_number;
use crate::values::{Value, in_place_of};
use crate::walk::{Walk, text_element};
use cite_locale::forms::RANGE_DELIMITER;
use cite_pieces::output::Element;
use cite_pieces::piece::Mark;
use cite_texts::numbers::is_numeric;
use cite_texts::pages::page_ranges;
use driver_lookup::year::letters_of_suffix;
use reference_values::rich_text::RichText;
use std::alloc::AllocError;
use style_file::element::{Text, TextSource, VariableForm};
use style_file::locator::LocatorType;
use style_file::style::PageRangeFormat;
use style_file::term::{PlainTerm, TermName};
use style_file::variable::{NumberVariable, TextVariable, Variable};

/// What terms are marked as.
pub const TERM: Mark = Mark::Other(0);

impl<'s> Walk<'s, '_> {
    /// Writes a text that is no macro. Of a cite that is cut to its suffix, the suffix, the locator
    /// and the words for no date stay.
    pub(crate) fn write_text(&mut self, text: &'s Text) -> Result<(), AllocError> {
        match &text.source {
            TextSource::Variable { variable, form } => {
                let is_short = *form == VariableForm::Short;
                self.write_text_variable(text, *variable, is_short)
            }
            TextSource::Number(variable) => self.write_number_as_text(text, *variable),
            TextSource::Macro(_) => Ok(()),
            TextSource::Term { name, form, plural } => {
                let is_no_date = *name == TermName::Plain(PlainTerm::NoDate);
                if self.cite.is_cut_to_suffix && !is_no_date {
                    return Ok(());
                }
                let words = self.scene.locale.term(*name, *form, *plural).unwrap_or("");
                if is_no_date {
                    return self.write_no_date(text, words);
                }
                self.write_term(text, words)
            }
            TextSource::Value(value) => {
                if self.cite.is_cut_to_suffix {
                    return Ok(());
                }
                let value = RichText::of_markup(self.alloc(), value.as_str())?;
                let element = self.words_element(text);
                self.output.open(element)?;
                self.output.push_rich(&value)?;
                self.output.close()?;
                Ok(())
            }
        }
    }

    /// Writes a term of the locale.
    fn write_term(&mut self, text: &'s Text, words: &str) -> Result<(), AllocError> {
        let element = self.words_element(text);
        self.output.open(Element {
            mark: Some(TERM),
            ..element
        })?;
        self.output.push_str(words)?;
        self.output.close()?;
        Ok(())
    }

    /// Writes the words for no date. To the driver they are a date, and the suffix of the year
    /// follows it; as a term they aren't a variable.
    fn write_no_date(&mut self, text: &'s Text, words: &str) -> Result<(), AllocError> {
        let mark = Mark::Date(self.dates);
        self.dates = self.dates.saturating_add(1);
        let element = self.words_element(text);
        self.output.open(Element {
            mark: Some(mark),
            ..element
        })?;
        self.output.push_str(words)?;
        self.write_implicit_suffix()?;
        self.output.close()?;
        Ok(())
    }

    /// The element of words of a style or a locale, which are in the language of these.
    fn words_element(&self, text: &'s Text) -> Element<'s> {
        Element {
            language: Some(self.scene.locale.language()),
            ..text_element(text)
        }
    }

    fn write_text_variable(
        &mut self,
        text: &'s Text,
        variable: TextVariable,
        is_short: bool,
    ) -> Result<(), AllocError> {
        if variable == TextVariable::YearSuffix {
            return self.write_suffix(text);
        }
        if self.cite.is_cut_to_suffix || self.is_suppressed(Variable::Text(variable)) {
            self.call(false);
            return Ok(());
        }
        if variable == TextVariable::CitationLabel {
            return self.write_citation_label(text);
        }
        let Some(value) = self.text_value(variable, is_short)? else {
            self.call(false);
            return Ok(());
        };
        self.use_variable(Variable::Text(variable))?;
        if let Some(linked) = Linked::of_variable(variable) {
            return self.write_link(text, linked, value.text());
        }
        self.output.open(text_element(text))?;
        self.output.push_rich(value.text())?;
        self.output.close()?;
        Ok(())
    }

    /// Writes the suffix of the year where the style has a place for it.
    fn write_suffix(&mut self, text: &'s Text) -> Result<(), AllocError> {
        let Some(suffix) = self.cite.year_suffix else {
            return Ok(());
        };
        self.use_variable(Variable::Text(TextVariable::YearSuffix))?;
        let letters = letters_of_suffix(self.alloc(), suffix)?;
        self.output.open(Element {
            mark: Some(Mark::YearSuffix),
            ..text_element(text)
        })?;
        self.output.push_str(letters.as_str())?;
        self.output.close()?;
        Ok(())
    }

    /// Writes the suffix of the year after the first date, where the style has no place for it.
    pub(crate) fn write_implicit_suffix(&mut self) -> Result<(), AllocError> {
        let Some(letters) = self.take_implicit_suffix()? else {
            return Ok(());
        };
        self.call(true);
        self.output.open(Element {
            mark: Some(Mark::YearSuffix),
            ..Element::PLAIN
        })?;
        self.output.push_str(letters.as_str())?;
        self.output.close()?;
        Ok(())
    }

    /// The letters of the suffix that stands here, where the style has no place for it; each cite
    /// has it once.
    pub(crate) fn take_implicit_suffix(&mut self) -> Result<Option<String>, AllocError> {
        if self.has_written_suffix || !self.scene.adds_year_suffix {
            return Ok(None);
        }
        let Some(suffix) = self.cite.year_suffix else {
            return Ok(None);
        };
        self.has_written_suffix = true;
        Ok(Some(letters_of_suffix(self.alloc(), suffix)?))
    }

    /// Writes the label of the item, with the suffix of its year, also where its date has that: the
    /// label of an item of the bibliography is that of its cites.
    fn write_citation_label(&mut self, text: &'s Text) -> Result<(), AllocError> {
        let alloc = self.alloc();
        let label = label_of(alloc, self.cite.reference)?;
        self.use_variable(Variable::Text(TextVariable::CitationLabel))?;
        self.usage = self.usage.label();
        self.output.open(Element {
            mark: Some(Mark::CitationLabel),
            ..Element::PLAIN
        })?;
        self.output.open(text_element(text))?;
        self.output.push_rich(&label)?;
        if self.has_written_suffix {
            self.repeat_suffix()?;
        } else {
            self.write_implicit_suffix()?;
        }
        self.output.close()?;
        self.output.close()?;
        Ok(())
    }

    /// Writes the suffix of the year once more.
    fn repeat_suffix(&mut self) -> Result<(), AllocError> {
        let Some(suffix) = self.cite.year_suffix else {
            return Ok(());
        };
        let letters = letters_of_suffix(self.alloc(), suffix)?;
        self.output.push_str(letters.as_str())
    }

    fn write_number_as_text(
        &mut self,
        text: &'s Text,
        variable: NumberVariable,
    ) -> Result<(), AllocError> {
        let is_cut = self.cite.is_cut_to_suffix && variable != NumberVariable::Locator;
        if is_cut || self.is_suppressed(Variable::Number(variable)) {
            self.call(false);
            return Ok(());
        }
        let Some(value) = self.number_value(variable)? else {
            self.call(false);
            return Ok(());
        };
        self.use_variable(Variable::Number(variable))?;
        self.open_number(variable)?;
        self.output.open(text_element(text))?;
        self.push_number_text(variable, &value)?;
        self.output.close()?;
        self.output.close()?;
        Ok(())
    }

    /// Opens the element that marks a number with its affixes.
    pub(crate) fn open_number(&mut self, variable: NumberVariable) -> Result<(), AllocError> {
        if variable == NumberVariable::CitationNumber {
            self.usage = self.usage.number();
        }
        self.output.open(Element {
            mark: match variable {
                NumberVariable::CitationNumber => Some(Mark::CitationNumber),
                NumberVariable::Locator => Some(Mark::Locator),
                _ => None,
            },
            ..Element::PLAIN
        })
    }

    /// Writes the value of a number variable as it stands; ranges of pages in the style's form.
    pub(crate) fn push_number_text(
        &mut self,
        variable: NumberVariable,
        value: &Value<'_>,
    ) -> Result<(), AllocError> {
        if let SceneKind::Key(_) = self.scene.kind {
            let alloc = self.alloc();
            let plain = value.text().plain(alloc)?;
            let sorted = sorted_number(alloc, plain.as_str())?;
            return self.output.push_str(sorted.as_str());
        }
        let alloc = self.alloc();
        let plain = value.text().plain(alloc)?;
        let format = match variable {
            NumberVariable::Page => self.scene.style.options.page_range_format,
            NumberVariable::Locator => self.locator_range_format(),
            _ if is_numeric(plain.as_str()) || plain.as_str().contains("\\-") => None,
            _ => return self.output.push_rich(value.text()),
        };
        let delimiter = self.range_delimiter(variable);
        let ranges = page_ranges(alloc, plain.as_str(), format, delimiter)?;
        self.output
            .push_rich(&in_place_of(alloc, value.text(), ranges.as_str())?)
    }
}

impl<'s> Walk<'s, '_> {
    /// The form of ranges in the locator: that of pages is for pages alone.
    fn locator_range_format(&self) -> Option<PageRangeFormat> {
        if self.has_pages() {
            self.scene.style.options.page_range_format
        } else {
            None
        }
    }

    /// What stands between the numbers of a range: of pages, what the locale has for them.
    fn range_delimiter(&self, variable: NumberVariable) -> &'s str {
        match variable {
            NumberVariable::Page => self.scene.locale.page_range_delimiter(),
            NumberVariable::Locator if self.has_pages() => {
                self.scene.locale.page_range_delimiter()
            }
            _ => RANGE_DELIMITER,
        }
    }

    /// Whether the locator is one of pages.
    fn has_pages(&self) -> bool {
        match &self.locator {
            Some(locator) => locator.kind == LocatorType::Page,
            None => false,
        }
    }
}
