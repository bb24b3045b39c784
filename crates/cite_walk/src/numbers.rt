//! Numbers and their labels (CSL 1.0.2, "Number" and "Label").
use crate::cite::SceneKind;
use crate::sorted::sorted_number;
use crate::values::in_place_of;
use crate::walk::Walk;
use cite_locale::forms::number_text;
use cite_locale::plurals::is_plural;
use cite_pieces::output::{Element, element_with};
use cite_texts::cases::Language;
use std::alloc::AllocError;
use style_file::element::{Label, Number, NumberForm};
use style_file::term::PlainTerm;
use style_file::variable::{NumberVariable, Variable};

impl<'s> Walk<'s, '_> {
    /// Writes a number. Of a cite that is cut to its suffix the locator stays.
    pub(crate) fn write_number(&mut self, number: &'s Number) -> Result<(), AllocError> {
        let variable = number.variable;
        let is_cut = self.cite.is_cut_to_suffix && variable != NumberVariable::Locator;
        if is_cut || self.is_suppressed(Variable::Number(variable)) {
            self.call(false);
            return Ok(());
        }
        let alloc = self.alloc();
        let Some(value) = self.number_value(variable)? else {
            self.call(false);
            return Ok(());
        };
        self.use_variable(Variable::Number(variable))?;
        let locale = self.scene.locale;
        let plain = value.text().plain(alloc)?;
        let gender = locale.gender_of(self.noun_of(variable));
        let text = match self.scene.kind {
            SceneKind::Key(_) => sorted_number(alloc, plain.as_str())?,
            SceneKind::Cite | SceneKind::Item => {
                number_text(alloc, locale, plain.as_str(), number.form, gender)?
            }
        };
        let language = self.language_of_form(number.form);
        self.open_number(variable)?;
        self.output.open(Element {
            display: number.display,
            text_case: number.text_case,
            language,
            ..element_with(&number.affixes, number.formatting)
        })?;
        self.output
            .push_rich(&in_place_of(alloc, value.text(), text.as_str())?)?;
        self.output.close()?;
        self.output.close()?;
        Ok(())
    }

    /// The language of a number in this form: ordinals are words of the locale.
    fn language_of_form(&self, form: NumberForm) -> Option<Language> {
        match form {
            NumberForm::Ordinal | NumberForm::LongOrdinal => Some(self.scene.locale.language()),
            NumberForm::Numeric | NumberForm::Roman => None,
        }
    }

    /// The term of what a variable counts.
    fn noun_of(&self, variable: NumberVariable) -> PlainTerm {
        match (variable, &self.locator) {
            (NumberVariable::Locator, Some(locator)) => locator.kind.term(),
            _ => variable.term(),
        }
    }

    /// Writes the label of a variable that has a value.
    pub(crate) fn write_label(&mut self, label: &'s Label) -> Result<(), AllocError> {
        let variable = label.variable;
        let is_cut = self.cite.is_cut_to_suffix && variable != NumberVariable::Locator;
        if is_cut || self.is_suppressed(Variable::Number(variable)) {
            return Ok(());
        }
        let alloc = self.alloc();
        let Some(value) = self.number_value(variable)? else {
            return Ok(());
        };
        let element = self.label_element(&label.options);
        let plain = value.text().plain(alloc)?;
        let counted = match (variable, &self.locator) {
            (NumberVariable::Locator, Some(locator)) => locator.counted.as_str(),
            _ => plain.as_str(),
        };
        let is_plural = is_plural(label.options.plural, variable, counted);
        let term = self.noun_of(variable);
        let words = self
            .scene
            .locale
            .plain_term(term, label.options.form, is_plural)
            .unwrap_or("");
        self.output.open(element)?;
        self.output.push_str(words)?;
        self.output.close()?;
        Ok(())
    }
}
