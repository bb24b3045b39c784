//! Lists of names (CSL 1.0.2, "Name" and "Et-al").
use crate::forms::{form_of, shown_by};
use crate::others::told_names;
use crate::parts::{PartRole, WrittenPart, may_be_inverted, parts_of};
use crate::rules::NameRules;
use crate::scripts::is_spaced;
use crate::shown::ShownNames;
use cite_pieces::formatting::NOTHING_ASKED;
use cite_pieces::output::{Element, Output, element_with};
use cite_pieces::piece::Mark;
use csl_base::names::DisambiguatedNameForm;
use reference_values::name::Name;
use std::alloc::{AllocError, Global};
use style_file::formatting::Formatting;
use style_file::names::{DelimiterPrecedes, NameAnd, NameAsSortOrder, NamePart};
use style_file::variable::NameVariable;

/// The words of a locale between names.
#[derive(Clone, Copy)]
pub struct NameWords<'l> {
    /// The term `and`.
    pub and: &'l str,
    /// What stands for names that are cut.
    pub et_al: &'l str,
}

/// How a list of names is written.
#[derive(Clone, Copy)]
pub struct NameList<'s, 'l> {
    pub rules: NameRules<'s>,
    pub words: NameWords<'l>,
    /// What stands around each name: its affixes and its formatting.
    pub setting: Element<'s>,
    /// The formatting of what stands for names that are cut.
    pub et_al_formatting: Option<Formatting>,
    pub variable: NameVariable,
}

impl<'s> NameList<'s, '_> {
    /// Writes names, each in its form. A last one that stands for others is written as those that
    /// are cut.
    ///
    /// # Errors
    ///
    /// Where memory is refused.
    pub fn push(
        &self,
        alloc: Global,
        output: &mut Output<'s>,
        names: &[Name],
        forms: &[DisambiguatedNameForm],
    ) -> Result<(), AllocError> {
        let told = told_names(names);
        let shown = shown_by(forms, self.rules.use_last, told.len(), names.len());
        let first = shown.first_names(names.len());
        for (place, name) in told.iter().take(first).enumerate() {
            if place > 0 {
                self.push_between(output, names, place)?;
            }
            let form = forms.get(place).copied().unwrap_or(form_of(&self.rules));
            self.push_name(alloc, output, name, place, form)?;
        }
        match shown {
            ShownNames::All | ShownNames::First(0) => Ok(()),
            ShownNames::First(written) => self.push_et_al(output, names, written),
            ShownNames::FirstAndLast(_) => self.push_last(alloc, output, names),
        }
    }

    /// Writes what stands before the name at this place, which isn't the first.
    fn push_between(
        &self,
        output: &mut Output<'s>,
        names: &[Name],
        place: usize,
    ) -> Result<(), AllocError> {
        let is_last = place.saturating_add(1) == names.len();
        let word = match self.rules.and {
            Some(NameAnd::Text) => self.words.and,
            Some(NameAnd::Symbol) => "&",
            None => "",
        };
        if !is_last || word.is_empty() {
            return output.push_str(self.rules.delimiter);
        }
        let is_tight = is_unspaced(word);
        let precedes = match self.rules.precedes_last {
            DelimiterPrecedes::Contextual => names.len() > 2 && !is_tight,
            DelimiterPrecedes::AfterInvertedName => {
                self.is_inverted_at(names, place.saturating_sub(1))
            },
            DelimiterPrecedes::Always => true,
            DelimiterPrecedes::Never => false,
        };
        if is_tight {
            if precedes {
                output.push_str(self.rules.delimiter)?;
            }
            return output.push_str(word);
        }
        if precedes {
            output.push_str(self.rules.delimiter.trim_end())?;
        }
        if word.ends_with(|c: char| c.is_whitespace()) {
            return output.push_str(word);
        }
        output.push_str(" ")?;
        output.push_str(word)?;
        output.push_str(" ")
    }

    /// Writes what stands for the names behind the first ones.
    fn push_et_al(
        &self,
        output: &mut Output<'s>,
        names: &[Name],
        written: usize,
    ) -> Result<(), AllocError> {
        if self.words.et_al.is_empty() {
            return Ok(());
        }
        let precedes = match self.rules.precedes_et_al {
            DelimiterPrecedes::Contextual => written > 1,
            DelimiterPrecedes::AfterInvertedName => {
                self.is_inverted_at(names, written.saturating_sub(1))
            },
            DelimiterPrecedes::Always => true,
            DelimiterPrecedes::Never => false,
        };
        if precedes {
            output.push_str(self.rules.delimiter)?;
        } else if is_spaced(self.words.et_al) {
            output.push_str(" ")?;
        }
        let element = Element {
            formatting: self.et_al_formatting.unwrap_or(NOTHING_ASKED),
            ..Element::PLAIN
        };
        output.open(element)?;
        output.push_str(self.words.et_al)?;
        output.close()?;
        Ok(())
    }

    /// Writes the last name behind a gap.
    fn push_last(
        &self,
        alloc: Global,
        output: &mut Output<'s>,
        names: &[Name],
    ) -> Result<(), AllocError> {
        let Some((last, before)) = names.split_last() else {
            return Ok(());
        };
        output.push_str(self.rules.delimiter)?;
        output.push_str("… ")?;
        self.push_name(alloc, output, last, before.len(), form_of(&self.rules))
    }

    /// Whether the name at this place begins with the family name.
    fn is_inverted_at(&self, names: &[Name], place: usize) -> bool {
        let is_asked = match self.rules.sort_order {
            Some(NameAsSortOrder::All) => true,
            Some(NameAsSortOrder::First) => place == 0,
            None => false,
        };
        is_asked && names.get(place).is_some_and(may_be_inverted)
    }

    /// Writes the name at this place.
    fn push_name(
        &self,
        alloc: Global,
        output: &mut Output<'s>,
        name: &Name,
        place: usize,
        form: DisambiguatedNameForm,
    ) -> Result<(), AllocError> {
        let is_inverted = match self.rules.sort_order {
            Some(NameAsSortOrder::All) => may_be_inverted(name),
            Some(NameAsSortOrder::First) => place == 0 && may_be_inverted(name),
            None => false,
        };
        output.open(Element {
            mark: Some(Mark::Name(self.variable, place)),
            ..self.setting
        })?;
        let mut affixed = PartRole::Between;
        output.open(self.affixes_of(affixed))?;
        for part in parts_of(alloc, &self.rules, name, form, is_inverted)? {
            if part.affixed != affixed {
                affixed = part.affixed;
                output.close()?;
                output.open(self.affixes_of(affixed))?;
            }
            self.push_part(output, &part)?;
        }
        output.close()?;
        output.close()?;
        Ok(())
    }

    /// The element of a style that sets the parts of a role.
    fn setting_of(&self, role: PartRole) -> Option<&'s NamePart> {
        match role {
            PartRole::Family => self.rules.family,
            PartRole::Given => self.rules.given,
            PartRole::Between => None,
        }
    }

    /// An element with the affixes of a role.
    fn affixes_of(&self, role: PartRole) -> Element<'s> {
        match self.setting_of(role) {
            Some(setting) => element_with(&setting.affixes, NOTHING_ASKED),
            None => Element::PLAIN,
        }
    }

    fn push_part(&self, output: &mut Output<'s>, part: &WrittenPart) -> Result<(), AllocError> {
        let Some(setting) = self.setting_of(part.role) else {
            return output.push_markup(part.text.as_str());
        };
        output.open(part_element(setting))?;
        output.push_markup(part.text.as_str())?;
        output.close()?;
        Ok(())
    }
}

/// Whether a word is of a script that is written without spaces: neither a space nor a delimiter by
/// itself is beside it then, as in `王小明和李四`.
fn is_unspaced(word: &str) -> bool {
    word.chars().any(|c| c.is_alphabetic()) && !is_spaced(word)
}

/// The element of a part of a name, without its affixes.
fn part_element(part: &NamePart) -> Element<'static> {
    Element {
        text_case: part.text_case,
        formatting: part.formatting,
        ..Element::PLAIN
    }
}
