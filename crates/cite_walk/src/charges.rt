//! What steps cost: each is paid for before it is taken.
use crate::cite::{CiteFacts, SceneKind};
use crate::walk::Walk;
use cite_limits::cost::Cost;
use cite_limits::error::{Excess, LimitError, StylePlace};
use cite_limits::steps::{Prices, STEPS_OF_NAME, block_cost, name_cost, step_cost};
use cite_names::rules::NameRules;
use cite_program::program::{NamesInUse, Step};
use reference_values::name::Name;
use reference_values::rich_text::RichText;
use style_file::choose::{Branch, Test};
use style_file::element::TextSource;
use style_file::sections::SortBy;
use style_file::variable::{DateVariable, NumberVariable, TextVariable, Variable};

impl<'s> Walk<'s, '_> {
    /// Takes the cost of a step from what is left.
    ///
    /// # Errors
    ///
    /// `Exceeded` where that is less.
    pub(crate) fn pay(&mut self, step: &Step<'s>) -> Result<(), LimitError> {
        let cost = self.price_of(step);
        self.bytes = self.bytes.saturating_add(cost.bytes);
        let cost = cost.plus(self.price_of_change(step));
        let allowance = self.allowance;
        if let Some(what) = allowance.left.lacks(cost) {
            let place = self.place();
            return Err(LimitError::Exceeded(Excess::of(what, allowance.most, place)));
        }
        self.allowance.left = allowance.left.less(cost);
        self.cost = self.cost.plus(cost);
        Ok(())
    }

    /// The innermost macro in which the walk is, or else the part of the style.
    fn place(&self) -> StylePlace {
        let mut place = match self.scene.kind {
            SceneKind::Cite => StylePlace::Citation,
            SceneKind::Item => StylePlace::Bibliography,
            SceneKind::Key(key) => match key.by {
                SortBy::Macro(index) => StylePlace::Macro(index.0),
                SortBy::Variable(_) => StylePlace::Citation,
            },
        };
        for frame in &self.frames {
            place = frame.called.unwrap_or(place);
        }
        place
    }

    /// What a step costs here, with what the item has, after the delimiter of what is around it.
    fn price_of(&self, step: &Step<'s>) -> Cost {
        let delimiter = match self.frames.last() {
            Some(frame) => frame.delimiter,
            None => 0,
        };
        let prices = Prices {
            down: self.handed_down(),
            names_delimiter: self.names_delimiter(),
            words: self.scene.budget.words(),
        };
        step_cost(self.scene.program, step, &prices)
            .plus(self.price_of_data(step, &prices))
            .plus(Cost::of_bytes(delimiter))
    }

    /// What the item adds to the cost of a step.
    fn price_of_data(&self, step: &Step<'s>, prices: &Prices<'s>) -> Cost {
        match step {
            Step::Text(text) => Cost::of_bytes(match &text.source {
                TextSource::Variable { variable, .. } => self.cite.text_length(*variable),
                TextSource::Number(variable) => self.cite.number_length(*variable),
                _ => 0,
            }),
            Step::Number(number) => Cost::of_bytes(self.cite.number_length(number.variable)),
            Step::Label(label) => Cost::of_bytes(self.cite.number_length(label.variable)),
            Step::Date(date) => Cost::of_bytes(self.cite.date_length(date.variable)),
            Step::Test { branch, .. } => Cost::of_bytes(self.cite.tested_length(branch)),
            Step::Names { names, .. } => match self.scene.program.names.get(*names) {
                Some(names) => self.price_of_names(names, prices),
                None => Cost::NOTHING,
            },
            Step::CloseSubstitute { .. } => Cost::of_steps(self.used_inside()),
            _ => Cost::NOTHING,
        }
    }

    /// What the persons of names cost.
    fn price_of_names(&self, names: &NamesInUse<'s>, prices: &Prices<'s>) -> Cost {
        let rules = NameRules::of_name(names.name, prices.down);
        let mut cost = Cost::NOTHING;
        for variable in names.variables {
            let Some(persons) = self.cite.reference.names(*variable) else {
                continue;
            };
            cost = cost.plus(block_cost(names, prices));
            for name in persons {
                let initials = length_of_given(name);
                cost = cost
                    .plus(name_cost(names, &rules, initials))
                    .plus(Cost::of_bytes(length_of_name(name)));
            }
        }
        cost
    }

    /// How many variables were used in the innermost element that is open.
    fn used_inside(&self) -> usize {
        match self.frames.last() {
            Some(frame) => self.used.len().saturating_sub(frame.used_before),
            None => 0,
        }
    }

    /// What is written once more at the end of an element that changes its content.
    fn price_of_change(&self, step: &Step<'s>) -> Cost {
        match (step, self.frames.last()) {
            (Step::CloseGroup, Some(frame)) if frame.is_changed => {
                Cost::of_bytes(self.bytes.saturating_sub(frame.bytes_before))
            }
            _ => Cost::NOTHING,
        }
    }
}

impl CiteFacts<'_> {
    /// What a variable costs as the value of a key.
    pub fn price(&self, variable: Variable) -> Cost {
        match variable {
            Variable::Text(variable) => bytes_in_step(self.text_length(variable)),
            Variable::Number(variable) => bytes_in_step(self.number_length(variable)),
            Variable::Date(variable) => bytes_in_step(self.date_length(variable)),
            Variable::Name(variable) => {
                let mut cost = Cost::STEP;
                for name in self.reference.names(variable).unwrap_or(&[]) {
                    cost = cost.plus(Cost {
                        steps: STEPS_OF_NAME,
                        bytes: length_of_name(name),
                    });
                }
                cost
            }
        }
    }

    /// The length of a text variable.
    fn text_length(&self, variable: TextVariable) -> usize {
        let own = rich_length(self.own_short_form(variable));
        rich_length(self.text(variable)).max(own)
    }

    /// The length of a number variable.
    fn number_length(&self, variable: NumberVariable) -> usize {
        match variable {
            NumberVariable::Locator => rich_length(self.locator.map(|locator| &locator.text)),
            NumberVariable::PageFirst => {
                let page = rich_length(self.reference.number(NumberVariable::Page));
                rich_length(self.reference.number(variable)).max(page)
            }
            _ => rich_length(self.reference.number(variable)),
        }
    }

    /// The length of the words of a date variable.
    fn date_length(&self, variable: DateVariable) -> usize {
        match self.reference.date(variable) {
            Some(date) => date.literal.as_deref().unwrap_or("").len(),
            None => 0,
        }
    }

    /// The length of what the tests of a branch read.
    fn tested_length(&self, branch: &Branch) -> usize {
        let mut length = 0usize;
        for test in &branch.tests {
            length = length.saturating_add(match test {
                Test::IsNumeric(Variable::Text(variable)) => self.text_length(*variable),
                Test::IsNumeric(Variable::Number(variable)) => self.number_length(*variable),
                _ => 0,
            });
        }
        length
    }
}

/// A step that writes so many bytes.
fn bytes_in_step(bytes: usize) -> Cost {
    Cost { steps: 1, bytes }
}

fn rich_length(text: Option<&RichText>) -> usize {
    let mut length = 0usize;
    if let Some(text) = text {
        for run in &text.runs {
            length = length.saturating_add(run.text.len());
        }
    }
    length
}

/// The length of the names that a name has.
fn length_of_name(name: &Name) -> usize {
    match name {
        Name::Literal(text) => text.len(),
        Name::Person(person) => {
            let family = person.family.as_deref().unwrap_or("").len();
            family.saturating_add(length_of_given(name))
        }
    }
}

/// The length of a given name, which has as many initials at most.
fn length_of_given(name: &Name) -> usize {
    match name {
        Name::Literal(_) => 0,
        Name::Person(person) => person.given.as_deref().unwrap_or("").len(),
    }
}
