//! Conditions (CSL 1.0.2, "Choose").
use crate::cite::{CiteFacts, Repetition, SceneKind};
use crate::walk::Walk;
use cite_texts::numbers::is_numeric;
use std::alloc::AllocError;
use style_file::choose::{Branch, CitePosition, Match, Test};
use style_file::variable::{DateVariable, Variable};

impl Walk<'_, '_> {
    /// Whether a branch holds.
    pub(crate) fn holds(&mut self, branch: &Branch) -> Result<bool, AllocError> {
        let mut holding = 0usize;
        for test in &branch.tests {
            if self.test(*test)? {
                holding = holding.saturating_add(1);
            }
        }
        Ok(match branch.rule {
            Match::All => holding == branch.tests.len(),
            Match::Any => holding > 0,
            Match::None => holding == 0,
        })
    }

    fn test(&mut self, test: Test) -> Result<bool, AllocError> {
        match test {
            Test::Disambiguate => {
                self.has_tested_disambiguate = true;
                Ok(self.cite.disambiguates)
            }
            Test::IsNumeric(variable) => self.is_numeric(variable),
            Test::IsUncertainDate(variable) => Ok(
                is_uncertain(&self.cite, variable) && !self.is_suppressed(Variable::Date(variable)),
            ),
            Test::Locator(kind) => Ok(
                self.locator
                    .as_ref()
                    .is_some_and(|locator| locator.kind == kind),
            ),
            Test::Position(position) => Ok(self.is_at(position)),
            Test::Type(item_type) => Ok(self.cite.reference.item_type == item_type),
            Test::Variable(variable) => {
                Ok(self.cite.has(variable) && !self.is_suppressed(variable))
            }
            Test::Unknown => Ok(false),
        }
    }

    fn is_numeric(&self, variable: Variable) -> Result<bool, AllocError> {
        if self.is_suppressed(variable) {
            return Ok(false);
        }
        let alloc = self.alloc();
        let plain = match variable {
            Variable::Number(variable) => match self.number_value(variable)? {
                Some(value) => value.text().plain(alloc)?,
                None => return Ok(false),
            },
            Variable::Text(variable) => match self.cite.reference.text(variable) {
                Some(text) => text.plain(alloc)?,
                None => return Ok(false),
            },
            Variable::Date(_) | Variable::Name(_) => return Ok(false),
        };
        Ok(is_numeric(plain.as_str()))
    }

    /// Whether a cite is at a position. An item of the bibliography has none.
    fn is_at(&self, position: CitePosition) -> bool {
        let SceneKind::Cite = self.scene.kind else {
            return false;
        };
        let cite = &self.cite;
        match position {
            CitePosition::First => cite.is_first,
            CitePosition::Subsequent => !cite.is_first,
            CitePosition::Ibid => cite.repetition.is_some(),
            CitePosition::IbidWithLocator => {
                cite.repetition == Some(Repetition::IbidWithLocator)
            }
            CitePosition::NearNote => cite.is_near_note,
            CitePosition::FarNote => !cite.is_first && !cite.is_near_note,
        }
    }
}

fn is_uncertain(cite: &CiteFacts<'_>, variable: DateVariable) -> bool {
    match cite.reference.date(variable) {
        Some(date) => date.is_uncertain,
        None => false,
    }
}
