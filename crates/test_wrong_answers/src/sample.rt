//! An entry for samples: its number, and nothing that it answers.
use csl_base::entry::{ChunkedString, Date, EntryLike, Person};
use csl_base::taxonomy::{DateVariable, NameVariable, NumberVariable, StandardVariable};

/// An entry that is identified by its number.
#[derive(Clone, Copy, PartialEq, Eq, PartialOrd, Ord, Hash)]
pub struct Sample {
    pub number: u8,
}

impl EntryLike for Sample {
    ghost use Rattle.test_wrong_answers.specs.Silent.{silent, equal_samples_answer_equally};

    ghost answers = { silent };

    ghost equal_answer_equally = { equal_samples_answer_equally };

    fn key(&self) -> &str {
        ""
    }

    fn resolve_name_variable(&self, _variable: NameVariable) -> &[Person] {
        &[]
    }

    fn resolve_date_variable(&self, _variable: DateVariable) -> Option<&Date> {
        None
    }

    fn resolve_standard_variable(&self, _variable: StandardVariable) -> Option<&ChunkedString> {
        None
    }

    fn resolve_number_variable(&self, _variable: NumberVariable) -> Option<&str> {
        None
    }

    fn citation_label(&self) -> Option<&str> {
        None
    }
}
