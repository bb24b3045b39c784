//! Entries: what can be cited.
ghost use Rattle.std.specs.Prelude.{◌≡◌, true, option_map};
ghost use Rattle.value_sources.specs.Found.{first_value};

use crate::taxonomy::{DateVariable, NameVariable, NumberVariable, StandardVariable};
use value_lists::seq::Seq;
use value_lists::text::Text;

/// A person, or an institution with a family name alone.
#[derive(Clone, PartialEq, Eq, PartialOrd, Ord, Hash, Drop)]
pub struct Person {
    /// The family name.
    pub name: Text,
    pub given_name: Option<Text>,
}

/// A date whose year alone is known. Year 0 is 1 BC.
#[derive(Clone, Copy, PartialEq, Eq, PartialOrd, Ord, Hash)]
pub struct Date {
    pub year: i32,
}

/// A text in pieces.
#[derive(Clone, PartialEq, Eq, PartialOrd, Ord, Hash, Drop)]
pub struct ChunkedString(pub Seq<Chunk>);

/// A piece of a text.
#[derive(Clone, PartialEq, Eq, PartialOrd, Ord, Hash, Drop)]
pub struct Chunk {
    pub value: Text,
    pub kind: ChunkKind,
}

/// How a piece of a text is treated.
#[derive(Clone, Copy, PartialEq, Eq, PartialOrd, Ord, Hash)]
pub enum ChunkKind {
    Normal,
    /// Written as it stands.
    Verbatim,
    /// A formula, handed on as markup.
    Math,
}

/// What can be cited. Equal entries answer every call equally.
pub trait EntryLike: Ord {
    ghost use Rattle.std.specs.Prelude.{◌≡◌, true, option_map};
    ghost use Rattle.value_sources.specs.Answers.{Answers};

    /// What the entry answers to every call.
    ghost answers: { Self → Answers };

    /// The key under which the entry is cited.
    fn key(&self) -> &str
        ensures { result.now ≡ (answers self.now).key };

    /// The persons of a variable, in order; none where the entry has none.
    fn resolve_name_variable(&self, variable: NameVariable) -> &[Person]
        ensures { result.now ≡ (answers self.now).names variable };

    /// The date of a variable, if the entry has one.
    fn resolve_date_variable(&self, variable: DateVariable) -> Option<&Date>
        ensures { option_map (λ d. d.now) result ≡ (answers self.now).date variable };

    /// The text of a variable, if the entry has one.
    fn resolve_standard_variable(&self, variable: StandardVariable) -> Option<&ChunkedString>
        ensures { option_map (λ t. t.now) result ≡ (answers self.now).text variable };

    /// The number of a variable as a text, if the entry has one.
    fn resolve_number_variable(&self, variable: NumberVariable) -> Option<&str>
        ensures { option_map (λ n. n.now) result ≡ (answers self.now).number variable };

    /// The citation label, if the entry has one.
    fn citation_label(&self) -> Option<&str>
        ensures { option_map (λ t. t.now) result ≡ (answers self.now).label };

    ghost equal_answer_equally: { (a : Self) (b : Self) → Self.eq a b ≡ true
        → answers a ≡ answers b };
}

/// The value of the first pair of a variable, if there is one.
fn first_value<'a, K: PartialEq, V>(pairs: &'a [(K, V)], variable: &K) -> Option<&'a V>
    ensures { option_map (λ v. v.now) result ≡ first_value K.eq variable.now pairs.now }
{
    for pair in pairs {
        if pair.0 == *variable {
            return Some(&pair.1);
        }
    }
    None
}

/// An entry as a value. Of several pairs of one variable the first answers.
#[derive(PartialEq, Eq, PartialOrd, Ord, Hash, Drop)]
pub struct PlainEntry {
    pub key: Text,
    /// The citation label, as `Che+21`.
    pub label: Option<Text>,
    pub names: Seq<(NameVariable, Seq<Person>)>,
    pub dates: Seq<(DateVariable, Date)>,
    pub texts: Seq<(StandardVariable, ChunkedString)>,
    pub numbers: Seq<(NumberVariable, Text)>,
}

impl EntryLike for PlainEntry {
    ghost use Rattle.value_sources.specs.PlainEntry.{plain_answers};
    ghost use Rattle.value_sources.specs.EqualEntries.{equal_entries_answer_equally};

    ghost answers = { plain_answers };

    ghost equal_answer_equally = { equal_entries_answer_equally };

    fn key(&self) -> &str {
        self.key.as_str()
    }

    fn resolve_name_variable(&self, variable: NameVariable) -> &[Person] {
        match first_value(self.names.as_slice(), &variable) {
            Some(persons) => persons.as_slice(),
            None => &[],
        }
    }

    fn resolve_date_variable(&self, variable: DateVariable) -> Option<&Date> {
        first_value(self.dates.as_slice(), &variable)
    }

    fn resolve_standard_variable(&self, variable: StandardVariable) -> Option<&ChunkedString> {
        first_value(self.texts.as_slice(), &variable)
    }

    fn resolve_number_variable(&self, variable: NumberVariable) -> Option<&str> {
        let number = first_value(self.numbers.as_slice(), &variable)?;
        Some(number.as_str())
    }

    fn citation_label(&self) -> Option<&str> {
        let label = self.label.as_ref()?;
        Some(label.as_str())
    }
}
