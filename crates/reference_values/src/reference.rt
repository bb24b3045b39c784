//! References.
ghost use Rattle.std.specs.Prelude.{◌≡◌, option_map};
ghost use Rattle.reference_values.specs.Pairs.{value_at};

use crate::date::Date;
use crate::name::Name;
use crate::rich_text::RichText;
use std::alloc::{AllocError, Global};
use std::collections::BTreeMap;
use std::mem::replace;
use style_file::item_type::ItemType;
use style_file::variable::{DateVariable, NameVariable, NumberVariable, TextVariable};

/// What a bibliography says of one item. A variable stands in its list once at most, and none has
/// an empty value.
#[derive(Drop)]
pub struct Reference {
    pub id: String,
    pub item_type: ItemType,
    pub texts: Vec<(TextVariable, RichText)>,
    pub numbers: Vec<(NumberVariable, RichText)>,
    pub dates: Vec<(DateVariable, Date)>,
    pub names: Vec<(NameVariable, Vec<Name>)>,
}

/// References by their ids, in the order in which they were given.
#[derive(Drop)]
pub struct References {
    all: Vec<Reference>,
    /// The index of each, by its id.
    indexes: BTreeMap<String, usize>,
}

/// The value beside the variable.
fn value_of<V: PartialEq, T>(pairs: &[(V, T)], variable: V) -> Option<&T>
where
    V: Drop,
    ensures { option_map (λ t. t.now) result ≡ value_at V.eq pairs.now variable }
{
    pairs
        .iter()
        .find(|pair| pair.0 == variable)
        .map(|pair| &pair.1)
}

impl Reference {
    /// The text of a variable, if the reference has one.
    pub fn text(&self, variable: TextVariable) -> Option<&RichText>
        ensures { option_map (λ v. v.now) result
            ≡ value_at ⟦<TextVariable as PartialEq>⟧.eq self.now.texts.items variable }
    {
        value_of(&self.texts, variable)
    }

    /// What a number variable holds, which need not be a number, if the reference has something.
    pub fn number(&self, variable: NumberVariable) -> Option<&RichText>
        ensures { option_map (λ v. v.now) result
            ≡ value_at ⟦<NumberVariable as PartialEq>⟧.eq self.now.numbers.items variable }
    {
        value_of(&self.numbers, variable)
    }

    /// The date of a variable, if the reference has one.
    pub fn date(&self, variable: DateVariable) -> Option<&Date>
        ensures { option_map (λ v. v.now) result
            ≡ value_at ⟦<DateVariable as PartialEq>⟧.eq self.now.dates.items variable }
    {
        value_of(&self.dates, variable)
    }

    /// The names of a variable, if the reference has some.
    pub fn names(&self, variable: NameVariable) -> Option<&[Name]>
        ensures { option_map (λ v. v.now) result ≡ option_map (λ v. v.items)
            (value_at ⟦<NameVariable as PartialEq>⟧.eq self.now.names.items variable) }
    {
        value_of(&self.names, variable).map(|names| names.as_slice())
    }
}

impl References {
    /// No references.
    pub fn new(alloc: Global) -> References {
        References {
            all: Vec::new(alloc),
            indexes: BTreeMap::new(alloc),
        }
    }

    /// Adds a reference behind the others. Where one has the same id, the new one stands at the
    /// index of that one, which is returned.
    ///
    /// # Errors
    ///
    /// Where memory is refused: the references stay as they were.
    pub fn insert(&mut self, reference: Reference) -> Result<Option<Reference>, AllocError> {
        if let Some(index) = self.indexes.get(reference.id.as_str()) {
            if let Some(known) = self.all.get_mut(*index) {
                return Ok(Some(replace(known, reference)));
            }
        }
        let index = self.all.len();
        let entry = self.indexes.entry(reference.id.clone()?)?;
        self.all.push(reference)?;
        entry.insert_entry(index);
        Ok(None)
    }

    /// The reference with this id, if there is one.
    pub fn get(&self, id: &str) -> Option<&Reference> {
        match self.indexes.get(id) {
            Some(index) => self.all.get(*index),
            None => None,
        }
    }

    /// Whether a reference has this id.
    pub fn contains(&self, id: &str) -> bool {
        self.indexes.contains_key(id)
    }

    /// How many there are.
    pub fn len(&self) -> usize {
        self.all.len()
    }

    /// The references, in their order.
    pub fn as_slice(&self) -> &[Reference] {
        self.all.as_slice()
    }

    /// The references themselves, in their order.
    pub fn into_vec(self) -> Vec<Reference> {
        self.all
    }
}
