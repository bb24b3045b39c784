//! Values by distinct keys, which are numbered in the order in which they came.
ghost use Rattle.std.specs.Prelude.{
  ◌≡◌,
  ◌==◌,
  ◌∷◌,
  ◌++◌,
  [],
  None,
  OnErr,
  OnOk,
  is_some,
  length,
  option_copied,
};
ghost use Rattle.std.specs.List.{position};
ghost use Rattle.ordered_set.specs.Keys.{IndexesOf};
ghost use Rattle.ordered_map.specs.Entries.{Entries, keys_of, value_at, with_entry};

use std::alloc::{AllocError, Global};
use std::collections::BTreeMap;
use std::marker::Model;

/// A value for each of some distinct keys, in the order in which these came.
#[derive(Drop)]
pub struct OrderedMap<K: Ord, V> {
    entries: Vec<(K, V)>,
    indexes: BTreeMap<K, usize>,
}

impl<K: Ord, V> Model for OrderedMap<K, V> {
    ghost Value = { Entries K V };

    ghost view = { λ m. record { entries = m.entries.items } };

    ghost invariant = { λ m. IndexesOf K.eq K.cmp (keys_of m.entries.items) m.indexes };
}

impl<K: Ord + Drop, V: Drop> OrderedMap<K, V> {
    /// No keys.
    pub fn new(alloc: Global) -> OrderedMap<K, V>
        ensures { result.entries ≡ [] }
    {
        OrderedMap {
            entries: Vec::new(alloc),
            indexes: BTreeMap::new(alloc),
        }
    }

    /// Adds a key with its value, where no equal one is there. A copy of the key is kept beside.
    ///
    /// # Errors
    ///
    /// Where memory is refused.
    pub fn add(&mut self, key: K, copy: K, value: V) -> Result<(), AllocError>
        requires same { copy ≡ key }
        ensures added { OnOk result
            (self.new.entries ≡ with_entry K.eq self.old.entries key value) }
        ensures stays { OnErr result (self.new.entries ≡ self.old.entries) }
    {
        match self.indexes.get(&key) {
            Some(_) => Ok(()),
            None => self.push(key, copy, value),
        }
    }

    // Adds a key that isn't there.
    fn push(&mut self, key: K, copy: K, value: V) -> Result<(), AllocError>
        requires same { copy ≡ key }
        requires new { position (K.eq key) (keys_of self.old.entries) ≡ None }
        ensures added { OnOk result
            (self.new.entries ≡ self.old.entries ++ (key, value) ∷ []) }
        ensures stays { OnErr result (self.new.entries ≡ self.old.entries) }
    {
        let index = self.entries.len();
        self.entries.push((copy, value))?;
        match self.indexes.insert(key, index) {
            Ok(_) => Ok(()),
            Err(_) => {
                self.entries.pop();
                Err(AllocError)
            }
        }
    }

    /// The value of the key that is equal to this one, if there is one.
    pub fn get(&self, key: &K) -> Option<&V>
        ensures { option_copied result ≡ value_at K.eq self.now.entries key.now }
    {
        match self.indexes.get(key) {
            Some(index) => match self.entries.get(*index) {
                Some(entry) => Some(&entry.1),
                None => None,
            },
            None => None,
        }
    }

    /// Whether an equal key is there.
    pub fn contains_key(&self, key: &K) -> bool
        ensures { result ≡ is_some (value_at K.eq self.now.entries key.now) }
    {
        self.get(key).is_some()
    }

    /// How many keys there are.
    pub fn len(&self) -> usize
        ensures { result ≡ length self.now.entries }
    {
        self.entries.len()
    }

    /// Whether there is no key.
    pub fn is_empty(&self) -> bool
        ensures { result ≡ (length self.now.entries == 0) }
    {
        self.entries.is_empty()
    }

    /// The keys with their values, in the order in which they came.
    pub fn as_slice(&self) -> &[(K, V)]
        ensures { result.now ≡ self.now.entries }
    {
        self.entries.as_slice()
    }
}
