//! Distinct keys, numbered in the order in which they came.
ghost use Rattle.std.specs.Prelude.{◌≡◌, ◌==◌, ◌∷◌, ◌++◌, [], None, IfOk, OnOk, length};
ghost use Rattle.std.specs.List.{position, position_or_len};
ghost use Rattle.ordered_set.specs.Keys.{IndexesOf, Keys, with_key};

use std::alloc::{AllocError, Global};
use std::collections::BTreeMap;
use std::marker::Model;

/// Distinct keys, in the order in which they came. Each has an index, from 0 on.
#[derive(Drop)]
pub struct OrderedSet<K: Ord> {
    keys: Vec<K>,
    indexes: BTreeMap<K, usize>,
}

impl<K: Ord> Model for OrderedSet<K> {
    ghost Value = { Keys K };

    ghost view = { λ s. record { keys = s.keys.items } };

    ghost invariant = { λ s. IndexesOf K.eq K.cmp s.keys.items s.indexes };
}

impl<K: Ord + Drop> OrderedSet<K> {
    /// No keys.
    pub fn new(alloc: Global) -> OrderedSet<K>
        ensures { result.keys ≡ [] }
    {
        OrderedSet {
            keys: Vec::new(alloc),
            indexes: BTreeMap::new(alloc),
        }
    }

    /// The index of a key, which is added where no equal one is there. A copy of it is kept beside.
    ///
    /// # Errors
    ///
    /// Where memory is refused.
    pub fn insert(&mut self, key: K, copy: K) -> Result<usize, AllocError>
        requires same { copy ≡ key }
        ensures keys { OnOk result (self.new.keys ≡ with_key K.eq self.old.keys key) }
        ensures index { IfOk result (λ i. i ≡ position_or_len (K.eq key) self.old.keys) }
    {
        match self.index_of(&key) {
            Some(index) => Ok(index),
            None => Ok(self.add(key, copy)?),
        }
    }

    // Adds a key that isn't there.
    fn add(&mut self, key: K, copy: K) -> Result<usize, AllocError>
        requires same { copy ≡ key }
        requires new { position (K.eq key) self.old.keys ≡ None }
        ensures keys { OnOk result (self.new.keys ≡ self.old.keys ++ key ∷ []) }
        ensures index { IfOk result (λ i. i ≡ length self.old.keys) }
    {
        let index = self.keys.len();
        self.keys.push(copy)?;
        match self.indexes.insert(key, index) {
            Ok(_) => Ok(index),
            Err(_) => {
                self.keys.pop();
                Err(AllocError)
            }
        }
    }

    /// The index of the key that is equal to this one, if there is one.
    pub fn index_of(&self, key: &K) -> Option<usize>
        ensures { result ≡ position (K.eq key.now) self.now.keys }
    {
        self.indexes.get(key).copied()
    }

    /// How many keys there are.
    pub fn len(&self) -> usize
        ensures { result ≡ length self.now.keys }
    {
        self.keys.len()
    }

    /// Whether there is no key.
    pub fn is_empty(&self) -> bool
        ensures { result ≡ (length self.now.keys == 0) }
    {
        self.keys.is_empty()
    }

    /// The keys, by their indexes.
    pub fn as_slice(&self) -> &[K]
        ensures { result.now ≡ self.now.keys }
    {
        self.keys.as_slice()
    }
}
