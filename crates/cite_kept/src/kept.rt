//! Values that are kept, each under a version and all else that it depends on.
ghost use Rattle.std.specs.Prelude.{
  ◌≡◌,
  ◌≢◌,
  ◌+◌,
  ◌<◌,
  ◌≤◌,
  IfOk,
  IsSome,
  List,
  [],
  None,
  OnErr,
  OnOk,
  Some,
  min,
  option_copied,
  string_bytes,
  ℕ,
};
ghost use Rattle.cite_kept.specs.Known.{version_of};
ghost use Rattle.cite_kept.specs.KeptValues.{
  IsKept,
  KeptValues,
  UnusedFrom,
  asked_now,
  asked_within,
  found,
};

use crate::versions::{Version, Versions};
use std::alloc::{AllocError, Global};
use std::collections::BTreeMap;
use std::marker::Model;

/// For how many answers a value stays that none of them asks for.
const ANSWERS: usize = 2;

/// Values that are kept for answers to come, each under the version of what it was made of, and all
/// else that it depends on.
///
/// Once an id is forgotten, nothing that was kept before is found under the version that it has
/// then: no id has had that one, and nothing is kept under it.
#[derive(Drop)]
pub struct Kept<K: Ord, V> {
    versions: Versions,
    values: BTreeMap<(Version, K), Asked<V>>,
    /// The number of the answer that is written.
    answer: usize,
}

/// A value that is kept.
#[derive(Drop)]
pub struct Asked<V> {
    value: V,
    /// The last answer that asked for it, or kept it.
    answer: usize,
}

impl<K: Ord, V> Model for Kept<K, V> {
    ghost Value = { KeptValues K V };

    ghost view = { λ k. record {
      versions = k.versions;
      entries = k.values.entries;
      answer = k.answer;
    } };

    ghost invariant = { λ k. UnusedFrom K.cmp k.versions.given k.values.entries };
}

impl<K: Ord + Drop, V: Drop> Kept<K, V> {
    /// Nothing, of nothing that has a version.
    pub fn new(alloc: Global) -> Kept<K, V>
        ensures versions { result.versions.entries ≡ [] }
        ensures values { result.entries ≡ [] }
    {
        Kept {
            versions: Versions::new(alloc),
            values: BTreeMap::new(alloc),
            answer: 0,
        }
    }

    /// What this id stands for has changed, or is gone: it has no version any more.
    pub fn forget(&mut self, id: &str)
        ensures gone { version_of self.new.versions id.now ≡ None }
        ensures others { (other : List ℕ) → other ≢ id.now
            → version_of self.new.versions other ≡ version_of self.old.versions other }
        ensures values { self.new ≡ record self.old { versions = self.new.versions } }
    {
        self.versions.forget(id);
    }

    /// The version of this id. One that has none gets one, under which nothing is kept.
    ///
    /// # Errors
    ///
    /// Where memory is refused, or there are no more numbers for versions.
    pub fn version(&mut self, id: &String) -> Result<Version, AllocError>
        ensures has { IfOk result
            (λ v. version_of self.new.versions (string_bytes id.now) ≡ Some v.number) }
        ensures same { IsSome (version_of self.old.versions (string_bytes id.now))
            → self.new ≡ self.old }
        ensures unused { IfOk result
            (λ v. version_of self.old.versions (string_bytes id.now) ≡ None
            → (rest : K) → found K.cmp self.new (v, rest) ≡ None) }
        ensures own { IfOk result (λ v. (other : List ℕ)
            → version_of self.new.versions other ≡ Some v.number → other ≡ string_bytes id.now) }
        ensures given { IfOk result (λ v. v.number < self.new.versions.given) }
        ensures others { (other : List ℕ) → other ≢ string_bytes id.now
            → version_of self.new.versions other ≡ version_of self.old.versions other }
        ensures values { self.new ≡ record self.old { versions = self.new.versions } }
        ensures stays { OnErr result (self.new ≡ self.old) }
    {
        self.versions.version(id)
    }

    /// Another answer begins: what neither of the last two asked for is dropped.
    pub fn begin_answer(&mut self)
        ensures next { self.new.answer ≡ min (self.old.answer + 1) usize.MAX }
        ensures recent { self.new.entries
            ≡ asked_within ANSWERS self.new.answer self.old.entries }
        ensures versions { self.new.versions ≡ self.old.versions }
    {
        self.answer = self.answer.saturating_add(1);
        let answer = self.answer;
        self.values
            .retain(|_, kept| answer.saturating_sub(kept.answer) <= ANSWERS);
    }

    /// This answer asks for what is kept under a key.
    pub fn ask(&mut self, key: &(Version, K))
        ensures { self.new ≡ asked_now K.cmp self.old key.now }
    {
        let answer = self.answer;
        if let Some(kept) = self.values.get_mut(key) {
            kept.answer = answer;
        }
    }

    /// What is kept under a key.
    pub fn get(&self, key: &(Version, K)) -> Option<&V>
        ensures { option_copied result ≡ found K.cmp self.now key.now }
    {
        match self.values.get(key) {
            Some(kept) => Some(&kept.value),
            None => None,
        }
    }

    /// Keeps a value under a key, in place of what was kept there. Under a version that wasn't
    /// given it is dropped.
    ///
    /// # Errors
    ///
    /// Where memory is refused.
    pub fn keep(&mut self, key: (Version, K), value: V) -> Result<(), AllocError>
        ensures kept { OnOk result (key.0.number < self.old.versions.given
            → IsKept K.cmp self.old self.new key value) }
        ensures dropped { self.old.versions.given ≤ key.0.number → self.new ≡ self.old }
        ensures versions { self.new ≡ record self.old { entries = self.new.entries } }
        ensures stays { OnErr result (self.new ≡ self.old) }
    {
        if self.versions.has_given(key.0) {
            return self.insert(key, value);
        }
        Ok(())
    }

    // Keeps a value under a version that was given.
    fn insert(&mut self, key: (Version, K), value: V) -> Result<(), AllocError>
        requires { key.0.number < self.old.versions.given }
        ensures kept { OnOk result (IsKept K.cmp self.old self.new key value) }
        ensures versions { self.new ≡ record self.old { entries = self.new.entries } }
        ensures stays { OnErr result (self.new ≡ self.old) }
    {
        let answer = self.answer;
        match self.values.insert(key, Asked { value, answer }) {
            Ok(_) => Ok(()),
            Err(_) => Err(AllocError),
        }
    }
}
