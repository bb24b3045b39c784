//! The versions of what has an id.
ghost use Rattle.std.specs.Prelude.{
  ◌≡◌,
  ◌≢◌,
  ◌<◌,
  ◌↔◌,
  ℕ,
  IfOk,
  IsSome,
  IsTrue,
  List,
  [],
  None,
  OnErr,
  Some,
  string_bytes,
};
ghost use Rattle.cite_kept.specs.Known.{AreKnown, Known, version_of};

use std::alloc::{AllocError, Global};
use std::collections::BTreeMap;
use std::marker::Model;

/// The version of something with an id. Nothing else has the same one, and nothing had it before.
#[derive(Clone, Copy, PartialEq, Eq, PartialOrd, Ord)]
pub struct Version {
    number: usize,
}

/// The versions that ids have. An id keeps its version until it is forgotten; the one that it has
/// then was never given before.
#[derive(Drop)]
pub struct Versions {
    numbers: BTreeMap<String, usize>,
    /// How many were given. The next one has this number.
    given: usize,
}

impl Model for Versions {
    ghost Value = { Known };

    ghost view = { λ v. record { entries = v.numbers.entries; given = v.given } };

    ghost invariant = { λ v. AreKnown (record { entries = v.numbers.entries; given = v.given }) };
}

impl Versions {
    /// No id has a version.
    pub fn new(alloc: Global) -> Versions
        ensures none { result.entries ≡ [] }
    {
        Versions {
            numbers: BTreeMap::new(alloc),
            given: 0,
        }
    }

    /// This id has no version any more.
    pub fn forget(&mut self, id: &str)
        ensures gone { version_of self.new id.now ≡ None }
        ensures others { (other : List ℕ) → other ≢ id.now
            → version_of self.new other ≡ version_of self.old other }
        ensures given { self.new.given ≡ self.old.given }
    {
        self.numbers.remove(id);
    }

    /// The version of this id. An id that has none gets one.
    ///
    /// # Errors
    ///
    /// Where memory is refused, or there are no more numbers for versions.
    pub fn version(&mut self, id: &String) -> Result<Version, AllocError>
        ensures has { IfOk result
            (λ v. version_of self.new (string_bytes id.now) ≡ Some v.number) }
        ensures same { IsSome (version_of self.old (string_bytes id.now)) → self.new ≡ self.old }
        ensures next { IfOk result (λ v. version_of self.old (string_bytes id.now) ≡ None
            → v.number ≡ self.old.given) }
        ensures given { IfOk result (λ v. v.number < self.new.given) }
        ensures own { IfOk result (λ v. (other : List ℕ)
            → version_of self.new other ≡ Some v.number → other ≡ string_bytes id.now) }
        ensures others { (other : List ℕ) → other ≢ string_bytes id.now
            → version_of self.new other ≡ version_of self.old other }
        ensures stays { OnErr result (self.new ≡ self.old) }
    {
        match self.numbers.get(id.as_str()) {
            Some(number) => Ok(Version { number: *number }),
            None => self.give(id),
        }
    }

    // The next version, for an id that has none.
    fn give(&mut self, id: &String) -> Result<Version, AllocError>
        requires { version_of self.old (string_bytes id.now) ≡ None }
        ensures has { IfOk result
            (λ v. version_of self.new (string_bytes id.now) ≡ Some v.number) }
        ensures next { IfOk result (λ v. v.number ≡ self.old.given) }
        ensures given { IfOk result (λ v. v.number < self.new.given) }
        ensures own { IfOk result (λ v. (other : List ℕ)
            → version_of self.new other ≡ Some v.number → other ≡ string_bytes id.now) }
        ensures others { (other : List ℕ) → other ≢ string_bytes id.now
            → version_of self.new other ≡ version_of self.old other }
        ensures stays { OnErr result (self.new ≡ self.old) }
    {
        let number = self.given;
        let Some(given) = number.checked_add(1) else {
            return Err(AllocError);
        };
        self.numbers.insert(id.clone()?, number)?;
        self.given = given;
        Ok(Version { number })
    }

    /// Whether this version was given.
    pub fn has_given(&self, version: Version) -> bool
        ensures { IsTrue result ↔ (version.number < self.now.given) }
    {
        version.number < self.given
    }
}
