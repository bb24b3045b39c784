//! Macros that gave nothing, which are skipped while nothing more is noted.
ghost use Rattle.std.specs.Prelude.{◌≡◌, ℕ, OnOk, IsTrue, IfSome};
ghost use Rattle.layout_picking.specs.Pick.{Call};
ghost use Rattle.layout_picking.specs.Quiet.{seen, told, GivesNothing, IsQuiet};

use crate::notes::{Called, Notes, Suppressed};
use driver_lookup::state::IdentifierUsage;
use std::alloc::{AllocError, Global};
use std::collections::BTreeMap;

/// What is noted, but for the forms of names: those stay as they were noted first.
#[derive(Clone, Copy, PartialEq)]
pub(crate) struct Seen {
    first_date: bool,
    suppressed: Suppressed,
    checked_disambiguate: bool,
    has_first_name: bool,
    usage: IdentifierUsage,
}

impl Seen {
    pub(crate) fn of(notes: &Notes) -> Seen
        ensures { result ≡ seen notes.now }
    {
        Seen {
            first_date: notes.first_date,
            suppressed: notes.suppressed,
            checked_disambiguate: notes.checked_disambiguate,
            has_first_name: notes.first_name.is_some(),
            usage: notes.usage,
        }
    }

    /// Whether the same is noted now.
    pub(crate) fn is_of(self, notes: &Notes) -> bool
        ensures { IsTrue result → self ≡ seen notes.now }
    {
        self == Seen::of(notes)
    }
}

/// The macros that gave no piece and noted nothing new, each at the depth at which it was called,
/// since what is noted changed last. What a macro gives depends on no more.
#[derive(Drop)]
pub(crate) struct QuietMacros<'a> {
    at: Seen,
    /// What each counted as.
    macros: BTreeMap<(&'a str, usize), Called>,
}

impl<'a> QuietMacros<'a> {
    /// None yet.
    pub(crate) fn new(alloc: Global, notes: &Notes) -> QuietMacros<'a>
        ensures { (call : ℕ → Call) → IsQuiet call result notes.now }
    {
        QuietMacros {
            at: Seen::of(notes),
            macros: BTreeMap::new(alloc),
        }
    }

    /// What the call of a macro counts as which is known to give nothing.
    pub(crate) fn called(&self, name: &'a str, depth: usize, notes: &Notes) -> Option<Called>
        ensures { IfSome result (λ c. (call : ℕ → Call) → IsQuiet call self.now notes.now
            → GivesNothing (call depth name.now) c notes.now) }
    {
        if self.macros.is_empty() || !self.at.is_of(notes) {
            return None;
        }
        self.macros.get(&(name, depth)).copied()
    }

    // Those of before are left out where more is noted now.
    fn renew(&mut self, notes: &Notes)
        ensures quiet { (call : ℕ → Call) → IsQuiet call self.old notes.now
            → IsQuiet call self.new notes.now }
        ensures at { self.new.at ≡ seen notes.now }
    {
        if !self.at.is_of(notes) {
            self.macros.clear();
            self.at = Seen::of(notes);
        }
    }

    /// One more.
    pub(crate) fn add(
        &mut self,
        name: &'a str,
        depth: usize,
        called: Called,
        notes: &Notes,
    ) -> Result<(), AllocError>
        ensures { OnOk result ((call : ℕ → Call) → IsQuiet call self.old notes.now
            → GivesNothing (call depth name.now) called notes.now
            → IsQuiet call self.new notes.now) }
    {
        self.renew(notes);
        self.macros.insert((name, depth), called)?;
        Ok(())
    }
}
