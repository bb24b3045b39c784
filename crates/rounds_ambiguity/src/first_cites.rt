//! The first cites of the entries of a group.
ghost use Rattle.std.specs.Prelude.{◌≡◌, All, IfOk, Some, map};
ghost use mathlib.Core.Path.{refl};
ghost use Rattle.rounds_ambiguity.specs.FirstCites.{first_cite_of, firsts_view};
ghost use Rattle.rounds_ambiguity.specs.Members.{members};
ghost use Rattle.rounds_ambiguity.specs.SuffixMarks.{first_cites};
ghost use Rattle.driver_passes.specs.Places.{IsPlace};
ghost use Rattle.driver_passes.specs.RendersView.{renders_view};

use crate::members::member_at;
use csl_base::entry::EntryLike;
use driver_passes::renders::SpeculativeCiteRender;
use ordered_set::set::OrderedSet;
use std::alloc::{AllocError, Global};
use std::cmp::Ordering;

/// A cite of an entry, at its place in the document. Two are equal where their entries are, so a
/// set keeps of the cites of an entry the one that came first.
#[derive(Drop)]
pub(crate) struct FirstCite<'a, T> {
    pub(crate) entry: &'a T,
    pub(crate) place: (usize, usize),
}

impl<'a, T: EntryLike> PartialEq for FirstCite<'a, T> {
    ghost use Rattle.std.specs.Cmp.Rules.{comparing};
    ghost use Rattle.std.proofs.Common.{rules};

    ghost eq = { λ a b. T.eq a.entry.now b.entry.now };

    ghost laws = { Prim.search (comparing, rules) };

    fn eq(&self, other: &FirstCite<'a, T>) -> bool {
        *self.entry == *other.entry
    }
}

impl<'a, T: EntryLike> Eq for FirstCite<'a, T> {
    ghost use Rattle.std.proofs.Common.{rules};

    ghost laws = { Prim.search rules };
}

impl<'a, T: EntryLike> PartialOrd for FirstCite<'a, T> {
    ghost use Rattle.std.specs.Cmp.Rules.{comparing};
    ghost use Rattle.std.proofs.Common.{rules};

    ghost partial_cmp = { λ a b. Some (T.cmp a.entry.now b.entry.now) };

    ghost laws = { Prim.search (comparing, rules) };

    fn partial_cmp(&self, other: &FirstCite<'a, T>) -> Option<Ordering> {
        Some(self.cmp(other))
    }
}

impl<'a, T: EntryLike> Ord for FirstCite<'a, T> {
    ghost use Rattle.std.specs.Cmp.Rules.{comparing};
    ghost use Rattle.std.proofs.Common.{rules};

    ghost cmp = { λ a b. T.cmp a.entry.now b.entry.now };

    ghost total = { Prim.search (comparing, rules) };

    ghost matches_partial_cmp = { λ a b. refl };

    ghost matches_eq = { λ a b. T.matches_eq a.entry.now b.entry.now };

    fn cmp(&self, other: &FirstCite<'a, T>) -> Ordering {
        self.entry.cmp(other.entry)
    }
}

/// The first cite of each entry that is cited at these places, in order.
pub(crate) fn first_cites<'a, T: EntryLike, P>(
    alloc: Global,
    cites: &[SpeculativeCiteRender<'_, 'a, T, P>],
    group: &[(usize, usize)],
) -> Result<OrderedSet<FirstCite<'a, T>>, AllocError>
    requires exist { All (IsPlace (renders_view cites.now)) group.now }
    ensures { IfOk result (λ v. firsts_view v.keys
        ≡ map first_cite_of (first_cites T.eq (members (renders_view cites.now) group.now))) }
{
    let mut firsts = OrderedSet::new(alloc);
    for place in group {
        let entry = member_at(cites, *place).entry;
        let first = FirstCite {
            entry,
            place: *place,
        };
        let copy = FirstCite {
            entry,
            place: *place,
        };
        firsts.insert(first, copy)?;
    }
    Ok(firsts)
}
