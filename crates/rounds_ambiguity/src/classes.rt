//! Cites that read alike, found by their texts.
ghost use Rattle.std.specs.Prelude.{◌≡◌, ◌<◌, [], None, IsSome, OnOk, length, vec_len};
ghost use Rattle.rounds_ambiguity.specs.InRange.{AreInRange, HeapText};

use driver_passes::renders::AmbiguousGroup;
use std::alloc::{AllocError, Global};
use std::collections::BTreeMap;

/// The cites of a text.
#[derive(Clone, Copy)]
pub(crate) enum Class {
    /// One alone, at this place.
    Single((usize, usize)),
    /// Two or more, the group at this index.
    Group(usize),
}

/// The cites that were looked at, by their texts.
#[derive(Drop)]
pub(crate) struct Classes {
    by_text: BTreeMap<String, Class>,
    /// The places of the cites of a text, where they are two or more, in the order of the second
    /// ones.
    pub(crate) groups: Vec<AmbiguousGroup>,
    ghost in_range: { AreInRange by_text (vec_len groups) },
}

impl Classes {
    ghost use Rattle.rounds_ambiguity.specs.ClassesSoFar.{
      Adds,
      JoinsGroup,
      MakesGroup,
      StartsClass,
      class_at,
      groups_in,
    };

    pub(crate) fn new(alloc: Global) -> Classes
        ensures groups { groups_in result ≡ [] }
        ensures at { (text : HeapText) → class_at result text ≡ None }
    {
        Classes {
            by_text: BTreeMap::new(alloc),
            groups: Vec::new(alloc),
        }
    }

    /// Adds the cite at a place, which has this text.
    pub(crate) fn add(
        &mut self,
        alloc: Global,
        place: (usize, usize),
        text: &String,
    ) -> Result<(), AllocError>
        ensures { OnOk result (Adds place text.now self.old self.new) }
    {
        match self.by_text.get(text).copied() {
            None => self.start(place, text),
            Some(Class::Single(first)) => self.make_group(alloc, first, place, text),
            Some(Class::Group(i)) => self.join(i, place),
        }
    }

    /// Adds a cite whose text is found nowhere.
    fn start(&mut self, place: (usize, usize), text: &String) -> Result<(), AllocError>
        ensures { OnOk result (StartsClass place text.now self.old self.new) }
    {
        self.by_text.insert(text.clone()?, Class::Single(place))?;
        Ok(())
    }

    /// Adds the second cite with a text, after the first.
    fn make_group(
        &mut self,
        alloc: Global,
        first: (usize, usize),
        place: (usize, usize),
        text: &String,
    ) -> Result<(), AllocError>
        requires stands { IsSome (class_at self.old text.now) }
        ensures { OnOk result (MakesGroup first place text.now self.old self.new) }
    {
        let i = self.groups.len();
        self.groups.push(vec![in alloc; first, place]?)?;
        if let Some(class) = self.by_text.get_mut(text) {
            *class = Class::Group(i);
        }
        Ok(())
    }

    /// Adds a further cite to the group with its text.
    fn join(&mut self, i: usize, place: (usize, usize)) -> Result<(), AllocError>
        requires within { i < length (groups_in self.old) }
        ensures { OnOk result (JoinsGroup i place self.old self.new) }
    {
        self.groups[i].push(place)?;
        Ok(())
    }
}
