//! Places in the JSON.
ghost use Rattle.std.specs.Prelude.{◌≡◌, IfOk, option_and_then};
ghost use Rattle.serde_json.specs.Data.{Data};
ghost use Rattle.serde_json.specs.Find.{get, at};
ghost use Rattle.reference_json.specs.Faults.{at_place, into, part_at};

use crate::fault::{Pointer, Step};
use std::alloc::{AllocError, Global};

/// The way from the whole of the JSON to a part of it, whose last step stands first.
#[derive(Clone, Copy)]
pub(crate) enum Place<'p> {
    Whole,
    /// The member of this key.
    Member(&'p Place<'p>, &'p str),
    /// The item at this place, from 0.
    Item(&'p Place<'p>, usize),
}

/// The pointer with one more step.
#[tactic(auto, using(crate::proofs::Places::one_step_on))]
fn one_step_on(mut pointer: Pointer, step: Step) -> Result<Pointer, AllocError>
    ensures { IfOk result (λ p. (whole : Data) → part_at p.steps.items whole
        ≡ option_and_then (into step) (part_at pointer.steps.items whole)) }
{
    pointer.steps.push(step)?;
    Ok(pointer)
}

impl Place<'_> {
    /// The place of the member of this key.
    pub(crate) fn member<'p>(&'p self, key: &'p str) -> Place<'p>
        ensures { (whole : Data) → at_place result whole
            ≡ option_and_then (get key.now) (at_place self.now whole) }
    {
        Place::Member(&*self, key)
    }

    /// The place of the item at this place of a list, from 0.
    pub(crate) fn item(&self, index: usize) -> Place<'_>
        ensures { (whole : Data) → at_place result whole
            ≡ option_and_then (at index) (at_place self.now whole) }
    {
        Place::Item(&*self, index)
    }

    /// The pointer to the place.
    pub(crate) fn pointer(&self, alloc: Global) -> Result<Pointer, AllocError>
        ensures { IfOk result (λ p. (whole : Data)
            → part_at p.steps.items whole ≡ at_place self.now whole) }
    {
        match self {
            Place::Whole => Ok(Pointer {
                steps: Vec::new(alloc),
            }),
            Place::Member(outer, key) => {
                let step = Step::Key(String::from_str(alloc, *key)?);
                one_step_on(outer.pointer(alloc)?, step)
            }
            Place::Item(outer, place) => one_step_on(outer.pointer(alloc)?, Step::Item(*place)),
        }
    }
}
