//! Laws of keys.
ghost use Rattle.value_sources.specs.Tells.{TellsEqual};

use crate::key::{Standing, TaskKey, TaskPart};
use csl_base::laws::taxonomy_equality_decides;
use driver_lookup::laws::state_equality_decides;

/// A law: `==` of keys, and of their parts, is true exactly of equal values.
pub fn key_equality_decides()
    ensures standing { TellsEqual ⟦<Standing as PartialEq>⟧.eq }
    ensures part { TellsEqual ⟦<TaskPart as PartialEq>⟧.eq }
    ensures key { TellsEqual ⟦<TaskKey as PartialEq>⟧.eq }
{
    taxonomy_equality_decides();
    state_equality_decides();
}
