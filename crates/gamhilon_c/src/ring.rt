//! Places of rings as numbers.
ghost use Rattle.std.specs.Prelude.{◌≡◌};
ghost use Rattle.gamhilon_c.specs.Ring.{HandsOutRing, NotesRing, ring_numbers};

use csl_driver::error::RingLocation;
use csl_driver::rendered::Rendered;
use document_answer::error::RunError;

/// Where the macros of a style call each other in a ring.
#[derive(Clone, Copy)]
#[repr(C)]
pub struct GamhilonRing {
    /// 1 where the style is that of the bibliography, and else 0.
    pub of_bibliography: usize,
    /// The place of the request whose style it is, from 0; 0 where it is that of the bibliography.
    pub request: usize,
    /// The place of the first macro on a ring, among the macros of its style, from 0.
    pub macro_index: usize,
}

fn ring_at(place: RingLocation, macro_index: usize) -> GamhilonRing
    ensures { result ≡ ring_numbers place macro_index }
{
    match place {
        RingLocation::Request(request) => GamhilonRing {
            of_bibliography: 0,
            request,
            macro_index,
        },
        RingLocation::Bibliography => GamhilonRing {
            of_bibliography: 1,
            request: 0,
            macro_index,
        },
    }
}

fn note_ring(error: &RunError, ring: &mut GamhilonRing)
    ensures { NotesRing error.now ring.old ring.new }
{
    if let RunError::MacroRing { place, macro_index } = error {
        *ring = ring_at(*place, *macro_index);
    }
}

/// Puts the place of the ring into `ring`, where that is why there is no answer.
pub(crate) fn hand_out_ring(answer: &Result<Rendered, RunError>, ring: &mut GamhilonRing) -> u32
    ensures { HandsOutRing answer.now result ring.old ring.new }
{
    match answer {
        Ok(_) => 0,
        Err(error) => {
            note_ring(error, ring);
            u32::from(error.status())
        }
    }
}
