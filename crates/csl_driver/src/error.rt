//! Why the driver refuses.
ghost use Rattle.value_sources.specs.Tells.{TellsEqual};

use driver_passes::request::CitationRequest;
use std::alloc::AllocError;

/// Why no answer is given.
#[derive(Debug, PartialEq, Eq, Drop)]
pub enum DriverError {
    /// The macros of a style call each other in a ring: the style's place, and the place in its
    /// macros of the first one that lies on a ring.
    MacroRing {
        place: RingLocation,
        macro_index: usize,
    },
    /// The offset and the number of distinct entries together are above the greatest `usize`.
    NumberOverflow,
    /// There was no memory left.
    OutOfMemory(AllocError),
}

/// Where a style was handed in.
#[derive(Clone, Copy, Debug, PartialEq, Eq)]
pub enum RingLocation {
    /// With the request of this place, from 0.
    Request(usize),
    /// With the request for a bibliography.
    Bibliography,
}

/// A law: `==` of refusals, and of where a style with a ring was handed in, is true exactly of
/// equal values.
pub fn error_equality_decides()
    ensures place { TellsEqual ⟦<RingLocation as PartialEq>⟧.eq }
    ensures error { TellsEqual ⟦<DriverError as PartialEq>⟧.eq }
{}

/// Why no answer is given with a writer of the caller's own.
#[derive(Drop)]
pub enum FinishError<X: Drop> {
    /// The driver refuses.
    Driver(DriverError),
    /// The writer refuses; lack of memory while the answer is made is reported as its error too.
    Writer(X),
}

impl<X: Drop> From<DriverError> for FinishError<X> {
    ghost use Rattle.std.specs.Prelude.{◌≡◌};
    ghost use Rattle.csl_driver.specs.declared.error.FinishError.TheVariants.{Driver};

    ghost from_gives = { λ d e. e ≡ Driver d };

    fn from(error: DriverError) -> FinishError<X> {
        FinishError::Driver(error)
    }
}

impl From<FinishError<AllocError>> for DriverError {
    ghost use Rattle.std.specs.Prelude.{◌≡◌};
    ghost use Rattle.csl_driver.specs.OwnError.{own_error};

    ghost from_gives = { λ d e. e ≡ own_error d };

    fn from(error: FinishError<AllocError>) -> DriverError {
        match error {
            FinishError::Driver(error) => error,
            FinishError::Writer(error) => DriverError::OutOfMemory(error),
        }
    }
}

impl From<AllocError> for DriverError {
    ghost use Rattle.std.specs.Prelude.{◌≡◌};
    ghost use Rattle.csl_driver.specs.declared.error.DriverError.TheVariants.{OutOfMemory};

    ghost from_gives = { λ a e. e ≡ OutOfMemory a };

    fn from(error: AllocError) -> DriverError {
        DriverError::OutOfMemory(error)
    }
}

/// A request that the driver couldn't take for lack of memory, handed back unchanged.
#[derive(Drop)]
pub struct CitationRefused<'a, T, P> {
    pub request: CitationRequest<'a, T, P>,
}
