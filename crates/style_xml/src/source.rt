//! The text that is read.
ghost use Rattle.std.specs.Prelude.{◌≡◌, ◌+◌, ◌≤◌, length};

use crate::error::Wanted;
use crate::stop::Stop;
use std::alloc::Global;

/// What stays the same while a text is read: where memory comes from, and the length of the text.
#[derive(Clone, Copy)]
pub(crate) struct Source {
    pub(crate) alloc: Global,
    pub(crate) length: usize,
}

impl Source {
    /// Where the rest of the text begins.
    pub(crate) fn offset_of(self, rest: &str) -> usize
        requires { length rest.now ≤ self.length }
        ensures { result + length rest.now ≡ self.length }
    {
        self.length - rest.len()
    }

    /// At this offset, something else is wanted.
    pub(crate) fn stop_at(self, wanted: Wanted, offset: usize) -> Stop {
        Stop::At {
            wanted,
            left: self.length.saturating_sub(offset),
        }
    }
}
