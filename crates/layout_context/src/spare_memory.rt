//! SpareMemory that a writing context leaves for the next one.

use csl_base::elem::ElemChild;
use std::alloc::{AllocError, Global};

// For how many bytes of a text, how many children and how many frames there is memory from the
// start.
const BYTES: usize = 64;

const CHILDREN: usize = 8;

const FRAMES: usize = 8;

/// SpareMemory for what a writing context writes. The next context takes it over, so that it needs
/// no memory of its own while it doesn't write more. What stands in it means nothing.
#[derive(Drop)]
pub struct SpareMemory {
    pub(crate) text: String,
    pub(crate) children: Vec<ElemChild>,
    pub(crate) counts: Vec<usize>,
}

impl SpareMemory {
    /// SpareMemory for some short texts, children and frames.
    ///
    /// # Errors
    ///
    /// Where memory is refused.
    pub fn new(alloc: Global) -> Result<SpareMemory, AllocError> {
        Ok(SpareMemory {
            text: String::with_capacity(alloc, BYTES)?,
            children: Vec::with_capacity(alloc, CHILDREN)?,
            counts: Vec::with_capacity(alloc, FRAMES)?,
        })
    }
}
