//! Memory that a rendering leaves for the next one.
use layout_context::spare_memory::SpareMemory;
use std::alloc::{AllocError, Global};

/// What a rendering took memory for, kept for the next one.
#[derive(Drop)]
pub(crate) struct Spare {
    memory: Option<SpareMemory>,
}

impl Spare {
    /// None yet; it takes no memory.
    pub(crate) fn none() -> Spare {
        Spare { memory: None }
    }

    /// The memory that was left, or new one.
    pub(crate) fn take(&mut self, alloc: Global) -> Result<SpareMemory, AllocError> {
        match self.memory.take() {
            Some(memory) => Ok(memory),
            None => SpareMemory::new(alloc),
        }
    }

    /// Leaves memory for the next rendering.
    pub(crate) fn leave(&mut self, memory: SpareMemory) {
        self.memory = Some(memory);
    }
}
