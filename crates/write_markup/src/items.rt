//! Runs of items of a bibliography.
use crate::addresses::with_addresses;
use crate::runs::Run;
use crate::trees::runs_of;
use csl_base::elem::ElemChildren;
use std::alloc::{AllocError, Global};

/// An item of a bibliography, in whose texts each URL and each DOI leads there.
#[derive(Drop)]
pub struct ItemRuns {
    /// The item's first field, where that stands apart.
    pub first_field: Option<Vec<Run>>,
    pub content: Vec<Run>,
}

impl ItemRuns {
    /// The item of these trees.
    ///
    /// # Errors
    ///
    /// Where memory is refused.
    pub fn new(
        alloc: Global,
        first_field: Option<ElemChildren>,
        content: ElemChildren,
    ) -> Result<ItemRuns, AllocError> {
        let first_field = match first_field {
            Some(field) => Some(with_addresses(alloc, runs_of(alloc, &field, &[])?)?),
            None => None,
        };
        let content = with_addresses(alloc, runs_of(alloc, &content, &[])?)?;
        Ok(ItemRuns {
            first_field,
            content,
        })
    }
}
