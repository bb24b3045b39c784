//! What a macro has, as far as its order and its size depend on it.
use std::alloc::{AllocError, Global};

/// A call of a macro.
#[derive(Clone, Copy)]
pub struct Call {
    /// The number of the macro that is called.
    pub callee: usize,
    /// How deep the element that calls it nests: 1 for one that no other is around.
    pub depth: usize,
}

/// A macro, or another list of elements that calls macros.
#[derive(Drop)]
pub struct Outline {
    /// How many elements it has itself, and how deep they nest.
    pub size: Size,
    /// Its calls, in the order of its elements.
    pub calls: Vec<Call>,
}

/// How large a list of elements is. Each number that is too large is the largest.
#[derive(Clone, Copy, Debug, PartialEq, Eq)]
pub struct Size {
    /// How many elements it has.
    pub elements: u64,
    /// How deep they nest.
    pub depth: usize,
}

impl Outline {
    /// How large it is if each call is replaced by what it calls, given the sizes of that. What has
    /// no size counts nothing.
    pub fn written_out(&self, sizes: &[Size]) -> Size {
        let mut total = self.size;
        for call in &self.calls {
            if let Some(size) = sizes.get(call.callee) {
                total.elements = total.elements.saturating_add(size.elements);
                total.depth = total.depth.max(call.depth.saturating_add(size.depth));
            }
        }
        total
    }
}

/// How large macros are if each call is replaced by what it calls, by their numbers, for macros in
/// this order, each behind those that it calls.
///
/// # Errors
///
/// Where memory is refused.
pub fn sizes_of(
    alloc: Global,
    macros: &[Outline],
    order: &[usize],
) -> Result<Vec<Size>, AllocError> {
    let mut sizes = Vec::new(alloc);
    for each in macros {
        sizes.push(each.size)?;
    }
    for number in order {
        if let Some(each) = macros.get(*number) {
            let size = each.written_out(&sizes);
            if let Some(place) = sizes.get_mut(*number) {
                *place = size;
            }
        }
    }
    Ok(sizes)
}
