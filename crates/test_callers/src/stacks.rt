//! Stacks that are never empty.
use csl_base::stack::NonEmptyStack;
use std::alloc::{AllocError, Global};

/// These from the bottom to the top.
fn stack(alloc: Global, items: [i32; 3]) -> Result<NonEmptyStack<i32>, AllocError> {
    let mut stack = NonEmptyStack::new(alloc, items[0])?;
    stack.push(items[1])?;
    stack.push(items[2])?;
    Ok(stack)
}

/// Whether what was pushed comes off again, and the bottom stays.
///
/// # Errors
/// Where memory is refused.
pub fn shrinks_at_the_top(alloc: Global) -> Result<bool, AllocError> {
    let mut stack = stack(alloc, [1, 2, 3])?;
    let mut holds = stack.len() == 3 && *stack.last() == 3;
    for top in [Some(3), Some(2), None] {
        holds = stack.pop() == top && holds;
    }
    Ok(stack.finish() == 1 && holds)
}
