//! An order of macros, each behind those that it calls.
use crate::outline::Outline;
use std::alloc::{AllocError, Global};

/// An order of macros, or why there is none.
#[derive(Drop)]
pub enum CallOrder {
    /// All macros, by their numbers, each behind those that it calls.
    Order(Vec<usize>),
    /// Macros that call each other in a ring.
    Ring(RingCall),
}

/// The call of a ring by its first macro, in the order of the file, of the next one.
#[derive(Clone, Copy, PartialEq, Eq)]
pub struct RingCall {
    pub caller: usize,
    /// The number of the call among the caller's.
    pub call: usize,
}

/// The order of these macros: those that call nothing first, and then each as soon as all that it
/// calls are ordered. A macro that calls a number that no macro has is never ordered.
///
/// # Errors
///
/// Where memory is refused.
pub fn call_order(alloc: Global, macros: &[Outline]) -> Result<CallOrder, AllocError> {
    let mut waiting = Waiting::new(alloc, macros)?;
    let mut order = Vec::new(alloc);
    for number in 0..macros.len() {
        if waiting.is_free(number) {
            order.push(number)?;
        }
    }
    // a macro is ordered once, so there are as many steps as macros at most
    for step in 0..macros.len() {
        let Some(number) = order.get(step).copied() else {
            return Ok(CallOrder::Ring(ring_call(macros, &waiting)));
        };
        waiting.free_callers_of(number, &mut order)?;
    }
    Ok(CallOrder::Order(order))
}

/// How many calls each macro waits for, and who waits for whom.
#[derive(Drop)]
struct Waiting {
    /// For each macro how many of its calls are not ordered.
    counts: Vec<usize>,
    /// For each macro those that call it, as often as they do.
    callers: Vec<Vec<usize>>,
}

impl Waiting {
    /// Each macro waits for all that it calls.
    fn new(alloc: Global, macros: &[Outline]) -> Result<Waiting, AllocError> {
        let mut counts = Vec::new(alloc);
        let mut callers: Vec<Vec<usize>> = Vec::new(alloc);
        for each in macros {
            counts.push(each.calls.len())?;
            callers.push(Vec::new(alloc))?;
        }
        for number in 0..macros.len() {
            for call in &macros[number].calls {
                if let Some(callers) = callers.get_mut(call.callee) {
                    callers.push(number)?;
                }
            }
        }
        Ok(Waiting { counts, callers })
    }

    /// Whether a macro waits for nothing.
    fn is_free(&self, number: usize) -> bool {
        self.counts.get(number) == Some(&0)
    }

    /// This macro is ordered: orders each caller that waited for it alone.
    fn free_callers_of(&mut self, number: usize, order: &mut Vec<usize>) -> Result<(), AllocError> {
        let Some(callers) = self.callers.get(number) else {
            return Ok(());
        };
        for caller in callers {
            if let Some(count) = self.counts.get_mut(*caller) {
                *count = count.saturating_sub(1);
                if *count == 0 {
                    order.push(*caller)?;
                }
            }
        }
        Ok(())
    }

    /// The first call of a macro that still waits for what it calls.
    fn waiting_call(&self, macros: &[Outline], number: usize) -> Option<(usize, usize)> {
        let calls = &macros.get(number)?.calls;
        let first = calls.iter().position(|call| !self.is_free(call.callee))?;
        Some((first, calls[first].callee))
    }
}

/// A call of a ring, where some macros wait for each other.
fn ring_call(macros: &[Outline], waiting: &Waiting) -> RingCall {
    let mut number = first_waiting(macros.len(), waiting);
    // behind as many steps as there are macros the walk is on a ring
    for _ in 0..macros.len() {
        if let Some((_, callee)) = waiting.waiting_call(macros, number) {
            number = callee;
        }
    }
    let mut first = number;
    for _ in 0..macros.len() {
        if let Some((_, callee)) = waiting.waiting_call(macros, number) {
            number = callee;
            first = first.min(callee);
        }
    }
    let call = waiting
        .waiting_call(macros, first)
        .map_or(0, |found| found.0);
    RingCall {
        caller: first,
        call,
    }
}

/// The first macro that waits.
fn first_waiting(count: usize, waiting: &Waiting) -> usize {
    for number in 0..count {
        if !waiting.is_free(number) {
            return number;
        }
    }
    0
}
