//! The dearest way through a program.
use crate::cost::Cost;
use crate::error::{Excess, LimitError, StylePlace};
use crate::steps::{Prices, step_cost};
use cite_program::program::{Program, Step};
use std::alloc::{AllocError, Global};
use style_file::element::{Text, TextSource};

/// Refuses a program through which there is a way that takes more, whatever the item has.
///
/// # Errors
///
/// `Exceeded`, with the innermost macro in which it is, or else `whole`; `OutOfMemory`.
pub fn check_ways(
    alloc: Global,
    program: &Program<'_>,
    prices: &Prices<'_>,
    most: Cost,
    whole: StylePlace,
) -> Result<(), LimitError> {
    let priced = priced_steps(alloc, program, prices, whole)?;
    let count = priced.len();
    let mut dearest: Vec<Cost> = Vec::new(alloc);
    dearest.resize(count, Cost::NOTHING)?;
    for (before_end, step) in priced.iter().rev().enumerate() {
        let here = count.saturating_sub(before_end).saturating_sub(1);
        let cost = step
            .cost
            .plus(cost_behind(program, dearest.as_slice(), here));
        if let Some(what) = most.lacks(cost) {
            return Err(LimitError::Exceeded(Excess::of(what, most, step.place)));
        }
        if let Some(known) = dearest.get_mut(here) {
            *known = cost;
        }
    }
    Ok(())
}

/// The cost of the dearest way after a step, where the costs of later steps are known.
fn cost_behind(program: &Program<'_>, dearest: &[Cost], here: usize) -> Cost {
    let next = cost_at(dearest, here.saturating_add(1));
    match program.steps.get(here) {
        Some(Step::Names { end, .. }) => next.most(cost_at(dearest, *end)),
        Some(Step::Test { otherwise, .. }) => next.most(cost_at(dearest, *otherwise)),
        Some(Step::CloseSubstitute { names_at }) => {
            next.most(cost_at(dearest, program.end_of(*names_at)))
        }
        Some(Step::Leave { choose_at }) => cost_at(dearest, program.end_of(*choose_at)),
        _ => next,
    }
}

fn cost_at(dearest: &[Cost], place: usize) -> Cost {
    dearest.get(place).copied().unwrap_or(Cost::NOTHING)
}

/// A step with its cost, and the innermost macro in which it is.
#[derive(Clone, Copy)]
struct PricedStep {
    cost: Cost,
    place: StylePlace,
}

/// What holds for the steps in an element.
#[derive(Clone, Copy)]
struct Around {
    /// How long what stands between them is.
    delimiter: usize,
    place: StylePlace,
}

/// The steps of a program with their costs.
fn priced_steps(
    alloc: Global,
    program: &Program<'_>,
    prices: &Prices<'_>,
    whole: StylePlace,
) -> Result<Vec<PricedStep>, AllocError> {
    let mut priced = Vec::new(alloc);
    let mut open = Vec::new(alloc);
    let outermost = Around {
        delimiter: 0,
        place: whole,
    };
    for step in &program.steps {
        let around = open.last().copied().unwrap_or(outermost);
        let cost = step_cost(program, step, prices).plus(Cost::of_bytes(around.delimiter));
        priced.push(PricedStep {
            cost,
            place: around.place,
        })?;
        follow(&mut open, step, around)?;
    }
    Ok(priced)
}

/// Opens or closes the element that a step opens or closes.
fn follow(open: &mut Vec<Around>, step: &Step<'_>, around: Around) -> Result<(), AllocError> {
    match step {
        Step::OpenGroup(group) => open.push(Around {
            delimiter: group.delimiter.len(),
            ..around
        })?,
        Step::OpenMacro(text) => open.push(Around {
            delimiter: 0,
            place: called_place(text).unwrap_or(around.place),
        })?,
        Step::OpenSubstitute { .. } => open.push(Around {
            delimiter: 0,
            ..around
        })?,
        Step::CloseGroup | Step::CloseSubstitute { .. } => {
            open.pop();
        }
        _ => {}
    }
    Ok(())
}

/// The macro that a text calls.
pub fn called_place(text: &Text) -> Option<StylePlace> {
    match &text.source {
        TextSource::Macro(index) => Some(StylePlace::Macro(index.0)),
        _ => None,
    }
}
