//! How many steps a program has, before it is built.
use crate::cost::Limited;
use crate::error::{Excess, LimitError, StylePlace};
use std::alloc::{AllocError, Global};
use style_file::element::{RenderingElement, Text, TextSource};
use style_file::sections::{SortBy, SortKey};
use style_file::style::{CslStyle, Macro};

/// Refuses a style whose programs have more steps together.
///
/// # Errors
///
/// `Exceeded`, with the first macro that is longer itself, if there is one; `OutOfMemory`.
pub fn check_sizes(alloc: Global, style: &CslStyle, most: usize) -> Result<(), LimitError> {
    let sizes = macro_sizes(alloc, &style.macros, most)?;
    let citation = &style.citation;
    let layout = size_of(alloc, &citation.layout.elements, sizes.as_slice())?;
    let size = size_of_keys(&citation.sort, sizes.as_slice()).saturating_add(layout);
    check_size(size, most, StylePlace::Citation)?;
    let Some(bibliography) = &style.bibliography else {
        return Ok(());
    };
    let layout = size_of(alloc, &bibliography.layout.elements, sizes.as_slice())?;
    let keys = size_of_keys(&bibliography.sort, sizes.as_slice());
    let size = size.saturating_add(layout).saturating_add(keys);
    check_size(size, most, StylePlace::Bibliography)
}

fn check_size(size: usize, most: usize, place: StylePlace) -> Result<(), LimitError> {
    if size > most {
        return Err(LimitError::Exceeded(Excess {
            what: Limited::Steps,
            most,
            place,
        }));
    }
    Ok(())
}

/// How many steps each macro has in a program. Those that it calls stand before it.
fn macro_sizes(alloc: Global, macros: &[Macro], most: usize) -> Result<Vec<usize>, LimitError> {
    let mut sizes = Vec::new(alloc);
    for (place, called) in macros.iter().enumerate() {
        let size = size_of(alloc, &called.elements, sizes.as_slice())?;
        check_size(size, most, StylePlace::Macro(place))?;
        sizes.push(size)?;
    }
    Ok(sizes)
}

/// How many steps keys have, with those of their macros.
fn size_of_keys(keys: &[SortKey], sizes: &[usize]) -> usize {
    let mut size = keys.len();
    for key in keys {
        if let SortBy::Macro(index) = key.by {
            size = size.saturating_add(size_at(sizes, index.0));
        }
    }
    size
}

fn size_at(sizes: &[usize], place: usize) -> usize {
    sizes.get(place).copied().unwrap_or(0)
}

/// How many steps elements have, with the macros of these sizes.
fn size_of(
    alloc: Global,
    elements: &[RenderingElement],
    sizes: &[usize],
) -> Result<usize, AllocError> {
    let mut size = 0usize;
    let mut pending: Vec<&[RenderingElement]> = Vec::new(alloc);
    pending.push(elements)?;
    for _ in 0..usize::MAX {
        let Some(elements) = pending.pop() else {
            return Ok(size);
        };
        for element in elements {
            size = size.saturating_add(own_size(element, sizes));
            push_inner(&mut pending, element)?;
        }
    }
    Ok(usize::MAX)
}

/// How many steps an element has beside those of the elements inside it.
fn own_size(element: &RenderingElement, sizes: &[usize]) -> usize {
    match element {
        RenderingElement::Text(text) => size_of_text(text, sizes),
        RenderingElement::Group(_) => 2,
        RenderingElement::Choose(choose) => {
            choose.branches.len().saturating_mul(2).saturating_add(1)
        }
        RenderingElement::Names(names) => {
            names.substitute.len().saturating_mul(2).saturating_add(1)
        }
        RenderingElement::Number(_)
        | RenderingElement::Label(_)
        | RenderingElement::Date(_)
        | RenderingElement::UnknownVariable => 1,
    }
}

fn size_of_text(text: &Text, sizes: &[usize]) -> usize {
    match &text.source {
        TextSource::Macro(index) => size_at(sizes, index.0).saturating_add(2),
        _ => 1,
    }
}

/// Adds the lists of elements inside an element.
fn push_inner<'e>(
    pending: &mut Vec<&'e [RenderingElement]>,
    element: &'e RenderingElement,
) -> Result<(), AllocError> {
    match element {
        RenderingElement::Group(group) => pending.push(&group.elements)?,
        RenderingElement::Names(names) => pending.push(&names.substitute)?,
        RenderingElement::Choose(choose) => {
            for branch in &choose.branches {
                pending.push(&branch.elements)?;
            }
            pending.push(&choose.otherwise)?;
        }
        _ => {}
    }
    Ok(())
}
