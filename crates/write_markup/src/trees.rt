//! Runs of trees.
use crate::runs::{ElementRun, Run, TextRun};
use crate::spaces::single_spaced;
use cite_texts::addresses::url_address;
use csl_base::elem::{Elem, ElemChild, ElemChildren, ElemMeta};
use csl_base::formatting::Formatting;
use std::alloc::{AllocError, Global};

/// The runs of a tree. A cite leads to the target at its place, unless a text in it leads
/// elsewhere. Texts lead to http, https, mailto and doi alone; a text with another address leads
/// nowhere. What a tree leaves to its caller is left out.
///
/// # Errors
///
/// Where memory is refused.
pub fn runs_of(
    alloc: Global,
    tree: &ElemChildren,
    targets: &[String],
) -> Result<Vec<Run>, AllocError> {
    let mut runs = Vec::new(alloc);
    push_children(alloc, &mut runs, tree, targets)?;
    Ok(runs)
}

#[cycle(runs)]
fn push_children(
    alloc: Global,
    runs: &mut Vec<Run>,
    children: &ElemChildren,
    targets: &[String],
) -> Result<(), AllocError> {
    for child in &children.0 {
        push_child(alloc, runs, child, targets)?;
    }
    Ok(())
}

#[cycle(runs)]
fn push_child(
    alloc: Global,
    runs: &mut Vec<Run>,
    child: &ElemChild,
    targets: &[String],
) -> Result<(), AllocError> {
    match child {
        ElemChild::Text(text) => {
            push_text(alloc, runs, text.text.as_str(), text.formatting, None)
        }
        ElemChild::Elem(elem) => push_elem(alloc, runs, elem, targets),
        ElemChild::Markup(text) => {
            push_text(alloc, runs, text.as_str(), Formatting::default(), None)
        }
        ElemChild::Link { text, url } => {
            let address = url_address(alloc, url.as_str())?;
            push_text(alloc, runs, text.text.as_str(), text.formatting, address)
        }
        ElemChild::Transparent { .. } => Ok(()),
    }
}

#[cycle(runs)]
fn push_elem(
    alloc: Global,
    runs: &mut Vec<Run>,
    elem: &Elem,
    targets: &[String],
) -> Result<(), AllocError> {
    let mut inside = Vec::new(alloc);
    push_children(alloc, &mut inside, &elem.children, targets)?;
    let element = ElementRun {
        display: elem.display,
        target: target_of(elem, targets, &inside)?,
    };
    runs.push(Run::Open(element.clone()?))?;
    runs.append(&mut inside)?;
    runs.push(Run::Close(element))?;
    Ok(())
}

fn push_text(
    alloc: Global,
    runs: &mut Vec<Run>,
    text: &str,
    formatting: Formatting,
    address: Option<String>,
) -> Result<(), AllocError> {
    let text = single_spaced(alloc, text)?;
    runs.push(Run::Text(TextRun::new(text, formatting, address)))?;
    Ok(())
}

/// The target of a cite with these runs.
fn target_of(
    elem: &Elem,
    targets: &[String],
    inside: &[Run],
) -> Result<Option<String>, AllocError> {
    let Some(ElemMeta::Entry(place)) = &elem.meta else {
        return Ok(None);
    };
    match targets.get(*place) {
        Some(target) if !inside.iter().any(leads_away) => Ok(Some(target.clone()?)),
        _ => Ok(None),
    }
}

fn leads_away(run: &Run) -> bool {
    match run {
        Run::Text(text) => text.address().is_some(),
        Run::Open(_) | Run::Close(_) => false,
    }
}
