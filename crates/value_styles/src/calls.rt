//! Which macros an element calls.
ghost use Rattle.std.specs.Prelude.{◌≡◌, ◌++◌, OnOk, string_bytes, map};
ghost use Rattle.value_styles.specs.Calls.{calls, calls_of_all, calls_of_branches};
ghost use Rattle.value_styles.specs.ElementView.{element_view, elements_view, branches_view};

use crate::element::{ChooseBranch, LayoutRenderingElement, TextTarget};
use std::alloc::AllocError;

/// Adds the names of the macros that an element calls, from left to right, in every branch.
///
/// # Errors
///
/// Where memory is refused; what was added till then stays.
#[cycle(calls)]
pub fn add_calls<'a>(
    names: &mut Vec<&'a str>,
    element: &'a LayoutRenderingElement,
) -> Result<(), AllocError>
    ensures { OnOk result (map (λ s. s.now) names.new.items
        ≡ map (λ s. s.now) names.old.items ++ calls (element_view element.now)) }
{
    match element {
        LayoutRenderingElement::Text { target, .. } => {
            if let TextTarget::Macro(name) = target {
                names.push(name.as_str())?;
            }
            Ok(())
        }
        LayoutRenderingElement::Number { .. } => Ok(()),
        LayoutRenderingElement::Date { .. } => Ok(()),
        LayoutRenderingElement::Names { .. } => Ok(()),
        LayoutRenderingElement::Group { children, .. } => add_all_calls(names, children),
        LayoutRenderingElement::Choose {
            branches,
            otherwise,
        } => { add_branch_calls(names, branches, otherwise) }
    }
}

/// Adds the names of the macros that these elements call, from left to right, in every branch.
///
/// # Errors
///
/// Where memory is refused; what was added till then stays.
#[cycle(calls)]
pub fn add_all_calls<'a>(
    names: &mut Vec<&'a str>,
    elements: &'a [LayoutRenderingElement],
) -> Result<(), AllocError>
    ensures { OnOk result (map (λ s. s.now) names.new.items
        ≡ map (λ s. s.now) names.old.items ++ calls_of_all (elements_view elements.now)) }
{
    for element in elements {
        add_calls(names, element)?;
    }
    Ok(())
}

#[cycle(calls)]
fn add_branch_calls<'a>(
    names: &mut Vec<&'a str>,
    branches: &'a [ChooseBranch],
    otherwise: &'a [LayoutRenderingElement],
) -> Result<(), AllocError>
    ensures { OnOk result (map (λ s. s.now) names.new.items
        ≡ map (λ s. s.now) names.old.items
        ++ calls_of_branches (branches_view branches.now otherwise.now)) }
{
    for branch in branches {
        add_all_calls(names, &branch.children)?;
    }
    add_all_calls(names, otherwise)
}
