//! The elements that write something, and those around them.
use crate::choose::{branch_shape, check_choose, rule_of};
use crate::date::date_of;
use crate::formatting::{display_of, setting_of};
use crate::names::{check_names, names_with};
use crate::text::{label_of, number_of, text_of};
use std::alloc::Global;
use style_elements::attributes::text_or_empty;
use style_elements::children::csl_name;
use style_elements::reading::Reading;
use style_elements::shape::{ELSE, GROUP, SUBSTITUTE, Shape, check};
use style_elements::stop::Stop;
use style_file::choose::{Branch, Choose};
use style_file::element::{Group, RenderingElement};
use style_xml::tree::{Content, Element};

/// The elements in an element, in the order of the file.
#[cycle(rendering)]
pub(crate) fn elements_of(
    parent: &Element,
    reading: &mut Reading<'_>,
) -> Result<Vec<RenderingElement>, Stop> {
    let mut elements = Vec::new(reading.alloc);
    for part in &parent.content {
        if let Content::Element(child) = part {
            let pushed = push_element(child, &mut elements, reading);
            reading.go_on(pushed)?;
        }
    }
    Ok(elements)
}

/// Adds the element that this is, where it writes something.
#[cycle(rendering)]
fn push_element(
    element: &Element,
    elements: &mut Vec<RenderingElement>,
    reading: &mut Reading<'_>,
) -> Result<(), Stop> {
    match csl_name(element) {
        "names" => {
            check_names(element, reading)?;
            let substitute = elements_in(element, &SUBSTITUTE, reading)?;
            push_names(element, substitute, elements, reading)
        }
        "group" => {
            check(element, &GROUP, reading)?;
            let children = elements_of(element, reading)?;
            push_group(reading.alloc, element, children, elements)
        }
        "choose" => {
            check_choose(element, reading)?;
            let branches = branches_of(element, reading)?;
            let otherwise = elements_in(element, &ELSE, reading)?;
            push_choose(branches, otherwise, elements)
        }
        _ => push_plain(element, elements, reading),
    }
}

// An element is large. What holds one stays out of the frames that nest as the file does, so that
// the deepest file needs no more stack than the header of the library says.

/// Adds the `names` with these elements in its `substitute`.
#[inline(never)]
fn push_names(
    element: &Element,
    substitute: Vec<RenderingElement>,
    elements: &mut Vec<RenderingElement>,
    reading: &mut Reading<'_>,
) -> Result<(), Stop> {
    let names = names_with(element, substitute, reading)?;
    elements.push(RenderingElement::Names(names))?;
    Ok(())
}

/// Adds the `group` of these children.
#[inline(never)]
fn push_group(
    alloc: Global,
    element: &Element,
    children: Vec<RenderingElement>,
    elements: &mut Vec<RenderingElement>,
) -> Result<(), Stop> {
    let group = group_with(alloc, element, children)?;
    elements.push(RenderingElement::Group(group))?;
    Ok(())
}

/// Adds the `choose` of these branches.
#[inline(never)]
fn push_choose(
    branches: Vec<Branch>,
    otherwise: Vec<RenderingElement>,
    elements: &mut Vec<RenderingElement>,
) -> Result<(), Stop> {
    elements.push(RenderingElement::Choose(Choose {
        branches,
        otherwise,
    }))?;
    Ok(())
}

/// Adds the element without others in it that this is, where it writes something.
#[inline(never)]
fn push_plain(
    element: &Element,
    elements: &mut Vec<RenderingElement>,
    reading: &mut Reading<'_>,
) -> Result<(), Stop> {
    if let Some(plain) = plain_element(element, reading)? {
        elements.push(plain)?;
    }
    Ok(())
}

/// The element without others in it that this is; none where it writes nothing.
fn plain_element(
    element: &Element,
    reading: &mut Reading<'_>,
) -> Result<Option<RenderingElement>, Stop> {
    match csl_name(element) {
        "text" => text_of(element, reading),
        "number" => Ok(Some(number_of(element, reading)?)),
        "label" => Ok(Some(label_of(element, reading)?)),
        "date" => Ok(Some(date_of(element, reading)?)),
        _ => Ok(None),
    }
}

/// A `group` of these elements.
fn group_with(
    alloc: Global,
    element: &Element,
    elements: Vec<RenderingElement>,
) -> Result<Group, Stop> {
    let display = display_of(alloc, element)?;
    let (affixes, formatting) = setting_of(alloc, element)?;
    Ok(Group {
        delimiter: text_or_empty(alloc, element, "delimiter")?,
        elements,
        affixes,
        formatting,
        display,
        offset: element.offset,
    })
}

/// The branches of a `choose` that have tests.
#[cycle(rendering)]
fn branches_of(choose: &Element, reading: &mut Reading<'_>) -> Result<Vec<Branch>, Stop> {
    let mut branches = Vec::new(reading.alloc);
    for part in &choose.content {
        if let Content::Element(child) = part {
            if let Some(shape) = branch_shape(csl_name(child)) {
                let rule = rule_of(child, shape, reading);
                let elements = elements_of(child, reading)?;
                if let Some((rule, tests)) = reading.go_on(rule)? {
                    branches.push(Branch {
                        rule,
                        tests,
                        elements,
                    })?;
                }
            }
        }
    }
    Ok(branches)
}

/// The elements in the first child of this shape; none where there is no such child.
#[cycle(rendering)]
fn elements_in(
    parent: &Element,
    shape: &'static Shape,
    reading: &mut Reading<'_>,
) -> Result<Vec<RenderingElement>, Stop> {
    for part in &parent.content {
        if let Content::Element(child) = part {
            if csl_name(child) == shape.name {
                check(child, shape, reading)?;
                return elements_of(child, reading);
            }
        }
    }
    Ok(Vec::new(reading.alloc))
}
