//! The macros of a style, and the calls of them.
use crate::attributes::attribute;
use crate::children::csl_name;
use crate::fault::Wanted;
use crate::limits::check_limits;
use crate::nearest::Nearest;
use crate::order::{CallOrder, RingCall, call_order};
use crate::outline::{Call, Outline, Size, sizes_of};
use crate::stop::Stop;
use std::alloc::{AllocError, Global};
use std::collections::BTreeMap;
use style_file::element::MacroIndex;
use style_xml::tree::{Attribute, Content, Element};

/// The macros of a style, by number in the order of the file.
#[derive(Drop)]
pub struct MacroTable<'t> {
    names: MacroNames<'t>,
    /// Where each macro stands when each is behind those that it calls.
    indices: Vec<MacroIndex>,
    /// How large each is with all calls written out.
    sizes: Vec<Size>,
}

impl<'t> MacroTable<'t> {
    /// Of a file without macros.
    pub fn empty(alloc: Global) -> MacroTable<'t> {
        MacroTable {
            names: MacroNames::new(alloc),
            indices: Vec::new(alloc),
            sizes: Vec::new(alloc),
        }
    }

    /// The macros of a style in the order of the file, whose sizes aren't known: for styles with
    /// which something is wrong.
    pub fn unordered(alloc: Global, style: &'t Element) -> Result<MacroTable<'t>, AllocError> {
        let mut names = MacroNames::new(alloc);
        let mut indices = Vec::new(alloc);
        for (place, element) in macro_elements(alloc, style)?.iter().enumerate() {
            if let Some(name) = attribute(element, "name") {
                names.add(name.value.as_str())?;
                indices.push(MacroIndex(place))?;
            }
        }
        Ok(MacroTable {
            names,
            indices,
            sizes: Vec::new(alloc),
        })
    }

    /// The macros of a style. Refused are two macros of one name, rings of calls, and macros that
    /// are too large when they are written out. Calls of macros that aren't there are left out.
    pub fn of_style(alloc: Global, style: &'t Element) -> Result<MacroTable<'t>, Stop> {
        let elements = macro_elements(alloc, style)?;
        let names = MacroNames::of_macros(alloc, &elements)?;
        let mut outlines = Vec::new(alloc);
        for element in &elements {
            outlines.push(outline_of(alloc, element, &names)?)?;
        }
        let order = match call_order(alloc, &outlines)? {
            CallOrder::Order(order) => order,
            CallOrder::Ring(ring) => return Err(ring_stop(alloc, &elements, &names, &ring)),
        };
        let sizes = sizes_of(alloc, &outlines, &order)?;
        for number in &order {
            if let (Some(element), Some(size)) = (elements.get(*number), sizes.get(*number)) {
                check_size(alloc, element, *size)?;
            }
        }
        Ok(MacroTable {
            names,
            indices: indices_of(alloc, &order)?,
            sizes,
        })
    }

    /// The macro that an attribute names.
    pub fn index_of(&self, alloc: Global, attribute: &Attribute) -> Result<MacroIndex, Stop> {
        let index = self
            .names
            .number_of(attribute)
            .and_then(|number| self.indices.get(number));
        match index {
            Some(index) => Ok(*index),
            None => Err(self.names.missing(alloc, attribute)),
        }
    }

    /// Refuses a layout that is too large when its calls are written out.
    pub fn check_layout(&self, alloc: Global, layout: &Element) -> Result<(), Stop> {
        let outline = outline_of(alloc, layout, &self.names)?;
        check_size(alloc, layout, outline.written_out(&self.sizes))
    }
}

/// The names of macros.
#[derive(Drop)]
struct MacroNames<'t> {
    /// In the order of the file.
    names: Vec<&'t str>,
    numbers: BTreeMap<&'t str, usize>,
}

impl<'t> MacroNames<'t> {
    fn new(alloc: Global) -> MacroNames<'t> {
        MacroNames {
            names: Vec::new(alloc),
            numbers: BTreeMap::new(alloc),
        }
    }

    /// The names of these macros. No two macros may have the same name.
    fn of_macros(alloc: Global, elements: &[&'t Element]) -> Result<MacroNames<'t>, Stop> {
        let mut all = MacroNames::new(alloc);
        for element in elements {
            if let Some(attribute) = attribute(element, "name") {
                let name = attribute.value.as_str();
                if !all.add(name)? {
                    return Err(Stop::at(alloc, attribute.offset, name, Wanted::NewMacro));
                }
            }
        }
        Ok(all)
    }

    /// Adds a name; returns whether it is a new one.
    fn add(&mut self, name: &'t str) -> Result<bool, AllocError> {
        let number = self.names.len();
        self.names.push(name)?;
        Ok(self.numbers.insert(name, number)?.is_none())
    }

    /// The number of the macro that an attribute names, if there is one.
    fn number_of(&self, attribute: &Attribute) -> Option<usize> {
        self.numbers.get(attribute.value.as_str()).copied()
    }

    /// The macro that an attribute names is missing.
    fn missing(&self, alloc: Global, attribute: &Attribute) -> Stop {
        let name = attribute.value.as_str();
        match self.nearest(alloc, name) {
            Ok(nearest) => Stop::at(alloc, attribute.offset, name, Wanted::Macro { nearest }),
            Err(_) => Stop::OutOfMemory,
        }
    }

    /// The name that is nearest to another.
    fn nearest(&self, alloc: Global, name: &str) -> Result<Option<String>, AllocError> {
        let mut nearest = Nearest::new(alloc, name);
        for candidate in &self.names {
            nearest.consider(candidate)?;
        }
        match nearest.word() {
            Some(word) => Ok(Some(String::from_str(alloc, word)?)),
            None => Ok(None),
        }
    }
}

/// The macros in a style that have names, in the order of the file.
fn macro_elements<'t>(alloc: Global, style: &'t Element) -> Result<Vec<&'t Element>, AllocError> {
    let mut elements = Vec::new(alloc);
    for child in style.children() {
        if csl_name(child) == "macro" && attribute(child, "name").is_some() {
            elements.push(child)?;
        }
    }
    Ok(elements)
}

/// The size of an element's content, and its calls.
fn outline_of(
    alloc: Global,
    element: &Element,
    names: &MacroNames<'_>,
) -> Result<Outline, AllocError> {
    let mut outline = Outline {
        size: Size {
            elements: 0,
            depth: 0,
        },
        calls: Vec::new(alloc),
    };
    add_content(element, 1, &mut outline, names)?;
    Ok(outline)
}

/// Adds the content of an element, which nests this deep.
fn add_content(
    element: &Element,
    depth: usize,
    outline: &mut Outline,
    names: &MacroNames<'_>,
) -> Result<(), AllocError> {
    for part in &element.content {
        if let Content::Element(child) = part {
            outline.size.elements = outline.size.elements.saturating_add(1);
            outline.size.depth = outline.size.depth.max(depth);
            if let Some(callee) = call_in(child).and_then(|call| names.number_of(call)) {
                outline.calls.push(Call { callee, depth })?;
            }
            add_content(child, depth.saturating_add(1), outline, names)?;
        }
    }
    Ok(())
}

/// The attribute by which an element calls a macro.
fn call_in(element: &Element) -> Option<&Attribute> {
    if csl_name(element) == "text" {
        attribute(element, "macro")
    } else {
        None
    }
}

/// The place of each macro in an order.
fn indices_of(alloc: Global, order: &[usize]) -> Result<Vec<MacroIndex>, AllocError> {
    let mut indices = Vec::new(alloc);
    for _ in order {
        indices.push(MacroIndex(0))?;
    }
    for (index, number) in order.iter().enumerate() {
        if let Some(place) = indices.get_mut(*number) {
            *place = MacroIndex(index);
        }
    }
    Ok(indices)
}

/// Refuses an element that is beyond the limits with all calls written out.
fn check_size(alloc: Global, element: &Element, size: Size) -> Result<(), Stop> {
    match check_limits(size) {
        Ok(()) => Ok(()),
        Err(wanted) => {
            let name = element.name.as_str();
            Err(Stop::at(alloc, element.offset, name, wanted))
        }
    }
}

/// Macros call each other in a ring, with this call.
fn ring_stop(
    alloc: Global,
    elements: &[&Element],
    names: &MacroNames<'_>,
    ring: &RingCall,
) -> Stop {
    let mut left = ring.call;
    let call = elements
        .get(ring.caller)
        .and_then(|element| nth_call(element, names, &mut left));
    match call {
        Some(attribute) => Stop::at(
            alloc,
            attribute.offset,
            attribute.value.as_str(),
            Wanted::NoRing,
        ),
        None => Stop::at(alloc, 0, "macro", Wanted::NoRing),
    }
}

/// The call of a macro that is there, behind this many others in the content of an element.
fn nth_call<'e>(
    element: &'e Element,
    names: &MacroNames<'_>,
    left: &mut usize,
) -> Option<&'e Attribute> {
    for part in &element.content {
        if let Content::Element(child) = part {
            if let Some(attribute) = call_in(child) {
                if names.number_of(attribute).is_some() {
                    if *left == 0 {
                        return Some(attribute);
                    }
                    *left -= 1;
                }
            }
            if let Some(attribute) = nth_call(child, names, left) {
                return Some(attribute);
            }
        }
    }
    None
}
