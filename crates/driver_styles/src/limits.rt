//! How deep the elements of a layout may nest, and how many there may be, with macros written out.
ghost use Rattle.std.specs.Prelude.{[], ◌∷◌, IfErr, OnOk};
ghost use Rattle.value_sources.specs.Tells.{TellsEqual};
ghost use Rattle.value_styles.specs.ElementView.{
  branches_view,
  element_view,
  elements_view,
  target_view,
};
ghost use Rattle.driver_styles.specs.PreparedView.{prepared_view};
ghost use Rattle.driver_styles.specs.Limited.{ChecksLayout, Counted, Exceeds, IsWithinLimits};
ghost use Rattle.driver_styles.specs.Nesting.{branch_items, called, children_of, items};

use crate::prepared::PreparedStyle;
use csl_base::element::{ChooseBranch, LayoutRenderingElement, TextTarget};

/// What a layout may hold, where each call of a macro stands for the macro's children. An element
/// of a group, of a branch of a choice or of a macro stands one deeper than the group, the choice
/// or the call.
///
/// The time and the memory that a cite takes grow with these elements, with what each of them holds
/// and with the texts of its entry, and the depth of its tree grows with theirs.
#[derive(Clone, Copy, PartialEq, Eq, Debug)]
pub struct Limits {
    /// How deep the elements of a layout may nest: 1 where none may stand in another.
    pub depth: usize,
    /// How many elements a layout may have, with those of the macros counted at each call.
    pub elements: usize,
}

/// Which limit a layout exceeds.
#[derive(Clone, Copy, PartialEq, Eq, Debug)]
pub enum Excess {
    /// Its elements nest too deep.
    Depth,
    /// It has too many elements.
    Elements,
}

/// A law: `==` of `Limits` and of `Excess` is true exactly of equal values.
pub fn limits_equality_decides()
    ensures limits { TellsEqual ⟦<Limits as PartialEq>⟧.eq }
    ensures excess { TellsEqual ⟦<Excess as PartialEq>⟧.eq }
{}

impl Limits {
    /// Whether each layout of the style is within the limits. It looks at no more elements than
    /// they allow, and takes no memory.
    ///
    /// # Errors
    ///
    /// Which limit a layout exceeds: the first that is found from left to right.
    pub fn check(&self, style: &PreparedStyle<'_>) -> Result<(), Excess>
        ensures within { OnOk result (IsWithinLimits self.now (prepared_view style.now)) }
        ensures exceeded { IfErr result
            (λ which. Exceeds which self.now (prepared_view style.now)) }
    {
        let sheet = style.style();
        self.check_layout(style, &sheet.citation.layout.elements)?;
        match &sheet.bibliography {
            Some(bibliography) => self.check_layout(style, &bibliography.layout.elements),
            None => Ok(()),
        }
    }

    fn check_layout(
        &self,
        style: &PreparedStyle<'_>,
        elements: &[LayoutRenderingElement],
    ) -> Result<(), Excess>
        ensures { ChecksLayout self.now (prepared_view style.now).macros
            (items (elements_view elements.now)) result }
    {
        count_all(style, elements, self.depth, self.elements)?;
        Ok(())
    }
}

/// How many elements may still come after these and those in them.
#[cycle(counting)]
fn count_all(
    style: &PreparedStyle<'_>,
    elements: &[LayoutRenderingElement],
    depth: usize,
    left: usize,
) -> Result<usize, Excess>
    ensures { Counted (prepared_view style.now).macros depth
        (items (elements_view elements.now)) left
        result }
{
    let mut left = left;
    for element in elements {
        left = count_one(style, element, depth, left)?;
    }
    Ok(left)
}

/// How many elements may still come after this one and those in it.
#[cycle(counting)]
fn count_one(
    style: &PreparedStyle<'_>,
    element: &LayoutRenderingElement,
    depth: usize,
    left: usize,
) -> Result<usize, Excess>
    ensures { Counted (prepared_view style.now).macros depth (element_view element.now ∷ [])
        left result }
{
    if depth == 0 {
        return Err(Excess::Depth);
    }
    if left == 0 {
        return Err(Excess::Elements);
    }
    count_inside(style, element, depth - 1, left - 1)
}

/// How many elements may still come after those in this one.
#[cycle(counting)]
fn count_inside(
    style: &PreparedStyle<'_>,
    element: &LayoutRenderingElement,
    depth: usize,
    left: usize,
) -> Result<usize, Excess>
    ensures { let macros = (prepared_view style.now).macros in
        Counted macros depth (children_of macros (element_view element.now)) left result }
{
    match element {
        LayoutRenderingElement::Text { target, .. } => count_called(style, target, depth, left),
        LayoutRenderingElement::Number { .. } => Ok(left),
        LayoutRenderingElement::Date { .. } => Ok(left),
        LayoutRenderingElement::Names { .. } => Ok(left),
        LayoutRenderingElement::Group { children, .. } => count_all(style, children, depth, left),
        LayoutRenderingElement::Choose {
            branches,
            otherwise,
        } => count_branches(style, branches, otherwise, depth, left),
    }
}

/// How many elements may still come after those of the macro that a text calls, if it calls one.
#[cycle(counting)]
fn count_called(
    style: &PreparedStyle<'_>,
    target: &TextTarget,
    depth: usize,
    left: usize,
) -> Result<usize, Excess>
    ensures { let macros = (prepared_view style.now).macros in
        Counted macros depth (called macros (target_view target.now)) left result }
{
    match target {
        TextTarget::Macro(name) => match style.body_of(name.as_str()) {
            Some(body) => count_all(style, body, depth, left),
            None => Ok(left),
        },
        TextTarget::Value(_) => Ok(left),
        TextTarget::Standard(_) => Ok(left),
        TextTarget::Term(..) => Ok(left),
    }
}

/// How many elements may still come after those of these branches.
#[cycle(counting)]
fn count_branches(
    style: &PreparedStyle<'_>,
    branches: &[ChooseBranch],
    otherwise: &[LayoutRenderingElement],
    depth: usize,
    left: usize,
) -> Result<usize, Excess>
    ensures { Counted (prepared_view style.now).macros depth
        (branch_items (branches_view branches.now otherwise.now)) left result }
{
    let mut left = left;
    for branch in branches {
        left = count_all(style, &branch.children, depth, left)?;
    }
    count_all(style, otherwise, depth, left)
}
