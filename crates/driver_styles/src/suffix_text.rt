//! Whether a year-suffix text stands in the layouts of a style.
ghost use Rattle.std.specs.Prelude.{◌≡◌, OnOk, IfOk, map, false};
ghost use Rattle.value_styles.specs.ElementView.{element_view, elements_view, branches_view};
ghost use Rattle.value_styles.specs.StyleView.{style_view};
ghost use Rattle.value_styles.specs.Calls.{calls_of_all};
ghost use Rattle.value_styles.specs.Ring.{body_of, macro_calls, HasNoRing};
ghost use Rattle.driver_styles.specs.Gathered.{gather_new, gather_each};
ghost use Rattle.driver_styles.specs.MacrosOf.{macros_of};
ghost use Rattle.driver_styles.specs.SuffixText.{
  no_call,
  suffix_in_body,
  suffix_in,
  suffix_in_all,
  suffix_in_branches,
  suffix_stands,
  explicit_suffix,
  SuffixesUnfold,
};

use crate::macros::MacroTable;
use csl_base::calls::add_all_calls;
use csl_base::element::{ChooseBranch, LayoutRenderingElement, TextTarget};
use csl_base::style::IndependentStyle;
use csl_base::taxonomy::StandardVariable;
use ordered_set::set::OrderedSet;
use std::alloc::{AllocError, Global};

// Whether the suffix is written by an element itself, and not by a macro that it calls.
#[cycle(suffix)]
fn has_suffix(element: &LayoutRenderingElement) -> bool
    ensures { result ≡ suffix_in no_call (element_view element.now) }
{
    match element {
        LayoutRenderingElement::Text { target, .. } => {
            matches!(target, TextTarget::Standard(StandardVariable::YearSuffix))
        }
        LayoutRenderingElement::Number { .. } => false,
        LayoutRenderingElement::Date { .. } => false,
        LayoutRenderingElement::Names { .. } => false,
        LayoutRenderingElement::Group { children, .. } => have_suffix(children),
        LayoutRenderingElement::Choose {
            branches,
            otherwise,
        } => branches_have_suffix(branches, otherwise),
    }
}

#[cycle(suffix)]
fn have_suffix(elements: &[LayoutRenderingElement]) -> bool
    ensures { result ≡ suffix_in_all no_call (elements_view elements.now) }
{
    for element in elements {
        if has_suffix(element) {
            return true;
        }
    }
    false
}

#[cycle(suffix)]
fn branches_have_suffix(branches: &[ChooseBranch], otherwise: &[LayoutRenderingElement]) -> bool
    ensures { result ≡ suffix_in_branches no_call (branches_view branches.now otherwise.now) }
{
    for branch in branches {
        if have_suffix(&branch.children) {
            return true;
        }
    }
    have_suffix(otherwise)
}

// One more name, where it has a macro and is not there.
fn add_new<'a>(
    macros: &MacroTable<'a>,
    name: &'a str,
    names: &mut OrderedSet<&'a str>,
) -> Result<(), AllocError>
    ensures { OnOk result (map (λ s. s.now) names.new.keys
        ≡ gather_new (macros_of macros.now) name.now (map (λ s. s.now) names.old.keys)) }
{
    if macros.body_of(name).is_some() {
        names.insert(name, name)?;
    }
    Ok(())
}

// The names that these elements call.
fn add_called<'a>(
    alloc: Global,
    macros: &MacroTable<'a>,
    elements: &'a [LayoutRenderingElement],
    names: &mut OrderedSet<&'a str>,
) -> Result<(), AllocError>
    ensures { OnOk result (map (λ s. s.now) names.new.keys
        ≡ gather_each (macros_of macros.now) (calls_of_all (elements_view elements.now))
        (map (λ s. s.now) names.old.keys)) }
{
    let mut called = Vec::new(alloc);
    add_all_calls(&mut called, elements)?;
    for each in &called {
        add_new(macros, *each, names)?;
    }
    Ok(())
}

// Whether the suffix is written by a macro itself; where it isn't, the names that it calls are
// added.
fn look_at<'a>(
    alloc: Global,
    macros: &MacroTable<'a>,
    name: &str,
    names: &mut OrderedSet<&'a str>,
) -> Result<bool, AllocError>
    ensures found { IfOk result
        (λ b. b ≡ suffix_in_body no_call (body_of name.now (macros_of macros.now))) }
    ensures gathered { IfOk result (λ b. b ≡ false
        → map (λ s. s.now) names.new.keys
        ≡ gather_each (macros_of macros.now) (macro_calls (macros_of macros.now) name.now)
        (map (λ s. s.now) names.old.keys)) }
{
    match macros.body_of(name) {
        Some(body) => {
            if have_suffix(body) {
                return Ok(true);
            }
            add_called(alloc, macros, body, names)?;
            Ok(false)
        }
        None => Ok(false),
    }
}

// Whether a year-suffix text stands in these elements. The macros that they lead to are gathered,
// each once.
fn suffix_stands<'a>(
    alloc: Global,
    macros: &MacroTable<'a>,
    elements: &'a [LayoutRenderingElement],
) -> Result<bool, AllocError>
    requires { HasNoRing (macros_of macros.now) }
    ensures { IfOk result
        (λ b. b ≡ suffix_stands (macros_of macros.now) (elements_view elements.now)) }
{
    if have_suffix(elements) {
        return Ok(true);
    }
    let mut names = OrderedSet::new(alloc);
    add_called(alloc, macros, elements, &mut names)?;
    let mut at = 0;
    while at < names.len() {
        let next = names.as_slice()[at];
        let found = look_at(alloc, macros, next, &mut names)?;
        if found {
            return Ok(true);
        }
        at += 1;
    }
    Ok(false)
}

/// A law: in a style without a ring a year-suffix text stands in a call of a macro exactly where it
/// stands in its first macro's children.
#[tactic(auto, using(crate::proofs::Suffixes::suffixes_unfold))]
pub fn suffixes_unfold()
    ensures { SuffixesUnfold }
{}

/// What `explicit_suffix` gives of the style of these macros.
pub(crate) fn suffix_by_table(alloc: Global, macros: &MacroTable<'_>) -> Result<bool, AllocError>
    requires { HasNoRing (macros_of macros.now) }
    ensures { IfOk result (λ b. b ≡ explicit_suffix (style_view macros.now.style.now)) }
{
    if suffix_stands(alloc, macros, &macros.style.citation.layout.elements)? {
        return Ok(true);
    }
    match &macros.style.bibliography {
        Some(bibliography) => suffix_stands(alloc, macros, &bibliography.layout.elements),
        None => Ok(false),
    }
}

/// Whether a year-suffix text stands in either layout of a style, at any depth, through macros
/// too. Each macro is looked at once for a layout.
///
/// # Errors
///
/// Where memory is refused.
pub fn explicit_suffix(alloc: Global, style: &IndependentStyle) -> Result<bool, AllocError>
    requires { HasNoRing (style_view style.now).macros }
    ensures { IfOk result (λ b. b ≡ explicit_suffix (style_view style.now)) }
{
    let macros = MacroTable::new(alloc, style)?;
    suffix_by_table(alloc, &macros)
}
