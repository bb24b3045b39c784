//! Rings of macros that call each other.
ghost use Rattle.std.specs.Prelude.{
  ◌≡◌,
  ◌+◌,
  ℕ,
  IfOk,
  None,
  map,
  take,
  not,
  true,
  false,
  ◌≤◌,
  option_map,
  length,
};
ghost use Rattle.std.specs.List.{filter_map};
ghost use Rattle.value_styles.specs.Element.{Name};
ghost use Rattle.value_styles.specs.NamedPlaces.{place_named};
ghost use Rattle.value_styles.specs.Ring.{
  has_name,
  body_of,
  place_of_macro,
  call_places,
  IsFirstRing,
  HasNoRing,
};
ghost use Rattle.value_styles.specs.Calls.{calls_of_all};
ghost use Rattle.value_styles.specs.ElementView.{elements_view, macros_view};

use crate::calls::add_all_calls;
use crate::element::{CslMacro, LayoutRenderingElement};
use crate::graph::is_on_round;
use crate::order::has_order;
use crate::style::IndependentStyle;
use std::alloc::{AllocError, Global};
use std::collections::BTreeMap;

/// The children of the first macro of a name; none without such a macro.
pub fn body_of<'a>(macros: &'a [CslMacro], name: &str) -> Option<&'a [LayoutRenderingElement]>
    ensures { option_map (λ v. elements_view v.now) result
        ≡ body_of name.now (macros_view macros.now) }
{
    for each in macros {
        if each.name.as_str() == name {
            return Some(&each.children);
        }
    }
    None
}

/// The place of the first macro of each name.
///
/// # Errors
///
/// Where memory is refused.
pub fn first_indices(
    alloc: Global,
    macros: &[CslMacro],
) -> Result<BTreeMap<String, usize>, AllocError>
    ensures { IfOk result (λ places. (name : Name)
        → place_named places name ≡ place_of_macro name (macros_view macros.now)) }
{
    let mut places = BTreeMap::new(alloc);
    for i in 0..macros.len() {
        let name = macros[i].name.as_str();
        // a name keeps its first place
        let first = places.get(name).copied().unwrap_or(i);
        places.insert(String::from_str(alloc, name)?, first)?;
    }
    Ok(places)
}

// The place that is kept for a name.
fn place_named(places: &BTreeMap<String, usize>, name: &str) -> Option<usize>
    ensures { result ≡ place_named places.now name.now }
{
    places.get(name).copied()
}

// The places of the macros that these elements call, without the names that have no macro.
fn called_places(
    alloc: Global,
    places: &BTreeMap<String, usize>,
    elements: &[LayoutRenderingElement],
) -> Result<Vec<usize>, AllocError>
    ensures { IfOk result (λ called. called.items
        ≡ filter_map (place_named places.now) (calls_of_all (elements_view elements.now))) }
{
    let mut names = Vec::new(alloc);
    add_all_calls(&mut names, elements)?;
    let mut called = Vec::new(alloc);
    for name in &names {
        if let Some(place) = place_named(places, *name) {
            called.push(place)?;
        }
    }
    Ok(called)
}

// For each macro the places of those that it calls.
fn call_places(alloc: Global, macros: &[CslMacro]) -> Result<Vec<Vec<usize>>, AllocError>
    ensures { IfOk result (λ rows. map (λ row. row.items) rows.items
        ≡ call_places (macros_view macros.now)) }
{
    let places = first_indices(alloc, macros)?;
    let mut rows = Vec::new(alloc);
    for each in macros {
        rows.push(called_places(alloc, &places, &each.children)?)?;
    }
    Ok(rows)
}

// Whether no macro before `i` has that name.
fn is_new_name(macros: &[CslMacro], i: usize, name: &str) -> bool
    requires { i ≤ length macros.now }
    ensures { result ≡ not (has_name name.now
        (map (λ m. m.name) (macros_view (take i macros.now)))) }
{
    for each in &macros[..i] {
        if each.name.as_str() == name {
            return false;
        }
    }
    true
}

// The place of the first macro that lies on a ring. Each macro is asked for alone, so this is for
// macros where some lie on one.
fn first_ring(
    alloc: Global,
    macros: &[CslMacro],
    rows: &[Vec<usize>],
) -> Result<Option<usize>, AllocError>
    requires { map (λ row. row.items) rows.now ≡ call_places (macros_view macros.now) }
    ensures { IfOk result (IsFirstRing (macros_view macros.now)) }
{
    for i in 0..macros.len() {
        let name = macros[i].name.as_str();
        if is_new_name(macros, i, name) && is_on_round(alloc, rows, i)? {
            return Ok(Some(i));
        }
    }
    Ok(None)
}

impl IndependentStyle {
    /// The place of the first macro that calls itself, through others or alone; none where no macro
    /// does. A call means the first macro of its name, and a call of a name without a macro means
    /// nothing (CSL 1.0.2, macro).
    ///
    /// # Errors
    ///
    /// Where memory is refused.
    pub fn ring(&self, alloc: Global) -> Result<Option<usize>, AllocError>
        ensures first { IfOk result (IsFirstRing (macros_view self.now.macros.items)) }
        ensures none { IfOk result (λ r. r ≡ None → HasNoRing (macros_view self.now.macros.items)) }
    {
        let rows = call_places(alloc, &self.macros)?;
        if has_order(alloc, &rows)? {
            return Ok(None);
        }
        first_ring(alloc, &self.macros, &rows)
    }
}
