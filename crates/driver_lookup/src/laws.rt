//! Laws of the small values, each on a call of its own.
ghost use Rattle.std.specs.Prelude.{◌≡◌};
ghost use Rattle.value_sources.specs.Ordered.{IsValueOrder};
ghost use Rattle.value_sources.specs.Tells.{TellsEqual, TellsSeen};
ghost use Rattle.driver_lookup.specs.PropertiesView.{
  payload_view,
  locator_view,
  properties_view,
  speculative_view,
};
ghost use Rattle.driver_lookup.specs.declared.locator.LocatorPayload.{LocatorPayload};
ghost use Rattle.driver_lookup.specs.declared.locator.SpecificLocator.{SpecificLocator};
ghost use Rattle.driver_lookup.specs.declared.means.Means.{Means};
ghost use Rattle.driver_lookup.specs.declared.properties.CertainCiteProperties.{CertainCiteProperties};
ghost use Rattle.driver_lookup.specs.declared.properties.CiteProperties.{CiteProperties};
ghost use Rattle.driver_lookup.specs.declared.properties.SpeculativeCiteProperties.{
  SpeculativeCiteProperties,
};
ghost use Rattle.driver_lookup.specs.declared.state.DisambiguateState.{DisambiguateState};
ghost use Rattle.driver_lookup.specs.declared.state.IdentifierUsage.{IdentifierUsage};
ghost use Rattle.driver_lookup.specs.GoingOn.{GoesFarther, GoesOn, GreaterIsOne};
ghost use Rattle.driver_lookup.specs.NoProperties.{nothing_certain};
ghost use Rattle.driver_lookup.specs.States.{with_label, with_number, state_cmp, greater};
ghost use Rattle.driver_lookup.specs.SuffixLetters.{SuffixesDiffer};
ghost use Rattle.driver_lookup.specs.ValueLaws.{
  IsCommutative,
  IsAssociative,
  IsIdempotent,
  IsNeverBelow,
  IsOnce,
  Commute,
};

use crate::apart::Apart;
use crate::brackets::Brackets;
use crate::locator::{LocatorPayload, SpecificLocator, TransparentLocator};
use crate::means::Means;
use crate::properties::{CertainCiteProperties, CiteProperties, SpeculativeCiteProperties};
use crate::purpose::CitePurpose;
use crate::state::{CollapseVerdict, DisambiguateState, IbidState, IdentifierUsage};
use csl_base::names::forms_are_in_order;

/// A law: what was written counts once, in whatever order.
pub fn usage_counts_once()
    ensures label { IsOnce with_label }
    ensures number { IsOnce with_number }
    ensures any_order { Commute with_label with_number }
{}

/// A law: states are in a total order in which only equal states are equal, and of several states
/// there is one greatest, however they are taken together.
pub fn states_have_a_greatest()
    ensures in_order { IsValueOrder state_cmp }
    ensures any_order { IsCommutative greater }
    ensures any_grouping { IsAssociative greater }
    ensures once { IsIdempotent greater }
    ensures never_below { IsNeverBelow state_cmp greater }
{
    forms_are_in_order();
}

/// A law: a state goes on to itself, and on and on; of two states the greater is one of them; and a
/// state that goes on to another comes farther, by its kind and by how much of its names is
/// written.
pub fn states_go_on()
    ensures on_and_on { GoesOn }
    ensures greater_is_one { GreaterIsOne }
    ensures farther { GoesFarther }
{}

/// A law: the letters of suffixes are `a` to `z`, and say which suffix it is: they are its number
/// and one more, written with these letters for 1 to 26. So different suffixes have different
/// letters.
pub fn suffixes_differ()
    ensures { SuffixesDiffer }
{}

/// A law: a copy of a state, of means, of a locator and its payload, and of the properties of a
/// cite is equal to it.
pub fn copies_are_equal<P: Drop>()
    ensures state { (a b : DisambiguateState)
        → ⟦<DisambiguateState as Clone>⟧.is_clone a b → b ≡ a }
    ensures means { (a b : Means) → ⟦<Means as Clone>⟧.is_clone a b → b ≡ a }
    ensures shared { (a b : P) → ⟦<TransparentLocator<P> as Clone>⟧.is_clone a b → b ≡ a }
    ensures payload { (a b : LocatorPayload P)
        → ⟦<LocatorPayload<'static, P> as Clone>⟧.is_clone a b
        → b ≡ a }
    ensures locator { (a b : SpecificLocator P)
        → ⟦<SpecificLocator<'static, P> as Clone>⟧.is_clone a b
        → b ≡ a }
    ensures speculative { (a b : SpeculativeCiteProperties P)
        → ⟦<SpeculativeCiteProperties<'static, P> as Clone>⟧.is_clone a b → b ≡ a }
    ensures properties { (a b : CiteProperties P)
        → ⟦<CiteProperties<'static, P> as Clone>⟧.is_clone a b
        → b ≡ a }
{}

/// A law: `==` of brackets, of purposes, of words around a cite, of states, of means and of what is
/// certain of a cite is true exactly of equal values.
pub fn state_equality_decides()
    ensures brackets { TellsEqual ⟦<Brackets as PartialEq>⟧.eq }
    ensures purpose { TellsEqual ⟦<CitePurpose as PartialEq>⟧.eq }
    ensures apart { TellsEqual ⟦<Apart as PartialEq>⟧.eq }
    ensures usage { TellsEqual ⟦<IdentifierUsage as PartialEq>⟧.eq }
    ensures ibid { TellsEqual ⟦<IbidState as PartialEq>⟧.eq }
    ensures verdict { TellsEqual ⟦<CollapseVerdict as PartialEq>⟧.eq }
    ensures state { TellsEqual ⟦<DisambiguateState as PartialEq>⟧.eq }
    ensures means { TellsEqual ⟦<Means as PartialEq>⟧.eq }
    ensures certain { TellsEqual ⟦<CertainCiteProperties as PartialEq>⟧.eq }
{}

/// A law: `==` of locators, of their payloads and of the properties of a cite is true exactly where
/// the plain data is equal, if that of the caller's own payloads is.
pub fn equality_decides<P: PartialEq>()
    ensures shared { TellsEqual P.eq → TellsEqual ⟦<TransparentLocator<P> as PartialEq>⟧.eq }
    ensures payload { TellsEqual P.eq
        → TellsSeen payload_view ⟦<LocatorPayload<'static, P> as PartialEq>⟧.eq }
    ensures locator { TellsEqual P.eq
        → TellsSeen locator_view ⟦<SpecificLocator<'static, P> as PartialEq>⟧.eq }
    ensures speculative { TellsEqual P.eq
        → TellsSeen speculative_view ⟦<SpeculativeCiteProperties<'static, P> as PartialEq>⟧.eq }
    ensures properties { TellsEqual P.eq
        → TellsSeen properties_view ⟦<CiteProperties<'static, P> as PartialEq>⟧.eq }
{}

/// A law: at first a cite has written no identifier, nothing disambiguates its entry, and it stands
/// in no note, neither near another nor first, at place 0.
pub fn defaults_are_none()
    ensures usage { (u : IdentifierUsage) → ⟦<IdentifierUsage as Default>⟧.is_default u
        → u ≡ IdentifierUsage.None }
    ensures state { (s : DisambiguateState) → ⟦<DisambiguateState as Default>⟧.is_default s
        → s ≡ DisambiguateState.None }
    ensures certain { (c : CertainCiteProperties)
        → ⟦<CertainCiteProperties as Default>⟧.is_default c
        → c ≡ nothing_certain }
{}
