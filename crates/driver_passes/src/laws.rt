//! Laws of what a caller asks for.
ghost use Rattle.std.specs.Prelude.{◌≡◌};
ghost use Rattle.std.specs.Bool.{Decides};
ghost use Rattle.value_sources.specs.Tells.{TellsEqual, TellsSeen};
ghost use Rattle.driver_lookup.specs.PropertiesView.{properties_view};
ghost use Rattle.driver_lookup.specs.declared.properties.CiteProperties.{CiteProperties};
ghost use Rattle.driver_passes.specs.RequestView.{cite_view};
ghost use Rattle.driver_passes.specs.Same.{IsSameCite, IsSameRequest, IsSameWanted};
ghost use Rattle.driver_passes.specs.declared.item.CitationItem.{CitationItem};
ghost use Rattle.driver_passes.specs.declared.request.BibliographyRequest.{BibliographyRequest};
ghost use Rattle.driver_passes.specs.declared.request.CitationRequest.{CitationRequest};

use crate::first::FirstProperties;
use crate::item::CitationItem;
use crate::request::{BibliographyRequest, CitationRequest};
use csl_base::laws::{locale_equality_decides, style_equality_decides};
use driver_lookup::laws::{equality_decides, state_equality_decides};
use driver_lookup::properties::CiteProperties;

/// A law: a copy of a cite is equal to it.
pub fn items_copy_equal<'a, T: 'a, P: Drop + 'a>()
    ensures { (a b : CitationItem T P) → ⟦<CitationItem<'a, T, P> as Clone>⟧.is_clone a b
        → cite_view b ≡ cite_view a }
{}

/// A law: `==` of cites is true exactly where the entries are equal by their own `==`, the locators
/// by that of the caller's payloads, and all else is the same.
pub fn item_equality_decides<'a, T: PartialEq + 'a, P: PartialEq + 'a>()
    ensures { (a b : CitationItem T P) → Decides (⟦<CitationItem<'a, T, P> as PartialEq>⟧.eq a b)
        (IsSameCite T.eq P.eq (cite_view a) (cite_view b)) }
{
    state_equality_decides();
}

/// A law: `==` of requests for citations is true exactly where cites are equal by their own `==`,
/// and styles, locales and note numbers are the same, as plain data. What was prepared isn't looked
/// at.
pub fn request_equality_decides<'a, T: PartialEq + 'a, P: PartialEq + 'a>()
    ensures { (a b : CitationRequest T P)
        → Decides (⟦<CitationRequest<'a, T, P> as PartialEq>⟧.eq a b)
        (IsSameRequest T.eq P.eq a b) }
{
    item_equality_decides::<T, P>();
    locale_equality_decides();
    style_equality_decides();
}

/// A law: `==` of requests for bibliographies is true exactly where styles and locales are the
/// same, as plain data, and the entries of the orders are equal by their own `==`. What was
/// prepared isn't looked at.
pub fn bibliography_request_equality_decides<'a, T: PartialEq + 'a>()
    ensures { (a b : BibliographyRequest T)
        → Decides (⟦<BibliographyRequest<'a, 'a, T> as PartialEq>⟧.eq a b)
        (IsSameWanted T.eq a b) }
{
    locale_equality_decides();
    style_equality_decides();
}

/// A law: `==` of what is known of a cite when it is rendered first is true exactly of equal
/// values.
pub fn first_equality_decides()
    ensures { TellsEqual ⟦<FirstProperties as PartialEq>⟧.eq }
{
    state_equality_decides();
}

/// A law: `==` of the properties of a cite is true exactly where the plain data is equal, if that
/// of the caller's own payloads is.
pub fn properties_equality_decides<'a, P: PartialEq + 'a>()
    ensures { TellsEqual P.eq
        → TellsSeen properties_view ⟦<CiteProperties<'a, P> as PartialEq>⟧.eq }
{
    state_equality_decides();
    equality_decides::<P>();
}
