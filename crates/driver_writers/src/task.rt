//! What a writer is asked to write.
ghost use Rattle.std.specs.Prelude.{◌≡◌, ⊤};
ghost use Rattle.value_styles.specs.Ring.{HasNoRing};
ghost use Rattle.driver_lookup.specs.SourceView.{source_view};

use driver_lookup::lookup::StyleLocales;
use driver_lookup::properties::CiteProperties;
use driver_lookup::purpose::CitePurpose;
use driver_lookup::state::CollapseVerdict;
use std::alloc::AllocError;

/// A cite: of an entry, in a style with its locales, by what is known of the cite.
///
/// Cites that are rendered to be compared have no place; a cite that is written for the last time
/// has the index of its request and, behind it, its own in the items of that request, both from 0.
pub struct CiteTask<'t, 'p, T, P> {
    pub source: StyleLocales<'t>,
    pub entry: &'t T,
    pub properties: &'t CiteProperties<'p, P>,
    pub purpose: Option<CitePurpose>,
    pub verdict: Option<CollapseVerdict>,
    pub place: Option<(usize, usize)>,
    pub ghost no_ring: { HasNoRing (source_view source).style.macros },
}

/// An item of the bibliography, by what is known of the first cite of its entry, which has no
/// locator here.
pub struct ItemTask<'t, 'p, T, P> {
    pub source: StyleLocales<'t>,
    pub entry: &'t T,
    pub properties: &'t CiteProperties<'p, P>,
    pub ghost no_ring: { HasNoRing (source_view source).style.macros },
}

/// The date of an entry, in place of a cite that is for the year alone. It is written for the last
/// time, at this place. It has the suffix of the year where means are taken together, and none in
/// the other modes.
pub struct DateTask<'t, T> {
    pub source: StyleLocales<'t>,
    pub entry: &'t T,
    pub suffix: Option<usize>,
    pub place: Option<(usize, usize)>,
    pub ghost no_ring: { HasNoRing (source_view source).style.macros },
}

impl<'t, 'p, T, P> Clone for CiteTask<'t, 'p, T, P> {
    ghost is_clone = { λ s r. r ≡ s };

    ghost is_infallible = { λ _. ⊤ };

    fn clone(&self) -> Result<CiteTask<'t, 'p, T, P>, AllocError> {
        Ok(*self)
    }
}

impl<'t, 'p, T, P> Copy for CiteTask<'t, 'p, T, P> {}

impl<'t, 'p, T, P> Clone for ItemTask<'t, 'p, T, P> {
    ghost is_clone = { λ s r. r ≡ s };

    ghost is_infallible = { λ _. ⊤ };

    fn clone(&self) -> Result<ItemTask<'t, 'p, T, P>, AllocError> {
        Ok(*self)
    }
}

impl<'t, 'p, T, P> Copy for ItemTask<'t, 'p, T, P> {}

impl<'t, T> Clone for DateTask<'t, T> {
    ghost is_clone = { λ s r. r ≡ s };

    ghost is_infallible = { λ _. ⊤ };

    fn clone(&self) -> Result<DateTask<'t, T>, AllocError> {
        Ok(*self)
    }
}

impl<'t, T> Copy for DateTask<'t, T> {}
