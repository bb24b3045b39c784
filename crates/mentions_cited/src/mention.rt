//! A mention as a cite that a writer is asked for.
ghost use Rattle.std.specs.Prelude.{◌≡◌, ⊤};
ghost use Rattle.value_styles.specs.Ring.{HasNoRing};
ghost use Rattle.driver_lookup.specs.SourceView.{source_view};

use driver_lookup::lookup::StyleLocales;
use driver_lookup::properties::CiteProperties;
use std::alloc::AllocError;

/// A mention of an entry, as a cite that a writer is asked for: of the entry, in the style of its
/// home with its locales, by what is known of the cite where nothing disambiguates it.
pub struct CiteMention<'t, 'p, T, P> {
    pub source: StyleLocales<'t>,
    pub entry: &'t T,
    pub properties: &'t CiteProperties<'p, P>,
    pub ghost no_ring: { HasNoRing (source_view source).style.macros },
}

impl<'t, 'p, T, P> Clone for CiteMention<'t, 'p, T, P> {
    ghost is_clone = { λ s r. r ≡ s };

    ghost is_infallible = { λ _. ⊤ };

    fn clone(&self) -> Result<CiteMention<'t, 'p, T, P>, AllocError> {
        Ok(*self)
    }
}

impl<'t, 'p, T, P> Copy for CiteMention<'t, 'p, T, P> {}
