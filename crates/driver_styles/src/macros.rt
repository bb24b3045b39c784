//! The macros of a style, by name.
ghost use Rattle.std.specs.Prelude.{◌≡◌, IfOk};
ghost use Rattle.value_styles.specs.Element.{Name};
ghost use Rattle.value_styles.specs.NamedPlaces.{place_named};
ghost use Rattle.value_styles.specs.Ring.{place_of_macro};
ghost use Rattle.value_styles.specs.StyleView.{style_view};

use csl_base::element::LayoutRenderingElement;
use csl_base::ring::first_indices;
use csl_base::style::IndependentStyle;
use std::alloc::{AllocError, Global};
use std::collections::BTreeMap;

/// A style, with the place of its first macro of each name.
#[derive(Drop)]
pub(crate) struct MacroTable<'a> {
    pub(crate) style: &'a IndependentStyle,
    places: BTreeMap<String, usize>,
    ghost table: { (name : Name)
        → place_named places name ≡ place_of_macro name (style_view style.now).macros },
}

impl<'a> MacroTable<'a> {
    ghost use Rattle.std.specs.Prelude.{option_map};
    ghost use Rattle.value_styles.specs.ElementView.{elements_view};
    ghost use Rattle.value_styles.specs.Ring.{body_of};
    ghost use Rattle.driver_styles.specs.MacrosOf.{macros_of};

    pub(crate) fn new(
        alloc: Global,
        style: &'a IndependentStyle,
    ) -> Result<MacroTable<'a>, AllocError>
        ensures { IfOk result (λ table. table.style ≡ style.entry) }
    {
        Ok(MacroTable {
            style,
            places: first_indices(alloc, &style.macros)?,
        })
    }

    /// The children of the first macro of a name; none without such a macro.
    pub(crate) fn body_of(&self, name: &str) -> Option<&'a [LayoutRenderingElement]>
        ensures { option_map (λ v. elements_view v.now) result
            ≡ body_of name.now (macros_of self.now) }
    {
        let place = self.places.get(name)?;
        Some(&self.style.macros[*place].children)
    }
}
