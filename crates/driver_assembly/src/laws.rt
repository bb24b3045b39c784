//! Laws of what the driver hands back.
ghost use Rattle.std.specs.Prelude.{◌≡◌};
ghost use Rattle.std.specs.Bool.{Decides};
ghost use Rattle.driver_assembly.specs.declared.rendered.Rendered.{Rendered};
ghost use Rattle.driver_assembly.specs.declared.rendered.RenderedBibliography.{RenderedBibliography};
ghost use Rattle.driver_assembly.specs.declared.rendered.BibliographyItem.{BibliographyItem};
ghost use Rattle.driver_assembly.specs.declared.rendered.RenderedCitation.{RenderedCitation};

use crate::rendered::{BibliographyItem, Rendered, RenderedBibliography, RenderedCitation};

/// A law: a copy of an answer, and of its parts, is equal to it.
pub fn answers_copy_equal()
    ensures citation { (a b : RenderedCitation)
        → ⟦<RenderedCitation as Clone>⟧.is_clone a b → b ≡ a }
    ensures item { (a b : BibliographyItem) → ⟦<BibliographyItem as Clone>⟧.is_clone a b → b ≡ a }
    ensures bibliography { (a b : RenderedBibliography)
        → ⟦<RenderedBibliography as Clone>⟧.is_clone a b
        → b ≡ a }
    ensures answer { (a b : Rendered) → ⟦<Rendered as Clone>⟧.is_clone a b → b ≡ a }
{}

/// A law: `==` of answers, and of their parts, is true exactly of equal values.
pub fn answer_equality_decides()
    ensures citation { (a b : RenderedCitation)
        → Decides (⟦<RenderedCitation as PartialEq>⟧.eq a b) (a ≡ b) }
    ensures item { (a b : BibliographyItem)
        → Decides (⟦<BibliographyItem as PartialEq>⟧.eq a b) (a ≡ b) }
    ensures bibliography { (a b : RenderedBibliography)
        → Decides (⟦<RenderedBibliography as PartialEq>⟧.eq a b) (a ≡ b) }
    ensures answer { (a b : Rendered) → Decides (⟦<Rendered as PartialEq>⟧.eq a b) (a ≡ b) }
{}
