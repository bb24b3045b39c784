//! How far the names of a cite are written, to disambiguate cites (CSL 1.0.2, disambiguation).
ghost use Rattle.std.specs.Prelude.{◌≡◌, option_map, slice_get};
ghost use Rattle.std.specs.Borrow.{sem};
ghost use Rattle.value_sources.specs.Forms.{form_written, add_name, LendsForm};
ghost use Rattle.std.specs.Cmp.Lexicographic.{slice_cmp};
ghost use Rattle.std.specs.Ordering.{nat_cmp};
ghost use Rattle.value_sources.specs.Ordered.{IsValueOrder, extent, form_cmp, properties_cmp};
ghost use Rattle.value_sources.specs.declared.names.DisambiguatedNameForm.{DisambiguatedNameForm};
ghost use Rattle.value_sources.specs.declared.names.NameDisambiguationProperties.{
  NameDisambiguationProperties,
};

use value_lists::seq::Seq;

/// How far a name is written, from the least on.
#[derive(Clone, Copy, PartialEq, Eq, PartialOrd, Ord, Hash)]
pub enum DisambiguatedNameForm {
    /// Not written: `et al.` stands for it.
    Count,
    /// The family name.
    Short,
    /// With the initials of the given name.
    LongInitialized,
    /// In full.
    LongFull,
}

impl DisambiguatedNameForm {
    // The form of a name that is to be written.
    fn written(self) -> DisambiguatedNameForm
        ensures { result ≡ form_written self }
    {
        match self {
            DisambiguatedNameForm::Count => DisambiguatedNameForm::Short,
            other => other,
        }
    }
}

/// The form of each of a cite's names, in their order.
#[derive(Clone, PartialEq, Eq, PartialOrd, Ord, Hash, Drop)]
pub struct NameDisambiguationProperties {
    pub forms: Seq<DisambiguatedNameForm>,
}

impl NameDisambiguationProperties {
    /// Lets name `i` be written, counted from 1: where it only counts, it gets the short form.
    /// Nothing changes where it is written already, at 0 and past the last name.
    pub fn add_name(&mut self, i: usize)
        ensures { self.new ≡ record { forms = add_name i self.old.forms } }
    {
        if i == 0 {
            return;
        }
        if let Some(form) = self.get_form_mut(i - 1) {
            *form = form.written();
        }
    }

    /// The form of name `i`, counted from 0, for writing; none past the last name.
    pub fn get_form_mut(&mut self, i: usize) -> Option<&mut DisambiguatedNameForm>
        ensures* writes_back { sem 𝓛 (LendsForm self.entry i result) }
        ensures value { option_map (λ form. form.now) result ≡ slice_get self.old.forms i }
    {
        self.forms.get_mut(i)
    }
}

/// A law: forms are ordered by how much of a name they write, and the forms of several names by the
/// first that differs. Both are total orders, in which only equal values are equal.
pub fn forms_are_in_order()
    ensures extents { (a : DisambiguatedNameForm) → (b : DisambiguatedNameForm)
        → form_cmp a b ≡ nat_cmp (extent a) (extent b) }
    ensures first_difference { (a : NameDisambiguationProperties)
        → (b : NameDisambiguationProperties)
        → properties_cmp a b ≡ slice_cmp form_cmp a.forms b.forms }
    ensures forms { IsValueOrder form_cmp }
    ensures properties { IsValueOrder properties_cmp }
{}
