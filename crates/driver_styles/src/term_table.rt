//! The terms of a locale, by name and form.
ghost use Rattle.std.specs.Prelude.{◌≡◌, IfOk, option_map};
ghost use Rattle.value_styles.specs.StyleView.{locale_view, term_view};
ghost use Rattle.value_sources.specs.declared.taxonomy.Term.{Term};
ghost use Rattle.value_sources.specs.declared.taxonomy.TermForm.{TermForm};
ghost use Rattle.driver_styles.specs.Terms.{place_of_term, term_in};
ghost use Rattle.driver_styles.specs.TermsPlaced.{term_placed};

use csl_base::locale::{Locale, LocalizedTerm};
use csl_base::taxonomy::{Term, TermForm};
use std::alloc::{AllocError, Global};
use std::collections::HashMap;

/// A locale, with the place of its first term of each name and form.
#[derive(Drop)]
pub struct TermTable<'a> {
    pub locale: &'a Locale,
    places: HashMap<(Term, TermForm), usize>,
    ghost table: { (key : Term × TermForm)
        → term_placed places key ≡ place_of_term key.0 key.1 (locale_view locale.now) },
}

impl<'a> TermTable<'a> {
    /// The table of a locale.
    ///
    /// # Errors
    ///
    /// Where memory is refused.
    pub fn new(alloc: Global, locale: &'a Locale) -> Result<TermTable<'a>, AllocError>
        ensures { IfOk result (λ table. table.locale ≡ locale.entry) }
    {
        Ok(TermTable {
            locale,
            places: term_places(alloc, locale)?,
        })
    }

    /// The first term of this name and form; none without such a term.
    pub fn term(&self, name: Term, form: TermForm) -> Option<&'a LocalizedTerm>
        ensures { option_map (λ t. term_view t.now) result
            ≡ term_in name form (locale_view self.now.locale.now) }
    {
        let place = self.places.get(&(name, form))?;
        Some(&self.locale.terms[*place])
    }
}

// The place of the first term of each name and form.
fn term_places(
    alloc: Global,
    locale: &Locale,
) -> Result<HashMap<(Term, TermForm), usize>, AllocError>
    ensures { IfOk result (λ places. (key : Term × TermForm)
        → term_placed places key ≡ place_of_term key.0 key.1 (locale_view locale.now)) }
{
    let mut places = HashMap::new(alloc);
    for i in 0..locale.terms.len() {
        let term = &locale.terms[i];
        let key = (term.name, term.form);
        // a name and form keep their first place
        let first = places.get(&key).copied().unwrap_or(i);
        places.insert(key, first)?;
    }
    Ok(places)
}
