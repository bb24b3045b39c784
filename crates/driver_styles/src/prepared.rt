//! Prepared styles.
ghost use Rattle.std.specs.Prelude.{◌≡◌};
ghost use Rattle.std.specs.Coded.{Coded-set, coded_list};
ghost use Rattle.value_styles.specs.Ring.{body_of, HasNoRing};
ghost use Rattle.value_styles.specs.StyleView.{style_view};
ghost use Rattle.value_styles.specs.contracts.locale.Locale as locale_;
ghost use Rattle.driver_styles.specs.MacrosOf.{macros_of};
ghost use Rattle.driver_styles.specs.SuffixText.{explicit_suffix};
ghost use Rattle.driver_styles.specs.TablesView.{locales_of};

use crate::macros::MacroTable;
use crate::suffix_text::suffix_by_table;
use crate::terms::TermTables;
use csl_base::element::LayoutRenderingElement;
use csl_base::locale::LocalizedTerm;
use csl_base::style::IndependentStyle;
use csl_base::taxonomy::{Term, TermForm};
use std::alloc::{AllocError, Global};

/// A style that was looked at once: none of its macros call each other in a ring, the first macro
/// of each name and the first term of each name and form are found by tables, and it is known
/// whether a year-suffix text stands in its layouts.
#[derive(Drop)]
pub struct PreparedStyle<'a> {
    macros: MacroTable<'a>,
    has_suffix: bool,
    terms: TermTables<'a>,
    pub ghost no_ring: { HasNoRing (macros_of macros) },
    ghost suffix: { has_suffix ≡ explicit_suffix (style_view macros.style.now) },
    ghost own: { locales_of terms ≡ macros.style.now.locale.items } by { Coded-set (coded_list locale_.the_row.coded) (locales_of terms)
        macros.style.now.locale.items },
}

/// A prepared style, with the tables of the locale files that are asked for what its own locales
/// don't have.
#[derive(Clone, Copy)]
pub struct PreparedSource<'a> {
    pub style: &'a PreparedStyle<'a>,
    pub files: &'a TermTables<'a>,
}

impl<'a> PreparedStyle<'a> {
    ghost use Rattle.std.specs.Prelude.{◌≡◌, Some, IfOk, MatchResult, option_map, option_and_then};
    ghost use Rattle.value_styles.specs.ElementView.{elements_view, macros_view};
    ghost use Rattle.value_styles.specs.Ring.{IsFirstRing};
    ghost use Rattle.value_styles.specs.StyleView.{term_view};
    ghost use Rattle.driver_styles.specs.PreparedView.{made_of, prepared_view};
    ghost use Rattle.driver_styles.specs.Terms.{locale_of, term_in};

    /// The style, prepared; where some of its macros call each other in a ring, what
    /// `IndependentStyle::ring` answers: the place of the first macro that does.
    ///
    /// # Errors
    ///
    /// Where memory is refused.
    pub fn new(
        alloc: Global,
        style: &'a IndependentStyle,
    ) -> Result<Result<PreparedStyle<'a>, usize>, AllocError>
        ensures { IfOk result (λ made. MatchResult made
            (λ prepared. made_of prepared ≡ style.now)
            (λ place. IsFirstRing (style_view style.now).macros (Some place))) }
    {
        if let Some(place) = style.ring(alloc)? {
            return Ok(Err(place));
        }
        let macros = MacroTable::new(alloc, style)?;
        let has_suffix = suffix_by_table(alloc, &macros)?;
        let terms = TermTables::new(alloc, &style.locale)?;
        Ok(Ok(PreparedStyle {
            macros,
            has_suffix,
            terms,
        }))
    }

    /// The style that it was made of.
    pub fn style(&self) -> &'a IndependentStyle
        ensures { result.now ≡ made_of self.now }
    {
        self.macros.style
    }

    /// The children of the first macro of a name; none without such a macro.
    pub fn body_of(&self, name: &str) -> Option<&'a [LayoutRenderingElement]>
        ensures { option_map (λ v. elements_view v.now) result
            ≡ body_of name.now (prepared_view self.now).macros }
    {
        self.macros.body_of(name)
    }

    /// Whether a year-suffix text stands in either of its layouts, at any depth, through macros
    /// too.
    pub fn explicit_suffix(&self) -> bool
        ensures { result ≡ explicit_suffix (prepared_view self.now) }
    {
        self.has_suffix
    }

    /// The first term of this name and form that the first of the style's locales of a language
    /// has, or of no language; none where that locale has none.
    pub fn term_of(
        &self,
        language: Option<&str>,
        name: Term,
        form: TermForm,
    ) -> Option<&'a LocalizedTerm>
        ensures { option_map (λ t. term_view t.now) result
            ≡ option_and_then (term_in name form)
            (locale_of (option_map (λ t. t.now) language.entry) (prepared_view self.now).locale) }
    {
        self.terms.term_of(language, name, form)
    }
}
