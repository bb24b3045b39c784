//! Laws of equality: `==` of styles, of locales and of what they are made of decides whether they
//! are equal as plain data.
ghost use Rattle.std.specs.Prelude.{◌≡◌};
ghost use Rattle.std.specs.Bool.{Decides};
ghost use Rattle.value_styles.specs.ElementView.{
  affixes_view,
  branch_view,
  element_view,
  macro_view,
  options_view,
  target_view,
};
ghost use Rattle.value_styles.specs.StyleView.{
  bibliography_view,
  citation_view,
  code_view,
  layout_view,
  locale_view,
  style_view,
  term_view,
};
ghost use Rattle.value_styles.specs.declared.style.StyleSettings.{StyleSettings};
ghost use Rattle.value_sources.specs.Tells.{TellsEqual, TellsSeen};

use crate::element::{
    Affixes, ChooseBranch, ChooseMatch, Condition, CslMacro, InheritableNameOptions,
    LayoutRenderingElement, NameAnd, NameForm, TestPosition, TextTarget,
};
use crate::locale::{Locale, LocaleCode, LocalizedTerm};
use crate::style::{
    Bibliography, Citation, CitationFormat, Collapse, DisambiguationRule, IndependentStyle, Layout,
    SecondFieldAlign, StyleCategory, StyleClass, StyleInfo, StyleSettings,
    SubsequentAuthorSubstituteRule,
};
use value_sources::laws::{formatting_equality_decides, taxonomy_equality_decides};

/// A law: `==` of what an element or a style chooses among is true exactly of equal values.
pub fn choice_equality_decides()
    ensures and { TellsEqual ⟦<NameAnd as PartialEq>⟧.eq }
    ensures name { TellsEqual ⟦<NameForm as PartialEq>⟧.eq }
    ensures position { TellsEqual ⟦<TestPosition as PartialEq>⟧.eq }
    ensures condition { TellsEqual ⟦<Condition as PartialEq>⟧.eq }
    ensures matching { TellsEqual ⟦<ChooseMatch as PartialEq>⟧.eq }
    ensures format { TellsEqual ⟦<CitationFormat as PartialEq>⟧.eq }
    ensures category { TellsEqual ⟦<StyleCategory as PartialEq>⟧.eq }
    ensures class { TellsEqual ⟦<StyleClass as PartialEq>⟧.eq }
    ensures givenname { TellsEqual ⟦<DisambiguationRule as PartialEq>⟧.eq }
    ensures collapse { TellsEqual ⟦<Collapse as PartialEq>⟧.eq }
    ensures align { TellsEqual ⟦<SecondFieldAlign as PartialEq>⟧.eq }
    ensures substitute { TellsEqual ⟦<SubsequentAuthorSubstituteRule as PartialEq>⟧.eq }
{}

/// A law: `==` of affixes, of name options and of what a text element writes is true exactly where
/// the plain data is equal.
pub fn options_equality_decides()
    ensures affixes { TellsSeen affixes_view ⟦<Affixes as PartialEq>⟧.eq }
    ensures options { TellsSeen options_view ⟦<InheritableNameOptions as PartialEq>⟧.eq }
    ensures target { TellsSeen target_view ⟦<TextTarget as PartialEq>⟧.eq }
{
    taxonomy_equality_decides();
    choice_equality_decides();
}

/// A law: `==` of elements, of branches and of macros is true exactly where the plain data is
/// equal.
pub fn element_equality_decides()
    ensures element { TellsSeen element_view ⟦<LayoutRenderingElement as PartialEq>⟧.eq }
    ensures branch { TellsSeen branch_view ⟦<ChooseBranch as PartialEq>⟧.eq }
    ensures named { TellsSeen macro_view ⟦<CslMacro as PartialEq>⟧.eq }
{
    taxonomy_equality_decides();
    formatting_equality_decides();
    choice_equality_decides();
    options_equality_decides();
}

/// A law: `==` of locales and of their terms is true exactly where the plain data is equal.
pub fn locale_equality_decides()
    ensures code { TellsSeen code_view ⟦<LocaleCode as PartialEq>⟧.eq }
    ensures term { TellsSeen term_view ⟦<LocalizedTerm as PartialEq>⟧.eq }
    ensures locale { TellsSeen locale_view ⟦<Locale as PartialEq>⟧.eq }
{
    taxonomy_equality_decides();
}

/// A law: `==` of styles, and of all that they hold, is true exactly where the plain data is equal.
pub fn style_equality_decides()
    ensures layout { TellsSeen layout_view ⟦<Layout as PartialEq>⟧.eq }
    ensures citation { TellsSeen citation_view ⟦<Citation as PartialEq>⟧.eq }
    ensures bibliography { TellsSeen bibliography_view ⟦<Bibliography as PartialEq>⟧.eq }
    ensures info { TellsSeen (λ i. i.category.items) ⟦<StyleInfo as PartialEq>⟧.eq }
    ensures settings { (a b : StyleSettings) → Decides (⟦<StyleSettings as PartialEq>⟧.eq a b)
        ((a.class ≡ b.class) × (options_view a.options ≡ options_view b.options)) }
    ensures style { TellsSeen style_view ⟦<IndependentStyle as PartialEq>⟧.eq }
{
    formatting_equality_decides();
    choice_equality_decides();
    options_equality_decides();
    element_equality_decides();
    locale_equality_decides();
}
