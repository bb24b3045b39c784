//! A style in use.
use crate::programs::{BibliographyProgram, Programs};
use cite_collation::alphabets::Alphabet;
use cite_limits::budget::Budget;
use cite_limits::error::StylePlace;
use cite_locale::chain::LocaleChain;
use cite_sorting::keys::KeyScene;
use cite_walk::abbreviations::Abbreviations;
use cite_walk::cite::{Explaining, Scene, SceneKind};
use style_file::style::CslStyle;

/// A style, with the words of a language and its own programs.
#[derive(Clone, Copy)]
pub struct Setting<'s> {
    pub style: &'s CslStyle,
    pub locale: &'s LocaleChain<'s>,
    pub alphabet: Alphabet,
    pub programs: &'s Programs<'s>,
    /// Short forms of texts, where the document brings some.
    pub abbreviations: Option<&'s Abbreviations>,
    pub explaining: Explaining,
    /// What the document may take.
    pub budget: &'s Budget,
}

impl<'s> Setting<'s> {
    /// The program of the bibliography, if the style has one.
    pub fn bibliography(self) -> Option<&'s BibliographyProgram<'s>> {
        self.programs.bibliography.as_ref()
    }

    /// What is needed to write a cite.
    pub fn cite_scene(self) -> Scene<'s> {
        Scene {
            style: self.style,
            locale: self.locale,
            program: &self.programs.citation,
            names: &self.style.citation.names,
            kind: SceneKind::Cite,
            explaining: self.explaining,
            adds_year_suffix: self.programs.adds_year_suffix,
            abbreviations: self.abbreviations,
            budget: self.budget,
        }
    }

    /// What is needed to write an item of the bibliography.
    pub fn item_scene(self, bibliography: &'s BibliographyProgram<'s>) -> Scene<'s> {
        Scene {
            style: self.style,
            locale: self.locale,
            program: &bibliography.layout,
            names: &bibliography.section.names,
            kind: SceneKind::Item,
            explaining: self.explaining,
            adds_year_suffix: self.programs.adds_year_suffix,
            abbreviations: self.abbreviations,
            budget: self.budget,
        }
    }

    /// What is needed to sort cites.
    pub fn cite_keys(self) -> KeyScene<'s> {
        KeyScene {
            style: self.style,
            locale: self.locale,
            alphabet: self.alphabet,
            names: &self.style.citation.names,
            abbreviations: self.abbreviations,
            budget: self.budget,
            place: StylePlace::Citation,
        }
    }

    /// What is needed to sort the items of the bibliography.
    pub fn item_keys(self, bibliography: &'s BibliographyProgram<'s>) -> KeyScene<'s> {
        KeyScene {
            style: self.style,
            locale: self.locale,
            alphabet: self.alphabet,
            names: &bibliography.section.names,
            abbreviations: self.abbreviations,
            budget: self.budget,
            place: StylePlace::Bibliography,
        }
    }
}
