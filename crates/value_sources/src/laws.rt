//! Laws of equality: `==` of variables, formattings, name forms and entries decides whether values
//! are equal.
ghost use Rattle.std.specs.Prelude.{◌≡◌};
ghost use Rattle.value_sources.specs.Tells.{TellsEqual};

use crate::entry::{Chunk, ChunkKind, ChunkedString, Date, Person, PlainEntry};
use crate::formatting::{
    Display, FontStyle, FontVariant, FontWeight, Formatted, Formatting, StyleFormatting,
    TextDecoration, VerticalAlign,
};
use crate::names::{DisambiguatedNameForm, NameDisambiguationProperties};
use crate::taxonomy::{
    DateVariable, Locator, NameVariable, NumberVariable, OtherTerm, StandardVariable, Term,
    TermForm, Variable,
};

/// A law: `==` of variables, of locators and of terms is true exactly of equal values.
pub fn taxonomy_equality_decides()
    ensures name { TellsEqual ⟦<NameVariable as PartialEq>⟧.eq }
    ensures date { TellsEqual ⟦<DateVariable as PartialEq>⟧.eq }
    ensures standard { TellsEqual ⟦<StandardVariable as PartialEq>⟧.eq }
    ensures number { TellsEqual ⟦<NumberVariable as PartialEq>⟧.eq }
    ensures variable { TellsEqual ⟦<Variable as PartialEq>⟧.eq }
    ensures locator { TellsEqual ⟦<Locator as PartialEq>⟧.eq }
    ensures other { TellsEqual ⟦<OtherTerm as PartialEq>⟧.eq }
    ensures term { TellsEqual ⟦<Term as PartialEq>⟧.eq }
    ensures form { TellsEqual ⟦<TermForm as PartialEq>⟧.eq }
{}

/// A law: `==` of formattings is true exactly of equal values.
pub fn formatting_equality_decides()
    ensures slant { TellsEqual ⟦<FontStyle as PartialEq>⟧.eq }
    ensures capitals { TellsEqual ⟦<FontVariant as PartialEq>⟧.eq }
    ensures weight { TellsEqual ⟦<FontWeight as PartialEq>⟧.eq }
    ensures line { TellsEqual ⟦<TextDecoration as PartialEq>⟧.eq }
    ensures height { TellsEqual ⟦<VerticalAlign as PartialEq>⟧.eq }
    ensures display { TellsEqual ⟦<Display as PartialEq>⟧.eq }
    ensures asked { TellsEqual ⟦<StyleFormatting as PartialEq>⟧.eq }
    ensures formatting { TellsEqual ⟦<Formatting as PartialEq>⟧.eq }
    ensures formatted { TellsEqual ⟦<Formatted as PartialEq>⟧.eq }
{}

/// A law: `==` of name forms, and of the forms of several names, is true exactly of equal values.
pub fn names_equality_decides()
    ensures form { TellsEqual ⟦<DisambiguatedNameForm as PartialEq>⟧.eq }
    ensures properties { TellsEqual ⟦<NameDisambiguationProperties as PartialEq>⟧.eq }
{}

/// A law: `==` of entries, and of all that they hold, is true exactly of equal values.
pub fn entry_equality_decides()
    ensures person { TellsEqual ⟦<Person as PartialEq>⟧.eq }
    ensures date { TellsEqual ⟦<Date as PartialEq>⟧.eq }
    ensures kind { TellsEqual ⟦<ChunkKind as PartialEq>⟧.eq }
    ensures chunk { TellsEqual ⟦<Chunk as PartialEq>⟧.eq }
    ensures text { TellsEqual ⟦<ChunkedString as PartialEq>⟧.eq }
    ensures entry { TellsEqual ⟦<PlainEntry as PartialEq>⟧.eq }
{}
