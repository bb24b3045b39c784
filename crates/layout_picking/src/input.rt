//! What a picking only reads.
ghost use Rattle.std.specs.Prelude.{◌≡◌};
ghost use Rattle.layout_picking.specs.Env.{suffix_of};
ghost use Rattle.layout_picking.specs.InputView.{cite_facts};

use crate::notes::Form;
use csl_base::element::InheritableNameOptions;
use csl_base::entry::EntryLike;
use csl_base::taxonomy::{Locator, OtherTerm, Term, TermForm};
use driver_lookup::lookup::StyleLocales;
use driver_lookup::means::{Means, suffix_told};
use driver_lookup::state::{DisambiguateState, IbidState, IdentifierUsage};

/// A cite's locator: what it counts, and its text; none where it is the caller's own.
#[derive(Clone, Copy)]
pub struct LocatorFacts<'a> {
    pub kind: Locator,
    pub text: Option<&'a str>,
}

/// What of a cite's properties is read.
#[derive(Clone, Copy)]
pub struct CiteFacts<'a> {
    /// From 0; what is printed is one more.
    pub citation_number: usize,
    pub first_note_number: Option<usize>,
    pub is_first: bool,
    pub is_near_note: bool,
    pub initial_idx: usize,
    pub ibid: IbidState,
    pub locator: Option<LocatorFacts<'a>>,
    pub state: &'a DisambiguateState,
    pub means: &'a Means,
    pub usage: IdentifierUsage,
}

impl<'a> CiteFacts<'a> {
    /// The suffix of the cite's year, from 0.
    pub fn suffix(&self) -> Option<usize>
        ensures { result ≡ suffix_of (cite_facts self.now) }
    {
        suffix_told(self.state, self.means)
    }
}

/// What a picking reads of the style and the cite.
#[derive(Clone, Copy)]
pub struct Setting<'a> {
    pub context: StyleLocales<'a>,
    pub cite: CiteFacts<'a>,
    pub form: Form,
    /// Whether a year-suffix text stands in a layout of the style, so that no date adds letters.
    pub explicit_suffix: bool,
    /// Whether an item of the bibliography is picked.
    pub is_bibliography: bool,
    /// The name options of the layout, which go before those of the whole style.
    pub layout_options: &'a InheritableNameOptions,
}

/// What a picking reads.
#[derive(Drop)]
pub struct Input<'a, T> {
    pub entry: &'a T,
    pub setting: Setting<'a>,
}
