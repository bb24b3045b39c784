//! The renders of cites, on which the passes work.
use crate::request::CitationRequest;
use csl_base::elem::ElemChildren;
use csl_base::locale::LocaleCode;
use csl_base::names::NameDisambiguationProperties;
use driver_lookup::apart::Apart;
use driver_lookup::locator::SpecificLocator;
use driver_lookup::properties::CiteProperties;
use driver_lookup::purpose::CitePurpose;
use driver_lookup::state::{CollapseVerdict, DisambiguateState};
use std::alloc::{AllocError, Global};

/// A cite as it was rendered last, and what is known of it.
#[derive(Drop)]
pub struct SpeculativeItemRender<'a, T, P> {
    /// What was written.
    pub rendered: ElemChildren,
    pub entry: &'a T,
    /// The properties that it was written by.
    pub cite_props: CiteProperties<'a, P>,
    /// Whether its first render tested `disambiguate`.
    pub checked_disambiguate: bool,
    /// The forms of the names that its first render wrote first, if it wrote any.
    pub first_name: Option<NameDisambiguationProperties>,
    /// What stands before it in place of the layout's delimiter, where it isn't the first that
    /// shows.
    pub delim_override: Option<&'a str>,
    /// The place of its block among those with names, from 0; none outside of blocks.
    pub group_idx: Option<usize>,
    /// Where in the entry the cite points.
    pub locator: Option<SpecificLocator<'a, P>>,
    /// Whether it isn't printed.
    pub hidden: bool,
    pub locale: Option<LocaleCode>,
    pub purpose: Option<CitePurpose>,
    /// Where its caller's own words stand around it.
    pub apart: Option<Apart>,
    /// How it is cut behind others of the same authors.
    pub collapse_verdict: Option<CollapseVerdict>,
}

/// The cites of a request.
pub struct SpeculativeCiteRender<'r, 'a, T, P> {
    pub items: Vec<SpeculativeItemRender<'a, T, P>>,
    pub request: &'r CitationRequest<'a, T, P>,
}

/// The cites of all requests. They are dropped one by one: a list of lists that hold references to
/// a type parameter can't be dropped as a whole.
pub struct Cites<'r, 'a, T, P> {
    pub by_request: Vec<SpeculativeCiteRender<'r, 'a, T, P>>,
}

/// The places of cites that read alike: those of their requests, and in them.
pub type AmbiguousGroup = Vec<(usize, usize)>;

/// States for the entries of the cites at some places.
pub type Marks = Vec<((usize, usize), DisambiguateState)>;

/// Drops the cites one by one: a list that holds references to a type parameter can't be dropped as
/// a whole.
fn discard<T, P: Drop>(mut items: Vec<SpeculativeItemRender<'_, T, P>>) {
    while let Some(_item) = items.pop() {}
    items.destroy_empty();
}

impl<'r, 'a, T, P: Drop> Drop for SpeculativeCiteRender<'r, 'a, T, P> {
    fn drop(self) {
        let SpeculativeCiteRender { items, request: _ } = self;
        discard(items);
    }
}

impl<'r, 'a, T, P: Drop> Drop for Cites<'r, 'a, T, P> {
    fn drop(self) {
        let Cites { mut by_request } = self;
        while let Some(_cites) = by_request.pop() {}
        by_request.destroy_empty();
    }
}

impl<'r, 'a, T, P: Drop> Cites<'r, 'a, T, P> {
    ghost use Rattle.std.specs.Prelude.{◌≡◌, ◌++◌, ◌∷◌, [], IfOk, OnOk};
    ghost use Rattle.driver_passes.specs.RendersView.{render_view, renders_view};

    /// No cites yet, with capacity for those of so many requests.
    ///
    /// # Errors
    /// Where memory is refused.
    pub fn with_capacity(alloc: Global, requests: usize) -> Result<Cites<'r, 'a, T, P>, AllocError>
        ensures { IfOk result (λ cites. renders_view cites.by_request.items ≡ []) }
    {
        Ok(Cites {
            by_request: Vec::with_capacity(alloc, requests)?,
        })
    }

    /// Adds the cites of the next request.
    ///
    /// # Errors
    /// Where memory is refused; the cites are then dropped.
    pub fn push(&mut self, cites: SpeculativeCiteRender<'r, 'a, T, P>) -> Result<(), AllocError>
        ensures { OnOk result (renders_view self.new.by_request.items
            ≡ renders_view self.old.by_request.items ++ render_view cites.entry ∷ []) }
    {
        match self.by_request.push(cites) {
            Ok(()) => Ok(()),
            Err(_) => Err(AllocError),
        }
    }
}
