//! A cite as it is asked for.
ghost use Rattle.std.specs.Prelude.{◌≡◌, false, None, Some, option_map};
ghost use Rattle.value_styles.specs.StyleView.{code_view};
ghost use Rattle.driver_lookup.specs.PropertiesView.{locator_view};
ghost use Rattle.driver_passes.specs.RequestView.{cite_view};

use csl_base::locale::LocaleCode;
use driver_lookup::apart::Apart;
use driver_lookup::locator::SpecificLocator;
use driver_lookup::purpose::CitePurpose;

/// An entry that is cited in a request.
#[derive(PartialEq, Eq, Drop)]
#[derive_where(Clone; P: Drop)]
pub struct CitationItem<'a, T, P> {
    pub entry: &'a T,
    /// Where in the entry the cite points.
    pub locator: Option<SpecificLocator<'a, P>>,
    /// A locale for this cite; it is kept, and looked at by nothing.
    pub locale: Option<LocaleCode>,
    /// A hidden cite isn't printed, and counts in every other way.
    pub hidden: bool,
    /// What the cite is written for; none is the style's usual way.
    pub purpose: Option<CitePurpose>,
    /// Where its caller's own words stand around it; none where there are none.
    pub apart: Option<Apart>,
    /// Its place in the items of its request, once the driver has it; 0 before.
    pub(crate) initial_idx: usize,
}

impl<'a, T, P> CitationItem<'a, T, P> {
    /// A cite of the entry, shown in the style's usual way.
    pub fn with_entry(entry: &'a T) -> CitationItem<'a, T, P>
        ensures { cite_view result
            ≡ record {
              entry = entry.now;
              locator = None;
              locale = None;
              hidden = false;
              purpose = None;
              apart = None;
              place = 0;
            } }
    {
        CitationItem::with_locator(entry, None)
    }

    /// A cite of the entry with a locator, if there is one.
    pub fn with_locator(
        entry: &'a T,
        locator: Option<SpecificLocator<'a, P>>,
    ) -> CitationItem<'a, T, P>
        ensures { cite_view result
            ≡ record {
              entry = entry.now;
              locator = option_map locator_view locator.entry;
              locale = None;
              hidden = false;
              purpose = None;
              apart = None;
              place = 0;
            } }
    {
        CitationItem::new(entry, locator, None, false, None)
    }

    /// A cite with all that a caller can say of it.
    pub fn new(
        entry: &'a T,
        locator: Option<SpecificLocator<'a, P>>,
        locale: Option<LocaleCode>,
        hidden: bool,
        purpose: Option<CitePurpose>,
    ) -> CitationItem<'a, T, P>
        ensures { cite_view result
            ≡ record {
              entry = entry.now;
              locator = option_map locator_view locator.entry;
              locale = option_map code_view locale;
              hidden = hidden;
              purpose = purpose;
              apart = None;
              place = 0;
            } }
    {
        CitationItem {
            entry,
            locator,
            locale,
            hidden,
            purpose,
            apart: None,
            initial_idx: 0,
        }
    }

    /// Its place in the items of its request, once the driver has it; 0 before.
    pub fn initial_idx(&self) -> usize
        ensures { result ≡ (cite_view self.now).place }
    {
        self.initial_idx
    }

    /// The same cite, written for this purpose.
    pub fn kind(mut self, purpose: CitePurpose) -> CitationItem<'a, T, P>
        ensures { cite_view result ≡ record (cite_view self.entry) { purpose = Some purpose } }
    {
        self.purpose = Some(purpose);
        self
    }

    /// The same cite, with its caller's own words around it.
    pub fn apart(mut self, apart: Apart) -> CitationItem<'a, T, P>
        ensures { cite_view result ≡ record (cite_view self.entry) { apart = Some apart } }
    {
        self.apart = Some(apart);
        self
    }
}
