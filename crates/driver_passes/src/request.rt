//! What a caller asks for: citations, and a bibliography.
ghost use Rattle.std.specs.Prelude.{◌≡◌, None, if◌then◌else◌, map, option_map};
ghost use Rattle.value_styles.specs.StyleView.{code_view, locale_view, style_view};
ghost use Rattle.driver_lookup.specs.SourceView.{source_view};
ghost use Rattle.driver_passes.specs.Class.{is_note};
ghost use Rattle.driver_styles.specs.MadeOf.{IsOf, IsOf-prop};
ghost use Rattle.driver_styles.specs.PreparedView.{made_of, prepared_view};
ghost use Rattle.driver_styles.specs.TablesView.{locales_of};

use crate::item::CitationItem;
use csl_base::locale::{Locale, LocaleCode};
use csl_base::style::{IndependentStyle, StyleClass};
use driver_lookup::lookup::StyleLocales;
use driver_styles::prepared::{PreparedSource, PreparedStyle};
use driver_styles::terms::TermTables;

/// A citation: the entries that one place in a text cites. Requests that differ in nothing else are
/// equal, whether made of a style or of that style prepared.
#[derive(Drop)]
#[derive_where(PartialEq, Eq; T, P)]
pub struct CitationRequest<'a, T, P> {
    /// The cites, in the order in which they are asked for.
    pub items: Vec<CitationItem<'a, T, P>>,
    pub(crate) style: &'a IndependentStyle,
    #[derive_where(skip)]
    prepared: Option<PreparedSource<'a>>,
    /// The locale of the style's terms; the style's own where there is none.
    pub locale: Option<LocaleCode>,
    /// The locales that are asked for terms that the style doesn't have.
    pub locale_files: &'a [Locale],
    pub(crate) note_number: Option<usize>,
    ghost same: { IsOf prepared style.now locale_files.now } by { IsOf-prop prepared style.now locale_files.now },
}

/// The number of a note, where the style's cites stand in notes.
fn noted(style: &IndependentStyle, note_number: Option<usize>) -> Option<usize>
    ensures { result ≡ (if is_note style.now.settings.class then note_number else None) }
{
    match style.settings.class {
        StyleClass::Note => note_number,
        StyleClass::InText => None,
    }
}

impl<'a, T, P> CitationRequest<'a, T, P> {
    ghost use Rattle.driver_passes.specs.Request.{source_of};
    ghost use Rattle.driver_passes.specs.RequestView.{cites_view, request_view};
    ghost use Rattle.driver_passes.specs.Unprepared.{IsUnprepared};

    /// A request for a citation. The note number is kept only where the style's cites stand in
    /// notes. Each public field may be written later.
    pub fn new(
        items: Vec<CitationItem<'a, T, P>>,
        style: &'a IndependentStyle,
        locale: Option<LocaleCode>,
        locale_files: &'a [Locale],
        note_number: Option<usize>,
    ) -> CitationRequest<'a, T, P>
        ensures view { request_view result
            ≡ record {
              cites = cites_view items.entry.items;
              style = style_view style.now;
              locale = option_map code_view locale;
              locales = map locale_view locale_files.now;
              note_number = (if is_note style.now.settings.class then note_number else None);
            } }
        ensures unprepared { IsUnprepared result }
    {
        CitationRequest {
            items,
            style,
            prepared: None,
            locale,
            locale_files,
            note_number: noted(style, note_number),
        }
    }

    /// The request that `new` makes of the same style and files, which were prepared. Its files may
    /// be written once it is `unprepared`.
    pub fn of_prepared<'s: 'a>(
        items: Vec<CitationItem<'a, T, P>>,
        prepared: &'a PreparedStyle<'s>,
        locale: Option<LocaleCode>,
        files: &'a TermTables<'s>,
        note_number: Option<usize>,
    ) -> CitationRequest<'a, T, P>
        ensures { request_view result
            ≡ record {
              cites = cites_view items.entry.items;
              style = prepared_view prepared.now;
              locale = option_map code_view locale;
              locales = map locale_view (locales_of files.now);
              note_number = (if is_note (made_of prepared.now).settings.class then note_number
                  else None);
            } }
    {
        CitationRequest {
            items,
            style: prepared.style(),
            prepared: Some(PreparedSource {
                style: prepared,
                files,
            }),
            locale,
            locale_files: files.locales(),
            note_number: noted(prepared.style(), note_number),
        }
    }

    /// The same request, beside which nothing is kept that was prepared: each public field may be
    /// written.
    pub fn unprepared(self) -> CitationRequest<'a, T, P>
        ensures view { request_view result ≡ request_view self.entry }
        ensures unprepared { IsUnprepared result }
    {
        CitationRequest {
            items: self.items,
            style: self.style,
            prepared: None,
            locale: self.locale,
            locale_files: self.locale_files,
            note_number: self.note_number,
        }
    }

    /// The style that its cites are written in.
    pub fn style(&self) -> &'a IndependentStyle
        ensures { style_view result.now ≡ (request_view self.now).style }
    {
        self.style
    }

    /// The style that its cites are written in, with its locales.
    pub fn source(&self) -> StyleLocales<'_>
        ensures { source_view result ≡ source_of (request_view self.now) }
    {
        match self.prepared {
            Some(prepared) => {
                StyleLocales::of_prepared(prepared.style, self.locale.as_ref(), prepared.files)
            }
            None => StyleLocales::new(self.style, self.locale.as_ref(), self.locale_files),
        }
    }

    /// The number of the note in which the citation stands; none outside of notes.
    pub fn note_number(&self) -> Option<usize>
        ensures { result ≡ (request_view self.now).note_number }
    {
        self.note_number
    }

    /// A request for a citation in the style's own locale and without a note number.
    pub fn from_items(
        items: Vec<CitationItem<'a, T, P>>,
        style: &'a IndependentStyle,
        locale_files: &'a [Locale],
    ) -> CitationRequest<'a, T, P>
        ensures view { request_view result
            ≡ record {
              cites = cites_view items.entry.items;
              style = style_view style.now;
              locale = None;
              locales = map locale_view locale_files.now;
              note_number = None;
            } }
        ensures unprepared { IsUnprepared result }
    {
        CitationRequest::new(items, style, None, locale_files, None)
    }
}

/// The order in which a caller wants the bibliography's entries. It may lack, repeat or add
/// entries.
#[derive(PartialEq, Eq, Drop)]
pub struct Order<'o, 'a, T>(pub &'o [&'a T]);

/// A request for a bibliography. Requests that differ in nothing else are equal, whether made of a
/// style or of that style prepared.
#[derive(Drop)]
#[derive_where(PartialEq, Eq; T)]
pub struct BibliographyRequest<'o, 'a, T> {
    /// The style of the bibliography. Some styles have none; then none is answered.
    pub style: &'o IndependentStyle,
    #[derive_where(skip)]
    prepared: Option<PreparedSource<'o>>,
    /// The locale of the style's terms; the style's own where there is none.
    pub locale: Option<LocaleCode>,
    /// The locales that are asked for terms that the style doesn't have.
    pub locale_files: &'o [Locale],
    /// The order of the entries; that of their first cites where there is none.
    pub order: Option<Order<'o, 'a, T>>,
    ghost same: { IsOf prepared style.now locale_files.now } by { IsOf-prop prepared style.now locale_files.now },
}

impl<'o, 'a, T> BibliographyRequest<'o, 'a, T> {
    ghost use Rattle.driver_passes.specs.Request.{wanted_source};
    ghost use Rattle.driver_passes.specs.RequestView.{wanted_view};
    ghost use Rattle.driver_passes.specs.Unprepared.{WantsUnprepared};

    /// A request for a bibliography in the order of the first cites. Its style, its locale and its
    /// files may be written later.
    pub fn new(
        style: &'o IndependentStyle,
        locale: Option<LocaleCode>,
        locale_files: &'o [Locale],
    ) -> BibliographyRequest<'o, 'a, T>
        ensures style { result.style ≡ style.entry }
        ensures locale { result.locale ≡ locale }
        ensures files { result.locale_files ≡ locale_files.entry }
        ensures order { result.order ≡ None }
        ensures unprepared { WantsUnprepared result }
    {
        BibliographyRequest {
            style,
            prepared: None,
            locale,
            locale_files,
            order: None,
        }
    }

    /// A request for a bibliography in this order; in that of the first cites where there is none.
    /// Its style, its locale and its files may be written later.
    pub fn ordered(
        style: &'o IndependentStyle,
        locale: Option<LocaleCode>,
        locale_files: &'o [Locale],
        order: Option<Order<'o, 'a, T>>,
    ) -> BibliographyRequest<'o, 'a, T>
        ensures style { result.style ≡ style.entry }
        ensures locale { result.locale ≡ locale }
        ensures files { result.locale_files ≡ locale_files.entry }
        ensures order { result.order ≡ order.entry }
        ensures unprepared { WantsUnprepared result }
    {
        BibliographyRequest {
            style,
            prepared: None,
            locale,
            locale_files,
            order,
        }
    }

    /// The request that `ordered` makes of the same style and files, which were prepared. These two
    /// may be written once it is `unprepared`.
    pub fn of_prepared<'s: 'o>(
        prepared: &'o PreparedStyle<'s>,
        locale: Option<LocaleCode>,
        files: &'o TermTables<'s>,
        order: Option<Order<'o, 'a, T>>,
    ) -> BibliographyRequest<'o, 'a, T>
        ensures style { result.style.now ≡ made_of prepared.now }
        ensures locale { result.locale ≡ locale }
        ensures files { result.locale_files.now ≡ locales_of files.now }
        ensures order { result.order ≡ order.entry }
    {
        BibliographyRequest {
            style: prepared.style(),
            prepared: Some(PreparedSource {
                style: prepared,
                files,
            }),
            locale,
            locale_files: files.locales(),
            order,
        }
    }

    /// The same request, beside which nothing is kept that was prepared: its style, its locale and
    /// its files may be written.
    pub fn unprepared(self) -> BibliographyRequest<'o, 'a, T>
        ensures view { wanted_view result ≡ wanted_view self.entry }
        ensures unprepared { WantsUnprepared result }
    {
        BibliographyRequest {
            style: self.style,
            prepared: None,
            locale: self.locale,
            locale_files: self.locale_files,
            order: self.order,
        }
    }

    /// The style of the bibliography, with its locales.
    pub fn source(&self) -> StyleLocales<'_>
        ensures { source_view result ≡ wanted_source (wanted_view self.now) }
    {
        match self.prepared {
            Some(prepared) => {
                StyleLocales::of_prepared(prepared.style, self.locale.as_ref(), prepared.files)
            }
            None => StyleLocales::new(self.style, self.locale.as_ref(), self.locale_files),
        }
    }
}
