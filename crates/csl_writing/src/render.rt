//! Rendering of cites and of items of the bibliography.
ghost use Rattle.std.specs.Prelude.{◌≡◌, ◌&&◌, IfOk, None, is_some};
ghost use Rattle.value_styles.specs.Ring.{HasNoRing};
ghost use Rattle.value_styles.specs.StyleView.{bibliography_view, style_view};
ghost use Rattle.csl_writing.specs.CiteText as rendered;
ghost use Rattle.driver_writers.specs.Counted.{counted};
ghost use Rattle.driver_lookup.specs.PropertiesView.{properties_view};
ghost use Rattle.csl_writing.specs.ContextSource.{context_source};
ghost use Rattle.csl_writing.specs.Subject as plain;
ghost use Rattle.csl_writing.specs.SubjectView.{subject_view};
ghost use Rattle.driver_lookup.specs.Means.{suffix_told};
ghost use Rattle.driver_styles.specs.SuffixText as suffixes;

use crate::date::date_text;
use crate::first_field::put_first_field_first;
use crate::lookup::StyleContext;
use crate::purposes::write_section;
use crate::section::first_notes;
use crate::spare::Spare;
use crate::subject::{Subject, cite_facts};
use csl_base::elem::ElemChildren;
use csl_base::entry::EntryLike;
use csl_base::locale::LocaleCode;
use csl_base::style::{Bibliography, IndependentStyle};
use driver_lookup::means::{Means, suffix_told};
use driver_lookup::properties::CiteProperties;
use driver_lookup::purpose::CitePurpose;
use driver_lookup::state::{CollapseVerdict, DisambiguateState};
use driver_writers::cite::Cite;
use driver_writers::counter::Renders;
use layout_context::wording::{apply_suffix, begin_prefix};
use layout_context::writing::WritingContext;
use layout_picking::notes::Form;
use std::alloc::{AllocError, Global};

/// Whether the second fields of the bibliography are aligned.
fn aligns_second_field(style: &IndependentStyle) -> bool
    ensures { result ≡ rendered.aligns_second_field (style_view style.now).bibliography }
{
    match &style.bibliography {
        Some(bibliography) => bibliography.second_field_align.is_some(),
        None => false,
    }
}

/// Puts a full cite's first field in front, where the bibliography aligns second fields.
fn arrange(
    alloc: Global,
    style: &IndependentStyle,
    purpose: Option<CitePurpose>,
    tree: ElemChildren,
) -> Result<ElemChildren, AllocError>
    ensures { IfOk result (λ t. t ≡ rendered.arranged (style_view style.now) purpose tree) }
{
    match purpose {
        Some(CitePurpose::Full) => {
            if aligns_second_field(style) {
                return put_first_field_first(alloc, tree);
            }
            Ok(tree)
        }
        Some(CitePurpose::Author) => Ok(tree),
        Some(CitePurpose::Year) => Ok(tree),
        Some(CitePurpose::Prose) => Ok(tree),
        None => Ok(tree),
    }
}

fn render_cite<T: EntryLike>(
    subject: &Subject<'_, T>,
    alloc: Global,
    purpose: Option<CitePurpose>,
    verdict: Option<CollapseVerdict>,
    spare: &mut Spare,
) -> Result<Cite, AllocError>
    ensures { IfOk result (λ c. c
        ≡ rendered.rendered_cite (subject_view T.answers subject.now) purpose verdict) }
{
    let style = subject.context.style;
    let memory = spare.take(alloc)?;
    let mut writing = WritingContext::in_spare_memory(alloc, &style.settings.options, memory);
    let notes = subject.write_cite(alloc, purpose, verdict, &mut writing)?;
    let (tree, memory) = writing.flush_apart()?;
    spare.leave(memory);
    let children = arrange(alloc, style, purpose, tree)?;
    Ok(Cite {
        children,
        checked_disambiguate: notes.checked_disambiguate,
        first_name: notes.first_name,
        identifier_usage: notes.usage,
    })
}

fn render_item<'a, T: EntryLike>(
    subject: &Subject<'a, T>,
    alloc: Global,
    bibliography: &'a Bibliography,
    spare: &mut Spare,
) -> Result<ElemChildren, AllocError>
    ensures { IfOk result (λ tree. tree
        ≡ rendered.rendered_item (subject_view T.answers subject.now)
        (bibliography_view bibliography.now)) }
{
    let style = &subject.context;
    let notes = first_notes(subject.cite.usage);
    let section = subject.item_section(alloc, bibliography, Form::Full, true, notes)?;
    let layout = &bibliography.layout;
    let before = layout.prefix.as_deref();
    let behind = layout.suffix.as_deref();
    let memory = spare.take(alloc)?;
    let mut writing = WritingContext::in_spare_memory(alloc, &style.style.settings.options, memory);
    let prefix = begin_prefix(&mut writing, before)?;
    let _noted = write_section(style, &mut writing, section)?;
    apply_suffix(style, &mut writing, behind, prefix)?;
    let (tree, memory) = writing.flush_apart()?;
    spare.leave(memory);
    Ok(tree)
}

impl<'a> StyleContext<'a> {
    // Whether the cite has a year suffix, and a text that writes it stands in a layout of the
    // style.
    fn writes_suffix(
        &self,
        alloc: Global,
        state: &DisambiguateState,
        means: &Means,
    ) -> Result<bool, AllocError>
        requires { HasNoRing (context_source self.now).style.macros }
        ensures { IfOk result (λ b. b
            ≡ (is_some (suffix_told state.now means.now)
            && suffixes.explicit_suffix (context_source self.now).style)) }
    {
        match suffix_told(state, means) {
            Some(_) => self.locales.explicit_suffix(alloc),
            None => Ok(false),
        }
    }

    // A cite.
    #[tactic(auto, unfolding(crate::specs::CiteText::cite))]
    pub(crate) fn cite_of<T: EntryLike, P>(
        &self,
        alloc: Global,
        entry: &T,
        props: &CiteProperties<'_, P>,
        purpose: Option<CitePurpose>,
        verdict: Option<CollapseVerdict>,
        spare: &mut Spare,
    ) -> Result<Cite, AllocError>
        requires { HasNoRing (context_source self.now).style.macros }
        ensures { IfOk result (λ c. c
            ≡ rendered.cite (context_source self.now) (T.answers entry.now)
            (properties_view props.now) purpose verdict) }
    {
        let writes = self.writes_suffix(
            alloc,
            &props.speculative.disambiguation,
            &props.speculative.means,
        )?;
        let subject = Subject {
            entry,
            context: self.locales,
            cite: cite_facts(props),
            explicit_suffix: writes,
        };
        render_cite(&subject, alloc, purpose, verdict, spare)
    }

    /// Renders a cite of the entry by what it is written for, and counts a rendering, also where
    /// memory is refused.
    ///
    /// Without a purpose, and for `Year`, the citation's layout is written, in the form that the
    /// verdict asks for. For `Author` the author's names alone; for `Prose` these and then the rest
    /// in brackets; for `Full` what the bibliography's layout writes, where the style has one.
    ///
    /// The two locales are looked at by nothing; the context's own counts. The style may have no
    /// macros that call each other in a ring.
    ///
    /// # Errors
    ///
    /// Where memory is refused.
    pub fn do_citation<T: EntryLike, P>(
        &self,
        alloc: Global,
        entry: &T,
        props: &CiteProperties<'_, P>,
        _locale: Option<&LocaleCode>,
        _term_locale: Option<&LocaleCode>,
        purpose: Option<CitePurpose>,
        verdict: Option<CollapseVerdict>,
        counter: &mut Renders,
    ) -> Result<Cite, AllocError>
        requires { HasNoRing (context_source self.now).style.macros }
        ensures cite { IfOk result (λ c. c
            ≡ rendered.cite (context_source self.now) (T.answers entry.now)
            (properties_view props.now) purpose verdict) }
        ensures count { counter.new ≡ counted counter.old }
    {
        counter.add_one();
        self.cite_of(alloc, entry, props, purpose, verdict, &mut Spare::none())
    }

    /// The tree of the cite that `do_citation` renders from the same arguments; counts a rendering,
    /// also where memory is refused.
    ///
    /// # Errors
    ///
    /// Where memory is refused.
    #[tactic(auto, unfolding(crate::specs::CiteText::cite_text))]
    pub fn citation<T: EntryLike, P>(
        &self,
        alloc: Global,
        entry: &T,
        props: &CiteProperties<'_, P>,
        _locale: Option<&LocaleCode>,
        _term_locale: Option<&LocaleCode>,
        purpose: Option<CitePurpose>,
        verdict: Option<CollapseVerdict>,
        counter: &mut Renders,
    ) -> Result<ElemChildren, AllocError>
        requires { HasNoRing (context_source self.now).style.macros }
        ensures cite { IfOk result (λ tree. tree
            ≡ rendered.cite_text (context_source self.now) (T.answers entry.now)
            (properties_view props.now) purpose verdict) }
        ensures count { counter.new ≡ counted counter.old }
    {
        counter.add_one();
        let mut spare = Spare::none();
        let cite = self.cite_of(alloc, entry, props, purpose, verdict, &mut spare)?;
        Ok(cite.children)
    }

    /// The date text of the entry, without formatting: the year of the first date that it has of
    /// issued, event-date, submitted and original-date; else the term for no date, else `n.d.`.
    /// Counts a rendering, also where memory is refused. The properties and the two locales are
    /// looked at by nothing.
    ///
    /// # Errors
    ///
    /// Where memory is refused.
    pub fn date_replacement<T: EntryLike, P>(
        &self,
        alloc: Global,
        entry: &T,
        _props: &CiteProperties<'_, P>,
        _locale: Option<&LocaleCode>,
        _term_locale: Option<&LocaleCode>,
        counter: &mut Renders,
    ) -> Result<ElemChildren, AllocError>
        ensures date { IfOk result (λ tree. tree
            ≡ rendered.date_text (context_source self.now) (T.answers entry.now) None) }
        ensures count { counter.new ≡ counted counter.old }
    {
        counter.add_one();
        date_text(&self.locales, alloc, entry, None)
    }

    // An item of this bibliography.
    fn item_of<T: EntryLike, P>(
        &self,
        alloc: Global,
        entry: &T,
        props: &CiteProperties<'_, P>,
        bibliography: &Bibliography,
        spare: &mut Spare,
    ) -> Result<ElemChildren, AllocError>
        requires { HasNoRing (context_source self.now).style.macros }
        ensures { IfOk result (λ tree. tree
            ≡ rendered.rendered_item
            (plain.subject (context_source self.now) (T.answers entry.now)
            (properties_view props.now))
            (bibliography_view bibliography.now)) }
    {
        let writes = self.writes_suffix(
            alloc,
            &props.speculative.disambiguation,
            &props.speculative.means,
        )?;
        let subject = Subject {
            entry,
            context: self.locales,
            cite: cite_facts(props),
            explicit_suffix: writes,
        };
        render_item(&subject, alloc, bibliography, spare)
    }

    // The item of the bibliography, if there is one.
    #[tactic(auto, unfolding(crate::specs::CiteText::bibliography_text))]
    pub(crate) fn listed<T: EntryLike, P>(
        &self,
        alloc: Global,
        entry: &T,
        props: &CiteProperties<'_, P>,
        spare: &mut Spare,
    ) -> Result<Option<ElemChildren>, AllocError>
        requires { HasNoRing (context_source self.now).style.macros }
        ensures { IfOk result (λ item. item
            ≡ rendered.bibliography_text (context_source self.now) (T.answers entry.now)
            (properties_view props.now)) }
    {
        match &self.locales.style.bibliography {
            Some(bibliography) => {
                let tree = self.item_of(alloc, entry, props, bibliography, spare)?;
                Ok(Some(tree))
            }
            None => Ok(None),
        }
    }

    /// Renders the entry's item of the bibliography: the layout between its prefix and suffix;
    /// `None` exactly where the style has no bibliography. Counts a rendering, also then and where
    /// memory is refused.
    ///
    /// The two locales are looked at by nothing; the context's own counts. The style may have no
    /// macros that call each other in a ring.
    ///
    /// # Errors
    ///
    /// Where memory is refused.
    pub fn bibliography<T: EntryLike, P>(
        &self,
        alloc: Global,
        entry: &T,
        props: &CiteProperties<'_, P>,
        _locale: Option<&LocaleCode>,
        _term_locale: Option<&LocaleCode>,
        counter: &mut Renders,
    ) -> Result<Option<ElemChildren>, AllocError>
        requires { HasNoRing (context_source self.now).style.macros }
        ensures item { IfOk result (λ item. item
            ≡ rendered.bibliography_text (context_source self.now) (T.answers entry.now)
            (properties_view props.now)) }
        ensures count { counter.new ≡ counted counter.old }
    {
        counter.add_one();
        self.listed(alloc, entry, props, &mut Spare::none())
    }
}
