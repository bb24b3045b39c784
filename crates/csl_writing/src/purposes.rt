//! A cite by what it is written for.
ghost use Rattle.std.specs.Prelude.{◌≡◌, IfOk, OnOk, OnErr, length};
ghost use Rattle.value_styles.specs.ElementView.{text_view};
ghost use Rattle.value_styles.specs.StyleView.{layout_view, style_view};
ghost use Rattle.layout_picking.specs.Notes.{first_notes};
ghost use Rattle.csl_writing.specs.Plans as plans;
ghost use Rattle.csl_writing.specs.SectionView.{IsSection};
ghost use Rattle.csl_writing.specs.Sections as sections;
ghost use Rattle.driver_lookup.specs.SourceView.{lookup_view};
ghost use Rattle.csl_writing.specs.StepsWritten.{IsCarriedOut, IsWritten};
ghost use Rattle.csl_writing.specs.SubjectView.{subject_view};
ghost use Rattle.layout_context.specs.WritingState.{state};

use crate::parts::write_pieces;
use crate::section::{Section, first_notes, names_alone};
use crate::subject::Subject;
use csl_base::entry::EntryLike;
use csl_base::style::{CitationFormat, IndependentStyle, Layout, StyleCategory};
use driver_lookup::lookup::StyleLocales;
use driver_lookup::purpose::CitePurpose;
use driver_lookup::state::CollapseVerdict;
use layout_context::wording::push_str;
use layout_context::writing::WritingContext;
use layout_picking::held::Picking;
use layout_picking::notes::{Form, Notes};
use std::alloc::{AllocError, Global};

/// Writes a section in its formatting, and hands its notes on.
pub(crate) fn write_section(
    style: &StyleLocales<'_>,
    writing: &mut WritingContext<'_>,
    section: Section<'_>,
) -> Result<Notes, AllocError>
    ensures { (value : sections.Section) → IsSection section.entry value
        → IfOk result (IsCarriedOut (lookup_view style.now) (plans.plan_of value)
        (state writing.old)
        (state writing.new)) }
{
    let Section {
        formatting,
        picking,
    } = section;
    let Picking {
        pieces,
        called: _,
        notes,
    } = picking;
    let mark = writing.push_format(formatting)?;
    write_pieces(style, writing, pieces)?;
    writing.pop_format(mark)?;
    Ok(notes)
}

/// Whether cites of the style are labels or numbers.
fn has_labels(style: &IndependentStyle) -> bool
    ensures { result ≡ plans.has_labels (style_view style.now) }
{
    style.info.category.iter().any(|category| {
        matches!(
            category,
            StyleCategory::CitationFormat {
                format: CitationFormat::Label | CitationFormat::Numeric,
            }
        )
    })
}

/// Whether the text begins with white space.
fn opens_with_space(text: &Option<String>) -> bool
    ensures { result ≡ plans.opens_with_space (text_view text.now) }
{
    match text {
        Some(text) => match text.as_str().chars().next() {
            Some(c) => c.is_whitespace(),
            None => false,
        },
        None => false,
    }
}

/// A space between the author and the rest, unless the layout's prefix begins with one.
fn write_gap(
    style: &StyleLocales<'_>,
    writing: &mut WritingContext<'_>,
    layout: &Layout,
) -> Result<(), AllocError>
    ensures { OnOk result
        (IsWritten (lookup_view style.now) (plans.gap_steps (layout_view layout.now))
        (state writing.old) (state writing.new)) }
{
    if opens_with_space(&layout.prefix) {
        return Ok(());
    }
    writing.ensure_space()
}

/// What encloses the rest on one side: the layout's own affix, else the bracket, but where cites
/// are labels or numbers.
fn write_enclosing(
    style: &StyleLocales<'_>,
    writing: &mut WritingContext<'_>,
    affix: &Option<String>,
    bracket: &str,
) -> Result<(), AllocError>
    ensures { OnOk result (IsWritten (lookup_view style.now)
        (plans.text_steps (plans.enclosing (style_view style.now.style.now)
        (text_view affix.now) bracket.now)) (state writing.old) (state writing.new)) }
{
    match affix {
        Some(affix) => push_str(style, writing, affix.as_str()),
        None => {
            if has_labels(style.style) {
                return Ok(());
            }
            push_str(style, writing, bracket)
        }
    }
}

impl<'a, T: EntryLike> Subject<'a, T> {
    /// The rest of a cite in a sentence.
    fn rest_section(
        &self,
        alloc: Global,
        verdict: Option<CollapseVerdict>,
        notes: Notes,
    ) -> Result<Section<'a>, AllocError>
        ensures { IfOk result (λ s. IsSection s
            (plans.rest_section (subject_view T.answers self.now) verdict notes)) }
    {
        if has_labels(self.context.style) {
            return self.regular_section(alloc, verdict, notes);
        }
        self.citation_section(alloc, Form::SuppressAuthor, notes)
    }

    /// The author alone: the names that the style shows of it.
    fn write_author(
        &self,
        alloc: Global,
        writing: &mut WritingContext<'_>,
    ) -> Result<Notes, AllocError>
        ensures { IfOk result (IsCarriedOut (lookup_view self.now.context)
            (plans.plan_of (sections.author_section (subject_view T.answers self.now)
            (first_notes self.now.cite.usage))) (state writing.old) (state writing.new)) }
    {
        let alone = names_alone(alloc)?;
        let subject = Subject {
            entry: self.entry,
            context: self.context,
            cite: self.cite,
            explicit_suffix: self.explicit_suffix,
        };
        let section = subject.author_section(alloc, &alone)?;
        write_section(&self.context, writing, section)
    }

    /// A cite in a sentence: the author, then the rest, enclosed.
    fn write_prose(
        &self,
        alloc: Global,
        verdict: Option<CollapseVerdict>,
        writing: &mut WritingContext<'_>,
    ) -> Result<Notes, AllocError>
        ensures { IfOk result (IsCarriedOut (lookup_view self.now.context)
            (plans.prose_plan (subject_view T.answers self.now) verdict
            (first_notes self.now.cite.usage))
            (state writing.old) (state writing.new)) }
    {
        let style = &self.context;
        let layout = &style.style.citation.layout;
        let notes = self.write_author(alloc, writing)?;
        write_gap(style, writing, layout)?;
        write_enclosing(style, writing, &layout.prefix, "(")?;
        let rest = self.rest_section(alloc, verdict, notes)?;
        let noted = write_section(style, writing, rest)?;
        write_enclosing(style, writing, &layout.suffix, ")")?;
        Ok(noted)
    }

    /// A cite as its item of the bibliography.
    fn write_full(
        &self,
        alloc: Global,
        verdict: Option<CollapseVerdict>,
        writing: &mut WritingContext<'_>,
    ) -> Result<Notes, AllocError>
        ensures { IfOk result (IsCarriedOut (lookup_view self.now.context)
            (plans.plan_of (sections.full_section (subject_view T.answers self.now) verdict
            (first_notes self.now.cite.usage))) (state writing.old) (state writing.new)) }
    {
        let notes = first_notes(self.cite.usage);
        let section = self.full_section(alloc, verdict, notes)?;
        write_section(&self.context, writing, section)
    }

    /// A cite without a purpose.
    fn write_regular(
        &self,
        alloc: Global,
        verdict: Option<CollapseVerdict>,
        writing: &mut WritingContext<'_>,
    ) -> Result<Notes, AllocError>
        ensures { IfOk result (IsCarriedOut (lookup_view self.now.context)
            (plans.plan_of (sections.regular_section (subject_view T.answers self.now) verdict
            (first_notes self.now.cite.usage))) (state writing.old) (state writing.new)) }
    {
        let notes = first_notes(self.cite.usage);
        let section = self.regular_section(alloc, verdict, notes)?;
        write_section(&self.context, writing, section)
    }

    /// A cite by what it is written for. Gives what is noted of it.
    pub(crate) fn write_cite(
        &self,
        alloc: Global,
        purpose: Option<CitePurpose>,
        verdict: Option<CollapseVerdict>,
        writing: &mut WritingContext<'_>,
    ) -> Result<Notes, AllocError>
        ensures { IfOk result (IsCarriedOut (lookup_view self.now.context)
            (plans.cite_plan (subject_view T.answers self.now) purpose verdict
            (first_notes self.now.cite.usage)) (state writing.old) (state writing.new)) }
    {
        match purpose {
            Some(CitePurpose::Author) => self.write_author(alloc, writing),
            Some(CitePurpose::Prose) => self.write_prose(alloc, verdict, writing),
            Some(CitePurpose::Full) => self.write_full(alloc, verdict, writing),
            Some(CitePurpose::Year) => self.write_regular(alloc, verdict, writing),
            None => self.write_regular(alloc, verdict, writing),
        }
    }
}
