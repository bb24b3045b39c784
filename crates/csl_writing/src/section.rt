//! What of a layout is written for a cite.
ghost use Rattle.std.specs.Prelude.{◌≡◌, IfOk};
ghost use Rattle.value_styles.specs.ElementView.{elements_view};
ghost use Rattle.value_styles.specs.StyleView.{bibliography_view};
ghost use Rattle.layout_picking.specs.Conditions.{is_repeated};
ghost use Rattle.layout_picking.specs.InputView.{env_of, macros_in};
ghost use Rattle.layout_picking.specs.Notes.{first_notes};
ghost use Rattle.csl_writing.specs.SectionView.{IsSection};
ghost use Rattle.csl_writing.specs.Sections as sections;
ghost use Rattle.csl_writing.specs.SubjectView.{subject_view};

use crate::subject::Subject;
use csl_base::element::{Affixes, InheritableNameOptions, LayoutRenderingElement};
use csl_base::entry::EntryLike;
use csl_base::formatting::StyleFormatting;
use csl_base::style::Bibliography;
use csl_base::taxonomy::{NameVariable, Variable};
use driver_lookup::state::{CollapseVerdict, IbidState, IdentifierUsage};
use layout_picking::held::Picking;
use layout_picking::input::Input;
use layout_picking::names::author_variable;
use layout_picking::notes::{Called, Form, Notes, Suppressed};
use layout_picking::picking::pick_layout;
use std::alloc::{AllocError, Global};

// For how many pieces there is memory at first: those of two names and a year in a group.
const FIRST_CAPACITY: usize = 16;

/// What is picked, and the formatting in which it is written.
#[derive(Drop)]
pub(crate) struct Section<'a> {
    pub(crate) formatting: StyleFormatting,
    pub(crate) picking: Picking<'a>,
}

impl<'a> Section<'a> {
    // Whether there is something to write.
    fn has_parts(&self) -> bool
        ensures { (section : sections.Section) → IsSection self.now section
            → result ≡ sections.has_parts section.picked.parts }
    {
        !self.picking.pieces.is_empty()
    }
}

pub(crate) fn first_notes(usage: IdentifierUsage) -> Notes
    ensures { result ≡ first_notes usage }
{
    Notes {
        first_date: true,
        suppressed: Suppressed {
            author: false,
            editor: false,
            translator: false,
        },
        checked_disambiguate: false,
        first_name: None,
        usage,
    }
}

/// The form of a cite that is collapsed.
fn verdict_form(verdict: Option<CollapseVerdict>) -> Form
    ensures { result ≡ sections.verdict_form verdict }
{
    match verdict {
        None => Form::Full,
        Some(CollapseVerdict::First) => Form::OnlyFirstDate,
        Some(CollapseVerdict::YearSuffix) => Form::OnlyYearSuffix,
    }
}

/// What the elements give, behind these notes.
fn pick_section<'a, T: EntryLike>(
    alloc: Global,
    input: &Input<'a, T>,
    formatting: StyleFormatting,
    elements: &'a [LayoutRenderingElement],
    notes: Notes,
) -> Result<Section<'a>, AllocError>
    ensures { IfOk result (λ s. IsSection s
        (sections.picked_section formatting
        (env_of (T.answers input.now.entry.now) input.now.setting)
        (macros_in input.now.setting) (elements_view elements.now) notes)) }
{
    let mut picking = Picking {
        pieces: Vec::with_capacity(alloc, FIRST_CAPACITY)?,
        called: Called::None,
        notes,
    };
    pick_layout(input, elements, &mut picking)?;
    Ok(Section {
        formatting,
        picking,
    })
}

impl<'a, T: EntryLike> Subject<'a, T> {
    /// The citation's layout in a form.
    pub(crate) fn citation_section(
        &self,
        alloc: Global,
        form: Form,
        notes: Notes,
    ) -> Result<Section<'a>, AllocError>
        ensures { IfOk result (λ s. IsSection s
            (sections.citation_section (subject_view T.answers self.now) form notes)) }
    {
        let citation = &self.context.style.citation;
        let input = self.input(form, &citation.name_options, false);
        let layout = &citation.layout;
        pick_section(alloc, &input, layout.formatting, &layout.elements, notes)
    }

    /// A bibliography's layout in a form.
    pub(crate) fn item_section(
        &self,
        alloc: Global,
        bibliography: &'a Bibliography,
        form: Form,
        is_bibliography: bool,
        notes: Notes,
    ) -> Result<Section<'a>, AllocError>
        ensures { IfOk result (λ s. IsSection s
            (sections.item_section (subject_view T.answers self.now)
            (bibliography_view bibliography.now) form is_bibliography notes)) }
    {
        let input = self.input(form, &bibliography.name_options, is_bibliography);
        let layout = &bibliography.layout;
        pick_section(alloc, &input, layout.formatting, &layout.elements, notes)
    }

    /// The citation's layout as it is used without a purpose.
    pub(crate) fn regular_section(
        &self,
        alloc: Global,
        verdict: Option<CollapseVerdict>,
        notes: Notes,
    ) -> Result<Section<'a>, AllocError>
        ensures { IfOk result (λ s. IsSection s
            (sections.regular_section (subject_view T.answers self.now) verdict notes)) }
    {
        self.citation_section(alloc, verdict_form(verdict), notes)
    }

    /// A cite as the same entry's item of the bibliography; as without a purpose where the style
    /// has no bibliography.
    pub(crate) fn full_section(
        &self,
        alloc: Global,
        verdict: Option<CollapseVerdict>,
        notes: Notes,
    ) -> Result<Section<'a>, AllocError>
        ensures { IfOk result (λ s. IsSection s
            (sections.full_section (subject_view T.answers self.now) verdict notes)) }
    {
        match &self.context.style.bibliography {
            Some(bibliography) => self.item_section(alloc, bibliography, Form::Full, false, notes),
            None => self.regular_section(alloc, verdict, notes),
        }
    }

    // Whether the cite repeats the one before it.
    fn is_repeated(&self) -> bool
        ensures { result ≡ is_repeated (subject_view T.answers self.now).cite.ibid }
    {
        match self.cite.ibid {
            IbidState::Different => false,
            IbidState::IbidWithLocator => true,
            IbidState::Ibid => true,
        }
    }

    // The citation's layout as if the cite repeated no other, where it repeats one.
    fn citation_anew(
        &self,
        alloc: Global,
        form: Form,
        notes: Notes,
    ) -> Result<Section<'a>, AllocError>
        ensures { IfOk result (λ s. IsSection s
            (sections.citation_anew (subject_view T.answers self.now) form notes)) }
    {
        if self.is_repeated() {
            let different = self.as_different();
            return different.citation_section(alloc, form, notes);
        }
        Ok(no_section(alloc, notes))
    }

    // The bibliography's layout, where the style has a bibliography.
    fn bibliography_section(
        &self,
        alloc: Global,
        form: Form,
        notes: Notes,
    ) -> Result<Section<'a>, AllocError>
        ensures { IfOk result (λ s. IsSection s
            (sections.bibliography_section (subject_view T.answers self.now) form notes)) }
    {
        match &self.context.style.bibliography {
            Some(bibliography) => self.item_section(alloc, bibliography, form, false, notes),
            None => Ok(no_section(alloc, notes)),
        }
    }

    // The author's names alone, behind the first notes; `alone` has the element of these names.
    fn names_section(
        &self,
        alloc: Global,
        alone: &'a [LayoutRenderingElement],
        form: Form,
    ) -> Result<Section<'a>, AllocError>
        requires { elements_view alone.now ≡ sections.names_alone }
        ensures { IfOk result (λ s. IsSection s
            (sections.names_section (subject_view T.answers self.now) form
            (first_notes self.now.cite.usage))) }
    {
        let citation = &self.context.style.citation;
        let input = self.input(form, &citation.name_options, false);
        let notes = first_notes(self.cite.usage);
        pick_section(alloc, &input, citation.layout.formatting, alone, notes)
    }

    // What names the author, as the bibliography writes it, else the names alone.
    fn author_listed(
        &self,
        alloc: Global,
        alone: &'a [LayoutRenderingElement],
        form: Form,
    ) -> Result<Section<'a>, AllocError>
        requires { elements_view alone.now ≡ sections.names_alone }
        ensures { IfOk result (λ s. IsSection s
            (sections.author_listed (subject_view T.answers self.now) form
            (first_notes self.now.cite.usage))) }
    {
        let notes = first_notes(self.cite.usage);
        let listed = self.bibliography_section(alloc, form, notes)?;
        if listed.has_parts() {
            return Ok(listed);
        }
        self.names_section(alloc, alone, form)
    }

    // The same, but first as the citation would write it where the cite repeated no other.
    fn author_anew(
        &self,
        alloc: Global,
        alone: &'a [LayoutRenderingElement],
        form: Form,
    ) -> Result<Section<'a>, AllocError>
        requires { elements_view alone.now ≡ sections.names_alone }
        ensures { IfOk result (λ s. IsSection s
            (sections.author_anew (subject_view T.answers self.now) form
            (first_notes self.now.cite.usage))) }
    {
        let notes = first_notes(self.cite.usage);
        let anew = self.citation_anew(alloc, form, notes)?;
        if anew.has_parts() {
            return Ok(anew);
        }
        self.author_listed(alloc, alone, form)
    }

    // What names the author: as the citation writes it in this form, else in these ways.
    fn author_in_form(
        &self,
        alloc: Global,
        alone: &'a [LayoutRenderingElement],
        form: Form,
    ) -> Result<Section<'a>, AllocError>
        requires names { elements_view alone.now ≡ sections.names_alone }
        requires form { form ≡ sections.author_form (subject_view T.answers self.now) }
        ensures { IfOk result (λ s. IsSection s
            (sections.author_section (subject_view T.answers self.now)
            (first_notes self.now.cite.usage))) }
    {
        let notes = first_notes(self.cite.usage);
        let usual = self.citation_section(alloc, form, notes)?;
        if usual.has_parts() {
            return Ok(usual);
        }
        self.author_anew(alloc, alone, form)
    }

    /// What names the author, behind the first notes; `alone` has the element of the author's
    /// names.
    pub(crate) fn author_section(
        &self,
        alloc: Global,
        alone: &'a [LayoutRenderingElement],
    ) -> Result<Section<'a>, AllocError>
        requires { elements_view alone.now ≡ sections.names_alone }
        ensures { IfOk result (λ s. IsSection s
            (sections.author_section (subject_view T.answers self.now)
            (first_notes self.now.cite.usage))) }
    {
        let form = Form::VarOnly(Variable::Name(author_variable(self.entry)));
        self.author_in_form(alloc, alone, form)
    }
}

/// A layout's elements: the author's names and nothing else.
pub(crate) fn names_alone(alloc: Global) -> Result<Vec<LayoutRenderingElement>, AllocError>
    ensures { IfOk result (λ es. elements_view es.items ≡ sections.names_alone) }
{
    let mut variables = Vec::new(alloc);
    variables.push(NameVariable::Author)?;
    let mut elements = Vec::new(alloc);
    elements.push(LayoutRenderingElement::Names {
        variables,
        substitute: Vec::new(alloc),
        options: InheritableNameOptions {
            and: None,
            name_delimiter: None,
            names_delimiter: None,
            et_al_min: None,
            et_al_use_first: None,
            name_form: None,
            initialize_with: None,
        },
        affixes: Affixes {
            prefix: None,
            suffix: None,
        },
        formatting: StyleFormatting::default(),
        display: None,
    })?;
    Ok(elements)
}

// Nothing to write.
fn no_section<'a>(alloc: Global, notes: Notes) -> Section<'a>
    ensures { IsSection result (sections.no_section notes) }
{
    Section {
        formatting: StyleFormatting::default(),
        picking: Picking {
            pieces: Vec::new(alloc),
            called: Called::None,
            notes,
        },
    }
}
