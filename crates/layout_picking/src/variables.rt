//! Texts, numbers and dates (CSL 1.0.2, text, number, date).
ghost use Rattle.std.specs.Prelude.{◌≡◌, OnOk, option_map};
ghost use Rattle.std.specs.List.{list_any};
ghost use Rattle.value_lists.specs.Content.{text_has_content};
ghost use Rattle.layout_picking.specs.Pieces.{leaves_of};
ghost use Rattle.layout_picking.specs.Variables.{
  is_plain,
  is_kept,
  writes,
  chunk_has_content,
  text_leaves,
  chunked_leaves,
  locator_leaf,
  variable_leaf,
  suffix_behind,
  variable_meta,
  dated,
  noted_use,
  noted_behind,
  meant,
  pick_variable,
  pick_words,
  words_for,
  year_leaf,
  writes_year,
  writes_suffix_alone,
  date_leaves,
  pick_date,
};
ghost use Rattle.layout_picking.specs.Suffix.{implicit_suffix};
ghost use Rattle.layout_picking.specs.Picked.{added, called_with};
ghost use Rattle.layout_picking.specs.PiecesView.{leaf_view, shape_look};
ghost use Rattle.layout_picking.specs.HeldView.{held};
ghost use Rattle.layout_picking.specs.InputView.{cite_facts, term_for, env_of};

use crate::held::Picking;
use crate::input::{Input, Setting};
use crate::notes::{Called, Form, Notes};
use crate::pieces::{Leaf, Shape, add_node};
use csl_base::elem::ElemMeta;
use csl_base::entry::{Chunk, ChunkKind, ChunkedString, EntryLike};
use csl_base::taxonomy::{
    DateVariable, NumberVariable, OtherTerm, StandardVariable, Term, TermForm, Variable,
};
use driver_lookup::state::IdentifierUsage;
use std::alloc::AllocError;

impl Form {
    // Whether values and terms are written.
    fn is_plain(self) -> bool
        ensures { result ≡ is_plain self }
    {
        matches!(self, Form::Full | Form::SuppressAuthor)
    }

    // Whether texts and numbers of this variable are written.
    fn writes(self, variable: Variable) -> bool
        ensures { result ≡ writes self variable }
    {
        match self {
            Form::Full => true,
            Form::SuppressAuthor => true,
            Form::VarOnly(only) => only == variable,
            Form::OnlyFirstDate => is_kept(variable),
            Form::OnlyYearSuffix => is_kept(variable),
        }
    }

    // Whether the year of this date is written, where it may be the first one.
    fn writes_year(self, variable: DateVariable, notes: &Notes) -> bool
        ensures { result ≡ writes_year self variable notes.now }
    {
        match self {
            Form::Full => true,
            Form::SuppressAuthor => true,
            Form::VarOnly(only) => only == Variable::Date(variable),
            Form::OnlyFirstDate => notes.first_date,
            Form::OnlyYearSuffix => false,
        }
    }
}

impl Form {
    // Whether dates write their suffix alone.
    fn writes_suffix_alone(self) -> bool
        ensures { result ≡ writes_suffix_alone self }
    {
        matches!(self, Form::OnlyYearSuffix)
    }
}

// The year suffix and the locator stay where a cite is cut.
fn is_kept(variable: Variable) -> bool
    ensures { result ≡ is_kept variable }
{
    matches!(
        variable,
        Variable::Standard(StandardVariable::YearSuffix) | Variable::Number(NumberVariable::Locator)
    )
}

// Whether some character is not white space.
fn has_content(text: &str) -> bool
    ensures { result ≡ text_has_content text.now }
{
    text.chars().any(|c| !c.is_whitespace())
}

// A text that isn't blank.
pub fn text_leaf<'a>(text: Option<&'a str>) -> Option<Leaf<'a>>
    ensures { option_map leaf_view result ≡ text_leaves (option_map (λ t. t.now) text.entry) }
{
    let text = text?;
    has_content(text).then_some(Leaf::Text(text))
}

// Whether a chunk has a character that isn't white space, or is a formula.
fn chunk_has_content(chunk: &Chunk) -> bool
    ensures { result ≡ chunk_has_content chunk.now }
{
    match chunk.kind {
        ChunkKind::Math => true,
        _ => chunk.value.has_content(),
    }
}

// Whether some chunk has content.
fn chunks_have_content(text: &ChunkedString) -> bool
    ensures { result ≡ list_any chunk_has_content text.now.0 }
{
    text.0.as_slice().iter().any(|c| chunk_has_content(c))
}

// A chunked text that isn't blank.
fn chunked_leaf<'a>(text: Option<&'a ChunkedString>) -> Option<Leaf<'a>>
    ensures { option_map leaf_view result ≡ chunked_leaves (option_map (λ t. t.now) text.entry) }
{
    let text = text?;
    chunks_have_content(text).then_some(Leaf::Chunked(text))
}

// A cite's locator: its text, or a mark.
fn locator_leaf<'a>(setting: &Setting<'a>) -> Option<Leaf<'a>>
    ensures { option_map leaf_view result ≡ locator_leaf (cite_facts setting.now.cite) }
{
    match setting.cite.locator?.text {
        Some(text) => text_leaf(Some(text)),
        None => Some(Leaf::Mark(setting.cite.initial_idx)),
    }
}

// What a variable's text or number gives.
fn variable_leaf<'a, T: EntryLike>(input: &Input<'a, T>, variable: Variable) -> Option<Leaf<'a>>
    ensures { option_map leaf_view result
        ≡ variable_leaf (env_of (T.answers input.now.entry.now) input.now.setting) variable }
{
    let (entry, setting) = (input.entry, &input.setting);
    match variable {
        Variable::Standard(StandardVariable::YearSuffix) => {
            let suffix = setting.cite.suffix()?;
            Some(Leaf::Suffix(suffix))
        }
        Variable::Standard(StandardVariable::Url) => {
            let url = entry.resolve_standard_variable(StandardVariable::Url);
            url.map(Leaf::Link)
        }
        Variable::Standard(StandardVariable::CitationLabel) => text_leaf(entry.citation_label()),
        Variable::Standard(v) => chunked_leaf(entry.resolve_standard_variable(v)),
        Variable::Number(NumberVariable::CitationNumber) => {
            Some(Leaf::Number(setting.cite.citation_number as u128 + 1))
        }
        Variable::Number(NumberVariable::Locator) => locator_leaf(setting),
        Variable::Number(NumberVariable::FirstReferenceNoteNumber) => {
            let number = setting.cite.first_note_number?;
            Some(Leaf::Number(number as u128))
        }
        Variable::Number(v) => text_leaf(entry.resolve_number_variable(v)),
        _ => None,
    }
}

impl<'a> Setting<'a> {
    /// A term in words, for this cite.
    pub fn term(&self, name: Term, form: TermForm, plural: bool) -> Option<&'a str>
        ensures { option_map (λ t. t.now) result ≡ term_for self.now name form plural }
    {
        let kind = self.cite.locator.map(|locator| locator.kind);
        self.context.term(kind, name, form, plural)
    }

    /// A term in its long form, or these words where no locale has it.
    pub fn words_for(&self, term: OtherTerm, words: &'a str) -> &'a str
        ensures { result.now ≡ words_for (term_for self.now) term words.now }
    {
        match self.term(Term::Other(term), TermForm::Long, false) {
            Some(found) => found,
            None => words,
        }
    }

    // The suffix that the first date or label adds.
    fn implicit_suffix(&self, notes: &Notes) -> Option<usize>
        ensures { result ≡ implicit_suffix self.now.explicit_suffix (cite_facts self.now.cite)
            notes.now }
    {
        if self.explicit_suffix || !notes.first_date {
            return None;
        }
        self.cite.suffix()
    }
}

// The suffix behind a label that the entry has.
fn suffix_behind<T: EntryLike>(input: &Input<T>, variable: Variable, notes: &Notes) -> Option<usize>
    ensures { result ≡ suffix_behind
        (env_of (T.answers input.now.entry.now) input.now.setting) variable notes.now }
{
    match variable {
        Variable::Standard(StandardVariable::CitationLabel) => {
            if input.entry.citation_label().is_some() {
                input.setting.implicit_suffix(notes)
            } else {
                None
            }
        }
        _ => None,
    }
}

// The meta of an element that writes this variable.
fn variable_meta(variable: Variable) -> Option<ElemMeta>
    ensures { result ≡ variable_meta variable }
{
    match variable {
        Variable::Standard(StandardVariable::CitationLabel) => Some(ElemMeta::CitationLabel),
        Variable::Number(NumberVariable::CitationNumber) => Some(ElemMeta::CitationNumber),
        _ => None,
    }
}

impl Notes {
    // Behind a date or a label, which may have given a piece.
    fn note_date(&mut self, given: bool)
        ensures { self.new ≡ dated given self.old }
    {
        if given {
            self.first_date = false;
        }
    }

    // Behind a variable that is written, and may have given a piece.
    fn note_variable(&mut self, setting: &Setting, variable: Variable, given: bool)
        ensures { self.new ≡ noted_behind setting.now.is_bibliography variable given self.old }
    {
        match variable {
            Variable::Standard(StandardVariable::CitationLabel) => {
                if !setting.is_bibliography {
                    self.usage = self.usage.label();
                }
                self.note_date(given);
            }
            Variable::Number(NumberVariable::CitationNumber) => {
                if !setting.is_bibliography {
                    self.usage = self.usage.number();
                }
            }
            _ => {}
        }
    }
}

// The variable that an element means which names this one: in the bibliography the label and the
// number stand for each other where only one of them was used.
fn meant(setting: &Setting, variable: Variable) -> Variable
    ensures { result ≡ meant setting.now.is_bibliography setting.now.cite.usage variable }
{
    if !setting.is_bibliography {
        return variable;
    }
    match (setting.cite.usage, variable) {
        (
            IdentifierUsage::OnlyCitationNumber,
            Variable::Standard(StandardVariable::CitationLabel),
        ) => Variable::Number(NumberVariable::CitationNumber),
        (IdentifierUsage::OnlyCitationLabel, Variable::Number(NumberVariable::CitationNumber)) =>
            Variable::Standard(StandardVariable::CitationLabel),
        _ => variable,
    }
}

// What the call of a variable counts as, which may have given a piece.
pub fn called_with(given: bool) -> Called
    ensures { result ≡ called_with given }
{
    if given { Called::Filled } else { Called::Empty }
}

// A text or a number of a variable.
fn pick_variable<'a, T: EntryLike>(
    input: &Input<'a, T>,
    variable: Variable,
    shape: Shape<'a>,
    picking: &mut Picking<'a>,
) -> Result<(), AllocError>
    ensures { let env = env_of (T.answers input.now.entry.now) input.now.setting in
        OnOk result (held picking.new
        ≡ added (pick_variable env variable
        (shape_look shape.entry) shape.entry.quotes shape.entry.strip_periods picking.old.notes)
        (held picking.old)) }
{
    if !input.setting.form.writes(variable) {
        picking.called = picking.called.and(Called::Empty);
        return Ok(());
    }
    let leaf = variable_leaf(input, variable);
    let suffix = suffix_behind(input, variable, &picking.notes);
    let node = shape.node(variable_meta(variable));
    let given = add_node(&mut picking.pieces, node, leaf, suffix)?;
    picking.called = picking.called.and(called_with(given));
    picking.notes.note_variable(&input.setting, variable, given);
    Ok(())
}

/// A text or a number of the variable that is meant by this one.
pub fn pick_meant<'a, T: EntryLike>(
    input: &Input<'a, T>,
    variable: Variable,
    shape: Shape<'a>,
    picking: &mut Picking<'a>,
) -> Result<(), AllocError>
    ensures { let env = env_of (T.answers input.now.entry.now) input.now.setting in
        let v = meant env.is_bibliography env.cite.usage variable in
        OnOk result (held picking.new
        ≡ added (pick_variable env v
        (shape_look shape.entry) shape.entry.quotes shape.entry.strip_periods picking.old.notes)
        (held picking.old)) }
{
    pick_variable(input, meant(&input.setting, variable), shape, picking)
}

/// A text that names no variable, if there is one.
pub fn pick_words<'a>(
    setting: &Setting<'a>,
    words: Option<&'a str>,
    shape: Shape<'a>,
    picking: &mut Picking<'a>,
) -> Result<(), AllocError>
    ensures { OnOk result (held picking.new
        ≡ added (pick_words setting.now.form (option_map (λ t. t.now) words.entry)
        (shape_look shape.entry) shape.entry.quotes shape.entry.strip_periods picking.old.notes)
        (held picking.old)) }
{
    if setting.form.is_plain() {
        add_node(
            &mut picking.pieces,
            shape.node(None),
            text_leaf(words),
            None,
        )?;
    }
    Ok(())
}

// A year. Only the words that it has are looked up.
fn year_leaf<'a>(setting: &Setting<'a>, year: i32) -> Leaf<'a>
    ensures { leaf_view result ≡ year_leaf (term_for setting.now) year }
{
    let era = if year >= 1000 {
        ""
    } else if year > 0 {
        setting.words_for(OtherTerm::Ad, " AD")
    } else {
        setting.words_for(OtherTerm::Bc, " BC")
    };
    Leaf::Year { year, era }
}

// What a date gives: its year and the suffix behind it, or the suffix alone.
fn date_leaves<'a, T: EntryLike>(
    input: &Input<'a, T>,
    variable: DateVariable,
    notes: &Notes,
) -> (Option<Leaf<'a>>, Option<usize>)
    ensures { let env = env_of (T.answers input.now.entry.now) input.now.setting in
        leaves_of (option_map leaf_view result.0) result.1
        ≡ date_leaves env variable (env.answers.date variable) notes.now }
{
    let setting = &input.setting;
    let date = match input.entry.resolve_date_variable(variable) {
        Some(date) => date,
        None => return (None, None),
    };
    let suffix = setting.implicit_suffix(notes);
    if setting.form.writes_year(variable, notes) {
        (Some(year_leaf(setting, date.year)), suffix)
    } else if setting.form.writes_suffix_alone() {
        (None, suffix)
    } else {
        (None, None)
    }
}

/// A date.
pub fn pick_date<'a, T: EntryLike>(
    input: &Input<'a, T>,
    variable: DateVariable,
    shape: Shape<'a>,
    picking: &mut Picking<'a>,
) -> Result<(), AllocError>
    ensures { let env = env_of (T.answers input.now.entry.now) input.now.setting in
        OnOk result (held picking.new
        ≡ added (pick_date env variable
        (shape_look shape.entry) shape.entry.quotes shape.entry.strip_periods picking.old.notes)
        (held picking.old)) }
{
    let (leaf, suffix) = date_leaves(input, variable, &picking.notes);
    let node = shape.node(Some(ElemMeta::Date));
    let given = add_node(&mut picking.pieces, node, leaf, suffix)?;
    picking.called = picking.called.and(called_with(given));
    picking.notes.note_date(given);
    Ok(())
}
