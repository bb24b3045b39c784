//! The walk through a program.
use crate::cite::{CiteFacts, Explaining, Scene, SceneKind, WrittenCite, step_mark};
use crate::frames::Frame;
use crate::locators::{ShownLocator, shown_locator};
use crate::values::Value;
use cite_limits::budget::Allowance;
use cite_limits::cost::Cost;
use cite_limits::error::{LimitError, StylePlace};
use cite_limits::paths::called_place;
use cite_pieces::output::{Element, Output, element_with};
use cite_pieces::piece::Mark;
use cite_program::program::{Program, Step};
use cite_texts::cases::Language;
use cite_trees::trees::NamedPersons;
use csl_base::names::DisambiguatedNameForm;
use csl_base::seq::Seq;
use driver_lookup::state::IdentifierUsage;
use std::alloc::{AllocError, Global};
use style_file::element::{Group, Text};
use style_file::variable::{NameVariable, NumberVariable, TextVariable, Variable};

/// Writes a cite, an item or a key.
///
/// # Errors
///
/// `Exceeded` where the style takes more than its budget or one cite may; `OutOfMemory`.
pub fn write_cite<'s>(
    alloc: Global,
    scene: Scene<'s>,
    cite: CiteFacts<'_>,
) -> Result<WrittenCite, LimitError> {
    let language = language_of(alloc, &scene, &cite)?;
    let locator = match cite.locator {
        Some(locator) => Some(shown_locator(alloc, scene.locale, locator)?),
        None => None,
    };
    let mut walk = Walk {
        scene,
        cite,
        output: Output::new(alloc, language),
        first_pieces: 0,
        frames: Vec::new(alloc),
        outermost: Frame::NEW,
        here: 0,
        next: 0,
        used: Vec::new(alloc),
        suppressed: Vec::new(alloc),
        names: Vec::new(alloc),
        first_forms: None,
        has_tested_disambiguate: false,
        usage: IdentifierUsage::None,
        leaves_out_names: cite.leaves_out_names,
        has_written_suffix: false,
        dates: 0,
        locator,
        allowance: scene.budget.allowance(cite.reference),
        bytes: 0,
        cost: Cost::NOTHING,
    };
    walk.take_all(scene.program)?;
    scene.budget.take(walk.cost);
    Ok(walk.written()?)
}

/// The language of text cases: that of the item, if it has one, else that of the locale.
fn language_of(
    alloc: Global,
    scene: &Scene<'_>,
    cite: &CiteFacts<'_>,
) -> Result<Language, AllocError> {
    let Some(language) = cite.reference.text(TextVariable::Language) else {
        return Ok(scene.locale.language());
    };
    let tag = language.plain(alloc)?;
    if tag.as_str().trim().is_empty() {
        return Ok(scene.locale.language());
    }
    Ok(Language::of_tag(tag.as_str()))
}

/// A walk through a program.
#[derive(Drop)]
pub(crate) struct Walk<'s, 'c> {
    pub scene: Scene<'s>,
    pub cite: CiteFacts<'c>,
    pub output: Output<'s>,
    /// How many pieces the first element of the layout has that has text; 0 before it.
    first_pieces: usize,
    /// What was called in the groups, macros and substitutes that are open.
    pub frames: Vec<Frame>,
    /// The same of the layout.
    outermost: Frame,
    /// The place of the step that is taken.
    here: usize,
    /// Where the walk goes on.
    next: usize,
    /// Variables with a value that were written, in their order.
    pub used: Vec<Variable>,
    /// Variables that stood in for names.
    suppressed: Vec<Variable>,
    pub names: Vec<NamedPersons>,
    pub first_forms: Option<Vec<DisambiguatedNameForm>>,
    pub has_tested_disambiguate: bool,
    pub usage: IdentifierUsage,
    pub leaves_out_names: bool,
    pub has_written_suffix: bool,
    /// How many dates are marked.
    pub dates: usize,
    pub locator: Option<ShownLocator>,
    /// What may be taken yet.
    pub allowance: Allowance,
    /// How many bytes were paid for: at least as many as are written.
    pub bytes: usize,
    /// What was taken.
    pub cost: Cost,
}

impl<'s, 'c> Walk<'s, 'c> {
    pub(crate) fn alloc(&self) -> Global {
        self.output.alloc()
    }

    /// Takes the steps of a program, but for those that are left out. Each is paid for before.
    fn take_all(&mut self, program: &Program<'s>) -> Result<(), LimitError> {
        for _ in 0..program.steps.len() {
            let Some(step) = program.steps.get(self.next).copied() else {
                return Ok(());
            };
            self.here = self.next;
            self.next = self.next.saturating_add(1);
            self.pay(&step)?;
            self.take(step)?;
            if self.first_pieces == 0 && self.output.depth() == 0 {
                self.first_pieces = self.output.piece_count();
            }
        }
        Ok(())
    }

    /// What comes of the walk.
    fn written(self) -> Result<WrittenCite, AllocError> {
        let Walk {
            output,
            first_pieces,
            names,
            first_forms,
            has_tested_disambiguate,
            usage,
            cost,
            ..
        } = self;
        Ok(WrittenCite {
            pieces: output.finish()?,
            first_pieces,
            names,
            first_forms,
            has_tested_disambiguate,
            usage,
            cost,
        })
    }

    /// Takes a step. What it writes is marked by it, where that is asked for.
    fn take(&mut self, step: Step<'s>) -> Result<(), AllocError> {
        if self.scene.explaining == Explaining::Nothing {
            return self.take_unmarked(step);
        }
        if begins_element(&step) {
            self.output.open(marked(step_mark(self.here)))?;
        }
        self.take_unmarked(step)?;
        if ends_element(&step) {
            self.output.close()?;
        }
        Ok(())
    }

    fn take_unmarked(&mut self, step: Step<'s>) -> Result<(), AllocError> {
        match step {
            Step::Text(text) => self.write_text(text),
            Step::Number(number) => self.write_number(number),
            Step::Label(label) => self.write_label(label),
            Step::Date(date) => self.write_date(date),
            Step::Names { names, end } => {
                let Some(in_use) = self.scene.program.names.get(names).copied() else {
                    return Ok(());
                };
                let has_substitute = end > self.next;
                if self.write_names(&in_use, has_substitute)? {
                    self.next = end;
                }
                Ok(())
            }
            Step::OpenSubstitute { names_at } => self.open_substitute(names_at),
            Step::CloseSubstitute { names_at } => self.close_substitute(names_at),
            Step::OpenGroup(group) => self.open(group_element(group), None),
            Step::OpenMacro(text) => self.open(text_element(text), called_place(text)),
            Step::CloseGroup => self.close_group(),
            Step::Choose { .. } => Ok(()),
            Step::Test { branch, otherwise } => {
                if !self.holds(branch)? {
                    self.next = otherwise;
                }
                Ok(())
            }
            Step::Leave { choose_at } => {
                self.next = self.scene.program.end_of(choose_at);
                Ok(())
            }
            Step::UnknownVariable => {
                self.call(false);
                Ok(())
            }
        }
    }

    /// The value of a text variable; of its form `short` the item's own short form, or else an
    /// abbreviation of the value, if there is one (CSL 1.0.2, "Text").
    pub(crate) fn text_value(
        &self,
        variable: TextVariable,
        is_short: bool,
    ) -> Result<Option<Value<'c>>, AllocError> {
        let whole = self.cite.text(variable);
        if !is_short {
            return Ok(whole.map(Value::Known));
        }
        if let Some(own) = self.cite.own_short_form(variable) {
            return Ok(Some(Value::Known(own)));
        }
        match (whole, self.scene.abbreviations) {
            (Some(whole), Some(abbreviations)) => {
                let alloc = self.alloc();
                let long = whole.plain(alloc)?;
                match abbreviations.short_form(alloc, variable, long.as_str())? {
                    Some(short) => Ok(Some(Value::Made(short.clone()?))),
                    None => Ok(Some(Value::Known(whole))),
                }
            }
            _ => Ok(whole.map(Value::Known)),
        }
    }

    /// The value of a number variable.
    pub(crate) fn number_value(
        &self,
        variable: NumberVariable,
    ) -> Result<Option<Value<'c>>, AllocError> {
        match (variable, &self.locator) {
            (NumberVariable::Locator, Some(locator)) => {
                Ok(Some(Value::Made(locator.text.clone()?)))
            }
            _ => self.cite.number(self.alloc(), variable),
        }
    }

    fn open(&mut self, element: Element<'s>, called: Option<StylePlace>) -> Result<(), AllocError> {
        self.frames.push(Frame {
            used_before: self.used.len(),
            names_before: self.names.len(),
            bytes_before: self.bytes,
            delimiter: element.delimiter.len(),
            is_changed: element.text_case.is_some() || element.strips_periods,
            called,
            ..Frame::NEW
        })?;
        self.output.open(element)
    }

    /// A variable is called in the innermost element that is open.
    pub(crate) fn call(&mut self, has_value: bool) {
        match self.frames.last_mut() {
            Some(frame) => frame.call(has_value),
            None => self.outermost.call(has_value),
        }
    }

    /// Adds what was called in an element that is closed now.
    fn add(&mut self, inner: Frame) {
        match self.frames.last_mut() {
            Some(frame) => frame.add(inner),
            None => self.outermost.add(inner),
        }
    }

    /// A variable is called that has a value.
    pub(crate) fn use_variable(&mut self, variable: Variable) -> Result<(), AllocError> {
        self.call(true);
        self.used.push(variable)?;
        Ok(())
    }

    /// Whether a variable has stood in for names.
    pub(crate) fn is_suppressed(&self, variable: Variable) -> bool {
        self.suppressed.contains(&variable)
    }

    /// Closes a group or a macro. One that has text counts as a variable with a value.
    fn close_group(&mut self) -> Result<(), AllocError> {
        let frame = self.frames.pop().unwrap_or(Frame::NEW);
        if frame.is_in_vain() {
            self.output.discard();
            self.call(false);
        } else if self.output.close()? {
            self.call(true);
        }
        Ok(())
    }

    /// Opens an element that may stand in for the names at this place among the steps, in their
    /// affixes and their formatting. In a cite it counts as names of nobody, by which cites are
    /// grouped; in an item as a name of nobody, which is replaced where it repeats.
    fn open_substitute(&mut self, names_at: usize) -> Result<(), AllocError> {
        let around = self.setting_of(names_at);
        let inside = self.scene.program.steps.get(self.here.saturating_add(1));
        let is_names = matches!(inside, Some(Step::Names { .. }));
        if is_names || matches!(self.scene.kind, SceneKind::Key(_)) {
            let marked = Element {
                mark: self.author_mark(),
                ..around
            };
            self.open(marked, None)?;
            return self.output.open(Element::PLAIN);
        }
        let alloc = self.alloc();
        let nobody = Mark::Names(self.names.len());
        self.names.push(Seq::new(Vec::new(alloc)))?;
        let (outer, inner) = match self.scene.kind {
            SceneKind::Item => (Some(nobody), Mark::Name(NameVariable::Author, 0)),
            SceneKind::Cite | SceneKind::Key(_) => (self.author_mark(), nobody),
        };
        let around = Element {
            mark: outer,
            ..around
        };
        self.open(around, None)?;
        self.output.open(marked(inner))
    }

    /// An element with the affixes and the formatting of the names at this place among the steps.
    fn setting_of(&self, names_at: usize) -> Element<'s> {
        let names = match self.scene.program.steps.get(names_at) {
            Some(Step::Names { names, .. }) => self.scene.program.names.get(*names),
            _ => None,
        };
        match names {
            Some(names) => element_with(names.affixes, names.formatting),
            None => Element::PLAIN,
        }
    }

    /// What marks, in a cite, all that is written for names, or that stands in for them.
    pub(crate) fn author_mark(&self) -> Option<Mark> {
        match self.scene.kind {
            SceneKind::Cite => Some(Mark::Author(self.here)),
            SceneKind::Item | SceneKind::Key(_) => None,
        }
    }

    /// Closes an element that may stand in for names. Where it has text, its variables are written
    /// nowhere else, and the elements after it don't stand in.
    fn close_substitute(&mut self, names_at: usize) -> Result<(), AllocError> {
        let frame = self.frames.pop().unwrap_or(Frame::NEW);
        self.add(frame);
        let has_names = self.names.len() > frame.names_before;
        self.close_marked(has_names)?;
        let is_item = matches!(self.scene.kind, SceneKind::Item);
        if !self.close_marked(has_names && is_item)? {
            return Ok(());
        }
        for variable in self.used.iter().skip(frame.used_before) {
            if !self.suppressed.contains(variable) {
                self.suppressed.push(*variable)?;
            }
        }
        self.call(true);
        self.next = self.scene.program.end_of(names_at);
        Ok(())
    }

    /// Closes an element that may stand in for names. Where names are inside it, these alone are
    /// marked.
    fn close_marked(&mut self, has_names: bool) -> Result<bool, AllocError> {
        if has_names {
            self.output.unmark();
        }
        self.output.close()
    }
}

/// Whether an element of the style begins with a step.
fn begins_element(step: &Step<'_>) -> bool {
    match step {
        Step::OpenSubstitute { .. } | Step::OpenGroup(_) | Step::OpenMacro(_) => true,
        _ => is_whole_element(step),
    }
}

/// Whether an element of the style ends with a step.
fn ends_element(step: &Step<'_>) -> bool {
    match step {
        Step::CloseSubstitute { .. } | Step::CloseGroup => true,
        _ => is_whole_element(step),
    }
}

/// Whether a step is all of an element that writes something.
fn is_whole_element(step: &Step<'_>) -> bool {
    match step {
        Step::Text(_) | Step::Number(_) | Step::Label(_) | Step::Date(_) => true,
        Step::Names { .. } => true,
        _ => false,
    }
}

fn marked(mark: Mark) -> Element<'static> {
    Element {
        mark: Some(mark),
        ..Element::PLAIN
    }
}

fn group_element(group: &Group) -> Element<'_> {
    Element {
        delimiter: group.delimiter.as_str(),
        display: group.display,
        ..element_with(&group.affixes, group.formatting)
    }
}

/// The element of a text.
pub(crate) fn text_element(text: &Text) -> Element<'_> {
    Element {
        has_quotes: text.quotes,
        display: text.display,
        text_case: text.text_case,
        strips_periods: text.strip_periods,
        ..element_with(&text.affixes, text.formatting)
    }
}
