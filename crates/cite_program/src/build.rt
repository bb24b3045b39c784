//! Programs are built.
use crate::program::{MOST_STEPS, NamesInUse, Program, ProgramError, Step};
use std::alloc::{AllocError, Global};
use style_file::choose::{Branch, Choose};
use style_file::element::{RenderingElement, Text, TextSource};
use style_file::formatting::Formatting;
use style_file::names::Names;
use style_file::style::Macro;

/// The program of these elements, with the macros of their style.
///
/// # Errors
///
/// `TooLong` where it would have more steps than `MOST_STEPS`; `OutOfMemory`.
pub fn program_of<'s>(
    alloc: Global,
    macros: &'s [Macro],
    elements: &'s [RenderingElement],
) -> Result<Program<'s>, ProgramError> {
    let mut builder = Builder {
        macros,
        program: Program {
            steps: Vec::new(alloc),
            names: Vec::new(alloc),
        },
        pending: Vec::new(alloc),
    };
    builder.put_off(Pending::Elements(elements, None))?;
    for _ in 0..MOST_PENDING {
        match builder.pending.pop() {
            Some(pending) => builder.go_on(pending)?,
            None => return Ok(builder.program),
        }
        if builder.program.steps.len() > MOST_STEPS {
            return Err(ProgramError::TooLong);
        }
    }
    Err(ProgramError::TooLong)
}

/// How often what is put off is taken up. An element takes three of it at most.
const MOST_PENDING: usize = 4 * MOST_STEPS;

/// A program that is being built.
#[derive(Drop)]
struct Builder<'s> {
    macros: &'s [Macro],
    program: Program<'s>,
    /// What is still to be added, the last first.
    pending: Vec<Pending<'s>>,
}

/// What is still to be added.
#[derive(Clone, Copy)]
enum Pending<'s> {
    /// Elements, which may stand in for names.
    Elements(&'s [RenderingElement], Option<NamesInUse<'s>>),
    /// Elements. Each may stand in for the names at this place among the steps.
    Substitutes(&'s [RenderingElement], NamesInUse<'s>, usize),
    Step(Step<'s>),
    /// Branches, and what is written otherwise, of the choice at this place.
    Branches {
        branches: &'s [Branch],
        otherwise: &'s [RenderingElement],
        around: Option<NamesInUse<'s>>,
        choose_at: usize,
    },
    /// The end of the branch whose test stands at this place.
    EndBranch {
        test_at: usize,
        choose_at: usize,
    },
    /// The end of the names or of the choice at this place.
    End(usize),
}

impl<'s> Builder<'s> {
    fn put_off(&mut self, pending: Pending<'s>) -> Result<(), AllocError> {
        self.pending.push(pending)?;
        Ok(())
    }

    fn add_step(&mut self, step: Step<'s>) -> Result<usize, AllocError> {
        let place = self.program.steps.len();
        self.program.steps.push(step)?;
        Ok(place)
    }

    fn go_on(&mut self, pending: Pending<'s>) -> Result<(), AllocError> {
        match pending {
            Pending::Elements(elements, around) => match elements {
                [first, rest @ ..] => {
                    self.put_off(Pending::Elements(rest, around))?;
                    self.add_element(first, around)
                }
                [] => Ok(()),
            },
            Pending::Substitutes(elements, names, names_at) => match elements {
                [first, rest @ ..] => {
                    self.put_off(Pending::Substitutes(rest, names, names_at))?;
                    self.put_off(Pending::Step(Step::CloseSubstitute { names_at }))?;
                    self.add_step(Step::OpenSubstitute { names_at })?;
                    self.add_element(first, Some(names))
                }
                [] => Ok(()),
            },
            Pending::Step(step) => {
                self.add_step(step)?;
                Ok(())
            }
            Pending::Branches {
                branches,
                otherwise,
                around,
                choose_at,
            } => self.add_branches(branches, otherwise, around, choose_at),
            Pending::EndBranch { test_at, choose_at } => {
                self.add_step(Step::Leave { choose_at })?;
                self.end_at(test_at);
                Ok(())
            }
            Pending::End(place) => {
                self.end_at(place);
                Ok(())
            }
        }
    }

    /// The step at this place leads to what comes next.
    fn end_at(&mut self, place: usize) {
        let here = self.program.steps.len();
        match self.program.steps.get_mut(place) {
            Some(Step::Names { end, .. }) => *end = here,
            Some(Step::Choose { end }) => *end = here,
            Some(Step::Test { otherwise, .. }) => *otherwise = here,
            _ => {}
        }
    }

    fn add_element(
        &mut self,
        element: &'s RenderingElement,
        around: Option<NamesInUse<'s>>,
    ) -> Result<(), AllocError> {
        let step = match element {
            RenderingElement::Text(text) => return self.add_text(text, around),
            RenderingElement::Number(number) => Step::Number(number),
            RenderingElement::Label(label) => Step::Label(label),
            RenderingElement::Date(date) => Step::Date(date),
            RenderingElement::Names(names) => return self.add_names(names, around),
            RenderingElement::Group(group) => {
                self.put_off(Pending::Step(Step::CloseGroup))?;
                self.put_off(Pending::Elements(&group.elements, around))?;
                Step::OpenGroup(group)
            }
            RenderingElement::Choose(choose) => return self.add_choose(choose, around),
            RenderingElement::UnknownVariable => Step::UnknownVariable,
        };
        self.add_step(step)?;
        Ok(())
    }

    fn add_text(
        &mut self,
        text: &'s Text,
        around: Option<NamesInUse<'s>>,
    ) -> Result<(), AllocError> {
        let TextSource::Macro(index) = &text.source else {
            self.add_step(Step::Text(text))?;
            return Ok(());
        };
        self.add_step(Step::OpenMacro(text))?;
        self.put_off(Pending::Step(Step::CloseGroup))?;
        let macros = self.macros;
        match macros.get(index.0) {
            Some(called) => self.put_off(Pending::Elements(&called.elements, around)),
            None => Ok(()),
        }
    }

    fn add_names(
        &mut self,
        names: &'s Names,
        around: Option<NamesInUse<'s>>,
    ) -> Result<(), AllocError> {
        let in_use = names_in_use(names, around);
        let place = self.program.names.len();
        self.program.names.push(in_use)?;
        let names_at = self.add_step(Step::Names {
            names: place,
            end: 0,
        })?;
        self.put_off(Pending::End(names_at))?;
        self.put_off(Pending::Substitutes(&names.substitute, in_use, names_at))
    }

    fn add_choose(
        &mut self,
        choose: &'s Choose,
        around: Option<NamesInUse<'s>>,
    ) -> Result<(), AllocError> {
        let choose_at = self.add_step(Step::Choose { end: 0 })?;
        self.put_off(Pending::Branches {
            branches: &choose.branches,
            otherwise: &choose.otherwise,
            around,
            choose_at,
        })
    }

    fn add_branches(
        &mut self,
        branches: &'s [Branch],
        otherwise: &'s [RenderingElement],
        around: Option<NamesInUse<'s>>,
        choose_at: usize,
    ) -> Result<(), AllocError> {
        let [first, rest @ ..] = branches else {
            self.put_off(Pending::End(choose_at))?;
            return self.put_off(Pending::Elements(otherwise, around));
        };
        let test_at = self.add_step(Step::Test {
            branch: first,
            otherwise: 0,
        })?;
        self.put_off(Pending::Branches {
            branches: rest,
            otherwise,
            around,
            choose_at,
        })?;
        self.put_off(Pending::EndBranch { test_at, choose_at })?;
        self.put_off(Pending::Elements(&first.elements, around))
    }
}

/// The names with what holds for them, where they may stand in for others.
fn names_in_use<'s>(names: &'s Names, around: Option<NamesInUse<'s>>) -> NamesInUse<'s> {
    let own = NamesInUse {
        variables: &names.variables,
        name: names.name.as_ref(),
        et_al: names.et_al,
        label: names.label.as_ref(),
        delimiter: names.delimiter.as_deref(),
        affixes: &names.affixes,
        formatting: names.formatting,
        display: names.display,
        is_substitute: around.is_some(),
        offset: names.offset,
    };
    match around {
        Some(outer) if is_bare(names) => NamesInUse {
            name: outer.name,
            et_al: outer.et_al,
            label: outer.label,
            delimiter: own.delimiter.or(outer.delimiter),
            formatting: over(outer.formatting, own.formatting),
            ..own
        },
        Some(outer) => NamesInUse {
            name: own.name.or(outer.name),
            et_al: own.et_al.or(outer.et_al),
            ..own
        },
        None => own,
    }
}

/// The formatting, with what is asked for in its place.
fn over(formatting: Formatting, asked: Formatting) -> Formatting {
    Formatting {
        font_style: asked.font_style.or(formatting.font_style),
        font_variant: asked.font_variant.or(formatting.font_variant),
        font_weight: asked.font_weight.or(formatting.font_weight),
        text_decoration: asked.text_decoration.or(formatting.text_decoration),
        vertical_align: asked.vertical_align.or(formatting.vertical_align),
    }
}

/// Whether an element has no children.
fn is_bare(names: &Names) -> bool {
    names.name.is_none()
        && names.et_al.is_none()
        && names.label.is_none()
        && names.substitute.is_empty()
}
