//! Which element of the style each step of a program is of.
use cite_program::build::program_of;
use cite_program::program::{Program, ProgramError, Step};
use std::alloc::{AllocError, Global};
use style_file::element::TextSource;
use style_file::sections::Layout;
use style_file::style::{CslStyle, Macro};

/// An element of a style, and where its start tag begins in the text of the file.
#[derive(Clone, Copy)]
pub(crate) struct Origin {
    /// Its name in CSL.
    pub name: &'static str,
    pub offset: usize,
    /// The step of the innermost call of a macro around it.
    pub call: Option<usize>,
}

/// A macro that is called around an element.
#[derive(Clone, Copy)]
pub(crate) struct CalledMacro<'s> {
    pub name: &'s str,
    /// Where its start tag begins.
    pub offset: usize,
    /// Where the element begins that calls it.
    pub call_offset: usize,
    /// The step of the next call around it.
    pub around: Option<usize>,
}

/// The elements of the steps of a layout.
#[derive(Drop)]
pub struct Origins<'s> {
    macros: &'s [Macro],
    program: Program<'s>,
    layout: Origin,
    /// The origin of each step.
    steps: Vec<Origin>,
}

impl<'s> Origins<'s> {
    /// The elements of a layout of this style.
    ///
    /// # Errors
    ///
    /// `TooLong` where macros make the layout too long; `OutOfMemory`.
    pub fn of_layout(
        alloc: Global,
        style: &'s CslStyle,
        layout: &'s Layout,
    ) -> Result<Origins<'s>, ProgramError> {
        let macros = style.macros.as_slice();
        let program = program_of(alloc, macros, &layout.elements)?;
        let layout = Origin {
            name: "layout",
            offset: layout.offset,
            call: None,
        };
        let steps = origins_of(alloc, &program, layout)?;
        Ok(Origins {
            macros,
            program,
            layout,
            steps,
        })
    }

    /// The layout.
    pub(crate) fn layout(&self) -> Origin {
        self.layout
    }

    /// The element of the step at this place.
    pub(crate) fn of_step(&self, step: usize) -> Origin {
        self.steps.get(step).copied().unwrap_or(self.layout)
    }

    /// The macro that the step at this place calls, if it calls one.
    fn called_at(&self, step: usize) -> Option<CalledMacro<'s>> {
        let Some(Step::OpenMacro(text)) = self.program.steps.get(step) else {
            return None;
        };
        let TextSource::Macro(index) = &text.source else {
            return None;
        };
        let macros = self.macros;
        let called = macros.get(index.0)?;
        Some(CalledMacro {
            name: called.name.as_str(),
            offset: called.offset,
            call_offset: text.offset,
            around: self.of_step(step).call,
        })
    }

    /// The macros that are called around an element, the outermost first.
    ///
    /// # Errors
    ///
    /// Where memory is refused.
    pub(crate) fn macros_around(
        &self,
        alloc: Global,
        origin: Origin,
    ) -> Result<Vec<CalledMacro<'s>>, AllocError> {
        let mut macros = Vec::new(alloc);
        let mut call = origin.call;
        for _ in 0..self.macros.len() {
            let called = match call {
                Some(step) => self.called_at(step),
                None => None,
            };
            let Some(called) = called else {
                break;
            };
            macros.push(called)?;
            call = called.around;
        }
        macros.reverse();
        Ok(macros)
    }
}

/// The origin of each step of a program. Steps that write nothing have that of the layout.
fn origins_of(
    alloc: Global,
    program: &Program<'_>,
    layout: Origin,
) -> Result<Vec<Origin>, AllocError> {
    let mut steps = Vec::with_capacity(alloc, program.steps.len())?;
    let mut calls = OpenCalls {
        innermost: None,
        around: Vec::new(alloc),
    };
    for (place, step) in program.steps.iter().enumerate() {
        let (name, offset) = element_of(program, step).unwrap_or((layout.name, layout.offset));
        steps.push(Origin {
            name,
            offset,
            call: calls.innermost,
        })?;
        calls.take(place, step)?;
    }
    Ok(steps)
}

/// The name of the element that a step is of, and where it begins.
fn element_of(program: &Program<'_>, step: &Step<'_>) -> Option<(&'static str, usize)> {
    match step {
        Step::Text(text) | Step::OpenMacro(text) => Some(("text", text.offset)),
        Step::Number(number) => Some(("number", number.offset)),
        Step::Label(label) => Some(("label", label.offset)),
        Step::Date(date) => Some(("date", date.offset)),
        Step::OpenGroup(group) => Some(("group", group.offset)),
        Step::Names { names, .. } => names_at(program, *names),
        Step::OpenSubstitute { names_at: step } => match program.steps.get(*step) {
            Some(Step::Names { names, .. }) => names_at(program, *names),
            _ => None,
        },
        _ => None,
    }
}

fn names_at(program: &Program<'_>, place: usize) -> Option<(&'static str, usize)> {
    let names = program.names.get(place)?;
    Some(("names", names.offset))
}

/// The groups and macros that are open.
#[derive(Drop)]
struct OpenCalls {
    /// The step of the innermost call.
    innermost: Option<usize>,
    /// The innermost call around each group and macro that is open.
    around: Vec<Option<usize>>,
}

impl OpenCalls {
    fn take(&mut self, place: usize, step: &Step<'_>) -> Result<(), AllocError> {
        match step {
            Step::OpenGroup(_) => self.around.push(self.innermost)?,
            Step::OpenMacro(_) => {
                self.around.push(self.innermost)?;
                self.innermost = Some(place);
            }
            Step::CloseGroup => self.innermost = self.around.pop().unwrap_or(None),
            _ => {}
        }
        Ok(())
    }
}
