//! Picking: what a layout writes, from left to right, apart from writing it.
ghost use Rattle.std.specs.Prelude.{◌≡◌, ℕ, ◌*◌, ◌<◌, OnOk, false};
ghost use Rattle.value_styles.specs.ElementView.{
  element_view,
  elements_view,
  branches_view,
  target_view,
  text_view,
  look,
};
ghost use Rattle.value_styles.specs.Element.{Name, macro_target};
ghost use Rattle.value_styles.specs.Weight.{weight_all_with, weight_branches_with};
ghost use Rattle.layout_picking.specs.Picked.{added};
ghost use Rattle.layout_picking.specs.PiecesView.{node_view, shape_look};
ghost use Rattle.layout_picking.specs.Pick.{
  Call,
  group_node,
  pick_all_with,
  pick_first_with,
  pick_layout,
  MacrosUnfold,
};
ghost use Rattle.layout_picking.specs.Nodes.{macro_closed};
ghost use Rattle.layout_picking.specs.Quiet.{Keeps, IsQuiet, IsOpened};
ghost use Rattle.layout_picking.specs.Work.{step_view, done, inside_done, Fits, weight, step_work};
ghost use Rattle.layout_picking.specs.Walk.{
  env_in,
  calls_in,
  plain_in,
  text_of,
  walk,
  WalkGoesOn,
  TakesElement,
};
ghost use Rattle.layout_picking.specs.HeldView.{held};
ghost use Rattle.layout_picking.specs.InputView.{env_of, macros_in};

use crate::choices::passes;
use crate::held::{Opened, Picking};
use crate::input::Input;
use crate::names::pick_names;
use crate::notes::Notes;
use crate::pieces::{Node, Shape};
use crate::quiet::{QuietMacros, Seen};
use crate::variables::{pick_date, pick_meant, pick_words};
use csl_base::element::{Affixes, ChooseBranch, LayoutRenderingElement, TextTarget};
use csl_base::entry::EntryLike;
use csl_base::formatting::{Display, StyleFormatting};
use csl_base::taxonomy::Variable;
use std::alloc::AllocError;

// How deep elements and macros nest before the list of steps grows.
const DEPTH: usize = 8;

// The node of a group.
fn group_node<'a>(
    affixes: &'a Affixes,
    formatting: StyleFormatting,
    display: Option<Display>,
    delimiter: &'a Option<String>,
) -> Node<'a>
    ensures { node_view result
        ≡ group_node (look affixes.now formatting display) (text_view delimiter.now) }
{
    let delimiter = delimiter.as_deref();
    Node {
        affixes: Some(affixes),
        formatting,
        display,
        quotes: false,
        strip_periods: false,
        delimiter,
        meta: None,
    }
}

// The shape of an element that has neither quotes nor stripped periods.
fn plain_shape<'a>(
    affixes: &'a Affixes,
    formatting: StyleFormatting,
    display: Option<Display>,
) -> Shape<'a>
    ensures look { shape_look result ≡ look affixes.now formatting display }
    ensures quotes { result.quotes ≡ false }
    ensures strip_periods { result.strip_periods ≡ false }
{
    Shape {
        affixes,
        formatting,
        display,
        quotes: false,
        strip_periods: false,
    }
}

/// The call of a macro, and what was noted before it.
#[derive(Clone, Copy)]
struct OpenMacro<'a> {
    name: &'a str,
    depth: usize,
    seen: Seen,
    opened: Opened,
}

/// A step that is still to be done.
#[derive(Drop)]
enum Step<'a> {
    /// These elements are to be picked, with macros nested at most so deep.
    Elements(&'a [LayoutRenderingElement], usize),
    CloseGroup(Opened),
    CloseMacro(OpenMacro<'a>),
}

// Picks a number, a date or names, and nothing of any other element.
fn pick_plain<'a, T: EntryLike>(
    input: &Input<'a, T>,
    element: &'a LayoutRenderingElement,
    picking: &mut Picking<'a>,
) -> Result<(), AllocError>
    ensures { OnOk result
        (held picking.new ≡ plain_in T.answers input.now element.now (held picking.old)) }
{
    match element {
        LayoutRenderingElement::Number {
            variable,
            affixes,
            formatting,
            display,
        } => {
            let shape = plain_shape(affixes, *formatting, *display);
            pick_meant(input, Variable::Number(*variable), shape, picking)
        }
        LayoutRenderingElement::Date {
            variable,
            affixes,
            formatting,
            display,
        } => {
            let shape = plain_shape(affixes, *formatting, *display);
            pick_date(input, *variable, shape, picking)
        }
        LayoutRenderingElement::Names {
            variables,
            substitute,
            options,
            affixes,
            formatting,
            display,
        } => {
            let shape = plain_shape(affixes, *formatting, *display);
            pick_names(input, variables, substitute, options, shape, picking)
        }
        _ => Ok(()),
    }
}

// The children of the first branch whose test holds, else the last part. All conditions of each
// branch that is reached are tested.
fn chosen_children<'a, T: EntryLike>(
    input: &Input<'a, T>,
    branches: &'a [ChooseBranch],
    otherwise: &'a [LayoutRenderingElement],
    notes: &mut Notes,
) -> &'a [LayoutRenderingElement]
    ensures chosen { let env = env_in T.answers input.now in (call : Call)
        → pick_first_with env call (branches_view branches.now otherwise.now) notes.old
        ≡ pick_all_with env call (elements_view result.now) notes.new }
    ensures keeps { Keeps notes.old notes.new }
    ensures lighter { (call : Name → ℕ)
        → weight_all_with call (elements_view result.now)
        < weight_branches_with call (branches_view branches.now otherwise.now) }
{
    for branch in branches {
        if passes(input, &branch.conditions, branch.rule, notes) {
            return &branch.children;
        }
    }
    otherwise
}

// Adds the steps of a group or a choice, and none of any other element.
fn step_inside<'a, T: EntryLike>(
    input: &Input<'a, T>,
    element: &'a LayoutRenderingElement,
    depth: usize,
    steps: &mut Vec<Step<'a>>,
    picking: &mut Picking<'a>,
) -> Result<(), AllocError>
    ensures steps { let env = env_in T.answers input.now in let ms = macros_in input.now.setting in
        let e = element_view element.now in
        OnOk result (WalkGoesOn env ms (2 * weight ms depth e)
        (walk steps.old.items (inside_done env ms depth e (held picking.old)))
        (walk steps.new.items (held picking.new))) }
    ensures keeps { OnOk result (Keeps picking.old.notes picking.new.notes) }
{
    match element {
        LayoutRenderingElement::Group {
            children,
            delimiter,
            affixes,
            formatting,
            display,
        } => {
            let opened = picking.open(group_node(affixes, *formatting, *display, delimiter))?;
            steps.push(Step::CloseGroup(opened))?;
            steps.push(Step::Elements(children.as_slice(), depth))?;
            Ok(())
        }
        LayoutRenderingElement::Choose {
            branches,
            otherwise,
        } => {
            let children = chosen_children(input, branches, otherwise, &mut picking.notes);
            steps.push(Step::Elements(children, depth))?;
            Ok(())
        }
        _ => Ok(()),
    }
}

// Adds the steps of a macro's call; none where there is no such macro, or where it is known to give
// nothing.
fn step_macro<'a, T: EntryLike>(
    input: &Input<'a, T>,
    name: &'a str,
    shape: Shape<'a>,
    depth: usize,
    steps: &mut Vec<Step<'a>>,
    quiet: &QuietMacros<'a>,
    picking: &mut Picking<'a>,
) -> Result<(), AllocError>
    requires { IsQuiet (calls_in T.answers input.now) quiet.now picking.old.notes }
    ensures steps { let e = text_of (macro_target name.now) shape.entry in
        OnOk result (TakesElement (env_in T.answers input.now) (macros_in input.now.setting) depth e
        (walk steps.old.items (held picking.old)) (walk steps.new.items (held picking.new))) }
    ensures same { OnOk result (picking.new.notes ≡ picking.old.notes) }
{
    if depth == 0 {
        return Ok(());
    }
    if let Some(called) = quiet.called(name, depth, &picking.notes) {
        picking.called = picking.called.and(called);
        return Ok(());
    }
    match input.setting.context.body_of(name) {
        None => Ok(()),
        Some(elements) => {
            let seen = Seen::of(&picking.notes);
            let opened = picking.open(shape.node(None))?;
            let call = OpenMacro {
                name,
                depth,
                seen,
                opened,
            };
            steps.push(Step::CloseMacro(call))?;
            steps.push(Step::Elements(elements, depth - 1))?;
            Ok(())
        }
    }
}

// Picks a text, or adds the steps of the macro that it calls.
fn take_text<'a, T: EntryLike>(
    input: &Input<'a, T>,
    target: &'a TextTarget,
    shape: Shape<'a>,
    depth: usize,
    steps: &mut Vec<Step<'a>>,
    quiet: &QuietMacros<'a>,
    picking: &mut Picking<'a>,
) -> Result<(), AllocError>
    requires { IsQuiet (calls_in T.answers input.now) quiet.now picking.old.notes }
    ensures steps { let e = text_of (target_view target.now) shape.entry in
        OnOk result (TakesElement (env_in T.answers input.now) (macros_in input.now.setting) depth e
        (walk steps.old.items (held picking.old)) (walk steps.new.items (held picking.new))) }
    ensures keeps { OnOk result (Keeps picking.old.notes picking.new.notes) }
{
    match target {
        TextTarget::Value(text) => pick_words(&input.setting, Some(text.as_str()), shape, picking),
        TextTarget::Term(name, form, plural) => {
            let words = input.setting.term(*name, *form, *plural);
            pick_words(&input.setting, words, shape, picking)
        }
        TextTarget::Standard(variable) => {
            pick_meant(input, Variable::Standard(*variable), shape, picking)
        }
        TextTarget::Macro(name) => {
            step_macro(input, name.as_str(), shape, depth, steps, quiet, picking)
        }
    }
}

// Picks an element, or adds the steps that do.
fn take_element<'a, T: EntryLike>(
    input: &Input<'a, T>,
    element: &'a LayoutRenderingElement,
    depth: usize,
    steps: &mut Vec<Step<'a>>,
    quiet: &QuietMacros<'a>,
    picking: &mut Picking<'a>,
) -> Result<(), AllocError>
    requires { IsQuiet (calls_in T.answers input.now) quiet.now picking.old.notes }
    ensures steps { let e = element_view element.now in
        OnOk result (TakesElement (env_in T.answers input.now) (macros_in input.now.setting) depth e
        (walk steps.old.items (held picking.old)) (walk steps.new.items (held picking.new))) }
    ensures keeps { OnOk result (Keeps picking.old.notes picking.new.notes) }
{
    match element {
        LayoutRenderingElement::Text {
            target,
            quotes,
            strip_periods,
            affixes,
            formatting,
            display,
        } => {
            let shape = Shape {
                quotes: *quotes,
                strip_periods: *strip_periods,
                ..plain_shape(affixes, *formatting, *display)
            };
            take_text(input, target, shape, depth, steps, quiet, picking)
        }
        LayoutRenderingElement::Number { .. }
        | LayoutRenderingElement::Date { .. }
        | LayoutRenderingElement::Names { .. } => pick_plain(input, element, picking),
        LayoutRenderingElement::Group { .. } | LayoutRenderingElement::Choose { .. } => {
            step_inside(input, element, depth, steps, picking)
        }
    }
}

// Remembers a macro that gave nothing and noted nothing.
fn remember<'a>(
    call: OpenMacro<'a>,
    quiet: &mut QuietMacros<'a>,
    picking: &Picking<'a>,
) -> Result<(), AllocError>
    ensures { OnOk result ((calls : ℕ → Call)
        → IsOpened calls call.entry.name.now call.entry.depth call.entry.seen call.entry.opened
        (held picking.now) → IsQuiet calls quiet.old picking.now.notes
        → IsQuiet calls quiet.new picking.now.notes) }
{
    if !picking.is_empty_node(call.opened) || !call.seen.is_of(&picking.notes) {
        return Ok(());
    }
    quiet.add(call.name, call.depth, picking.called, &picking.notes)?;
    Ok(())
}

// Closes a macro.
fn close_macro<'a>(
    call: OpenMacro<'a>,
    quiet: &mut QuietMacros<'a>,
    picking: &mut Picking<'a>,
) -> Result<(), AllocError>
    ensures done { OnOk result
        (held picking.new ≡ macro_closed call.entry.opened (held picking.old)) }
    ensures quiet { OnOk result ((calls : ℕ → Call)
        → IsOpened calls call.entry.name.now call.entry.depth call.entry.seen call.entry.opened
        (held picking.old) → IsQuiet calls quiet.old picking.old.notes
        → IsQuiet calls quiet.new picking.new.notes) }
{
    remember(call, quiet, picking)?;
    picking.close_macro(call.opened)?;
    Ok(())
}

// Does one step, which may add others.
fn take_step<'a, T: EntryLike>(
    input: &Input<'a, T>,
    step: Step<'a>,
    steps: &mut Vec<Step<'a>>,
    quiet: &mut QuietMacros<'a>,
    picking: &mut Picking<'a>,
) -> Result<(), AllocError>
    requires quiet { IsQuiet (calls_in T.answers input.now) quiet.old picking.old.notes }
    requires fits { Fits (calls_in T.answers input.now) (step_view step) (held picking.old) }
    ensures steps { let env = env_in T.answers input.now in let ms = macros_in input.now.setting in
        let x = step_view step.entry in
        OnOk result (WalkGoesOn env ms (step_work ms x)
        (walk steps.old.items (done env ms x (held picking.old)))
        (walk steps.new.items (held picking.new))) }
    ensures quiet { OnOk result
        (IsQuiet (calls_in T.answers input.now) quiet.new picking.new.notes) }
{
    match step {
        Step::Elements(elements, depth) => {
            if let Some((element, rest)) = elements.split_first() {
                steps.push(Step::Elements(rest, depth))?;
                take_element(input, element, depth, steps, quiet, picking)?;
            }
            Ok(())
        }
        Step::CloseGroup(opened) => picking.close_group(opened),
        Step::CloseMacro(call) => close_macro(call, quiet, picking),
    }
}

/// A law: in a style without a ring each call of a macro gives what its first macro's children
/// give (CSL 1.0.2, macro).
#[tactic(auto, using(crate::proofs::Nesting::macros_unfold))]
pub fn macros_unfold()
    ensures { MacrosUnfold }
{}

/// What a layout gives, behind what is picked already. Elements and macros may nest as deep as
/// memory allows.
///
/// # Errors
///
/// Where memory is refused; the picking may then only be dropped.
pub fn pick_layout<'a, T: EntryLike>(
    input: &Input<'a, T>,
    elements: &'a [LayoutRenderingElement],
    picking: &mut Picking<'a>,
) -> Result<(), AllocError>
    ensures { let env = env_of (T.answers input.now.entry.now) input.now.setting in
        OnOk result (held picking.new
        ≡ added (pick_layout env (macros_in input.now.setting) (elements_view elements.now)
        (held picking.old).noted) (held picking.old)) }
{
    let depth = input.setting.context.style.macros.len();
    let alloc = *picking.pieces.allocator();
    let mut quiet = QuietMacros::new(alloc, &picking.notes);
    let mut steps = Vec::with_capacity(alloc, DEPTH)?;
    steps.push(Step::Elements(elements, depth))?;
    while let Some(step) = steps.pop() {
        take_step(input, step, &mut steps, &mut quiet, picking)?;
    }
    Ok(())
}
