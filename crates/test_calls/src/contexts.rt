//! Calls of a writing context that no layout makes. The contract of each says what it writes; that
//! it succeeds is seen here.
ghost use Rattle.std.specs.Prelude.{◌≡◌, length};
ghost use Rattle.layout_context.specs.WritingState.{state};

use csl_base::elem::ElemChildren;
use csl_base::element::{Affixes, InheritableNameOptions};
use csl_base::entry::{Chunk, ChunkKind, ChunkedString};
use csl_base::seq::Seq;
use csl_base::style::IndependentStyle;
use csl_base::text::Text;
use csl_writing::lookup::StyleContext;
use driver_lookup::properties::CiteProperties;
use layout_context::context::Context;
use layout_context::writing::WritingContext;
use std::alloc::{AllocError, Global};
use std::convert::Infallible;
use std::fmt::Write;

/// What is written under a style: its name options are the entry too, as nothing asks for one.
type Writing<'a> = Context<'a, InheritableNameOptions, Infallible>;

/// What is written into it.
#[derive(Drop)]
struct Parts {
    formula: ChunkedString,
    affixes: Affixes,
}

/// A formula, and a pair of brackets.
fn some_parts(alloc: Global) -> Result<Parts, AllocError> {
    let chunk = Chunk {
        value: Text::new(String::from_str(alloc, "x")?),
        kind: ChunkKind::Math,
    };
    Ok(Parts {
        formula: ChunkedString(Seq::new(vec![in alloc; chunk]?)),
        affixes: Affixes {
            prefix: Some(String::from_str(alloc, "(")?),
            suffix: Some(String::from_str(alloc, ")")?),
        },
    })
}

/// A text, a formula, a link of it and a mark. Whether each is written.
fn push_children(context: &mut Writing<'_>, formula: &ChunkedString, url: String) -> bool
    requires { length (state context.old.writing).formats ≡ 1 }
    ensures { length (state context.new.writing).formats ≡ 1 }
{
    let is_text = context.write_str("A").is_ok();
    let is_formula = context.push_chunked(formula).is_ok();
    let is_link = context.push_link(formula, url).is_ok();
    let is_mark = context.push_transparent(2).is_ok();
    is_text && is_formula && is_link && is_mark
}

/// A text in quotes, and a space behind it that is there already. Whether each is written.
fn push_quoted(context: &mut Writing<'_>) -> bool
    requires { length (state context.old.writing).formats ≡ 1 }
    ensures { length (state context.new.writing).formats ≡ 1 }
{
    let is_opened = context.push_quotes().is_ok();
    let is_text = context.push_str("X").is_ok();
    let is_closed = context.pop_quotes().is_ok();
    context.may_pull_punctuation();
    let is_comma = context.push_str(",\u{a0}").is_ok();
    let is_space = context.ensure_space().is_ok();
    is_opened && is_text && is_closed && is_comma && is_space
}

/// A text in these affixes.
fn push_in_affixes(context: &mut Writing<'_>, affixes: &Affixes) -> Result<(), AllocError>
    requires { length (state context.old.writing).formats ≡ 1 }
    ensures { length (state context.new.writing).formats ≡ 1 }
{
    let prefix = context.writing.apply_prefix(affixes)?;
    let pushed = context.push_str("A");
    context.apply_suffix(affixes, prefix)?;
    pushed
}

/// Whether all of these are written.
fn push_all(alloc: Global, context: &mut Writing<'_>, parts: &Parts) -> bool
    requires { length (state context.old.writing).formats ≡ 1 }
    ensures { length (state context.new.writing).formats ≡ 1 }
{
    let Ok(url) = String::from_str(alloc, "u") else {
        return false;
    };
    let are_children = push_children(context, &parts.formula, url);
    let is_quoted = push_quoted(context);
    let is_in_affixes = push_in_affixes(context, &parts.affixes).is_ok();
    are_children && is_quoted && is_in_affixes
}

/// The tree of all that, written from nothing.
fn written(
    alloc: Global,
    style: &IndependentStyle,
    parts: &Parts,
) -> Result<ElemChildren, AllocError> {
    let options = &style.settings.options;
    let properties = CiteProperties::for_sorting(None, 0);
    let mut context: Writing<'_> = StyleContext::new(style, None, &[]).ctx(
        alloc, options, properties, options,
    )?;
    let are_pushed = push_all(alloc, &mut context, parts);
    let tree = context.writing.flush()?;
    if are_pushed {
        return Ok(tree);
    }
    drop(tree);
    Err(AllocError)
}

/// Pushes name options onto others, in a context of its own.
fn push_options(alloc: Global, style: &IndependentStyle) -> Result<(), AllocError> {
    let mut writing = WritingContext::new(alloc, &style.settings.options)?;
    let pushed = writing.push_name_options(&style.citation.name_options);
    drop(writing);
    pushed
}

/// Makes the calls of a context in this style, and prints what they write.
pub fn print_contexts(
    rt: &(impl Print + Eprint + AllocGlobal),
    style: &IndependentStyle,
) -> Result<(), AllocError> {
    let _ = eprintln!(rt; "context");
    push_options(rt.alloc(), style)?;
    let parts = some_parts(rt.alloc())?;
    let tree = written(rt.alloc(), style, &parts);
    drop(parts);
    let _ = println!(rt; "written: {}", tree?);
    Ok(())
}
