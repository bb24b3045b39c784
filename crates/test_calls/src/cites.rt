//! Calls that render a cite or a date without a driver, and copies of what they give and of what an
//! entry has, of each entry of a document; and a cite of an entry whose title has pieces of other
//! kinds. Its locator is a payload of the caller's own. Each is named before it is made.
ghost use Rattle.value_styles.specs.Ring.{HasNoRing};
ghost use Rattle.csl_writing.specs.ContextSource.{context_source};

use crate::equality::word;
use crate::printing::print_tree;
use crate::rings::ringless;
use csl_base::elem::ElemChildren;
use csl_base::entry::{Chunk, ChunkKind, ChunkedString, Person, PlainEntry};
use csl_base::locale::Locale;
use csl_base::seq::Seq;
use csl_base::style::IndependentStyle;
use csl_base::taxonomy::StandardVariable;
use csl_base::text::Text;
use csl_driver::year::write_year;
use csl_writing::counter::Renders;
use csl_writing::lookup::StyleContext;
use document_answer::error::RunError;
use driver_lookup::properties::CiteProperties;
use std::alloc::{AllocError, Global};
use test_callers::values::located;

type Properties = CiteProperties<'static, u32>;

/// Prints a cite of each entry in this style, its names once more, its date and its parts, and then
/// the cite of a title in pieces.
pub fn print_cites(
    rt: &(impl Print + Eprint + AllocGlobal),
    style: &IndependentStyle,
    files: &[Locale],
    entries: &[PlainEntry],
) -> Result<(), RunError> {
    let context = ringless(rt.alloc(), style, files)?;
    let properties = located(rt.alloc(), 7)?;
    let printed = print_each(rt, &context, entries, &properties);
    drop(properties);
    Ok(printed?)
}

fn print_each(
    rt: &(impl Print + Eprint + AllocGlobal),
    context: &StyleContext<'_>,
    entries: &[PlainEntry],
    properties: &Properties,
) -> Result<(), AllocError>
    requires { HasNoRing (context_source context.now).style.macros }
{
    for entry in entries {
        print_cite(rt, context, entry, properties)?;
        print_date(rt, context, entry, properties)?;
        print_parts(rt, entry)?;
    }
    print_pieces(rt, context, properties)
}

/// Prints a cite of the entry, and its names once more.
fn print_cite(
    rt: &(impl Print + Eprint + AllocGlobal),
    context: &StyleContext<'_>,
    entry: &PlainEntry,
    properties: &Properties,
) -> Result<(), AllocError>
    requires { HasNoRing (context_source context.now).style.macros }
{
    let _ = eprintln!(rt; "StyleContext::citation");
    let cite = cite_of(rt.alloc(), context, entry, properties)?;
    let _ = println!(rt; "cite: {cite}");
    let printed = print_names(rt, &cite);
    drop(cite);
    printed
}

/// The cite of the entry.
fn cite_of(
    alloc: Global,
    context: &StyleContext<'_>,
    entry: &PlainEntry,
    properties: &Properties,
) -> Result<ElemChildren, AllocError>
    requires { HasNoRing (context_source context.now).style.macros }
{
    let mut counter = Renders::new();
    context.citation(
        alloc,
        entry,
        properties,
        None,
        None,
        None,
        None,
        &mut counter,
    )
}

/// Prints the names of a tree from a copy of their element.
fn print_names(rt: &(impl Print + Eprint), tree: &ElemChildren) -> Result<(), AllocError> {
    if let Some(names) = tree.find_names() {
        let _ = eprintln!(rt; "Elem::clone");
        let copy = names.clone()?;
        let _ = println!(rt; "names: {}, {}", copy.children, word(copy == *names));
        drop(copy);
    }
    Ok(())
}

/// Prints the date of the entry.
fn print_date(
    rt: &(impl Print + Eprint + AllocGlobal),
    context: &StyleContext<'_>,
    entry: &PlainEntry,
    properties: &Properties,
) -> Result<(), AllocError> {
    let _ = eprintln!(rt; "date_replacement");
    let mut counter = Renders::new();
    let date = context.date_replacement(rt.alloc(), entry, properties, None, None, &mut counter)?;
    let _ = println!(rt; "date: {date}");
    drop(date);
    Ok(())
}

/// Prints the key of an entry, the initials of the persons of its first variable, its years, and
/// whether a copy of its first text is equal to it.
fn print_parts(
    rt: &(impl Print + Eprint + AllocGlobal),
    entry: &PlainEntry,
) -> Result<(), AllocError> {
    let _ = eprintln!(rt; "parts");
    print_key(rt, &entry.key)?;
    if let Some((_variable, persons)) = entry.names.as_slice().first() {
        print_initials(rt, persons.as_slice())?;
    }
    for (_variable, date) in entry.dates.as_slice() {
        print_year(rt, date.year)?;
    }
    match entry.texts.as_slice().first() {
        Some((_variable, text)) => print_copy(rt, text),
        None => Ok(()),
    }
}

/// Prints a copy of a key, with a mark behind it.
fn print_key(rt: &impl Print, key: &Text) -> Result<(), AllocError> {
    let mut copy = key.clone()?;
    copy.push_str("!")?;
    let key = copy.into_string()?;
    let _ = println!(rt; "key: {}", key.as_str());
    Ok(())
}

/// Prints the initials of each person.
fn print_initials(rt: &(impl Print + AllocGlobal), persons: &[Person]) -> Result<(), AllocError> {
    for person in persons {
        let initials = person.initials(rt.alloc())?;
        let _ = println!(rt; "initials: {}", initials.as_str());
    }
    Ok(())
}

/// Prints a year, as a whole and in short.
fn print_year(rt: &(impl Print + AllocGlobal), year: i32) -> Result<(), AllocError> {
    for short in [false, true] {
        let text = year_in_words(rt.alloc(), year, short)?;
        let _ = println!(rt; "year: {text}");
    }
    Ok(())
}

fn year_in_words(alloc: Global, year: i32, short: bool) -> Result<String, AllocError> {
    let mut text = String::new(alloc);
    match write_year(year, short, &mut text, "AD", "BC") {
        Ok(()) => Ok(text),
        Err(_) => Err(AllocError),
    }
}

/// Prints whether the copy of a text is equal to it, and how many pieces it has.
fn print_copy(rt: &impl Print, text: &ChunkedString) -> Result<(), AllocError> {
    let copy = text.clone()?;
    let is_equal = copy == *text;
    let ChunkedString(pieces) = copy;
    let _ = println!(rt;
        "text: {}, pieces {}",
        word(is_equal),
        pieces.into_vec().len()
    );
    Ok(())
}

/// Prints the cite of an entry whose title has pieces of other kinds.
fn print_pieces(
    rt: &(impl Print + Eprint + AllocGlobal),
    context: &StyleContext<'_>,
    properties: &Properties,
) -> Result<(), AllocError>
    requires { HasNoRing (context_source context.now).style.macros }
{
    let _ = eprintln!(rt; "pieces");
    let entry = titled(rt.alloc())?;
    let cite = cite_of(rt.alloc(), context, &entry, properties);
    drop(entry);
    print_tree(rt, cite?)
}

/// An entry that has a title alone.
fn titled(alloc: Global) -> Result<PlainEntry, AllocError> {
    let texts = vec![in alloc; (StandardVariable::Title, title(alloc)?)]?;
    Ok(PlainEntry {
        key: Text::new(String::new(alloc)),
        label: None,
        names: Seq::new(Vec::new(alloc)),
        dates: Seq::new(Vec::new(alloc)),
        texts: Seq::new(texts),
        numbers: Seq::new(Vec::new(alloc)),
    })
}

/// Text, verbatim text that begins with a comma, and a formula.
fn title(alloc: Global) -> Result<ChunkedString, AllocError> {
    let mut pieces = Vec::new(alloc);
    for (value, kind) in [
        ("a ", ChunkKind::Normal),
        (", b", ChunkKind::Verbatim),
        ("x", ChunkKind::Math),
    ] {
        pieces.push(piece(alloc, value, kind)?)?;
    }
    Ok(ChunkedString(Seq::new(pieces)))
}

fn piece(alloc: Global, value: &str, kind: ChunkKind) -> Result<Chunk, AllocError> {
    Ok(Chunk {
        value: Text::new(String::from_str(alloc, value)?),
        kind,
    })
}
