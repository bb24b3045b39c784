//! Reads documents with the readers of the tree and says what they are: the scripts of tests/xml,
//! tests/styles and tests/references run it.
//!
//! Standard input has documents, each behind a line with a letter (`x` for XML, `s` for a style or a
//! locale, `r` for references in CSL-JSON, `t` for BibTeX, `b` for BibLaTeX, `i` for RIS) and nine
//! digits, its length in bytes. What is said of each stands in src/xml.rt, src/styles.rt,
//! src/references.rt and src/entries.rt. The argument names the task (src/task.rt). All
//! is printed at once. The exit status is 5 where memory is refused, and nothing is printed then.
#![tactic(auto)]

ghost use Rattle.std.specs.Prelude.{◌<◌, length, IfSome};

mod dates;
mod dump;
mod elements;
mod entries;
mod locales;
mod names;
mod references;
mod sections;
mod style;
mod styles;
mod task;
mod xml;

use dump::Dump;
use entries::EntryForm;
use std::alloc::Global;
use std::io;
use std::io::{ErrorKind, Read};
use std::process::ExitCode;
use std::rt::Env;
use task::{Task, asked_task};

/// Which reader reads a document.
#[derive(Clone, Copy)]
enum Reader {
    Xml,
    Styles,
    References,
    Entries(EntryForm),
}

/// How many characters there are in the line before a document, but for its letter.
const HEAD: usize = 10;

/// The reader of the document with which the bytes begin.
fn next_reader(bytes: &[u8]) -> Reader {
    match bytes.first() {
        Some(b'x') => Reader::Xml,
        Some(b's') => Reader::Styles,
        Some(b't') => Reader::Entries(EntryForm::BibTex),
        Some(b'b') => Reader::Entries(EntryForm::BibLatex),
        Some(b'i') => Reader::Entries(EntryForm::Ris),
        _ => Reader::References,
    }
}

/// The document with which the bytes begin, behind its line, and the rest.
fn next_document(bytes: &[u8]) -> Option<(&[u8], &[u8])>
    ensures { IfSome result (λ p. length p.1.now < length bytes.now) }
{
    let (line, behind) = bytes.split_first()?.1.split_at_checked(HEAD)?;
    let length = str::from_utf8(line).ok()?.trim_end().parse::<usize>();
    behind.split_at_checked(length.ok()?)
}

/// Appends what is said of a document.
fn say(
    rt: &(impl Eprint + AllocGlobal),
    task: Task,
    reader: Reader,
    document: &[u8],
    dump: &mut Dump,
) {
    task.tell(rt, "read");
    match reader {
        Reader::Xml => xml::say(rt, task, document, dump),
        Reader::Styles => styles::say(rt, task, document, dump),
        Reader::References => references::say(rt, task, document, dump),
        Reader::Entries(form) => entries::say(rt, task, form, document, dump),
    }
}

/// How many of what is counted a document is or has.
fn count(alloc: Global, task: Task, reader: Reader, document: &[u8]) -> usize {
    match reader {
        Reader::Xml => xml::count(alloc, document),
        Reader::Styles => styles::count(alloc, document),
        Reader::References if task == Task::CountValues => {
            references::count_values(alloc, document)
        }
        Reader::References => references::count(alloc, document),
        Reader::Entries(form) => entries::count(alloc, form, document),
    }
}

/// What is printed of these documents.
fn answer(rt: &(impl Eprint + AllocGlobal), task: Task, documents: &[u8]) -> Dump {
    let mut dump = Dump::new(rt.alloc());
    let mut counted: usize = 0;
    let mut rest = documents;
    'documents: while let Some((document, behind)) = next_document(rest) {
        let reader = next_reader(rest);
        if task.is_count() {
            counted = counted.wrapping_add(count(rt.alloc(), task, reader, document));
        } else {
            say(rt, task, reader, document, &mut dump);
        }
        rest = behind;
    }
    if task.is_count() {
        dump.show(&counted);
        dump.close();
    }
    dump
}

/// Reads the argument and the input, and answers.
fn run(rt: &(impl Input + Print + Eprint + Env + AllocGlobal)) -> io::Result<()> {
    let task = asked_task(rt)?;
    let mut documents = Vec::new(rt.alloc());
    rt.reader().read_to_end(&mut documents)?;
    let text = answer(rt, task, &documents).into_text()?;
    print!(rt; "{text}")
}

fn main(rt: HostRuntime) -> ExitCode {
    match run(&rt) {
        Ok(()) => ExitCode::SUCCESS,
        Err(error) if error.kind() == ErrorKind::OutOfMemory => ExitCode::from(5),
        Err(_) => ExitCode::FAILURE,
    }
}
