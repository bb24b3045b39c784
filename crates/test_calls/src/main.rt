//! Answers a document call by call, for what no document shows: what an answer cost and by what its
//! entries are disambiguated, where a ring stands, citations and passes by themselves, writers and
//! readers that fail, runs in which one growth of memory is refused, entries that count how often
//! they are asked, and answers from a table of what the styles write; and in its first style calls
//! of a writing context, and calls that render without a driver.
//!
//! The first line of standard input says what is done (a number: `run`, over a writer that fails
//! behind so many bytes), and the document follows; `cases` takes none. Before each call its name
//! is written to standard error, and at the end a line that says what was seen; the exit status
//! says that too. What was answered goes to standard output, and so does a line on what is amiss.
//!
//! What owns much is dropped by name and at one place: that is a call, where the end of a scope has
//! the proof go through all its parts.
#![tactic(auto)]

mod account;
mod answering;
mod asking;
mod by_table;
mod callers;
mod calls;
mod cites;
mod contexts;
mod costs;
mod counting;
mod equality;
mod filling;
mod hosting;
mod passes;
mod printing;
mod rings;
mod running;
mod streams;
mod taking;
mod ways;

use answering::answered;
use asking::Seen;
use callers::hold_cases;
use document_answer::error::RunError;
use document_answer::input::read_input;
use document_requests::document::utf8_text;
use running::{print_fault, read_slowly, written_out, written_until};
use std::process::ExitCode;
use ways::how_of;

/// Does what the first line says with the document behind it.
fn answer_to(rt: &(impl Print + Eprint + AllocGlobal), text: &str) -> Result<Seen, RunError> {
    let Some((asked, document)) = text.split_once('\n') else {
        return Err(RunError::Document);
    };
    if let Some(how) = how_of(asked) {
        return answered(rt, document, how);
    }
    match asked {
        "cases" => hold_cases(rt),
        "run" => written_out(rt, document),
        "slow" => read_slowly(rt, document, false),
        "slow and failing" => read_slowly(rt, document, true),
        _ => match asked.parse::<usize>() {
            Ok(left) => written_until(rt, document, left),
            Err(_) => Err(RunError::Document),
        },
    }
}

/// Reads what is asked, and answers it.
fn answer(rt: &(impl Input + Print + Eprint + AllocGlobal)) -> Result<Seen, RunError> {
    let _ = eprintln!(rt; "read");
    let bytes = read_input(rt.alloc(), &mut rt.reader())?;
    match bytes.as_slice().strip_prefix(b"fault\n") {
        Some(document) => print_fault(rt, document),
        None => answer_to(rt, utf8_text(rt.alloc(), &bytes)?),
    }
}

fn main(rt: HostRuntime) -> ExitCode {
    match answer(&rt) {
        Ok(Seen::Answer) => {
            let _ = eprintln!(rt; "the answer");
            ExitCode::SUCCESS
        }
        Ok(Seen::AnswerAtLast) => {
            let _ = eprintln!(rt; "the answer, after a request was handed in again");
            ExitCode::from(6)
        }
        Ok(Seen::Amiss(what)) => {
            let _ = println!(rt; "amiss: {what}");
            let _ = eprintln!(rt; "amiss: {what}");
            ExitCode::from(7)
        }
        Err(error) => {
            let _ = eprintln!(rt; "{error}");
            ExitCode::from(error.status())
        }
    }
}
