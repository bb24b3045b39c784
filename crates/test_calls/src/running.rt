//! Documents read and answered as the program does it, over streams that fail, and their faults.

use crate::asking::Seen;
use crate::streams::{Failing, Slow};
use document_answer::error::RunError;
use document_answer::faults::print_fault_bytes;
use document_answer::input::read_input;
use document_answer::running::run;
use document_requests::document::utf8_text;

/// How many bytes the text of a document takes at most that is written into memory.
const CAPACITY: usize = 65_536;

/// Prints what was written or read.
fn print_bytes(rt: &(impl Print + AllocGlobal), bytes: &[u8]) -> Result<Seen, RunError> {
    let _ = print!(rt; "{}", utf8_text(rt.alloc(), bytes)?);
    Ok(Seen::Answer)
}

/// Answers the document by `run`, into memory that is there.
fn written_into(
    rt: &(impl Print + Eprint + AllocGlobal),
    document: &str,
    out: &mut Vec<u8>,
) -> Result<Seen, RunError> {
    let _ = eprintln!(rt; "run");
    match run(rt.alloc(), document.as_bytes(), out) {
        Ok(()) => print_bytes(rt, out),
        Err(error) => {
            if out.is_empty() {
                Err(error)
            } else {
                Ok(Seen::Amiss("something was written"))
            }
        }
    }
}

/// Answers it by `run`, and prints what was written.
pub fn written_out(
    rt: &(impl Print + Eprint + AllocGlobal),
    document: &str,
) -> Result<Seen, RunError> {
    let _ = eprintln!(rt; "prepare");
    let mut out: Vec<u8> = Vec::with_capacity(rt.alloc(), CAPACITY)?;
    written_into(rt, document, &mut out)
}

/// Answers the document by `run`, over a writer that fails behind so many bytes, and prints what
/// went out.
pub fn written_until(
    rt: &(impl Print + AllocGlobal),
    document: &str,
    left: usize,
) -> Result<Seen, RunError> {
    let mut out = Failing {
        left,
        got: Vec::new(rt.alloc()),
    };
    let result = run(rt.alloc(), document.as_bytes(), &mut out);
    let Failing { left: _, got } = out;
    let seen = print_bytes(rt, &got)?;
    result?;
    Ok(seen)
}

/// Reads the document a byte at each read, to its end or to a failure there, and prints what was
/// read.
pub fn read_slowly(
    rt: &(impl Print + AllocGlobal),
    document: &str,
    fails: bool,
) -> Result<Seen, RunError> {
    let mut reader = Slow {
        rest: document.as_bytes(),
        fails,
    };
    let bytes = read_input(rt.alloc(), &mut reader)?;
    print_bytes(rt, &bytes)
}

/// Prints the fault of the document, or nothing where it has none.
pub fn print_fault(rt: &(impl Print + AllocGlobal), document: &[u8]) -> Result<Seen, RunError> {
    let _ = print!(rt; "{}", print_fault_bytes(rt.alloc(), document)?);
    Ok(Seen::Answer)
}
