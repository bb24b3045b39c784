//! Reads a document from standard input, and prints its citations and its bibliography.
//!
//! Where there is no answer, standard error gets one line that says why, and the exit status says
//! it too.
#![tactic(auto)]

use document_answer::error::RunError;
use document_answer::input::read_input;
use document_answer::running::run;
use std::io;
use std::process::ExitCode;

fn main(rt: HostRuntime) -> ExitCode {
    let result = match read_input(rt.alloc(), &mut rt.reader()) {
        Ok(bytes) => run(rt.alloc(), &bytes, &mut io::writer(&rt)),
        // a reading that fails is a failed input for whatever cause, lack of memory too
        Err(_) => Err(RunError::Output),
    };
    match result {
        Ok(()) => ExitCode::SUCCESS,
        Err(error) => {
            let _ = eprintln!(rt; "{error}");
            ExitCode::from(error.status())
        }
    }
}
