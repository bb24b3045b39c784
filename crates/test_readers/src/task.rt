//! What the argument asks for.
use std::rt::Env;
use std::{env, io};

/// What is done with documents.
#[derive(Clone, Copy, PartialEq, Eq)]
pub enum Task {
    /// Lines are printed, and digests in place of what has many.
    Digest,
    /// What a style file says is printed in place of its digest.
    Show,
    /// Each call is named before it is made.
    Calls,
    /// Only a number is printed: of the documents that are read, or of their references.
    Count,
    /// Only the number of documents that are JSON is printed.
    CountValues,
}

impl Task {
    /// Whether only a number is printed.
    pub fn is_count(self) -> bool {
        self == Task::Count || self == Task::CountValues
    }

    /// Names a call before it is made, where that is the task.
    pub fn tell(self, rt: &impl Eprint, call: &str) {
        if self == Task::Calls {
            let _ = eprintln!(rt; "{call}");
        }
    }
}

fn task_of(word: &str) -> Task {
    match word {
        "show" => Task::Show,
        "calls" => Task::Calls,
        "count" => Task::Count,
        "values" => Task::CountValues,
        _ => Task::Digest,
    }
}

/// The task that the first argument names.
pub fn asked_task(rt: &(impl Env + AllocGlobal)) -> io::Result<Task> {
    Ok(match env::args(rt)?.nth(1) {
        Some(word) => task_of(word.as_str()),
        None => Task::Digest,
    })
}
