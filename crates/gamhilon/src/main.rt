//! `gamhilon` writes citations and bibliographies in styles of CSL 1.0.2, and answers documents.
//!
//! Where there is no answer, standard error gets one line that says why, and the exit status says
//! it too (`CommandError::status`). What is odd in a file that is read gets a line there as well.
#![tactic(auto)]

mod sessions;

use program_checks::{checking, documents};
use program_command::arguments::Command;
use program_command::error::UsageError;
use program_command::parsing::command_of;
use program_files::entries;
use program_files::error::CommandError;
use program_styles::sheet::STYLE_SHEET;
use program_subcommands::{commands, packaged};
use std::process::ExitCode;
use std::rt::{Env, Files};
use std::{env, io};

fn main(rt: HostRuntime) -> ExitCode {
    match run(&rt) {
        Ok(code) => code,
        Err(CommandError::ClosedPipe) => ExitCode::from(CommandError::ClosedPipe.status()),
        Err(error) => {
            let _ = eprintln!(rt; "{error}");
            ExitCode::from(error.status())
        }
    }
}

/// Does what the words of the command line say, and gives the exit status.
fn run(
    rt: &(impl Files + Env + Input + Print + Eprint + AllocGlobal + Clone + Drop),
) -> Result<ExitCode, CommandError> {
    match command(rt)? {
        Command::Show(text) => print!(rt; "{}", text.as_str())?,
        Command::Check(options) => return checking::check_all(rt, &options),
        Command::Cite(options) => commands::cite(rt, &options)?,
        Command::Bibliography(options) => commands::bibliography(rt, &options)?,
        Command::Explain(options) => commands::explain(rt, &options)?,
        Command::Entries(options) => entries::entries(rt, &options)?,
        Command::Render(options) => documents::render(rt, &options)?,
        Command::Session => sessions::answer_lines(rt)?,
        Command::StyleSheet => print!(rt; "{STYLE_SHEET}")?,
        Command::Styles(name) => packaged::show(rt, name.as_deref())?,
    }
    Ok(ExitCode::SUCCESS)
}

/// What the words of the command line ask for.
fn command(rt: &(impl Env + AllocGlobal)) -> Result<Command, CommandError> {
    match env::args(rt) {
        Ok(words) => {
            let words: Vec<String> = words.collect(rt.alloc())?;
            Ok(command_of(rt.alloc(), &words)?)
        }
        Err(error) if error.kind() == io::ErrorKind::OutOfMemory => Err(CommandError::OutOfMemory),
        Err(_) => Err(CommandError::Usage(UsageError::NoUtf8)),
    }
}
