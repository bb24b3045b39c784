//! Styles and locales. For each file there is a line for each warning, with line, column and words;
//! then one with the MD5 digest of what the file says (as src/dump.rt has it), or with the line,
//! column and words of its fault.
use crate::dump::Dump;
use crate::locales::dump_locale_file;
use crate::style::{dump_dependent, dump_style};
use crate::task::Task;
use std::alloc::Global;
use style_elements::error::StyleError;
use style_elements::warning::Warning;
use style_file::style::StyleFile;
use style_reader::file::{CslFile, read_file};

/// Appends the lines of a file.
pub fn say(rt: &(impl Eprint + AllocGlobal), task: Task, file: &[u8], dump: &mut Dump) {
    match str::from_utf8(file) {
        Ok(text) => say_text(rt, task, text, dump),
        Err(_) => dump.cut(),
    }
}

fn say_text(rt: &(impl Eprint + AllocGlobal), task: Task, text: &str, dump: &mut Dump) {
    let outcome = read_file(rt.alloc(), text);
    task.tell(rt, "show");
    match outcome {
        Ok(read) => {
            dump_warnings(&read.1, dump);
            dump_or_digest(rt.alloc(), task, &read.0, dump);
            drop(read);
        }
        Err(error) => dump_error(&error, dump),
    }
}

/// 1 where a file is read.
pub fn count(alloc: Global, file: &[u8]) -> usize {
    match str::from_utf8(file) {
        Ok(text) => count_text(alloc, text),
        Err(_) => 0,
    }
}

fn count_text(alloc: Global, text: &str) -> usize {
    match read_file(alloc, text) {
        Ok(read) => {
            drop(read);
            1
        }
        Err(error) => {
            drop(error);
            0
        }
    }
}

fn dump_error(error: &StyleError, dump: &mut Dump) {
    dump.push_str("error ");
    match error {
        StyleError::Malformed(fault, place) => dump.place(place.line, place.column, fault),
        StyleError::Refused(fault, place) => dump.place(place.line, place.column, fault),
        StyleError::OutOfMemory => dump.cut(),
    }
    dump.close();
}

fn dump_warnings(warnings: &[Warning], dump: &mut Dump) {
    for warning in warnings {
        dump.push_str("warning ");
        dump.place(warning.place.line, warning.place.column, warning);
        dump.close();
    }
}

/// Appends what a file says, or the digest of that.
fn dump_or_digest(alloc: Global, task: Task, file: &CslFile, dump: &mut Dump) {
    if task == Task::Show {
        dump_file(file, dump);
    } else {
        dump_digest(alloc, file, dump);
    }
}

fn dump_digest(alloc: Global, file: &CslFile, dump: &mut Dump) {
    let mut said = Dump::new(alloc);
    dump_file(file, &mut said);
    dump.push_str("digest ");
    dump.digest(&said);
    dump.close();
}

/// Appends what a file says.
fn dump_file(file: &CslFile, dump: &mut Dump) {
    match file {
        CslFile::Style(StyleFile::Independent(style)) => dump_style(style, dump),
        CslFile::Style(StyleFile::Dependent(style)) => dump_dependent(style, dump),
        CslFile::Locale(locale) => dump_locale_file(locale, dump),
    }
}
