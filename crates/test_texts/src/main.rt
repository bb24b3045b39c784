//! Calls the functions over texts, streams, locales, numbers and dates, and prints what each gives:
//! tests/texts/run.py runs it and compares.
//!
//! Each line of standard input is a call, `FUNCTION<TAB>ARGUMENT..`, for which a line is printed,
//! at once with all others. The exit status is 5 where memory is refused, and nothing is printed
//! then.
#![tactic(auto)]

mod locales;
mod said;
mod streams;
mod texts;
mod worded;

use cite_locale::chain::LocaleChain;
use locales::files;
use said::Said;
use std::alloc::{AllocError, Global};
use std::io;
use std::io::ErrorKind;
use std::process::ExitCode;
use style_file::locale::LocaleFile;

/// Has a function say what it gives, if it is one of so many arguments.
fn give(alloc: Global, files: &[LocaleFile], function: &str, args: &[&str], said: &mut Said) {
    match function {
        "pages" => texts::pages(alloc, args, said),
        "numeric" => texts::numeric(args, said),
        "numbers" => texts::numbers(alloc, args, said),
        "roman" => texts::roman_numeral(alloc, args, said),
        "initials" => texts::initials(alloc, args, said),
        "case" => texts::case(alloc, args, said),
        "language" => texts::language(args, said),
        "address" => texts::address(alloc, args, said),
        "begun" => texts::begun(args, said),
        "term-of" => worded::term_of(args, said),
        "plural" => worded::plural(args, said),
        "sorted" => worded::sorted(alloc, args, said),
        "date" => worded::date(alloc, files, args, said),
        _ => give_in_locale(alloc, files, function, args, said),
    }
}

/// The same of a function in the words of a locale, which its first argument names.
fn give_in_locale(
    alloc: Global,
    files: &[LocaleFile],
    function: &str,
    args: &[&str],
    said: &mut Said,
) {
    let [tag, args @ ..] = args else {
        return;
    };
    match LocaleChain::new(alloc, *tag, &[], files) {
        Ok(locales) => {
            give_in_words(alloc, &locales, function, args, said);
            drop(locales);
        }
        Err(_) => said.cut(),
    }
}

/// The same of a function in the words of these locales.
fn give_in_words(
    alloc: Global,
    locales: &LocaleChain<'_>,
    function: &str,
    args: &[&str],
    said: &mut Said,
) {
    match function {
        "rich" => streams::rich(alloc, locales, args, said),
        "plain" => streams::plain(alloc, locales, args, said),
        "written" => streams::written(alloc, locales, args, said),
        "term" => worded::term(locales, args, said),
        "number" => worded::number(alloc, locales, args, said),
        "page" => worded::page(alloc, locales, args, said),
        "locator" => worded::locator(alloc, locales, args, said),
        _ => {}
    }
}

/// The words of a call.
fn words(alloc: Global, call: &str) -> Result<Vec<&str>, AllocError> {
    let mut words = Vec::new(alloc);
    for word in call.split('\t') {
        words.push(word)?;
    }
    Ok(words)
}

/// Appends the line of a call.
fn call(alloc: Global, files: &[LocaleFile], line: &str, said: &mut Said) {
    match words(alloc, line) {
        Ok(words) => {
            if let [function, args @ ..] = words.as_slice() {
                give(alloc, files, *function, args, said);
            }
        }
        Err(_) => said.cut(),
    }
    said.close();
}

/// The lines of these calls.
fn answer(alloc: Global, files: &[LocaleFile], calls: &str) -> Said {
    let mut said = Said::new(alloc);
    for line in calls.lines() {
        call(alloc, files, line, &mut said);
    }
    said
}

/// What is printed of these calls.
fn answer_all(alloc: Global, calls: &str) -> Result<String, AllocError> {
    let files = files(alloc)?;
    let said = answer(alloc, &files, calls);
    drop(files);
    said.into_text()
}

/// Reads the calls, and answers them.
fn run(rt: &(impl Input + Print + AllocGlobal)) -> io::Result<()> {
    let calls = io::read_to_string(rt.alloc(), rt.reader())?;
    let text = answer_all(rt.alloc(), calls.as_str())?;
    print!(rt; "{text}")
}

fn main(rt: HostRuntime) -> ExitCode {
    match run(&rt) {
        Ok(()) => ExitCode::SUCCESS,
        Err(error) if error.kind() == ErrorKind::OutOfMemory => ExitCode::from(5),
        Err(_) => ExitCode::from(2),
    }
}
