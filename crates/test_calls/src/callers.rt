//! What callers learn of an answer by its laws alone, and what they do with values of their own.

use crate::asking::{Asking, Seen};
use csl_base::entry::PlainEntry;
use csl_driver::account::Account;
use document_answer::error::RunError;
use document_requests::rounds::Rounds;
use std::alloc::{AllocError, Global};
use std::convert::Infallible;
use test_callers::clients::{entry_of_number, hidden_between, letters_in_answer};
use test_callers::csl_clients::letters_in_csl_answer;
use test_callers::laws::{laws_of_answers, laws_of_values};
use test_callers::places::writes_at_lent_places;
use test_callers::stacks::shrinks_at_the_top;
use test_callers::values::{properties_are_compared, small_values};

/// The letters of two suffixes.
type Letters = Option<(String, String)>;

/// Prints the entry of each number, the numbers between the first and the last one, and the letters
/// of the first two entries; in the mode `csl` these letters alone.
pub fn print_callers<'e, 'f: 'e>(
    rt: &(impl Print + AllocGlobal),
    asking: Asking<'e, 'f>,
) -> Result<Seen, RunError> {
    let letters = match asking.document.job.rounds {
        Rounds::Mode(_) => {
            print_numbers(rt, asking)?;
            first_letters(rt.alloc(), asking)?
        }
        Rounds::Csl => csl_letters(rt.alloc(), asking)?,
    };
    print_letters(rt, &letters);
    Ok(Seen::Answer)
}

fn print_numbers<'e, 'f: 'e>(
    rt: &(impl Print + AllocGlobal),
    asking: Asking<'e, 'f>,
) -> Result<(), RunError> {
    let alloc = rt.alloc();
    let order = asking.order(alloc)?;
    let (driver, request) = asking.asked(alloc, &order)?;
    let (rendered, account) = driver.finish_counted(request)?;
    drop(rendered);
    print_entries(rt, &account, asking.document.job.offset);
    let printed = print_between(rt, &account);
    drop(account);
    Ok(printed?)
}

/// Prints the entry of each number up to the last one.
fn print_entries(rt: &impl Print, account: &Account<'_, PlainEntry>, offset: usize) {
    for number in 0..offset.saturating_add(account.entries.len()) {
        match entry_of_number(account, number) {
            Some(entry) => {
                let _ = println!(rt; "{number}: {}", entry.key.as_str());
            }
            None => {
                let _ = println!(rt; "{number}: none");
            }
        }
    }
}

/// Prints the numbers between those of the first and of the last entry.
fn print_between(
    rt: &(impl Print + AllocGlobal),
    account: &Account<'_, PlainEntry>,
) -> Result<(), AllocError> {
    if let (Some(first), Some(last)) = (account.numbers.first(), account.numbers.last()) {
        let between = hidden_between::<PlainEntry, Infallible>(rt.alloc(), *first, *last)?;
        let _ = print!(rt; "between {first} and {last}:");
        for number in &between {
            let _ = print!(rt; " {number}");
        }
        let _ = println!(rt; "");
    }
    Ok(())
}

/// The letters of the first two entries.
fn first_letters<'e, 'f: 'e>(alloc: Global, asking: Asking<'e, 'f>) -> Result<Letters, RunError> {
    let order = asking.order(alloc)?;
    let (driver, request) = asking.asked(alloc, &order)?;
    Ok(letters_in_answer(alloc, driver, request, 0, 1)?)
}

/// The same in the mode `csl`.
fn csl_letters<'e, 'f: 'e>(alloc: Global, asking: Asking<'e, 'f>) -> Result<Letters, RunError> {
    let order = asking.order(alloc)?;
    let (driver, request) = asking.asked(alloc, &order)?;
    let (account, letters) = letters_in_csl_answer(alloc, driver, request, 0, 1)?;
    drop(account);
    Ok(letters)
}

fn print_letters(rt: &impl Print, letters: &Letters) {
    match letters {
        Some((one, other)) => {
            let _ = println!(rt; "letters {one} and {other}");
        }
        None => {
            let _ = println!(rt; "no letters");
        }
    }
}

/// Calls laws, makes values of a caller's own, and prints of each case whether it is as it should
/// be.
pub fn hold_cases(rt: &(impl Print + AllocGlobal)) -> Result<Seen, RunError> {
    // (what their contracts say is proved)
    laws_of_answers();
    laws_of_values();
    let alloc = rt.alloc();
    let mut seen = Seen::Answer;
    for (name, holds) in [
        ("small_values", small_values()),
        ("properties_are_compared", properties_are_compared(alloc)?),
        ("writes_at_lent_places", writes_at_lent_places(alloc)?),
        ("shrinks_at_the_top", shrinks_at_the_top(alloc)?),
    ] {
        let words = if holds {
            "as it should be"
        } else {
            "not as it should be"
        };
        let _ = println!(rt; "{name}: {words}");
        if !holds {
            seen = Seen::Amiss("a case");
        }
    }
    Ok(seen)
}
