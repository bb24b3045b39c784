//! What an answer cost, and why there is none, in words.

use csl_base::entry::{EntryLike, PlainEntry};
use csl_base::names::{DisambiguatedNameForm, NameDisambiguationProperties};
use csl_driver::account::Account;
use csl_driver::csl_account::CslAccount;
use csl_driver::error::{DriverError, RingLocation};
use csl_driver::state::DisambiguateState;
use mentions_groups::state::MentionState;

fn form_word(form: DisambiguatedNameForm) -> &'static str {
    match form {
        DisambiguatedNameForm::Count => "counted",
        DisambiguatedNameForm::Short => "family",
        DisambiguatedNameForm::LongInitialized => "initials",
        DisambiguatedNameForm::LongFull => "given",
    }
}

fn print_names(rt: &impl Print, names: &NameDisambiguationProperties) {
    let _ = print!(rt; "names");
    for form in names.forms.as_slice() {
        let _ = print!(rt; " {}", form_word(*form));
    }
}

/// Prints by what an entry is disambiguated.
pub(crate) fn print_state(rt: &impl Print, state: &DisambiguateState) {
    match state {
        DisambiguateState::None => {
            let _ = print!(rt; "nothing");
        }
        DisambiguateState::NameDisambiguation(names) => print_names(rt, names),
        DisambiguateState::Choose => {
            let _ = print!(rt; "choose");
        }
        DisambiguateState::YearSuffix(suffix) => {
            let _ = print!(rt; "suffix {suffix}");
        }
    }
}

/// Prints the renderings and the rounds, and of each entry its key, its number and what
/// disambiguates it.
pub fn print_account(rt: &impl Print, account: &Account<'_, PlainEntry>) {
    let _ = println!(rt; "renders {}, rounds {}", account.renders, account.rounds);
    for (place, entry) in account.entries.iter().enumerate() {
        if let (Some(number), Some(state)) = (
            account.numbers.get(place),
            account.states.get(place),
        ) {
            let _ = print!(rt; "{}: {number}, ", entry.key());
            print_state(rt, state);
            let _ = println!(rt; "");
        }
    }
}

/// Prints what disambiguates a mention.
fn print_mention(rt: &impl Print, state: &MentionState) {
    match (&state.names, state.chosen) {
        (Some(names), true) => {
            print_names(rt, names);
            let _ = print!(rt; " choose");
        }
        (Some(names), false) => print_names(rt, names),
        (None, true) => {
            let _ = print!(rt; "choose");
        }
        (None, false) => {
            let _ = print!(rt; "nothing");
        }
    }
}

/// Prints the suffix at the end of a line, if there is one.
fn print_suffix(rt: &impl Print, suffix: &Option<usize>) {
    match suffix {
        Some(suffix) => {
            let _ = println!(rt; ", suffix {suffix}");
        }
        None => {
            let _ = println!(rt; "");
        }
    }
}

/// Prints the renderings and the rounds, and of each entry its key, its number, what
/// disambiguates its mentions, and its suffix.
pub fn print_csl_account(rt: &impl Print, account: &CslAccount<'_, PlainEntry>) {
    let _ = println!(rt; "renders {}, rounds {}", account.renders, account.rounds);
    for (place, entry) in account.entries.iter().enumerate() {
        if let (Some(number), Some(first), Some(later), Some(suffix)) = (
            account.numbers.get(place),
            account.first_mentions.get(place),
            account.later_mentions.get(place),
            account.suffixes.get(place),
        ) {
            let _ = print!(rt; "{}: {number}, first ", entry.key());
            print_mention(rt, first);
            let _ = print!(rt; ", later ");
            print_mention(rt, later);
            print_suffix(rt, suffix);
        }
    }
}

/// Prints why there is no answer, but for lack of memory.
pub fn print_refusal(rt: &impl Print, error: &DriverError) {
    match error {
        DriverError::MacroRing {
            place: RingLocation::Request(request),
            macro_index,
        } => {
            let _ = println!(rt; "ring of macro {macro_index} in the style of request {request}");
        }
        DriverError::MacroRing {
            place: RingLocation::Bibliography,
            macro_index,
        } => {
            let _ = println!(rt; "ring of macro {macro_index} in the style of the bibliography");
        }
        DriverError::NumberOverflow => {
            let _ = println!(rt; "number overflow");
        }
        DriverError::OutOfMemory(_) => {}
    }
}
