//! Answers and what they cost.

use crate::asking::Driver;
use csl_base::entry::PlainEntry;
use csl_driver::account::Account;
use csl_driver::csl_account::CslAccount;
use csl_driver::error::{DriverError, FinishError};
use csl_driver::rendered::Rendered;
use csl_driver::request::BibliographyRequest;
use document_requests::rounds::Rounds;
use driver_writers::writer::CiteWriter;
use host_driver::drive::Driven;
use rounds_runs::mode::RoundMode;
use std::convert::Infallible;

/// How often a driver is called at most where works are disambiguated as CSL 1.0.2 has it.
const CSL_CALLS: usize = 10;

/// What an answer cost.
#[derive(Drop)]
pub enum Costs<'a> {
    /// The call doesn't say.
    Unknown,
    Rounds(Account<'a, PlainEntry>),
    Csl(CslAccount<'a, PlainEntry>),
}

/// An answer and what it cost.
pub type Answer<'a> = (Rendered, Costs<'a>);

/// A call of a driver that answers by the layouts of styles.
#[derive(Clone, Copy)]
pub enum Call {
    Finish,
    FinishCounted,
    FinishFull,
    FinishCsl,
}

/// The call that says what an answer in these rounds cost.
pub fn call_of(rounds: Rounds) -> Call {
    match rounds {
        Rounds::Mode(RoundMode::Three) => Call::FinishCounted,
        Rounds::Mode(RoundMode::Full) => Call::FinishFull,
        Rounds::Csl => Call::FinishCsl,
    }
}

fn name_of(call: Call) -> &'static str {
    match call {
        Call::Finish => "finish",
        Call::FinishCounted => "finish_counted",
        Call::FinishFull => "finish_full",
        Call::FinishCsl => "finish_csl",
    }
}

/// The answer of a driver by this call, which is named before.
pub fn finished<'a>(
    rt: &impl Eprint,
    driver: Driver<'a>,
    request: BibliographyRequest<'_, 'a, PlainEntry>,
    call: Call,
) -> Result<Answer<'a>, DriverError> {
    let _ = eprintln!(rt; "{}", name_of(call));
    match call {
        Call::Finish => Ok((driver.finish(request)?, Costs::Unknown)),
        Call::FinishCounted => {
            let (rendered, account) = driver.finish_counted(request)?;
            Ok((rendered, Costs::Rounds(account)))
        }
        Call::FinishFull => {
            let (rendered, account) = driver.finish_full(request)?;
            Ok((rendered, Costs::Rounds(account)))
        }
        Call::FinishCsl => {
            let (rendered, account) = driver.finish_csl(request)?;
            Ok((rendered, Costs::Csl(account)))
        }
    }
}

/// The answer of a driver in these rounds, as this writer writes.
pub fn finished_with<'a, W: CiteWriter<PlainEntry, Infallible>>(
    driver: Driver<'a>,
    request: BibliographyRequest<'_, 'a, PlainEntry>,
    rounds: Rounds,
    writer: &mut W,
) -> Result<Answer<'a>, FinishError<W::Error>> {
    match rounds {
        Rounds::Mode(mode) => {
            let (rendered, account) = driver.finish_with(request, mode, writer)?;
            Ok((rendered, Costs::Rounds(account)))
        }
        Rounds::Csl => {
            let (rendered, account) = driver.finish_csl_with(request, writer)?;
            Ok((rendered, Costs::Csl(account)))
        }
    }
}

/// What comes of a table in so many rounds.
pub fn in_rounds<'a>(driven: Driven<Account<'a, PlainEntry>>) -> Driven<Costs<'a>> {
    match driven {
        Driven::Answer(rendered, account) => Driven::Answer(rendered, Costs::Rounds(account)),
        Driven::Missing(missing) => Driven::Missing(missing),
    }
}

/// What comes of a table where works are disambiguated as CSL 1.0.2 has it.
pub fn in_csl<'a>(driven: Driven<CslAccount<'a, PlainEntry>>) -> Driven<Costs<'a>> {
    match driven {
        Driven::Answer(rendered, account) => Driven::Answer(rendered, Costs::Csl(account)),
        Driven::Missing(missing) => Driven::Missing(missing),
    }
}

/// How often a driver is called at most where the answer costs so much.
pub fn calls_at_most(costs: &Costs<'_>) -> usize {
    match costs {
        Costs::Rounds(account) => match usize::try_from(account.rounds) {
            Ok(rounds) => rounds.saturating_add(3),
            Err(_) => usize::MAX,
        },
        _ => CSL_CALLS,
    }
}

/// Whether two answers cost the same.
pub fn cost_the_same(one: &Costs<'_>, other: &Costs<'_>) -> bool {
    match (one, other) {
        (Costs::Rounds(one), Costs::Rounds(other)) => is_same_account(one, other),
        (Costs::Csl(one), Costs::Csl(other)) => is_same_csl_account(one, other),
        _ => false,
    }
}

/// Whether the answer cost what this account says.
pub fn has_account(costs: &Costs<'_>, account: &Account<'_, PlainEntry>) -> bool {
    match costs {
        Costs::Rounds(one) => is_same_account(one, account),
        _ => false,
    }
}

/// Whether it cost what this account says, where works are disambiguated as CSL 1.0.2 has it.
pub fn has_csl_account(costs: &Costs<'_>, account: &CslAccount<'_, PlainEntry>) -> bool {
    match costs {
        Costs::Csl(one) => is_same_csl_account(one, account),
        _ => false,
    }
}

fn is_same_account(one: &Account<'_, PlainEntry>, other: &Account<'_, PlainEntry>) -> bool {
    one.renders == other.renders
        && one.rounds == other.rounds
        && one.entries == other.entries
        && one.states == other.states
        && one.numbers == other.numbers
}

fn is_same_csl_account(
    one: &CslAccount<'_, PlainEntry>,
    other: &CslAccount<'_, PlainEntry>,
) -> bool {
    one.renders == other.renders
        && one.rounds == other.rounds
        && one.entries == other.entries
        && one.first_mentions == other.first_mentions
        && one.later_mentions == other.later_mentions
        && one.suffixes == other.suffixes
        && one.numbers == other.numbers
}
