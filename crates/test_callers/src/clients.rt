//! Callers that rely on the laws of an answer, and on nothing that says how it is made.
ghost use Rattle.std.specs.Prelude.{
  ◌≡◌,
  ◌≢◌,
  ◌+◌,
  ◌≤◌,
  ◌<◌,
  Bool,
  IfOk,
  IfSome,
  IsSome,
  List,
  Some,
  ℕ,
  length,
  map,
  nat_eq,
  option_and_then,
  position,
  slice_get,
  string_bytes,
};
ghost use Rattle.driver_assembly.specs.declared.rendered.Rendered.{Rendered};
ghost use Rattle.csl_driver.specs.Answer.{Job};
ghost use Rattle.csl_driver.specs.AnswerLaws.{HaveNumbersOnce, KeepsLaws};
ghost use Rattle.driver_lookup.specs.Between.{between};
ghost use Rattle.driver_lookup.specs.States.{year_suffix};
ghost use Rattle.driver_lookup.specs.SuffixLetters.{suffix_letters};
ghost use Rattle.rounds_runs.specs.declared.mode.RoundMode.{RoundMode};
ghost use Rattle.test_callers.specs.Clients.{AreHiddenBetween, GotLetters, StandAtOnePlace};
ghost use Rattle.csl_writing.specs.LayoutWriting.{layout_writing};

use csl_base::entry::EntryLike;
use csl_driver::account::Account;
use csl_driver::driver::BibliographyDriver;
use csl_driver::error::DriverError;
use csl_driver::request::BibliographyRequest;
use csl_driver::state::DisambiguateState;
use csl_driver::year::letters_of_suffix;
use csl_writing::laws::suffixes_differ;
use std::alloc::{AllocError, Global};

/// The place of the first of the numbers that is this one.
fn place_of(numbers: &[usize], number: usize) -> Option<usize>
    ensures { result ≡ position (nat_eq number) numbers.now }
{
    numbers.iter().position(|each| *each == number)
}

/// The entry of an account that has this number; none where no entry has it. In the account of an
/// answer each number from the offset on, as many as there are entries, is that of an entry.
pub fn entry_of_number<'a, T: EntryLike>(account: &Account<'a, T>, number: usize) -> Option<&'a T>
    ensures own { IfSome result (λ e. StandAtOnePlace account.now e.now number) }
    ensures each { (offset : ℕ)
        → HaveNumbersOnce T.eq offset (map (λ e. e.now) account.now.entries.items)
        account.now.numbers.items
        → offset ≤ number → number < offset + length account.now.entries.items → IsSome result }
{
    let place = place_of(&account.numbers, number)?;
    if place < account.entries.len() {
        return Some(account.entries[place]);
    }
    None
}

/// The numbers strictly between two.
fn numbers_between(alloc: Global, first: usize, last: usize) -> Result<Vec<usize>, AllocError>
    ensures { IfOk result (λ v. v.items ≡ between first last) }
{
    let mut numbers = Vec::new(alloc);
    if last <= first {
        return Ok(numbers);
    }
    for number in first + 1..last {
        numbers.push(number)?;
    }
    Ok(numbers)
}

/// The numbers that a reader finds between two shown numbers that collapsing drew together, by
/// these two alone.
///
/// # Errors
/// Where memory is refused.
pub fn hidden_between<T, P>(
    alloc: Global,
    first: usize,
    last: usize,
) -> Result<Vec<usize>, AllocError>
    ensures { IfOk result (λ v. AreHiddenBetween T P first last v.items) }
{
    let numbers = numbers_between(alloc, first, last)?;
    Ok(numbers)
}

/// The suffix of a state, where it is one.
fn suffix_at(states: &[DisambiguateState], place: usize) -> Option<usize>
    ensures { result ≡ option_and_then year_suffix (slice_get states.now place) }
{
    match states.get(place)? {
        DisambiguateState::YearSuffix(suffix) => Some(*suffix),
        _ => None,
    }
}

/// The letters of the suffixes that the entries at two places of an account have; none where one of
/// them has no suffix. In the account of an answer each got its suffix in a round, in a group of
/// cites that read alike; where they got them in one group of one round the letters differ.
///
/// # Errors
/// Where memory is refused.
pub fn letters_of_two<'a, T: EntryLike, P: Eq>(
    alloc: Global,
    account: &Account<'a, T>,
    first: usize,
    second: usize,
) -> Result<Option<(String, String)>, AllocError>
    ensures got { IfOk result (λ o. IfSome o (λ letters.
        (mode : RoundMode) (asked : Job T P) (rendered : Rendered)
        (laws : KeepsLaws T.eq P.eq (layout_writing T.answers) mode asked (rendered, account.now))
        → GotLetters T.eq P.eq (layout_writing T.answers) mode asked (rendered, account.now) laws
        first second (string_bytes letters.0) (string_bytes letters.1))) }
{
    suffixes_differ();
    match (
        suffix_at(&account.states, first),
        suffix_at(&account.states, second),
    ) {
        (Some(one), Some(other)) => Ok(Some((
            letters_of_suffix(alloc, one)?,
            letters_of_suffix(alloc, other)?,
        ))),
        _ => Ok(None),
    }
}

/// The letters of the entries at two places of the account of an answer. Where one round marked
/// they differ; where more marked, or one of the entries has none, no letters are given.
///
/// # Errors
/// Those of `finish_counted`, and where memory is refused.
pub fn letters_in_answer<'a, T: EntryLike, P: Eq + Drop>(
    alloc: Global,
    driver: BibliographyDriver<'a, T, P>,
    request: BibliographyRequest<'_, 'a, T>,
    first: usize,
    second: usize,
) -> Result<Option<(String, String)>, DriverError>
    requires { first ≢ second }
    ensures { IfOk result
        (λ o. IfSome o (λ letters. string_bytes letters.0 ≢ string_bytes letters.1)) }
{
    let (rendered, account) = driver.finish_counted(request)?;
    drop(rendered);
    if account.rounds != 1 {
        drop(account);
        return Ok(None);
    }
    let letters = letters_of_two::<T, P>(alloc, &account, first, second)?;
    drop(account);
    Ok(letters)
}
