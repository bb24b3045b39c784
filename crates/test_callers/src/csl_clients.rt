//! Callers that rely on the laws of an answer in which works are disambiguated as CSL 1.0.2 has it,
//! and on nothing that says how it is made.
ghost use Rattle.std.specs.Prelude.{◌≡◌, ◌||◌, IfOk, true};
ghost use Rattle.driver_assembly.specs.declared.rendered.Rendered.{Rendered};
ghost use Rattle.csl_driver.specs.Answer.{Job};
ghost use Rattle.csl_driver.specs.CslLaws.{KeepsCslLaws, mentions_had};
ghost use Rattle.csl_driver.specs.JobView.{job_of};
ghost use Rattle.mentions_table_laws.specs.SuffixLaws.{ReadAlike, suffix_at};
ghost use Rattle.driver_writers.specs.Writing.{Writing};
ghost use Rattle.csl_writing.specs.LayoutWriting.{layout_writing};
ghost use Rattle.test_callers.specs.CslClients.{HaveOtherLetters};

use csl_base::entry::EntryLike;
use csl_driver::csl_account::CslAccount;
use csl_driver::driver::BibliographyDriver;
use csl_driver::error::DriverError;
use csl_driver::request::BibliographyRequest;
use csl_driver::year::letters_of_suffix;
use csl_writing::laws::suffixes_differ;
use std::alloc::{AllocError, Global};

/// The suffix of the entry at a place, if it has one.
fn suffix_of(suffixes: &[Option<usize>], place: usize) -> Option<usize>
    ensures { result ≡ suffix_at suffixes.now place }
{
    match suffixes.get(place) {
        Some(suffix) => *suffix,
        None => None,
    }
}

/// The letters of the suffixes that the entries at two places of an account have; none where one of
/// them has no suffix. In the account of an answer both have letters, which differ, where their
/// later mentions occur and read alike, and the style of either adds suffixes.
///
/// # Errors
/// Where memory is refused.
pub fn letters_of_alike<'a, T: EntryLike, P: Eq>(
    alloc: Global,
    account: &CslAccount<'a, T>,
    first: usize,
    second: usize,
) -> Result<Option<(String, String)>, AllocError>
    ensures { IfOk result (λ letters. (asked : Job T P) (writing : Writing T P)
        (rendered : Rendered) → KeepsCslLaws T.eq asked writing P.eq (rendered, account.now)
        → (alike : ReadAlike (mentions_had T.eq asked writing account.now) first second)
        → (alike.one.adds_suffix || alike.other.adds_suffix) ≡ true
        → HaveOtherLetters letters) }
{
    suffixes_differ();
    let Some(one) = suffix_of(&account.suffixes, first) else {
        return Ok(None);
    };
    let Some(other) = suffix_of(&account.suffixes, second) else {
        return Ok(None);
    };
    Ok(Some((
        letters_of_suffix(alloc, one)?,
        letters_of_suffix(alloc, other)?,
    )))
}

/// The account of an answer, and the letters of the entries at two places of it.
///
/// # Errors
/// Those of `finish_csl`, and where memory is refused.
pub fn letters_in_csl_answer<'a, T: EntryLike, P: Eq + Drop>(
    alloc: Global,
    driver: BibliographyDriver<'a, T, P>,
    request: BibliographyRequest<'_, 'a, T>,
    first: usize,
    second: usize,
) -> Result<(CslAccount<'a, T>, Option<(String, String)>), DriverError>
    ensures { let mentions = mentions_had T.eq (job_of driver.entry request.entry)
        (layout_writing T.answers) in
        IfOk result (λ r. (alike : ReadAlike (mentions r.0) first second)
        → (alike.one.adds_suffix || alike.other.adds_suffix) ≡ true
        → HaveOtherLetters r.1) }
{
    let (rendered, account) = driver.finish_csl(request)?;
    drop(rendered);
    let letters = letters_of_alike::<T, P>(alloc, &account, first, second)?;
    Ok((account, letters))
}
