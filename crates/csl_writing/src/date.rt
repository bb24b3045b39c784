//! The date text: the year of an entry alone.
ghost use Rattle.std.specs.Prelude.{◌≡◌, IfOk, OnOk, option_map};
ghost use Rattle.csl_writing.specs.DateText as dated;
ghost use Rattle.driver_lookup.specs.SourceView.{source_view};

use csl_base::elem::{ElemChild, ElemChildren};
use csl_base::entry::{Date, EntryLike};
use csl_base::formatting::{Formatted, Formatting};
use csl_base::taxonomy::{DateVariable, OtherTerm, Term, TermForm};
use csl_base::text::Text;
use driver_lookup::lookup::StyleLocales;
use driver_lookup::year::{letters_of_suffix, year_in_words};
use std::alloc::{AllocError, Global};

// The first date that the entry has, of those that stand for it.
fn date_of_entry<T: EntryLike>(entry: &T) -> Option<&Date>
    ensures { option_map (λ d. d.now) result ≡ dated.date_of_entry (T.answers entry.now) }
{
    if let Some(date) = entry.resolve_date_variable(DateVariable::Issued) {
        return Some(date);
    }
    if let Some(date) = entry.resolve_date_variable(DateVariable::EventDate) {
        return Some(date);
    }
    if let Some(date) = entry.resolve_date_variable(DateVariable::Submitted) {
        return Some(date);
    }
    entry.resolve_date_variable(DateVariable::OriginalDate)
}

// The term in its long form, or these words where no locale has it.
fn long_term<'a>(style: &StyleLocales<'a>, name: OtherTerm, words: &'a str) -> &'a str
    ensures { result.now ≡ dated.long_term (source_view style.now) name words.now }
{
    match style.term(None, Term::Other(name), TermForm::Long, false) {
        Some(found) => found,
        None => words,
    }
}

// The year of the date, or what stands for it.
fn date_words<'a>(
    style: &StyleLocales<'a>,
    alloc: Global,
    date: Option<&Date>,
) -> Result<Text, AllocError>
    ensures { IfOk result (λ t. t
        ≡ dated.date_words (source_view style.now) (option_map (λ d. d.now) date.entry)) }
{
    match date {
        Some(date) => {
            let (after, before) = (" AD", " BC");
            let ad: &'a str = long_term(style, OtherTerm::Ad, after);
            let bc: &'a str = long_term(style, OtherTerm::Bc, before);
            year_in_words(alloc, date.year, false, ad, bc)
        }
        None => {
            let undated = "n.d.";
            let words: &'a str = long_term(style, OtherTerm::NoDate, undated);
            Text::copied(alloc, words)
        }
    }
}

// Puts the letters of a suffix behind the text, if there is one.
fn push_suffix(alloc: Global, text: &mut Text, suffix: Option<usize>) -> Result<(), AllocError>
    ensures { OnOk result (text.new ≡ dated.with_suffix suffix text.old) }
{
    match suffix {
        Some(suffix) => {
            let letters = letters_of_suffix(alloc, suffix)?;
            text.push_str(letters.as_str())
        }
        None => Ok(()),
    }
}

/// The date text of an entry, with the letters of a suffix, as one text without formatting.
///
/// Fails where memory is refused.
#[tactic(auto, unfolding(crate::specs::DateText::date_text))]
pub(crate) fn date_text<T: EntryLike>(
    style: &StyleLocales<'_>,
    alloc: Global,
    entry: &T,
    suffix: Option<usize>,
) -> Result<ElemChildren, AllocError>
    ensures { IfOk result (λ tree. tree
        ≡ dated.date_text (source_view style.now) (T.answers entry.now) suffix) }
{
    let mut text = date_words(style, alloc, date_of_entry(entry))?;
    push_suffix(alloc, &mut text, suffix)?;
    let formatting = Formatting::default();
    let mut tree = ElemChildren::new(alloc);
    tree.push(ElemChild::Text(Formatted { text, formatting }))?;
    Ok(tree)
}
