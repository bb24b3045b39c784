//! Renderings as entries see them. Each request cites entries of its own, which count how often
//! they are asked for anything; those of one key are equal, at several places.

use crate::asking::Seen;
use crate::printing::print_answer;
use csl_base::entry::{ChunkedString, Date, EntryLike, Person, PlainEntry};
use csl_base::style::IndependentStyle;
use csl_base::taxonomy::{DateVariable, NameVariable, NumberVariable, StandardVariable};
use csl_driver::account::Account;
use csl_driver::driver::BibliographyDriver;
use csl_driver::item::CitationItem;
use csl_driver::rendered::Rendered;
use csl_driver::request::{BibliographyRequest, CitationRequest};
use document_answer::document::Document;
use document_answer::error::RunError;
use document_requests::document::{Job, value_of};
use document_requests::entries::entries_of;
use document_requests::requests::{AskedCite, AskedRequest};
use document_requests::rounds::Rounds;
use document_styles::styles::NamedStyle;
use rounds_runs::mode::RoundMode;
use std::alloc::{AllocError, Global};
use std::cell::Cell;
use std::convert::Infallible;

/// An entry that counts how often it is asked for anything.
#[derive(Drop)]
#[derive_where(PartialEq, Eq, PartialOrd, Ord, Hash)]
struct Counting {
    plain: PlainEntry,
    #[derive_where(skip)]
    asked: Cell<u64>,
}

impl Counting {
    fn count(&self) {
        self.asked.set(self.asked.get().wrapping_add(1));
    }
}

impl EntryLike for Counting {
    ghost use Rattle.value_sources.specs.PlainEntry.{plain_answers};
    ghost use Rattle.value_sources.specs.EqualEntries.{equal_entries_answer_equally};

    ghost answers = { λ c. plain_answers c.plain };

    ghost equal_answer_equally = { λ a b same. equal_entries_answer_equally a.plain b.plain same };

    fn key(&self) -> &str {
        self.count();
        self.plain.key()
    }

    fn resolve_name_variable(&self, variable: NameVariable) -> &[Person] {
        self.count();
        self.plain.resolve_name_variable(variable)
    }

    fn resolve_date_variable(&self, variable: DateVariable) -> Option<&Date> {
        self.count();
        self.plain.resolve_date_variable(variable)
    }

    fn resolve_standard_variable(&self, variable: StandardVariable) -> Option<&ChunkedString> {
        self.count();
        self.plain.resolve_standard_variable(variable)
    }

    fn resolve_number_variable(&self, variable: NumberVariable) -> Option<&str> {
        self.count();
        self.plain.resolve_number_variable(variable)
    }

    fn citation_label(&self) -> Option<&str> {
        self.count();
        self.plain.citation_label()
    }
}

type Item<'a> = CitationItem<'a, Counting, Infallible>;

type Request<'a> = CitationRequest<'a, Counting, Infallible>;

type Driver<'a> = BibliographyDriver<'a, Counting, Infallible>;

/// Answers the document with such entries, and prints the answer, how many renderings its account
/// has, and how often the entries were asked.
pub fn by_counting(
    rt: &(impl Print + AllocGlobal),
    text: &str,
    document: &Document,
) -> Result<Seen, RunError> {
    let copies = all_copies(rt.alloc(), text, document.job.requests.len())?;
    answer(rt, &document.styles, &document.job, &copies)?;
    let _ = println!(rt; "asked {}", asked_of(&copies));
    Ok(Seen::Answer)
}

/// The entries of the document, as many times.
fn all_copies(alloc: Global, text: &str, count: usize) -> Result<Vec<Vec<Counting>>, RunError> {
    let mut all = Vec::new(alloc);
    for _ in 0..count {
        all.push(copies(alloc, text)?)?;
    }
    Ok(all)
}

/// The entries of the document.
fn copies(alloc: Global, text: &str) -> Result<Vec<Counting>, RunError> {
    let value = value_of(alloc, text)?;
    let entries = entries_of(alloc, &value);
    drop(value);
    Ok(unasked(alloc, entries?)?)
}

/// These entries, before anything was asked of them.
fn unasked(alloc: Global, entries: Vec<PlainEntry>) -> Result<Vec<Counting>, AllocError> {
    let mut unasked = Vec::new(alloc);
    for plain in entries {
        unasked.push(Counting {
            plain,
            asked: Cell::new(0),
        })?;
    }
    Ok(unasked)
}

/// How often the entries were asked, all together.
fn asked_of(copies: &[Vec<Counting>]) -> u64 {
    let mut asked = 0u64;
    for entries in copies {
        for each in entries {
            asked = asked.wrapping_add(each.asked.get());
        }
    }
    asked
}

/// Prints the answer, and how many renderings its account has.
fn answer<'a>(
    rt: &(impl Print + AllocGlobal),
    styles: &'a [NamedStyle],
    job: &'a Job,
    copies: &'a [Vec<Counting>],
) -> Result<(), RunError> {
    let style = style_at(styles, job.wanted.style)?;
    let driver = filled(rt.alloc(), styles, job, copies)?;
    let (rendered, account) = finished(driver, style, job.rounds)?;
    print_answer(rt, &rendered);
    let _ = println!(rt; "renders {}", account.renders);
    drop(account);
    drop(rendered);
    Ok(())
}

/// The driver that has taken the requests.
fn filled<'a>(
    alloc: Global,
    styles: &'a [NamedStyle],
    job: &'a Job,
    copies: &'a [Vec<Counting>],
) -> Result<Driver<'a>, RunError> {
    let mut driver: Driver<'a> = BibliographyDriver::new(alloc);
    for (place, request) in job.requests.iter().enumerate() {
        let made = request_of(alloc, styles, request, copies, place)?;
        take(&mut driver, made)?;
    }
    Ok(driver)
}

/// The request at a place, of the entries at this place.
fn request_of<'a>(
    alloc: Global,
    styles: &'a [NamedStyle],
    request: &'a AskedRequest,
    copies: &'a [Vec<Counting>],
    place: usize,
) -> Result<Request<'a>, RunError> {
    let style = style_at(styles, request.style)?;
    let Some(entries) = copies.get(place) else {
        return Err(RunError::Document);
    };
    let items = items_of(alloc, &request.items, entries)?;
    Ok(CitationRequest::from_items(items, style, &[]))
}

fn take<'a>(driver: &mut Driver<'a>, request: Request<'a>) -> Result<(), RunError> {
    match driver.citation(request) {
        Ok(()) => Ok(()),
        Err(refused) => {
            drop(refused);
            Err(RunError::OutOfMemory)
        }
    }
}

fn style_at<'a>(styles: &'a [NamedStyle], index: usize) -> Result<&'a IndependentStyle, RunError> {
    match styles.get(index) {
        Some(named) => Ok(&named.style),
        None => Err(RunError::Document),
    }
}

/// The cites of a request, of these entries.
fn items_of<'a>(
    alloc: Global,
    cites: &'a [AskedCite],
    entries: &'a [Counting],
) -> Result<Vec<Item<'a>>, RunError> {
    let mut items: Vec<Item<'a>> = Vec::new(alloc);
    for cite in cites {
        let Some(entry) = entries.get(cite.entry) else {
            return Err(RunError::Document);
        };
        items.push(CitationItem::new(entry, None, None, cite.hidden, cite.purpose))?;
    }
    Ok(items)
}

/// The answer and its account, by the call for these rounds.
fn finished<'a>(
    driver: Driver<'a>,
    style: &'a IndependentStyle,
    rounds: Rounds,
) -> Result<(Rendered, Account<'a, Counting>), RunError> {
    let request = BibliographyRequest::new(style, None, &[]);
    match rounds {
        Rounds::Mode(RoundMode::Full) => Ok(driver.finish_full(request)?),
        _ => Ok(driver.finish_counted(request)?),
    }
}
