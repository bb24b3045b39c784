//! A first citation: two books of one author and year, in an author-date style with a bibliography.
#![tactic(auto)]

mod book;
mod style;

use crate::book::Book;
use crate::style::author_date;
use csl_driver::driver::BibliographyDriver;
use csl_driver::error::DriverError;
use csl_driver::item::CitationItem;
use csl_driver::rendered::Rendered;
use csl_driver::request::{BibliographyRequest, CitationRequest};
use csl_driver::style::IndependentStyle;
use std::alloc::{AllocError, Global};
use std::convert::Infallible;
use std::process::ExitCode;

/// One citation of all the books.
fn request<'a>(
    alloc: Global,
    style: &'a IndependentStyle,
    books: &'a [Book],
) -> Result<CitationRequest<'a, Book, Infallible>, AllocError> {
    let mut items = Vec::new(alloc);
    for book in books {
        items.push(CitationItem::with_entry(book))?;
    }
    Ok(CitationRequest::from_items(items, style, &[]))
}

/// The citation, and the bibliography.
fn answer<'a>(
    alloc: Global,
    style: &'a IndependentStyle,
    books: &'a [Book],
) -> Result<Rendered, DriverError> {
    let mut driver = BibliographyDriver::new(alloc);
    match driver.citation(request(alloc, style, books)?) {
        Ok(()) => driver.finish(BibliographyRequest::new(style, None, &[])),
        Err(_refused) => Err(DriverError::OutOfMemory(AllocError)),
    }
}

/// The citations as plain text, and then the items of the bibliography, a line each.
fn lines(alloc: Global, rendered: &Rendered) -> Result<String, AllocError> {
    let mut text = String::new(alloc);
    for each in rendered.citations.as_slice() {
        each.citation.write_plain(&mut text)?;
        text.push_str("\n")?;
    }
    if let Some(bibliography) = &rendered.bibliography {
        for item in bibliography.items.as_slice() {
            item.content.write_plain(&mut text)?;
            text.push_str("\n")?;
        }
    }
    Ok(text)
}

fn two_books(alloc: Global) -> Result<Vec<Book>, AllocError> {
    let moths = Book::by(alloc, "moths", "Doe", 1999)?;
    let mosses = Book::by(alloc, "mosses", "Doe", 1999)?;
    Ok(vec![in alloc; moths, mosses]?)
}

fn printed_in(alloc: Global, style: &IndependentStyle) -> Result<String, DriverError> {
    let books = two_books(alloc)?;
    let rendered = answer(alloc, style, &books)?;
    Ok(lines(alloc, &rendered)?)
}

fn printed(alloc: Global) -> Result<String, DriverError> {
    printed_in(alloc, &author_date(alloc)?)
}

fn main(rt: HostRuntime) -> ExitCode {
    match printed(rt.alloc()) {
        Ok(text) => {
            let _ = print!(rt; "{text}");
            ExitCode::SUCCESS
        }
        Err(_) => ExitCode::FAILURE,
    }
}
