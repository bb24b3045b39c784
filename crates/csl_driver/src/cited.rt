//! The cited entries, their order and their numbers.
ghost use Rattle.std.specs.Prelude.{◌≡◌, ◌+◌, ◌<◌, ◌^◌, IfErr, IfOk, length, ℕ};
ghost use Rattle.value_styles.specs.StyleView.{style_view};
ghost use Rattle.driver_entries.specs.ListingView.{listing_view};
ghost use Rattle.driver_entries.specs.TableView.{table_view};
ghost use Rattle.driver_passes.specs.RequestView.{order_view, requests_view, wanted_view};
ghost use Rattle.csl_driver.specs.Answer.{used_order};
ghost use Rattle.csl_driver.specs.Cited.{IsCitedBy, listed_number, numbers_at};
ghost use Rattle.csl_driver.specs.Rings.{Refuses};

use crate::error::DriverError;
use csl_base::entry::EntryLike;
use driver_entries::listing::Listing;
use driver_entries::table::EntryTable;
use driver_passes::acyclic::{AcyclicBibliographyRequest, AcyclicRequests};
use driver_passes::request::{BibliographyRequest, Order};
use std::alloc::{AllocError, Global};

/// The entries that are cited, in the order of their first cites and in that of the bibliography.
#[derive(Drop)]
pub(crate) struct Cited<'a, T: EntryLike> {
    pub(crate) table: EntryTable<'a, T>,
    pub(crate) listing: Listing,
    /// The number of the first entry.
    pub(crate) offset: usize,
}

/// The order that the bibliography goes by, if its style has one and an order was handed in.
pub(crate) fn used_order<'o, 'a, T>(
    wanted: &BibliographyRequest<'o, 'a, T>,
) -> Option<Order<'o, 'a, T>>
    ensures { order_view result ≡ used_order (wanted_view wanted.now) }
{
    match (&wanted.style.bibliography, &wanted.order) {
        (Some(_), Some(order)) => Some(Order(order.0)),
        _ => None,
    }
}

impl<'a, T: EntryLike> Cited<'a, T> {
    /// The entries that the requests cite, in the bibliography's order, where their numbers fit.
    pub(crate) fn by_requests<P>(
        alloc: Global,
        requests: AcyclicRequests<'_, 'a, T, P>,
        wanted: AcyclicBibliographyRequest<'_, '_, 'a, T>,
        offset: usize,
    ) -> Result<Cited<'a, T>, DriverError>
        ensures known { IfOk result (IsCitedBy T.eq (requests_view requests.entry.requests.now)
            (used_order (wanted_view wanted.entry.wanted.now))) }
        ensures offset { IfOk result (λ c. c.offset ≡ offset) }
        ensures refused { IfErr result (Refuses T.eq (requests_view requests.entry.requests.now)
            (wanted_view wanted.entry.wanted.now).style offset) }
    {
        let table = EntryTable::of_requests(alloc, requests.requests)?;
        if table.len() > usize::MAX - offset {
            return Err(DriverError::NumberOverflow);
        }
        let listing = Listing::of_table(alloc, &table, used_order(wanted.wanted))?;
        Ok(Cited {
            table,
            listing,
            offset,
        })
    }

    /// The numbers that a listing gives the entries, by their places in the table, and behind them
    /// that which the next entry would have.
    pub(crate) fn numbers(&self, alloc: Global, listing: &Listing) -> Result<Vec<usize>, AllocError>
        requires fits { (p : ℕ)
            → listed_number (listing_view listing.now) self.now.offset p < 2 ^ 64 }
        ensures { IfOk result (λ v. v.items
            ≡ numbers_at (listing_view listing.now) self.now.offset
            (length (table_view self.now.table).entries)) }
    {
        let count = self.table.len();
        let mut numbers = Vec::with_capacity(alloc, count)?;
        for place in 0..count {
            numbers.push(self.offset + listing.number_of(place))?;
        }
        numbers.push(self.offset + listing.number_of(count))?;
        Ok(numbers)
    }
}
