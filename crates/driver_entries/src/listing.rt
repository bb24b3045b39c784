//! The order of the bibliography, and the numbers of the cited entries.
ghost use Rattle.std.specs.Prelude.{
  ◌≡◌,
  ◌<◌,
  [],
  All,
  None,
  IfOk,
  OnOk,
  length,
  nat_eq,
  replicate,
  unwrap_or,
  slice_get,
};
ghost use Rattle.std.specs.List.{filter_map, position, range_with_len};
ghost use Rattle.std.specs.Option.{option_map_or};
ghost use Rattle.driver_entries.specs.Entries.{with_all_new, with_new};
ghost use Rattle.driver_entries.specs.Listed.{ListsAll, listed_places};
ghost use Rattle.driver_entries.specs.ListingView.{IsListing, listing_view};
ghost use Rattle.driver_entries.specs.TableView.{table_view};
ghost use Rattle.driver_passes.specs.RequestView.{entries_view, order_view};

use crate::table::EntryTable;
use csl_base::entry::EntryLike;
use driver_passes::request::Order;
use std::alloc::{AllocError, Global};

/// An order of entries, each once, and where each stands in it. Entries are named by their places
/// in a table.
#[derive(Drop)]
pub struct Listing {
    order: Vec<usize>,
    /// By the places of the entries; none where an entry isn't in the order.
    numbers: Vec<Option<usize>>,
}

impl Listing {
    /// An order that is empty, for so many entries.
    fn new(alloc: Global, count: usize) -> Result<Listing, AllocError>
        ensures empty { IfOk result (λ l. l.order.items ≡ []) }
        ensures numbers { IfOk result (λ l. l.numbers.items ≡ replicate count None) }
    {
        Ok(Listing {
            order: Vec::new(alloc),
            numbers: vec![in alloc; None; count]?,
        })
    }

    /// Lists the entry at this place, unless it is listed.
    fn list(&mut self, place: usize) -> Result<(), AllocError>
        requires within { place < length self.old.numbers.items }
        requires sound { IsListing self.old }
        ensures listed { OnOk result
            (self.new.order.items ≡ with_new nat_eq self.old.order.items place) }
        ensures count { OnOk result
            (length self.new.numbers.items ≡ length self.old.numbers.items) }
        ensures sound { OnOk result (IsListing self.new) }
    {
        if self.numbers[place].is_none() {
            self.numbers[place] = Some(self.order.len());
            self.order.push(place)?;
        }
        Ok(())
    }

    /// Lists an entry if it is cited, unless an equal one is listed.
    fn list_if_cited<'a, T: EntryLike>(
        &mut self,
        entry: &'a T,
        table: &EntryTable<'a, T>,
    ) -> Result<(), AllocError>
        requires count { length self.old.numbers.items ≡ length (table_view table.now).entries }
        requires sound { IsListing self.old }
        ensures listed { OnOk result (self.new.order.items
            ≡ option_map_or (with_new nat_eq self.old.order.items)
            (position (T.eq entry.now) (table_view table.now).entries) self.old.order.items) }
        ensures count { OnOk result
            (length self.new.numbers.items ≡ length self.old.numbers.items) }
        ensures sound { OnOk result (IsListing self.new) }
    {
        match table.index_of(entry) {
            Some(place) => self.list(place),
            None => Ok(()),
        }
    }

    /// Lists those of the handed entries that are cited.
    fn list_handed<'a, T: EntryLike>(
        &mut self,
        order: &[&'a T],
        table: &EntryTable<'a, T>,
    ) -> Result<(), AllocError>
        requires count { length self.old.numbers.items ≡ length (table_view table.now).entries }
        requires sound { IsListing self.old }
        ensures listed { OnOk result (self.new.order.items
            ≡ with_all_new nat_eq self.old.order.items
            (filter_map (λ e. position (T.eq e) (table_view table.now).entries)
            (entries_view order.now))) }
        ensures count { OnOk result
            (length self.new.numbers.items ≡ length self.old.numbers.items) }
        ensures sound { OnOk result (IsListing self.new) }
    {
        for entry in order {
            self.list_if_cited(*entry, table)?;
        }
        Ok(())
    }

    /// Lists those of the handed entries that are cited, if an order was handed in.
    fn list_order<'a, T: EntryLike>(
        &mut self,
        order: Option<Order<'_, 'a, T>>,
        table: &EntryTable<'a, T>,
    ) -> Result<(), AllocError>
        requires count { length self.old.numbers.items ≡ length (table_view table.now).entries }
        requires sound { IsListing self.old }
        ensures listed { OnOk result (self.new.order.items
            ≡ with_all_new nat_eq self.old.order.items
            (filter_map (λ e. position (T.eq e) (table_view table.now).entries)
            (unwrap_or (order_view order.entry) []))) }
        ensures count { OnOk result
            (length self.new.numbers.items ≡ length self.old.numbers.items) }
        ensures sound { OnOk result (IsListing self.new) }
    {
        match order {
            Some(order) => self.list_handed(order.0, table),
            None => Ok(()),
        }
    }

    /// Lists the entries that aren't listed, in the order of their places.
    fn list_others(&mut self) -> Result<(), AllocError>
        requires sound { IsListing self.old }
        ensures listed { OnOk result (self.new.order.items
            ≡ with_all_new nat_eq self.old.order.items
            (range_with_len 0 (length self.old.numbers.items))) }
        ensures count { OnOk result
            (length self.new.numbers.items ≡ length self.old.numbers.items) }
        ensures sound { OnOk result (IsListing self.new) }
    {
        for place in 0..self.numbers.len() {
            self.list(place)?;
        }
        Ok(())
    }

    /// Lists the entries at these places that aren't listed.
    fn list_places(&mut self, places: &[usize]) -> Result<(), AllocError>
        requires within { All (λ p. p < length self.old.numbers.items) places.now }
        requires sound { IsListing self.old }
        ensures listed { OnOk result (self.new.order.items
            ≡ with_all_new nat_eq self.old.order.items places.now) }
        ensures count { OnOk result
            (length self.new.numbers.items ≡ length self.old.numbers.items) }
        ensures sound { OnOk result (IsListing self.new) }
    {
        for place in places {
            self.list(*place)?;
        }
        Ok(())
    }

    /// Of `count` entries those at these indexes, in this order, each once.
    ///
    /// # Errors
    ///
    /// Where memory is refused.
    pub fn of_indices(alloc: Global, count: usize, places: &[usize]) -> Result<Listing, AllocError>
        requires within { All (λ p. p < count) places.now }
        ensures { IfOk result (λ l. listing_view l ≡ listed_places count places.now) }
    {
        let mut listing = Listing::new(alloc, count)?;
        listing.list_places(places)?;
        Ok(listing)
    }

    /// The bibliography's order of the entries of a table: those of the handed order that are
    /// there, and then all others.
    ///
    /// # Errors
    ///
    /// Where memory is refused.
    pub fn of_table<'a, T: EntryLike>(
        alloc: Global,
        table: &EntryTable<'a, T>,
        order: Option<Order<'_, 'a, T>>,
    ) -> Result<Listing, AllocError>
        ensures { IfOk result
            (λ l. ListsAll T.eq (order_view order.entry) (table_view table.now).entries
            (listing_view l)) }
    {
        let mut listing = Listing::new(alloc, table.len())?;
        listing.list_order(order, table)?;
        listing.list_others()?;
        Ok(listing)
    }

    /// The entries in their order.
    pub fn order(&self) -> &[usize]
        ensures { result.now ≡ (listing_view self.now).order }
    {
        &self.order
    }

    /// Where an entry stands in the order; behind all where it isn't there.
    pub fn number_of(&self, place: usize) -> usize
        ensures { result ≡ unwrap_or (slice_get (listing_view self.now).numbers place)
            (length (listing_view self.now).order) }
    {
        match self.numbers.get(place) {
            Some(Some(number)) => *number,
            _ => self.order.len(),
        }
    }
}
