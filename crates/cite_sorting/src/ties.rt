//! Cites in the order of values.
ghost use Rattle.std.specs.Prelude.{
  ◌≡◌,
  ◌++◌,
  ◌+◌,
  ◌∷◌,
  IfOk,
  All,
  AllPairs,
  Ok,
  None,
  [],
  length,
  map,
  option_map,
};
ghost use Rattle.std.specs.List.{range_with_len};
ghost use Rattle.std.specs.List.Sorted.{IsPermutation, IsSorted};
ghost use Rattle.cite_sorting.specs.Order.{AreInOrder, AreTies, Stays};
ghost use Rattle.cite_sorting.specs.Ties.{IsOrderOf, indexes_in, is_tied, row_cmp, runs};

use cite_limits::error::LimitError;
use std::alloc::{AllocError, Global};

/// The indexes of so many cites in the order of so many keys, each once: of two cites, the first
/// key by which their values differ decides. Cites whose values are all equal stay in their order.
/// `value` gives the value of a cite by a key. It is asked only for cites that are tied by the keys
/// before that one.
///
/// # Errors
///
/// Those of `value`; `OutOfMemory`.
pub fn sorted_by<V: Ord + Drop, F: Fn(usize, usize) -> Result<V, LimitError>>(
    alloc: Global,
    keys: usize,
    cites: usize,
    value: F,
) -> Result<Vec<usize>, LimitError>
    requires { F.IsAlwaysCallable value }
    ensures each_once { IfOk result (λ indexes. IsOrderOf cites indexes.items) }
    ensures order { IfOk result (λ indexes.
        AreInOrder V.cmp (λ key cite v. F.post value key cite (Ok v)) keys indexes.items) }
{
    let ties = tied_by(alloc, keys, cites, &value)?;
    Ok(joined(alloc, ties)?)
}

/// The same in groups whose values are all equal.
///
/// # Errors
///
/// Those of `value`; `OutOfMemory`.
pub fn tied_by<V: Ord + Drop, F: Fn(usize, usize) -> Result<V, LimitError>>(
    alloc: Global,
    keys: usize,
    cites: usize,
    value: &F,
) -> Result<Vec<Vec<usize>>, LimitError>
    requires { F.IsAlwaysCallable value.now }
    ensures each_once { IfOk result (λ ties. IsOrderOf cites (indexes_in ties.items)) }
    ensures order { IfOk result (λ ties.
        AreTies V.cmp (λ key cite v. F.post value.now key cite (Ok v)) keys ties.items) }
{
    let mut ties = alone(alloc, all_indexes(alloc, cites)?)?;
    for key in 0..keys {
        ties = disambiguated(alloc, key, value, ties)?;
    }
    Ok(ties)
}

/// The indexes of so many cites.
fn all_indexes(alloc: Global, count: usize) -> Result<Vec<usize>, AllocError>
    ensures { IfOk result (λ all. all.items ≡ range_with_len 0 count) }
{
    let mut all = Vec::new(alloc);
    for index in 0..count {
        all.push(index)?;
    }
    Ok(all)
}

/// Groups of cites that are tied, each in the order of one more key.
fn disambiguated<V: Ord + Drop, F: Fn(usize, usize) -> Result<V, LimitError>>(
    alloc: Global,
    key: usize,
    value: &F,
    ties: Vec<Vec<usize>>,
) -> Result<Vec<Vec<usize>>, LimitError>
    requires { F.IsAlwaysCallable value.now }
    ensures same { IfOk result (λ finer. IsPermutation (indexes_in ties.items)
        (indexes_in finer.items)) }
    ensures order { IfOk result (λ finer.
        AreTies V.cmp (λ k i v. F.post value.now k i (Ok v)) key ties.items
        → AreTies V.cmp (λ k i v. F.post value.now k i (Ok v)) (key + 1) finer.items) }
{
    let mut finer = Vec::new(alloc);
    for tied in ties {
        finer.append(&mut parts_of(alloc, key, value, tied)?)?;
    }
    Ok(finer)
}

/// Cites that are tied, in groups by the order of one more key.
fn parts_of<V: Ord + Drop, F: Fn(usize, usize) -> Result<V, LimitError>>(
    alloc: Global,
    key: usize,
    value: &F,
    tied: Vec<usize>,
) -> Result<Vec<Vec<usize>>, LimitError>
    requires { F.IsAlwaysCallable value.now }
    ensures same { IfOk result (λ parts. IsPermutation tied.items (indexes_in parts.items)) }
    ensures order { IfOk result (λ parts.
        AllPairs (Stays V.cmp (λ k i v. F.post value.now k i (Ok v)) key) tied.items
        → AreTies V.cmp (λ k i v. F.post value.now k i (Ok v)) (key + 1) parts.items) }
{
    if tied.len() < 2 {
        return Ok(alone(alloc, tied)?);
    }
    let rows = sorted_rows(alloc, key, value, tied)?;
    Ok(parts_in_order(alloc, rows.as_slice())?)
}

/// One group.
fn alone(alloc: Global, group: Vec<usize>) -> Result<Vec<Vec<usize>>, AllocError>
    ensures { IfOk result (λ groups. groups.items ≡ group ∷ []) }
{
    let mut groups = Vec::new(alloc);
    groups.push(group)?;
    Ok(groups)
}

/// Cites in groups whose values are equal.
fn parts_in_order<V: Ord>(alloc: Global, rows: &[Row<V>]) -> Result<Vec<Vec<usize>>, AllocError>
    ensures { IfOk result (λ parts. map (λ part. part.items) parts.items
        ≡ runs V.eq None [] rows.now) }
{
    let mut parts = Vec::new(alloc);
    let mut equal = Vec::new(alloc);
    let mut before = None;
    for row in rows {
        if !is_tied(before, &row.value) {
            parts.push(equal)?;
            equal = Vec::new(alloc);
        }
        equal.push(row.index)?;
        before = Some(&row.value);
    }
    parts.push(equal)?;
    Ok(parts)
}

/// Whether a value is that of the cite before, if there is one.
fn is_tied<V: Ord>(before: Option<&V>, value: &V) -> bool
    ensures { result ≡ is_tied V.eq (option_map (λ it. it.now) before.entry) value.now }
{
    match before {
        Some(before) => *before == *value,
        None => true,
    }
}

/// The cites at these indexes in the order of a key.
fn sorted_rows<V: Ord + Drop, F: Fn(usize, usize) -> Result<V, LimitError>>(
    alloc: Global,
    key: usize,
    value: &F,
    indexes: Vec<usize>,
) -> Result<Vec<Row<V>>, LimitError>
    requires { F.IsAlwaysCallable value.now }
    ensures same { IfOk result (λ rows. IsPermutation indexes.items
        (map (λ row. row.index) rows.items)) }
    ensures values { IfOk result (λ rows.
        All (λ row. F.post value.now key row.index (Ok row.value)) rows.items) }
    ensures sorted { IfOk result (λ rows. IsSorted (row_cmp V.cmp) rows.items) }
{
    let mut rows = rows_of(alloc, key, value, indexes)?;
    rows.sort()?;
    Ok(rows)
}

/// The cites at these indexes, each with the value of a key.
fn rows_of<V: Drop, F: Fn(usize, usize) -> Result<V, LimitError>>(
    alloc: Global,
    key: usize,
    value: &F,
    indexes: Vec<usize>,
) -> Result<Vec<Row<V>>, LimitError>
    requires { F.IsAlwaysCallable value.now }
    ensures same { IfOk result (λ rows. map (λ row. row.index) rows.items ≡ indexes.items) }
    ensures values { IfOk result (λ rows.
        All (λ row. F.post value.now key row.index (Ok row.value)) rows.items) }
{
    let mut rows = Vec::new(alloc);
    for index in indexes {
        let value = value(key, index)?;
        rows.push(Row { value, index })?;
    }
    Ok(rows)
}

/// A cite with the value of a key. Where this is equal, cites stay in their order.
#[derive(PartialEq, Eq, PartialOrd, Ord, Drop)]
struct Row<V> {
    value: V,
    index: usize,
}

/// The indexes of all groups, in their order.
#[tactic(auto, using(crate::proofs::Groups::indexes_pushed))]
fn joined(alloc: Global, groups: Vec<Vec<usize>>) -> Result<Vec<usize>, AllocError>
    ensures { IfOk result (λ all. all.items ≡ indexes_in groups.items) }
{
    let mut all = Vec::new(alloc);
    for mut group in groups {
        all.append(&mut group)?;
    }
    Ok(all)
}
