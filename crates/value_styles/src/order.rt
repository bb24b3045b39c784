//! An order of places in which each step leads on: where there is one, no steps lead back to where
//! they began. It is found in time in proportion to places and steps.
ghost use Rattle.std.specs.Prelude.{◌≡◌, ◌<◌, ℕ, IfOk, OnOk, map, length, get_or, true};
ghost use Rattle.value_styles.specs.Places.{has_place, IsWithin, IsClosed, IsOnRound, LeadsUp};

use std::alloc::{AllocError, Global};

// Counts the steps of a row, each at the place to which it leads.
fn count_steps(counts: &mut Vec<usize>, row: &[usize])
    requires { IsWithin (length counts.old.items) row.now }
    ensures { length counts.new.items ≡ length counts.old.items }
{
    for place in row {
        counts[*place] = counts[*place].wrapping_add(1);
    }
}

// How many steps lead to each place.
fn step_counts(alloc: Global, rows: &[Vec<usize>]) -> Result<Vec<usize>, AllocError>
    requires { IsClosed (map (λ row. row.items) rows.now) }
    ensures { IfOk result (λ counts. length counts.items ≡ length rows.now) }
{
    let mut counts = vec![in alloc; 0; rows.len()]?;
    for i in 0..rows.len() {
        count_steps(&mut counts, &rows[i]);
    }
    Ok(counts)
}

// The places to which no step leads.
fn free_places(alloc: Global, counts: &[usize]) -> Result<Vec<usize>, AllocError>
    ensures { IfOk result (λ free. IsWithin (length counts.now) free.items) }
{
    let mut free = Vec::new(alloc);
    for place in 0..counts.len() {
        if counts[place] == 0 {
            free.push(place)?;
        }
    }
    Ok(free)
}

// Takes the steps of a row away, and adds the places to which none leads any more.
fn take_away(
    counts: &mut Vec<usize>,
    free: &mut Vec<usize>,
    row: &[usize],
) -> Result<(), AllocError>
    requires row { IsWithin (length counts.old.items) row.now }
    requires free { IsWithin (length counts.old.items) free.old.items }
    ensures length { length counts.new.items ≡ length counts.old.items }
    ensures free { OnOk result (IsWithin (length counts.old.items) free.new.items) }
{
    for place in row {
        let left = counts[*place].wrapping_sub(1);
        counts[*place] = left;
        if left == 0 {
            free.push(*place)?;
        }
    }
    Ok(())
}

// Ranks the places in the order in which they are taken away: first those to which no step leads,
// then those to which none from the others does. Places that steps lead round are never taken, and
// stay at 0.
fn ranks(alloc: Global, rows: &[Vec<usize>]) -> Result<Vec<usize>, AllocError>
    requires { IsClosed (map (λ row. row.items) rows.now) }
    ensures { IfOk result (λ ranks. length ranks.items ≡ length rows.now) }
{
    let mut counts = step_counts(alloc, rows)?;
    let mut free = free_places(alloc, &counts)?;
    let mut ranks = vec![in alloc; 0; rows.len()]?;
    for at in 0..rows.len() {
        if at >= free.len() {
            break;
        }
        let place = free[at];
        ranks[place] = at + 1;
        take_away(&mut counts, &mut free, &rows[place])?;
    }
    Ok(ranks)
}

// Whether a row leads to places above that rank alone.
fn row_leads_up(ranks: &[usize], rank: usize, row: &[usize]) -> bool
    requires { IsWithin (length ranks.now) row.now }
    ensures { result ≡ true → (j : ℕ) → has_place j row.now ≡ true → rank < get_or ranks.now j 0 }
{
    for place in row {
        if ranks[*place] <= rank {
            return false;
        }
    }
    true
}

fn leads_up(ranks: &[usize], rows: &[Vec<usize>]) -> bool
    requires closed { IsClosed (map (λ row. row.items) rows.now) }
    requires length { length ranks.now ≡ length rows.now }
    ensures { result ≡ true → LeadsUp (map (λ row. row.items) rows.now) ranks.now }
{
    for i in 0..rows.len() {
        if !row_leads_up(ranks, ranks[i], &rows[i]) {
            return false;
        }
    }
    true
}

// Whether the order shows that no steps lead from a place back to it. `rows` has for each place
// those to which it leads in one step.
pub(crate) fn has_order(alloc: Global, rows: &[Vec<usize>]) -> Result<bool, AllocError>
    requires { IsClosed (map (λ row. row.items) rows.now) }
    ensures { IfOk result (λ b. b ≡ true → (i : ℕ) → IsOnRound (map (λ row. row.items) rows.now) i
        → ⊥) }
{
    let ranks = ranks(alloc, rows)?;
    Ok(leads_up(&ranks, rows))
}
