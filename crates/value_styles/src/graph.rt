//! Places that lead to places, and those among them that lead back to themselves.
ghost use Rattle.std.specs.Prelude.{◌≡◌, ◌<◌, List, ℕ, IfOk, OnOk, map, length, true, false};
ghost use Rattle.value_styles.specs.Places.{IsWithin, IsMarked, IsClosed, IsOnRound, add_each};

use std::alloc::{AllocError, Global};

// Adds the places that are new, and marks them.
fn add_places(
    found: &mut Vec<usize>,
    marks: &mut Vec<bool>,
    places: &[usize],
) -> Result<(), AllocError>
    requires within { IsWithin (length marks.old.items) places.now }
    requires marked { IsMarked marks.old.items found.old.items }
    ensures found { OnOk result (found.new.items ≡ add_each places.now found.old.items) }
    ensures marked { OnOk result (IsMarked marks.new.items found.new.items) }
    ensures length { length marks.new.items ≡ length marks.old.items }
{
    for place in places {
        if !marks[*place] {
            found.push(*place)?;
            marks[*place] = true;
        }
    }
    Ok(())
}

// Whether steps lead from a place back to it. `rows` has for each place those to which it leads in
// one step; each row is gone through once at most.
pub(crate) fn is_on_round(
    alloc: Global,
    rows: &[Vec<usize>],
    start: usize,
) -> Result<bool, AllocError>
    requires start { start < length rows.now }
    requires closed { IsClosed (map (λ row. row.items) rows.now) }
    ensures yes { IfOk result (λ b. b ≡ true → IsOnRound (map (λ row. row.items) rows.now) start) }
    ensures no { IfOk result (λ b. b ≡ false
        → IsOnRound (map (λ row. row.items) rows.now) start → ⊥) }
{
    let mut found = Vec::new(alloc);
    let mut marks = vec![in alloc; false; rows.len()]?;
    add_places(&mut found, &mut marks, &rows[start])?;
    let mut at = 0;
    while at < found.len() {
        let next = found[at];
        add_places(&mut found, &mut marks, &rows[next])?;
        at += 1;
    }
    Ok(marks[start])
}
