//! Suffixes by classes of entries.
ghost use Rattle.std.specs.Prelude.{◌≡◌, ◌+◌, ◌<◌, ◌^◌, ◌&&◌, ◌||◌, ℕ, IfOk, OnOk, Some, if◌then◌else◌, nat_eq};
ghost use Rattle.std.specs.List.{list_any};
ghost use Rattle.mentions_groups.specs.Counts.{count, suffix_by};
ghost use Rattle.mentions_groups.specs.Suffixes.{is_in_class, suffixes_by};
ghost use Rattle.mentions_names.specs.Telling.{in_one_group};

use indexmap::IndexSet;
use std::alloc::{AllocError, Global};
use std::collections::HashMap;

/// What gives an entry its suffix.
#[derive(Drop)]
pub(crate) struct EntryClass {
    /// Whether the style of the entry adds year suffixes.
    pub(crate) adds_suffix: bool,
    /// The class of those that it is counted with.
    pub(crate) class: Option<usize>,
}

/// Adds the class of an entry, if its style adds year suffixes.
fn add_class(
    adding: &mut IndexSet<usize>,
    adds_suffix: bool,
    class: Option<usize>,
) -> Result<(), AllocError>
    ensures { OnOk result ((n : ℕ) → list_any (nat_eq n) adding.new.keys
        ≡ (list_any (nat_eq n) adding.old.keys || (adds_suffix && in_one_group (Some n) class))) }
{
    if adds_suffix {
        if let Some(class) = class {
            adding.insert(class)?;
        }
    }
    Ok(())
}

/// The classes in which the style of some entry adds year suffixes.
fn adding(alloc: Global, entries: &[EntryClass]) -> Result<IndexSet<usize>, AllocError>
    ensures { IfOk result (λ s. (n : ℕ) → list_any (nat_eq n) s.keys
        ≡ list_any (λ e. e.adds_suffix && is_in_class (Some n) e) entries.now) }
{
    let mut adding = IndexSet::new(alloc);
    for entry in entries {
        add_class(&mut adding, entry.adds_suffix, entry.class)?;
    }
    Ok(adding)
}

/// How many of a class were counted.
fn counted(counts: &HashMap<usize, usize>, class: usize) -> usize
    ensures { result ≡ count counts.now class }
{
    match counts.get(&class) {
        Some(count) => *count,
        None => 0,
    }
}

/// The suffix of the next one of a class, if the class gets suffixes. It is counted.
fn next_suffix(
    counts: &mut HashMap<usize, usize>,
    adding: &IndexSet<usize>,
    class: Option<usize>,
) -> Result<Option<usize>, AllocError>
    requires { (n : ℕ) → count counts.old n + 1 < 2 ^ 64 }
    ensures suffix { IfOk result (λ s. s ≡ suffix_by adding.now.keys counts.old class) }
    ensures counted { OnOk result ((n : ℕ) → count counts.new n
        ≡ (if in_one_group (Some n) class then count counts.old n + 1 else count counts.old n)) }
{
    let Some(class) = class else {
        return Ok(None);
    };
    let number = counted(counts, class);
    counts.insert(class, number + 1)?;
    if adding.contains(&class) {
        Ok(Some(number))
    } else {
        Ok(None)
    }
}

/// The suffixes of entries, which stand in the order of the bibliography: those of a class have 0,
/// 1 and so on, if the style of one of them adds suffixes.
pub(crate) fn suffixes_by(
    alloc: Global,
    entries: &[EntryClass],
) -> Result<Vec<Option<usize>>, AllocError>
    ensures { IfOk result (λ v. v.items ≡ suffixes_by entries.now) }
{
    let adding = adding(alloc, entries)?;
    let mut counts = HashMap::new(alloc);
    let mut found = Vec::with_capacity(alloc, entries.len())?;
    for entry in entries {
        found.push(next_suffix(&mut counts, &adding, entry.class)?)?;
    }
    Ok(found)
}
