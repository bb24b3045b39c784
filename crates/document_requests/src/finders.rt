//! Styles found by their names, and entries by their keys; and the styles that a job asks for.
ghost use Rattle.std.specs.Prelude.{◌≡◌, IfOk, List, Some, option_map, ℕ};
ghost use Rattle.document_styles.specs.NamedStyleView.{named_styles_view};
ghost use Rattle.document_styles.specs.Styles.{style_named};
ghost use Rattle.document_requests.specs.Entries.{entry_named};
ghost use Rattle.document_requests.specs.Finders.{found_by};
ghost use Rattle.document_requests.specs.FoundView.{found_views, unnamed};

use crate::document::Job;
use crate::found::FoundStyle;
use csl_base::entry::PlainEntry;
use document_styles::styles::NamedStyle;
use std::alloc::{AllocError, Global};
use std::collections::BTreeMap;

/// Indexes by names.
pub type Indexes<'e> = BTreeMap<&'e str, usize>;

/// The indexes of styles by their names. A name finds the first style that has it.
pub fn style_indexes<'e>(alloc: Global, styles: &'e [NamedStyle]) -> Result<Indexes<'e>, AllocError>
    ensures { IfOk result (λ m. (name : List ℕ) → found_by m (unnamed styles.now) name
        ≡ option_map Some (style_named (named_styles_view styles.now) name)) }
{
    let mut by_name = BTreeMap::new(alloc);
    for (index, named) in styles.iter().enumerate() {
        let name = named.name.as_str();
        if !by_name.contains_key(&name) {
            by_name.insert(name, index)?;
        }
    }
    Ok(by_name)
}

/// The indexes of entries by their keys. A key finds the first entry that has it.
pub fn entry_indexes<'e>(
    alloc: Global,
    entries: &'e [PlainEntry],
) -> Result<Indexes<'e>, AllocError>
    ensures { IfOk result (λ m. (key : List ℕ) → found_by m entries.now key
        ≡ option_map Some (entry_named entries.now key)) }
{
    let mut by_key = BTreeMap::new(alloc);
    for (index, entry) in entries.iter().enumerate() {
        let key = entry.key.as_str();
        if !by_key.contains_key(&key) {
            by_key.insert(key, index)?;
        }
    }
    Ok(by_key)
}

/// For each style, by its index, whether the job asks for it.
fn asked_styles(alloc: Global, job: &Job, count: usize) -> Result<Vec<bool>, AllocError> {
    let mut asked_for = vec![in alloc; false; count]?;
    if let Some(is_asked_for) = asked_for.get_mut(job.wanted.style) {
        *is_asked_for = true;
    }
    for request in &job.requests {
        if let Some(is_asked_for) = asked_for.get_mut(request.style) {
            *is_asked_for = true;
        }
    }
    Ok(asked_for)
}

/// The styles of a document, in their order: each that the job asks for is prepared, once.
///
/// # Errors
///
/// Where memory is refused.
pub fn found_styles<'e>(
    alloc: Global,
    styles: &'e [NamedStyle],
    job: &Job,
) -> Result<Vec<FoundStyle<'e>>, AllocError>
    ensures { IfOk result (λ found. found_views found.items ≡ unnamed styles.now) }
{
    let asked_for = asked_styles(alloc, job, styles.len())?;
    let mut found = Vec::with_capacity(alloc, styles.len())?;
    for (index, named) in styles.iter().enumerate() {
        let is_asked_for = asked_for.get(index).copied().unwrap_or(false);
        found.push(FoundStyle::new(alloc, &named.style, is_asked_for)?)?;
    }
    Ok(found)
}
