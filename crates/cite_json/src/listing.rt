//! Citations that show nothing, for items that are to be listed.
use cite_tasks::cites::{Citation, Cite};
use reference_values::reference::References;
use std::alloc::{AllocError, Global};
use std::collections::BTreeSet;

/// A citation of all references, which isn't shown.
///
/// # Errors
///
/// Where memory is refused.
pub fn citation_of_all(
    alloc: Global,
    references: &References,
) -> Result<Vec<Citation>, AllocError> {
    let mut citations = Vec::new(alloc);
    citations.push(uncited(alloc, references, &[])?)?;
    Ok(citations)
}

/// A citation of the references that these citations don't cite, which isn't shown.
///
/// # Errors
///
/// Where memory is refused.
pub fn uncited(
    alloc: Global,
    references: &References,
    citations: &[Citation],
) -> Result<Citation, AllocError> {
    let cited = cited_ids(alloc, citations)?;
    let mut cites = Vec::new(alloc);
    for (place, reference) in references.as_slice().iter().enumerate() {
        if !cited.contains(&reference.id) {
            cites.push(hidden_cite(alloc, &reference.id, place)?)?;
        }
    }
    Ok(Citation {
        cites,
        missing_behind: Vec::new(alloc),
        note: None,
        is_alone: false,
        is_unsorted: false,
    })
}

/// The ids of the references that are cited.
fn cited_ids(alloc: Global, citations: &[Citation]) -> Result<BTreeSet<String>, AllocError> {
    let mut ids = BTreeSet::new(alloc);
    for citation in citations {
        for cite in &citation.cites {
            ids.insert(cite.id.clone()?)?;
        }
    }
    Ok(ids)
}

fn hidden_cite(alloc: Global, id: &String, place: usize) -> Result<Cite, AllocError> {
    Ok(Cite {
        id: id.clone()?,
        place,
        locator: None,
        prefix: String::new(alloc),
        suffix: String::new(alloc),
        suppresses_author: false,
        is_author_only: false,
        is_hidden: true,
        missing_before: Vec::new(alloc),
    })
}
