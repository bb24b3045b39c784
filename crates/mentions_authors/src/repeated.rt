//! Names of an item that repeat those of the item before it (CSL 1.0.2, reference grouping:
//! `subsequent-author-substitute` and its rules).
ghost use Rattle.std.specs.Prelude.{◌≡◌, ◌<◌, IfOk, length};
ghost use Rattle.std.specs.List.{common_prefix_len};
ghost use Rattle.std.specs.Option.{option_copied};
ghost use Rattle.mentions_authors.specs.Repeated.{against, before_at, first_alone, leading, repeated, repeated_names, same_authors};

use std::alloc::{AllocError, Global};
use value_lists::seq::Seq;
use value_styles::style::SubsequentAuthorSubstituteRule;

/// The names in the first names element of an item, as the item was written.
#[derive(Drop)]
pub struct ItemNames<N, P> {
    /// The names that are shown, in order.
    pub names: Seq<N>,
    /// The persons that the element was written for, those that aren't shown among them.
    pub persons: P,
}

/// Which names of an item the substitute stands for.
#[derive(Clone, Copy)]
pub enum Substituted {
    /// None of them.
    Nothing,
    /// All of them together, with all that stands between.
    Together,
    /// Each of so many at the beginning.
    Leading(usize),
}

/// Which names of each item the substitute stands for, in the order of the bibliography. Each
/// item is compared with the one directly before it, as both were written; none stands for an
/// item without a names element.
///
/// By `CompleteAll` and `CompleteEach` all names and persons have to be equal, and there has to
/// be a name; by `PartialEach` those at the beginning that are equal are replaced, and by
/// `PartialFirst` the first one of these alone.
///
/// # Errors
///
/// Where memory is refused.
pub fn repeated_authors<N: PartialEq, P: PartialEq>(
    alloc: Global,
    rule: SubsequentAuthorSubstituteRule,
    items: &[Option<ItemNames<N, P>>],
) -> Result<Vec<Substituted>, AllocError>
    ensures { IfOk result (λ v. v.items ≡ repeated N.eq P.eq rule items.now) }
{
    let mut found = Vec::with_capacity(alloc, items.len())?;
    for (k, item) in items.iter().enumerate() {
        found.push(against(rule, item_before(items, k), item))?;
    }
    Ok(found)
}

/// The names of the item directly before the one at k, if it has any.
fn item_before<N, P>(items: &[Option<ItemNames<N, P>>], k: usize) -> Option<&ItemNames<N, P>>
    requires { k < length items.now }
    ensures { option_copied result ≡ before_at items.now k }
{
    if k == 0 {
        return None;
    }
    items[k - 1].as_ref()
}

/// Which names of an item the substitute stands for, behind another one.
fn against<N: PartialEq, P: PartialEq>(
    rule: SubsequentAuthorSubstituteRule,
    before: Option<&ItemNames<N, P>>,
    item: &Option<ItemNames<N, P>>,
) -> Substituted
    ensures { result ≡ against N.eq P.eq rule (option_copied before.entry) item.now }
{
    match (before, item) {
        (Some(before), Some(own)) => repeated_names(rule, before, own),
        _ => Substituted::Nothing,
    }
}

/// Which of an item's names repeat those of another.
fn repeated_names<N: PartialEq, P: PartialEq>(
    rule: SubsequentAuthorSubstituteRule,
    before: &ItemNames<N, P>,
    own: &ItemNames<N, P>,
) -> Substituted
    ensures { result ≡ repeated_names N.eq P.eq rule before.now own.now }
{
    match rule {
        SubsequentAuthorSubstituteRule::CompleteAll if same_authors(before, own) => {
            Substituted::Together
        }
        SubsequentAuthorSubstituteRule::CompleteEach if same_authors(before, own) => {
            leading(own.names.as_slice().len())
        }
        SubsequentAuthorSubstituteRule::PartialEach => {
            leading(equal_at_first(before.names.as_slice(), own.names.as_slice()))
        }
        SubsequentAuthorSubstituteRule::PartialFirst => {
            first_alone(equal_at_first(before.names.as_slice(), own.names.as_slice()))
        }
        _ => Substituted::Nothing,
    }
}

/// Whether an item has names, and they and its persons are those of another.
fn same_authors<N: PartialEq, P: PartialEq>(before: &ItemNames<N, P>, own: &ItemNames<N, P>) -> bool
    ensures { result ≡ same_authors N.eq P.eq before.now own.now }
{
    !own.names.as_slice().is_empty() && before.names == own.names && before.persons == own.persons
}

/// How many names at the beginning are equal.
fn equal_at_first<N: PartialEq>(before: &[N], own: &[N]) -> usize
    ensures { result ≡ common_prefix_len N.eq before.now own.now }
{
    let mut n = 0;
    while n < before.len() && n < own.len() && before[n] == own[n] {
        n += 1;
    }
    n
}

/// So many names at the beginning, if there are any.
fn leading(count: usize) -> Substituted
    ensures { result ≡ leading count }
{
    if count == 0 {
        Substituted::Nothing
    } else {
        Substituted::Leading(count)
    }
}

/// The first name, if one or more at the beginning are equal.
fn first_alone(count: usize) -> Substituted
    ensures { result ≡ first_alone count }
{
    if count == 0 {
        Substituted::Nothing
    } else {
        Substituted::Leading(1)
    }
}
