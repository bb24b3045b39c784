//! When the names of an item are substituted, and by what.
ghost use Rattle.std.specs.Prelude.{◌≡◌, Some, map, option_map};
ghost use Rattle.std.specs.List.{common_prefix_len};
ghost use Rattle.value_trees.specs.SameElem.{same_elem};
ghost use Rattle.rounds_substitution.specs.Changes.{change_of};
ghost use Rattle.rounds_substitution.specs.Names.{names_within};
ghost use Rattle.rounds_substitution.specs.Rules.{names_in_common, none_of, same_names};

use crate::names::Named;
use csl_base::elem::Elem;
use csl_base::style::SubsequentAuthorSubstituteRule;

/// What is done to the children of an item's names element.
#[derive(Clone, Copy)]
pub(crate) enum Change {
    /// The substitute alone is left.
    SubstituteAlone,
    /// The substitute stands before what is left without the names.
    WithoutNames,
    /// The substitute stands before the children and in the first name of each.
    EachNameReplaced,
    /// The same up to so many names; the children after that are dropped.
    FirstNamesReplaced(usize),
}

/// How many elements two lists have in common before the first that differs.
fn prefix_in_common(kept: &[&Elem], own: &[&Elem]) -> usize
    ensures { result ≡ common_prefix_len same_elem (map (λ e. e.now) kept.now)
        (map (λ e. e.now) own.now) }
{
    let mut n = 0;
    while n < kept.len() && n < own.len() && is_same(kept[n], own[n]) {
        n += 1;
    }
    n
}

fn names_in_common(kept: &Named<'_>, own: &Named<'_>) -> usize
    ensures { result ≡ names_in_common kept.now.elem.now own.now.elem.now }
{
    prefix_in_common(&kept.names, &own.names)
}

fn has_same_names(kept: &Named<'_>, own: &Named<'_>) -> bool
    ensures { result ≡ same_names kept.now.elem.now own.now.elem.now }
{
    kept.names.len() == own.names.len() && names_in_common(kept, own) == own.names.len()
}

fn is_nameless(own: &Named<'_>) -> bool
    ensures { result ≡ none_of (names_within own.now.elem.now) }
{
    own.names.is_empty()
}

fn is_same(kept: &Elem, own: &Elem) -> bool
    ensures { result ≡ same_elem kept.now own.now }
{
    kept == own
}

/// What is done to an item with these names, where `base` is the names element that it is compared
/// with; nothing where there is none, and where the rule doesn't hold.
pub(crate) fn change_of(
    rule: SubsequentAuthorSubstituteRule,
    base: &Option<Named<'_>>,
    own: &Named<'_>,
) -> Option<Change>
    ensures { result ≡ change_of rule (option_map (λ n. n.elem.now) base.now) own.now.elem.now }
{
    match base {
        Some(kept) => change_against(rule, kept, own),
        None => None,
    }
}

/// What is done to an item with these names, compared with `kept`; nothing where the rule doesn't
/// hold.
fn change_against(
    rule: SubsequentAuthorSubstituteRule,
    kept: &Named<'_>,
    own: &Named<'_>,
) -> Option<Change>
    ensures { result ≡ change_of rule (Some kept.now.elem.now) own.now.elem.now }
{
    if is_nameless(own) {
        let is_equal = has_same_names(kept, own) && is_same(kept.elem, own.elem);
        return is_equal.then_some(Change::SubstituteAlone);
    }
    match rule {
        SubsequentAuthorSubstituteRule::CompleteAll => {
            has_same_names(kept, own).then_some(Change::WithoutNames)
        }
        SubsequentAuthorSubstituteRule::CompleteEach => {
            has_same_names(kept, own).then_some(Change::EachNameReplaced)
        }
        SubsequentAuthorSubstituteRule::PartialEach => {
            let common = names_in_common(kept, own);
            (common > 0).then_some(Change::FirstNamesReplaced(common))
        }
        SubsequentAuthorSubstituteRule::PartialFirst => {
            (names_in_common(kept, own) > 0).then_some(Change::FirstNamesReplaced(1))
        }
    }
}
