//! Which names of a list are shown (CSL 1.0.2, "Name", et-al abbreviation).
ghost use Rattle.std.specs.Prelude.{◌≡◌};
ghost use Rattle.cite_names.specs.EtAl.{first_names, shown_names, truncated};

use crate::rules::Cut;

/// Which names of a list are shown.
#[derive(Clone, Copy, PartialEq, Eq)]
pub enum ShownNames {
    /// All of them.
    All,
    /// So many of the first ones, and behind them `et al.`; where these are none, nothing at all.
    First(usize),
    /// So many of the first ones, and behind an ellipsis the last one.
    FirstAndLast(usize),
}

impl ShownNames {
    /// How many of the first of so many names are shown.
    pub fn first_names(self, count: usize) -> usize
        ensures { result ≡ first_names self count }
    {
        match self {
            ShownNames::All => count,
            ShownNames::First(first) | ShownNames::FirstAndLast(first) => first,
        }
    }
}

/// Which of so many names are shown: all, or where there are `et-al-min` of them or more the first
/// `et-al-use-first`.
pub fn shown_names(cut: Option<Cut>, use_last: bool, count: usize) -> ShownNames
    ensures { result ≡ shown_names cut use_last count }
{
    match cut {
        Some(cut) if count >= cut.min as usize => {
            truncated(cut.use_first as usize, use_last, count)
        },
        _ => ShownNames::All,
    }
}

/// Which of so many names are shown where a list is truncated after the first ones that are kept.
/// The last one is shown too where `et-al-use-last` asks for it, if two at least are left out.
pub fn truncated(kept: usize, use_last: bool, count: usize) -> ShownNames
    ensures { result ≡ truncated kept use_last count }
{
    if kept >= count {
        ShownNames::All
    } else if use_last && kept > 0 && count - kept >= 2 {
        ShownNames::FirstAndLast(kept)
    } else {
        ShownNames::First(kept)
    }
}
