//! Years of blocks and suffixes of years, together.
ghost use Rattle.std.specs.Prelude.{◌≡◌};
ghost use Rattle.mentions_blocks.specs.Collapsed.{collapsed, cut_of, delimiter_of};

use crate::years::{BlockDelimiter, BlockYear};
use mentions_ranges::collapsed::{CollapsedCite, Delimiter};

/// How much is shown of a cite.
#[derive(Clone, Copy)]
pub enum YearCut {
    /// All of it.
    Whole,
    /// Its names are left out.
    WithoutNames,
    /// Only the suffix of its year is.
    Suffix,
}

/// What stands before a cite.
#[derive(Clone, Copy)]
pub enum YearDelimiter {
    /// The layout's delimiter, or nothing before the first cite.
    Layout,
    /// The cite group delimiter.
    Group,
    /// The after-collapse delimiter.
    AfterCollapse,
    /// The year-suffix delimiter.
    YearSuffix,
    /// An en dash.
    Dash,
}

/// What collapsing years makes of a cite.
#[derive(Clone, Copy)]
pub struct CollapsedYear {
    /// Whether it is inside a range of suffixes, and so isn't shown.
    pub is_inner: bool,
    pub cut: YearCut,
    /// What stands before it.
    pub delimiter: YearDelimiter,
}

/// A cite by its block, and by its stretch of suffixes where suffixes collapse. What the stretch
/// says goes first.
pub fn collapsed(year: BlockYear, stretch: CollapsedCite) -> CollapsedYear
    ensures { result ≡ collapsed year stretch }
{
    CollapsedYear {
        is_inner: stretch.is_inner,
        cut: cut_of(year.is_cut, stretch.is_cut),
        delimiter: delimiter_of(year.delimiter, stretch.delimiter),
    }
}

fn cut_of(by_block: bool, by_stretch: bool) -> YearCut
    ensures { result ≡ cut_of by_block by_stretch }
{
    if by_stretch {
        YearCut::Suffix
    } else if by_block {
        YearCut::WithoutNames
    } else {
        YearCut::Whole
    }
}

fn delimiter_of(by_block: BlockDelimiter, by_stretch: Delimiter) -> YearDelimiter
    ensures { result ≡ delimiter_of by_block by_stretch }
{
    match by_stretch {
        Delimiter::Dash => YearDelimiter::Dash,
        Delimiter::YearSuffix => YearDelimiter::YearSuffix,
        Delimiter::AfterCollapse => YearDelimiter::AfterCollapse,
        Delimiter::Usual => match by_block {
            BlockDelimiter::Layout => YearDelimiter::Layout,
            BlockDelimiter::Group => YearDelimiter::Group,
            BlockDelimiter::AfterCollapse => YearDelimiter::AfterCollapse,
        },
    }
}
