//! Conditions (CSL 1.0.2, "Choose").
use crate::element::RenderingElement;
use crate::item_type::ItemType;
use crate::locator::LocatorType;
use crate::variable::{DateVariable, Variable};

/// The value of `match`: how many of a branch's tests must hold.
#[derive(Clone, Copy, PartialEq, Eq)]
pub enum Match {
    All,
    Any,
    None,
}

/// The value of `position`: where a cite stands among the earlier cites of its item.
#[derive(Clone, Copy, PartialEq, Eq)]
pub enum CitePosition {
    First,
    Subsequent,
    Ibid,
    IbidWithLocator,
    NearNote,
    /// A later cite that is not near.
    FarNote,
}

/// A test of a branch. An attribute with several values is as many tests.
#[derive(Clone, Copy, PartialEq, Eq)]
pub enum Test {
    /// Whether the cite, written without this branch, is like another item's.
    Disambiguate,
    IsNumeric(Variable),
    IsUncertainDate(DateVariable),
    Locator(LocatorType),
    Position(CitePosition),
    Type(ItemType),
    /// Whether the variable has a value.
    Variable(Variable),
    /// A variable, an item type or a locator type that CSL 1.0.2 lacks: it never holds.
    Unknown,
}

/// An element `if` or `else-if`.
#[derive(Drop)]
#[cycle(rendering)]
pub struct Branch {
    pub rule: Match,
    /// At least one test.
    pub tests: Vec<Test>,
    pub elements: Vec<RenderingElement>,
}

/// An element `choose`: the first branch whose tests hold is written.
#[derive(Drop)]
#[cycle(rendering)]
pub struct Choose {
    /// At least one branch.
    pub branches: Vec<Branch>,
    /// The elements of `else`, if any.
    pub otherwise: Vec<RenderingElement>,
}
