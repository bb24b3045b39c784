//! Locators: where in an entry a cite points (CSL 1.0.2, locators).
ghost use Rattle.std.specs.Prelude.{◌≡◌, IfOk};

use csl_base::taxonomy::Locator;
use std::alloc::{AllocError, Global};
use std::marker::Model;
use std::rc::Rc;

/// A locator: what it counts, and where it points.
#[derive(PartialEq, Eq, Drop)]
#[derive_where(Clone; P: Drop)]
pub struct SpecificLocator<'a, P>(pub Locator, pub LocatorPayload<'a, P>);

/// Where a locator points.
#[derive(PartialEq, Eq, Drop)]
#[derive_where(Clone; P: Drop)]
pub enum LocatorPayload<'a, P> {
    /// The text that is printed.
    Str(&'a str),
    /// A value of the caller's own, which the answer marks by the cite's place.
    Transparent(TransparentLocator<P>),
}

/// A payload that is the caller's own and is shared by its copies.
#[derive(Drop)]
pub struct TransparentLocator<P>(Rc<P>);

impl<P> Model for TransparentLocator<P> {
    ghost Value = { P };

    ghost view = { λ l. l.0.value };
}

impl<P: Drop> TransparentLocator<P> {
    /// Holds the payload. An error comes only where there is no memory for it.
    pub fn new(alloc: Global, payload: P) -> Result<TransparentLocator<P>, AllocError>
        ensures { IfOk result (λ l. l ≡ payload) }
    {
        Ok(TransparentLocator(Rc::new(alloc, payload)?))
    }
}

impl<P: Drop> Clone for TransparentLocator<P> {
    ghost is_clone = { λ l copy. copy ≡ l };

    /// A copy that shares the payload. An error comes only where the payload has as many copies
    /// as can be counted.
    fn clone(&self) -> Result<TransparentLocator<P>, AllocError> {
        Ok(TransparentLocator(self.0.clone()?))
    }
}

impl<P: PartialEq> PartialEq for TransparentLocator<P> {
    ghost eq = { P.eq };

    ghost laws = { P.laws };

    /// Whether the payloads are equal.
    fn eq(&self, other: &TransparentLocator<P>) -> bool {
        *self.0 == *other.0
    }
}

impl<P: Eq> Eq for TransparentLocator<P> {
    ghost laws = { P.Eq.laws };
}
