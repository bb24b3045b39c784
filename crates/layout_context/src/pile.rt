//! A stack whose bottom takes no memory.
ghost use Rattle.std.specs.Prelude.{
  ◌≡◌,
  ◌+◌,
  ◌-◌,
  ◌<◌,
  [],
  ◌∷◌,
  ◌++◌,
  length,
  take,
  slice_get,
  Some,
  OnOk,
  OnErr,
};

use std::alloc::{AllocError, Global};
use std::marker::Model;

/// Values one upon another. There is always at least one. Contracts see the list of them, from the
/// bottom to the top.
#[derive(Drop)]
pub(crate) struct Pile<T> {
    bottom: T,
    above: Vec<T>,
}

impl<T> Model for Pile<T> {
    ghost use Rattle.std.specs.Prelude.{List, ◌+◌, ◌<◌, ◌^◌, ◌∷◌, vec_len};

    ghost Value = { List T };

    ghost view = { λ pile. pile.bottom ∷ pile.above.items };

    ghost invariant = { λ pile. vec_len pile.above + 1 < 2 ^ 64 };
}

impl<T: Copy> Pile<T> {
    /// The stack of one value.
    pub(crate) fn new(alloc: Global, bottom: T) -> Pile<T>
        ensures { result ≡ bottom ∷ [] }
    {
        Pile {
            bottom,
            above: Vec::new(alloc),
        }
    }

    /// How many values there are, at least one.
    pub(crate) fn len(&self) -> usize
        ensures len { result ≡ length self.now }
        ensures never_empty { 0 < result }
    {
        self.above.len() + 1
    }

    /// Puts a value upon the others.
    ///
    /// # Errors
    ///
    /// Where memory is refused, or the values can't be counted any more: the stack stays as it is.
    pub(crate) fn push(&mut self, value: T) -> Result<(), AllocError>
        ensures pushed { OnOk result (self.new ≡ self.old ++ value ∷ []) }
        ensures refused { OnErr result (self.new ≡ self.old) }
    {
        if self.len() == usize::MAX {
            return Err(AllocError);
        }
        self.above.push(value)?;
        Ok(())
    }

    /// The top.
    pub(crate) fn top(&self) -> T
        ensures { slice_get self.now (length self.now - 1) ≡ Some result }
    {
        match self.above.last() {
            Some(top) => *top,
            None => self.bottom,
        }
    }

    /// Keeps the lowest `height` values. A stack that isn't higher stays as it is.
    pub(crate) fn cut(&mut self, height: usize)
        requires { 0 < height }
        ensures { self.new ≡ take height self.old }
    {
        self.above.truncate(height - 1);
    }
}
