//! A stack that always has a bottom.
ghost use Rattle.std.specs.Prelude.{
  ◌≡◌,
  ℕ,
  false,
  All,
  ◌+◌,
  ◌-◌,
  ◌<◌,
  List,
  [],
  ◌∷◌,
  ◌++◌,
  length,
  take,
  slice_get,
  Some,
  None,
  IfOk,
  IfSome,
  OnOk,
  OnErr,
  IfErr,
  Bool,
  option_map,
  option_and_then,
};
ghost use Rattle.std.specs.Borrow.{sem};
ghost use Rattle.value_lists.specs.Stack.{
  topmost,
  AnswersAs,
  Gave,
  IsTopmostAccepted,
  LendsItem,
  LendsTopmost,
};

use std::alloc::{AllocError, AllocFailed, Global};
use std::marker::Model;

/// Items one upon another. There is always at least one. Contracts see the list of them, from the
/// bottom to the top.
#[derive(Drop)]
pub struct NonEmptyStack<T> {
    items: Vec<T>,
}

impl<T> Model for NonEmptyStack<T> {
    ghost use Rattle.std.specs.Prelude.{List, ◌<◌, vec_len};

    ghost Value = { List T };

    ghost view = { λ stack. stack.items.items };

    ghost invariant = { λ stack. 0 < vec_len stack.items };
}

impl<T> NonEmptyStack<T> {
    /// The stack of one item.
    ///
    /// # Errors
    ///
    /// Where memory is refused.
    pub fn new(alloc: Global, first: T) -> Result<NonEmptyStack<T>, AllocError>
    where
        T: Drop,
        ensures { IfOk result (λ stack. stack ≡ first ∷ []) }
    {
        let mut items = Vec::with_capacity(alloc, 8)?;
        items.push(first)?;
        Ok(NonEmptyStack { items })
    }

    /// How many items there are, at least one.
    pub fn len(&self) -> usize
        ensures len { result ≡ length self.now }
        ensures never_empty { 0 < result }
    {
        self.items.len()
    }

    /// Puts an item upon the others.
    ///
    /// # Errors
    ///
    /// Where memory is refused: the stack stays as it is, and the item comes back.
    pub fn push(&mut self, item: T) -> Result<(), AllocFailed<T>>
        ensures pushed { OnOk result (self.new ≡ self.old ++ item ∷ []) }
        ensures refused { OnErr result (self.new ≡ self.old) }
        ensures handed_back { IfErr result (λ e. e.value ≡ item) }
    {
        self.items.push(item)
    }

    /// Takes the top off, if it isn't the bottom too. The last item stays.
    pub fn pop(&mut self) -> Option<T>
        ensures popped { IfSome result (λ item. self.old ≡ self.new ++ item ∷ []) }
        ensures bottom_stays { result ≡ None → self.new ≡ self.old }
        ensures never_empty { 0 < length self.new }
        ensures alone { result ≡ None → length self.old ≡ 1 }
    {
        if self.items.len() == 1 {
            return None;
        }
        self.items.pop()
    }

    /// The top.
    pub fn last(&self) -> &T
        ensures { slice_get self.now (length self.now - 1) ≡ Some result.now }
    {
        &self.items[self.items.len() - 1]
    }

    /// The top, for writing.
    pub fn last_mut(&mut self) -> &mut T
        ensures* writes_back { sem 𝓛 (LendsItem T.row self.entry (length self.old - 1) result) }
        ensures value { slice_get self.old (length self.old - 1) ≡ Some result.now }
    {
        let top = self.items.len() - 1;
        &mut self.items[top]
    }

    /// The topmost item that satisfies a test, for writing; none where no item does. The other
    /// items stay as they are. The test is asked from the top down, until it accepts an item.
    pub fn last_mut_predicate<F: Fn(&T) -> bool>(&mut self, f: F) -> Option<&mut T>
        requires { F.IsAlwaysCallable f }
        ensures* writes_back { sem 𝓛 (LendsTopmost T.row (F.post f) self.entry result) }
        ensures value { (p : T → Bool) → AnswersAs (F.post f) p
            → option_map (λ x. x.now) result
            ≡ option_and_then (slice_get self.old) (topmost p self.old) }
        ensures accepted { IfSome result (λ x. (i : ℕ) × IsTopmostAccepted (F.post f) self.old i
            × (slice_get self.old i ≡ Some x.now)) }
        ensures refused { result ≡ None → All (Gave (F.post f) false) self.old }
    {
        match topmost(&self.items, &f) {
            Some(place) => Some(self.item_mut(place)),
            None => None,
        }
    }

    /// The item at a place, counted from the bottom, for writing.
    pub fn item_mut(&mut self, place: usize) -> &mut T
        requires { place < length self.old }
        ensures* writes_back { sem 𝓛 (LendsItem T.row self.entry place result) }
        ensures value { slice_get self.old place ≡ Some result.now }
    {
        &mut self.items[place]
    }

    /// The bottom, for writing.
    pub fn first_mut(&mut self) -> &mut T
        ensures* writes_back { sem 𝓛 (LendsItem T.row self.entry 0 result) }
        ensures value { slice_get self.old 0 ≡ Some result.now }
    {
        &mut self.items[0]
    }

    /// Keeps the lowest `height` items. A stack that isn't higher stays as it is.
    pub fn cut(&mut self, height: usize)
    where
        T: Drop,
        requires { 0 < height }
        ensures { self.new ≡ take height self.old }
    {
        self.items.truncate(height);
    }

    /// The bottom; what stands above it is dropped.
    pub fn finish(self) -> T
    where
        T: Drop,
        ensures { slice_get self 0 ≡ Some result }
    {
        let mut items = self.items;
        items.swap_remove(0)
    }
}

// The place of the last item that satisfies a test.
fn topmost<T, F: Fn(&T) -> bool>(items: &[T], f: &F) -> Option<usize>
    requires { F.IsAlwaysCallable f.now }
    ensures exact { (p : T → Bool) → AnswersAs (F.post f.now) p → result ≡ topmost p items.now }
    ensures within { IfSome result (λ place. place < length items.now) }
    ensures accepted { IfSome result (IsTopmostAccepted (F.post f.now) items.now) }
    ensures refused { result ≡ None → All (Gave (F.post f.now) false) items.now }
{
    let mut height = items.len();
    while height > 0 {
        height -= 1;
        if f(&items[height]) {
            return Some(height);
        }
    }
    None
}
