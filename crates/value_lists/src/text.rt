//! A text that contracts see as its bytes.
ghost use Rattle.std.specs.Prelude.{
  ◌≡◌,
  ◌≤◌,
  ℕ,
  List,
  length,
  take,
  string_bytes,
  bytes_eq,
  ◌++◌,
  IsOk,
  IfOk,
  OnOk,
  Some,
};
ghost use Rattle.std.specs.Str.{IsCharBoundary};
ghost use Rattle.std.proofs.Common.{rules};
ghost use mathlib.Core.Path.{refl};
ghost use Rattle.std.proofs.lemmas.Cmp.{nat_list_cmp_total};
ghost use Rattle.std.specs.Cmp.Lexicographic.{slice_cmp, texts_po, texts_ties};
ghost use Rattle.std.specs.Cmp.Rules.{comparing, hashing};
ghost use Rattle.std.specs.Hash as fed;
ghost use Rattle.std.specs.Ordering.{nat_cmp};
ghost use Rattle.value_lists.specs.Content.{text_has_content};
ghost use Rattle.value_lists.specs.HeldText.{held_bytes};

use arrayvec::ArrayString;
use std::alloc::{AllocError, Global};
use std::cmp::Ordering;
use std::fmt;
use std::hash::{Hash, Hasher};
use std::marker::Model;

/// Whether some character is not white space, as Unicode has it; an empty text has none.
pub fn has_content(text: &str) -> bool
    ensures { result ≡ text_has_content text.now }
{
    text.chars().any(|c| !c.is_whitespace())
}

// How many bytes a text may have that takes no memory of its own.
const SHORT: usize = 15;

// Where a text lies: in the value itself, or in a string.
#[derive(Drop)]
enum Held {
    Short(Global, ArrayString<15>),
    Long(String),
}

/// A text, which contracts see as its bytes. A copy of a short one takes no memory.
#[derive(Drop)]
pub struct Text(Held);

impl Model for Text {
    ghost Value = { List ℕ };

    ghost view = { λ a. held_bytes a.0 };
}

impl Text {
    /// The text that a string holds.
    pub fn new(s: String) -> Text
        ensures { result ≡ string_bytes s }
    {
        Text(Held::Long(s))
    }

    /// A copy of `s`, which takes memory only where `s` is longer than fifteen bytes.
    ///
    /// # Errors
    ///
    /// Where memory is refused.
    pub fn copied(alloc: Global, s: &str) -> Result<Text, AllocError>
        ensures { IfOk result (λ text. text ≡ s.now) }
    {
        if s.len() > SHORT {
            return Ok(Text(Held::Long(String::from_str(alloc, s)?)));
        }
        let mut short = ArrayString::new();
        short.push_str(s);
        Ok(Text(Held::Short(alloc, short)))
    }

    /// The text as a string.
    ///
    /// # Errors
    ///
    /// Where memory is refused.
    pub fn into_string(self) -> Result<String, AllocError>
        ensures { IfOk result (λ s. string_bytes s ≡ self) }
    {
        String::from_str(self.allocator(), self.as_str())
    }

    // What this text takes memory from.
    fn allocator(&self) -> Global {
        match &self.0 {
            Held::Short(alloc, _) => *alloc,
            Held::Long(long) => *long.allocator(),
        }
    }

    /// The text as a slice.
    pub fn as_str(&self) -> &str
        ensures { result.now ≡ self.now }
    {
        match &self.0 {
            Held::Short(_, short) => short.as_str(),
            Held::Long(s) => s.as_str(),
        }
    }

    /// Whether some character is not white space, as Unicode has it; an empty text has none.
    pub fn has_content(&self) -> bool
        ensures { result ≡ text_has_content self.now }
    {
        has_content(self.as_str())
    }

    /// Appends `s`.
    ///
    /// Fails where memory is refused.
    pub fn push_str(&mut self, s: &str) -> Result<(), AllocError>
        ensures { OnOk result (self.new ≡ self.old ++ s.now) }
    {
        match &mut self.0 {
            Held::Long(long) => long.push_str(s),
            Held::Short(alloc, short) => {
                if short.try_push_str(s).is_ok() {
                    return Ok(());
                }
                let mut long = String::with_capacity(*alloc, short.len() + s.len())?;
                long.push_str(short.as_str())?;
                long.push_str(s)?;
                self.0 = Held::Long(long);
                Ok(())
            }
        }
    }

    /// Keeps the first `len` bytes, which end between characters. A text that is not longer stays.
    pub fn truncate(&mut self, len: usize)
        requires { IsCharBoundary self.old len }
        ensures { self.new ≡ take len self.old }
    {
        match &mut self.0 {
            Held::Short(_, short) => short.truncate(len),
            Held::Long(long) => long.truncate(len),
        }
    }
}

impl Clone for Text {
    ghost is_clone = { λ a b. b ≡ a };

    fn clone(&self) -> Result<Text, AllocError> {
        Text::copied(self.allocator(), self.as_str())
    }
}

impl fmt::Write for Text {
    ghost use Rattle.std.specs.Prelude.{◌≡◌, ◌++◌};

    ghost write_str_gives = { λ text s more. more ≡ text ++ s };

    /// Appends `s`. Fails where memory is refused.
    fn write_str(&mut self, s: &str) -> fmt::Result
        ensures { IsOk result → self.new ≡ self.old ++ s.now }
    {
        match self.push_str(s) {
            Ok(()) => Ok(()),
            Err(_) => Err(fmt::Error),
        }
    }
}

impl PartialEq for Text {
    ghost eq = { bytes_eq };

    ghost laws = { Prim.search (comparing, rules) };

    fn eq(&self, other: &Text) -> bool {
        self.as_str() == other.as_str()
    }
}

impl Eq for Text {
    ghost laws = { Prim.search (comparing, rules) };
}

impl PartialOrd for Text {
    ghost partial_cmp = { λ a b. Some (slice_cmp nat_cmp a b) };

    ghost laws = { texts_po };

    fn partial_cmp(&self, other: &Text) -> Option<Ordering> {
        Some(self.cmp(other))
    }
}

/// By bytes, and so by the characters' numbers.
impl Ord for Text {
    ghost cmp = { slice_cmp nat_cmp };

    ghost total = { nat_list_cmp_total };

    ghost matches_partial_cmp = { λ a b. refl };

    ghost matches_eq = { texts_ties };

    fn cmp(&self, other: &Text) -> Ordering {
        self.as_str().cmp(other.as_str())
    }
}

impl Hash for Text {
    ghost hash_input = { fed.str };

    ghost respects_eq = { Prim.search (hashing, rules) };

    fn hash<H: Hasher>(&self, state: &mut H) {
        self.as_str().hash(state);
    }
}
