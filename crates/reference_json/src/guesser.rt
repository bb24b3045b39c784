//! Guesses at what an unknown name was meant to be.
ghost use Rattle.std.specs.Prelude.{◌≤◌, max};
ghost use Rattle.std.specs.BTreeMap.{btree_map_len};

use std::alloc::{AllocError, Global};
use std::collections::BTreeMap;
use strsim::osa_distance;

/// The longest name, in bytes, for which a guess is made.
pub const LONGEST_GUESSED: usize = 40;

/// For how many names of a kind a guess is made.
pub const MOST_GUESSES: usize = 1000;

/// What guesses at names of a kind.
#[derive(Drop)]
pub(crate) struct Guesser {
    alloc: Global,
    known: Vec<&'static str>,
    /// The guesses that were made.
    made: BTreeMap<String, Option<&'static str>>,
}

/// The known name that differs from the word in case alone, or else the one that fewest edits make
/// of it: for each three bytes of the word one edit at most.
fn nearest(
    alloc: Global,
    known: &[&'static str],
    word: &str,
) -> Result<Option<&'static str>, AllocError> {
    let mut guess = None;
    let mut most = word.len() / 3;
    for name in known {
        if word.eq_ignore_ascii_case(*name) {
            return Ok(Some(*name));
        }
        let distance = osa_distance(alloc, *name, word)?;
        if distance <= most && distance > 0 {
            guess = Some(*name);
            most = distance - 1;
        }
    }
    Ok(guess)
}

impl Guesser {
    pub(crate) fn new(alloc: Global, known: Vec<&'static str>) -> Guesser {
        Guesser {
            alloc,
            known,
            made: BTreeMap::new(alloc),
        }
    }

    /// The known name that the word may have been meant to be.
    pub(crate) fn guess(&mut self, word: &str) -> Result<Option<&'static str>, AllocError>
        ensures { btree_map_len self.new.made ≤ max (btree_map_len self.old.made) MOST_GUESSES }
    {
        if word.len() > LONGEST_GUESSED {
            return Ok(None);
        }
        if let Some(guess) = self.made.get(word) {
            return Ok(*guess);
        }
        if self.made.len() >= MOST_GUESSES {
            return Ok(None);
        }
        let guess = nearest(self.alloc, &self.known, word)?;
        let word = String::from_str(self.alloc, word)?;
        self.made.insert(word, guess)?;
        Ok(guess)
    }
}
