//! The known word that is nearest to one that isn't.
use std::alloc::{AllocError, Global};
use strsim::osa_distance;

/// How many letters two words may differ in at most to be near.
const MAX_DISTANCE: usize = 2;

/// How long a word may be at most to be near another.
const MAX_LENGTH: usize = 40;

/// The nearest of some words to another word, as far as they were looked at.
#[derive(Drop)]
pub struct Nearest<'w, 'c> {
    alloc: Global,
    word: &'w str,
    best: Option<(&'c str, usize)>,
}

impl<'w, 'c> Nearest<'w, 'c> {
    /// Nothing was looked at yet.
    pub fn new(alloc: Global, word: &'w str) -> Nearest<'w, 'c> {
        Nearest {
            alloc,
            word,
            best: None,
        }
    }

    /// Looks at a word. The first of those at the least distance is the nearest.
    ///
    /// # Errors
    ///
    /// Where memory is refused.
    pub fn consider(&mut self, candidate: &'c str) -> Result<(), AllocError> {
        let difference = self.word.len().abs_diff(candidate.len());
        if difference > MAX_DISTANCE || self.word.len() > MAX_LENGTH {
            return Ok(());
        }
        let distance = osa_distance(self.alloc, self.word, candidate)?;
        let is_near = distance <= MAX_DISTANCE && distance * 2 < candidate.len();
        if is_near && self.best.is_none_or(|best| distance < best.1) {
            self.best = Some((candidate, distance));
        }
        Ok(())
    }

    /// The nearest word; none where none is near.
    pub fn word(self) -> Option<&'c str> {
        self.best.map(|best| best.0)
    }
}
