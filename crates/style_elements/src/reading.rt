//! What stays with a reader on its way through a file.
use crate::attributes::nearest_row;
use crate::fault::Wanted;
use crate::macros::MacroTable;
use crate::refusal::Refusal;
use crate::stop::Stop;
use crate::warning::{Note, Oddity};
use std::alloc::{AllocError, Global};

/// For how many notes it is guessed what was meant.
const MOST_GUESSES: usize = 1_000;

/// How many faults of a file are found at most.
const MOST_FAULTS: usize = 20;

/// What stays with a reader on its way through a file.
#[derive(Drop)]
pub struct Reading<'t> {
    pub alloc: Global,
    pub macros: MacroTable<'t>,
    pub notes: Vec<Note>,
    /// What is wrong in parts of the file behind which the reader went on.
    faults: Vec<Stop>,
}

impl<'t> Reading<'t> {
    /// At the beginning of a file with these macros.
    pub fn new(alloc: Global, macros: MacroTable<'t>) -> Reading<'t> {
        Reading {
            alloc,
            macros,
            notes: Vec::new(alloc),
            faults: Vec::new(alloc),
        }
    }

    /// Goes on behind a part of the file: where something is wrong in it, that is noted, and there
    /// is no such part.
    ///
    /// # Errors
    ///
    /// What is wrong, where enough was; `OutOfMemory`.
    pub fn go_on<T: Drop>(&mut self, part: Result<T, Stop>) -> Result<Option<T>, Stop> {
        match part {
            Ok(part) => Ok(Some(part)),
            Err(Stop::OutOfMemory) => Err(Stop::OutOfMemory),
            Err(stop) => {
                if self.faults.len() + 1 >= MOST_FAULTS {
                    return Err(stop);
                }
                self.faults.push(stop)?;
                Ok(None)
            }
        }
    }

    /// Two parts of the file, where both are right. Where both are wrong, it is noted of the second
    /// one.
    ///
    /// # Errors
    ///
    /// What is wrong in one of them; `OutOfMemory`.
    pub fn both<A: Drop, B: Drop>(
        &mut self,
        first: Result<A, Stop>,
        second: Result<B, Stop>,
    ) -> Result<(A, B), Stop> {
        match first {
            Ok(first) => Ok((first, second?)),
            Err(stop) => {
                self.go_on(second)?;
                Err(stop)
            }
        }
    }

    /// Whether it may be guessed what an unknown word was meant to be.
    pub fn may_guess(&self) -> bool {
        self.notes.len() < MOST_GUESSES
    }

    /// The name of a row that is nearest to an unknown word; none where there were enough guesses.
    pub fn nearest_row<T>(
        &self,
        word: &str,
        rows: &[(&'static str, T)],
    ) -> Result<Option<&'static str>, AllocError> {
        if !self.may_guess() {
            return Ok(None);
        }
        nearest_row(self.alloc, word, rows)
    }

    /// Something odd was found at this offset.
    pub fn note(&mut self, offset: usize, found: &str, oddity: Oddity) -> Result<(), Stop> {
        self.notes
            .push(Note::at(self.alloc, offset, found, oddity)?)?;
        Ok(())
    }

    /// Something wrong was found at this offset.
    pub fn stop(&self, offset: usize, found: &str, wanted: Wanted) -> Stop {
        Stop::at(self.alloc, offset, found, wanted)
    }

    /// What came of a file, with what was odd in it, in the order in which that was found; or else
    /// all that is wrong with it.
    pub fn settled<T: Drop>(self, outcome: Result<T, Stop>) -> Result<(T, Vec<Note>), Refusal> {
        let Reading {
            alloc: _,
            macros: _macros,
            notes,
            faults,
        } = self;
        let mut before = faults;
        match outcome {
            Ok(value) => match before.pop() {
                None => Ok((value, notes)),
                Some(last) => Err(Refusal { before, last }),
            },
            Err(last) => Err(Refusal { before, last }),
        }
    }
}
