//! What a JSON value doesn't keep of its text: keys that stand twice in an object, and how numbers
//! are written that are no integers of 64 bits.
use crate::fault::{Pointer, Step};
use json::{Reader, Scratch, Token};
use serde_json::Number;
use std::alloc::{AllocError, Global};
use std::collections::BTreeMap;

/// How many lists and objects may be open at once. A text in which there are more is no JSON here.
const MAX_DEPTH: usize = 127;

/// What a JSON value doesn't keep of its text.
#[derive(Drop)]
pub struct Unkept {
    /// The ways to keys that stand more than once in their object, each once.
    pub repeated_keys: Vec<Pointer>,
    pub number_texts: NumberTexts,
}

impl Unkept {
    /// What isn't known of the text of a value.
    pub fn unknown(alloc: Global) -> Unkept {
        Unkept {
            repeated_keys: Vec::new(alloc),
            number_texts: NumberTexts {
                texts: BTreeMap::new(alloc),
            },
        }
    }

    /// What the value of a text doesn't keep of it. Of what is no JSON, only its beginning is read.
    ///
    /// # Errors
    ///
    /// Where memory is refused.
    pub fn of_text(alloc: Global, text: &str) -> Result<Unkept, AllocError> {
        let mut scratch = Scratch::new(alloc);
        unkept_of(alloc, text, &mut scratch)
    }

    /// What the value of these bytes doesn't keep of them. Bytes that are no UTF-8 have no value.
    ///
    /// # Errors
    ///
    /// Where memory is refused.
    pub fn of_bytes(alloc: Global, bytes: &[u8]) -> Result<Unkept, AllocError> {
        match str::from_utf8(bytes) {
            Ok(text) => Unkept::of_text(alloc, text),
            Err(_) => Ok(Unkept::unknown(alloc)),
        }
    }
}

fn unkept_of<'t>(
    alloc: Global,
    text: &'t str,
    scratch: &'t mut Scratch,
) -> Result<Unkept, AllocError> {
    let mut reader = Reader::new(text, scratch)?;
    let mut walk = Walk {
        alloc,
        open: Vec::new(alloc),
        keys: Vec::new(alloc),
        unkept: Unkept::unknown(alloc),
    };
    for _ in 0..text.len() {
        let Some(token) = reader.next() else {
            break;
        };
        walk.take(token)?;
        if walk.open.len() > MAX_DEPTH {
            break;
        }
    }
    Ok(walk.unkept)
}

/// The texts of numbers that are no integers of 64 bits.
#[derive(Drop)]
pub struct NumberTexts {
    /// By the pointers to the numbers.
    texts: BTreeMap<String, String>,
}

impl NumberTexts {
    /// Whether the text of a number may differ from what is written for its value.
    pub fn may_have(&self, number: &Number) -> bool {
        number.is_f64() && !self.texts.is_empty()
    }

    /// The text of the number at a place: as it stands in the JSON, where that is known.
    ///
    /// # Errors
    ///
    /// Where memory is refused.
    pub fn text_at(
        &self,
        alloc: Global,
        pointer: &Pointer,
        number: &Number,
    ) -> Result<String, AllocError> {
        let key = format!(in alloc; "{pointer}")?;
        match self.texts.get(&key) {
            Some(text) => text.clone(),
            None => format!(in alloc; "{number}"),
        }
    }
}

/// Whether a number is no integer of 64 bits.
fn is_wide(text: &str) -> bool {
    text == "-0" || (text.parse::<u64>().is_err() && text.parse::<i64>().is_err())
}

/// The words that stand more than once in a sorted list, each once.
fn repeated<'t>(alloc: Global, words: &[&'t str]) -> Result<Vec<&'t str>, AllocError> {
    let mut found: Vec<&'t str> = Vec::new(alloc);
    for (word, next) in words.iter().zip(words.iter().skip(1)) {
        if *word == *next && found.last().copied() != Some(*word) {
            found.push(*word)?;
        }
    }
    Ok(found)
}

// ---- the walk

/// A list or an object that is open, and where in it the walk stands.
#[derive(Clone, Copy)]
enum Open<'t> {
    /// In a list, at the item of this index.
    List(usize),
    /// In an object.
    Object {
        /// How many keys of other objects stand before its own.
        keys_before: usize,
        /// The last key.
        key: &'t str,
    },
}

/// A walk over the tokens of a text.
#[derive(Drop)]
struct Walk<'t> {
    alloc: Global,
    /// The outermost first.
    open: Vec<Open<'t>>,
    /// The keys of open objects, of the outermost first.
    keys: Vec<&'t str>,
    unkept: Unkept,
}

impl<'t> Walk<'t> {
    fn take(&mut self, token: Token<'t>) -> Result<(), AllocError> {
        match token {
            Token::BeginObject => self.open.push(Open::Object {
                keys_before: self.keys.len(),
                key: "",
            })?,
            Token::BeginArray => self.open.push(Open::List(0))?,
            Token::Key(key) => self.take_key(key)?,
            Token::EndObject => self.end_object()?,
            Token::EndArray => {
                let _ = self.open.pop();
                self.end_value();
            }
            Token::Number(text) => {
                self.take_number(text)?;
                self.end_value();
            }
            Token::String(_) | Token::Bool(_) | Token::Null | Token::Bad => self.end_value(),
        }
        Ok(())
    }

    fn take_key(&mut self, next: &'t str) -> Result<(), AllocError> {
        self.keys.push(next)?;
        if let Some(Open::Object { key, .. }) = self.open.last_mut() {
            *key = next;
        }
        Ok(())
    }

    fn take_number(&mut self, text: &str) -> Result<(), AllocError> {
        if is_wide(text) {
            let pointer = self.pointer()?;
            let pointer = format!(in self.alloc; "{pointer}")?;
            let text = String::from_str(self.alloc, text)?;
            self.unkept.number_texts.texts.insert(pointer, text)?;
        }
        Ok(())
    }

    /// A value ends: in a list the next item begins.
    fn end_value(&mut self) {
        if let Some(Open::List(index)) = self.open.last_mut() {
            *index = index.saturating_add(1);
        }
    }

    fn end_object(&mut self) -> Result<(), AllocError> {
        if let Some(Open::Object { keys_before, .. }) = self.open.pop() {
            self.note_repeated(keys_before)?;
            self.keys.truncate(keys_before);
        }
        self.end_value();
        Ok(())
    }

    /// Notes each key of the innermost object that stands more than once there.
    fn note_repeated(&mut self, keys_before: usize) -> Result<(), AllocError> {
        let Some(keys) = self.keys.as_mut_slice().get_mut(keys_before..) else {
            return Ok(());
        };
        keys.sort_unstable();
        for key in repeated(self.alloc, keys)? {
            self.note_key(key)?;
        }
        Ok(())
    }

    fn note_key(&mut self, key: &str) -> Result<(), AllocError> {
        let mut pointer = self.pointer()?;
        let key = String::from_str(self.alloc, key)?;
        pointer.steps.push(Step::Key(key))?;
        self.unkept.repeated_keys.push(pointer)?;
        Ok(())
    }

    /// The way to where the walk stands.
    fn pointer(&self) -> Result<Pointer, AllocError> {
        let mut steps = Vec::new(self.alloc);
        for open in &self.open {
            steps.push(match open {
                Open::List(index) => Step::Item(*index),
                Open::Object { key, .. } => Step::Key(String::from_str(self.alloc, *key)?),
            })?;
        }
        Ok(Pointer { steps })
    }
}
