//! The syntax of .bib files.
use crate::cursor::{Cursor, before_next_entry};
use crate::entry::{BibEntry, BibField, Problem};
use crate::places::{Places, text_before};
use reference_fields::strings::{Added, LONGEST_STRING, Strings, small};
use reference_items::reading::Fault;
use std::alloc::{AllocError, Global};

/// How many fields an entry may have.
const MOST_FIELDS: usize = 500;

/// The column behind an `@` with which a line begins.
const BEHIND_MARK: usize = 2;

/// How many faults of an entry are reported.
const MOST_FAULTS: usize = 5;

/// What stands in a .bib file.
#[derive(Drop)]
pub struct ReadEntries {
    /// In the order of the file. Their keys may repeat.
    pub entries: Vec<BibEntry>,
    pub faults: Vec<Fault>,
}

/// What is wrong with an entry.
#[derive(Clone, Copy, PartialEq, Eq)]
enum Wrong {
    Bracket,
    Key,
    Equals,
    Value,
    Unfinished,
    End,
    UnknownString,
    TooMuch,
    LongString,
    ManyFields,
}

fn reason_of(wrong: Wrong) -> &'static str {
    match wrong {
        Wrong::Bracket => "no brace and no parenthesis behind the type of an entry",
        Wrong::Key => "an entry without a key, left out",
        Wrong::Equals => "no `=` behind the name of a field: the rest of the entry is left out",
        Wrong::Value => "no value of a field: the rest of the entry is left out",
        Wrong::Unfinished => "a value without an end: the rest of the entry is left out",
        Wrong::End => "no comma behind a field, and no end: the rest of the entry is left out",
        Wrong::UnknownString => "there is no such string, left out",
        Wrong::TooMuch => "the entries have more than 10000000 bytes of strings, left out",
        Wrong::LongString => "a string of more than 100000 bytes, left out",
        Wrong::ManyFields => "an entry of more than 500 fields, the rest left out",
    }
}

/// Something wrong, and what is left of the file there.
#[derive(Clone, Copy)]
struct WrongAt<'t> {
    wrong: Wrong,
    rest: &'t str,
}

/// What was read of an entry.
#[derive(Drop)]
struct ReadEntry<'t> {
    entry: BibEntry,
    wrongs: Vec<WrongAt<'t>>,
    rest: &'t str,
    is_broken: bool,
}

/// The entries of a .bib file, with what strings give to them. What is wrong in an entry costs no
/// other.
///
/// # Errors
/// Where memory is refused.
pub fn read_entries(alloc: Global, text: &str) -> Result<ReadEntries, AllocError> {
    let mut file = File {
        alloc,
        strings: Strings::new(alloc)?,
        read: ReadEntries {
            entries: Vec::new(alloc),
            faults: Vec::new(alloc),
        },
        is_cut: false,
    };
    let mut places = Places { line: 1, column: 1 };
    let mut cursor = Cursor { rest: text };
    for _ in 0..text.len() {
        let Some(behind) = cursor.next_mark() else {
            break;
        };
        places = places.behind(text_before(cursor.rest, behind.rest));
        cursor = Cursor {
            rest: file.command(behind, places)?,
        };
        places = places.behind(text_before(behind.rest, cursor.rest));
    }
    Ok(file.read)
}

#[derive(Drop)]
struct File {
    alloc: Global,
    strings: Strings,
    read: ReadEntries,
    /// Whether an entry had no end, so that each ends before the next line that begins one.
    is_cut: bool,
}

impl File {
    /// Reads what follows an `@`, and gives what is left. An `@` that no name and no bracket
    /// follows is part of a remark, as all is that stands between entries.
    fn command<'t>(&mut self, begin: Cursor<'t>, places: Places) -> Result<&'t str, AllocError> {
        let mut ahead = begin;
        let name = ahead.take_name();
        if name.is_empty() || name.eq_ignore_ascii_case("comment") {
            return Ok(ahead.rest);
        }
        if !ahead.rest.trim_start().starts_with(['{', '(']) {
            if places.column == BEHIND_MARK {
                let place = places.behind(text_before(begin.rest, ahead.rest));
                self.fault(place, Wrong::Bracket)?;
            }
            return Ok(ahead.rest);
        }
        self.entry_with_end(begin, places)
    }

    /// Reads an entry, a string or a preamble, and gives what is left.
    fn entry_with_end<'t>(
        &mut self,
        begin: Cursor<'t>,
        places: Places,
    ) -> Result<&'t str, AllocError> {
        if !self.is_cut {
            let read = self.entry(begin)?;
            if !read.is_broken {
                return self.keep(begin.rest, begin.rest, read, places);
            }
            self.is_cut = true;
        }
        let part = before_next_entry(begin.rest);
        let read = self.entry(Cursor { rest: part })?;
        self.keep(begin.rest, part, read, places)
    }

    fn fault(&mut self, place: Places, wrong: Wrong) -> Result<(), AllocError> {
        self.read.faults.push(Fault {
            line: place.line,
            column: place.column,
            reason: String::from_str(self.alloc, reason_of(wrong))?,
        })?;
        Ok(())
    }

    /// Keeps what was read of a part, and gives what is left.
    fn keep<'t>(
        &mut self,
        text: &'t str,
        part: &'t str,
        read: ReadEntry<'t>,
        places: Places,
    ) -> Result<&'t str, AllocError> {
        for wrong in &read.wrongs {
            self.fault(places.behind(text_before(part, wrong.rest)), wrong.wrong)?;
        }
        let length = if read.is_broken {
            part.len()
        } else {
            text_before(part, read.rest).len()
        };
        if !read.entry.key.is_empty() {
            self.read.entries.push(read.entry)?;
        }
        Ok(text.get(length..).unwrap_or(""))
    }

    /// Reads an entry, a string or a preamble.
    fn entry<'t>(&mut self, cursor: Cursor<'t>) -> Result<ReadEntry<'t>, AllocError> {
        let mut body = Body {
            alloc: self.alloc,
            cursor,
            wrongs: Vec::new(self.alloc),
            is_broken: false,
            in_braces: true,
        };
        let kind = small(self.alloc, body.cursor.take_name())?;
        let mut entry = BibEntry {
            key: String::new(self.alloc),
            kind,
            fields: Vec::new(self.alloc),
            problems: Vec::new(self.alloc),
        };
        self.body(&mut body, &mut entry)?;
        Ok(ReadEntry {
            entry,
            wrongs: body.wrongs,
            rest: body.cursor.rest,
            is_broken: body.is_broken,
        })
    }

    /// Reads what stands in the brackets of an entry, and the brackets.
    fn body(&mut self, body: &mut Body<'_>, entry: &mut BibEntry) -> Result<(), AllocError> {
        body.begin();
        match entry.kind.as_str() {
            "string" => self.string(body)?,
            "preamble" => {
                let _ = body.value(&mut self.strings)?;
            }
            _ => self.fields(body, entry)?,
        }
        body.end()
    }

    /// Reads a string.
    fn string(&mut self, body: &mut Body<'_>) -> Result<(), AllocError> {
        let Some((name, value)) = body.field(&mut self.strings)? else {
            return Ok(());
        };
        if value.len() > LONGEST_STRING {
            return body.wrong(Wrong::LongString);
        }
        self.strings.set(name, value)
    }

    /// Reads the key of an entry and its fields.
    fn fields(&mut self, body: &mut Body<'_>, entry: &mut BibEntry) -> Result<(), AllocError> {
        let key = body.cursor.take_key(body.in_braces);
        if key.is_empty() {
            return body.breaks(Wrong::Key);
        }
        entry.key.push_str(key)?;
        for _ in 0..body.cursor.rest.len() {
            if !body.cursor.takes(',') || body.is_broken {
                break;
            }
            if let Some((name, value)) = body.field(&mut self.strings)? {
                body.add(entry, name, value)?;
            }
        }
        Ok(())
    }
}

/// An entry that is read.
#[derive(Drop)]
struct Body<'t> {
    alloc: Global,
    cursor: Cursor<'t>,
    wrongs: Vec<WrongAt<'t>>,
    is_broken: bool,
    in_braces: bool,
}

impl<'t> Body<'t> {
    /// Notes something wrong.
    fn wrong(&mut self, wrong: Wrong) -> Result<(), AllocError> {
        if self.wrongs.len() < MOST_FAULTS {
            let rest = self.cursor.rest;
            self.wrongs.push(WrongAt { wrong, rest })?;
        }
        Ok(())
    }

    /// Notes something wrong that ends the entry.
    fn breaks(&mut self, wrong: Wrong) -> Result<(), AllocError> {
        self.is_broken = true;
        self.wrong(wrong)
    }

    /// Takes the bracket at the beginning.
    fn begin(&mut self) {
        self.in_braces = self.cursor.takes('{');
        if !self.in_braces {
            let _ = self.cursor.takes('(');
        }
    }

    /// Takes the bracket at the end.
    fn end(&mut self) -> Result<(), AllocError> {
        let is_there = self.cursor.takes(if self.in_braces { '}' } else { ')' });
        if is_there || self.is_broken {
            return Ok(());
        }
        self.breaks(Wrong::End)
    }

    /// Reads a field, if one begins here.
    fn field(&mut self, strings: &mut Strings) -> Result<Option<(&'t str, String)>, AllocError> {
        let name = self.cursor.take_name();
        if name.is_empty() {
            return Ok(None);
        }
        if !self.cursor.takes('=') {
            self.breaks(Wrong::Equals)?;
            return Ok(None);
        }
        let value = self.value(strings)?;
        if self.is_broken {
            return Ok(None);
        }
        Ok(Some((name, value)))
    }

    /// Reads a value: texts, numbers and strings, joined by `#`.
    fn value(&mut self, strings: &mut Strings) -> Result<String, AllocError> {
        let mut value = String::new(self.alloc);
        for _ in 0..self.cursor.rest.len() {
            self.part(strings, &mut value)?;
            if self.is_broken || !self.cursor.takes('#') {
                break;
            }
        }
        Ok(value)
    }

    /// Reads a part of a value.
    fn part(&mut self, strings: &mut Strings, value: &mut String) -> Result<(), AllocError> {
        self.cursor.skip_space();
        let begin = self.cursor;
        if self.cursor.takes('{') {
            return self.text(begin, '}', value);
        }
        if self.cursor.takes('"') {
            return self.text(begin, '"', value);
        }
        let word = self.cursor.take_name();
        if word.is_empty() {
            return self.breaks(Wrong::Value);
        }
        if word.bytes().all(|byte| byte.is_ascii_digit()) {
            return value.push_str(word);
        }
        let added = if value.len() > LONGEST_STRING {
            Added::TooMuch
        } else {
            strings.push(word, value)?
        };
        self.note_added(begin, added)
    }

    /// Notes a string that wasn't added, where it stands.
    fn note_added(&mut self, begin: Cursor<'t>, added: Added) -> Result<(), AllocError> {
        let behind = self.cursor;
        self.cursor = begin;
        match added {
            Added::Whole => {}
            Added::Unknown => self.wrong(Wrong::UnknownString)?,
            Added::TooMuch => self.wrong(Wrong::TooMuch)?,
        }
        self.cursor = behind;
        Ok(())
    }

    /// Reads a text up to its end. Where it has none, the fault is at its beginning.
    fn text(&mut self, begin: Cursor<'t>, end: char, value: &mut String) -> Result<(), AllocError> {
        match self.cursor.take_text(end) {
            Some(text) => value.push_str(text),
            None => {
                self.cursor = begin;
                self.breaks(Wrong::Unfinished)
            }
        }
    }

    /// Adds a field to an entry. The first of a name counts.
    fn add(&mut self, entry: &mut BibEntry, name: &str, value: String) -> Result<(), AllocError> {
        if entry.fields.len() >= MOST_FIELDS {
            self.is_broken = true;
            return self.wrong(Wrong::ManyFields);
        }
        let name = small(self.alloc, name)?;
        if entry.field(name.as_str()).is_some() {
            entry.problems.push(Problem {
                field: name,
                reason: String::from_str(self.alloc, "a second field of this name, left out")?,
            })?;
            return Ok(());
        }
        let value = single_spaced(self.alloc, value.as_str())?;
        if !value.is_empty() {
            entry.fields.push(BibField { name, value })?;
        }
        Ok(())
    }
}

/// The text with single spaces, and with none at both ends.
fn single_spaced(alloc: Global, text: &str) -> Result<String, AllocError> {
    let mut out = String::new(alloc);
    for word in text.split_whitespace() {
        if !out.is_empty() {
            out.push(' ')?;
        }
        out.push_str(word)?;
    }
    Ok(out)
}
