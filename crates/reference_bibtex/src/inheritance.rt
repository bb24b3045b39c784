//! What entries inherit by `crossref` and `xdata`.
use crate::entry::BibEntry;
use reference_fields::strings::small;
use reference_fields::tables::{is_part_of_book, is_whole_book};
use std::alloc::{AllocError, Global};
use std::collections::BTreeMap;
use std::mem::replace;

/// From how many entries one inherits, counted each time that it does.
const MOST_PARENTS: usize = 100;

/// How many steps are made for an entry: each looks up a parent, or ends one.
const MOST_STEPS: usize = 20_000;

/// A field of an entry, or one that it inherits.
#[derive(Clone, Copy)]
pub(crate) struct Field<'e> {
    pub(crate) name: &'e str,
    pub(crate) value: &'e str,
}

/// What is wrong in a field.
#[derive(Drop)]
pub(crate) struct Trouble<'e> {
    pub(crate) field: &'e str,
    pub(crate) reason: String,
}

/// An entry with what it inherits.
#[derive(Drop)]
pub(crate) struct Whole<'e> {
    pub(crate) key: &'e str,
    pub(crate) kind: &'e str,
    pub(crate) fields: Vec<Field<'e>>,
    pub(crate) troubles: Vec<Trouble<'e>>,
}

impl<'e> Whole<'e> {
    pub(crate) fn value(&self, name: &str) -> Option<&'e str> {
        let field = self.fields.iter().find(|field| field.name == name)?;
        Some(field.value)
    }

    pub(crate) fn has(&self, name: &str) -> bool {
        self.fields.iter().any(|field| field.name == name)
    }

    /// Adds a field, unless there is one of its name.
    fn add(&mut self, field: Field<'e>) -> Result<(), AllocError> {
        if !self.has(field.name) {
            self.fields.push(field)?;
        }
        Ok(())
    }

    fn trouble(&mut self, field: &'e str, reason: String) -> Result<(), AllocError> {
        self.troubles.push(Trouble { field, reason })?;
        Ok(())
    }
}

/// The indexes of entries by their keys.
#[derive(Drop)]
pub(crate) struct Keys {
    exact: BTreeMap<String, usize>,
    /// By their keys in small letters.
    folded: BTreeMap<String, usize>,
}

impl Keys {
    pub(crate) fn of(alloc: Global, entries: &[BibEntry]) -> Result<Keys, AllocError> {
        let mut keys = Keys {
            exact: BTreeMap::new(alloc),
            folded: BTreeMap::new(alloc),
        };
        for (index, entry) in entries.iter().enumerate() {
            add_key(&mut keys.exact, entry.key.clone()?, index)?;
            add_key(&mut keys.folded, small(alloc, entry.key.as_str())?, index)?;
        }
        Ok(keys)
    }

    /// The index of the first entry of this key, in its case or in any.
    pub(crate) fn index_of(&self, alloc: Global, key: &str) -> Result<Option<usize>, AllocError> {
        if let Some(index) = self.exact.get(key) {
            return Ok(Some(*index));
        }
        let folded = small(alloc, key)?;
        Ok(self.folded.get(folded.as_str()).copied())
    }
}

/// Adds the index of a key, unless it has one.
fn add_key(
    keys: &mut BTreeMap<String, usize>,
    key: String,
    index: usize,
) -> Result<(), AllocError> {
    if !keys.contains_key(key.as_str()) {
        keys.insert(key, index)?;
    }
    Ok(())
}

/// How an entry inherits.
#[derive(Clone, Copy, PartialEq, Eq)]
enum Via {
    Xdata,
    Crossref,
}

fn field_of(via: Via) -> &'static str {
    match via {
        Via::Xdata => "xdata",
        Via::Crossref => "crossref",
    }
}

/// An entry from which another one inherits.
#[derive(Clone, Copy)]
struct Parent<'e> {
    via: Via,
    key: &'e str,
}

/// An entry whose parents are looked up.
#[derive(Drop)]
struct Frame<'e> {
    whole: Whole<'e>,
    /// The parents that are left, the next one last.
    left: Vec<Parent<'e>>,
    /// How the entry below it inherits.
    via: Via,
}

fn frame_of<'e>(alloc: Global, entry: &'e BibEntry, via: Via) -> Result<Frame<'e>, AllocError> {
    let mut whole = Whole {
        key: entry.key.as_str(),
        kind: entry.kind.as_str(),
        fields: Vec::with_capacity(alloc, entry.fields.len())?,
        troubles: Vec::new(alloc),
    };
    for field in &entry.fields {
        whole.fields.push(Field {
            name: field.name.as_str(),
            value: field.value.as_str(),
        })?;
    }
    for problem in &entry.problems {
        let reason = problem.reason.clone()?;
        whole.trouble(problem.field.as_str(), reason)?;
    }
    let left = parents_of(alloc, entry)?;
    Ok(Frame { whole, left, via })
}

/// The entries from which one inherits, the first one last: `xdata` from its end on, and
/// `crossref`.
fn parents_of<'e>(alloc: Global, entry: &'e BibEntry) -> Result<Vec<Parent<'e>>, AllocError> {
    let mut parents = Vec::new(alloc);
    if let Some(key) = entry.field("crossref") {
        parents.push(Parent {
            via: Via::Crossref,
            key: key.trim(),
        })?;
    }
    let keys = entry.field("xdata").unwrap_or("");
    for key in keys.split(',').take(MOST_PARENTS) {
        if !key.trim().is_empty() {
            parents.push(Parent {
                via: Via::Xdata,
                key: key.trim(),
            })?;
        }
    }
    Ok(parents)
}

/// The entry at an index with what it inherits, also by entries that themselves inherit. What is
/// behind too many of them is left out.
///
/// # Errors
/// Where memory is refused.
pub(crate) fn whole_of<'e>(
    alloc: Global,
    entries: &'e [BibEntry],
    keys: &Keys,
    entry: &'e BibEntry,
    is_biblatex: bool,
) -> Result<Whole<'e>, AllocError> {
    let mut walk = Walk {
        alloc,
        frame: frame_of(alloc, entry, Via::Xdata)?,
        below: Vec::new(alloc),
        budget: MOST_PARENTS,
        is_biblatex,
    };
    for _ in 0..MOST_STEPS {
        match walk.frame.left.pop() {
            Some(parent) => walk.look_up(entries, keys, parent)?,
            None => match walk.below.pop() {
                Some(below) => walk.inherit(below)?,
                None => break,
            },
        }
    }
    Ok(walk.frame.whole)
}

#[derive(Drop)]
struct Walk<'e> {
    alloc: Global,
    /// The entry whose parents are looked up.
    frame: Frame<'e>,
    /// Those that inherit from it, the nearest last.
    below: Vec<Frame<'e>>,
    /// From how many entries it may still inherit.
    budget: usize,
    is_biblatex: bool,
}

impl<'e> Walk<'e> {
    /// Goes to a parent, or says why not.
    fn look_up(
        &mut self,
        entries: &'e [BibEntry],
        keys: &Keys,
        parent: Parent<'e>,
    ) -> Result<(), AllocError> {
        let key = parent.key;
        let index = keys.index_of(self.alloc, key)?;
        let Some(entry) = index.and_then(|index| entries.get(index)) else {
            let reason = format!(in self.alloc; "there is no entry {key}")?;
            return self.frame.whole.trouble(field_of(parent.via), reason);
        };
        if self.is_open(entry.key.as_str()) {
            let reason = format!(in self.alloc; "a ring of entries, with {key}")?;
            return self.frame.whole.trouble(field_of(parent.via), reason);
        }
        if self.budget == 0 {
            self.frame.left.clear();
            let reason = "more than 100 entries to inherit from, the rest left out";
            let reason = String::from_str(self.alloc, reason)?;
            return self.frame.whole.trouble(field_of(parent.via), reason);
        }
        self.budget = self.budget.saturating_sub(1);
        let above = frame_of(self.alloc, entry, parent.via)?;
        self.enter(above)
    }

    fn enter(&mut self, above: Frame<'e>) -> Result<(), AllocError> {
        let below = replace(&mut self.frame, above);
        self.below.push(below)?;
        Ok(())
    }

    /// Whether the entry of this key is one whose parents are looked up.
    fn is_open(&self, key: &str) -> bool {
        self.frame.whole.key == key || self.below.iter().any(|frame| frame.whole.key == key)
    }

    /// Gives what an entry has to the one below it.
    fn inherit(&mut self, below: Frame<'e>) -> Result<(), AllocError> {
        let above = replace(&mut self.frame, below);
        let child = &mut self.frame.whole;
        let parent = above.whole;
        let rules = rules_of(&parent, child, above.via, self.is_biblatex);
        for field in &parent.fields {
            if let Some(field) = given(*field, rules) {
                child.add(field)?;
            }
        }
        if rules.gives_author {
            if let Some(value) = parent.value("author") {
                child.add(Field {
                    name: "bookauthor",
                    value,
                })?;
            }
        }
        for trouble in parent.troubles {
            if matches!(trouble.field, "xdata" | "crossref") {
                child.troubles.push(trouble)?;
            }
        }
        Ok(())
    }
}

// ---- which fields are given

/// What the titles of a parent are to its child.
#[derive(Clone, Copy, PartialEq, Eq)]
enum Prefix {
    /// Its own.
    None,
    /// Those of all volumes.
    Main,
    Book,
    Journal,
}

/// Which fields a parent gives.
#[derive(Clone, Copy)]
struct Rules {
    via: Via,
    prefix: Prefix,
    gives_dates: bool,
    /// Whether the child has no such title.
    gives_titles: bool,
    /// Whether the author of the parent is that of the child's book.
    gives_author: bool,
}

fn rules_of(parent: &Whole<'_>, child: &Whole<'_>, via: Via, is_biblatex: bool) -> Rules {
    let prefix = if is_biblatex {
        prefix_of(parent, child.kind)
    } else {
        Prefix::None
    };
    let is_in_book = matches!(parent.kind, "book" | "mvbook") && is_part_of_one_author(child.kind);
    Rules {
        via,
        prefix,
        gives_dates: !child.has("date") && !child.has("year"),
        gives_titles: !child.has(prefixed(prefix, "title")),
        gives_author: is_biblatex && is_in_book && via == Via::Crossref,
    }
}

fn is_part_of_one_author(kind: &str) -> bool {
    matches!(kind, "inbook" | "bookinbook" | "suppbook")
}

fn is_of_volumes(kind: &str) -> bool {
    matches!(
        kind,
        "mvbook" | "mvcollection" | "mvproceedings" | "mvreference"
    )
}

fn prefix_of(parent: &Whole<'_>, child: &str) -> Prefix {
    let is_book = is_whole_book(parent.kind) && !is_of_volumes(parent.kind);
    let is_child_book = is_whole_book(child) && !is_of_volumes(child);
    if is_of_volumes(parent.kind) && (is_part_of_book(child) || is_child_book) {
        return Prefix::Main;
    }
    if is_book && is_part_of_book(child) {
        // (parents made for BibTeX tell the title of the book for their children)
        let is_for_bibtex = parent.kind == "book" && !is_part_of_one_author(child);
        return if is_for_bibtex && parent.has("booktitle") {
            Prefix::None
        } else {
            Prefix::Book
        };
    }
    if parent.kind == "periodical" && matches!(child, "article" | "suppperiodical") {
        return Prefix::Journal;
    }
    Prefix::None
}

/// The name of a title in the child.
fn prefixed(prefix: Prefix, title: &str) -> &'static str {
    match (prefix, title) {
        (Prefix::None, "title") => "title",
        (Prefix::None, "subtitle") => "subtitle",
        (Prefix::None, _) => "titleaddon",
        (Prefix::Main, "title") => "maintitle",
        (Prefix::Main, "subtitle") => "mainsubtitle",
        (Prefix::Main, _) => "maintitleaddon",
        (Prefix::Book, "title") => "booktitle",
        (Prefix::Book, "subtitle") => "booksubtitle",
        (Prefix::Book, _) => "booktitleaddon",
        (Prefix::Journal, "title") => "journaltitle",
        (Prefix::Journal, "subtitle") => "journalsubtitle",
        (Prefix::Journal, _) => "journaltitleaddon",
    }
}

/// What kind of field it is, as it is given.
#[derive(Clone, Copy, PartialEq, Eq)]
enum FieldKind {
    Title,
    ShortTitle,
    Date,
    /// It is never given.
    Own,
    Other,
}

fn kind_of_field(name: &str) -> FieldKind {
    match name {
        "title" | "subtitle" | "titleaddon" => FieldKind::Title,
        "shorttitle" | "sorttitle" | "indextitle" | "indexsorttitle" => FieldKind::ShortTitle,
        "date" | "year" | "month" | "day" | "endyear" | "endmonth" | "endday" => FieldKind::Date,
        "ids"
        | "crossref"
        | "xref"
        | "xdata"
        | "entryset"
        | "entrysubtype"
        | "execute"
        | "label"
        | "options"
        | "presort"
        | "related"
        | "relatedoptions"
        | "relatedstring"
        | "relatedtype"
        | "shorthand"
        | "shorthandintro"
        | "sortkey" => FieldKind::Own,
        _ => FieldKind::Other,
    }
}

/// Whether the name is that which a title of the parent has in the child.
fn is_prefixed(prefix: Prefix, name: &str) -> bool {
    prefix != Prefix::None
        && (name == prefixed(prefix, "title")
            || name == prefixed(prefix, "subtitle")
            || name == prefixed(prefix, "titleaddon"))
}

/// The field as the child has it; none where it isn't given.
fn given<'e>(field: Field<'e>, rules: Rules) -> Option<Field<'e>> {
    if rules.via == Via::Xdata {
        return if field.name == "ids" {
            None
        } else {
            Some(field)
        };
    }
    match kind_of_field(field.name) {
        FieldKind::Own => None,
        FieldKind::Date if !rules.gives_dates => None,
        FieldKind::ShortTitle if rules.prefix != Prefix::None || !rules.gives_titles => None,
        FieldKind::Title if !rules.gives_titles => None,
        FieldKind::Title => Some(Field {
            name: prefixed(rules.prefix, field.name),
            value: field.value,
        }),
        _ if is_prefixed(rules.prefix, field.name) => None,
        _ => Some(field),
    }
}
