//! CSL-JSON: lines for the references of each document and its warnings, or one with its fault, and
//! an empty line.
use crate::dump::Dump;
use crate::task::Task;
use reference_json::fault::ReferencesError;
use reference_json::reading::{ReadReferences, read_references};
use reference_values::date::{Date, DateSpan, PartialDate, Season, YearPart};
use reference_values::name::{Name, PersonName};
use reference_values::reference::Reference;
use reference_values::rich_text::{Baseline, RichText, RunStyle};
use serde_json::Value;
use std::alloc::Global;

/// Appends the lines of a document.
pub fn say(rt: &(impl Eprint + AllocGlobal), task: Task, document: &[u8], dump: &mut Dump) {
    let outcome = read_references(rt.alloc(), document);
    task.tell(rt, "show");
    match outcome {
        Ok(read) => {
            dump_read(&read, dump);
            drop(read);
        }
        Err(ReferencesError::OutOfMemory) => dump.cut(),
        Err(fault) => dump.shown_line("fault", &fault),
    }
    dump.close();
}

/// How many references a document has.
pub fn count(alloc: Global, document: &[u8]) -> usize {
    match read_references(alloc, document) {
        Ok(read) => {
            let count = read.references.len();
            drop(read);
            count
        }
        Err(error) => {
            drop(error);
            0
        }
    }
}

/// 1 where a document is JSON.
pub fn count_values(alloc: Global, document: &[u8]) -> usize {
    match str::from_utf8(document) {
        Ok(text) => usize::from(Value::from_str(alloc, text).is_ok()),
        Err(_) => 0,
    }
}

/// Appends all references and warnings.
fn dump_read(read: &ReadReferences, dump: &mut Dump) {
    for reference in read.references.as_slice() {
        dump_reference(reference, dump);
    }
    for warning in &read.warnings {
        dump.shown_line("warning", warning);
    }
}

/// Appends a reference: a line with its id and its type, and a line for each variable.
fn dump_reference(reference: &Reference, dump: &mut Dump) {
    dump.push_str("reference ");
    dump.quoted(reference.id.as_str());
    dump.put(" ", reference.item_type.name());
    dump.close();
    for (variable, text) in &reference.texts {
        dump.put("text ", variable.name());
        dump_rich(text, dump);
    }
    for (variable, text) in &reference.numbers {
        dump.put("number ", variable.name());
        dump_rich(text, dump);
    }
    for (variable, date) in &reference.dates {
        dump.put("date ", variable.name());
        dump_date(date, dump);
    }
    for (variable, names) in &reference.names {
        dump.put("names ", variable.name());
        dump_names(names, dump);
    }
}

/// Appends the rest of a line with a text.
fn dump_rich(text: &RichText, dump: &mut Dump) {
    for run in &text.runs {
        dump.push(' ');
        dump_run_style(run.style, dump);
        dump.quoted(run.text.as_str());
    }
    dump.close();
}

/// Appends what a run has that plain text has not.
fn dump_run_style(style: RunStyle, dump: &mut Dump) {
    let marks = [
        (style.italic, "i "),
        (style.bold, "b "),
        (style.small_caps, "sc "),
        (style.baseline == Baseline::Superscript, "sup "),
        (style.baseline == Baseline::Subscript, "sub "),
        (style.keeps_case, "nocase "),
    ];
    for (is_so, mark) in marks {
        if is_so {
            dump.push_str(mark);
        }
    }
}

/// Appends the rest of a line with a date.
fn dump_date(date: &Date, dump: &mut Dump) {
    if date.is_uncertain {
        dump.push_str(" circa");
    }
    match &date.span {
        Some(DateSpan::On(point)) => dump_point("", point, dump),
        Some(DateSpan::Between(first, last)) => {
            dump_point("", first, dump);
            dump_point(" to", last, dump);
        }
        Some(DateSpan::Since(first)) => dump_point(" since", first, dump),
        Some(DateSpan::Until(last)) => dump_point(" until", last, dump),
        None => {}
    }
    dump_part(" literal ", &date.literal, dump);
    dump.close();
}

/// Appends a point of time, behind a word.
fn dump_point(word: &str, point: &PartialDate, dump: &mut Dump) {
    dump.put(word, " ");
    dump.show(&point.year);
    match &point.part {
        None => {}
        Some(YearPart::Season(season)) => dump.put(" ", season_name(*season)),
        Some(YearPart::Named(name)) => {
            dump.push(' ');
            dump.quoted(name.as_str());
        }
        Some(YearPart::Month(month)) => dump_number(month.number(), dump),
        Some(YearPart::Day(month, day)) => {
            dump_number(month.number(), dump);
            dump_number(day.number(), dump);
        }
    }
}

/// Appends the number of a month or a day.
fn dump_number(number: u8, dump: &mut Dump) {
    dump.push('-');
    dump.show(&number);
}

fn season_name(season: Season) -> &'static str {
    match season {
        Season::Spring => "spring",
        Season::Summer => "summer",
        Season::Autumn => "autumn",
        Season::Winter => "winter",
    }
}

/// Appends a part of a name or a date behind its word, where there is the part.
fn dump_part(word: &str, part: &Option<String>, dump: &mut Dump) {
    if let Some(part) = part {
        dump.push_str(word);
        dump.quoted(part.as_str());
    }
}

/// Appends the rest of a line with names.
fn dump_names(names: &[Name], dump: &mut Dump) {
    let mut between = "";
    for name in names {
        dump.push_str(between);
        between = ";";
        match name {
            Name::Person(person) => dump_person(person, dump),
            Name::Literal(literal) => {
                dump.push_str(" literal ");
                dump.quoted(literal.as_str());
            }
        }
    }
    dump.close();
}

fn dump_person(name: &PersonName, dump: &mut Dump) {
    dump_part(" given ", &name.given, dump);
    dump_part(" dropping ", &name.dropping_particle, dump);
    dump_part(" particle ", &name.non_dropping_particle, dump);
    dump_part(" family ", &name.family, dump);
    dump_part(" suffix ", &name.suffix, dump);
    if name.has_comma_suffix {
        dump.push_str(" comma-suffix");
    }
    if name.has_static_ordering {
        dump.push_str(" static-ordering");
    }
}
