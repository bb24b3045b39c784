//! Items as CSL-JSON.
use crate::item::{DateNumbers, Item, ItemDate, ItemName, Member, MemberValue};
use std::alloc::{AllocError, Global};

/// The items as a list in JSON, each member on a line.
///
/// # Errors
/// Where memory is refused.
pub fn json_of(alloc: Global, items: &[Item]) -> Result<String, AllocError> {
    let mut out = String::from_str(alloc, "[")?;
    let mut between = "\n";
    for item in items {
        out.push_str(between)?;
        push_item(&mut out, item)?;
        between = ",\n";
    }
    out.push_str("\n]\n")?;
    Ok(out)
}

fn push_item(out: &mut String, item: &Item) -> Result<(), AllocError> {
    out.push_str("  {\n    \"id\": ")?;
    push_quoted(out, item.id.as_str())?;
    out.push_str(",\n    \"type\": ")?;
    push_quoted(out, item.item_type)?;
    for member in &item.members {
        push_member(out, member)?;
    }
    out.push_str("\n  }")
}

fn push_member(out: &mut String, member: &Member) -> Result<(), AllocError> {
    out.push_str(",\n    ")?;
    push_quoted(out, member.name)?;
    out.push_str(": ")?;
    match &member.value {
        MemberValue::Text(text) => push_quoted(out, text.as_str()),
        MemberValue::Names(names) => push_names(out, names),
        MemberValue::Date(date) => push_date(out, date),
    }
}

fn push_names(out: &mut String, names: &[ItemName]) -> Result<(), AllocError> {
    let mut between = "[";
    for name in names {
        out.push_str(between)?;
        push_name(out, name)?;
        between = ", ";
    }
    out.push(']')
}

/// Appends the key of a member, behind a comma where members stand before it.
fn push_key(out: &mut String, key: &str) -> Result<(), AllocError> {
    if !out.as_str().ends_with('{') {
        out.push_str(", ")?;
    }
    push_quoted(out, key)?;
    out.push_str(": ")
}

/// Appends a member that is a text, unless it is empty.
fn push_part(out: &mut String, key: &str, text: &str) -> Result<(), AllocError> {
    if text.is_empty() {
        return Ok(());
    }
    push_key(out, key)?;
    push_quoted(out, text)
}

fn push_name(out: &mut String, name: &ItemName) -> Result<(), AllocError> {
    out.push('{')?;
    push_part(out, "family", name.family.as_str())?;
    push_part(out, "given", name.given.as_str())?;
    push_part(out, "dropping-particle", name.dropping_particle.as_str())?;
    push_part(
        out,
        "non-dropping-particle",
        name.non_dropping_particle.as_str(),
    )?;
    push_part(out, "suffix", name.suffix.as_str())?;
    push_part(out, "literal", name.literal.as_str())?;
    out.push('}')
}

fn push_date(out: &mut String, date: &ItemDate) -> Result<(), AllocError> {
    out.push('{')?;
    if !date.points.is_empty() {
        push_key(out, "date-parts")?;
        push_points(out, &date.points)?;
    }
    if date.season != 0 {
        push_key(out, "season")?;
        write!(out, "{}", date.season)?;
    }
    if date.is_circa {
        push_key(out, "circa")?;
        out.push_str("true")?;
    }
    push_part(out, "literal", date.literal.as_str())?;
    out.push('}')
}

fn push_points(out: &mut String, points: &[DateNumbers]) -> Result<(), AllocError> {
    let mut between = "[[";
    for point in points {
        out.push_str(between)?;
        write!(out, "{}", point.year)?;
        if point.month != 0 {
            write!(out, ", {}", point.month)?;
            if point.day != 0 {
                write!(out, ", {}", point.day)?;
            }
        }
        between = "], [";
    }
    out.push_str("]]")
}

/// Appends a text of JSON.
fn push_quoted(out: &mut String, text: &str) -> Result<(), AllocError> {
    out.push('"')?;
    for c in text.chars() {
        match c {
            '"' => out.push_str("\\\"")?,
            '\\' => out.push_str("\\\\")?,
            '\n' => out.push_str("\\n")?,
            c if c < ' ' => write!(out, "\\u{:04x}", u32::from(c))?,
            c => out.push(c)?,
        }
    }
    out.push('"')
}
