//! What is wrong and odd in the texts of a call, as JSON.
use crate::remark::{Fault, ParentStyle, Remark};
use serde_json::{Map, Value, put};
use std::alloc::{AllocError, Global};

/// A JSON object with the fault, if there is one, with all faults, if there are some, and with the
/// warnings.
///
/// # Errors
///
/// Where memory is refused.
pub fn print_findings(
    alloc: Global,
    fault: Option<Fault>,
    faults: &[Remark],
    warnings: &[Remark],
) -> Result<String, AllocError> {
    let mut members = Map::new(alloc);
    if let Some(fault) = fault {
        let value = Value::Object(fault_members(alloc, fault)?);
        put(&mut members, alloc, "fault", value)?;
    }
    if !faults.is_empty() {
        put(&mut members, alloc, "faults", remark_list(alloc, faults)?)?;
    }
    put(
        &mut members,
        alloc,
        "warnings",
        remark_list(alloc, warnings)?,
    )?;
    Value::Object(members).to_string(alloc)
}

/// A JSON object with items, which are a list of CSL-JSON, with the list of entries, where that is
/// asked for, and with the warnings.
///
/// # Errors
///
/// Where memory is refused.
pub(crate) fn print_items(
    alloc: Global,
    items: &str,
    entries: &Option<Value>,
    warnings: &[Remark],
) -> Result<String, AllocError> {
    let items = items.trim();
    let warnings = remark_list(alloc, warnings)?;
    match entries {
        Some(entries) => {
            format!(in alloc; "{{\"items\":{items},\"entries\":{entries},\"warnings\":{warnings}}}")
        }
        None => format!(in alloc; "{{\"items\":{items},\"warnings\":{warnings}}}"),
    }
}

/// A JSON object with the warnings of some texts, in the order of these, as `find_fault` has them.
///
/// # Errors
///
/// Where memory is refused.
pub fn print_warnings(alloc: Global, texts: &[&[Remark]]) -> Result<String, AllocError> {
    let mut values = Vec::new(alloc);
    for remarks in texts {
        push_remarks(alloc, &mut values, *remarks)?;
    }
    let mut members = Map::new(alloc);
    put(&mut members, alloc, "warnings", Value::Array(values))?;
    Value::Object(members).to_string(alloc)
}

fn remark_list(alloc: Global, remarks: &[Remark]) -> Result<Value, AllocError> {
    let mut values = Vec::new(alloc);
    push_remarks(alloc, &mut values, remarks)?;
    Ok(Value::Array(values))
}

fn push_remarks(
    alloc: Global,
    values: &mut Vec<Value>,
    remarks: &[Remark],
) -> Result<(), AllocError> {
    for remark in remarks {
        values.push(Value::Object(remark_members(alloc, remark)?))?;
    }
    Ok(())
}

fn fault_members(alloc: Global, fault: Fault) -> Result<Map<String, Value>, AllocError> {
    let Fault { remark, parent } = fault;
    let mut members = remark_members(alloc, &remark)?;
    if let Some(parent) = parent {
        let ParentStyle { link, language } = parent;
        put(&mut members, alloc, "parent", Value::String(link))?;
        if let Some(language) = language {
            put(
                &mut members,
                alloc,
                "parent_locale",
                Value::String(language),
            )?;
        }
    }
    Ok(members)
}

fn remark_members(alloc: Global, remark: &Remark) -> Result<Map<String, Value>, AllocError> {
    let mut members = Map::new(alloc);
    let text = &remark.text;
    let name = format!(in alloc; "{text}")?;
    let message = remark.message.clone()?;
    put(&mut members, alloc, "file", Value::String(name))?;
    put(&mut members, alloc, "message", Value::String(message))?;
    remark.place.put_into(alloc, &mut members)?;
    Ok(members)
}
