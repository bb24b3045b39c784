//! Numbers, as they are sorted (CSL 1.0.2, "Sorting").
use std::alloc::{AllocError, Global};

/// As many digits as a number is filled up to.
const DIGITS: usize = 10;

/// A text in which each number has as many digits, so that numbers are in their order.
///
/// # Errors
///
/// Where memory is refused.
pub fn sorted_number(alloc: Global, text: &str) -> Result<String, AllocError> {
    let mut out = String::new(alloc);
    let mut digits = String::new(alloc);
    for c in text.chars() {
        if c.is_ascii_digit() {
            digits.push(c)?;
            continue;
        }
        push_digits(&mut out, digits.as_str())?;
        digits = String::new(alloc);
        out.push(c)?;
    }
    push_digits(&mut out, digits.as_str())?;
    Ok(out)
}

/// Adds digits after the zeros that they lack.
fn push_digits(out: &mut String, digits: &str) -> Result<(), AllocError> {
    if digits.is_empty() {
        return Ok(());
    }
    for _ in digits.len()..DIGITS {
        out.push('0')?;
    }
    out.push_str(digits)
}
