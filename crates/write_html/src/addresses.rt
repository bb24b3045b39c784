//! Addresses to which links lead.
ghost use Rattle.std.specs.Prelude.{◌≡◌, [], IfOk, IsTrue, OnOk, map, nat_eq, string_bytes, true};
ghost use Rattle.std.specs.Char.{to_ascii_lowercase};
ghost use Rattle.std.specs.List.{list_all, starts_with};
ghost use Rattle.write_html.specs.Address.{is_allowed, is_address, is_of_value};
ghost use Rattle.write_html.specs.Names.{link_name};
ghost use Rattle.write_html.specs.Nesting.{Opens};
ghost use Rattle.write_html.specs.Text.{text_in};

use std::alloc::{AllocError, Global};

/// An address as it stands in the attribute of a link: of a web site or a letterbox, or in the same
/// page.
#[derive(Drop)]
pub(crate) struct Address {
    value: String,
    ghost is_address: { is_address (string_bytes value) ≡ true },
}

impl Address {
    /// The address to which a URL leads. `None` where it begins otherwise.
    pub fn of(alloc: Global, url: &str) -> Result<Option<Address>, AllocError> {
        let value = escaped(alloc, url)?;
        if !is_allowed(value.as_str()) {
            return Ok(None);
        }
        Ok(Some(Address { value }))
    }

    /// The opening tag of a link that leads there.
    pub fn opening(&self, alloc: Global) -> Result<String, AllocError>
        ensures opens { IfOk result (λ tag. Opens (string_bytes tag) link_name) }
        ensures no_text { IfOk result (λ tag. text_in (string_bytes tag) ≡ []) }
    {
        let mut tag = String::from_str(alloc, "<a href=\"")?;
        tag.push_str(self.value.as_str())?;
        tag.push_str("\">")?;
        Ok(tag)
    }
}

/// A text as the value of an attribute.
fn escaped(alloc: Global, text: &str) -> Result<String, AllocError>
    ensures { IfOk result (λ value. list_all is_of_value (string_bytes value) ≡ true) }
{
    let mut value = String::new(alloc);
    for c in text.chars() {
        push_escaped(&mut value, c)?;
    }
    Ok(value)
}

fn push_escaped(value: &mut String, c: char) -> Result<(), AllocError>
    requires { list_all is_of_value (string_bytes value.old) ≡ true }
    ensures { OnOk result (list_all is_of_value (string_bytes value.new) ≡ true) }
{
    match c {
        '"' => value.push_str("&#34;"),
        '&' => value.push_str("&#38;"),
        '<' => value.push_str("&#60;"),
        '>' => value.push_str("&#62;"),
        _ => value.push(c),
    }
}

/// Whether a text begins as an address does: with one of the schemes, in any case, or as one that
/// is in the same page.
fn is_allowed(text: &str) -> bool
    ensures { IsTrue result → is_allowed text.now ≡ true }
{
    begins_with(text, "http:")
        || begins_with(text, "https:")
        || begins_with(text, "mailto:")
        || begins_with(text, "#")
}

fn begins_with(text: &str, beginning: &str) -> bool
    ensures { IsTrue result → starts_with nat_eq (map to_ascii_lowercase text.now)
        (map to_ascii_lowercase beginning.now) ≡ true }
{
    match text.split_at_checked(beginning.len()) {
        Some((head, _rest)) => head.eq_ignore_ascii_case(beginning),
        None => false,
    }
}
