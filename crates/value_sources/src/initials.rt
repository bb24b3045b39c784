//! The initials of persons.
ghost use Rattle.std.specs.Prelude.{◌≡◌, IfOk, string_bytes};
ghost use Rattle.std.specs.Str.{chars, encode_utf8_all};
ghost use Rattle.value_sources.specs.Initials.{parts_name, initials, given_initials};

use crate::entry::Person;
use std::alloc::{AllocError, Global};
use value_lists::text::Text;

/// Whether a character stands between the parts of a given name: white space or a hyphen.
pub fn parts_name(c: char) -> bool
    ensures { result ≡ parts_name c }
{
    c.is_whitespace() || c == '-'
}

impl Person {
    /// The first character of each part of the given name, one after the other. Parts stand between
    /// white space and hyphens. Empty without a given name.
    ///
    /// # Errors
    ///
    /// Where memory is refused.
    pub fn initials(&self, alloc: Global) -> Result<Text, AllocError>
        ensures { IfOk result (λ text. text ≡ given_initials self.now.given_name) }
    {
        match &self.given_name {
            Some(name) => Ok(Text::new(initials_of(alloc, name.as_str())?)),
            None => Ok(Text::new(String::new(alloc))),
        }
    }
}

fn initials_of(alloc: Global, name: &str) -> Result<String, AllocError>
    ensures { IfOk result
        (λ text. string_bytes text ≡ encode_utf8_all (initials (chars name.now))) }
{
    let (mut initials, mut part_begins) = (String::new(alloc), true);
    for c in name.chars() {
        if parts_name(c) {
            part_begins = true;
        } else if part_begins {
            initials.push(c)?;
            part_begins = false;
        }
    }
    Ok(initials)
}
