//! Numbers and commas as JSON.
ghost use Rattle.std.specs.Prelude.{◌≡◌, ◌++◌, OnOk, string_bytes};
ghost use Rattle.serde_json.specs.Data.{number, unsigned};
ghost use Rattle.serde_json.specs.Find.{of_integer};
ghost use Rattle.serde_json.specs.Written.{comma_if, compact_text};

use std::alloc::AllocError;

/// Appends a count.
pub(crate) fn write_count(out: &mut String, count: usize) -> Result<(), AllocError>
    ensures { OnOk result (string_bytes out.new
        ≡ string_bytes out.old ++ compact_text (number (unsigned count))) }
{
    write!(out, "{count}")
}

/// Appends a short.
pub(crate) fn write_short(out: &mut String, short: i16) -> Result<(), AllocError>
    ensures { OnOk result (string_bytes out.new
        ≡ string_bytes out.old ++ compact_text (number (of_integer short))) }
{
    write!(out, "{short}")
}

/// Appends the comma before an item, if another stands before it.
pub(crate) fn write_comma(out: &mut String, later: bool) -> Result<(), AllocError>
    ensures { OnOk result (string_bytes out.new ≡ string_bytes out.old ++ comma_if later) }
{
    if later { out.push(',') } else { Ok(()) }
}
