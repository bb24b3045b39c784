//! Reading the parts of a driven document.
ghost use Rattle.std.specs.Prelude.{◌≡◌, IfOk};
ghost use Rattle.serde_json.specs.View.{view};
ghost use Rattle.host_memo.specs.Written.{found};
ghost use Rattle.document_styles.specs.NamedStyleView.{named_styles_view};
ghost use Rattle.document_values.specs.Reads.{Faults, Reads};
ghost use Rattle.document_driven.specs.DrivenForm.{driven_top_form, written_at};

use csl_base::entry::PlainEntry;
use document_styles::styles::NamedStyle;
use document_tasks::written::table_of;
use document_values::error::ReadError;
use document_values::words::object_with;
use host_memo::table::Table;
use ordered_map::map::OrderedMap;
use serde_json::Value;
use std::alloc::Global;

/// The object that the driven document is.
pub(crate) fn driven_top_of(alloc: Global, value: &Value) -> Result<&Value, ReadError>
    ensures read { Reads (λ v. view v.now) result (driven_top_form (view value.now)) }
    ensures fault { Faults result (view value.now) }
    ensures same { IfOk result (λ v. v.now ≡ value.now) }
{
    object_with(
        alloc,
        &[
            "styles",
            "entries",
            "requests",
            "bibliography",
            "offset",
            "rounds",
            "written",
        ],
        value,
    )
}

/// What the document says was written, of these styles and entries.
#[tactic(auto, using(document_values::proofs::Ways::fails_outside))]
pub(crate) fn table_at(
    alloc: Global,
    object: &Value,
    styles: &[NamedStyle],
    entries: &[PlainEntry],
) -> Result<Table, ReadError>
    ensures read { Reads found result
        (written_at (named_styles_view styles.now) entries.now (view object.now)) }
    ensures fault { Faults result (view object.now) }
{
    match object.get("written") {
        None => Ok(OrderedMap::new(alloc)),
        Some(member) => match table_of(alloc, member, styles, entries) {
            Ok(table) => Ok(table),
            Err(error) => Err(error.under(alloc, "written")),
        },
    }
}
