//! Reading name options.
ghost use Rattle.std.specs.Prelude.{◌≡◌};
ghost use Rattle.serde_json.specs.View.{view};
ghost use Rattle.value_styles.specs.ElementView.{options_view};
ghost use Rattle.value_styles.specs.PlainLook.{no_options};
ghost use Rattle.document_styles.specs.Options.{options_form, options_at};
ghost use Rattle.document_values.specs.Reads.{Faults, Reads};

use csl_base::element::InheritableNameOptions;
use document_values::error::ReadError;
use document_values::tables::{NAME_ANDS, NAME_FORMS};
use document_values::words::{object_with, optional_name, optional_number, optional_text};
use serde_json::Value;
use std::alloc::Global;

fn no_options() -> InheritableNameOptions
    ensures { options_view result ≡ no_options }
{
    InheritableNameOptions {
        and: None,
        name_delimiter: None,
        names_delimiter: None,
        et_al_min: None,
        et_al_use_first: None,
        name_form: None,
        initialize_with: None,
    }
}

#[tactic(auto, unfolding(crate::specs::Options::options_form))]
fn options_of(alloc: Global, value: &Value) -> Result<InheritableNameOptions, ReadError>
    ensures read { Reads options_view result (options_form (view value.now)) }
    ensures fault { Faults result (view value.now) }
{
    let object = object_with(
        alloc,
        &[
            "and",
            "name_delimiter",
            "names_delimiter",
            "et_al_min",
            "et_al_use_first",
            "name_form",
            "initialize_with",
        ],
        value,
    )?;
    let and = optional_name(alloc, NAME_ANDS, object, "and")?;
    let name_delimiter = optional_text(alloc, object, "name_delimiter")?;
    let names_delimiter = optional_text(alloc, object, "names_delimiter")?;
    let et_al_min = optional_number(alloc, object, "et_al_min")?;
    let et_al_use_first = optional_number(alloc, object, "et_al_use_first")?;
    let name_form = optional_name(alloc, NAME_FORMS, object, "name_form")?;
    let initialize_with = optional_text(alloc, object, "initialize_with")?;
    Ok(InheritableNameOptions {
        and,
        name_delimiter,
        names_delimiter,
        et_al_min,
        et_al_use_first,
        name_form,
        initialize_with,
    })
}

/// The name options under `options`; none is given where the key is absent.
#[tactic(auto, using(document_values::proofs::Ways::fails_outside))]
pub fn options_at(alloc: Global, value: &Value) -> Result<InheritableNameOptions, ReadError>
    ensures read { Reads options_view result (options_at (view value.now)) }
    ensures fault { Faults result (view value.now) }
{
    match value.get("options") {
        None => Ok(no_options()),
        Some(member) => options_of(alloc, member).map_err(|error| error.under(alloc, "options")),
    }
}
