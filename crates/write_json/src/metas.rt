//! What an element was rendered for, as JSON.
ghost use Rattle.std.specs.Prelude.{◌≡◌, ◌++◌, map, OnOk, string_bytes};
ghost use Rattle.json.specs.Print.{quoted};
ghost use Rattle.serde_json.specs.Data.{array, string};
ghost use Rattle.serde_json.specs.View.{items_of};
ghost use Rattle.serde_json.specs.Written.{compact_text};
ghost use Rattle.write_json.specs.MetaData.{
  variable_name,
  person_data,
  names_data,
  name_data,
  meta_data,
};

use crate::numbers::{write_comma, write_count};
use crate::strings::write_string;
use csl_base::elem::ElemMeta;
use csl_base::entry::Person;
use csl_base::seq::Seq;
use csl_base::taxonomy::NameVariable;
use std::alloc::AllocError;

#[tactic(auto, unfolding(json::specs::Print::escape_byte))]
fn variable_text(variable: NameVariable) -> &'static str
    ensures { result.now ≡ compact_text (string (variable_name variable)) }
{
    match variable {
        NameVariable::Author => "\"author\"",
        NameVariable::Editor => "\"editor\"",
        NameVariable::Translator => "\"translator\"",
    }
}

fn write_person(out: &mut String, person: &Person) -> Result<(), AllocError>
    ensures { OnOk result (string_bytes out.new
        ≡ string_bytes out.old ++ compact_text (person_data person.now)) }
{
    out.push('[')?;
    write_string(out, person.name.as_str())?;
    if let Some(given) = &person.given_name {
        out.push(',')?;
        write_string(out, given.as_str())?;
    }
    out.push(']')
}

fn write_persons(out: &mut String, persons: &[Person]) -> Result<(), AllocError>
    ensures { OnOk result (string_bytes out.new
        ≡ string_bytes out.old ++ compact_text (array (items_of (map person_data persons.now)))) }
{
    out.push('[')?;
    let mut later = false;
    for person in persons {
        write_comma(out, later)?;
        write_person(out, person)?;
        later = true;
    }
    out.push(']')
}

fn write_names(out: &mut String, names: &(Seq<Person>, NameVariable)) -> Result<(), AllocError>
    ensures { OnOk result (string_bytes out.new
        ≡ string_bytes out.old ++ compact_text (names_data names.now)) }
{
    out.push_str("{\"persons\":")?;
    write_persons(out, names.0.as_slice())?;
    out.push_str(",\"variable\":")?;
    out.push_str(variable_text(names.1))?;
    out.push('}')
}

fn write_all_names(out: &mut String, all: &[(Seq<Person>, NameVariable)]) -> Result<(), AllocError>
    ensures { OnOk result (string_bytes out.new
        ≡ string_bytes out.old ++ compact_text (array (items_of (map names_data all.now)))) }
{
    out.push('[')?;
    let mut later = false;
    for names in all {
        write_comma(out, later)?;
        write_names(out, names)?;
        later = true;
    }
    out.push(']')
}

fn write_name(out: &mut String, variable: NameVariable, place: usize) -> Result<(), AllocError>
    ensures { OnOk result (string_bytes out.new
        ≡ string_bytes out.old ++ compact_text (name_data variable place)) }
{
    out.push_str("{\"place\":")?;
    write_count(out, place)?;
    out.push_str(",\"variable\":")?;
    out.push_str(variable_text(variable))?;
    out.push('}')
}

/// Appends what an element was rendered for.
#[tactic(auto, unfolding(json::specs::Print::escape_byte))]
pub(crate) fn write_meta(out: &mut String, meta: &ElemMeta) -> Result<(), AllocError>
    ensures { OnOk result
        (string_bytes out.new ≡ string_bytes out.old ++ compact_text (meta_data meta.now)) }
{
    match meta {
        ElemMeta::Names(all) => {
            out.push_str("{\"names\":")?;
            write_all_names(out, all.as_slice())?;
            out.push('}')
        }
        ElemMeta::Name(variable, place) => {
            out.push_str("{\"name\":")?;
            write_name(out, *variable, *place)?;
            out.push('}')
        }
        ElemMeta::Date => out.push_str("\"date\""),
        ElemMeta::CitationNumber => out.push_str("\"citation-number\""),
        ElemMeta::CitationLabel => out.push_str("\"citation-label\""),
        ElemMeta::Entry(place) => {
            out.push_str("{\"entry\":")?;
            write_count(out, *place)?;
            out.push('}')
        }
    }
}
