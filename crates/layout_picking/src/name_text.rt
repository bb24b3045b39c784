//! How one name is written (CSL 1.0.2, name).
ghost use Rattle.std.specs.Prelude.{◌≡◌, ◌++◌, OnOk, IfOk, Some, option_map, encode_utf8};
ghost use Rattle.std.specs.List.{flat_map};
ghost use Rattle.std.specs.Str.{chars};
ghost use Rattle.value_sources.specs.Initials.{initials};
ghost use Rattle.layout_picking.specs.NameText.{whole_name, ended_initials, name_leaf};
ghost use Rattle.layout_picking.specs.PiecesView.{leaf_view};
ghost use Rattle.layout_picking.specs.Variables.{text_leaves};

use crate::pieces::Leaf;
use crate::variables::text_leaf;
use csl_base::entry::Person;
use csl_base::initials::parts_name;
use csl_base::names::DisambiguatedNameForm;
use csl_base::text::Text;
use std::alloc::{AllocError, Global};

// Adds an initial, and this text behind it.
fn push_initial(initials: &mut Text, initial: char, end: &str) -> Result<(), AllocError>
    ensures { OnOk result (initials.new ≡ initials.old ++ (encode_utf8 initial ++ end.now)) }
{
    let mut bytes = [0; 4];
    initials.push_str(initial.encode_utf8(&mut bytes))?;
    initials.push_str(end)
}

// The initials of a given name, each with this text behind it.
fn ended_initials(alloc: Global, given: &str, end: &str) -> Result<Text, AllocError>
    ensures { IfOk result (λ text. text
        ≡ flat_map (λ c. encode_utf8 c ++ end.now) (initials (chars given.now))) }
{
    let (mut initials, mut part_begins) = (Text::copied(alloc, "")?, true);
    for c in given.chars() {
        if parts_name(c) {
            part_begins = true;
        } else if part_begins {
            push_initial(&mut initials, c, end)?;
            part_begins = false;
        }
    }
    Ok(initials)
}

// A given name before a family name.
fn whole_leaf<'a>(
    alloc: Global,
    given: &str,
    family: &'a str,
) -> Result<Option<Leaf<'a>>, AllocError>
    ensures { IfOk result (λ leaf. option_map leaf_view leaf
        ≡ text_leaves (Some (whole_name given.now family.now))) }
{
    if given.is_empty() {
        return Ok(text_leaf(Some(family)));
    }
    let mut name = Text::copied(alloc, given)?;
    name.push_str(" ")?;
    name.push_str(family)?;
    if name.has_content() {
        Ok(Some(Leaf::Owned(name)))
    } else {
        Ok(None)
    }
}

// The initials of a given name before a family name, where `end` follows each of them.
fn initialed_leaf<'a>(
    alloc: Global,
    given: &str,
    end: &str,
    family: &'a str,
) -> Result<Option<Leaf<'a>>, AllocError>
    ensures { IfOk result (λ leaf. option_map leaf_view leaf
        ≡ text_leaves (Some (whole_name (ended_initials end.now (Some given.now)) family.now))) }
{
    let initials = ended_initials(alloc, given, end)?;
    whole_leaf(alloc, initials.as_str().trim_end(), family)
}

/// A name in a form, where `end` follows each initial; none where it only counts, or is blank.
pub fn name_leaf<'a>(
    alloc: Global,
    end: &str,
    form: DisambiguatedNameForm,
    person: &'a Person,
) -> Result<Option<Leaf<'a>>, AllocError>
    ensures { IfOk result (λ leaf. option_map leaf_view leaf ≡ name_leaf end.now form person.now) }
{
    let family = person.name.as_str();
    match (form, &person.given_name) {
        (DisambiguatedNameForm::Count, _) => Ok(None),
        (DisambiguatedNameForm::Short, _) => Ok(text_leaf(Some(family))),
        (DisambiguatedNameForm::LongInitialized, Some(given)) => {
            initialed_leaf(alloc, given.as_str(), end, family)
        }
        (DisambiguatedNameForm::LongFull, Some(given)) => whole_leaf(alloc, given.as_str(), family),
        (_, None) => Ok(text_leaf(Some(family))),
    }
}
