//! Given names that are expanded in all cites of a document (CSL 1.0.2, disambiguation,
//! `givenname-disambiguation-rule`).
ghost use Rattle.std.specs.Prelude.{◌≡◌, IfOk, OnOk, take};
ghost use Rattle.std.specs.List.{flat_map};
ghost use Rattle.mentions_names.specs.ByDocument.{form_by_rule, without_full};
ghost use Rattle.mentions_names.specs.Looks.{full_look};
ghost use Rattle.mentions_names.specs.Known.{KnowsDocument, everywhere, person_keys, rival_form};
ghost use Rattle.mentions_names.specs.Persons.{names_asking};
ghost use Rattle.mentions_names.specs.Rivals.{AreRivals, TellsMore};

use crate::look::shown_as;
use crate::mention::{MentionedName, NamedMention};
use crate::rivals::{Node, Rivals, add_named, needed_form};
use std::alloc::{AllocError, Global};
use std::collections::BTreeMap;
use value_sources::names::DisambiguatedNameForm;
use value_styles::style::DisambiguationRule;

/// The persons of a document, by the names that they share.
#[derive(Drop)]
pub(crate) struct Document {
    /// All of them.
    all: Rivals,
    /// The first ones of mentions.
    first: Rivals,
}

fn add_person(alloc: Global, rivals: &mut Rivals, name: &MentionedName) -> Result<(), AllocError>
    ensures { OnOk result (TellsMore rivals.old rivals.new (person_keys name.now)) }
{
    let look = shown_as(alloc, DisambiguatedNameForm::LongFull, &name.person)?;
    add_named(alloc, rivals, Node::Start(0), &look)?;
    Ok(())
}

fn add_names(alloc: Global, rivals: &mut Rivals, names: &[MentionedName]) -> Result<(), AllocError>
    ensures { OnOk result (TellsMore rivals.old rivals.new (flat_map person_keys names.now)) }
{
    for name in names {
        add_person(alloc, rivals, name)?;
    }
    Ok(())
}

fn add_first(alloc: Global, rivals: &mut Rivals, names: &[MentionedName]) -> Result<(), AllocError>
    ensures { OnOk result (TellsMore rivals.old rivals.new
        (flat_map person_keys (take 1 names.now))) }
{
    match names.first() {
        Some(name) => add_person(alloc, rivals, name),
        None => Ok(()),
    }
}

/// The names of a mention that occurs; of any other none.
fn names_asking(mention: &NamedMention) -> &[MentionedName]
    ensures { result.now ≡ names_asking mention.now }
{
    if mention.occurs {
        mention.names.as_slice()
    } else {
        &[]
    }
}

fn all_rivals(alloc: Global, mentions: &[NamedMention]) -> Result<Rivals, AllocError>
    ensures { IfOk result (λ r. AreRivals r
        (flat_map (λ m. flat_map person_keys (names_asking m)) mentions.now)) }
{
    let mut rivals = BTreeMap::new(alloc);
    for mention in mentions {
        add_names(alloc, &mut rivals, names_asking(mention))?;
    }
    Ok(rivals)
}

fn first_rivals(alloc: Global, mentions: &[NamedMention]) -> Result<Rivals, AllocError>
    ensures { IfOk result (λ r. AreRivals r
        (flat_map (λ m. flat_map person_keys (take 1 (names_asking m))) mentions.now)) }
{
    let mut rivals = BTreeMap::new(alloc);
    for mention in mentions {
        add_first(alloc, &mut rivals, names_asking(mention))?;
    }
    Ok(rivals)
}

/// The persons of all mentions that occur.
pub(crate) fn persons_of(alloc: Global, mentions: &[NamedMention]) -> Result<Document, AllocError>
    ensures { IfOk result (λ d. KnowsDocument d mentions.now) }
{
    Ok(Document {
        all: all_rivals(alloc, mentions)?,
        first: first_rivals(alloc, mentions)?,
    })
}

fn without_full(form: DisambiguatedNameForm) -> DisambiguatedNameForm
    ensures { result ≡ without_full form }
{
    match form {
        DisambiguatedNameForm::LongFull => DisambiguatedNameForm::Short,
        other => other,
    }
}

/// The form that a person needs among these.
fn form_among(
    alloc: Global,
    rivals: &Rivals,
    name: &MentionedName,
) -> Result<DisambiguatedNameForm, AllocError>
    ensures { IfOk result (λ f. f ≡ rival_form rivals.now everywhere (full_look name.now.person)) }
{
    let look = shown_as(alloc, DisambiguatedNameForm::LongFull, &name.person)?;
    needed_form(alloc, rivals, Node::Start(0), &look)
}

/// The form of name `i` by a rule, counted from 0.
pub(crate) fn document_form(
    alloc: Global,
    document: &Document,
    rule: Option<DisambiguationRule>,
    i: usize,
    name: &MentionedName,
) -> Result<DisambiguatedNameForm, AllocError>
    ensures { IfOk result (λ f. f ≡ form_by_rule rule i
        (rival_form document.now.all everywhere (full_look name.now.person))
        (rival_form document.now.first everywhere (full_look name.now.person))) }
{
    match rule {
        None | Some(DisambiguationRule::ByCite) => Ok(DisambiguatedNameForm::Short),
        Some(DisambiguationRule::AllNames) => form_among(alloc, &document.all, name),
        Some(DisambiguationRule::AllNamesWithInitials) => {
            Ok(without_full(form_among(alloc, &document.all, name)?))
        }
        Some(DisambiguationRule::PrimaryName) => {
            if i == 0 {
                form_among(alloc, &document.first, name)
            } else {
                Ok(DisambiguatedNameForm::Short)
            }
        }
        Some(DisambiguationRule::PrimaryNameWithInitials) => {
            if i == 0 {
                Ok(without_full(form_among(alloc, &document.first, name)?))
            } else {
                Ok(DisambiguatedNameForm::Short)
            }
        }
    }
}
