//! What disambiguates mentions by their names (CSL 1.0.2, disambiguation, steps 1 and 2).
ghost use Rattle.std.specs.Prelude.{◌≡◌, IfOk, map};
ghost use Rattle.mentions_names.specs.Forms.{same_forms};
ghost use Rattle.mentions_names.specs.Known.{KnowsDocument};
ghost use Rattle.mentions_names.specs.Persons.{own_forms};
ghost use Rattle.mentions_names.specs.Raising.{form_needed_by, raised_by, raised_names};
ghost use Rattle.mentions_names.specs.Told.{told_by_names};

use crate::document::{Document, document_form, persons_of};
use crate::forms::{base, greater, raised_form};
use crate::gathered::{Needs, gather, needs_on};
use crate::mention::{MentionedName, NamedMention};
use crate::ways::ways_of;
use ordered_set::set::OrderedSet;
use std::alloc::{AllocError, Global};
use value_lists::seq::Seq;
use value_sources::names::{DisambiguatedNameForm, NameDisambiguationProperties};

/// The form that name `i` needs against others of its group; the short one past the last that was
/// asked for.
fn form_needed(needs: &Needs, i: usize) -> DisambiguatedNameForm
    ensures { result ≡ form_needed_by needs.now i }
{
    match needs.forms.as_slice().get(i) {
        Some(form) => *form,
        None => DisambiguatedNameForm::Short,
    }
}

/// The forms of a mention's names where they are disambiguated.
fn raised_forms(
    alloc: Global,
    mentions: &[NamedMention],
    document: &Document,
    needs: &Needs,
    mention: &NamedMention,
) -> Result<Vec<DisambiguatedNameForm>, AllocError>
    requires { KnowsDocument document.now mentions.now }
    ensures { IfOk result (λ v. v.items ≡ raised_names mentions.now needs.now mention.now) }
{
    let names = mention.names.as_slice();
    let base = base(names);
    let mut forms = Vec::with_capacity(alloc, names.len())?;
    for (i, name) in names.iter().enumerate() {
        let in_document = document_form(alloc, document, mention.rule, i, name)?;
        let least = greater(in_document, form_needed(needs, i));
        forms.push(raised_form(base, needs.count, i, least, name.own))?;
    }
    Ok(forms)
}

/// Whether these are the forms that the names have by themselves.
fn are_own(forms: &[DisambiguatedNameForm], names: &[MentionedName]) -> bool
    ensures { result ≡ same_forms forms.now (own_forms names.now) }
{
    if forms.len() != names.len() {
        return false;
    }
    for (k, name) in names.iter().enumerate() {
        if forms[k] != name.own {
            return false;
        }
    }
    true
}

/// The forms of a mention's names, if they aren't its style's own.
fn told(
    alloc: Global,
    mentions: &[NamedMention],
    document: &Document,
    needs: &Needs,
    mention: &NamedMention,
) -> Result<Option<NameDisambiguationProperties>, AllocError>
    requires { KnowsDocument document.now mentions.now }
    ensures { IfOk result (λ t. t ≡ raised_by mentions.now needs.now mention.now) }
{
    let forms = raised_forms(alloc, mentions, document, needs, mention)?;
    if are_own(&forms, mention.names.as_slice()) {
        return Ok(None);
    }
    Ok(Some(NameDisambiguationProperties {
        forms: Seq::new(forms),
    }))
}

/// What disambiguates each of the mentions by its names: the forms of its names, or none where they
/// stay those in which its style writes them by itself.
///
/// Names are looked at one after the other. The first one at which two mentions of a group differ
/// is shown by both, in a form that disambiguates it where given names are added cite by cite;
/// where one has no more names there, those before it are. A mention shows as many names as it
/// needs against some other of its group. By any other rule given names are expanded in all
/// mentions of the document, as far as other persons ask for it.
///
/// # Errors
///
/// Where memory is refused.
pub fn tell_apart_by_names(
    alloc: Global,
    mentions: &[NamedMention],
) -> Result<Vec<Option<NameDisambiguationProperties>>, AllocError>
    ensures { IfOk result (λ v. v.items ≡ map (told_by_names mentions.now) mentions.now) }
{
    let document = persons_of(alloc, mentions)?;
    let mut steps = OrderedSet::new(alloc);
    let ways = ways_of(alloc, mentions, &document, &mut steps)?;
    let gathered = gather(alloc, &ways)?;
    let mut found = Vec::with_capacity(alloc, mentions.len())?;
    for (k, mention) in mentions.iter().enumerate() {
        let needs = needs_on(alloc, &gathered, &ways[k])?;
        found.push(told(alloc, mentions, &document, &needs, mention)?)?;
    }
    Ok(found)
}
