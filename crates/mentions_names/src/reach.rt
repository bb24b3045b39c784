//! What names can show at most of the mentions of an ambiguous group.
ghost use Rattle.std.specs.Prelude.{◌≡◌, IfOk, option_map};
ghost use Rattle.mentions_names.specs.ByDocument.{document_form as specified_form};
ghost use Rattle.mentions_names.specs.Forms.{base};
ghost use Rattle.mentions_names.specs.Known.{KnowsDocument};
ghost use Rattle.mentions_names.specs.Looks.{look};
ghost use Rattle.mentions_names.specs.Persons.{own_forms};
ghost use Rattle.mentions_names.specs.Reaches.{can_be_shown, first_member, is_by_cite, looks_in, reach, reach_by, reach_form};

use crate::document::{Document, document_form};
use crate::forms::{base, greater, shown, written};
use crate::look::{Look, shown_as};
use crate::mention::{MentionedName, NamedMention};
use std::alloc::{AllocError, Global};
use value_lists::seq::Seq;
use value_sources::names::DisambiguatedNameForm;
use value_styles::style::DisambiguationRule;

/// How far the names of a mention can be shown.
#[derive(Drop)]
pub struct Reach {
    /// The ambiguous group that the mention is in, if it is in one.
    pub group: Option<usize>,
    /// Whether given names are added cite by cite there.
    pub by_cite: bool,
    /// The looks of the names, each in its greatest form.
    pub looks: Seq<Look>,
    /// Whether the mention occurs.
    pub occurs: bool,
}

fn is_by_cite(rule: Option<DisambiguationRule>) -> bool
    ensures { result ≡ is_by_cite rule }
{
    matches!(rule, Some(DisambiguationRule::ByCite))
}

/// The names that can be shown.
fn can_be_shown(adds_names: bool, names: &[MentionedName]) -> &[MentionedName]
    ensures { result.now ≡ can_be_shown adds_names names.now }
{
    if adds_names {
        return names;
    }
    &names[..shown(names)]
}

fn reach_form(
    by_cite: bool,
    base: DisambiguatedNameForm,
    document: DisambiguatedNameForm,
    own: DisambiguatedNameForm,
) -> DisambiguatedNameForm
    ensures { result ≡ reach_form by_cite base document own }
{
    if by_cite {
        DisambiguatedNameForm::LongFull
    } else {
        greater(document, written(base, own))
    }
}

/// The look of name `i` of a mention in its greatest form.
fn look_of(
    alloc: Global,
    mentions: &[NamedMention],
    document: &Document,
    mention: &NamedMention,
    by_cite: bool,
    base: DisambiguatedNameForm,
    i: usize,
    name: &MentionedName,
) -> Result<Look, AllocError>
    requires { KnowsDocument document.now mentions.now }
    ensures { IfOk result (λ r. r ≡ look (reach_form by_cite base
        (specified_form mentions.now mention.now.rule i name.now) name.now.own) name.now.person) }
{
    let in_document = document_form(alloc, document, mention.rule, i, name)?;
    shown_as(
        alloc,
        reach_form(by_cite, base, in_document, name.own),
        &name.person,
    )
}

fn looks_in(
    alloc: Global,
    mentions: &[NamedMention],
    document: &Document,
    adds_names: bool,
    by_cite: bool,
    mention: &NamedMention,
) -> Result<Vec<Look>, AllocError>
    requires { KnowsDocument document.now mentions.now }
    ensures { IfOk result (λ v. v.items ≡ looks_in mentions.now adds_names by_cite mention.now) }
{
    let base = base(mention.names.as_slice());
    let names = can_be_shown(adds_names, mention.names.as_slice());
    let mut looks = Vec::new(alloc);
    for (i, name) in names.iter().enumerate() {
        looks.push(look_of(alloc, mentions, document, mention, by_cite, base, i, name)?)?;
    }
    Ok(looks)
}

/// The mention that leads the group that this one is in.
fn first_member<'m>(
    mentions: &'m [NamedMention],
    mention: &NamedMention,
) -> Option<&'m NamedMention>
    ensures { option_map (λ m. m.now) result ≡ first_member mentions.now mention.now }
{
    mentions.get(mention.group?)
}

/// How far the names of a mention can be shown.
pub(crate) fn reach_of(
    alloc: Global,
    mentions: &[NamedMention],
    document: &Document,
    mention: &NamedMention,
) -> Result<Reach, AllocError>
    requires { KnowsDocument document.now mentions.now }
    ensures { IfOk result (λ r. r ≡ reach mentions.now mention.now) }
{
    match first_member(mentions, mention) {
        Some(first) => {
            let by_cite = is_by_cite(first.rule);
            let looks = looks_in(
                alloc,
                mentions,
                document,
                first.adds_names,
                by_cite,
                mention,
            )?;
            Ok(Reach {
                group: mention.group,
                by_cite,
                looks: Seq::new(looks),
                occurs: mention.occurs,
            })
        }
        None => Ok(Reach {
            group: mention.group,
            by_cite: false,
            looks: Seq::new(Vec::new(alloc)),
            occurs: mention.occurs,
        }),
    }
}
