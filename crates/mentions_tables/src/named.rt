//! The table of names.
ghost use Rattle.std.specs.Prelude.{◌≡◌, IfOk, length, map};
ghost use Rattle.mentions_groups.specs.Groups.{group_of};
ghost use Rattle.mentions_names.specs.Told.{told_by_names};
ghost use Rattle.mentions_tables.specs.Steps.{all_changed, in_group, state_of};

use mentions_groups::groups::groups_of;
use mentions_groups::mention::Mention;
use mentions_groups::state::MentionState;
use mentions_names::mention::NamedMention;
use mentions_names::told::tell_apart_by_names;
use std::alloc::{AllocError, Global};
use value_sources::names::NameDisambiguationProperties;

/// What disambiguates mentions by their names, once they are put into their groups.
pub(crate) fn told_by_names(
    alloc: Global,
    mentions: &[Mention],
    named: &mut [NamedMention],
) -> Result<Vec<MentionState>, AllocError>
    requires { length mentions.now ≡ length named.old }
    ensures { IfOk result (λ v.
        let grouped = all_changed in_group (map (group_of mentions.now) mentions.now) named.old in
        v.items ≡ map state_of (map (told_by_names grouped) grouped)) }
{
    let groups = groups_of(alloc, mentions)?;
    put_into_groups(&groups, named);
    let told = tell_apart_by_names(alloc, named)?;
    states_of(alloc, told)
}

/// Puts mentions into their groups.
fn put_into_groups(groups: &[Option<usize>], named: &mut [NamedMention])
    requires { length groups.now ≡ length named.old }
    ensures { named.new ≡ all_changed in_group groups.now named.old }
{
    for k in 0..named.len() {
        named[k].group = groups[k];
    }
}

/// Names as states.
fn states_of(
    alloc: Global,
    told: Vec<Option<NameDisambiguationProperties>>,
) -> Result<Vec<MentionState>, AllocError>
    ensures { IfOk result (λ v. v.items ≡ map state_of told.items) }
{
    let mut states = Vec::with_capacity(alloc, told.len())?;
    for names in told {
        states.push(MentionState {
            names,
            chosen: false,
        })?;
    }
    Ok(states)
}
