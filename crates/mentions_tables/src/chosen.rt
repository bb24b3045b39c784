//! The table of the condition `disambiguate`.
ghost use Rattle.std.specs.Prelude.{◌≡◌, ◌&&◌, OnOk, length, map};
ghost use Rattle.std.specs.List.{zip};
ghost use Rattle.mentions_groups.specs.Groups.{is_asked};
ghost use Rattle.mentions_tables.specs.Steps.{all_changed, chosen_by};

use mentions_groups::groups::asked_of;
use mentions_groups::mention::Mention;
use mentions_groups::state::MentionState;
use std::alloc::{AllocError, Global};

/// Chooses the mentions that tested the condition, where their groups are asked to differ.
pub(crate) fn choose(
    alloc: Global,
    mentions: &[Mention],
    tested: &[bool],
    states: &mut [MentionState],
) -> Result<(), AllocError>
    requires tested { length tested.now ≡ length mentions.now }
    requires states { length states.old ≡ length mentions.now }
    ensures { OnOk result (states.new ≡ all_changed chosen_by
        (zip tested.now (map (is_asked mentions.now) mentions.now)) states.old) }
{
    let asked = asked_of(alloc, mentions)?;
    choose_in(tested, &asked, states);
    Ok(())
}

/// The same, where these are asked to differ.
fn choose_in(tested: &[bool], asked: &[bool], states: &mut [MentionState])
    requires tested { length states.old ≡ length tested.now }
    requires asked { length states.old ≡ length asked.now }
    ensures { states.new ≡ all_changed chosen_by (zip tested.now asked.now) states.old }
{
    for k in 0..states.len() {
        states[k].chosen = is_chosen(tested[k], asked[k]);
    }
}

/// Whether a mention is chosen that tested the condition or didn't, and is asked to differ or isn't.
fn is_chosen(tested: bool, asked: bool) -> bool
    ensures { result ≡ (tested && asked) }
{
    tested && asked
}
