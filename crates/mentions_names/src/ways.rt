//! Where the names of mentions lead, one after the other.
ghost use Rattle.std.specs.Prelude.{◌≡◌, All, IfOk, OnOk, Some, length, map};
ghost use Rattle.mentions_names.specs.Reaches.{reach};
ghost use Rattle.mentions_names.specs.Known.{KnowsDocument};
ghost use Rattle.mentions_names.specs.Ways.{AllMade, AreMade, Extends, stops_of, way_of};

use crate::document::Document;
use crate::look::Look;
use crate::mention::NamedMention;
use crate::reach::{Reach, reach_of};
use crate::rivals::Node;
use ordered_set::set::OrderedSet;
use std::alloc::{AllocError, Global};
use value_lists::seq::Seq;

/// From a node on by the look of one more name.
#[derive(PartialEq, Eq, PartialOrd, Ord, Drop)]
pub(crate) struct Step {
    pub(crate) from: Node,
    pub(crate) look: Look,
}

/// A node on the way of a mention's names, and the look of the name that goes on from there; none
/// behind the last.
#[derive(Drop)]
pub(crate) struct Stop {
    pub(crate) node: Node,
    pub(crate) look: Option<Look>,
}

/// The way of a mention's names.
#[derive(Drop)]
pub(crate) struct Way {
    /// Whether given names are added cite by cite in its group.
    pub(crate) by_cite: bool,
    /// From before the first name to behind the last one; none where the mention is in no group.
    pub(crate) stops: Seq<Stop>,
    /// Whether the mention occurs.
    pub(crate) occurs: bool,
}

/// The stops on the way of these looks.
fn stops_of(
    alloc: Global,
    steps: &mut OrderedSet<Step>,
    group: usize,
    looks: &[Look],
) -> Result<Vec<Stop>, AllocError>
    ensures stops { IfOk result (λ v. v.items ≡ stops_of steps.new.keys (Some group) looks.now) }
    ensures made { OnOk result (AreMade steps.new.keys group looks.now (length looks.now)) }
    ensures extends { OnOk result (Extends steps.old.keys steps.new.keys) }
{
    let mut node = Node::Start(group);
    let mut stops = Vec::new(alloc);
    for look in looks {
        stops.push(Stop {
            node,
            look: Some(look.copied()?),
        })?;
        let step = Step {
            from: node,
            look: look.copied()?,
        };
        let copy = Step {
            from: node,
            look: look.copied()?,
        };
        node = Node::Step(steps.insert(step, copy)?);
    }
    stops.push(Stop { node, look: None })?;
    Ok(stops)
}

/// The way of a mention.
fn way_of(alloc: Global, steps: &mut OrderedSet<Step>, reach: &Reach) -> Result<Way, AllocError>
    ensures way { IfOk result (λ w. w ≡ way_of steps.new.keys reach.now) }
    ensures made { OnOk result (AllMade steps.new.keys reach.now) }
    ensures extends { OnOk result (Extends steps.old.keys steps.new.keys) }
{
    let stops = match reach.group {
        Some(group) => stops_of(alloc, steps, group, reach.looks.as_slice())?,
        None => Vec::new(alloc),
    };
    Ok(Way {
        by_cite: reach.by_cite,
        stops: Seq::new(stops),
        occurs: reach.occurs,
    })
}

/// The ways of all mentions, by steps that are all numbered among `steps`.
pub(crate) fn ways_of(
    alloc: Global,
    mentions: &[NamedMention],
    document: &Document,
    steps: &mut OrderedSet<Step>,
) -> Result<Vec<Way>, AllocError>
    requires { KnowsDocument document.now mentions.now }
    ensures ways { IfOk result (λ v. v.items
        ≡ map (way_of steps.new.keys) (map (reach mentions.now) mentions.now)) }
    ensures made { OnOk result
        (All (AllMade steps.new.keys) (map (reach mentions.now) mentions.now)) }
{
    let mut ways = Vec::with_capacity(alloc, mentions.len())?;
    for mention in mentions {
        let reach = reach_of(alloc, mentions, document, mention)?;
        ways.push(way_of(alloc, steps, &reach)?)?;
    }
    Ok(ways)
}
