//! Mentions of entries, as far as names can disambiguate them.
use value_lists::seq::Seq;
use value_sources::entry::Person;
use value_sources::names::DisambiguatedNameForm;
use value_styles::style::DisambiguationRule;

/// A name of a mention.
#[derive(Drop)]
pub struct MentionedName {
    pub person: Person,
    /// The form in which the style writes it by itself.
    pub own: DisambiguatedNameForm,
}

/// A mention of an entry, by its names.
#[derive(Drop)]
pub struct NamedMention {
    /// The names that may be made fuller, in order.
    pub names: Seq<MentionedName>,
    /// Whether its style adds names.
    pub adds_names: bool,
    /// The rule by which its style adds given names, if it does.
    pub rule: Option<DisambiguationRule>,
    /// The index, among all mentions, of the one whose style says what its ambiguous group may do;
    /// none where it is in no such group.
    pub group: Option<usize>,
    /// Whether some cite reads so: mentions needn't differ from one that doesn't occur.
    pub occurs: bool,
}
