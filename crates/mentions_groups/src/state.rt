//! What disambiguates a mention from others.
use value_sources::names::NameDisambiguationProperties;

/// What disambiguates a mention from others, besides the year suffix, which is its entry's.
#[derive(Clone, PartialEq, Eq, Drop)]
pub struct MentionState {
    /// The forms in which its names are written, if these aren't its style's own.
    pub names: Option<NameDisambiguationProperties>,
    /// Whether the condition `disambiguate` is made to hold.
    pub chosen: bool,
}
