//! The passes over the cites of all requests, and the types on which they work. Each meets its
//! definition on any data of these types.
pub use driver_passes::positions::with_last;
pub use driver_passes::renders::{
    AmbiguousGroup, Marks, SpeculativeCiteRender, SpeculativeItemRender,
};
pub use rounds_ambiguity::ambiguity::find_ambiguous_sets;
pub use rounds_ambiguity::choose::disambiguate_with_choose;
pub use rounds_ambiguity::suffixes::disambiguate_year_suffix;
pub use rounds_grouping::collapse::collapse_items;
pub use rounds_grouping::grouping::group_cites;
pub use rounds_names::marks::disambiguate_names;
pub use rounds_substitution::substitution::substitute_subsequent_authors;
