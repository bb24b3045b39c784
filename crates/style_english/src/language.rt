//! Languages that nobody has to name.

/// The language of a document, and of entries of other forms, where nothing says another.
pub const DEFAULT_LANGUAGE: &str = "en-US";

/// The language whose words are built in.
pub const BUILT_IN_LANGUAGE: &str = "en-US";
