//! What a document may have at most, and how much of it an error quotes.

/// How deep elements may nest: the root, which is in no other, counts one.
pub const MAX_DEPTH: usize = 256;

/// How many attributes an element may have, namespace declarations among them.
pub const MAX_ATTRIBUTES: usize = 256;

/// How many prefixes may be declared at one place, by all elements that are open there.
pub const MAX_PREFIXES: usize = 64;

/// How many characters of the text an error quotes at most.
pub const MAX_FOUND: usize = 40;
