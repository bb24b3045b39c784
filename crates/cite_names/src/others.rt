//! The name that stands for names that aren't given, as `and others` of BibTeX.
use reference_values::name::Name;

/// What converters of BibTeX write in place of names that aren't given.
const OTHERS: &str = "others";

/// The names of a list but a last one that stands for others. A name that stands alone is a name.
pub fn told_names(names: &[Name]) -> &[Name] {
    match names.split_last() {
        Some((Name::Literal(last), before)) if last.as_str() == OTHERS && !before.is_empty() => {
            before
        }
        _ => names,
    }
}
