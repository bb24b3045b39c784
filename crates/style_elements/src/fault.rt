//! What is wrong at a place of a file.
use std::fmt;

/// What is wrong at a place of a file.
#[derive(Debug, Drop)]
pub struct Fault {
    /// What stands there: an element's name, or an attribute's value or the part of it, at most
    /// `MAX_FOUND` characters, with U+FFFD for each control character.
    pub found: String,
    pub wanted: Wanted,
}

/// What must stand at a place.
#[derive(Debug, Drop)]
pub enum Wanted {
    /// The root of such a file.
    Root(Root),
    /// A root in CSL's namespace, without a prefix.
    Namespace,
    /// An element that this one may contain.
    ElementOf {
        parent: &'static str,
        nearest: Option<&'static str>,
    },
    /// In the element that was found, an element of this name.
    Element(&'static str),
    /// No more than one element of this kind in its parent.
    OneElement,
    /// In a `choose`, first an `if`, then each `else-if`, then at most one `else`.
    BranchOrder,
    /// In the element that was found, an attribute of this name.
    Attribute(&'static str),
    /// In the element that was found, exactly one of these attributes.
    OneOf(&'static [&'static str]),
    /// In the element that was found, a condition.
    Condition,
    /// A value of this attribute.
    Value {
        attribute: &'static str,
        nearest: Option<&'static str>,
    },
    /// A whole number, of at least this.
    Number {
        least: u32,
    },
    /// A whole number, of at most this.
    SmallerNumber {
        most: u32,
    },
    /// A language tag: letters, digits and hyphens.
    LanguageTag,
    /// A variable of one of these kinds.
    VariableOf(VariableKinds),
    /// The name of a macro.
    Macro {
        nearest: Option<String>,
    },
    /// A name that no macro before has.
    NewMacro,
    /// A macro that doesn't call itself, through others or alone.
    NoRing,
    /// Elements in one another at most this deep, if each call of a macro is written out.
    LessDepth(usize),
    /// At most this many elements, if each call of a macro is written out.
    FewerElements(u64),
    /// An element `citation`, or a link to the parent for which a dependent style stands.
    Parent,
}

/// The root of a file.
#[derive(Clone, Copy, Debug, PartialEq, Eq)]
pub enum Root {
    Style,
    Locale,
    /// Either of these.
    Either,
}

impl fmt::Display for Root {
    fn fmt<W: fmt::Write>(&self, f: &mut fmt::Formatter<W>) -> fmt::Result {
        f.write_str(match self {
            Root::Style => "the element `style` of CSL",
            Root::Locale => "the element `locale` of CSL",
            Root::Either => "the element `style` or `locale` of CSL",
        })
    }
}

/// Kinds of variables.
#[derive(Clone, Copy, Debug, PartialEq, Eq)]
pub enum VariableKinds {
    TextOrNumber,
    Number,
    Date,
    Name,
}

impl fmt::Display for VariableKinds {
    fn fmt<W: fmt::Write>(&self, f: &mut fmt::Formatter<W>) -> fmt::Result {
        f.write_str(match self {
            VariableKinds::TextOrNumber => "a text or number variable",
            VariableKinds::Number => "a number variable",
            VariableKinds::Date => "a date variable",
            VariableKinds::Name => "a name variable",
        })
    }
}

impl fmt::Display for Wanted {
    fn fmt<W: fmt::Write>(&self, f: &mut fmt::Formatter<W>) -> fmt::Result {
        match self {
            Wanted::Root(root) => write!(f, "{root}"),
            Wanted::Namespace => {
                f.write_str("the namespace `http://purl.org/net/xbiblio/csl`, without a prefix")
            }
            Wanted::ElementOf { parent, nearest } => {
                write!(f, "an element that `{parent}` may contain")?;
                write_nearest(f, nearest)
            }
            Wanted::Element(name) => write!(f, "an element `{name}` in it"),
            Wanted::OneElement => f.write_str("no second element of its kind"),
            Wanted::BranchOrder => {
                f.write_str("in `choose` an `if`, then each `else-if`, then one `else` at most")
            }
            Wanted::Attribute(name) => write!(f, "an attribute `{name}` of it"),
            Wanted::OneOf(names) => write_names(f, names),
            Wanted::Condition => f.write_str("a condition in it"),
            Wanted::Value { attribute, nearest } => {
                write!(f, "a value of `{attribute}`")?;
                write_nearest(f, nearest)
            }
            Wanted::Number { least } => write!(f, "a whole number, {least} or more"),
            Wanted::SmallerNumber { most } => write!(f, "a whole number, {most} or less"),
            Wanted::LanguageTag => f.write_str("a language tag, as `en-GB`"),
            Wanted::VariableOf(kinds) => write!(f, "{kinds}"),
            Wanted::Macro { nearest } => write_macro(f, nearest),
            Wanted::NewMacro => f.write_str("a name that no macro before has"),
            Wanted::NoRing => f.write_str("a macro that doesn't lead back to this one"),
            Wanted::LessDepth(most) => write_most(f, most, "elements in one another"),
            Wanted::FewerElements(most) => write_most(f, most, "elements"),
            Wanted::Parent => {
                f.write_str("an element `citation` in it, or a link to an independent parent")
            }
        }
    }
}

/// Writes the nearest word that is known, if any.
pub(crate) fn write_nearest<W: fmt::Write>(
    f: &mut fmt::Formatter<W>,
    nearest: &Option<&'static str>,
) -> fmt::Result {
    match nearest {
        Some(word) => write!(f, ", perhaps `{word}`"),
        None => Ok(()),
    }
}

/// Writes that a macro's name is wanted, and the nearest one, if any.
fn write_macro<W: fmt::Write>(f: &mut fmt::Formatter<W>, nearest: &Option<String>) -> fmt::Result {
    match nearest {
        Some(name) => write!(f, "the name of a macro, perhaps `{name:.40}`"),
        None => f.write_str("the name of a macro"),
    }
}

/// Writes how many of some elements there may be.
fn write_most<W: fmt::Write, N: fmt::Display>(
    f: &mut fmt::Formatter<W>,
    most: &N,
    elements: &str,
) -> fmt::Result {
    write!(f, "at most {most} {elements} with all macros written out")
}

/// Writes that one of some attributes is wanted.
fn write_names<W: fmt::Write>(f: &mut fmt::Formatter<W>, names: &[&'static str]) -> fmt::Result {
    f.write_str("exactly one of its attributes ")?;
    let mut is_first = true;
    for name in names {
        if !is_first {
            f.write_str(", ")?;
        }
        write!(f, "`{name}`")?;
        is_first = false;
    }
    Ok(())
}

impl fmt::Display for Fault {
    fn fmt<W: fmt::Write>(&self, f: &mut fmt::Formatter<W>) -> fmt::Result {
        write!(f, "found `{}`, wanted {}", self.found, self.wanted)
    }
}
