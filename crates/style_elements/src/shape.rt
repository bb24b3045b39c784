//! What each element may have.
use crate::children::csl_name;
use crate::fault::Wanted;
use crate::nearest::Nearest;
use crate::reading::Reading;
use crate::stop::Stop;
use crate::warning::Oddity;
use std::alloc::{AllocError, Global};
use style_xml::tree::{Attribute, Content, Element};

/// What an element may have.
pub struct Shape {
    pub name: &'static str,
    /// The names of its attributes, in groups.
    pub attributes: &'static [&'static [&'static str]],
    /// The names of the elements in it.
    pub children: &'static [&'static str],
    /// Whether text may stand in it.
    pub has_text: bool,
}

const AFFIXES: &[&str] = &["prefix", "suffix"];

const FORMATTING: &[&str] = &[
    "font-style",
    "font-variant",
    "font-weight",
    "text-decoration",
    "vertical-align",
];

const NAME_OPTIONS: &[&str] = &[
    "and",
    "delimiter-precedes-et-al",
    "delimiter-precedes-last",
    "et-al-min",
    "et-al-use-first",
    "et-al-subsequent-min",
    "et-al-subsequent-use-first",
    "et-al-use-last",
    "initialize",
    "initialize-with",
    "name-as-sort-order",
    "sort-separator",
];

const INHERITED: &[&str] = &["name-form", "name-delimiter", "names-delimiter"];

const RENDERING: &[&str] = &[
    "text", "number", "label", "date", "names", "group", "choose",
];

/// Elements of CSL-M that are ignored.
const SKIPPED: &[&str] = &["institution"];

pub const STYLE: Shape = Shape {
    name: "style",
    attributes: &[
        &[
            "class",
            "default-locale",
            "demote-non-dropping-particle",
            "initialize-with-hyphen",
            "page-range-format",
            "version",
        ],
        NAME_OPTIONS,
        INHERITED,
    ],
    children: &["info", "locale", "macro", "citation", "bibliography"],
    has_text: false,
};

pub const LOCALE: Shape = Shape {
    name: "locale",
    attributes: &[&["version"]],
    children: &["info", "style-options", "date", "terms"],
    has_text: false,
};

pub const STYLE_OPTIONS: Shape = Shape {
    name: "style-options",
    attributes: &[&["limit-day-ordinals-to-day-1", "punctuation-in-quote"]],
    children: &[],
    has_text: false,
};

pub const LOCALE_DATE: Shape = Shape {
    name: "date",
    attributes: &[&["form", "delimiter", "text-case"], FORMATTING],
    children: &["date-part"],
    has_text: false,
};

pub const TERMS: Shape = Shape {
    name: "terms",
    attributes: &[],
    children: &["term"],
    has_text: false,
};

pub const TERM: Shape = Shape {
    name: "term",
    attributes: &[&["name", "form", "gender", "gender-form", "match"]],
    children: &["single", "multiple"],
    has_text: true,
};

pub const MACRO: Shape = Shape {
    name: "macro",
    attributes: &[&["name"]],
    children: RENDERING,
    has_text: false,
};

pub const CITATION: Shape = Shape {
    name: "citation",
    attributes: &[
        &[
            "after-collapse-delimiter",
            "cite-group-delimiter",
            "collapse",
            "disambiguate-add-givenname",
            "disambiguate-add-names",
            "disambiguate-add-year-suffix",
            "givenname-disambiguation-rule",
            "near-note-distance",
            "year-suffix-delimiter",
        ],
        NAME_OPTIONS,
        INHERITED,
    ],
    children: &["sort", "layout"],
    has_text: false,
};

pub const BIBLIOGRAPHY: Shape = Shape {
    name: "bibliography",
    attributes: &[
        &[
            "entry-spacing",
            "hanging-indent",
            "line-spacing",
            "second-field-align",
            "subsequent-author-substitute",
            "subsequent-author-substitute-rule",
        ],
        NAME_OPTIONS,
        INHERITED,
    ],
    children: &["sort", "layout"],
    has_text: false,
};

pub const SORT: Shape = Shape {
    name: "sort",
    attributes: &[],
    children: &["key"],
    has_text: false,
};

pub const KEY: Shape = Shape {
    name: "key",
    attributes: &[&[
        "macro",
        "names-min",
        "names-use-first",
        "names-use-last",
        "sort",
        "variable",
    ]],
    children: &[],
    has_text: false,
};

pub const LAYOUT: Shape = Shape {
    name: "layout",
    attributes: &[&["delimiter"], AFFIXES, FORMATTING],
    children: RENDERING,
    has_text: false,
};

pub const TEXT: Shape = Shape {
    name: "text",
    attributes: &[
        &[
            "variable",
            "macro",
            "term",
            "value",
            "form",
            "plural",
            "quotes",
            "strip-periods",
            "text-case",
            "display",
        ],
        AFFIXES,
        FORMATTING,
    ],
    children: &[],
    has_text: false,
};

pub const NUMBER: Shape = Shape {
    name: "number",
    attributes: &[
        &["variable", "form", "text-case", "display"],
        AFFIXES,
        FORMATTING,
    ],
    children: &[],
    has_text: false,
};

pub const LABEL: Shape = Shape {
    name: "label",
    attributes: &[
        &["variable", "form", "plural", "strip-periods", "text-case"],
        AFFIXES,
        FORMATTING,
    ],
    children: &[],
    has_text: false,
};

pub const NAMES_LABEL: Shape = Shape {
    name: "label",
    attributes: &[
        &["form", "plural", "strip-periods", "text-case"],
        AFFIXES,
        FORMATTING,
    ],
    children: &[],
    has_text: false,
};

pub const DATE: Shape = Shape {
    name: "date",
    attributes: &[
        &[
            "variable",
            "form",
            "date-parts",
            "delimiter",
            "text-case",
            "display",
        ],
        AFFIXES,
        FORMATTING,
    ],
    children: &["date-part"],
    has_text: false,
};

pub const DATE_PART: Shape = Shape {
    name: "date-part",
    attributes: &[
        &[
            "name",
            "form",
            "range-delimiter",
            "strip-periods",
            "text-case",
        ],
        AFFIXES,
        FORMATTING,
    ],
    children: &[],
    has_text: false,
};

pub const NAMES: Shape = Shape {
    name: "names",
    attributes: &[&["variable", "delimiter", "display"], AFFIXES, FORMATTING],
    children: &["name", "et-al", "label", "substitute"],
    has_text: false,
};

pub const NAME: Shape = Shape {
    name: "name",
    attributes: &[&["form", "delimiter"], NAME_OPTIONS, AFFIXES, FORMATTING],
    children: &["name-part"],
    has_text: false,
};

pub const NAME_PART: Shape = Shape {
    name: "name-part",
    attributes: &[&["name", "text-case"], AFFIXES, FORMATTING],
    children: &[],
    has_text: false,
};

pub const ET_AL: Shape = Shape {
    name: "et-al",
    attributes: &[&["term"], FORMATTING],
    children: &[],
    has_text: false,
};

pub const SUBSTITUTE: Shape = Shape {
    name: "substitute",
    attributes: &[],
    children: RENDERING,
    has_text: false,
};

pub const GROUP: Shape = Shape {
    name: "group",
    attributes: &[&["delimiter", "display"], AFFIXES, FORMATTING],
    children: RENDERING,
    has_text: false,
};

pub const CHOOSE: Shape = Shape {
    name: "choose",
    attributes: &[],
    children: &["if", "else-if", "else"],
    has_text: false,
};

pub const IF: Shape = Shape {
    name: "if",
    attributes: &[&[
        "disambiguate",
        "is-numeric",
        "is-uncertain-date",
        "locator",
        "match",
        "position",
        "type",
        "variable",
    ]],
    children: RENDERING,
    has_text: false,
};

pub const ELSE_IF: Shape = Shape {
    name: "else-if",
    attributes: &[&[
        "disambiguate",
        "is-numeric",
        "is-uncertain-date",
        "locator",
        "match",
        "position",
        "type",
        "variable",
    ]],
    children: RENDERING,
    has_text: false,
};

pub const ELSE: Shape = Shape {
    name: "else",
    attributes: &[],
    children: RENDERING,
    has_text: false,
};

impl Shape {
    /// Whether the element may have an attribute of this name.
    fn has_attribute(&self, name: &str) -> bool {
        self.attributes.iter().any(|group| group.contains(&name))
    }

    /// The attribute that is nearest to a word.
    fn nearest_attribute(
        &self,
        alloc: Global,
        word: &str,
    ) -> Result<Option<&'static str>, AllocError> {
        let mut nearest = Nearest::new(alloc, word);
        for group in self.attributes {
            for name in *group {
                nearest.consider(name)?;
            }
        }
        Ok(nearest.word())
    }

    /// The child that is nearest to a word.
    fn nearest_child(&self, alloc: Global, word: &str) -> Result<Option<&'static str>, AllocError> {
        let mut nearest = Nearest::new(alloc, word);
        for name in self.children {
            nearest.consider(name)?;
        }
        Ok(nearest.word())
    }
}

/// Notes what an element has that is ignored, and, as faults, elements in it that aren't known.
pub fn check(
    element: &Element,
    shape: &'static Shape,
    reading: &mut Reading<'_>,
) -> Result<(), Stop> {
    for attribute in &element.attributes {
        check_attribute(attribute, shape, reading)?;
    }
    for part in &element.content {
        match part {
            Content::Element(child) => {
                let known = check_child(child, shape, reading);
                reading.go_on(known)?;
            }
            Content::Text(text) if !shape.has_text => {
                check_text(element, text.as_str(), reading)?;
            }
            Content::Text(_) => {}
        }
    }
    Ok(())
}

/// Notes an attribute that isn't the element's. Those of other namespaces are left alone.
fn check_attribute(
    attribute: &Attribute,
    shape: &'static Shape,
    reading: &mut Reading<'_>,
) -> Result<(), Stop> {
    let name = attribute.name.as_str();
    if shape.has_attribute(name) || name == "xmlns" || name.contains(':') {
        return Ok(());
    }
    let nearest = if reading.may_guess() {
        shape.nearest_attribute(reading.alloc, name)?
    } else {
        None
    };
    let oddity = Oddity::Attribute {
        element: shape.name,
        nearest,
    };
    reading.note(attribute.offset, name, oddity)
}

/// Notes an element that is ignored, and refuses one that isn't known.
fn check_child(
    child: &Element,
    shape: &'static Shape,
    reading: &mut Reading<'_>,
) -> Result<(), Stop> {
    let name = csl_name(child);
    if shape.children.contains(&name) {
        return Ok(());
    }
    if name.is_empty() || SKIPPED.contains(&name) {
        return reading.note(child.offset, child.name.as_str(), Oddity::Element);
    }
    let wanted = Wanted::ElementOf {
        parent: shape.name,
        nearest: shape.nearest_child(reading.alloc, name)?,
    };
    Err(reading.stop(child.offset, name, wanted))
}

/// Notes text where there should be none.
fn check_text(element: &Element, text: &str, reading: &mut Reading<'_>) -> Result<(), Stop> {
    let text = text.trim();
    if text.is_empty() {
        return Ok(());
    }
    reading.note(element.offset, text, Oddity::Text)
}
