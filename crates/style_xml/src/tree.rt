//! The tree of a document.
ghost use Rattle.std.specs.Prelude.{◌≡◌, ℕ, ◌+◌, ◌≤◌, bytes_eq, find, length, max, string_bytes};
ghost use Rattle.std.specs.Option.{option_copied, option_map};
ghost use Rattle.std.specs.Iterator.{at_most};

use std::alloc::{AllocError, Global};

/// An element.
#[derive(Debug, Drop)]
#[cycle(tree)]
pub struct Element {
    /// The name as it is written, with its prefix.
    pub name: String,
    /// The attributes in the order of the document, namespace declarations among them. No two have
    /// one name.
    pub attributes: Vec<Attribute>,
    /// What stands between its tags, in the order of the document.
    pub content: Vec<Content>,
    /// Where its start tag begins, in bytes from the start of the text.
    pub offset: usize,
}

/// A part of an element's content.
#[derive(Debug, Drop)]
#[cycle(tree)]
pub enum Content {
    Element(Element),
    /// All text between two tags. It is never empty.
    Text(String),
}

/// An attribute.
#[derive(Debug, Drop)]
pub struct Attribute {
    /// The name as it is written, with its prefix.
    pub name: String,
    /// The value, with its entities replaced.
    pub value: String,
    /// Where its name begins, in bytes from the start of the text.
    pub offset: usize,
}

impl Element {
    ghost use Rattle.style_xml.specs.Trees.{Own, greatest_of, greatest_of_part};

    /// The value of the attribute of this name.
    pub fn attribute(&self, name: &str) -> Option<&str>
        ensures { option_copied result ≡ option_map (λ a. string_bytes a.value)
            (find (λ a. bytes_eq (string_bytes a.name) name.now) self.now.attributes.items) }
    {
        self.attributes
            .iter()
            .find(|attribute| attribute.name.as_str() == name)
            .map(|attribute| attribute.value.as_str())
    }

    /// The elements in its content, in the order of the document.
    pub fn children(&self) -> Children<'_> {
        Children {
            rest: self.content.as_slice(),
        }
    }

    /// Puts a part behind the content.
    pub(crate) fn push(&mut self, part: Content) -> Result<(), AllocError>
        ensures { (own : Own) (more : ℕ) → greatest_of own more self.new
            ≤ max (greatest_of own more self.old) (more + greatest_of_part own more part) }
    {
        self.content.push(part)?;
        Ok(())
    }
}

/// The elements in a content.
#[derive(Drop)]
pub struct Children<'a> {
    rest: &'a [Content],
}

impl<'a> Iterator for Children<'a> {
    type Item = &'a Element;

    ghost remaining = { λ s. at_most (length s.rest.now) };

    fn next(&mut self) -> Option<&'a Element> {
        'parts: while let Some((first, others)) = self.rest.split_first() {
            self.rest = others;
            if let Content::Element(element) = first {
                return Some(element);
            }
        }
        None
    }
}

/// The text of some content, without what stands in its elements.
///
/// # Errors
///
/// Where memory is refused.
pub fn text_of(alloc: Global, content: &[Content]) -> Result<String, AllocError> {
    let mut all = String::new(alloc);
    for part in content {
        if let Content::Text(text) = part {
            all.push_str(text.as_str())?;
        }
    }
    Ok(all)
}
