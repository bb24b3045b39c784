//! Links (CSL 1.0.2, appendix "Links").
use crate::walk::{Walk, text_element};
use cite_pieces::output::{Element, written};
use cite_pieces::pieces::Pieces;
use cite_texts::addresses::{
    Identifier, identifier_address, last_address, resolver_at_end, url_address,
};
use reference_values::rich_text::RichText;
use std::alloc::{AllocError, Global};
use style_file::element::Text;
use style_file::variable::TextVariable;

impl<'s> Walk<'s, '_> {
    /// Writes a variable that leads to an address. Where its prefix ends with the beginning of
    /// that, this is part of the link. A value that has no address is a text.
    pub(crate) fn write_link(
        &mut self,
        text: &'s Text,
        linked: Linked,
        value: &RichText,
    ) -> Result<(), AllocError> {
        let alloc = self.alloc();
        let element = text_element(text);
        let plain = value.plain(alloc)?;
        let link = link_of(alloc, linked, element.prefix, plain.as_str())?;
        let Link {
            address,
            beginning,
            shown,
        } = link;
        let prefix = element.prefix.strip_suffix(beginning);
        self.output.open(Element {
            prefix: prefix.unwrap_or(element.prefix),
            suffix: element.suffix,
            display: element.display,
            has_quotes: element.has_quotes,
            ..Element::PLAIN
        })?;
        let inside = self.link_text(element, beginning, shown.as_str())?;
        match address {
            Some(address) => self.output.push_link(inside, address)?,
            None => self.output.push_pieces(inside)?,
        }
        self.output.close()?;
        Ok(())
    }

    /// What is shown of a link: its beginning, and then what its element makes of its text.
    fn link_text(
        &self,
        element: Element<'s>,
        beginning: &str,
        shown: &str,
    ) -> Result<Pieces, AllocError> {
        let alloc = self.alloc();
        let mut inside = Pieces::of_str(alloc, beginning)?;
        let content = Pieces::of_str(alloc, shown)?;
        let element = Element {
            prefix: "",
            suffix: "",
            display: None,
            has_quotes: false,
            ..element
        };
        inside.push_pieces(written(alloc, element, content, self.output.language())?)?;
        Ok(inside)
    }
}

/// What leads to an address.
#[derive(Clone, Copy)]
pub(crate) enum Linked {
    Url,
    Identifier(Identifier),
}

impl Linked {
    /// What a variable is that leads to an address.
    pub fn of_variable(variable: TextVariable) -> Option<Linked> {
        match variable {
            TextVariable::Url => Some(Linked::Url),
            TextVariable::Doi => Some(Linked::Identifier(Identifier::Doi)),
            TextVariable::Pmid => Some(Linked::Identifier(Identifier::Pmid)),
            TextVariable::Pmcid => Some(Linked::Identifier(Identifier::Pmcid)),
            _ => None,
        }
    }
}

/// A link after a prefix.
#[derive(Drop)]
struct Link<'p> {
    /// Where it leads to, if it has an address.
    address: Option<String>,
    /// The end of the prefix that is part of it.
    beginning: &'p str,
    /// What is shown after that.
    shown: String,
}

/// The link of a value after a prefix.
fn link_of<'p>(
    alloc: Global,
    linked: Linked,
    prefix: &'p str,
    value: &str,
) -> Result<Link<'p>, AllocError> {
    match linked {
        Linked::Url => url_link(alloc, prefix, value),
        Linked::Identifier(identifier) => identifier_link(alloc, identifier, prefix, value),
    }
}

/// A URL without a scheme may follow a prefix that begins its address.
fn url_link<'p>(alloc: Global, prefix: &'p str, value: &str) -> Result<Link<'p>, AllocError> {
    let own = url_address(alloc, value)?;
    let beginning = if own.is_none() {
        last_address(prefix)
    } else {
        ""
    };
    let address = if beginning.is_empty() {
        own
    } else {
        let whole = format!(in alloc; "{beginning}{value}")?;
        url_address(alloc, whole.as_str())?
    };
    Ok(Link {
        address,
        beginning,
        shown: String::from_str(alloc, value)?,
    })
}

/// After the address of a resolver an identifier is shown without one of its own.
fn identifier_link<'p>(
    alloc: Global,
    identifier: Identifier,
    prefix: &'p str,
    value: &str,
) -> Result<Link<'p>, AllocError> {
    let address = identifier_address(alloc, identifier, value)?;
    let beginning = if address.is_some() {
        resolver_at_end(identifier, prefix)
    } else {
        ""
    };
    let shown = if beginning.is_empty() {
        value
    } else {
        identifier.name_in(value)
    };
    Ok(Link {
        address,
        beginning,
        shown: String::from_str(alloc, shown)?,
    })
}
