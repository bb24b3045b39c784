//! The addresses to which texts lead (CSL 1.0.2, appendix "Links").
use crate::lines::is_control;
use percent_encoding::{AsciiSet, NON_ALPHANUMERIC, ascii_set, utf8_percent_encode};
use std::alloc::{AllocError, Global};

/// The schemes of the addresses to which texts lead. A text of another scheme leads nowhere.
pub const SCHEMES: &[&str] = &["doi", "http", "https", "mailto"];

/// The address to which a URL leads, with escapes. It has one of the schemes, in any case; one of
/// `doi` leads to the resolver. White space around the rest and in the scheme, and control
/// characters, don't count. `None` where a text has no scheme, or another one.
///
/// # Errors
///
/// Where memory is refused.
pub fn url_address(alloc: Global, text: &str) -> Result<Option<String>, AllocError> {
    let Some((before, rest)) = text.split_once(':') else {
        return Ok(None);
    };
    let scheme = without_blanks(alloc, before)?;
    if !is_known(scheme.as_str()) {
        return Ok(None);
    }
    if scheme.as_str().eq_ignore_ascii_case("doi") {
        return identifier_address(alloc, Identifier::Doi, rest);
    }
    let rest = without_controls(alloc, rest.trim_matches(is_blank))?;
    let mut address = scheme;
    address.push(':')?;
    utf8_percent_encode(rest.as_str(), ESCAPED_IN_URL).append_to(&mut address)?;
    Ok(Some(address))
}

/// Whether a text is one of the schemes, in any case.
fn is_known(scheme: &str) -> bool {
    SCHEMES
        .iter()
        .any(|known| known.eq_ignore_ascii_case(scheme))
}

fn without_blanks(alloc: Global, text: &str) -> Result<String, AllocError> {
    let mut kept = String::new(alloc);
    for c in text.chars() {
        if !is_blank(c) {
            kept.push(c)?;
        }
    }
    Ok(kept)
}

fn without_controls(alloc: Global, text: &str) -> Result<String, AllocError> {
    let mut kept = String::new(alloc);
    for c in text.chars() {
        if !is_control(c) {
            kept.push(c)?;
        }
    }
    Ok(kept)
}

fn is_blank(c: char) -> bool {
    c.is_whitespace() || is_control(c)
}

/// An identifier that leads to a resolver.
#[derive(Clone, Copy, PartialEq, Eq)]
pub enum Identifier {
    Doi,
    Pmid,
    Pmcid,
}

/// What is escaped in an identifier: all but letters, digits, and signs that mean nothing there.
const ESCAPED: AsciiSet = ascii_set!(
    NON_ALPHANUMERIC
        .remove(b'-')
        .remove(b'.')
        .remove(b'_')
        .remove(b'~')
        .remove(b'!')
        .remove(b'$')
        .remove(b'\'')
        .remove(b'(')
        .remove(b')')
        .remove(b'*')
        .remove(b'+')
        .remove(b',')
        .remove(b';')
        .remove(b'=')
        .remove(b':')
        .remove(b'@')
        .remove(b'&')
        .remove(b'/')
);

/// What is escaped in an identifier of an address, whose escapes stay.
const ESCAPED_IN_ADDRESS: AsciiSet = ascii_set!(ESCAPED.remove(b'%'));

/// What is escaped in a URL.
const ESCAPED_IN_URL: AsciiSet = ascii_set!(
    ESCAPED_IN_ADDRESS
        .remove(b'?')
        .remove(b'#')
        .remove(b'[')
        .remove(b']')
);

impl Identifier {
    /// What stands before the identifier in its address.
    fn resolver(self) -> &'static str {
        match self {
            Identifier::Doi => "https://doi.org/",
            Identifier::Pmid => "https://www.ncbi.nlm.nih.gov/pubmed/",
            Identifier::Pmcid => "https://www.ncbi.nlm.nih.gov/pmc/articles/",
        }
    }

    /// Addresses of resolvers that may stand before it.
    fn resolvers(self) -> &'static [&'static str] {
        match self {
            Identifier::Doi => &[
                "https://doi.org/",
                "http://doi.org/",
                "https://dx.doi.org/",
                "http://dx.doi.org/",
                "https://www.doi.org/",
                "http://www.doi.org/",
            ],
            Identifier::Pmid => &[
                "https://www.ncbi.nlm.nih.gov/pubmed/",
                "http://www.ncbi.nlm.nih.gov/pubmed/",
                "https://pubmed.ncbi.nlm.nih.gov/",
            ],
            Identifier::Pmcid => &[
                "https://www.ncbi.nlm.nih.gov/pmc/articles/",
                "http://www.ncbi.nlm.nih.gov/pmc/articles/",
                "https://pmc.ncbi.nlm.nih.gov/articles/",
            ],
        }
    }

    /// What names its kind before it.
    fn label(self) -> &'static str {
        match self {
            Identifier::Doi => "doi:",
            Identifier::Pmid => "pmid:",
            Identifier::Pmcid => "pmcid:",
        }
    }

    /// The identifier in a text, and whether the address of a resolver stands before it.
    fn split(self, text: &str) -> (&str, bool) {
        let text = text.trim_matches(is_blank);
        let text = without_beginning(text, self.label())
            .unwrap_or(text)
            .trim_matches(is_blank);
        for resolver in self.resolvers() {
            if let Some(name) = without_beginning(text, *resolver) {
                return (name, true);
            }
        }
        (text, false)
    }

    /// What of a text is the identifier: it may follow the address of a resolver.
    pub fn name_in(self, text: &str) -> &str {
        let (name, _is_of_address) = self.split(text);
        name
    }

    /// Whether a text is an identifier of this kind: a DOI is `10.`, a slash and a name, the others
    /// are numbers.
    fn is_valid(self, text: &str) -> bool {
        match self {
            Identifier::Doi => match text.split_once('/') {
                Some((registrant, name)) => registrant.starts_with("10.") && !name.is_empty(),
                None => false,
            },
            Identifier::Pmid => is_number(text),
            Identifier::Pmcid => is_number(without_beginning(text, "PMC").unwrap_or(text)),
        }
    }
}

fn is_number(text: &str) -> bool {
    !text.is_empty() && text.bytes().all(|byte| byte.is_ascii_digit())
}

/// The address of the resolver to which an identifier leads. White space and control characters
/// around it don't count, and it may follow the address of a resolver, or its label, as
/// `doi:`. `None` where a text is no such identifier.
///
/// # Errors
///
/// Where memory is refused.
pub fn identifier_address(
    alloc: Global,
    identifier: Identifier,
    text: &str,
) -> Result<Option<String>, AllocError> {
    let (name, is_of_address) = identifier.split(text);
    if !identifier.is_valid(name) {
        return Ok(None);
    }
    let escaped = if is_of_address {
        ESCAPED_IN_ADDRESS
    } else {
        ESCAPED
    };
    let mut address = String::from_str(alloc, identifier.resolver())?;
    utf8_percent_encode(name, escaped).append_to(&mut address)?;
    Ok(Some(address))
}

/// A text without its beginning, in any case. `None` where it begins otherwise.
pub fn without_beginning<'t>(text: &'t str, beginning: &str) -> Option<&'t str> {
    let (head, rest) = text.split_at_checked(beginning.len())?;
    head.eq_ignore_ascii_case(beginning).then_some(rest)
}

/// The end of an affix with which the address of an identifier behind it begins: that of a
/// resolver. Empty where there is none.
pub fn resolver_at_end(identifier: Identifier, affix: &str) -> &str {
    let begin = last_address(affix);
    for resolver in identifier.resolvers() {
        if begin.eq_ignore_ascii_case(*resolver) {
            return begin;
        }
    }
    ""
}

/// The end of an affix with which an address begins, as `https://`. Empty where there is none.
pub fn last_address(affix: &str) -> &str {
    for scheme in ["https://", "http://"] {
        if let Some((before, _rest)) = affix.rsplit_once(scheme) {
            let address = match affix.split_at_checked(before.len()) {
                Some((_before, address)) => address,
                None => "",
            };
            return if address.contains(is_blank) {
                ""
            } else {
                address
            };
        }
    }
    ""
}
