//! The prefixes that are declared, and whether names use them as Namespaces in XML 1.0 has it.
ghost use Rattle.std.specs.Prelude.{◌≤◌, vec_len};
ghost use Rattle.style_xml.specs.declared.limits.TheConstants.{MAX_PREFIXES};

use crate::error::Wanted;
use crate::limits::MAX_PREFIXES;
use crate::source::Source;
use crate::stop::Stop;
use crate::tree::{Attribute, Element};
use std::alloc::Global;

/// The namespace of the prefix `xml`.
const XML: &str = "http://www.w3.org/XML/1998/namespace";

/// The namespace of the prefix `xmlns`.
const XMLNS: &str = "http://www.w3.org/2000/xmlns/";

/// A prefix that an element declares.
#[derive(Drop)]
struct Declaration {
    prefix: String,
    namespace: String,
    /// How many elements are around the one that declares it.
    depth: usize,
}

/// The prefixes that open elements declare, the innermost last.
#[derive(Drop)]
pub(crate) struct Prefixes {
    declarations: Vec<Declaration>,
    ghost few: { vec_len declarations ≤ MAX_PREFIXES },
}

impl Prefixes {
    pub(crate) fn new(alloc: Global) -> Prefixes {
        Prefixes {
            declarations: Vec::new(alloc),
        }
    }

    /// Takes up the declarations of an element, around which so many elements are open, and checks
    /// its names.
    pub(crate) fn enter(
        &mut self,
        source: Source,
        element: &Element,
        depth: usize,
    ) -> Result<(), Stop> {
        for attribute in &element.attributes {
            if let Some(prefix) = declared_prefix(attribute.name.as_str()) {
                self.declare(source, prefix, attribute, depth)?;
            }
        }
        self.check_names(source, element)
    }

    /// Forgets the declarations of an element, around which so many elements are open, and of those
    /// in it.
    pub(crate) fn leave(&mut self, depth: usize) {
        self.declarations.retain(|it| it.depth < depth);
    }

    /// Takes up a declaration (Namespaces in XML 1.0, sections 3 and 5).
    fn declare(
        &mut self,
        source: Source,
        prefix: &str,
        attribute: &Attribute,
        depth: usize,
    ) -> Result<(), Stop> {
        let namespace = attribute.value.as_str();
        if !may_stand_for(prefix, namespace) {
            return Err(source.stop_at(Wanted::PrefixDeclaration, attribute.offset));
        }
        if prefix.is_empty() || prefix == "xml" {
            return Ok(());
        }
        if self.declarations.len() >= MAX_PREFIXES {
            return Err(source.stop_at(Wanted::FewerPrefixes, attribute.offset));
        }
        let declaration = Declaration {
            prefix: String::from_str(source.alloc, prefix)?,
            namespace: String::from_str(source.alloc, namespace)?,
            depth,
        };
        self.declarations.push(declaration)?;
        Ok(())
    }

    /// The namespace for which a prefix stands.
    fn namespace_of(&self, prefix: &str) -> Option<&str> {
        if prefix == "xml" {
            return Some(XML);
        }
        self.declarations
            .iter()
            .rev()
            .find(|it| it.prefix.as_str() == prefix)
            .map(|it| it.namespace.as_str())
    }

    /// Whether each prefix of an element and its attributes is declared, and no two attributes have
    /// one local name in one namespace.
    fn check_names(&self, source: Source, element: &Element) -> Result<(), Stop> {
        if let Some((prefix, _)) = element.name.split_once(':') {
            if self.namespace_of(prefix).is_none() {
                return Err(source.stop_at(Wanted::DeclaredPrefix, element.offset));
            }
        }
        let mut names: Vec<(&str, &str)> = Vec::new(source.alloc);
        for attribute in &element.attributes {
            let Some((prefix, local)) = attribute.name.split_once(':') else {
                continue;
            };
            if prefix == "xmlns" {
                continue;
            }
            let Some(namespace) = self.namespace_of(prefix) else {
                return Err(source.stop_at(Wanted::DeclaredPrefix, attribute.offset));
            };
            if names
                .iter()
                .any(|name| name.0 == namespace && name.1 == local)
            {
                return Err(source.stop_at(Wanted::OtherAttribute, attribute.offset));
            }
            names.push((namespace, local))?;
        }
        Ok(())
    }
}

/// The prefix that an attribute of this name declares: an empty one for names without a prefix.
fn declared_prefix(name: &str) -> Option<&str> {
    let rest = name.strip_prefix("xmlns")?;
    if rest.is_empty() {
        Some(rest)
    } else {
        rest.strip_prefix(':')
    }
}

/// Whether the prefix may be declared to stand for the namespace.
fn may_stand_for(prefix: &str, namespace: &str) -> bool {
    let is_reserved = namespace == XML || namespace == XMLNS;
    match prefix {
        "xml" => namespace == XML,
        "xmlns" => false,
        "" => !is_reserved,
        _ => !is_reserved && !namespace.is_empty(),
    }
}
