//! The elements that are open while a document is read.
ghost use Rattle.std.specs.Prelude.{◌≡◌, ◌<◌, ◌≤◌, [], ◌∷◌, ◌++◌, length, IfOk};
ghost use Rattle.style_xml.specs.Trees.{AreWithinLimits, IsStart, IsWithinLimits};

use crate::error::Wanted;
use crate::limits::{MAX_DEPTH, MAX_FOUND};
use crate::namespaces::Prefixes;
use crate::source::Source;
use crate::stop::Stop;
use crate::text::{push_section, push_text};
use crate::tree::{Content, Element};
use std::alloc::AllocError;
use std::mem;

/// The elements that are open while a document is read, and what is known behind the last tag.
#[derive(Drop)]
pub(crate) struct Nest {
    pub(crate) source: Source,
    /// The elements around the innermost one, the root first.
    around: Vec<Element>,
    innermost: Element,
    /// The text behind the last tag.
    text: String,
    prefixes: Prefixes,
    ghost within: { AreWithinLimits source.length (around.items ++ innermost ∷ []) },
}

impl Nest {
    /// Opens the root.
    pub(crate) fn new(source: Source, root: Element) -> Result<Nest, Stop>
        requires { IsStart source.length root }
        ensures { IfOk result (λ nest. nest.source ≡ source) }
    {
        let mut prefixes = Prefixes::new(source.alloc);
        prefixes.enter(source, &root, 0)?;
        Ok(Nest {
            source,
            around: Vec::new(source.alloc),
            innermost: root,
            text: String::new(source.alloc),
            prefixes,
        })
    }

    /// Opens an element in the innermost one.
    pub(crate) fn enter(&mut self, element: Element) -> Result<(), Stop>
        requires { IsStart self.old.source.length element }
        ensures { self.new.source ≡ self.old.source }
    {
        let depth = self.around.len() + 1;
        if depth >= MAX_DEPTH {
            return Err(self.source.stop_at(Wanted::LessDepth, element.offset));
        }
        self.place_text()?;
        self.prefixes.enter(self.source, &element, depth)?;
        let outer = mem::replace(&mut self.innermost, element);
        self.around.push(outer)?;
        Ok(())
    }

    /// Closes the innermost element, which the one around it then contains. Returns whether there
    /// is one; the root stays innermost.
    pub(crate) fn leave(&mut self) -> Result<bool, Stop>
        ensures { self.new.source ≡ self.old.source }
    {
        self.place_text()?;
        self.prefixes.leave(self.around.len());
        let Some(outer) = self.around.pop() else {
            return Ok(false);
        };
        let closed = mem::replace(&mut self.innermost, outer);
        self.innermost.push(Content::Element(closed))?;
        Ok(true)
    }

    /// The root, whose end was read.
    pub(crate) fn into_root(self) -> Element
        ensures { IsWithinLimits self.source.length result }
    {
        self.innermost
    }

    /// The name of the innermost element.
    pub(crate) fn name(&self) -> &str {
        self.innermost.name.as_str()
    }

    /// What must stand where the innermost element ends.
    pub(crate) fn wanted_end(&self) -> Result<Wanted, AllocError> {
        let name = self.name().chars().take(MAX_FOUND);
        Ok(Wanted::EndTag(name.collect(self.source.alloc)?))
    }

    /// Reads the text before the next markup. Gives the rest.
    pub(crate) fn read_text<'a>(&mut self, text: &'a str) -> Result<&'a str, Stop>
        ensures source { self.new.source ≡ self.old.source }
        ensures rest { IfOk result (λ rest. length rest.now ≤ length text.now) }
    {
        push_text(&mut self.text, text)
    }

    /// Takes up the text of a CDATA section.
    pub(crate) fn read_section(&mut self, section: &str) -> Result<(), AllocError>
        ensures { self.new.source ≡ self.old.source }
    {
        push_section(&mut self.text, section)
    }

    /// Puts the text behind the last tag, if there is any, into the innermost element.
    fn place_text(&mut self) -> Result<(), AllocError>
        ensures source { self.new.source ≡ self.old.source }
        ensures around { self.new.around ≡ self.old.around }
    {
        if self.text.is_empty() {
            return Ok(());
        }
        let text = mem::replace(&mut self.text, String::new(self.source.alloc));
        self.innermost.push(Content::Text(text))
    }
}
