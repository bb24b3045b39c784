//! HTML while it is written.
ghost use Rattle.std.specs.Prelude.{
  ◌≡◌,
  ℕ,
  ◌-◌,
  List,
  [],
  ◌∷◌,
  ◌++◌,
  IfOk,
  OnOk,
  false,
  true,
  encode_utf8,
  string_bytes,
  vec_len,
};
ghost use Rattle.cite_texts.specs.Lines.{is_of_no_line};
ghost use Rattle.write_html.specs.Names.{names, tag_name};
ghost use Rattle.write_html.specs.Nesting.{IsHtml, Leads, Opens};
ghost use Rattle.write_html.specs.Shown.{continued};
ghost use Rattle.write_html.specs.Text.{text_in};

use crate::addresses::Address;
use crate::tag::{Format, Tag, opening_of_display};
use cite_texts::lines::is_control;
use std::alloc::{AllocError, Global};
use style_file::formatting::Display;

/// HTML in which some tags are still open.
#[derive(Drop)]
pub(crate) struct Markup {
    text: String,
    /// Whether what was written of texts ends in a character that is no space.
    takes_space: bool,
    /// The tags that are open, the outermost first.
    tags: Vec<Tag>,
    ghost nested: { Leads (string_bytes text) [] (names tags.items) },
}

impl Markup {
    /// No text.
    pub fn new(alloc: Global) -> Markup
        ensures text { string_bytes result.text ≡ [] }
        ensures takes_space { result.takes_space ≡ false }
    {
        Markup {
            text: String::new(alloc),
            takes_space: false,
            tags: Vec::new(alloc),
        }
    }

    /// The tags that are open, the outermost first.
    pub fn open_tags(&self) -> &[Tag] {
        self.tags.as_slice()
    }

    /// Appends a character to the text. In place of one that ends a line, or of a tab, stands
    /// a space, where a character that is no space is before it; other control characters are left
    /// out.
    pub fn push(&mut self, c: char) -> Result<(), AllocError>
        ensures { OnOk result ((more : List ℕ) →
            continued (string_bytes self.new.text) self.new.takes_space more
            ≡ continued (string_bytes self.old.text) self.old.takes_space (c ∷ more)) }
    {
        if is_control(c) {
            return self.push_control(c);
        }
        self.push_shown(c)?;
        self.takes_space = c != ' ';
        Ok(())
    }

    fn push_control(&mut self, c: char) -> Result<(), AllocError>
        requires { is_of_no_line c ≡ true }
        ensures { OnOk result ((more : List ℕ) →
            continued (string_bytes self.new.text) self.new.takes_space more
            ≡ continued (string_bytes self.old.text) self.old.takes_space (c ∷ more)) }
    {
        if !self.takes_space {
            return Ok(());
        }
        if !c.is_whitespace() {
            return Ok(());
        }
        self.push_shown(' ')?;
        self.takes_space = false;
        Ok(())
    }

    /// Appends a character, by a reference where HTML reads it otherwise.
    fn push_shown(&mut self, c: char) -> Result<(), AllocError>
        ensures text { OnOk result (text_in (string_bytes self.new.text)
            ≡ text_in (string_bytes self.old.text) ++ encode_utf8 c) }
        ensures takes_space { self.new.takes_space ≡ self.old.takes_space }
    {
        match c {
            '&' => self.text.push_str("&#38;"),
            '<' => self.text.push_str("&#60;"),
            '>' => self.text.push_str("&#62;"),
            _ => self.text.push(c),
        }
    }

    /// Opens a tag of formatting.
    pub fn open(&mut self, format: Format) -> Result<(), AllocError>
        ensures text { OnOk result (text_in (string_bytes self.new.text)
            ≡ text_in (string_bytes self.old.text)) }
        ensures takes_space { self.new.takes_space ≡ self.old.takes_space }
    {
        self.open_as(Tag::Format(format), format.opening())
    }

    fn open_as(&mut self, tag: Tag, opening: &str) -> Result<(), AllocError>
        requires opens { Opens opening.now (tag_name tag) }
        requires no_text { text_in opening.now ≡ [] }
        ensures text { OnOk result (text_in (string_bytes self.new.text)
            ≡ text_in (string_bytes self.old.text)) }
        ensures takes_space { self.new.takes_space ≡ self.old.takes_space }
    {
        self.tags.push(tag)?;
        match self.text.push_str(opening) {
            Ok(()) => Ok(()),
            Err(error) => {
                self.tags.pop();
                Err(error)
            }
        }
    }

    /// Opens a link to an address.
    pub fn open_link(&mut self, alloc: Global, address: &Address) -> Result<(), AllocError>
        ensures text { OnOk result (text_in (string_bytes self.new.text)
            ≡ text_in (string_bytes self.old.text)) }
        ensures takes_space { self.new.takes_space ≡ self.old.takes_space }
    {
        let opening = address.opening(alloc)?;
        self.open_as(Tag::Link, opening.as_str())
    }

    /// Opens what is set off.
    pub fn open_block(&mut self, display: Display) -> Result<(), AllocError>
        ensures text { OnOk result (text_in (string_bytes self.new.text)
            ≡ text_in (string_bytes self.old.text)) }
        ensures takes_space { self.new.takes_space ≡ self.old.takes_space }
    {
        self.open_as(Tag::Block, opening_of_display(display))
    }

    /// Closes the tag that was opened last.
    pub fn close_last(&mut self) -> Result<(), AllocError>
        ensures closed { OnOk result (vec_len self.new.tags ≡ vec_len self.old.tags - 1) }
        ensures text { OnOk result (text_in (string_bytes self.new.text)
            ≡ text_in (string_bytes self.old.text)) }
        ensures takes_space { self.new.takes_space ≡ self.old.takes_space }
    {
        match self.tags.last().copied() {
            Some(tag) => {
                self.text.push_str(tag.closing())?;
                self.tags.pop();
                Ok(())
            }
            None => Ok(()),
        }
    }

    /// Closes the tags that are open from this index on.
    pub fn close_from(&mut self, index: usize) -> Result<(), AllocError>
        ensures text { OnOk result (text_in (string_bytes self.new.text)
            ≡ text_in (string_bytes self.old.text)) }
        ensures takes_space { self.new.takes_space ≡ self.old.takes_space }
    {
        for _ in index..self.tags.len() {
            self.close_last()?;
        }
        Ok(())
    }

    /// Opens those tags from this index on that are of formatting.
    pub fn open_from(&mut self, tags: &[Tag], index: usize) -> Result<(), AllocError>
        ensures text { OnOk result (text_in (string_bytes self.new.text)
            ≡ text_in (string_bytes self.old.text)) }
        ensures takes_space { self.new.takes_space ≡ self.old.takes_space }
    {
        for tag in tags.iter().skip(index) {
            self.open_format_of(*tag)?;
        }
        Ok(())
    }

    /// Opens a tag, if it is one of formatting.
    fn open_format_of(&mut self, tag: Tag) -> Result<(), AllocError>
        ensures text { OnOk result (text_in (string_bytes self.new.text)
            ≡ text_in (string_bytes self.old.text)) }
        ensures takes_space { self.new.takes_space ≡ self.old.takes_space }
    {
        match tag {
            Tag::Format(format) => self.open(format),
            Tag::Link | Tag::Block => Ok(()),
        }
    }

    /// The HTML, in which all tags are closed.
    pub fn into_closed(self) -> Result<String, AllocError>
        ensures html { IfOk result (λ html. IsHtml (string_bytes html)) }
        ensures text { IfOk result (λ html. text_in (string_bytes html)
            ≡ text_in (string_bytes self.text)) }
    {
        let mut markup = self;
        while !markup.tags.is_empty() {
            markup.close_last()?;
        }
        Ok(markup.text)
    }
}
