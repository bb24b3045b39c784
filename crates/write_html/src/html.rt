//! Streams as HTML, as CSL processors print it.
ghost use Rattle.std.specs.Prelude.{
  ◌≡◌,
  ℕ,
  false,
  List,
  ◌∷◌,
  ◌++◌,
  IfOk,
  OnOk,
  map,
  string_bytes,
};
ghost use Rattle.std.specs.Str.{chars};
ghost use Rattle.cite_pieces.specs.declared.piece.Piece.{Piece};
ghost use Rattle.write_html.specs.Nesting.{IsHtml};
ghost use Rattle.write_html.specs.Page.{
  are_quotes,
  open_quotes,
  with_characters,
  with_pieces,
  with_pieces_in,
};
ghost use Rattle.write_html.specs.Shown.{base, shown};
ghost use Rattle.write_html.specs.Text.{text_in};

use crate::addresses::Address;
use crate::markup::Markup;
use crate::superscripts::base_of;
use crate::tag::{Format, Tag};
use crate::tags::Tags;
use cite_pieces::formatting::TextFormatting;
use cite_pieces::piece::{Piece, Wrap};
use cite_pieces::pieces::Pieces;
use cite_texts::quotes::QuoteMarks;
use std::alloc::{AllocError, Global};
use style_file::formatting::VerticalAlign;

/// A stream as HTML: formatting as `i`, `b`, `sup`, `sub` and `span`, links as `a`, and what is set
/// off as `div`. Neighbours with the same formatting share its tags; a character that Unicode has
/// above the line has that of superscripts. Marks show nothing. A link with another scheme than
/// http, https and mailto, that is not in the same page either, shows only what is in it. Of
/// control characters, those that are white space are spaces, and the others are left out.
///
/// Read back as text and tags, the HTML has the text of the stream with its quotation marks
/// (`shown`): none of it is lost, doubled or read as a tag.
///
/// # Errors
///
/// Where memory is refused.
pub fn html(alloc: Global, pieces: &Pieces, marks: QuoteMarks<'_>) -> Result<String, AllocError>
    ensures html { IfOk result (λ html. IsHtml (string_bytes html)) }
    ensures text { IfOk result (λ html. text_in (string_bytes html)
        ≡ shown marks.entry pieces.now.pieces.items) }
{
    html_of(alloc, pieces.as_slice(), marks)
}

/// The pieces of a stream as HTML.
fn html_of(alloc: Global, pieces: &[Piece], marks: QuoteMarks<'_>) -> Result<String, AllocError>
    ensures html { IfOk result (λ html. IsHtml (string_bytes html)) }
    ensures text { IfOk result (λ html. text_in (string_bytes html)
        ≡ shown marks.entry pieces.now) }
{
    let mut page = Page {
        alloc,
        markup: Markup::new(alloc),
        marks,
        wraps: Vec::new(alloc),
    };
    for piece in pieces {
        page.push(piece)?;
    }
    page.markup.into_closed()
}

/// HTML that is being written.
#[derive(Drop)]
struct Page<'a> {
    alloc: Global,
    /// Its tags of formatting may stay open behind their wraps, for neighbours to share them, and
    /// open before the next text.
    markup: Markup,
    marks: QuoteMarks<'a>,
    /// The wraps that are open, the outermost first.
    wraps: Vec<OpenWrap>,
}

/// A wrap that is open.
#[derive(Clone, Copy)]
enum OpenWrap {
    /// Formatting, and what it makes of that around it.
    Formatting(Tags, TextFormatting),
    Quotes,
    Link,
    Display,
    /// What shows nothing.
    Mark,
}

impl Page<'_> {
    fn push(&mut self, piece: &Piece) -> Result<(), AllocError>
        ensures { OnOk result ((more : List Piece) →
            with_pieces self.new more ≡ with_pieces self.old (piece.now ∷ more)) }
    {
        match piece {
            Piece::Text(text) => self.push_text(text.as_str()),
            Piece::Open(wrap) => self.open(wrap),
            Piece::Close => self.close(),
        }
    }

    /// Writes a text, with references for the characters that HTML reads otherwise.
    fn push_text(&mut self, text: &str) -> Result<(), AllocError>
        ensures text { OnOk result ((more : List ℕ) → with_characters self.new more
            ≡ with_characters self.old (map base (chars text.now) ++ more)) }
        ensures marks { self.new.marks ≡ self.old.marks }
        ensures wraps { self.new.wraps ≡ self.old.wraps }
    {
        let mut was_above = None;
        for c in text.chars() {
            was_above = Some(self.push_char(was_above, c)?);
        }
        Ok(())
    }

    /// Writes a character. Whether the one before it stands above the line is known, if that is of
    /// the same text. Returns whether this one does.
    fn push_char(&mut self, was_above: Option<bool>, c: char) -> Result<bool, AllocError>
        ensures text { OnOk result ((more : List ℕ) →
            with_characters self.new more ≡ with_characters self.old (base c ∷ more)) }
        ensures marks { self.new.marks ≡ self.old.marks }
        ensures wraps { self.new.wraps ≡ self.old.wraps }
    {
        let base = base_of(c);
        let is_above = base.is_some();
        self.open_tags_after(was_above, is_above)?;
        self.markup.push(base.unwrap_or(c))?;
        Ok(is_above)
    }

    fn open(&mut self, wrap: &Wrap) -> Result<(), AllocError>
        ensures { OnOk result ((more : List Piece) →
            with_pieces self.new more ≡ with_pieces self.old (Piece.Open wrap.now ∷ more)) }
    {
        let open = self.begin(wrap)?;
        self.wraps.push(open)?;
        Ok(())
    }

    /// Writes what a wrap begins with.
    fn begin(&mut self, wrap: &Wrap) -> Result<OpenWrap, AllocError>
        ensures text { IfOk result (λ begun. (more : List Piece) →
            with_pieces_in self.new (open_quotes begun ∷ are_quotes self.old.wraps.items) more
            ≡ with_pieces self.old (Piece.Open wrap.now ∷ more)) }
        ensures wraps { self.new.wraps ≡ self.old.wraps }
    {
        let around = self.formatting();
        match wrap {
            Wrap::Formatting(asked) => {
                let inside = around.with(*asked);
                Ok(OpenWrap::Formatting(Tags::between(around, inside), inside))
            }
            Wrap::Markup(style) => {
                let inside = around.with_markup(*style);
                Ok(OpenWrap::Formatting(Tags::between(around, inside), inside))
            }
            Wrap::Quotes(_) => {
                let mark = self.marks.open;
                self.push_text(mark)?;
                self.marks = self.marks.inside();
                Ok(OpenWrap::Quotes)
            }
            Wrap::Link(url) => self.open_link(url.as_str()),
            Wrap::Display(display) => {
                self.open_tags(false)?;
                self.markup.open_block(*display)?;
                Ok(OpenWrap::Display)
            }
            Wrap::Mark(_) => Ok(OpenWrap::Mark),
        }
    }

    /// Opens a link, where one may lead to the URL.
    fn open_link(&mut self, url: &str) -> Result<OpenWrap, AllocError>
        ensures text { IfOk result (λ begun. (open_quotes begun ≡ false)
            × ((more : List ℕ) → with_characters self.new more ≡ with_characters self.old more)) }
        ensures marks { self.new.marks ≡ self.old.marks }
        ensures wraps { self.new.wraps ≡ self.old.wraps }
    {
        match Address::of(self.alloc, url)? {
            Some(address) => {
                self.open_tags(false)?;
                self.markup.open_link(self.alloc, &address)?;
                Ok(OpenWrap::Link)
            }
            None => Ok(OpenWrap::Mark),
        }
    }

    fn close(&mut self) -> Result<(), AllocError>
        ensures { OnOk result ((more : List Piece) →
            with_pieces self.new more ≡ with_pieces self.old (Piece.Close ∷ more)) }
    {
        match self.wraps.last().copied() {
            Some(OpenWrap::Quotes) => {
                self.wraps.pop();
                self.marks = self.marks.inside();
                let mark = self.marks.close;
                self.push_text(mark)
            }
            Some(OpenWrap::Link | OpenWrap::Display) => {
                self.open_tags(false)?;
                self.wraps.pop();
                let around = self.markup.open_tags().len().saturating_sub(1);
                self.markup.close_from(around)
            }
            Some(OpenWrap::Formatting(_, _) | OpenWrap::Mark) => {
                self.wraps.pop();
                Ok(())
            }
            None => Ok(()),
        }
    }

    /// The formatting inside the wraps that are open.
    fn formatting(&self) -> TextFormatting {
        let mut formatting = TextFormatting::NORMAL;
        for wrap in &self.wraps {
            if let OpenWrap::Formatting(_, inside) = wrap {
                formatting = *inside;
            }
        }
        formatting
    }

    /// Closes and opens tags, unless they are known to be right.
    fn open_tags_after(&mut self, was_above: Option<bool>, is_above: bool) -> Result<(), AllocError>
        ensures text { OnOk result ((more : List ℕ) →
            with_characters self.new more ≡ with_characters self.old more) }
        ensures marks { self.new.marks ≡ self.old.marks }
        ensures wraps { self.new.wraps ≡ self.old.wraps }
    {
        if was_above == Some(is_above) {
            return Ok(());
        }
        self.open_tags(is_above)
    }

    /// Closes and opens tags, until those are open that the wraps ask for, with that of what
    /// stands above the line.
    fn open_tags(&mut self, is_above: bool) -> Result<(), AllocError>
        ensures text { OnOk result ((more : List ℕ) →
            with_characters self.new more ≡ with_characters self.old more) }
        ensures marks { self.new.marks ≡ self.old.marks }
        ensures wraps { self.new.wraps ≡ self.old.wraps }
    {
        let mut wanted = self.wanted_tags()?;
        if is_above && self.formatting().vertical_align != VerticalAlign::Superscript {
            wanted.push(Tag::Format(Format::Superscript))?;
        }
        let shared = common(self.markup.open_tags(), &wanted);
        self.markup.close_from(shared)?;
        // (links and what is set off are open, and shared)
        self.markup.open_from(&wanted, shared)
    }

    /// The tags that the wraps ask for, the outermost first.
    fn wanted_tags(&self) -> Result<Vec<Tag>, AllocError> {
        let mut wanted: Vec<Tag> = Vec::new(self.alloc);
        for wrap in &self.wraps {
            match wrap {
                OpenWrap::Formatting(tags, _) => {
                    push_tags(&mut wanted, self.markup.open_tags(), *tags)?;
                }
                OpenWrap::Link => wanted.push(Tag::Link)?,
                OpenWrap::Display => wanted.push(Tag::Block)?,
                OpenWrap::Quotes | OpenWrap::Mark => {}
            }
        }
        Ok(wanted)
    }
}

/// Adds the tags of a wrap: first those that are open already, in their order.
fn push_tags(wanted: &mut Vec<Tag>, open: &[Tag], tags: Tags) -> Result<(), AllocError> {
    let asked = tags.outermost_first();
    let begin = wanted.len();
    for tag in open.iter().skip(begin) {
        if !asked.contains(&Some(*tag)) {
            break;
        }
        wanted.push(*tag)?;
    }
    for tag in asked.iter().flatten() {
        if !wanted.iter().skip(begin).any(|other| other == tag) {
            wanted.push(*tag)?;
        }
    }
    Ok(())
}

/// How many tags both lists begin with.
fn common(open: &[Tag], wanted: &[Tag]) -> usize {
    let mut shared = 0usize;
    for (a, b) in open.iter().zip(wanted.iter()) {
        if a != b {
            break;
        }
        shared = shared.saturating_add(1);
    }
    shared
}
