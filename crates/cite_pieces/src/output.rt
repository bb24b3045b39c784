//! Elements of a style as they are written: affixes, delimiters and what stands around a text.
ghost use Rattle.std.specs.Prelude.{◌≡◌, ℕ, ◌+◌, IfOk, OnOk, Some, is_some};
ghost use Rattle.cite_pieces.specs.Levels.{levels, levels_inside, one_if};
ghost use Rattle.cite_pieces.specs.Nesting.{IsNested, depth, edges};

use crate::cases::{in_case, without_periods};
use crate::formatting::{NOTHING_ASKED, asks_for_some};
use crate::piece::{Mark, QuoteSource, Wrap};
use crate::pieces::Pieces;
use crate::rich::{has_quotes, is_plain, rich_pieces};
use cite_texts::cases::Language;
use reference_values::rich_text::{RichText, Run, RunStyle};
use std::alloc::{AllocError, Global};
use style_file::formatting::{Affixes, Display, Formatting, TextCase};

/// Where affixes stand (CSL 1.0.2, Affixes).
#[derive(Clone, Copy, PartialEq, Eq)]
pub enum AffixPlace {
    /// Outside the formatting, the quotes and the text case, as those of most elements.
    Outside,
    /// Inside them, as those of a layout.
    Inside,
}

/// How a rendering element is written.
#[derive(Clone, Copy)]
pub struct Element<'s> {
    pub prefix: &'s str,
    pub suffix: &'s str,
    pub affixes: AffixPlace,
    /// What stands between its children, where both have text.
    pub delimiter: &'s str,
    pub formatting: Formatting,
    pub has_quotes: bool,
    pub display: Option<Display>,
    pub text_case: Option<TextCase>,
    /// The language of the text case, where it isn't that of all that is written.
    pub language: Option<Language>,
    /// Whether its content loses its periods (strip-periods).
    pub strips_periods: bool,
    /// What its content is marked as.
    pub mark: Option<Mark>,
}

impl Element<'_> {
    /// An element that shows its content as it is.
    pub const PLAIN: Element<'static> = Element {
        prefix: "",
        suffix: "",
        affixes: AffixPlace::Outside,
        delimiter: "",
        formatting: NOTHING_ASKED,
        has_quotes: false,
        display: None,
        text_case: None,
        language: None,
        strips_periods: false,
        mark: None,
    };

    /// Its prefix, if it stands there.
    fn prefix_at(&self, place: AffixPlace) -> &str {
        if self.affixes == place {
            self.prefix
        } else {
            ""
        }
    }

    /// Its suffix, if it stands there.
    fn suffix_at(&self, place: AffixPlace) -> &str {
        if self.affixes == place {
            self.suffix
        } else {
            ""
        }
    }

    /// Whether its content is changed once it is written.
    fn changes_content(&self) -> bool {
        self.text_case.is_some() || self.strips_periods
    }
}

/// An element with these affixes outside, this formatting, and nothing else.
pub fn element_with(affixes: &Affixes, formatting: Formatting) -> Element<'_> {
    Element {
        prefix: affixes.prefix.as_str(),
        suffix: affixes.suffix.as_str(),
        formatting,
        ..Element::PLAIN
    }
}

/// What has been written, and the elements that are open.
#[derive(Drop)]
pub struct Output<'s> {
    alloc: Global,
    language: Language,
    /// All that is written, of all elements that are open.
    content: Pieces,
    open: Vec<OpenElement<'s>>,
    /// How many of the open elements, from the outermost on, have begun in the stream.
    begun: usize,
}

/// An element that is open. It begins in the stream with its first piece: one that gets none leaves
/// nothing there.
#[derive(Clone, Copy)]
struct OpenElement<'s> {
    element: Element<'s>,
    /// Where it begins in the stream, with the delimiter before it.
    start: usize,
    /// Where its content begins.
    inside: usize,
    /// Whether its content has text.
    has_text: bool,
}

impl<'s> Output<'s> {
    /// Nothing, in which text cases are those of this language.
    pub fn new(alloc: Global, language: Language) -> Output<'s> {
        Output {
            alloc,
            language,
            content: Pieces::new(alloc),
            open: Vec::new(alloc),
            begun: 0,
        }
    }

    /// The allocator that it was made with.
    pub fn alloc(&self) -> Global {
        self.alloc
    }

    /// The language of its text cases.
    pub fn language(&self) -> Language {
        self.language
    }

    /// How many elements are open.
    pub fn depth(&self) -> usize {
        self.open.len()
    }

    /// How many pieces the innermost element that is open has; where none is open, how many have
    /// been written.
    pub fn piece_count(&self) -> usize {
        let inside = match self.open.last() {
            Some(innermost) => innermost.inside,
            None => 0,
        };
        self.content.len().saturating_sub(inside)
    }

    /// Opens an element in the innermost one.
    ///
    /// # Errors
    ///
    /// Where memory is refused.
    pub fn open(&mut self, element: Element<'s>) -> Result<(), AllocError> {
        let end = self.content.len();
        self.open.push(OpenElement {
            element,
            start: end,
            inside: end,
            has_text: false,
        })?;
        Ok(())
    }

    /// Closes the innermost element. Where it has text, it is written with what stands around it,
    /// and after the delimiter of the element around it where text is before it; else it leaves
    /// nothing. Returns whether it had text.
    ///
    /// # Errors
    ///
    /// Where memory is refused; what was written is of no use then.
    pub fn close(&mut self) -> Result<bool, AllocError> {
        let Some(closed) = self.open.pop() else {
            return Ok(false);
        };
        self.begun = self.begun.min(self.open.len());
        if !closed.has_text {
            self.content.truncate(closed.start);
            return Ok(false);
        }
        if closed.element.changes_content() {
            let content = self.content.split_off(self.alloc, closed.start)?;
            let written = written(self.alloc, closed.element, content, self.language)?;
            self.push_child(written)?;
            return Ok(true);
        }
        push_end(
            self.alloc,
            &mut self.content,
            &closed.element,
            closed.inside,
        )?;
        self.note_text();
        Ok(true)
    }

    /// Closes the innermost element, which leaves nothing. Returns whether one was open.
    pub fn discard(&mut self) -> bool {
        match self.open.pop() {
            Some(closed) => {
                self.begun = self.begun.min(self.open.len());
                self.content.truncate(closed.start);
                true
            }
            None => false,
        }
    }

    /// Lets the innermost element be marked as nothing.
    pub fn unmark(&mut self) {
        let Some(innermost) = self.open.last_mut() else {
            return;
        };
        innermost.element.mark = None;
        if self.content.remove_mark(innermost.start, innermost.inside) {
            innermost.inside = innermost.inside.saturating_sub(1);
        }
    }

    /// Adds a text to the innermost element, without a delimiter.
    ///
    /// # Errors
    ///
    /// Where memory is refused.
    pub fn push_str(&mut self, text: &str) -> Result<(), AllocError> {
        if text.is_empty() {
            return Ok(());
        }
        self.begin()?;
        self.content.push_str(self.alloc, text)?;
        self.note_text();
        Ok(())
    }

    /// Adds a text with markup to the innermost element, as the fields of an entry have it. Quotes
    /// in it get the marks of the locale, and a straight apostrophe becomes a curly one.
    ///
    /// # Errors
    ///
    /// Where memory is refused.
    pub fn push_rich(&mut self, text: &RichText) -> Result<(), AllocError> {
        if has_quotes(text) {
            return self.push_pieces(rich_pieces(self.alloc, text)?);
        }
        for run in &text.runs {
            self.push_run(run)?;
        }
        Ok(())
    }

    /// Adds a run without quotes.
    fn push_run(&mut self, run: &Run) -> Result<(), AllocError> {
        if run.style == RunStyle::PLAIN {
            return self.push_str(run.text.as_str());
        }
        let inside = Pieces::of_str(self.alloc, run.text.as_str())?;
        self.push_wrapped(Wrap::Markup(run.style), inside)
    }

    /// Adds a text to the innermost element that is written with the markup of CSL-JSON, as
    /// `push_rich` does.
    ///
    /// # Errors
    ///
    /// Where memory is refused.
    pub fn push_markup(&mut self, markup: &str) -> Result<(), AllocError> {
        if is_plain(markup) {
            return self.push_str(markup);
        }
        self.push_rich(&RichText::of_markup(self.alloc, markup)?)
    }

    /// Adds a stream that leads to an address. Where what is written ends with the beginning of
    /// the address, as the prefix of a group may, this is part of the link.
    ///
    /// # Errors
    ///
    /// Where memory is refused.
    pub fn push_link(&mut self, inside: Pieces, address: String) -> Result<(), AllocError> {
        self.begin()?;
        let beginning = self.content.take_beginning(self.alloc, address.as_str())?;
        self.begin_within();
        let mut whole = Pieces::new(self.alloc);
        whole.push_text(beginning)?;
        whole.push_pieces(inside)?;
        self.push_wrapped(Wrap::Link(address), whole)
    }

    /// Lets no open element begin behind the end of the stream, whose last text was taken off.
    fn begin_within(&mut self) {
        let end = self.content.len();
        for open in self.open.iter_mut() {
            open.start = open.start.min(end);
            open.inside = open.inside.min(end);
        }
    }

    /// Adds a stream with something around it.
    fn push_wrapped(&mut self, wrap: Wrap, inside: Pieces) -> Result<(), AllocError> {
        let has_text = !inside.has_no_text();
        self.begin()?;
        self.content.push_wrapped(wrap, inside)?;
        if has_text {
            self.note_text();
        }
        Ok(())
    }

    /// Adds a stream to the innermost element, without a delimiter.
    ///
    /// # Errors
    ///
    /// Where memory is refused.
    pub fn push_pieces(&mut self, pieces: Pieces) -> Result<(), AllocError> {
        let has_text = !pieces.has_no_text();
        self.begin()?;
        self.content.push_pieces(pieces)?;
        if has_text {
            self.note_text();
        }
        Ok(())
    }

    /// Adds a stream to the innermost element as a child of it: where both have text, its delimiter
    /// stands between.
    fn push_child(&mut self, child: Pieces) -> Result<(), AllocError> {
        if !child.has_no_text() {
            let delimiter = self.delimiter_at(self.open.len());
            self.push_str(delimiter)?;
        }
        self.push_pieces(child)
    }

    /// Closes all elements, and gives what is written.
    ///
    /// # Errors
    ///
    /// Where memory is refused.
    pub fn finish(self) -> Result<Pieces, AllocError> {
        let mut output = self;
        for _ in 0..output.open.len() {
            output.close()?;
        }
        Ok(output.content)
    }

    /// Lets the open elements begin in the stream, as a piece of the innermost one follows.
    fn begin(&mut self) -> Result<(), AllocError> {
        for depth in self.begun..self.open.len() {
            self.begin_at(depth)?;
        }
        self.begun = self.open.len();
        Ok(())
    }

    /// Lets the open element in so many others begin, behind the delimiter of the one around it. Of
    /// one that changes its content, what stands around that is written when it is closed.
    fn begin_at(&mut self, depth: usize) -> Result<(), AllocError> {
        let delimiter = self.delimiter_at(depth);
        let Some(open) = self.open.get_mut(depth) else {
            return Ok(());
        };
        open.start = self.content.len();
        if !open.element.changes_content() {
            self.content.push_str(self.alloc, delimiter)?;
            push_start(self.alloc, &mut self.content, &open.element)?;
        }
        open.inside = self.content.len();
        Ok(())
    }

    /// What stands before a child with text that is in so many of the open elements.
    fn delimiter_at(&self, depth: usize) -> &'s str {
        let Some(around) = depth.checked_sub(1) else {
            return "";
        };
        match self.open.get(around) {
            Some(around) if around.has_text => around.element.delimiter,
            _ => "",
        }
    }

    /// Text has been written in the innermost element.
    fn note_text(&mut self) {
        if let Some(innermost) = self.open.last_mut() {
            innermost.has_text = true;
        }
    }
}

/// An element with its content and what stands around it.
///
/// # Errors
///
/// Where memory is refused.
pub fn written(
    alloc: Global,
    element: Element<'_>,
    content: Pieces,
    language: Language,
) -> Result<Pieces, AllocError>
    ensures { IsNested content.pieces.items
        → IfOk result (λ out. IsNested out.pieces.items) }
{
    let changed = changed(alloc, content, element, language)?;
    let mut out = Pieces::new(alloc);
    push_start(alloc, &mut out, &element)?;
    let inside = out.len();
    out.push_pieces(changed)?;
    push_end(alloc, &mut out, &element, inside)?;
    Ok(out)
}

/// Adds what stands before the content of an element: what its display sets off, its prefix, its
/// quotes, its mark and its formatting.
fn push_start(alloc: Global, out: &mut Pieces, element: &Element<'_>) -> Result<(), AllocError>
    ensures { (n : ℕ) → depth 0 (edges out.old.pieces.items) ≡ Some n
        → OnOk result (depth 0 (edges out.new.pieces.items) ≡ Some (n + levels element.now)) }
{
    open_display(out, element.display)?;
    out.push_str(alloc, element.prefix_at(AffixPlace::Outside))?;
    open_wraps(out, element)?;
    out.push_str(alloc, element.prefix_at(AffixPlace::Inside))
}

/// Opens the quotes, the mark and the formatting of an element.
fn open_wraps(out: &mut Pieces, element: &Element<'_>) -> Result<(), AllocError>
    ensures { (n : ℕ) → depth 0 (edges out.old.pieces.items) ≡ Some n
        → OnOk result (depth 0 (edges out.new.pieces.items)
        ≡ Some (n + levels_inside element.now)) }
{
    open_if(out, element.has_quotes, Wrap::Quotes(QuoteSource::Style))?;
    open_mark(out, element.mark)?;
    let formatting = element.formatting;
    open_if(out, asks_for_some(formatting), Wrap::Formatting(formatting))
}

fn open_display(out: &mut Pieces, display: Option<Display>) -> Result<(), AllocError>
    ensures { (n : ℕ) → depth 0 (edges out.old.pieces.items) ≡ Some n
        → OnOk result (depth 0 (edges out.new.pieces.items)
        ≡ Some (n + one_if (is_some display))) }
{
    match display {
        Some(display) => open_if(out, true, Wrap::Display(display)),
        None => Ok(()),
    }
}

fn open_mark(out: &mut Pieces, mark: Option<Mark>) -> Result<(), AllocError>
    ensures { (n : ℕ) → depth 0 (edges out.old.pieces.items) ≡ Some n
        → OnOk result (depth 0 (edges out.new.pieces.items)
        ≡ Some (n + one_if (is_some mark))) }
{
    match mark {
        Some(mark) => open_if(out, true, Wrap::Mark(mark)),
        None => Ok(()),
    }
}

/// Opens this, if the element has it.
fn open_if(out: &mut Pieces, has_it: bool, wrap: Wrap) -> Result<(), AllocError>
    ensures { (n : ℕ) → depth 0 (edges out.old.pieces.items) ≡ Some n
        → OnOk result (depth 0 (edges out.new.pieces.items) ≡ Some (n + one_if has_it)) }
{
    if !has_it {
        return Ok(());
    }
    out.open(wrap)
}

/// Closes what the element opened, if it did.
fn close_if(out: &mut Pieces, had_it: bool) -> Result<(), AllocError>
    ensures { (n : ℕ) → depth 0 (edges out.old.pieces.items) ≡ Some (n + one_if had_it)
        → OnOk result (depth 0 (edges out.new.pieces.items) ≡ Some n) }
{
    if !had_it {
        return Ok(());
    }
    out.close()
}

/// Closes what `open_wraps` opens.
fn close_wraps(out: &mut Pieces, element: &Element<'_>) -> Result<(), AllocError>
    ensures { (n : ℕ) → depth 0 (edges out.old.pieces.items) ≡ Some (n + levels_inside element.now)
        → OnOk result (depth 0 (edges out.new.pieces.items) ≡ Some n) }
{
    close_if(out, asks_for_some(element.formatting))?;
    close_if(out, element.mark.is_some())?;
    close_if(out, element.has_quotes)
}

/// Adds what follows the content of an element, which begins at this place.
fn push_end(
    alloc: Global,
    out: &mut Pieces,
    element: &Element<'_>,
    inside: usize,
) -> Result<(), AllocError>
    ensures { (n : ℕ) → depth 0 (edges out.old.pieces.items) ≡ Some (n + levels element.now)
        → OnOk result (depth 0 (edges out.new.pieces.items) ≡ Some n) }
{
    out.push_suffix(alloc, element.suffix_at(AffixPlace::Inside), inside)?;
    close_wraps(out, element)?;
    out.push_str(alloc, element.suffix_at(AffixPlace::Outside))?;
    close_if(out, element.display.is_some())
}

/// The content with the changes that an element makes in it.
fn changed(
    alloc: Global,
    content: Pieces,
    element: Element<'_>,
    language: Language,
) -> Result<Pieces, AllocError>
    ensures { IfOk result (λ out. edges out.pieces.items ≡ edges content.pieces.items) }
{
    let cased = cased(alloc, content, element, language)?;
    if !element.strips_periods {
        return Ok(cased);
    }
    without_periods(alloc, cased)
}

/// The content in the text case of an element.
fn cased(
    alloc: Global,
    content: Pieces,
    element: Element<'_>,
    language: Language,
) -> Result<Pieces, AllocError>
    ensures { IfOk result (λ out. edges out.pieces.items ≡ edges content.pieces.items) }
{
    match element.text_case {
        Some(case) => in_case(alloc, content, case, element.language.unwrap_or(language)),
        None => Ok(content),
    }
}
