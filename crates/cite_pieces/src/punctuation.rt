//! Punctuation where texts meet: affixes, delimiters and what they stand around.
ghost use Rattle.std.specs.Prelude.{◌≡◌, false, true, [], ◌∷◌, ◌++◌, IfOk, OnOk};
ghost use Rattle.cite_pieces.specs.Joints.{read_edges, waiting_edge};
ghost use Rattle.cite_pieces.specs.Nesting.{edges};

use crate::piece::{Mark, Piece, Wrap};
use crate::pieces::Pieces;
use std::alloc::{AllocError, Global};
use std::mem::replace;

/// The stream with its punctuation in order. Where two texts meet, doubled punctuation is written
/// once, as `..` and `?.` are `.` and `?`, and doubled spaces are one space. No space is before a
/// period or a comma. A first text that joins nothing, as the affix `. `, is left out. If
/// `in_quotes`, as locales ask for by punctuation-in-quote, a period or a comma behind a quote
/// stands inside it, and inside the innermost one where several end there; but not one of the same
/// field, and none behind an exclamation mark or a question mark.
///
/// # Errors
///
/// Where memory is refused.
pub fn punctuated(alloc: Global, pieces: Pieces, in_quotes: bool) -> Result<Pieces, AllocError>
    ensures edges { IfOk result (λ out. edges out.pieces.items ≡ edges pieces.pieces.items) }
{
    joined_up(alloc, pieces, in_quotes, false)
}

/// The stream with its punctuation in order, but for that between names and what is around them:
/// names may be replaced yet, and the period behind `King, M.` isn't the one behind `———`.
///
/// # Errors
///
/// Where memory is refused.
pub fn punctuated_but_names(
    alloc: Global,
    pieces: Pieces,
    in_quotes: bool,
) -> Result<Pieces, AllocError>
    ensures edges { IfOk result (λ out. edges out.pieces.items ≡ edges pieces.pieces.items) }
{
    joined_up(alloc, pieces, in_quotes, true)
}

/// The stream in order. Names join nothing if `keeps_names`.
fn joined_up(
    alloc: Global,
    pieces: Pieces,
    in_quotes: bool,
    keeps_names: bool,
) -> Result<Pieces, AllocError>
    ensures edges { IfOk result (λ out. edges out.pieces.items ≡ edges pieces.pieces.items) }
{
    let mut joints = Joints::new(alloc, in_quotes, keeps_names);
    for piece in pieces.into_vec() {
        joints.read(piece)?;
    }
    joints.write_last()?;
    Ok(joints.out)
}

/// A stream that is being put in order.
#[derive(Drop)]
struct Joints {
    alloc: Global,
    in_quotes: bool,
    /// Whether names join nothing.
    keeps_names: bool,
    /// What is in order.
    out: Pieces,
    /// What the wraps that are open are.
    open: Vec<WrapKind>,
    /// The last text.
    last: String,
    /// What opens and closes behind it.
    behind: Vec<Edge>,
    /// The character before it, where that is not a quotation mark.
    before: Option<char>,
}

/// What a wrap is to the texts that meet at it.
#[derive(Clone, Copy, PartialEq, Eq)]
enum WrapKind {
    Quotes,
    /// It joins nothing.
    Names,
    Other,
}

/// Where a wrap begins or ends.
#[derive(Drop)]
enum Edge {
    Open(Wrap),
    Close,
    CloseQuotes,
}

impl Joints {
    /// Nothing that is in order.
    fn new(alloc: Global, in_quotes: bool, keeps_names: bool) -> Joints
        ensures { read_edges result ≡ [] }
    {
        Joints {
            alloc,
            in_quotes,
            keeps_names,
            out: Pieces::new(alloc),
            open: Vec::new(alloc),
            last: String::new(alloc),
            behind: Vec::new(alloc),
            before: None,
        }
    }

    fn read(&mut self, piece: Piece) -> Result<(), AllocError>
        ensures { OnOk result (read_edges self.new ≡ read_edges self.old ++ edges (piece ∷ [])) }
    {
        match piece {
            Piece::Text(text) => self.push_text(text),
            Piece::Open(wrap) => self.open(wrap),
            Piece::Close => self.close(),
        }
    }

    fn open(&mut self, wrap: Wrap) -> Result<(), AllocError>
        ensures { OnOk result (read_edges self.new ≡ read_edges self.old ++ true ∷ []) }
    {
        let kind = self.kind_of(&wrap);
        self.open.push(kind)?;
        self.wait(Edge::Open(wrap))?;
        if kind == WrapKind::Other {
            return Ok(());
        }
        self.end_joint()
    }

    fn kind_of(&self, wrap: &Wrap) -> WrapKind {
        match wrap {
            Wrap::Quotes(_) => WrapKind::Quotes,
            Wrap::Mark(Mark::Names(_) | Mark::Name(_, _)) if self.keeps_names => WrapKind::Names,
            _ => WrapKind::Other,
        }
    }

    #[tactic(auto, using(crate::proofs::Joined::wait_ended))]
    fn close(&mut self) -> Result<(), AllocError>
        ensures { OnOk result (read_edges self.new ≡ read_edges self.old ++ false ∷ []) }
    {
        match self.open.pop() {
            Some(WrapKind::Quotes) => self.wait(Edge::CloseQuotes),
            Some(WrapKind::Names) => {
                self.wait(Edge::Close)?;
                self.end_joint()
            }
            Some(WrapKind::Other) | None => self.wait(Edge::Close),
        }
    }

    /// Something opens or closes behind the last text.
    fn wait(&mut self, edge: Edge) -> Result<(), AllocError>
        ensures { OnOk result (read_edges self.new
            ≡ read_edges self.old ++ waiting_edge edge ∷ []) }
    {
        self.behind.push(edge)?;
        Ok(())
    }

    /// What comes next meets nothing.
    fn end_joint(&mut self) -> Result<(), AllocError>
        ensures { OnOk result (read_edges self.new ≡ read_edges self.old) }
    {
        self.write_last()?;
        self.before = None;
        Ok(())
    }

    fn push_text(&mut self, text: String) -> Result<(), AllocError>
        ensures { OnOk result (read_edges self.new ≡ read_edges self.old) }
    {
        let quotes_end = self.quotes_end();
        let whole = self.joined(text.as_str(), quotes_end.is_some())?;
        let rest = self.moved_into_quotes(whole, quotes_end)?;
        if rest.is_empty() {
            return Ok(());
        }
        let is_whole = rest.len() == text.len();
        let next = if is_whole {
            text
        } else {
            String::from_str(self.alloc, rest)?
        };
        self.write_last()?;
        self.last = next;
        Ok(())
    }

    /// Where the first quote ends behind the last text.
    fn quotes_end(&self) -> Option<usize> {
        for (place, edge) in self.behind.iter().enumerate() {
            if matches!(edge, Edge::CloseQuotes) {
                return Some(place);
            }
        }
        None
    }

    /// Whether markup begins behind the last text: what is in it stays behind the quote of its
    /// field.
    fn is_in_markup(&self) -> bool {
        for edge in &self.behind {
            if matches!(edge, Edge::Open(Wrap::Markup(_))) {
                return true;
            }
        }
        false
    }

    /// What is left of a text when its period or comma has moved into the quotes before it, which
    /// end at this place. It vanishes behind a mark that ends a sentence.
    fn moved_into_quotes<'t>(
        &mut self,
        text: &'t str,
        quotes_end: Option<usize>,
    ) -> Result<&'t str, AllocError>
        ensures { OnOk result (read_edges self.new ≡ read_edges self.old) }
    {
        let Some(place) = quotes_end else {
            return Ok(text);
        };
        if !self.in_quotes || self.is_in_markup() {
            return Ok(text);
        }
        match text.chars().next() {
            Some(mark) if mark == '.' || mark == ',' => {
                self.move_into_quotes(mark, place)?;
                Ok(text.strip_prefix(mark).unwrap_or(""))
            }
            _ => Ok(text),
        }
    }

    /// What is left of a text when it is joined to the last one, which may lose its end.
    fn joined<'t>(&mut self, text: &'t str, is_behind_quote: bool) -> Result<&'t str, AllocError>
        ensures { read_edges self.new ≡ read_edges self.old }
    {
        let Some(first) = text.chars().next() else {
            return Ok("");
        };
        let is_tight = first == '.' || first == ',';
        if (is_tight && (self.in_quotes || !is_behind_quote))
            || (first == ' ' && !is_behind_quote)
        {
            self.trim_last(' ')?;
        }
        let Some(last) = self.last.as_str().chars().next_back().or(self.before) else {
            let joins_nothing = self.out.has_no_text() && is_joint(text);
            return Ok(if joins_nothing { "" } else { text });
        };
        match kept_where_meet(last, first) {
            Kept::Both => {}
            Kept::First => return Ok(text.trim_start_matches(first)),
            Kept::Second => self.trim_last(last)?,
        }
        Ok(text)
    }

    fn trim_last(&mut self, c: char) -> Result<(), AllocError>
        ensures { read_edges self.new ≡ read_edges self.old }
    {
        let kept = self.last.as_str().trim_end_matches(c);
        if kept.len() < self.last.len() {
            self.last = String::from_str(self.alloc, kept)?;
        }
        Ok(())
    }

    /// Puts a mark before the closing quotation mark at this place behind the last text, unless
    /// that ends a sentence.
    fn move_into_quotes(&mut self, mark: char, place: usize) -> Result<(), AllocError>
        ensures { OnOk result (read_edges self.new ≡ read_edges self.old) }
    {
        if place > self.behind.len() || self.last.as_str().ends_with(|c| matches!(c, '!' | '?')) {
            return Ok(());
        }
        let behind = self.behind.split_off(place)?;
        self.write_last()?;
        self.last.push(mark)?;
        self.behind = behind;
        Ok(())
    }

    /// Writes the last text and what is behind it.
    fn write_last(&mut self) -> Result<(), AllocError>
        ensures edges { OnOk result (edges self.new.out.pieces.items ≡ read_edges self.old) }
        ensures behind { OnOk result (self.new.behind.items ≡ []) }
    {
        self.write_text()?;
        for edge in replace(&mut self.behind, Vec::new(self.alloc)) {
            self.write_edge(edge)?;
        }
        Ok(())
    }

    fn write_text(&mut self) -> Result<(), AllocError>
        ensures edges { edges self.new.out.pieces.items ≡ edges self.old.out.pieces.items }
        ensures behind { self.new.behind ≡ self.old.behind }
    {
        let last = replace(&mut self.last, String::new(self.alloc));
        let Some(c) = last.as_str().chars().next_back() else {
            return Ok(());
        };
        self.before = Some(c);
        self.out.push_text(last)
    }

    fn write_edge(&mut self, edge: Edge) -> Result<(), AllocError>
        ensures edges { OnOk result (edges self.new.out.pieces.items
            ≡ edges self.old.out.pieces.items ++ waiting_edge edge ∷ []) }
        ensures behind { self.new.behind ≡ self.old.behind }
    {
        match edge {
            Edge::Open(wrap) => self.out.open(wrap),
            Edge::Close | Edge::CloseQuotes => self.out.close(),
        }
    }
}

/// Whether a text is a mark with a space behind it, or spaces: it joins what is around it.
fn is_joint(text: &str) -> bool {
    let is_spaced = text.ends_with(|c: char| c.is_whitespace());
    is_spaced && matches!(text.trim_end(), "" | "." | "," | ";" | ":")
}

/// Which of two characters that meet is written.
enum Kept {
    Both,
    First,
    Second,
}

fn kept_where_meet(last: char, first: char) -> Kept {
    match (last, first) {
        ('.', '.') | (',', ',') | (';', ';') | (':', ':') | ('!', '!') | ('?', '?') => Kept::First,
        ('!' | '?', '.' | ':') | (':' | ';', '.') | (';', ':') => Kept::First,
        (':' | ';', '!' | '?') => Kept::Second,
        _ => Kept::Both,
    }
}
