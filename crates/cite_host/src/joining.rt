//! The cites of a citation are joined.
use cite_pieces::formatting::NOTHING_ASKED;
use cite_pieces::piece::{Mark, Wrap};
use cite_pieces::pieces::Pieces;
use cite_tasks::cites::{Citation, MissingCite};
use cite_tasks::wording::{Around, with_affixes};
use cite_trees::streams::CiteStream;
use std::alloc::{AllocError, Global};
use std::collections::BTreeSet;
use style_file::formatting::{FontWeight, Formatting};
use style_file::sections::Layout;

/// The stream of a citation: its cites, and what stands between them, but before one that begins
/// with a comma, a semicolon or a period. Each is one of those of the citation that is asked, as
/// `places` says, and is marked as an entry by its place there.
///
/// # Errors
///
/// Where memory is refused.
pub(crate) fn joined(
    alloc: Global,
    layout: &Layout,
    asked: &Citation,
    cites: Vec<CiteStream>,
    places: &[usize],
) -> Result<Pieces, AllocError> {
    let mut joining = Joining::new(alloc, layout, asked);
    for cite in cites {
        let place = places.get(cite.place).copied().unwrap_or(cite.place);
        joining.push_cite(cite, place)?;
    }
    joining.finish()
}

/// A text in the formatting of a layout.
///
/// # Errors
///
/// Where memory is refused.
pub(crate) fn in_layout(
    alloc: Global,
    layout: &Layout,
    text: Pieces,
) -> Result<Pieces, AllocError> {
    if layout.formatting == NOTHING_ASKED {
        return Ok(text);
    }
    let mut out = Pieces::new(alloc);
    out.push_wrapped(Wrap::Formatting(layout.formatting), text)?;
    Ok(out)
}

/// The stream of a citation, to which its cites are added.
#[derive(Drop)]
struct Joining<'c> {
    alloc: Global,
    layout: &'c Layout,
    asked: &'c Citation,
    /// Which cites with missing ones before them are in the stream.
    added: BTreeSet<usize>,
    stream: Pieces,
}

impl<'c> Joining<'c> {
    fn new(alloc: Global, layout: &'c Layout, asked: &'c Citation) -> Joining<'c> {
        Joining {
            alloc,
            layout,
            asked,
            added: BTreeSet::new(alloc),
            stream: Pieces::new(alloc),
        }
    }

    /// Adds the cite of this number, and the missing ones before it.
    fn push_cite(&mut self, cite: CiteStream, number: usize) -> Result<(), AllocError> {
        let CiteStream { before, cite, .. } = cite;
        let Some(asked) = self.asked.cites.get(number) else {
            return Ok(());
        };
        let before = if asked.missing_before.is_empty() {
            before
        } else {
            self.added.insert(number)?;
            self.push_missing(&asked.missing_before, before)?
        };
        if !begins_with_mark(&cite) {
            self.stream.push_pieces(before)?;
        }
        self.stream
            .push_wrapped(Wrap::Mark(Mark::Entry(asked.place)), cite)
    }

    /// Adds missing cites, the first of them behind `before`, and gives what stands between the
    /// last one and what follows.
    fn push_missing(
        &mut self,
        missing: &[MissingCite],
        before: Pieces,
    ) -> Result<Pieces, AllocError> {
        let mut before = before;
        for cite in missing.iter().filter(|cite| !cite.is_hidden) {
            self.stream.push_pieces(before)?;
            let stand_in = stand_in(self.alloc, cite)?;
            self.stream
                .push_pieces(in_layout(self.alloc, self.layout, stand_in)?)?;
            before = self.delimiter()?;
        }
        Ok(before)
    }

    /// What stands between two cites.
    fn delimiter(&self) -> Result<Pieces, AllocError> {
        let delimiter = Pieces::of_str(self.alloc, self.layout.delimiter.as_str())?;
        in_layout(self.alloc, self.layout, delimiter)
    }

    /// The whole stream, with the missing cites that aren't in it yet behind all others.
    fn finish(self) -> Result<Pieces, AllocError> {
        let mut joining = self;
        if !joining.asked.has_missing() {
            return Ok(joining.stream);
        }
        let mut before = if joining.stream.has_no_text() {
            Pieces::new(joining.alloc)
        } else {
            joining.delimiter()?
        };
        let asked = joining.asked;
        for (place, cite) in asked.cites.iter().enumerate() {
            if !joining.added.contains(&place) {
                before = joining.push_missing(&cite.missing_before, before)?;
            }
        }
        joining.push_missing(&asked.missing_behind, before)?;
        Ok(joining.stream)
    }
}

/// What stands for a cite whose item isn't there: its id in bold letters, with a question mark,
/// between the words that stand around it.
fn stand_in(alloc: Global, missing: &MissingCite) -> Result<Pieces, AllocError> {
    let mut id = Pieces::of_str(alloc, missing.id.as_str())?;
    id.push_str(alloc, "?")?;
    let mut bold = Pieces::new(alloc);
    bold.push_wrapped(Wrap::Formatting(BOLD), id)?;
    let around = Around {
        prefix: missing.prefix.as_str(),
        suffix: missing.suffix.as_str(),
    };
    with_affixes(alloc, bold, around, false)
}

/// Bold letters.
const BOLD: Formatting = Formatting {
    font_style: None,
    font_variant: None,
    font_weight: Some(FontWeight::Bold),
    text_decoration: None,
    vertical_align: None,
};

fn begins_with_mark(cite: &Pieces) -> bool {
    matches!(cite.first_char(), Some(',' | ';' | '.'))
}
