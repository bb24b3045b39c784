//! What is kept of a mention that was written as a cite.
ghost use Rattle.std.specs.Prelude.{◌≡◌, IfOk};
ghost use Rattle.mentions_cited.specs.Kept.{shows, written_mention};

use driver_lookup::state::IdentifierUsage;
use driver_writers::cite::Cite;
use driver_writers::counter::Renders;
use mentions_groups::shown::{ShownNames, shown_names};
use mentions_groups::written::written_of;
use mentions_tables::writer::WrittenMention;
use std::alloc::{AllocError, Global};
use value_lists::seq::Seq;
use value_lists::text::Text;
use value_trees::elem::{ElemChildren, ElemMeta};

/// What is kept of a mention that was written as a cite.
#[derive(Drop)]
pub struct KeptOfMention {
    /// Which identifiers of its entry it had written by then.
    pub usage: IdentifierUsage,
    /// What it reads as.
    pub text: Text,
    /// Its first names, as they are shown.
    pub names: Option<ShownNames>,
    /// Whether it shows the number of its entry.
    pub shows_number: bool,
    /// Whether it shows a date.
    pub shows_date: bool,
}

/// What is noted of all mentions that were asked for: what the writer of cites noted, and how many
/// were counted.
pub struct Noted<N> {
    pub notes: Seq<N>,
    pub count: Renders,
}

/// Whether a tree has an element that was rendered for this.
fn shows(tree: &ElemChildren, meta: &ElemMeta) -> bool
    ensures { result ≡ shows meta.now tree.now }
{
    tree.find_meta(meta).is_some()
}

/// What is kept of a cite.
fn kept_of(alloc: Global, cite: &Cite) -> Result<KeptOfMention, AllocError>
    ensures { IfOk result (λ k. k ≡ (written_mention cite.now).kept) }
{
    let mut text = String::new(alloc);
    cite.children.write_plain(&mut text)?;
    Ok(KeptOfMention {
        usage: cite.identifier_usage,
        text: Text::new(text),
        names: shown_names(alloc, &cite.children)?,
        shows_number: shows(&cite.children, &ElemMeta::CitationNumber),
        shows_date: shows(&cite.children, &ElemMeta::Date),
    })
}

/// What is read and kept of a mention that was written as this cite.
pub(crate) fn written_mention(
    alloc: Global,
    cite: &Cite,
) -> Result<WrittenMention<KeptOfMention>, AllocError>
    ensures { IfOk result (λ w. w ≡ written_mention cite.now) }
{
    let tested = cite.checked_disambiguate;
    Ok(WrittenMention {
        read: written_of(alloc, &cite.children, &cite.first_name, tested)?,
        kept: kept_of(alloc, cite)?,
    })
}
