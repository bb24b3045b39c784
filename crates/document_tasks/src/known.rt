//! The styles and the entries that a task may name.
ghost use Rattle.std.specs.Prelude.{◌≡◌, IfOk};
ghost use Rattle.document_styles.specs.NamedStyleView.{named_styles_view};
ghost use Rattle.document_styles.specs.Styles.{style_named};
ghost use Rattle.document_requests.specs.Entries.{entry_named};
ghost use Rattle.document_tasks.specs.Known.{known_entry_in, known_style_in};

use csl_base::entry::PlainEntry;
use document_styles::styles::NamedStyle;
use std::alloc::{AllocError, Global};
use std::collections::BTreeMap;

/// Styles by their names.
type StylesByName<'d> = BTreeMap<&'d str, &'d NamedStyle>;

/// The styles by their names. A name finds the first style that has it.
fn styles_by_name<'d>(
    alloc: Global,
    styles: &'d [NamedStyle],
) -> Result<StylesByName<'d>, AllocError>
    ensures { IfOk result (λ m. known_style_in m ≡ style_named (named_styles_view styles.now)) }
{
    let mut by_name = BTreeMap::new(alloc);
    for named in styles {
        let name = named.name.as_str();
        if !by_name.contains_key(&name) {
            by_name.insert(name, named)?;
        }
    }
    Ok(by_name)
}

/// Entries by their keys.
type EntriesByKey<'d> = BTreeMap<&'d str, &'d PlainEntry>;

/// The entries by their keys. A key finds the first entry that has it.
fn entries_by_key<'d>(
    alloc: Global,
    entries: &'d [PlainEntry],
) -> Result<EntriesByKey<'d>, AllocError>
    ensures { IfOk result (λ m. known_entry_in m ≡ entry_named entries.now) }
{
    let mut by_key = BTreeMap::new(alloc);
    for entry in entries {
        let key = entry.key.as_str();
        if !by_key.contains_key(&key) {
            by_key.insert(key, entry)?;
        }
    }
    Ok(by_key)
}

/// The styles and the entries of a document, which its tasks may name.
#[derive(Drop)]
pub(crate) struct Known<'d> {
    styles: StylesByName<'d>,
    entries: EntriesByKey<'d>,
}

impl<'d> Known<'d> {
    ghost use Rattle.std.specs.Prelude.{◌≡◌, IfOk, is_some};
    ghost use Rattle.document_styles.specs.NamedStyleView.{named_styles_view};
    ghost use Rattle.document_styles.specs.Styles.{style_named};
    ghost use Rattle.document_requests.specs.Entries.{entry_named};
    ghost use Rattle.document_tasks.specs.Known.{is_known, knows, known_entry_in, known_style_in};

    /// What tasks may name where these are the styles and the entries.
    pub(crate) fn new(
        alloc: Global,
        styles: &'d [NamedStyle],
        entries: &'d [PlainEntry],
    ) -> Result<Known<'d>, AllocError>
        ensures { IfOk result (λ k. knows k
            ≡ is_known (style_named (named_styles_view styles.now)) (entry_named entries.now)) }
    {
        Ok(Known {
            styles: styles_by_name(alloc, styles)?,
            entries: entries_by_key(alloc, entries)?,
        })
    }

    /// Whether there is a style of this name.
    pub(crate) fn has_style(&self, name: &str) -> bool
        ensures { result ≡ is_some (known_style_in self.now.styles name.now) }
    {
        self.styles.contains_key(name)
    }

    /// Whether there is an entry of this key.
    pub(crate) fn has_entry(&self, key: &str) -> bool
        ensures { result ≡ is_some (known_entry_in self.now.entries key.now) }
    {
        self.entries.contains_key(key)
    }
}
