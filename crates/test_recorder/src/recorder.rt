//! A writer that keeps what the layouts write.

use csl_base::elem::ElemChildren;
use csl_base::entry::EntryLike;
use csl_base::style::IndependentStyle;
use csl_base::text::Text;
use csl_writing::layout_writer::{LayoutWriter, NoNote};
use document_styles::styles::NamedStyle;
use driver_lookup::state::IdentifierUsage;
use driver_writers::cite::Cite;
use driver_writers::task::{CiteTask, DateTask, ItemTask};
use driver_writers::writer::CiteWriter;
use host_memo::key::{TaskKey, cite_key, date_key, item_key};
use host_memo::table::Table;
use ordered_map::map::OrderedMap;
use std::alloc::{AllocError, Global};

/// Writes by the layouts of styles, and puts what it writes into a table, under the names that a
/// document gives its styles.
#[derive(Drop)]
pub struct Recorder<'s> {
    layouts: LayoutWriter,
    styles: &'s [NamedStyle],
    pub table: Table,
}

/// The name of the first of the styles that is equal to this one.
fn name_of<'s>(styles: &'s [NamedStyle], style: &IndependentStyle) -> &'s str {
    for named in styles {
        if named.style == *style {
            return named.name.as_str();
        }
    }
    ""
}

/// Puts what was written into a table, unless something is there for it.
pub fn put_in(table: &mut Table, key: TaskKey, written: Cite) -> Result<(), AllocError> {
    let copy = key.clone()?;
    table.add(key, copy, written)
}

/// A tree by itself, as what was written.
pub fn tree_alone(children: ElemChildren) -> Cite {
    Cite {
        children,
        checked_disambiguate: false,
        first_name: None,
        identifier_usage: IdentifierUsage::None,
    }
}

impl<'s> Recorder<'s> {
    /// A writer that has written nothing yet.
    pub fn new(alloc: Global, styles: &'s [NamedStyle]) -> Recorder<'s> {
        Recorder {
            layouts: LayoutWriter::new(),
            styles,
            table: OrderedMap::new(alloc),
        }
    }

    // Puts what was written under the key, with the name of the style.
    fn put(
        &mut self,
        alloc: Global,
        mut key: TaskKey,
        style: &IndependentStyle,
        written: Cite,
    ) -> Result<(), AllocError> {
        match Text::copied(alloc, name_of(self.styles, style)) {
            Ok(name) => key.style = name,
            Err(error) => {
                drop(key);
                drop(written);
                return Err(error);
            }
        }
        put_in(&mut self.table, key, written)
    }
}

impl<'s, T: EntryLike, P> CiteWriter<T, P> for Recorder<'s> {
    ghost use Rattle.std.specs.Prelude.{⊤};
    ghost use Rattle.csl_writing.specs.LayoutWriting.{layout_state, layout_writes_equally};

    type Error = AllocError;

    type Note = NoNote;

    ghost Way = { ⊤ };

    ghost agrees = { λ _ _. ⊤ };

    ghost state = { λ _ _. layout_state T.answers };

    fn write_cite(
        &mut self,
        alloc: Global,
        task: &CiteTask<'_, '_, T, P>,
    ) -> Result<Cite, AllocError> {
        let kept = self.layouts.write_cite(alloc, task)?;
        self.put(alloc, cite_key(alloc, task)?, task.source.style, kept)?;
        self.layouts.write_cite(alloc, task)
    }

    fn write_item(
        &mut self,
        alloc: Global,
        task: &ItemTask<'_, '_, T, P>,
    ) -> Result<Option<ElemChildren>, AllocError> {
        let kept = CiteWriter::<T, P>::write_item(&mut self.layouts, alloc, task)?;
        if let Some(children) = kept {
            self.put(
                alloc,
                item_key(alloc, task)?,
                task.source.style,
                tree_alone(children),
            )?;
        }
        self.layouts.write_item(alloc, task)
    }

    fn write_date(
        &mut self,
        alloc: Global,
        task: &DateTask<'_, T>,
    ) -> Result<ElemChildren, AllocError> {
        let kept = CiteWriter::<T, P>::write_date(&mut self.layouts, alloc, task)?;
        self.put(
            alloc,
            date_key(alloc, task)?,
            task.source.style,
            tree_alone(kept),
        )?;
        CiteWriter::<T, P>::write_date(&mut self.layouts, alloc, task)
    }

    ghost equal_written_equally = { λ _ _ a b e. layout_writes_equally T.answers a b
        (T.equal_answer_equally a b e) };

    ghost some_way = { λ _. (tt, tt) };
}
