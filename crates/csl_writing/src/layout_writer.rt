//! The writer that writes what the layouts of styles say.
use crate::date::date_text;
use crate::lookup::StyleContext;
use crate::spare::Spare;
use csl_base::elem::ElemChildren;
use csl_base::entry::EntryLike;
use driver_writers::cite::Cite;
use driver_writers::task::{CiteTask, DateTask, ItemTask};
use driver_writers::writer::CiteWriter;
use std::alloc::{AllocError, Global};

/// Writes cites, items of the bibliography and dates by the layouts of their styles. It keeps the
/// memory that a rendering took memory for, for the next one.
#[derive(Drop)]
pub struct LayoutWriter {
    spare: Spare,
}

impl LayoutWriter {
    /// A writer that has written nothing yet; it takes no memory.
    pub fn new() -> LayoutWriter {
        LayoutWriter {
            spare: Spare::none(),
        }
    }
}

/// A layout writer notes nothing.
pub enum NoNote {}

impl<T: EntryLike, P> CiteWriter<T, P> for LayoutWriter {
    ghost use Rattle.std.specs.Prelude.{⊤};
    ghost use Rattle.csl_writing.specs.LayoutWriting.{layout_state, layout_writes_equally};

    type Error = AllocError;

    type Note = NoNote;

    ghost Way = { ⊤ };

    ghost agrees = { λ _ _. ⊤ };

    ghost state = { λ _ _. layout_state T.answers };

    fn write_cite(
        &mut self,
        alloc: Global,
        task: &CiteTask<'_, '_, T, P>,
    ) -> Result<Cite, AllocError> {
        let context = StyleContext::of_locales(task.source);
        let spare = &mut self.spare;
        context.cite_of(
            alloc,
            task.entry,
            task.properties,
            task.purpose,
            task.verdict,
            spare,
        )
    }

    fn write_item(
        &mut self,
        alloc: Global,
        task: &ItemTask<'_, '_, T, P>,
    ) -> Result<Option<ElemChildren>, AllocError> {
        let context = StyleContext::of_locales(task.source);
        context.listed(alloc, task.entry, task.properties, &mut self.spare)
    }

    fn write_date(
        &mut self,
        alloc: Global,
        task: &DateTask<'_, T>,
    ) -> Result<ElemChildren, AllocError> {
        date_text(&task.source, alloc, task.entry, task.suffix)
    }

    ghost equal_written_equally = { λ _ _ a b e. layout_writes_equally T.answers a b
        (T.equal_answer_equally a b e) };

    ghost some_way = { λ _. (tt, tt) };
}
