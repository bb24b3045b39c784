//! A writer asked for one thing, which is counted.
ghost use Rattle.std.specs.Prelude.{◌≡◌, ◌∷◌, [], IfOk, OnOk};
ghost use Rattle.driver_writers.specs.Desk.{after, desk};
ghost use Rattle.driver_writers.specs.Tasks.{cite_task, date_task, item_task};
ghost use Rattle.driver_writers.specs.TaskView.{cite_task_view, date_task_view, item_task_view};

use crate::cite::Cite;
use crate::counter::Renders;
use crate::task::{CiteTask, DateTask, ItemTask};
use crate::writer::CiteWriter;
use csl_base::elem::ElemChildren;
use csl_base::entry::EntryLike;
use std::alloc::Global;

/// A cite as the writer writes it.
///
/// # Errors
///
/// The writer's.
pub fn written_cite<T: EntryLike, P, W: CiteWriter<T, P>>(
    alloc: Global,
    task: CiteTask<'_, '_, T, P>,
    writer: &mut W,
    counter: &mut Renders,
) -> Result<Cite, W::Error>
    ensures cite { IfOk result (λ c. (way : W.Way) → W.agrees writer.new way
        → c ≡ (W.state writer.old way).cite (cite_task_view task.entry)) }
    ensures asked { OnOk result ((way : W.Way) → W.agrees writer.new way
        → desk (W.state writer.new way) counter.new
        ≡ after (cite_task (cite_task_view task.entry) ∷ [])
        (desk (W.state writer.old way) counter.old)) }
    ensures agreed { OnOk result ((way : W.Way) → W.agrees writer.new way
        → W.agrees writer.old way) }
{
    counter.add_one();
    writer.write_cite(alloc, &task)
}

/// An item of the bibliography as the writer writes it.
///
/// # Errors
///
/// The writer's.
pub fn written_item<T: EntryLike, P, W: CiteWriter<T, P>>(
    alloc: Global,
    task: ItemTask<'_, '_, T, P>,
    writer: &mut W,
    counter: &mut Renders,
) -> Result<Option<ElemChildren>, W::Error>
    ensures item { IfOk result (λ i. (way : W.Way) → W.agrees writer.new way
        → i ≡ (W.state writer.old way).item (item_task_view task.entry)) }
    ensures asked { OnOk result ((way : W.Way) → W.agrees writer.new way
        → desk (W.state writer.new way) counter.new
        ≡ after (item_task (item_task_view task.entry) ∷ [])
        (desk (W.state writer.old way) counter.old)) }
    ensures agreed { OnOk result ((way : W.Way) → W.agrees writer.new way
        → W.agrees writer.old way) }
{
    counter.add_one();
    writer.write_item(alloc, &task)
}

/// A date as the writer writes it.
///
/// # Errors
///
/// The writer's.
pub fn written_date<T: EntryLike, P, W: CiteWriter<T, P>>(
    alloc: Global,
    task: DateTask<'_, T>,
    writer: &mut W,
    counter: &mut Renders,
) -> Result<ElemChildren, W::Error>
    ensures date { IfOk result (λ d. (way : W.Way) → W.agrees writer.new way
        → d ≡ (W.state writer.old way).date (date_task_view task.entry)) }
    ensures asked { OnOk result ((way : W.Way) → W.agrees writer.new way
        → desk (W.state writer.new way) counter.new
        ≡ after (date_task (date_task_view task.entry) ∷ [])
        (desk (W.state writer.old way) counter.old)) }
    ensures agreed { OnOk result ((way : W.Way) → W.agrees writer.new way
        → W.agrees writer.old way) }
{
    counter.add_one();
    writer.write_date(alloc, &task)
}
