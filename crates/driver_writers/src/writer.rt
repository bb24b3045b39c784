//! A writer of cites.
use crate::cite::Cite;
use crate::task::{CiteTask, DateTask, ItemTask};
use csl_base::elem::ElemChildren;
use csl_base::entry::EntryLike;
use std::alloc::{AllocError, Global};

/// Writes cites, items of the bibliography and dates for a driver.
///
/// What it writes follows from what it is asked for, however often and in whichever order it is
/// asked, and equal entries are written equally. All that being asked may change is what the writer
/// notes of it.
///
/// A *way* is a rule that has an answer for every task, and by which the writer may turn out to
/// write. Where the rule is known beforehand there is one way. Where it isn't, as in a writer that
/// asks other code and keeps what that gave, there are many, and what has been written by now
/// agrees with some of them: the more is written, the fewer are left, and there is always one. The
/// clauses of a writer, and of each function that asks it, hold in every way with which the writer
/// agrees in the end.
///
/// A driver reads these parts of a tree: its plain text, by which cites are compared; the elements
/// that stand for names, with their persons; and whether there are elements that stand for a date,
/// for the number of the entry or for its label. A writer that marks no names is neither grouped
/// nor disambiguated by names; without dates no suffixes are added and no years collapsed, and
/// without numbers no runs.
pub trait CiteWriter<T: EntryLike, P> {
    ghost use Rattle.std.specs.Prelude.{◌≡◌, ◌∷◌, [], true, IfOk, OnOk};
    ghost use Rattle.driver_writers.specs.Writing.{
      AreWrittenEqually,
      WriterState,
      asked_for,
      writing_of,
    };
    ghost use Rattle.driver_writers.specs.Tasks.{cite_task, date_task, item_task};
    ghost use Rattle.driver_writers.specs.TaskView.{cite_task_view, date_task_view, item_task_view};

    /// Why it may write nothing; lack of memory among others.
    type Error: From<AllocError> + Drop;

    /// What it notes where it is asked for something.
    type Note;

    /// The ways in which it may turn out to write.
    ghost Way: { Type 0 };

    /// What it has written by now agrees with this way.
    ghost agrees: { Self → Way → Type 0 };

    /// What it writes in this way, and its notes.
    ghost state: { Self → Way → WriterState T P Self.Note };

    /// Writes a cite.
    ///
    /// # Errors
    ///
    /// The writer's own.
    fn write_cite(
        &mut self,
        alloc: Global,
        task: &CiteTask<'_, '_, T, P>,
    ) -> Result<Cite, Self::Error>
        ensures cite { IfOk result (λ c. (way : Way) → agrees self.new way
            → c ≡ (state self.old way).cite (cite_task_view task.now)) }
        ensures asked { OnOk result ((way : Way) → agrees self.new way
            → state self.new way ≡ asked_for (cite_task (cite_task_view task.now) ∷ [])
            (state self.old way)) }
        ensures agreed { OnOk result ((way : Way) → agrees self.new way → agrees self.old way) };

    /// Writes an item of the bibliography; `None` where its style has none.
    ///
    /// # Errors
    ///
    /// The writer's own.
    fn write_item(
        &mut self,
        alloc: Global,
        task: &ItemTask<'_, '_, T, P>,
    ) -> Result<Option<ElemChildren>, Self::Error>
        ensures item { IfOk result (λ i. (way : Way) → agrees self.new way
            → i ≡ (state self.old way).item (item_task_view task.now)) }
        ensures asked { OnOk result ((way : Way) → agrees self.new way
            → state self.new way ≡ asked_for (item_task (item_task_view task.now) ∷ [])
            (state self.old way)) }
        ensures agreed { OnOk result ((way : Way) → agrees self.new way → agrees self.old way) };

    /// Writes a date.
    ///
    /// # Errors
    ///
    /// The writer's own.
    fn write_date(
        &mut self,
        alloc: Global,
        task: &DateTask<'_, T>,
    ) -> Result<ElemChildren, Self::Error>
        ensures date { IfOk result (λ d. (way : Way) → agrees self.new way
            → d ≡ (state self.old way).date (date_task_view task.now)) }
        ensures asked { OnOk result ((way : Way) → agrees self.new way
            → state self.new way ≡ asked_for (date_task (date_task_view task.now) ∷ [])
            (state self.old way)) }
        ensures agreed { OnOk result ((way : Way) → agrees self.new way → agrees self.old way) };

    ghost equal_written_equally: { (w : Self) (way : Way) (a : T) (b : T) → T.eq a b ≡ true
        → AreWrittenEqually (state w way) a b };

    /// There is a way with which it agrees.
    ghost some_way: { (w : Self) → (way : Way) × agrees w way };
}
