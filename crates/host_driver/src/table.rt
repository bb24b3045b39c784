//! The writer that answers from a table.
ghost use Rattle.std.specs.Prelude.{◌≡◌, None};
ghost use Rattle.host_memo.specs.Written.{written_as};

use csl_base::elem::ElemChildren;
use csl_base::entry::EntryLike;
use driver_lookup::state::IdentifierUsage;
use driver_writers::cite::Cite;
use driver_writers::task::{CiteTask, DateTask, ItemTask};
use driver_writers::writer::CiteWriter;
use host_memo::key::{TaskKey, cite_key, date_key, item_key};
use host_memo::table::{Table, copied};
use ordered_set::set::OrderedSet;
use std::alloc::{AllocError, Global};

/// Answers from a table that it borrows. What the table lacks is answered by an empty tree, and
/// noted once; but only what is of the earliest stage of all that is missing stays noted, since
/// what is of a later one may not be asked for any more once that is there.
#[derive(Drop)]
pub struct TableWriter<'t> {
    pub written: &'t Table,
    pub missing: OrderedSet<TaskKey>,
}

/// Nothing: an empty tree.
fn nothing(alloc: Global) -> Cite
    ensures { result ≡ written_as None }
{
    Cite {
        children: ElemChildren::new(alloc),
        checked_disambiguate: false,
        first_name: None,
        identifier_usage: IdentifierUsage::None,
    }
}

impl<'t> TableWriter<'t> {
    ghost use Rattle.std.specs.Prelude.{◌≡◌, IfOk, OnOk, []};
    ghost use Rattle.ordered_set.specs.Keys.{with_key};
    ghost use Rattle.host_memo.specs.Written.{found, key_eq, written_as};
    ghost use Rattle.host_driver.specs.Table.{is_earlier, is_later, kept_beside, note_once};

    /// A writer that has noted nothing yet.
    pub fn new(alloc: Global, written: &'t Table) -> TableWriter<'t>
        ensures table { result.written.now ≡ written.now }
        ensures nothing { result.missing.keys ≡ [] }
    {
        TableWriter {
            written,
            missing: OrderedSet::new(alloc),
        }
    }

    // Whether something of an earlier stage is missing.
    fn is_later(&self, key: &TaskKey) -> bool
        ensures { result ≡ is_later self.now.missing.keys key.now }
    {
        match self.missing.as_slice().first() {
            Some(first) => first.stage() < key.stage(),
            None => false,
        }
    }

    // Whether what is missing is of a later stage.
    fn is_earlier(&self, key: &TaskKey) -> bool
        ensures { result ≡ is_earlier self.now.missing.keys key.now }
    {
        match self.missing.as_slice().first() {
            Some(first) => key.stage() < first.stage(),
            None => false,
        }
    }

    // What was written; nothing, and a note, where the table lacks it.
    fn answer(&mut self, alloc: Global, key: TaskKey) -> Result<Cite, AllocError>
        ensures cite { IfOk result (λ c. c ≡ written_as (found self.old.written.now key)) }
        ensures same_table { self.new.written ≡ self.old.written }
        ensures noted { OnOk result
            (self.new.missing.keys
            ≡ note_once (found self.old.written.now) key self.old.missing.keys) }
    {
        if let Some(cite) = self.written.get(&key) {
            return copied(cite);
        }
        if self.is_later(&key) {
            return Ok(nothing(alloc));
        }
        self.keep_beside(alloc, &key);
        self.note(key)?;
        Ok(nothing(alloc))
    }

    // Drops what is noted, where it is of a later stage.
    fn keep_beside(&mut self, alloc: Global, key: &TaskKey)
        ensures same_table { self.new.written ≡ self.old.written }
        ensures kept { self.new.missing.keys ≡ kept_beside key.now self.old.missing.keys }
    {
        if self.is_earlier(key) {
            self.missing = OrderedSet::new(alloc);
        }
    }

    // Notes this once.
    fn note(&mut self, key: TaskKey) -> Result<(), AllocError>
        ensures same_table { self.new.written ≡ self.old.written }
        ensures noted { OnOk result
            (self.new.missing.keys ≡ with_key key_eq self.old.missing.keys key) }
    {
        let Ok(copy) = key.clone() else {
            return Err(AllocError);
        };
        self.missing.insert(key, copy)?;
        Ok(())
    }
}

impl<'t, T: EntryLike, P> CiteWriter<T, P> for TableWriter<'t> {
    ghost use Rattle.std.specs.Prelude.{⊤};
    ghost use Rattle.host_memo.specs.Written.{found};
    ghost use Rattle.host_driver.specs.Table.{table_state};
    ghost use Rattle.host_driver.specs.TableEqual.{table_writes_equally};

    type Error = AllocError;

    type Note = TaskKey;

    ghost Way = { ⊤ };

    ghost agrees = { λ _ _. ⊤ };

    ghost state = { λ w _. table_state (found w.written.now) T.answers w.missing.keys };

    fn write_cite(
        &mut self,
        alloc: Global,
        task: &CiteTask<'_, '_, T, P>,
    ) -> Result<Cite, AllocError> {
        self.answer(alloc, cite_key(alloc, task)?)
    }

    fn write_item(
        &mut self,
        alloc: Global,
        task: &ItemTask<'_, '_, T, P>,
    ) -> Result<Option<ElemChildren>, AllocError> {
        let item = self.answer(alloc, item_key(alloc, task)?)?;
        Ok(Some(item.children))
    }

    fn write_date(
        &mut self,
        alloc: Global,
        task: &DateTask<'_, T>,
    ) -> Result<ElemChildren, AllocError> {
        let date = self.answer(alloc, date_key(alloc, task)?)?;
        Ok(date.children)
    }

    ghost equal_written_equally = { λ w _ a b e. table_writes_equally (found w.written.now)
        T.answers w.missing.keys a b (T.equal_answer_equally a b e) };

    ghost some_way = { λ _. (tt, tt) };
}
