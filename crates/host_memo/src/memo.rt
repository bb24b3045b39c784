//! The writer that asks a source, and keeps what that wrote.
ghost use Rattle.std.specs.Prelude.{All};

use crate::key::{TaskKey, cite_key, date_key, item_key};
use crate::laws::key_equality_decides;
use crate::source::Source;
use crate::table::{Table, copied};
use csl_base::elem::ElemChildren;
use csl_base::entry::EntryLike;
use driver_writers::cite::Cite;
use driver_writers::task::{CiteTask, DateTask, ItemTask};
use driver_writers::writer::CiteWriter;
use ordered_map::map::OrderedMap;
use std::alloc::{AllocError, Global};

/// Asks a source once for each task, and answers equal tasks by what it wrote: those whose keys are
/// equal. So it writes as a driver may rely on, whatever the source does.
#[derive(Drop)]
pub struct Memo<S: Source> {
    /// What the source wrote, in the order in which it was asked.
    pub written: Table,
    pub source: S,
    pub ghost allowed: { ∥ All (λ e. S.may_write source e.0 e.1) written.entries ∥₁ },
}

impl<S: Source> Memo<S> {
    ghost use Rattle.std.specs.Prelude.{◌≡◌, [], IfNone, IfOk, IfSome, OnOk, None, Some};
    ghost use Rattle.driver_writers.specs.declared.cite.Cite.{Cite};
    ghost use Rattle.host_memo.specs.Memo.{Agrees, Grows, key_noted};
    ghost use Rattle.host_memo.specs.Written.{found, keys};
    ghost use Rattle.host_memo.specs.declared.key.TaskKey.{TaskKey};

    /// A memo of this source, which it hasn't asked for anything yet.
    pub fn new(alloc: Global, source: S) -> Memo<S>
        ensures source { result.source ≡ source }
        ensures nothing { keys result.written ≡ [] }
    {
        Memo {
            written: OrderedMap::new(alloc),
            source,
        }
    }

    // What is written of a task: what was, or else what the source writes.
    fn text(&mut self, alloc: Global, key: TaskKey) -> Result<Cite, S::Error>
        ensures cite { IfOk result (λ c. (way : TaskKey → Cite)
            → Agrees (found self.new.written) way → c ≡ way key) }
        ensures agreed { OnOk result ((way : TaskKey → Cite)
            → Agrees (found self.new.written) way → Agrees (found self.old.written) way) }
        ensures noted { OnOk result
            (keys self.new.written ≡ key_noted key (keys self.old.written)) }
    {
        if let Some(cite) = self.kept(&key)? {
            return Ok(cite);
        }
        let cite = self.source.write(alloc, &key)?;
        Ok(self.hand_out(key, cite)?)
    }

    // What was written before.
    fn kept(&self, key: &TaskKey) -> Result<Option<Cite>, AllocError>
        ensures lacked { IfOk result (λ c. IfNone c (found self.now.written key.now ≡ None)) }
        ensures cite { IfOk result (λ c. IfSome c (λ x. (way : TaskKey → Cite)
            → Agrees (found self.now.written) way → x ≡ way key.now)) }
        ensures noted { IfOk result (λ c. IfSome c (λ _.
            keys self.now.written ≡ key_noted key.now (keys self.now.written))) }
    {
        match self.written.get(key) {
            Some(cite) => Ok(Some(copied(cite)?)),
            None => Ok(None),
        }
    }

    // Keeps what was written, and hands it out.
    fn hand_out(&mut self, key: TaskKey, cite: Cite) -> Result<Cite, AllocError>
        requires lacked { found self.old.written key ≡ None }
        requires allowed { S.may_write self.old.source key cite }
        ensures cite { IfOk result (λ c. (way : TaskKey → Cite)
            → Agrees (found self.new.written) way → c ≡ way key) }
        ensures agreed { OnOk result ((way : TaskKey → Cite)
            → Agrees (found self.new.written) way → Agrees (found self.old.written) way) }
        ensures noted { OnOk result
            (keys self.new.written ≡ key_noted key (keys self.old.written)) }
    {
        self.keep(key, cite)
    }

    // Keeps what was written; gives a copy.
    fn keep(&mut self, key: TaskKey, cite: Cite) -> Result<Cite, AllocError>
        requires lacked { found self.old.written key ≡ None }
        requires allowed { S.may_write self.old.source key cite }
        ensures cite { IfOk result (λ c. c ≡ cite) }
        ensures kept { OnOk result (found self.new.written key ≡ Some cite) }
        ensures grown { OnOk result (Grows (found self.old.written) (found self.new.written)) }
        ensures noted { OnOk result
            (keys self.new.written ≡ key_noted key (keys self.old.written)) }
    {
        key_equality_decides();
        let own = copied(&cite)?;
        let Ok(copy) = key.clone() else {
            return Err(AllocError);
        };
        self.written.add(key, copy, cite)?;
        Ok(own)
    }
}

impl<T: EntryLike, P, S: Source> CiteWriter<T, P> for Memo<S> {
    ghost use Rattle.host_memo.specs.Memo.{
      Agrees,
      agrees_in,
      way_in,
      way_state,
      way_writes_equally,
    };
    ghost use Rattle.host_memo.specs.Written.{found, keys};
    ghost use Rattle.host_memo.specs.declared.key.TaskKey.{TaskKey};
    ghost use Rattle.driver_writers.specs.declared.cite.Cite.{Cite};

    type Error = S::Error;

    type Note = TaskKey;

    ghost Way = { TaskKey → Cite };

    ghost agrees = { λ w way. Agrees (found w.written) way };

    ghost state = { λ w way. way_state way T.answers (keys w.written) };

    fn write_cite(
        &mut self,
        alloc: Global,
        task: &CiteTask<'_, '_, T, P>,
    ) -> Result<Cite, S::Error> {
        self.text(alloc, cite_key(alloc, task)?)
    }

    fn write_item(
        &mut self,
        alloc: Global,
        task: &ItemTask<'_, '_, T, P>,
    ) -> Result<Option<ElemChildren>, S::Error> {
        let item = self.text(alloc, item_key(alloc, task)?)?;
        Ok(Some(item.children))
    }

    fn write_date(
        &mut self,
        alloc: Global,
        task: &DateTask<'_, T>,
    ) -> Result<ElemChildren, S::Error> {
        let date = self.text(alloc, date_key(alloc, task)?)?;
        Ok(date.children)
    }

    ghost equal_written_equally = { λ w way a b e. way_writes_equally way T.answers
        (keys w.written) a b (T.equal_answer_equally a b e) };

    ghost some_way = { λ w. (way_in (found w.written), agrees_in (found w.written)) };
}
