//! A source of texts.
use crate::key::TaskKey;
use driver_writers::cite::Cite;
use std::alloc::{AllocError, Global};

/// Writes what a driver asks for: code of any kind, which may answer otherwise each time that it is
/// asked. A source may say what it may write of a task; it never has to say what it does write.
pub trait Source {
    ghost use Rattle.std.specs.Prelude.{⊤, IfOk};
    ghost use Rattle.host_memo.specs.declared.key.TaskKey.{TaskKey};
    ghost use Rattle.driver_writers.specs.declared.cite.Cite.{Cite};

    /// Why it may write nothing; lack of memory among others.
    type Error: From<AllocError> + Drop;

    /// It may write this of the task, or has written it; anything, where a source says nothing.
    ghost may_write: { Self → TaskKey → Cite → Type 0 } = { λ _ _ _. ⊤ };

    /// Writes a task. Of an item and of a date the tree alone counts.
    ///
    /// # Errors
    ///
    /// The source's own.
    fn write(&mut self, alloc: Global, key: &TaskKey) -> Result<Cite, Self::Error>
        ensures allowed { IfOk result (may_write self.new key.now) }
        ensures stays { (key : TaskKey) (cite : Cite) → may_write self.old key cite
            → may_write self.new key cite };
}
