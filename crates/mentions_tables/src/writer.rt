//! Mentions that are written.
use mentions_groups::state::MentionState;
use mentions_groups::written::Written;
use std::alloc::{AllocError, Global};

/// A mention that was written.
#[derive(Drop)]
pub struct WrittenMention<K> {
    /// What is read of it: mentions are disambiguated by this.
    pub read: Written,
    /// What its writer keeps of it.
    pub kept: K,
}

/// A mention that a writer writes, and that a counter counts. What is written of it follows from
/// what is asked for, however often and in whichever order that is. All that being asked may change
/// is what the writer notes, and the count.
pub trait WrittenBy<W, C> {
    ghost use Rattle.std.specs.Prelude.{◌≡◌, ◌∷◌, [], IfOk, OnOk};
    ghost use Rattle.mentions_tables.specs.Asked.{MentionsWriter, asked_for, first_kept, untold};

    /// Why nothing may be written; lack of memory among others.
    type Error: From<AllocError> + Drop;

    /// What is kept of a mention that was written.
    type Kept: Drop;

    /// What is noted of all that was asked for.
    type Notes;

    /// The ways in which it may turn out that the writer writes.
    ghost Way: { Type 0 };

    /// What the writer has written by now agrees with this way.
    ghost agrees: { W → Way → Type 0 };

    /// What is written of such mentions in a way, and what was noted.
    ghost writing: { W → C → Way → MentionsWriter Self Self.Kept Self.Notes };

    /// A writer goes on from another one: but for what was noted, nothing that is known of it has
    /// changed, also of what it writes beside such mentions.
    ghost goes_on: { W → W → Type 0 };

    ghost stays: { (w : W) → goes_on w w };

    ghost follows: { (u : W) (v : W) (w : W) → goes_on u v → goes_on v w → goes_on u w };

    /// What agrees with more agrees with less.
    ghost agreed_before: { (u : W) (v : W) (way : Way) → goes_on u v → agrees v way
        → agrees u way };

    /// Writes the mention where nothing disambiguates it.
    ///
    /// # Errors
    ///
    /// The writer's own.
    fn write_first(
        &self,
        alloc: Global,
        writer: &mut W,
        counter: &mut C,
    ) -> Result<WrittenMention<Self::Kept>, Self::Error>
        ensures written { IfOk result (λ w. (way : Way) → agrees writer.new way
            → w ≡ (writing writer.old counter.old way).write self.now untold) }
        ensures asked { OnOk result ((way : Way) → agrees writer.new way
            → writing writer.new counter.new way
            ≡ asked_for ((self.now, untold) ∷ []) (writing writer.old counter.old way)) }
        ensures goes_on { OnOk result (goes_on writer.old writer.new) };

    /// Writes the mention again, where this disambiguates it. `first` is what was kept of it where
    /// nothing did.
    ///
    /// # Errors
    ///
    /// The writer's own.
    fn write_again(
        &self,
        alloc: Global,
        told: &MentionState,
        first: &Self::Kept,
        writer: &mut W,
        counter: &mut C,
    ) -> Result<WrittenMention<Self::Kept>, Self::Error>
        ensures written { IfOk result (λ w. (way : Way) → agrees writer.new way
            → first.now ≡ first_kept (writing writer.old counter.old way) self.now
            → w ≡ (writing writer.old counter.old way).write self.now told.now) }
        ensures asked { OnOk result ((way : Way) → agrees writer.new way
            → first.now ≡ first_kept (writing writer.old counter.old way) self.now
            → writing writer.new counter.new way
            ≡ asked_for ((self.now, told.now) ∷ []) (writing writer.old counter.old way)) }
        ensures goes_on { OnOk result (goes_on writer.old writer.new) };

    /// There is a way with which the writer agrees.
    ghost some_way: { (w : W) → (way : Way) × agrees w way };
}
