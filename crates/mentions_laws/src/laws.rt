//! Laws of cites and names, of every answer where works are disambiguated as CSL 1.0.2 has it.
ghost use Rattle.std.specs.Prelude.{ℕ, List};
ghost use Rattle.mentions_arranging.specs.Arranged.{arranged_request};
ghost use Rattle.mentions_arranging.specs.Collapsing.{collapse_of};
ghost use Rattle.mentions_arranging.specs.Positioned.{positioned_cites};
ghost use Rattle.mentions_arranging.specs.Requests.{Request};
ghost use Rattle.mentions_arranging.specs.declared.request.FinalCite.{FinalCite};
ghost use Rattle.driver_assembly.specs.declared.rendered.Rendered.{Rendered};
ghost use Rattle.csl_driver.specs.Answer.{Job};
ghost use Rattle.csl_driver.specs.CslPromised.{IsExactlyCsl};
ghost use Rattle.csl_driver.specs.declared.csl_account.CslAccount.{CslAccount};
ghost use Rattle.mentions_groups.specs.declared.state.MentionState.{MentionState};
ghost use Rattle.mentions_groups.specs.declared.written.Written.{Written};
ghost use Rattle.mentions_notes.specs.declared.repeats.Position.{Position};
ghost use Rattle.mentions_tables.specs.Tables.{third_table};
ghost use Rattle.mentions_tables.specs.declared.subject.Subject.{Subject};
ghost use Rattle.driver_writers.specs.Writing.{Writing};
ghost use Rattle.mentions_laws.specs.Adding.{NamesAreAsStylesSay};
ghost use Rattle.mentions_laws.specs.Arranged.{AreArranged};
ghost use Rattle.mentions_laws.specs.Laws.{KeepsMentionLaws};

use csl_base::entry::EntryLike;

/// A law of how the cites of a request are arranged, whatever their final order and their positions
/// are (`AreArranged`): a cite is cut where it reads on from the one before it, or follows others of
/// its part; it is hidden where a range goes on from the one before it to the one after it, and a
/// dash stands where a range ends; names that are cut stand before; and nothing collapses where a
/// cite has a purpose, or the style collapses nothing.
pub fn cites_are_arranged_by_neighbours<L>()
    ensures { (numbers : List ℕ) (r : Request (FinalCite L)) (positions : List Position)
        → AreArranged (positioned_cites r.cites positions) numbers (collapse_of r.facts)
        (arranged_request numbers r positions) }
{}

/// A law of what disambiguates mentions, whatever is written of them: a name that a style leaves out
/// stays left out, if the style of the mention that leads the group adds no names; and one that is
/// shown keeps its form, if that style adds no given names cite by cite, and the document none.
pub fn names_are_as_styles_say<M>()
    ensures { (write : M → MentionState → Written) (subjects : List (Subject M))
        → NamesAreAsStylesSay write subjects (third_table write subjects) }
{}

/// A law of every answer where works are disambiguated as CSL 1.0.2 has it, and of its account,
/// whatever is asked, beside those of `csl_answers_keep_laws`.
///
/// Each cite is given its own place, and what notes, its position and its mention say of it, and
/// nothing else. Blocks stand in the order of their first cites. The parts of a request, one after
/// another, are its cites, and those of one part show the same names. A cite is cut or hidden
/// exactly where its neighbours say so, and a dash stands exactly where a range ends. Names that are
/// cut stand before. Nothing collapses where a cite has a purpose, or the style collapses nothing. A
/// cite that repeats no other shows exactly what its mention shows, and where no cite of a request
/// repeats another, all is by mentions alone. Names are added only as styles say. The bibliography
/// lists each entry once, under its key.
pub fn csl_answers_keep_mention_laws<T: EntryLike, P: Eq>()
    ensures { (writing : Writing T P) (job : Job T P) (r : Rendered × CslAccount T)
        → IsExactlyCsl T.eq P.eq writing job r → KeepsMentionLaws T.eq P.eq writing job r }
{}
