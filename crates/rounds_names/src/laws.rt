//! Laws of name marks, for every group.
ghost use Rattle.std.specs.Prelude.{List};
ghost use Rattle.rounds_names.specs.MarkLaws.{NameMarksGoOn};
ghost use Rattle.driver_passes.specs.Renders.{CiteRender, Place};

use driver_lookup::laws::states_go_on;

/// A law: each name mark stands at a place of its group, at a cite without a state or in a state of
/// names, and that state goes on to it: it has as many forms, and none writes less of its name.
pub fn name_marks_go_on<T, P>()
    ensures { (cites : List (CiteRender T P)) (group : List Place) → NameMarksGoOn cites group }
{
    states_go_on();
}
