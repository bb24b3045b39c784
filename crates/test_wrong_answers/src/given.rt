//! What cites are given, hidden or named by, where works are disambiguated as CSL 1.0.2 has it, in
//! place of what is said.
ghost use Rattle.std.specs.Prelude.{List, ℕ, [], ◌∷◌, Some};
ghost use Rattle.mentions_arranging.specs.Arranged.{arranged_request};
ghost use Rattle.value_styles.specs.declared.style.Collapse.{Collapse};
ghost use Rattle.mentions_tables.specs.Tables.{third_table};
ghost use Rattle.mentions_laws.specs.Adding.{NamesAreAsStylesSay};
ghost use Rattle.mentions_laws.specs.Arranged.{AreArranged};
ghost use Rattle.mentions_laws.specs.Cites.{IsGivenExactly};
ghost use Rattle.test_wrong_answers.specs.Given.{
  after_a_dash,
  as_a_range,
  as_said,
  both_names,
  chosen_too,
  facts,
  in_a_note,
  near,
  none_repeats,
  only,
  only_row,
  repeating,
  subjects,
  unnumbered,
  unnumbered_cites,
  write,
};
ghost use Rattle.test_wrong_answers.specs.Samples.{request_of};

use mentions_laws::laws::{cites_are_arranged_by_neighbours, names_are_as_styles_say};

/// The only cite of a request, in no note, is also given a state, or as near to another, as one in a
/// note, as one that repeats another, or after a dash.
pub fn given_otherwise()
    ensures state { ¬ IsGivenExactly [] (request_of []).request only_row only chosen_too }
    ensures nearness { ¬ IsGivenExactly [] (request_of []).request only_row only near }
    ensures note { ¬ IsGivenExactly [] (request_of []).request only_row only in_a_note }
    ensures position { ¬ IsGivenExactly [] (request_of []).request only_row only repeating }
    ensures dash { ¬ IsGivenExactly [] (request_of []).request only_row only after_a_dash }
    ensures right { IsGivenExactly [] (request_of []).request only_row only as_said }
{}

/// A range of numbers hides a cite with a locator. None of its cites shows a number.
pub fn range_of_what_shows_no_number()
    ensures refuted { ¬ AreArranged unnumbered_cites (1 ∷ 2 ∷ 3 ∷ [])
        (Some Collapse.CitationNumber) as_a_range }
    ensures right { AreArranged unnumbered_cites (1 ∷ 2 ∷ 3 ∷ []) (Some Collapse.CitationNumber)
        (arranged_request (1 ∷ 2 ∷ 3 ∷ [])
        (record { facts = facts (Some Collapse.CitationNumber); cites = unnumbered })
        none_repeats) }
{
    cites_are_arranged_by_neighbours::<u64>();
}

/// Names are added though the style adds none.
pub fn names_in_spite_of_the_style()
    ensures refuted { ¬ NamesAreAsStylesSay write subjects (both_names ∷ both_names ∷ []) }
    ensures right { NamesAreAsStylesSay write subjects (third_table write subjects) }
{
    names_are_as_styles_say::<u64>();
}
