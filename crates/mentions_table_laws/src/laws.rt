//! Laws of all tables of mentions, whatever is written of these.
ghost use Rattle.std.specs.Prelude.{ℕ, List};
ghost use Rattle.mentions_groups.specs.declared.state.MentionState.{MentionState};
ghost use Rattle.mentions_groups.specs.declared.written.Written.{Written};
ghost use Rattle.mentions_tables.specs.Tables.{third_table, year_suffixes};
ghost use Rattle.mentions_tables.specs.declared.subject.Subject.{Subject};
ghost use Rattle.mentions_table_laws.specs.Pairs.{AreMentionsInPairs};
ghost use Rattle.mentions_table_laws.specs.TellingLaws.{KeepsTellingLaws};

/// A law of what disambiguates mentions, whatever is written of them, where they are in pairs, in
/// the order of the bibliography: states grow, names in the first step alone and choices in the
/// second; the condition holds exactly in mentions that tested it and read by their names as one of
/// another entry; names that can disambiguate two mentions do; suffixes count the entries of a
/// class; entries whose later mentions read alike in the end have suffixes that differ, if the
/// style of either adds any; only the ambiguous are disambiguated; and rounds and tasks have
/// bounds.
pub fn tables_keep_laws<M>()
    ensures { (write : M → MentionState → Written) (entries : ℕ) (subjects : List (Subject M))
        → AreMentionsInPairs entries subjects
        → KeepsTellingLaws write subjects entries (third_table write subjects)
        (year_suffixes write subjects) }
{}
