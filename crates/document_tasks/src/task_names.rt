//! How a task names the values of enums.
ghost use Rattle.std.specs.Prelude.{◌≡◌, option_map};
ghost use Rattle.document_values.specs.Tables.{AreRowsOf};
ghost use Rattle.document_tasks.specs.TaskNames.{
  form_name,
  kinds,
  locator_name,
  written_name_forms,
  purpose_name,
  ibid_states,
  repeats_name,
  usage_name,
  usages,
  verdict_name,
  verdicts,
};

use csl_base::names::DisambiguatedNameForm;
use csl_base::taxonomy::Locator;
use driver_lookup::purpose::CitePurpose;
use driver_lookup::state::{CollapseVerdict, IbidState, IdentifierUsage};

/// What is to be written.
#[derive(Clone, Copy)]
pub(crate) enum TaskKind {
    Cite,
    Item,
    Date,
}

/// The kinds of tasks.
pub(crate) const KINDS: &[(&str, TaskKind)] = &[
    ("cite", TaskKind::Cite),
    ("item", TaskKind::Item),
    ("date", TaskKind::Date),
];

/// How a cite repeats the one before it.
pub(crate) const REPEATS: &[(&str, IbidState)] = &[
    ("ibid", IbidState::Ibid),
    ("ibid-with-locator", IbidState::IbidWithLocator),
];

/// Which identifiers were written.
pub(crate) const USAGES: &[(&str, IdentifierUsage)] = &[
    ("label", IdentifierUsage::OnlyCitationLabel),
    ("number", IdentifierUsage::OnlyCitationNumber),
    ("both", IdentifierUsage::Mixed),
];

/// How a cite is cut.
pub(crate) const VERDICTS: &[(&str, CollapseVerdict)] = &[
    ("date", CollapseVerdict::First),
    ("suffix", CollapseVerdict::YearSuffix),
];

/// How far a name is written.
pub(crate) const NAME_FORMS: &[(&str, DisambiguatedNameForm)] = &[
    ("count", DisambiguatedNameForm::Count),
    ("short", DisambiguatedNameForm::Short),
    ("initials", DisambiguatedNameForm::LongInitialized),
    ("full", DisambiguatedNameForm::LongFull),
];

/// Each table has the rows that its definition lists.
pub fn rows_are_as_defined()
    ensures kinds { AreRowsOf kinds KINDS.now }
    ensures ibid_states { AreRowsOf ibid_states REPEATS.now }
    ensures usages { AreRowsOf usages USAGES.now }
    ensures verdicts { AreRowsOf verdicts VERDICTS.now }
    ensures written_name_forms { AreRowsOf written_name_forms NAME_FORMS.now }
{}

pub(crate) fn repeats_name(ibid: IbidState) -> Option<&'static str>
    ensures { option_map (λ s. s.now) result ≡ repeats_name ibid }
{
    match ibid {
        IbidState::Different => None,
        IbidState::IbidWithLocator => Some("ibid-with-locator"),
        IbidState::Ibid => Some("ibid"),
    }
}

pub(crate) fn usage_name(usage: IdentifierUsage) -> Option<&'static str>
    ensures { option_map (λ s. s.now) result ≡ usage_name usage }
{
    match usage {
        IdentifierUsage::None => None,
        IdentifierUsage::OnlyCitationLabel => Some("label"),
        IdentifierUsage::OnlyCitationNumber => Some("number"),
        IdentifierUsage::Mixed => Some("both"),
    }
}

pub(crate) fn verdict_name(verdict: CollapseVerdict) -> &'static str
    ensures { result.now ≡ verdict_name verdict }
{
    match verdict {
        CollapseVerdict::First => "date",
        CollapseVerdict::YearSuffix => "suffix",
    }
}

pub(crate) fn form_name(form: DisambiguatedNameForm) -> &'static str
    ensures { result.now ≡ form_name form }
{
    match form {
        DisambiguatedNameForm::Count => "count",
        DisambiguatedNameForm::Short => "short",
        DisambiguatedNameForm::LongInitialized => "initials",
        DisambiguatedNameForm::LongFull => "full",
    }
}

pub(crate) fn purpose_name(purpose: CitePurpose) -> &'static str
    ensures { result.now ≡ purpose_name purpose }
{
    match purpose {
        CitePurpose::Author => "author",
        CitePurpose::Year => "year",
        CitePurpose::Full => "full",
        CitePurpose::Prose => "prose",
    }
}

pub(crate) fn locator_name(locator: Locator) -> &'static str
    ensures { result.now ≡ locator_name locator }
{
    match locator {
        Locator::Book => "book",
        Locator::Chapter => "chapter",
        Locator::Custom => "custom",
        Locator::Figure => "figure",
        Locator::Line => "line",
        Locator::Note => "note",
        Locator::Page => "page",
        Locator::Paragraph => "paragraph",
        Locator::Part => "part",
        Locator::Section => "section",
        Locator::Supplement => "supplement",
        Locator::Verse => "verse",
        Locator::Volume => "volume",
    }
}
