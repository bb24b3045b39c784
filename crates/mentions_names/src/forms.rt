//! The forms of the names of a mention.
ghost use Rattle.std.specs.Prelude.{◌≡◌, ◌≤◌, length};
ghost use Rattle.mentions_names.specs.Forms.{base, greater, only_counts, raised_form, shown, written};
ghost use Rattle.mentions_names.specs.Persons.{own_forms};

use crate::mention::MentionedName;
use value_sources::names::DisambiguatedNameForm;

/// The form that writes more of a name.
pub(crate) fn greater(a: DisambiguatedNameForm, b: DisambiguatedNameForm) -> DisambiguatedNameForm
    ensures { result ≡ greater a b }
{
    a.max(b)
}

fn only_counts(form: DisambiguatedNameForm) -> bool
    ensures { result ≡ only_counts form }
{
    matches!(form, DisambiguatedNameForm::Count)
}

/// The form in which a style writes names, of those that it writes by itself.
pub(crate) fn base(names: &[MentionedName]) -> DisambiguatedNameForm
    ensures { result ≡ base (own_forms names.now) }
{
    let mut base = DisambiguatedNameForm::Short;
    for name in names {
        base = greater(base, name.own);
    }
    base
}

/// The form of a name that is written.
pub(crate) fn written(
    base: DisambiguatedNameForm,
    own: DisambiguatedNameForm,
) -> DisambiguatedNameForm
    ensures { result ≡ written base own }
{
    if only_counts(own) { base } else { own }
}

/// How many names a style shows by itself, before the first that it leaves out.
pub(crate) fn shown(names: &[MentionedName]) -> usize
    ensures value { result ≡ shown (own_forms names.now) }
    ensures within { result ≤ length names.now }
{
    for (i, name) in names.iter().enumerate() {
        if only_counts(name.own) {
            return i;
        }
    }
    names.len()
}

/// The form of name `i` where so many names are shown, and one that is written has this form at
/// least.
pub(crate) fn raised_form(
    base: DisambiguatedNameForm,
    count: usize,
    i: usize,
    least: DisambiguatedNameForm,
    own: DisambiguatedNameForm,
) -> DisambiguatedNameForm
    ensures { result ≡ raised_form base count i least own }
{
    if !only_counts(own) {
        return greater(least, own);
    }
    if i < count {
        greater(least, base)
    } else {
        DisambiguatedNameForm::Count
    }
}
