//! How far each name of a list is written.
ghost use Rattle.std.specs.Prelude.{◌≡◌, IfOk, not};
ghost use Rattle.cite_names.specs.EtAl.{shown_names};
ghost use Rattle.cite_names.specs.NameForms.{first_in_form, form_by, only_counts, own_forms};
ghost use Rattle.cite_names.specs.NameForms.{ShowsLeading, shown_by, written_names};

use crate::rules::NameRules;
use crate::shown::{ShownNames, shown_names, truncated};
use csl_base::names::DisambiguatedNameForm;
use std::alloc::{AllocError, Global};
use style_file::names::NameForm;

/// The form of each of so many names by the rules alone: those behind the cut are only counted.
///
/// # Errors
///
/// Where memory is refused.
pub fn own_forms(
    alloc: Global,
    rules: &NameRules<'_>,
    count: usize,
) -> Result<Vec<DisambiguatedNameForm>, AllocError>
    ensures forms { IfOk result (λ forms. forms.items ≡ own_forms rules.now count) }
    ensures shown { IfOk result (λ forms. shown_by forms.items rules.now.use_last count count
        ≡ shown_names rules.now.cut rules.now.use_last count) }
    ensures leading { IfOk result (λ forms. ShowsLeading forms.items) }
{
    let shown = shown_names(rules.cut, rules.use_last, count);
    first_in_form(alloc, form_of(rules), shown.first_names(count), count)
}

/// So many forms, whose first ones are this form, and the others only count.
fn first_in_form(
    alloc: Global,
    form: DisambiguatedNameForm,
    first: usize,
    count: usize,
) -> Result<Vec<DisambiguatedNameForm>, AllocError>
    ensures { IfOk result (λ forms. forms.items ≡ first_in_form form first count) }
{
    let mut forms = Vec::new(alloc);
    for _ in 0..first {
        forms.push(form)?;
    }
    for _ in first..count {
        forms.push(DisambiguatedNameForm::Count)?;
    }
    Ok(forms)
}

/// The form of a name that is written.
pub fn form_of(rules: &NameRules<'_>) -> DisambiguatedNameForm
    ensures { result ≡ form_by rules.now }
{
    match rules.form {
        NameForm::Short => DisambiguatedNameForm::Short,
        NameForm::Long | NameForm::Count => {
            if rules.initialize_with.is_some() && rules.initialize {
                DisambiguatedNameForm::LongInitialized
            } else {
                DisambiguatedNameForm::LongFull
            }
        }
    }
}

/// Raises each form to the one that is wanted at its place. A form stays where none is wanted.
pub fn raise(forms: &mut Vec<DisambiguatedNameForm>, wanted: &[DisambiguatedNameForm]) {
    for (form, other) in forms.iter_mut().zip(wanted) {
        if *form < *other {
            *form = *other;
        }
    }
}

/// Which names of a list these forms show. The list has `count` names, and `named` of them without
/// a last one that stands for others.
pub fn shown_by(
    forms: &[DisambiguatedNameForm],
    use_last: bool,
    named: usize,
    count: usize,
) -> ShownNames
    ensures { result ≡ shown_by forms.now use_last named count }
{
    let kept = written_names(forms).min(named);
    truncated(kept, use_last && named == count, count)
}

/// How many names there are up to the last one that is written.
pub fn written_names(forms: &[DisambiguatedNameForm]) -> usize
    ensures { result ≡ written_names forms.now }
{
    let mut written = 0;
    for (place, form) in forms.iter().enumerate() {
        if is_written(*form) {
            written = place.saturating_add(1);
        }
    }
    written
}

fn is_written(form: DisambiguatedNameForm) -> bool
    ensures { result ≡ not (only_counts form) }
{
    match form {
        DisambiguatedNameForm::Count => false,
        _ => true,
    }
}
