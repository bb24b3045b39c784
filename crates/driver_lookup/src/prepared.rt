//! Look-up of terms by tables.
ghost use Rattle.std.specs.Prelude.{◌≡◌, bytes_eq, option_map};
ghost use Rattle.value_styles.specs.StyleView.{term_view};
ghost use Rattle.driver_lookup.specs.Lookup as found;
ghost use Rattle.driver_lookup.specs.PreparedLookup.{prepared_lookup};
ghost use Rattle.driver_styles.specs.Terms.{term_in};

use crate::lookup::{base_language, primary_dialect};
use csl_base::locale::LocalizedTerm;
use csl_base::taxonomy::{Term, TermForm};
use driver_styles::prepared::PreparedSource;

// The first term of this name and form, of the locales that are asked where a code is in use.
pub(crate) fn term_by_tables<'a>(
    prepared: PreparedSource<'a>,
    code: &str,
    name: Term,
    form: TermForm,
) -> Option<&'a LocalizedTerm>
    ensures { option_map (λ t. term_view t.now) result
        ≡ found.first_answer (term_in name form)
        (found.asked (prepared_lookup prepared.entry code.now)) }
{
    match own_term(prepared, code, name, form) {
        Some(term) => Some(term),
        None => file_term(prepared, code, name, form),
    }
}

// The first of the style's own locales. Most styles have none.
fn own_term<'a>(
    prepared: PreparedSource<'a>,
    code: &str,
    name: Term,
    form: TermForm,
) -> Option<&'a LocalizedTerm>
    ensures { option_map (λ t. term_view t.now) result
        ≡ found.first_answer (term_in name form)
        (found.asked_own (prepared_lookup prepared.entry code.now)) }
{
    let own = prepared.style;
    if own.style().locale.is_empty() {
        return None;
    }
    if let Some(term) = own.term_of(Some(code), name, form) {
        return Some(term);
    }
    if let Some(term) = own.term_of(Some(base_language(code)), name, form) {
        return Some(term);
    }
    own.term_of(None, name, form)
}

// The first of the files.
fn file_term<'a>(
    prepared: PreparedSource<'a>,
    code: &str,
    name: Term,
    form: TermForm,
) -> Option<&'a LocalizedTerm>
    ensures { option_map (λ t. term_view t.now) result
        ≡ found.first_answer (term_in name form)
        (found.asked_files (prepared_lookup prepared.entry code.now)) }
{
    let files = prepared.files;
    if files.locales().is_empty() {
        return None;
    }
    if let Some(term) = files.term_of(Some(code), name, form) {
        return Some(term);
    }
    // then the dialect and the last look-up add nothing
    if is_american(code) {
        return None;
    }
    if let Some(dialect) = primary_dialect(code) {
        if let Some(term) = files.term_of(Some(dialect), name, form) {
            return Some(term);
        }
    }
    files.term_of(Some("en-US"), name, form)
}

// Whether the code is that of American English. A pattern costs less than a comparison of texts.
fn is_american(code: &str) -> bool
    ensures { result ≡ bytes_eq code.now found.en_us }
{
    matches!(code.as_bytes(), [b'e', b'n', b'-', b'U', b'S'])
}
