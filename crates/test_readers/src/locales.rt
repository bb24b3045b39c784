//! Locales.
use crate::dates::dump_parts;
use crate::dump::Dump;
use style_elements::tables::DATE_FORMS;
use style_file::locale::{Locale, LocaleFile, StyleLocale, Term, TermWords};
use style_file::term::{GENDERS, ORDINAL_MATCHES, TERM_FORMS, TermForm};

pub fn dump_locale_file(file: &LocaleFile, dump: &mut Dump) {
    dump.open(0, "locale");
    dump.text("xml:lang", file.language.as_str());
    dump_locale(&file.locale, dump);
}

pub fn dump_style_locale(locale: &StyleLocale, dump: &mut Dump) {
    dump.open(1, "locale");
    dump.text_if_any("xml:lang", &locale.language);
    dump_locale(&locale.locale, dump);
}

/// What a locale says, behind the beginning of its line.
fn dump_locale(locale: &Locale, dump: &mut Dump) {
    let options = locale.options;
    dump.truth_if_any(
        "limit-day-ordinals-to-day-1",
        options.limit_day_ordinals_to_day_1,
    );
    dump.truth_if_any("punctuation-in-quote", options.punctuation_in_quote);
    dump.close();
    for date in &locale.dates {
        dump.open(2, "date");
        dump.named("form", date.form, DATE_FORMS);
        dump.text_if_full("delimiter", date.delimiter.as_str());
        dump.text_case(date.text_case);
        dump.formatting(&date.formatting);
        dump.close();
        dump_parts(&date.parts, 3, dump);
    }
    for term in &locale.terms {
        dump_term(term, dump);
    }
}

fn dump_term(term: &Term, dump: &mut Dump) {
    dump.open(2, "term");
    dump.shown("name", &term.name);
    dump.named_if_other("form", term.form, TermForm::Long, TERM_FORMS);
    dump.named_if_any("gender", term.gender, GENDERS);
    dump.named_if_any("gender-form", term.gender_form, GENDERS);
    dump.named_if_any("match", term.ordinal_match, ORDINAL_MATCHES);
    match &term.words {
        TermWords::Invariable(text) => dump.text("text", text.as_str()),
        TermWords::Numbered { single, multiple } => {
            dump.text("single", single.as_str());
            dump.text("multiple", multiple.as_str());
        }
    }
    dump.close();
}
