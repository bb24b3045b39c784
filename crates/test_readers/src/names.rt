//! Names and labels.
use crate::dump::Dump;
use style_elements::tables::{
    DELIMITER_PRECEDES, ET_AL_TERMS, LABEL_PLURALS, NAME_ANDS, NAME_FORMS, NAME_ORDERS,
};
use style_file::names::{
    EtAl, EtAlTerm, InheritedNameOptions, LabelOptions, LabelPlural, LabelSide, Name, NameOptions,
    NamePart, NamesLabel,
};
use style_file::term::{TERM_FORMS, TermForm};

/// The options of names, where their form and their delimiter have these names.
fn dump_options(options: &NameOptions, form: &str, delimiter: &str, dump: &mut Dump) {
    dump.named_if_any("and", options.and, NAME_ANDS);
    dump.text_if_any(delimiter, &options.delimiter);
    let precedes = options.delimiter_precedes_et_al;
    dump.named_if_any("delimiter-precedes-et-al", precedes, DELIMITER_PRECEDES);
    let precedes = options.delimiter_precedes_last;
    dump.named_if_any("delimiter-precedes-last", precedes, DELIMITER_PRECEDES);
    dump.number_if_any("et-al-min", options.et_al_min);
    dump.number_if_any("et-al-use-first", options.et_al_use_first);
    dump.number_if_any("et-al-subsequent-min", options.et_al_subsequent_min);
    dump.number_if_any(
        "et-al-subsequent-use-first",
        options.et_al_subsequent_use_first,
    );
    dump.truth_if_any("et-al-use-last", options.et_al_use_last);
    dump.named_if_any(form, options.form, NAME_FORMS);
    dump.truth_if_any("initialize", options.initialize);
    dump.text_if_any("initialize-with", &options.initialize_with);
    dump.named_if_any(
        "name-as-sort-order",
        options.name_as_sort_order,
        NAME_ORDERS,
    );
    dump.text_if_any("sort-separator", &options.sort_separator);
}

/// The options that a `style`, `citation` or `bibliography` hands down.
pub fn dump_inherited(options: &InheritedNameOptions, dump: &mut Dump) {
    dump_options(&options.name, "name-form", "name-delimiter", dump);
    dump.text_if_any("names-delimiter", &options.names_delimiter);
}

pub fn dump_name(name: &Name, depth: usize, dump: &mut Dump) {
    dump.open(depth, "name");
    dump_options(&name.options, "form", "delimiter", dump);
    dump.affixes(&name.affixes);
    dump.formatting(&name.formatting);
    dump.close();
    dump_part("given", &name.given, depth.saturating_add(1), dump);
    dump_part("family", &name.family, depth.saturating_add(1), dump);
}

fn dump_part(name: &str, part: &Option<NamePart>, depth: usize, dump: &mut Dump) {
    let Some(part) = part else {
        return;
    };
    dump.open(depth, "name-part");
    dump.word("name", name);
    dump.text_case(part.text_case);
    dump.affixes(&part.affixes);
    dump.formatting(&part.formatting);
    dump.close();
}

pub fn dump_et_al(et_al: &EtAl, depth: usize, dump: &mut Dump) {
    dump.open(depth, "et-al");
    dump.named_if_other("term", et_al.term, EtAlTerm::EtAl, ET_AL_TERMS);
    dump.formatting(&et_al.formatting);
    dump.close();
}

pub fn dump_names_label(label: &NamesLabel, depth: usize, dump: &mut Dump) {
    dump.open(depth, "label");
    match label.side {
        LabelSide::Before => dump.word("side", "before"),
        LabelSide::Behind => dump.word("side", "behind"),
    }
    dump_label_options(&label.options, dump);
    dump.close();
}

pub fn dump_label_options(options: &LabelOptions, dump: &mut Dump) {
    dump.named_if_other("form", options.form, TermForm::Long, TERM_FORMS);
    dump.named_if_other(
        "plural",
        options.plural,
        LabelPlural::Contextual,
        LABEL_PLURALS,
    );
    dump.truth_if_true("strip-periods", options.strip_periods);
    dump.text_case(options.text_case);
    dump.affixes(&options.affixes);
    dump.formatting(&options.formatting);
}
