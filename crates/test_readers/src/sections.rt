//! The citation and the bibliography.
use crate::dump::Dump;
use crate::elements::{dump_elements, macro_name};
use crate::names::dump_inherited;
use style_elements::tables::{
    COLLAPSES, GIVEN_NAME_RULES, SECOND_FIELD_ALIGNS, SORT_DIRECTIONS, SUBSTITUTE_RULES,
};
use style_file::sections::{
    Bibliography, Citation, GivenNameRule, Layout, SortBy, SortDirection, SortKey, SubstituteRule,
};
use style_file::style::Macro;

pub fn dump_citation(citation: &Citation, macros: &[Macro], dump: &mut Dump) {
    let options = &citation.options;
    dump.open(1, "citation");
    dump.truth_if_true("disambiguate-add-names", options.disambiguate_add_names);
    dump.truth_if_true(
        "disambiguate-add-givenname",
        options.disambiguate_add_given_name,
    );
    dump.named_if_other(
        "givenname-disambiguation-rule",
        options.given_name_rule,
        GivenNameRule::ByCite,
        GIVEN_NAME_RULES,
    );
    dump.truth_if_true(
        "disambiguate-add-year-suffix",
        options.disambiguate_add_year_suffix,
    );
    dump.text_if_any("cite-group-delimiter", &options.cite_group_delimiter);
    dump.named_if_any("collapse", options.collapse, COLLAPSES);
    dump.text_if_any("year-suffix-delimiter", &options.year_suffix_delimiter);
    dump.text_if_any(
        "after-collapse-delimiter",
        &options.after_collapse_delimiter,
    );
    dump.number_if_any("near-note-distance", Some(options.near_note_distance));
    dump_inherited(&citation.names, dump);
    dump.close();
    dump_sort(&citation.sort, macros, dump);
    dump_layout(&citation.layout, macros, dump);
}

pub fn dump_bibliography(bibliography: &Bibliography, macros: &[Macro], dump: &mut Dump) {
    let options = &bibliography.options;
    dump.open(1, "bibliography");
    dump.truth_if_true("hanging-indent", options.hanging_indent);
    let align = options.second_field_align;
    dump.named_if_any("second-field-align", align, SECOND_FIELD_ALIGNS);
    dump.number_if_any("line-spacing", Some(options.line_spacing));
    dump.number_if_any("entry-spacing", Some(options.entry_spacing));
    let substitute = &options.subsequent_author_substitute;
    dump.text_if_any("subsequent-author-substitute", substitute);
    dump.named_if_other(
        "subsequent-author-substitute-rule",
        options.substitute_rule,
        SubstituteRule::CompleteAll,
        SUBSTITUTE_RULES,
    );
    dump_inherited(&bibliography.names, dump);
    dump.close();
    dump_sort(&bibliography.sort, macros, dump);
    dump_layout(&bibliography.layout, macros, dump);
}

fn dump_sort(keys: &[SortKey], macros: &[Macro], dump: &mut Dump) {
    for key in keys {
        dump.open(2, "key");
        match key.by {
            SortBy::Variable(variable) => dump.word("variable", variable.name()),
            SortBy::Macro(index) => dump.text("macro", macro_name(macros, index)),
        }
        let direction = key.direction;
        dump.named_if_other("sort", direction, SortDirection::Ascending, SORT_DIRECTIONS);
        dump.number_if_any("names-min", key.names_min);
        dump.number_if_any("names-use-first", key.names_use_first);
        dump.truth_if_any("names-use-last", key.names_use_last);
        dump.close();
    }
}

fn dump_layout(layout: &Layout, macros: &[Macro], dump: &mut Dump) {
    dump.open(2, "layout");
    dump.text_if_full("delimiter", layout.delimiter.as_str());
    dump.affixes(&layout.affixes);
    dump.formatting(&layout.formatting);
    dump.close();
    dump_elements(&layout.elements, macros, 3, dump);
}
