//! The elements that write something.
use crate::dates::dump_date;
use crate::dump::Dump;
use crate::names::{dump_et_al, dump_label_options, dump_name, dump_names_label};
use style_elements::tables::{MATCHES, NUMBER_FORMS, POSITIONS, VARIABLE_FORMS};
use style_file::choose::{Branch, Choose, Match, Test};
use style_file::element::{
    Group, MacroIndex, Number, NumberForm, RenderingElement, Text, TextSource, VariableForm,
};
use style_file::names::Names;
use style_file::style::Macro;
use style_file::term::{TERM_FORMS, TermForm};

/// The elements of a list, at this depth, in a style with these macros.
#[cycle(dumps)]
pub fn dump_elements(
    elements: &[RenderingElement],
    macros: &[Macro],
    depth: usize,
    dump: &mut Dump,
) {
    for element in elements {
        match element {
            RenderingElement::Text(text) => dump_text(text, macros, depth, dump),
            RenderingElement::Number(number) => dump_number(number, depth, dump),
            RenderingElement::Label(label) => {
                dump.open(depth, "label");
                dump.word("variable", label.variable.name());
                dump_label_options(&label.options, dump);
                dump.close();
            }
            RenderingElement::Date(date) => dump_date(date, depth, dump),
            RenderingElement::Names(names) => dump_names(names, macros, depth, dump),
            RenderingElement::Group(group) => dump_group(group, macros, depth, dump),
            RenderingElement::Choose(choose) => dump_choose(choose, macros, depth, dump),
            RenderingElement::UnknownVariable => {
                dump.open(depth, "unknown");
                dump.close();
            }
        }
    }
}

/// The name of a macro.
pub fn macro_name(macros: &[Macro], index: MacroIndex) -> &str {
    match macros.get(index.0) {
        Some(each) => each.name.as_str(),
        None => "?",
    }
}

fn dump_text(text: &Text, macros: &[Macro], depth: usize, dump: &mut Dump) {
    dump.open(depth, "text");
    match &text.source {
        TextSource::Variable { variable, form } => {
            dump.word("variable", variable.name());
            dump.named_if_other("form", *form, VariableForm::Long, VARIABLE_FORMS);
        }
        TextSource::Number(variable) => dump.word("variable", variable.name()),
        TextSource::Macro(index) => dump.text("macro", macro_name(macros, *index)),
        TextSource::Term { name, form, plural } => {
            dump.shown("term", name);
            dump.named_if_other("form", *form, TermForm::Long, TERM_FORMS);
            dump.truth_if_true("plural", *plural);
        }
        TextSource::Value(value) => dump.text("value", value.as_str()),
    }
    dump.truth_if_true("quotes", text.quotes);
    dump.truth_if_true("strip-periods", text.strip_periods);
    dump.text_case(text.text_case);
    dump.display(text.display);
    dump.affixes(&text.affixes);
    dump.formatting(&text.formatting);
    dump.close();
}

fn dump_number(number: &Number, depth: usize, dump: &mut Dump) {
    dump.open(depth, "number");
    dump.word("variable", number.variable.name());
    dump.named_if_other("form", number.form, NumberForm::Numeric, NUMBER_FORMS);
    dump.text_case(number.text_case);
    dump.display(number.display);
    dump.affixes(&number.affixes);
    dump.formatting(&number.formatting);
    dump.close();
}

#[cycle(dumps)]
fn dump_names(names: &Names, macros: &[Macro], depth: usize, dump: &mut Dump) {
    dump.open(depth, "names");
    for variable in &names.variables {
        dump.word("variable", variable.name());
    }
    dump.text_if_any("delimiter", &names.delimiter);
    dump.display(names.display);
    dump.affixes(&names.affixes);
    dump.formatting(&names.formatting);
    dump.close();
    let inside = depth.saturating_add(1);
    if let Some(name) = &names.name {
        dump_name(name, inside, dump);
    }
    if let Some(et_al) = &names.et_al {
        dump_et_al(et_al, inside, dump);
    }
    if let Some(label) = &names.label {
        dump_names_label(label, inside, dump);
    }
    dump_elements(&names.substitute, macros, inside, dump);
}

#[cycle(dumps)]
fn dump_group(group: &Group, macros: &[Macro], depth: usize, dump: &mut Dump) {
    dump.open(depth, "group");
    dump.text_if_full("delimiter", group.delimiter.as_str());
    dump.display(group.display);
    dump.affixes(&group.affixes);
    dump.formatting(&group.formatting);
    dump.close();
    dump_elements(&group.elements, macros, depth.saturating_add(1), dump);
}

#[cycle(dumps)]
fn dump_choose(choose: &Choose, macros: &[Macro], depth: usize, dump: &mut Dump) {
    dump.open(depth, "choose");
    dump.close();
    let inside = depth.saturating_add(1);
    for branch in &choose.branches {
        dump_branch(branch, macros, inside, dump);
    }
    dump.open(inside, "else");
    dump.close();
    dump_elements(&choose.otherwise, macros, inside.saturating_add(1), dump);
}

#[cycle(dumps)]
fn dump_branch(branch: &Branch, macros: &[Macro], depth: usize, dump: &mut Dump) {
    dump.open(depth, "if");
    dump.named_if_other("match", branch.rule, Match::All, MATCHES);
    for test in &branch.tests {
        dump_test(test, dump);
    }
    dump.close();
    dump_elements(&branch.elements, macros, depth.saturating_add(1), dump);
}

fn dump_test(test: &Test, dump: &mut Dump) {
    match test {
        Test::Disambiguate => dump.word("disambiguate", "true"),
        Test::IsNumeric(variable) => dump.word("is-numeric", variable.name()),
        Test::IsUncertainDate(variable) => dump.word("is-uncertain-date", variable.name()),
        Test::Locator(locator) => dump.word("locator", locator.name()),
        Test::Position(position) => dump.named("position", *position, POSITIONS),
        Test::Type(item_type) => dump.word("type", item_type.name()),
        Test::Variable(variable) => dump.word("variable", variable.name()),
        Test::Unknown => dump.word("unknown", "true"),
    }
}
