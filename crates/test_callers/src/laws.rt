//! Each law of an answer, of what is asked and of small values, at a concrete type.
use csl_base::entry::PlainEntry;
use csl_base::equality::equality_laws;
use csl_base::first_names::first_names_laws;
use csl_base::last_text::last_text_laws;
use csl_base::names::forms_are_in_order;
use csl_base::simplify::simplify_laws;
use csl_driver::error::error_equality_decides;
use csl_driver::laws::{
    ambiguous_stand_together, answer_equality_decides, answers_copy_equal, answers_keep_laws,
    bibliography_holds_each_once, bibliography_request_equality_decides, choose_and_suffix_go_on,
    final_order_laws, first_equality_decides, item_equality_decides, items_copy_equal,
    name_marks_go_on, numbers_have_no_gaps, properties_equality_decides, request_equality_decides,
    suffixes_count_entries,
};
use csl_driver::mode::mode_equality_decides;
use csl_writing::laws::{
    copies_are_equal, defaults_are_none, equality_decides, states_go_on, states_have_a_greatest,
    suffixes_differ, usage_counts_once,
};
use csl_writing::picking::{macros_unfold, suffixes_unfold};
use driver_styles::limits::limits_equality_decides;
use layout_context::token::heights_equality_decides;
use std::convert::Infallible;

/// Calls the laws of an answer and of what is asked, each once.
pub fn laws_of_answers() {
    bibliography_holds_each_once::<PlainEntry>();
    numbers_have_no_gaps::<PlainEntry>();
    items_copy_equal::<PlainEntry, Infallible>();
    item_equality_decides::<PlainEntry, Infallible>();
    request_equality_decides::<PlainEntry, Infallible>();
    bibliography_request_equality_decides::<PlainEntry>();
    properties_equality_decides::<Infallible>();
    first_equality_decides();
    heights_equality_decides();
    mode_equality_decides();
    error_equality_decides();
    limits_equality_decides();
    name_marks_go_on::<PlainEntry, Infallible>();
    ambiguous_stand_together::<PlainEntry, Infallible>();
    choose_and_suffix_go_on::<PlainEntry, Infallible>();
    suffixes_count_entries::<PlainEntry, Infallible>();
    answers_copy_equal();
    answer_equality_decides();
    answers_keep_laws::<PlainEntry, Infallible>();
    final_order_laws::<PlainEntry, Infallible>();
}

/// Calls the laws of small values, each once.
pub fn laws_of_values() {
    forms_are_in_order();
    last_text_laws();
    first_names_laws();
    simplify_laws();
    equality_laws();
    suffixes_differ();
    states_have_a_greatest();
    states_go_on();
    usage_counts_once();
    macros_unfold();
    suffixes_unfold();
    defaults_are_none();
    copies_are_equal::<u32>();
    equality_decides::<u32>();
}
