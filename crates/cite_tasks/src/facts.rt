//! What is known of a cite before the driver decides more.
use cite_walk::cite::{CiteFacts, CiteLocator};
use reference_values::reference::Reference;

/// A first cite of this item, whose number is printed so.
pub(crate) fn first_cite<'c>(
    reference: &'c Reference,
    locator: Option<&'c CiteLocator>,
    number: usize,
) -> CiteFacts<'c> {
    CiteFacts {
        reference,
        locator,
        number,
        is_first: true,
        is_near_note: false,
        repetition: None,
        first_note_number: None,
        disambiguates: false,
        year_suffix: None,
        name_forms: &[],
        leaves_out_names: false,
        is_cut_to_suffix: false,
    }
}
