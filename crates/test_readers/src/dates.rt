//! Dates.
use crate::dump::Dump;
use style_elements::tables::{DATE_FORMS, DATE_PARTS, DAY_FORMS, MONTH_FORMS, YEAR_FORMS};
use style_file::date::{Date, DateFormat, DatePart, DatePartName, DateParts};

pub fn dump_date(date: &Date, depth: usize, dump: &mut Dump) {
    dump.open(depth, "date");
    dump.word("variable", date.variable.name());
    let parts = match &date.format {
        DateFormat::Localized {
            form,
            parts,
            settings,
        } => {
            dump.named("form", *form, DATE_FORMS);
            dump.named_if_other("date-parts", *parts, DateParts::YearMonthDay, DATE_PARTS);
            settings
        }
        DateFormat::Own { parts, delimiter } => {
            dump.text_if_full("delimiter", delimiter.as_str());
            parts
        }
    };
    dump.text_case(date.text_case);
    dump.display(date.display);
    dump.affixes(&date.affixes);
    dump.formatting(&date.formatting);
    dump.close();
    dump_parts(parts, depth.saturating_add(1), dump);
}

pub fn dump_parts(parts: &[DatePart], depth: usize, dump: &mut Dump) {
    for part in parts {
        dump.open(depth, "date-part");
        match part.name {
            DatePartName::Day(form) => {
                dump.word("name", "day");
                dump.named_if_any("form", form, DAY_FORMS);
            }
            DatePartName::Month(form) => {
                dump.word("name", "month");
                dump.named_if_any("form", form, MONTH_FORMS);
            }
            DatePartName::Year(form) => {
                dump.word("name", "year");
                dump.named_if_any("form", form, YEAR_FORMS);
            }
        }
        dump.text_if_any("range-delimiter", &part.range_delimiter);
        dump.truth_if_true("strip-periods", part.strip_periods);
        dump.text_case(part.text_case);
        dump.affixes(&part.affixes);
        dump.formatting(&part.formatting);
        dump.close();
    }
}
