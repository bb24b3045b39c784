//! Functions over plain text.
use crate::said::Said;
use cite_texts::addresses::{
    Identifier, identifier_address, last_address, resolver_at_end, url_address,
};
use cite_texts::cases::{Language, in_case};
use cite_texts::initials::{Initials, in_initials};
use cite_texts::numbers::{NumberPart, is_numeric, number_parts, roman};
use cite_texts::pages::page_ranges;
use std::alloc::{AllocError, Global};
use style_file::formatting::TextCase;
use style_file::style::PageRangeFormat;

/// FORMAT DELIMITER TEXT
pub fn pages(alloc: Global, args: &[&str], said: &mut Said) {
    if let [format, delimiter, text] = args {
        said.give_made(page_ranges(alloc, *text, format_of(*format), *delimiter));
    }
}

fn format_of(name: &str) -> Option<PageRangeFormat> {
    match name {
        "expanded" => Some(PageRangeFormat::Expanded),
        "minimal" => Some(PageRangeFormat::Minimal),
        "minimal-two" => Some(PageRangeFormat::MinimalTwo),
        "chicago-15" => Some(PageRangeFormat::ChicagoFifteen),
        "chicago-16" => Some(PageRangeFormat::ChicagoSixteen),
        _ => None,
    }
}

/// TEXT
pub fn numeric(args: &[&str], said: &mut Said) {
    if let [number] = args {
        said.give(if is_numeric(*number) { "yes" } else { "no" });
    }
}

/// TEXT; numbers that have a value stand in brackets.
pub fn numbers(alloc: Global, args: &[&str], said: &mut Said) {
    let [number] = args else {
        return;
    };
    match number_parts(alloc, *number) {
        Ok(Some(parts)) => give_parts(alloc, &parts, said),
        Ok(None) => said.give("none"),
        Err(_) => said.cut(),
    }
}

fn give_parts(alloc: Global, parts: &[NumberPart<'_>], said: &mut Said) {
    for part in parts {
        match part.number.value {
            Some(value) => said.give_made(format!(in alloc; "[{value}]")),
            None => said.give(part.number.text),
        }
        if let Some(delimiter) = part.delimiter {
            said.give(delimiter.text());
        }
    }
}

/// NUMBER
pub fn roman_numeral(alloc: Global, args: &[&str], said: &mut Said) {
    if let [number] = args {
        if let Ok(number) = number.parse::<u32>() {
            said.give_made(roman(alloc, number));
        }
    }
}

/// MARK HOW NAMES; how: `short` or `full`, and maybe `apart`, without hyphens.
pub fn initials(alloc: Global, args: &[&str], said: &mut Said) {
    if let [mark, how, given] = args {
        let how = Initials {
            mark: *mark,
            has_hyphens: !how.contains("apart"),
            shortens: how.contains("short"),
        };
        said.give_made(in_initials(alloc, *given, how));
    }
}

/// CASE LANGUAGE TEXT
pub fn case(alloc: Global, args: &[&str], said: &mut Said) {
    if let [case, language, text] = args {
        if let Some(case) = case_of(*case) {
            said.give_made(in_case(alloc, *text, case, Language::of_tag(*language)));
        }
    }
}

/// The text case of this name in CSL.
pub fn case_of(name: &str) -> Option<TextCase> {
    match name {
        "lowercase" => Some(TextCase::Lowercase),
        "uppercase" => Some(TextCase::Uppercase),
        "capitalize-first" => Some(TextCase::CapitalizeFirst),
        "capitalize-all" => Some(TextCase::CapitalizeAll),
        "sentence" => Some(TextCase::Sentence),
        "title" => Some(TextCase::Title),
        _ => None,
    }
}

/// TAG
pub fn language(args: &[&str], said: &mut Said) {
    if let [tag] = args {
        said.give(match Language::of_tag(*tag) {
            Language::English => "english",
            Language::Turkic => "turkic",
            Language::Other => "other",
        });
    }
}

fn address_of(alloc: Global, kind: &str, linked: &str) -> Result<Option<String>, AllocError> {
    match identifier_of(kind) {
        Some(identifier) => identifier_address(alloc, identifier, linked),
        None => url_address(alloc, linked),
    }
}

/// KIND TEXT: the address to which it leads
pub fn address(alloc: Global, args: &[&str], said: &mut Said) {
    let [kind, linked] = args else {
        return;
    };
    match address_of(alloc, *kind, *linked) {
        Ok(Some(address)) => said.give(address.as_str()),
        Ok(None) => said.give("none"),
        Err(_) => said.cut(),
    }
}

/// KIND AFFIX: the end of the affix that is part of a link
pub fn begun(args: &[&str], said: &mut Said) {
    if let [kind, affix] = args {
        said.give(match identifier_of(*kind) {
            Some(identifier) => resolver_at_end(identifier, *affix),
            None => last_address(*affix),
        });
    }
}

fn identifier_of(kind: &str) -> Option<Identifier> {
    match kind {
        "DOI" => Some(Identifier::Doi),
        "PMID" => Some(Identifier::Pmid),
        "PMCID" => Some(Identifier::Pmcid),
        _ => None,
    }
}
