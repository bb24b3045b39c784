//! What the style of a document may do.
use crate::cites::Citation;
use crate::error::AnswerError;
use crate::programs::Programs;
use cite_limits::budget::{Budget, names_of_item, parts_of_item};
use cite_limits::cost::Cost;
use cite_limits::error::{LimitError, StylePlace};
use cite_limits::paths::check_ways;
use cite_limits::sections::{check_texts, spend_texts};
use cite_limits::sizes::check_sizes;
use cite_limits::steps::Prices;
use cite_names::rules::HandedDown;
use cite_program::program::Program;
use cite_sorting::keys::Key;
use reference_values::reference::{Reference, References};
use std::alloc::Global;
use style_file::names::InheritedNameOptions;
use style_file::style::CslStyle;

/// Refuses a style that may take more for one cite or one item than two of these parts, or whose
/// programs have more steps than forty; of what items have, only that each name variable has a name
/// is taken for granted.
///
/// # Errors
///
/// `LimitExceeded`; `StyleTooLong` where the macros of the style make a layout too long;
/// `OutOfMemory`.
pub fn check_style(alloc: Global, style: &CslStyle, part: Cost) -> Result<(), AnswerError> {
    let budget = Budget::new(style, part, 0);
    let _programs = programs_within(alloc, style, &budget)?;
    Ok(())
}

/// The programs of a style that is within a budget, whatever the items have.
///
/// # Errors
///
/// Those of `check_style`.
pub fn programs_within<'s>(
    alloc: Global,
    style: &'s CslStyle,
    budget: &Budget,
) -> Result<Programs<'s>, AnswerError> {
    check_texts(style, budget)?;
    check_sizes(alloc, style, budget.fixed().steps)?;
    let programs = Programs::of_style(alloc, style)?;
    check_programs(alloc, style, budget, &programs)?;
    Ok(programs)
}

/// Refuses programs through which there is a way that takes more than one cite may.
fn check_programs(
    alloc: Global,
    style: &CslStyle,
    budget: &Budget,
    programs: &Programs<'_>,
) -> Result<(), LimitError> {
    let citation = Section {
        style,
        names: &style.citation.names,
        budget,
        place: StylePlace::Citation,
    };
    citation.check(alloc, &programs.citation)?;
    citation.check_keys(alloc, &programs.citation_keys)?;
    let Some(bibliography) = &programs.bibliography else {
        return Ok(());
    };
    let section = Section {
        names: &bibliography.section.names,
        place: StylePlace::Bibliography,
        ..citation
    };
    section.check(alloc, &bibliography.layout)?;
    section.check_keys(alloc, &bibliography.keys)
}

/// A citation or a bibliography whose programs are checked.
#[derive(Clone, Copy)]
struct Section<'s> {
    style: &'s CslStyle,
    names: &'s InheritedNameOptions,
    budget: &'s Budget,
    place: StylePlace,
}

impl<'s> Section<'s> {
    fn check(&self, alloc: Global, program: &Program<'_>) -> Result<(), LimitError> {
        let most = self.budget.of_one();
        check_ways(alloc, program, &self.prices(), most, self.place)
    }

    fn check_keys(&self, alloc: Global, keys: &[Key<'_>]) -> Result<(), LimitError> {
        for key in keys {
            if let Some(program) = &key.program {
                self.check(alloc, program)?;
            }
        }
        Ok(())
    }

    fn prices(&self) -> Prices<'s> {
        let of_style = self.style.names.names_delimiter.as_deref();
        let own = self.names.names_delimiter.as_deref();
        Prices {
            down: HandedDown {
                section: &self.names.name,
                style: &self.style.names.name,
                options: self.style.options,
                sort_key: None,
                is_subsequent: false,
            },
            names_delimiter: own.or(of_style).unwrap_or(""),
            words: self.budget.words(),
        }
    }
}

/// The budget of a document that cites these items.
pub fn budget_of(
    style: &CslStyle,
    part: Cost,
    references: &References,
    citations: &[Citation],
    cited: &[&Reference],
) -> Budget {
    let mut parts = 0usize;
    for reference in cited {
        parts = parts.saturating_add(parts_of_item(*reference));
    }
    for citation in citations {
        parts = parts.saturating_add(parts_of_cites(references, citation));
    }
    Budget::new(style, part, parts)
}

/// Takes the cost of what stands around and between the citations and these items.
///
/// # Errors
///
/// `Exceeded` where the budget has less left.
pub fn spend_around(
    style: &CslStyle,
    budget: &Budget,
    citations: &[Citation],
    cited: &[&Reference],
) -> Result<(), LimitError> {
    let mut names = 0usize;
    for reference in cited {
        names = names
            .saturating_add(names_of_item(*reference))
            .saturating_add(1);
    }
    let mut cites = citations.len();
    for citation in citations {
        cites = cites.saturating_add(citation.cites.len());
    }
    spend_texts(style, budget, cites, names)
}

/// How many parts a document has for the cites of a citation.
fn parts_of_cites(references: &References, citation: &Citation) -> usize {
    let mut parts = 0usize;
    for cite in &citation.cites {
        parts = parts.saturating_add(match references.get(cite.id.as_str()) {
            Some(reference) => parts_of_item(reference),
            None => 1,
        });
    }
    parts
}
