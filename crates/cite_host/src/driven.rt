//! A style as the driver knows it: by its options, with a name in place of its layouts.
use cite_pieces::formatting::TextFormatting;
use cite_trees::trees::tree_formatting;
use csl_base::element::InheritableNameOptions;
use csl_base::formatting::StyleFormatting;
use csl_base::style as driven;
use host_memo::host_style::named;
use std::alloc::{AllocError, Global};
use std::num::NonZeroI16;
use style_file::formatting::Formatting;
use style_file::sections::{
    Bibliography, Citation, Collapse, GivenNameRule, Layout, SecondFieldAlign, SubstituteRule,
};
use style_file::style::CslStyle;

/// What the driver has to know of a style, to which numbers of notes matter if `has_notes`. The
/// name of the style is not looked at.
pub(crate) fn driven_style(
    alloc: Global,
    style: &CslStyle,
    has_notes: bool,
) -> Result<driven::IndependentStyle, AllocError> {
    let bibliography = match &style.bibliography {
        Some(bibliography) => Some(driven_bibliography(alloc, bibliography)?),
        None => None,
    };
    Ok(driven::IndependentStyle {
        info: driven::StyleInfo {
            category: Vec::new(alloc),
        },
        settings: driven::StyleSettings {
            class: if has_notes {
                driven::StyleClass::Note
            } else {
                driven::StyleClass::InText
            },
            options: NO_OPTIONS,
        },
        default_locale: None,
        locale: Vec::new(alloc),
        macros: Vec::new(alloc),
        citation: driven_citation(alloc, &style.citation)?,
        bibliography,
    })
}

/// Options of names, without a value.
const NO_OPTIONS: InheritableNameOptions = InheritableNameOptions {
    and: None,
    name_delimiter: None,
    names_delimiter: None,
    et_al_min: None,
    et_al_use_first: None,
    name_form: None,
    initialize_with: None,
};

/// Formatting that asks for nothing.
const UNFORMATTED: StyleFormatting = StyleFormatting {
    font_style: None,
    font_variant: None,
    font_weight: None,
    text_decoration: None,
    vertical_align: None,
};

/// The options of citations. Between the suffixes of a year stands what stands in a group, if a
/// style doesn't tell.
fn driven_citation(alloc: Global, citation: &Citation) -> Result<driven::Citation, AllocError> {
    let options = &citation.options;
    let group_delimiter = options.cite_group_delimiter.as_deref();
    let suffix_delimiter = options.year_suffix_delimiter.as_deref().or(group_delimiter);
    Ok(driven::Citation {
        layout: citation_layout(alloc, &citation.layout)?,
        disambiguate_add_givenname: options.disambiguate_add_given_name,
        givenname_disambiguation_rule: rule_of(options.given_name_rule),
        disambiguate_add_names: options.disambiguate_add_names,
        disambiguate_add_year_suffix: options.disambiguate_add_year_suffix,
        cite_group_delimiter: copied(alloc, group_delimiter)?,
        year_suffix_delimiter: copied(alloc, suffix_delimiter)?,
        after_collapse_delimiter: copied(alloc, options.after_collapse_delimiter.as_deref())?,
        collapse: options.collapse.map(collapse_of),
        near_note_distance: options.near_note_distance as usize,
        name_options: NO_OPTIONS,
    })
}

/// The layout of a citation. The driver writes its delimiter.
fn citation_layout(alloc: Global, layout: &Layout) -> Result<driven::Layout, AllocError> {
    Ok(driven::Layout {
        elements: named(alloc, "")?,
        formatting: tree_asked(layout.formatting),
        prefix: None,
        suffix: None,
        delimiter: copied(alloc, Some(layout.delimiter.as_str()))?,
    })
}

/// What is asked for, as trees have it.
fn tree_asked(asked: Formatting) -> StyleFormatting {
    let inside = tree_formatting(TextFormatting::NORMAL.with(asked));
    StyleFormatting {
        font_style: Some(inside.font_style),
        font_variant: Some(inside.font_variant),
        font_weight: Some(inside.font_weight),
        text_decoration: Some(inside.text_decoration),
        vertical_align: Some(inside.vertical_align),
    }
}

fn driven_bibliography(
    alloc: Global,
    bibliography: &Bibliography,
) -> Result<driven::Bibliography, AllocError> {
    let options = &bibliography.options;
    let substitute = options.subsequent_author_substitute.as_deref();
    Ok(driven::Bibliography {
        layout: driven::Layout {
            elements: named(alloc, "")?,
            formatting: UNFORMATTED,
            prefix: None,
            suffix: None,
            delimiter: None,
        },
        hanging_indent: options.hanging_indent,
        second_field_align: options.second_field_align.map(align_of),
        line_spacing: spacing_of(options.line_spacing),
        entry_spacing: i16::try_from(options.entry_spacing).unwrap_or(i16::MAX),
        subsequent_author_substitute: copied(alloc, substitute)?,
        subsequent_author_substitute_rule: substitute_rule_of(options.substitute_rule),
        name_options: NO_OPTIONS,
    })
}

/// The distance of lines, which is one at least in a style file, and at most the greatest that the
/// driver knows.
fn spacing_of(lines: u32) -> NonZeroI16 {
    let lines = i16::try_from(lines).unwrap_or(i16::MAX);
    NonZeroI16::new(lines).unwrap_or(NonZeroI16::MAX)
}

fn rule_of(rule: GivenNameRule) -> driven::DisambiguationRule {
    match rule {
        GivenNameRule::AllNames => driven::DisambiguationRule::AllNames,
        GivenNameRule::AllNamesWithInitials => driven::DisambiguationRule::AllNamesWithInitials,
        GivenNameRule::PrimaryName => driven::DisambiguationRule::PrimaryName,
        GivenNameRule::PrimaryNameWithInitials => {
            driven::DisambiguationRule::PrimaryNameWithInitials
        }
        GivenNameRule::ByCite => driven::DisambiguationRule::ByCite,
    }
}

fn collapse_of(collapse: Collapse) -> driven::Collapse {
    match collapse {
        Collapse::CitationNumber => driven::Collapse::CitationNumber,
        Collapse::Year => driven::Collapse::Year,
        Collapse::YearSuffix => driven::Collapse::YearSuffix,
        Collapse::YearSuffixRanged => driven::Collapse::YearSuffixRanged,
    }
}

fn align_of(align: SecondFieldAlign) -> driven::SecondFieldAlign {
    match align {
        SecondFieldAlign::Flush => driven::SecondFieldAlign::Flush,
        SecondFieldAlign::Margin => driven::SecondFieldAlign::Margin,
    }
}

fn substitute_rule_of(rule: SubstituteRule) -> driven::SubsequentAuthorSubstituteRule {
    match rule {
        SubstituteRule::CompleteAll => driven::SubsequentAuthorSubstituteRule::CompleteAll,
        SubstituteRule::CompleteEach => driven::SubsequentAuthorSubstituteRule::CompleteEach,
        SubstituteRule::PartialEach => driven::SubsequentAuthorSubstituteRule::PartialEach,
        SubstituteRule::PartialFirst => driven::SubsequentAuthorSubstituteRule::PartialFirst,
    }
}

/// A copy of a text that may be absent.
fn copied(alloc: Global, text: Option<&str>) -> Result<Option<String>, AllocError> {
    match text {
        Some(text) => Ok(Some(String::from_str(alloc, text)?)),
        None => Ok(None),
    }
}
