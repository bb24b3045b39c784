//! An author-date style with year suffixes and a bibliography.
use csl_driver::element::{Affixes, InheritableNameOptions, LayoutRenderingElement, NameForm};
use csl_driver::formatting::StyleFormatting;
use csl_driver::style::{
    Bibliography, Citation, DisambiguationRule, IndependentStyle, Layout, StyleClass, StyleInfo,
    StyleSettings, SubsequentAuthorSubstituteRule,
};
use csl_driver::taxonomy::{DateVariable, NameVariable};
use std::alloc::{AllocError, Global};
use std::num::NonZeroI16;

/// The style: cites as `(Doe 1999)`, items as `Doe 1999`.
pub fn author_date(alloc: Global) -> Result<IndependentStyle, AllocError> {
    let bibliography = bibliography(layout(alloc)?);
    let citation = citation(in_parentheses(alloc)?);
    Ok(IndependentStyle {
        info: StyleInfo {
            category: Vec::new(alloc),
        },
        settings: StyleSettings {
            class: StyleClass::InText,
            options: no_options(),
        },
        default_locale: None,
        locale: Vec::new(alloc),
        macros: Vec::new(alloc),
        citation,
        bibliography: Some(bibliography),
    })
}

fn citation(layout: Layout) -> Citation {
    Citation {
        layout,
        disambiguate_add_givenname: false,
        givenname_disambiguation_rule: DisambiguationRule::ByCite,
        disambiguate_add_names: false,
        disambiguate_add_year_suffix: true,
        cite_group_delimiter: None,
        year_suffix_delimiter: None,
        after_collapse_delimiter: None,
        collapse: None,
        near_note_distance: 5,
        name_options: no_options(),
    }
}

fn bibliography(layout: Layout) -> Bibliography {
    Bibliography {
        layout,
        hanging_indent: false,
        second_field_align: None,
        line_spacing: NonZeroI16::MAX,
        entry_spacing: 1,
        subsequent_author_substitute: None,
        subsequent_author_substitute_rule: SubsequentAuthorSubstituteRule::CompleteAll,
        name_options: no_options(),
    }
}

/// The layout in parentheses, with semicolons between cites.
fn in_parentheses(alloc: Global) -> Result<Layout, AllocError> {
    let affixes = (text(alloc, "(")?, text(alloc, ")")?);
    let delimiter = text(alloc, "; ")?;
    Ok(Layout {
        prefix: affixes.0,
        suffix: affixes.1,
        delimiter,
        ..layout(alloc)?
    })
}

fn text(alloc: Global, text: &str) -> Result<Option<String>, AllocError> {
    Ok(Some(String::from_str(alloc, text)?))
}

/// The authors and the year of issue.
fn layout(alloc: Global) -> Result<Layout, AllocError> {
    let parts = LayoutRenderingElement::Group {
        children: vec![in alloc; authors(alloc)?, year()]?,
        delimiter: text(alloc, " ")?,
        affixes: no_affixes(),
        formatting: StyleFormatting::default(),
        display: None,
    };
    Ok(Layout {
        elements: vec![in alloc; parts]?,
        formatting: StyleFormatting::default(),
        prefix: None,
        suffix: None,
        delimiter: None,
    })
}

/// The authors' family names.
fn authors(alloc: Global) -> Result<LayoutRenderingElement, AllocError> {
    let options = InheritableNameOptions {
        name_form: Some(NameForm::Short),
        ..no_options()
    };
    Ok(LayoutRenderingElement::Names {
        variables: vec![in alloc; NameVariable::Author]?,
        substitute: Vec::new(alloc),
        options,
        affixes: no_affixes(),
        formatting: StyleFormatting::default(),
        display: None,
    })
}

fn year() -> LayoutRenderingElement {
    LayoutRenderingElement::Date {
        variable: DateVariable::Issued,
        affixes: no_affixes(),
        formatting: StyleFormatting::default(),
        display: None,
    }
}

fn no_options() -> InheritableNameOptions {
    InheritableNameOptions {
        and: None,
        name_delimiter: None,
        names_delimiter: None,
        et_al_min: None,
        et_al_use_first: None,
        name_form: None,
        initialize_with: None,
    }
}

fn no_affixes() -> Affixes {
    Affixes {
        prefix: None,
        suffix: None,
    }
}
