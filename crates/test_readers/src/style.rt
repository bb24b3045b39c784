//! Styles.
use crate::dump::Dump;
use crate::elements::dump_elements;
use crate::locales::dump_style_locale;
use crate::names::dump_inherited;
use crate::sections::{dump_bibliography, dump_citation};
use style_elements::tables::{
    CITATION_FORMATS, CLASSES, FIELDS, LINK_RELATIONS, PAGE_RANGE_FORMATS, PARTICLE_DEMOTIONS,
};
use style_file::info::{Category, Info};
use style_file::style::{CslStyle, DependentStyle, Macro, ParticleDemotion};

pub fn dump_dependent(style: &DependentStyle, dump: &mut Dump) {
    dump.open(0, "dependent");
    dump.text_if_any("default-locale", &style.default_locale);
    dump.text("parent", style.parent.as_str());
    dump.close();
    dump_info(&style.info, dump);
}

/// A style that stands for itself.
pub fn dump_style(style: &CslStyle, dump: &mut Dump) {
    dump.open(0, "style");
    dump.named("class", style.class, CLASSES);
    dump.text_if_any("default-locale", &style.default_locale);
    let options = style.options;
    dump.named_if_other(
        "demote-non-dropping-particle",
        options.particle_demotion,
        ParticleDemotion::DisplayAndSort,
        PARTICLE_DEMOTIONS,
    );
    if !options.initialize_with_hyphen {
        dump.word("initialize-with-hyphen", "false");
    }
    dump.named_if_any(
        "page-range-format",
        options.page_range_format,
        PAGE_RANGE_FORMATS,
    );
    dump_inherited(&style.names, dump);
    dump.close();
    dump_info(&style.info, dump);
    for locale in &style.locales {
        dump_style_locale(locale, dump);
    }
    dump_macros(&style.macros, dump);
    dump_citation(&style.citation, &style.macros, dump);
    if let Some(bibliography) = &style.bibliography {
        dump_bibliography(bibliography, &style.macros, dump);
    }
}

/// Macros, in the order of the style's values: the name of each, and its elements.
fn dump_macros(macros: &[Macro], dump: &mut Dump) {
    for each in macros {
        dump.open(1, "macro");
        dump.text("name", each.name.as_str());
        dump.close();
        dump_elements(&each.elements, macros, 2, dump);
    }
}

fn dump_info(info: &Info, dump: &mut Dump) {
    dump.open(1, "info");
    dump.text("title", info.title.as_str());
    dump.text_if_any("title-short", &info.title_short);
    dump.text("id", info.id.as_str());
    dump.text_if_any("summary", &info.summary);
    dump.text_if_any("updated", &info.updated);
    dump.close();
    for link in &info.links {
        dump.open(2, "link");
        dump.text("href", link.href.as_str());
        dump.named("rel", link.relation, LINK_RELATIONS);
        dump.text_if_any("xml:lang", &link.language);
        dump.close();
    }
    for category in &info.categories {
        dump.open(2, "category");
        match *category {
            Category::CitationFormat(format) => {
                dump.named("citation-format", format, CITATION_FORMATS);
            }
            Category::Field(field) => dump.named("field", field, FIELDS),
        }
        dump.close();
    }
}
