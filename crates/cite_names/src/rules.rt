//! The options of names, handed down from a style to a citation or a bibliography, from that to
//! names, and from these to a name (CSL 1.0.2, "Inheritable Name Options").
ghost use Rattle.std.specs.Prelude.{◌≡◌, Some};
ghost use Rattle.std.specs.Option.{option_map_or};
ghost use Rattle.cite_names.specs.Cuts.{cut_at, cut_by_key, cut_of, use_last_by_key, use_last_of};

use style_file::names::{
    DelimiterPrecedes, Name, NameAnd, NameAsSortOrder, NameForm, NameOptions, NamePart,
};
use style_file::sections::SortKey;
use style_file::style::{GlobalOptions, ParticleDemotion};

/// What is handed down to names.
#[derive(Clone, Copy)]
pub struct HandedDown<'s> {
    /// From the citation or the bibliography.
    pub section: &'s NameOptions,
    pub style: &'s NameOptions,
    pub options: GlobalOptions,
    /// The key of sorting for which the names are written.
    pub sort_key: Option<SortKey>,
    /// Whether the item was cited before.
    pub is_subsequent: bool,
}

/// From how many names on a list is cut, and how many are kept then.
#[derive(Clone, Copy, PartialEq, Eq)]
pub struct Cut {
    pub min: u32,
    pub use_first: u32,
}

/// How names are written.
#[derive(Clone, Copy)]
pub struct NameRules<'s> {
    pub and: Option<NameAnd>,
    pub delimiter: &'s str,
    pub precedes_et_al: DelimiterPrecedes,
    pub precedes_last: DelimiterPrecedes,
    pub cut: Option<Cut>,
    /// Whether a list that is cut ends in its last name.
    pub use_last: bool,
    pub form: NameForm,
    pub initialize: bool,
    pub initialize_with: Option<&'s str>,
    pub sort_order: Option<NameAsSortOrder>,
    pub sort_separator: &'s str,
    /// Whether initials of a compound name have a hyphen between them.
    pub has_hyphens: bool,
    /// Whether a non-dropping particle follows the given names of a name in sort order.
    pub demotes_particle: bool,
    /// Whether the names are those of a key of sorting.
    pub is_key: bool,
    pub given: Option<&'s NamePart>,
    pub family: Option<&'s NamePart>,
}

impl<'s> NameRules<'s> {
    /// The rules of an element `name`, to which this is handed down.
    pub fn of_name(name: Option<&'s Name>, down: HandedDown<'s>) -> NameRules<'s>
        ensures cut { let d = down.entry in let section = d.section.now in
            let own = option_map_or (λ n. n.now.options) name.entry section in
            result.cut ≡ cut_by_key d.sort_key (cut_of own section d.style.now d.is_subsequent) }
        ensures use_last { let d = down.entry in let section = d.section.now in
            let own = option_map_or (λ n. n.now.options) name.entry section in
            result.use_last ≡ use_last_by_key d.sort_key (use_last_of own section d.style.now) }
    {
        let layers = Layers {
            own: name.map_or(down.section, |name| &name.options),
            section: down.section,
            style: down.style,
        };
        let rules = NameRules {
            and: layers.and(),
            delimiter: layers.delimiter(),
            precedes_et_al: layers.precedes_et_al(),
            precedes_last: layers.precedes_last(),
            cut: layers.cut(down.is_subsequent),
            use_last: layers.use_last(),
            form: layers.form(),
            initialize: layers.initialize(),
            initialize_with: layers.initialize_with(),
            sort_order: layers.sort_order(),
            sort_separator: layers.sort_separator(),
            has_hyphens: down.options.initialize_with_hyphen,
            demotes_particle: down.options.particle_demotion == ParticleDemotion::DisplayAndSort,
            is_key: false,
            given: name.and_then(|name| name.given.as_ref()),
            family: name.and_then(|name| name.family.as_ref()),
        };
        match down.sort_key {
            Some(key) => rules.for_sorting(key, down.options.particle_demotion),
            None => rules,
        }
    }

    /// The rules by which names are written for a key of sorting (CSL 1.0.2, "Sorting").
    fn for_sorting(self, key: SortKey, demotion: ParticleDemotion) -> NameRules<'s>
        ensures cut { result.cut ≡ cut_by_key (Some key) self.entry.cut }
        ensures use_last { result.use_last ≡ use_last_by_key (Some key) self.entry.use_last }
    {
        NameRules {
            and: None,
            delimiter: SORT_DELIMITER,
            cut: cut_by_key(self.cut, key),
            use_last: key.names_use_last.unwrap_or(self.use_last),
            sort_order: Some(NameAsSortOrder::All),
            demotes_particle: demotion != ParticleDemotion::Never,
            is_key: true,
            ..self
        }
    }
}

/// What stands between the names of a key: a character before all letters.
pub const SORT_DELIMITER: &str = "\u{1}";

/// The options of names, from the nearest on.
#[derive(Clone, Copy)]
struct Layers<'s> {
    own: &'s NameOptions,
    section: &'s NameOptions,
    style: &'s NameOptions,
}

impl<'s> Layers<'s> {
    fn and(self) -> Option<NameAnd> {
        self.own.and.or(self.section.and).or(self.style.and)
    }

    fn delimiter(self) -> &'s str {
        text_of(
            &self.own.delimiter,
            &self.section.delimiter,
            &self.style.delimiter,
        )
        .unwrap_or(", ")
    }

    fn precedes_et_al(self) -> DelimiterPrecedes {
        self.own
            .delimiter_precedes_et_al
            .or(self.section.delimiter_precedes_et_al)
            .or(self.style.delimiter_precedes_et_al)
            .unwrap_or(DelimiterPrecedes::Contextual)
    }

    fn precedes_last(self) -> DelimiterPrecedes {
        self.own
            .delimiter_precedes_last
            .or(self.section.delimiter_precedes_last)
            .or(self.style.delimiter_precedes_last)
            .unwrap_or(DelimiterPrecedes::Contextual)
    }

    /// The cut of a list of names, where both of its numbers are there.
    fn cut(self, is_subsequent: bool) -> Option<Cut>
        ensures { result ≡ cut_of self.entry.own.now self.entry.section.now self.entry.style.now
            is_subsequent }
    {
        let min = self
            .own
            .et_al_min
            .or(self.section.et_al_min)
            .or(self.style.et_al_min);
        let use_first = self
            .own
            .et_al_use_first
            .or(self.section.et_al_use_first)
            .or(self.style.et_al_use_first);
        if !is_subsequent {
            return cut_at(min, use_first);
        }
        let later_min = self
            .own
            .et_al_subsequent_min
            .or(self.section.et_al_subsequent_min)
            .or(self.style.et_al_subsequent_min);
        let later_first = self
            .own
            .et_al_subsequent_use_first
            .or(self.section.et_al_subsequent_use_first)
            .or(self.style.et_al_subsequent_use_first);
        cut_at(later_min.or(min), later_first.or(use_first))
    }

    fn use_last(self) -> bool
        ensures { result
            ≡ use_last_of self.entry.own.now self.entry.section.now self.entry.style.now }
    {
        self.own
            .et_al_use_last
            .or(self.section.et_al_use_last)
            .or(self.style.et_al_use_last)
            .unwrap_or(false)
    }

    fn form(self) -> NameForm {
        self.own
            .form
            .or(self.section.form)
            .or(self.style.form)
            .unwrap_or(NameForm::Long)
    }

    fn initialize(self) -> bool {
        self.own
            .initialize
            .or(self.section.initialize)
            .or(self.style.initialize)
            .unwrap_or(true)
    }

    fn initialize_with(self) -> Option<&'s str> {
        text_of(
            &self.own.initialize_with,
            &self.section.initialize_with,
            &self.style.initialize_with,
        )
    }

    fn sort_order(self) -> Option<NameAsSortOrder> {
        self.own
            .name_as_sort_order
            .or(self.section.name_as_sort_order)
            .or(self.style.name_as_sort_order)
    }

    fn sort_separator(self) -> &'s str {
        text_of(
            &self.own.sort_separator,
            &self.section.sort_separator,
            &self.style.sort_separator,
        )
        .unwrap_or(", ")
    }
}

fn cut_at(min: Option<u32>, use_first: Option<u32>) -> Option<Cut>
    ensures { result ≡ cut_at min use_first }
{
    let (min, use_first) = (min?, use_first?);
    Some(Cut { min, use_first })
}

/// The cut with what a key of sorting has in its place.
fn cut_by_key(cut: Option<Cut>, key: SortKey) -> Option<Cut>
    ensures { result ≡ cut_by_key (Some key) cut }
{
    let min = key.names_min.or(cut.map(|cut| cut.min));
    let use_first = key.names_use_first.or(cut.map(|cut| cut.use_first));
    cut_at(min, use_first)
}

/// The first of three texts that is there.
fn text_of<'s>(
    own: &'s Option<String>,
    section: &'s Option<String>,
    style: &'s Option<String>,
) -> Option<&'s str> {
    own.as_deref().or(section.as_deref()).or(style.as_deref())
}
