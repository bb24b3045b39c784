//! What is rendered: a cite of an entry, in a style with its locales.
ghost use Rattle.std.specs.Prelude.{◌≡◌, IfOk};
ghost use Rattle.value_styles.specs.ElementView.{options_view};
ghost use Rattle.value_styles.specs.StyleView.{style_view};
ghost use Rattle.layout_picking.specs.InputView as input;
ghost use Rattle.driver_lookup.specs.PropertiesView.{locator_view, properties_view};
ghost use Rattle.driver_lookup.specs.SourceView.{source_view};
ghost use Rattle.csl_writing.specs.Subject as plain;
ghost use Rattle.csl_writing.specs.SubjectView.{subject_view};

use csl_base::element::InheritableNameOptions;
use csl_base::entry::EntryLike;
use driver_lookup::locator::{LocatorPayload, SpecificLocator};
use driver_lookup::lookup::StyleLocales;
use driver_lookup::properties::CiteProperties;
use driver_lookup::state::IbidState;
use layout_picking::input::{CiteFacts, Input, LocatorFacts, Setting};
use layout_picking::notes::Form;

fn locator_facts<'a, P>(locator: &'a SpecificLocator<'_, P>) -> LocatorFacts<'a>
    ensures { input.locator_facts result ≡ plain.locator_read (locator_view locator.now) }
{
    LocatorFacts {
        kind: locator.0,
        text: match &locator.1 {
            LocatorPayload::Str(text) => Some(*text),
            LocatorPayload::Transparent(_) => None,
        },
    }
}

/// What of the properties is read.
pub(crate) fn cite_facts<'a, P>(props: &'a CiteProperties<'_, P>) -> CiteFacts<'a>
    ensures { input.cite_facts result ≡ plain.cite_of (properties_view props.now) }
{
    let certain = &props.certain;
    let speculative = &props.speculative;
    CiteFacts {
        citation_number: speculative.citation_number,
        first_note_number: certain.first_note_number,
        is_first: certain.is_first,
        is_near_note: certain.is_near_note,
        initial_idx: certain.initial_idx,
        ibid: speculative.ibid,
        locator: match &speculative.locator {
            Some(locator) => Some(locator_facts(locator)),
            None => None,
        },
        state: &speculative.disambiguation,
        means: &speculative.means,
        usage: speculative.identifier_usage,
    }
}

/// A cite of an entry, in a style with its locales.
#[derive(Drop)]
pub(crate) struct Subject<'a, T> {
    pub(crate) entry: &'a T,
    pub(crate) context: StyleLocales<'a>,
    pub(crate) cite: CiteFacts<'a>,
    /// Whether a year-suffix text stands in a layout of the style.
    pub(crate) explicit_suffix: bool,
}

impl<'a, T: EntryLike> Subject<'a, T> {
    /// The cite as if it repeated no other.
    pub(crate) fn as_different(&self) -> Subject<'a, T>
        ensures { subject_view T.answers result
            ≡ plain.as_different (subject_view T.answers self.now) }
    {
        Subject {
            entry: self.entry,
            context: self.context,
            cite: CiteFacts {
                ibid: IbidState::Different,
                ..self.cite
            },
            explicit_suffix: self.explicit_suffix,
        }
    }

    /// What a picking reads, in this form and under these name options.
    pub(crate) fn input(
        &self,
        form: Form,
        layout_options: &'a InheritableNameOptions,
        is_bibliography: bool,
    ) -> Input<'a, T>
        ensures env { input.env_of (T.answers result.entry.now) result.setting
            ≡ plain.env (subject_view T.answers self.now)
            (options_view layout_options.now) form is_bibliography }
        ensures macros { input.macros_in result.setting
            ≡ (subject_view T.answers self.now).source.style.macros }
    {
        Input {
            entry: self.entry,
            setting: Setting {
                context: self.context,
                cite: self.cite,
                form,
                explicit_suffix: self.explicit_suffix,
                is_bibliography,
                layout_options,
            },
        }
    }
}
