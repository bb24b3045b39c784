//! The name options that hold in the end, and the forms of names (CSL 1.0.2, name, et-al
//! abbreviation).
ghost use Rattle.std.specs.Prelude.{◌≡◌, IfOk, option_map};
ghost use Rattle.std.specs.Option.{option_or};
ghost use Rattle.value_styles.specs.ElementView.{text_view, options_view};
ghost use Rattle.layout_picking.specs.Options.{applied_options};
ghost use Rattle.layout_picking.specs.NameRules.{base_form, rules_of, written_count, forms_by};
ghost use Rattle.layout_picking.specs.NameRulesView.{rules_view};

use csl_base::element::{InheritableNameOptions, NameAnd, NameForm};
use csl_base::names::DisambiguatedNameForm;
use csl_base::seq::Seq;
use std::alloc::{AllocError, Global};

/// The name options that hold in the end.
#[derive(Clone, Copy)]
pub struct NameRules<'a> {
    /// The word before the last name.
    pub and: Option<NameAnd>,
    pub name_delimiter: &'a str,
    pub names_delimiter: &'a str,
    /// From how many names on they are cut.
    pub et_al_min: Option<usize>,
    /// How many are kept then, at least one.
    pub kept: usize,
    /// How a name is written that isn't cut.
    pub form: DisambiguatedNameForm,
    /// What follows each initial.
    pub initial_end: &'a str,
}

// An option's text: the element's own, else the layout's, else the style's.
fn option_text<'a>(
    own: &'a Option<String>,
    layout: &'a Option<String>,
    style: &'a Option<String>,
) -> Option<&'a str>
    ensures { option_map (λ t. t.now) result
        ≡ option_or (text_view own.now) (option_or (text_view layout.now) (text_view style.now)) }
{
    match (own, layout, style) {
        (Some(text), _, _) => Some(text.as_str()),
        (None, Some(text), _) => Some(text.as_str()),
        (None, None, Some(text)) => Some(text.as_str()),
        (None, None, None) => None,
    }
}

// How a name is written that isn't cut, where something may follow each initial.
fn base_form(form: Option<NameForm>, initial_end: Option<&str>) -> DisambiguatedNameForm
    ensures { result ≡ base_form form (option_map (λ t. t.now) initial_end.entry) }
{
    match (form, initial_end) {
        (Some(NameForm::Short), _) => DisambiguatedNameForm::Short,
        (_, Some(_)) => DisambiguatedNameForm::LongInitialized,
        (_, None) => DisambiguatedNameForm::LongFull,
    }
}

impl<'a> NameRules<'a> {
    /// The options of an element that hold in the end: its own go before those of the layout, and
    /// these before those of the style.
    pub fn new(
        own: &'a InheritableNameOptions,
        layout: &'a InheritableNameOptions,
        style: &'a InheritableNameOptions,
    ) -> NameRules<'a>
        ensures { rules_view result
            ≡ rules_of (applied_options
            (applied_options (options_view style.now) (options_view layout.now))
            (options_view own.now)) }
    {
        let initial_end = option_text(
            &own.initialize_with,
            &layout.initialize_with,
            &style.initialize_with,
        );
        let form = own.name_form.or(layout.name_form.or(style.name_form));
        let kept = own
            .et_al_use_first
            .or(layout.et_al_use_first.or(style.et_al_use_first));
        NameRules {
            and: own.and.or(layout.and.or(style.and)),
            name_delimiter: option_text(
                &own.name_delimiter,
                &layout.name_delimiter,
                &style.name_delimiter,
            )
            .unwrap_or(", "),
            names_delimiter: option_text(
                &own.names_delimiter,
                &layout.names_delimiter,
                &style.names_delimiter,
            )
            .unwrap_or(", "),
            et_al_min: own.et_al_min.or(layout.et_al_min.or(style.et_al_min)),
            kept: kept.unwrap_or(1).max(1),
            form: base_form(form, initial_end),
            initial_end: initial_end.unwrap_or(""),
        }
    }

    // How many of so many names are written.
    fn written_count(&self, count: usize) -> usize
        ensures { result ≡ written_count (rules_view self.now) count }
    {
        match self.et_al_min {
            Some(least) if least <= count => self.kept.min(count),
            _ => count,
        }
    }

    /// The forms of so many names.
    pub fn forms(
        &self,
        alloc: Global,
        count: usize,
    ) -> Result<Seq<DisambiguatedNameForm>, AllocError>
        ensures { IfOk result (λ forms. forms ≡ forms_by (rules_view self.now) count) }
    {
        let mut forms = Vec::with_capacity(alloc, count)?;
        forms.resize(self.written_count(count), self.form)?;
        forms.resize(count, DisambiguatedNameForm::Count)?;
        Ok(Seq::new(forms))
    }
}
