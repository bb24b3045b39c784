//! The terms of a list of locales.
ghost use Rattle.std.specs.Prelude.{◌≡◌, map};
ghost use Rattle.std.specs.Coded.{Coded-set, coded_list};
ghost use Rattle.value_styles.specs.contracts.locale.Locale as locale_;

use crate::locales::is_language;
use crate::term_table::TermTable;
use csl_base::locale::{Locale, LocalizedTerm};
use csl_base::taxonomy::{Term, TermForm};
use std::alloc::{AllocError, Global};

/// Locales, with a table of the terms of each.
#[derive(Drop)]
pub struct TermTables<'a> {
    locales: &'a [Locale],
    tables: Vec<TermTable<'a>>,
    ghost each: { map (λ t. t.locale.now) tables.items ≡ locales.now } by { Coded-set (coded_list locale_.the_row.coded) (map (λ t. t.locale.now) tables.items)
        locales.now },
}

impl<'a> TermTables<'a> {
    ghost use Rattle.std.specs.Prelude.{IfOk, option_map, option_and_then};
    ghost use Rattle.value_styles.specs.StyleView.{locale_view, term_view};
    ghost use Rattle.driver_styles.specs.Terms.{locale_of, term_in};
    ghost use Rattle.driver_styles.specs.TablesView.{locales_of};

    /// The tables of these locales.
    ///
    /// # Errors
    ///
    /// Where memory is refused.
    pub fn new(alloc: Global, locales: &'a [Locale]) -> Result<TermTables<'a>, AllocError>
        ensures { IfOk result (λ tables. locales_of tables ≡ locales.now) }
    {
        let mut tables = Vec::new(alloc);
        for locale in locales {
            tables.push(TermTable::new(alloc, locale)?)?;
        }
        Ok(TermTables { locales, tables })
    }

    /// The locales that they are made of.
    pub fn locales(&self) -> &'a [Locale]
        ensures { result.now ≡ locales_of self.now }
    {
        self.locales
    }

    /// The first term of this name and form that the first locale of a language has, or of no
    /// language; none where that locale has none.
    pub fn term_of(
        &self,
        language: Option<&str>,
        name: Term,
        form: TermForm,
    ) -> Option<&'a LocalizedTerm>
        ensures { option_map (λ t. term_view t.now) result
            ≡ option_and_then (term_in name form)
            (locale_of (option_map (λ t. t.now) language.entry)
            (map locale_view (locales_of self.now))) }
    {
        for table in &self.tables {
            if is_language(table.locale, language) {
                return table.term(name, form);
            }
        }
        None
    }
}
