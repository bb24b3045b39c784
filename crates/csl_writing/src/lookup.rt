//! A style with its locales: what a cite is written in.
ghost use Rattle.std.specs.Prelude.{◌≡◌, map, option_map, IfOk};
ghost use Rattle.value_styles.specs.ElementView.{options_view};
ghost use Rattle.value_styles.specs.StyleView.{code_view, locale_view, style_view};
ghost use Rattle.driver_lookup.specs.FirstAnswer.{Gives, FirstAnswer};
ghost use Rattle.driver_lookup.specs.Lookup as found;
ghost use Rattle.driver_lookup.specs.SourceView.{source_view};
ghost use Rattle.driver_styles.specs.PreparedView.{prepared_view};
ghost use Rattle.driver_styles.specs.TablesView.{locales_of};
ghost use Rattle.layout_context.specs.WritingState.{state, begun};
ghost use Rattle.csl_writing.specs.ContextSource.{context_source};

use csl_base::element::InheritableNameOptions;
use csl_base::locale::{Locale, LocaleCode};
use csl_base::style::IndependentStyle;
use driver_lookup::lookup::StyleLocales;
use driver_lookup::properties::CiteProperties;
use driver_styles::prepared::PreparedStyle;
use driver_styles::terms::TermTables;
use layout_context::context::{Context, begin_cite};
use std::alloc::{AllocError, Global};

/// A style, with the locales that it is written in.
#[derive(Clone, Copy)]
pub struct StyleContext<'a> {
    pub(crate) locales: StyleLocales<'a>,
}

impl<'a> StyleContext<'a> {
    /// The style in this locale, or in its own where there is none; `files` are asked for what the
    /// style's locales don't have.
    pub fn new(
        style: &'a IndependentStyle,
        locale: Option<&'a LocaleCode>,
        files: &'a [Locale],
    ) -> StyleContext<'a>
        ensures { context_source result
            ≡ record {
              style = style_view style.now;
              locale = option_map (λ code. code_view code.now) locale.entry;
              files = map locale_view files.now;
            } }
    {
        StyleContext {
            locales: StyleLocales::new(style, locale, files),
        }
    }

    /// The context that `new` makes of the same style and files, which were prepared.
    pub fn of_prepared<'s: 'a>(
        prepared: &'a PreparedStyle<'s>,
        locale: Option<&'a LocaleCode>,
        files: &'a TermTables<'s>,
    ) -> StyleContext<'a>
        ensures { context_source result
            ≡ record {
              style = prepared_view prepared.now;
              locale = option_map (λ code. code_view code.now) locale.entry;
              files = map locale_view (locales_of files.now);
            } }
    {
        StyleContext {
            locales: StyleLocales::of_prepared(prepared, locale, files),
        }
    }

    /// The style of these locales.
    pub fn of_locales(locales: StyleLocales<'a>) -> StyleContext<'a>
        ensures { context_source result ≡ source_view locales.entry }
    {
        StyleContext { locales }
    }

    /// The code of the locale in use: the one that was asked for, else the style's own, else
    /// `en-US`.
    pub fn locale(&self) -> &'a str
        ensures { result.now ≡ found.locale_in_use (context_source self.now) }
    {
        self.locales.locale()
    }

    /// The first answer that the closure gives of the locales that are asked, in this order: of
    /// the style's own the first of the locale in use, of its base language, and of no language;
    /// then of the files the first of the locale in use, of its primary dialect, and of `en-US`.
    /// `None` where it answers `None` of each. The closure has to accept any locale. The look-up
    /// takes no memory.
    pub fn lookup_locale<F: Fn(&'a Locale) -> Option<R> + Drop, R>(&self, f: F) -> Option<R>
        requires { F.IsAlwaysCallable f }
        ensures { FirstAnswer (Gives F.Fn f)
            (found.asked (found.lookup (context_source self.now))) result }
    {
        self.locales.lookup_locale(f)
    }

    /// Whether a mark (`.`, `,`, `;`, `!` or `?`) goes before a closing quote: as the first locale
    /// says that is asked and says anything of it, else not.
    pub fn punctuation_in_quotes(&self) -> bool
        ensures { result ≡ found.punctuation_in_quotes (found.lookup (context_source self.now)) }
    {
        self.locales.punctuation_in_quotes()
    }

    /// A context for a cite of this entry, in which nothing is written, under these name options.
    ///
    /// # Errors
    ///
    /// Where memory is refused.
    pub fn ctx<T, P: Drop>(
        &self,
        alloc: Global,
        entry: &'a T,
        properties: CiteProperties<'a, P>,
        options: &'a InheritableNameOptions,
    ) -> Result<Context<'a, T, P>, AllocError>
        ensures empty { IfOk result
            (λ context. state context.writing ≡ begun (options_view options.now)) }
        ensures style { IfOk result (λ context. context.style ≡ self.now.locales) }
        ensures entry { IfOk result (λ context. context.entry.now ≡ entry.now) }
        ensures properties { IfOk result (λ context. context.properties ≡ properties.entry) }
    {
        begin_cite(alloc, &self.locales, entry, properties, options)
    }
}
