//! The context in which a cite is written.
ghost use Rattle.std.specs.Prelude.{
  ◌≡◌,
  ◌+◌,
  IsOk,
  OnOk,
  OnErr,
  IfOk,
  length,
  min,
  string_bytes,
  option_map,
};
ghost use Rattle.value_styles.specs.ElementView.{affixes_view, options_view};
ghost use Rattle.driver_lookup.specs.Lookup.{term_of};
ghost use Rattle.driver_lookup.specs.SourceView.{lookup_view};
ghost use Rattle.layout_context.specs.WritingState.{
  state,
  heights,
  begun,
  with_space,
  stripping,
  not_stripping,
};
ghost use Rattle.layout_context.specs.Wording.{
  pushed,
  quotes_opened,
  quotes_closed,
  pulling_if_asked,
  chunks_pushed,
  linked,
  marked,
  suffixed,
};
ghost use Rattle.layout_context.specs.ContextView.{words_of, locator_of, IsOfSameCite};

use crate::token::DisplayLoc;
use crate::wording;
use crate::writing::WritingContext;
use csl_base::element::{Affixes, InheritableNameOptions};
use csl_base::entry::ChunkedString;
use csl_base::taxonomy::{Term, TermForm};
use driver_lookup::lookup::StyleLocales;
use driver_lookup::properties::CiteProperties;
use std::alloc::{AllocError, Global};
use std::fmt;

/// The context in which a cite is written: its entry, its properties, the style in its locales, and
/// what is written. After a refusal for memory it may only be dropped.
#[derive(Drop)]
pub struct Context<'a, T, P> {
    entry: &'a T,
    properties: CiteProperties<'a, P>,
    style: StyleLocales<'a>,
    /// What is written.
    pub writing: WritingContext<'a>,
}

/// A context for a cite of this entry, in which nothing is written, under these name options.
///
/// # Errors
///
/// Where memory is refused.
pub fn begin_cite<'a, T, P: Drop>(
    alloc: Global,
    style: &StyleLocales<'a>,
    entry: &'a T,
    properties: CiteProperties<'a, P>,
    options: &'a InheritableNameOptions,
) -> Result<Context<'a, T, P>, AllocError>
    ensures empty { IfOk result
        (λ context. state context.writing ≡ begun (options_view options.now)) }
    ensures style { IfOk result (λ context. context.style ≡ style.now) }
    ensures entry { IfOk result (λ context. context.entry.now ≡ entry.now) }
    ensures properties { IfOk result (λ context. context.properties ≡ properties.entry) }
{
    let writing = WritingContext::new(alloc, options)?;
    Ok(Context {
        entry,
        properties,
        style: *style,
        writing,
    })
}

impl<'a, T, P> Context<'a, T, P> {
    /// The term in words: the first of the form, and the forms that stand in for it, that some
    /// locale has (CSL 1.0.2, terms). The variable `locator` means the term of what the cite's
    /// locator counts. `None` where no locale has it, and where the term that is found has no words
    /// in this number.
    pub fn term(&self, term: Term, form: TermForm, plural: bool) -> Option<&'a str>
        ensures { option_map (λ s. s.now) result
            ≡ term_of (words_of self.now) (locator_of self.now) term form plural }
    {
        let locator = self.properties.speculative.locator.as_ref();
        let locator = locator.map(|locator| locator.0);
        self.style.term(locator, term, form, plural)
    }

    /// Adds a space where no space or no-break space ends what was written: the buffer, or where
    /// that is empty the last text of the top frame, if it has one.
    ///
    /// # Errors
    ///
    /// Where memory is refused.
    pub fn ensure_space(&mut self) -> Result<(), AllocError>
        ensures done { OnOk result (state self.new.writing ≡ with_space (state self.old.writing)) }
        ensures heights { heights (state self.new.writing) ≡ heights (state self.old.writing) }
        ensures same { IsOfSameCite self.old self.new }
    {
        self.writing.ensure_space()
    }

    /// Writes `s`. Where it begins with a mark that closing quotes may pull in, the mark moves
    /// before the quote that stands there. White space before `s` goes where `s` begins with white
    /// space, a period, a comma or a closing bracket; punctuation that `s` repeats is written once;
    /// periods of `s` that are to be stripped are left out.
    ///
    /// # Errors
    ///
    /// Where memory is refused.
    pub fn push_str(&mut self, s: &str) -> Result<(), AllocError>
        ensures done { OnOk result (state self.new.writing
            ≡ pushed (words_of self.old) s.now (state self.old.writing)) }
        ensures heights { heights (state self.new.writing) ≡ heights (state self.old.writing) }
        ensures same { IsOfSameCite self.old self.new }
    {
        wording::push_str(&self.style, &mut self.writing, s)
    }

    /// Writes a text in pieces: a verbatim one as it stands, a formula as markup.
    ///
    /// # Errors
    ///
    /// Where memory is refused.
    pub fn push_chunked(&mut self, text: &ChunkedString) -> Result<(), AllocError>
        ensures done { OnOk result (state self.new.writing
            ≡ chunks_pushed (words_of self.old) text.now.0 (state self.old.writing)) }
        ensures heights { heights (state self.new.writing) ≡ heights (state self.old.writing) }
        ensures same { IsOfSameCite self.old self.new }
    {
        wording::push_chunked(&self.style, &mut self.writing, text)
    }

    /// Adds a link of the text to the URL.
    ///
    /// # Errors
    ///
    /// Where memory is refused.
    pub fn push_link(&mut self, text: &ChunkedString, url: String) -> Result<(), AllocError>
        ensures done { OnOk result (state self.new.writing
            ≡ linked text.now.0 (string_bytes url) (state self.old.writing)) }
        ensures heights { heights (state self.new.writing) ≡ heights (state self.old.writing) }
        ensures same { IsOfSameCite self.old self.new }
    {
        wording::push_link(&mut self.writing, text, url)
    }

    /// Adds a mark for what the caller puts in for the cite at index `cite_idx`.
    ///
    /// # Errors
    ///
    /// Where memory is refused.
    pub fn push_transparent(&mut self, cite_idx: usize) -> Result<(), AllocError>
        ensures done { OnOk result
            (state self.new.writing ≡ marked cite_idx (state self.old.writing)) }
        ensures heights { heights (state self.new.writing) ≡ heights (state self.old.writing) }
        ensures same { IsOfSameCite self.old self.new }
    {
        wording::push_transparent(&mut self.writing, cite_idx)
    }

    /// Writes the opening quote, or inside quotes the inner one; nothing without a term.
    ///
    /// # Errors
    ///
    /// Where memory is refused.
    pub fn push_quotes(&mut self) -> Result<(), AllocError>
        ensures done { OnOk result (state self.new.writing
            ≡ quotes_opened (words_of self.old) (state self.old.writing)) }
        ensures heights { heights (state self.new.writing) ≡ heights (state self.old.writing) }
        ensures same { IsOfSameCite self.old self.new }
    {
        wording::push_quotes(&self.style, &mut self.writing)
    }

    /// Writes the closing quote of the innermost open one, and the outer one where none is open;
    /// nothing without a term.
    ///
    /// # Errors
    ///
    /// Where memory is refused.
    pub fn pop_quotes(&mut self) -> Result<(), AllocError>
        ensures done { OnOk result (state self.new.writing
            ≡ quotes_closed (words_of self.old) (state self.old.writing)) }
        ensures heights { heights (state self.new.writing) ≡ heights (state self.old.writing) }
        ensures same { IsOfSameCite self.old self.new }
    {
        wording::pop_quotes(&self.style, &mut self.writing)
    }

    /// Lets the closing quotes that stand here pull in the punctuation that is written next, where
    /// the locale has punctuation inside quotes.
    pub fn may_pull_punctuation(&mut self)
        ensures done { state self.new.writing
            ≡ pulling_if_asked (words_of self.old) (state self.old.writing) }
        ensures heights { heights (state self.new.writing) ≡ heights (state self.old.writing) }
        ensures same { IsOfSameCite self.old self.new }
    {
        wording::may_pull_punctuation(&self.style, &mut self.writing);
    }

    /// Leaves periods out from here on, where that is asked for; else nothing changes.
    pub fn may_strip_periods(&mut self, strip: bool)
        ensures done { state self.new.writing ≡ stripping strip (state self.old.writing) }
        ensures heights { heights (state self.new.writing) ≡ heights (state self.old.writing) }
        ensures same { IsOfSameCite self.old self.new }
    {
        wording::may_strip_periods(&mut self.writing, strip);
    }

    /// Leaves no period out from here on.
    pub fn stop_stripping_periods(&mut self)
        ensures done { state self.new.writing ≡ not_stripping (state self.old.writing) }
        ensures heights { heights (state self.new.writing) ≡ heights (state self.old.writing) }
        ensures same { IsOfSameCite self.old self.new }
    {
        wording::stop_stripping_periods(&mut self.writing);
    }

    /// Closes the frame that a prefix began, with the suffix unless the text ends with it. Where
    /// the frame shows nothing but the prefix, it is dropped. `prefix` is what `apply_prefix` gave;
    /// frames that were opened behind it are closed before.
    ///
    /// # Errors
    ///
    /// Where memory is refused; the stacks are as high as before.
    pub fn apply_suffix(
        &mut self,
        affixes: &Affixes,
        prefix: (DisplayLoc, usize),
    ) -> Result<(), AllocError>
        requires { prefix.0.frames + 1 ≡ length (state self.old.writing).frames }
        ensures done { OnOk result (state self.new.writing
            ≡ suffixed (words_of self.old) (affixes_view affixes.now).suffix
            prefix.0.formats prefix.1
            (state self.old.writing)) }
        ensures height { OnOk result (length (state self.new.writing).frames ≡ prefix.0.frames) }
        ensures format_height { OnOk result (length (state self.new.writing).formats
            ≡ min prefix.0.formats (length (state self.old.writing).formats)) }
        ensures refused { OnErr result
            (heights (state self.new.writing) ≡ heights (state self.old.writing)) }
        ensures same { IsOfSameCite self.old self.new }
    {
        wording::apply_suffix(
            &self.style,
            &mut self.writing,
            affixes.suffix.as_deref(),
            prefix,
        )
    }
}

impl<'a, T, P> fmt::Write for Context<'a, T, P> {
    ghost use Rattle.std.specs.Prelude.{◌≡◌};
    ghost use Rattle.layout_context.specs.WritingState.{state};
    ghost use Rattle.layout_context.specs.Wording.{pushed};
    ghost use Rattle.layout_context.specs.ContextView.{words_of, IsOfSameCite};

    ghost write_str_gives = { λ c s d. (state d.writing ≡ pushed (words_of c) s (state c.writing)) × IsOfSameCite c d };

    /// Writes `s` as `push_str` does. Fails where memory is refused.
    fn write_str(&mut self, s: &str) -> fmt::Result
        ensures ok { IsOk result → (state self.new.writing
            ≡ pushed (words_of self.old) s.now (state self.old.writing))
            × IsOfSameCite self.old self.new }
        ensures heights { heights (state self.new.writing) ≡ heights (state self.old.writing) }
        ensures same { IsOfSameCite self.old self.new }
    {
        match self.push_str(s) {
            Ok(()) => Ok(()),
            Err(_) => Err(fmt::Error),
        }
    }
}
