//! The writing context: texts that are written one after another into trees that are still open.
ghost use Rattle.std.specs.Prelude.{
  ◌≡◌,
  ◌+◌,
  ◌<◌,
  ◌≤◌,
  OnOk,
  OnErr,
  IfOk,
  length,
  min,
  slice_get,
  Some,
  false,
  option_map,
};
ghost use Rattle.std.specs.Str.{IsCharBoundary};
ghost use Rattle.value_trees.specs.ChildView.{child_view};
ghost use Rattle.value_styles.specs.ElementView.{affixes_view, options_view};
ghost use Rattle.layout_context.specs.Edits.{edited};
ghost use Rattle.layout_context.specs.Quotes.{quotes_view};
ghost use Rattle.std.specs.Bool.{OnTrue};
ghost use Rattle.std.specs.Option.{option_map_or};
ghost use Rattle.layout_context.specs.Steps.{ends_quoted, pulled, term_text};
ghost use Rattle.value_sources.specs.Formatting.{nothing_asked};
ghost use Rattle.layout_context.specs.WritingState.{
  state,
  heights,
  begun,
  is_saved,
  saved,
  on_text_before,
  trimmed_for,
  unrepeated_for,
  appended,
  quoted_text,
  on_quoted_text,
  may_pull,
  after_pull,
  left_by_pull,
  written,
  with_child,
  formatting,
  after_push_str,
  verbatim,
  with_space,
  asks_nothing,
  formatted,
  cut_formats,
  unformatted,
  opened,
  closed_elem,
  discarded,
  prefixed,
  has_content_since,
  ends_so,
  pulling,
  deeper,
  less_deep,
  delimited,
  undelimited,
  with_options,
  without_options,
  flushed,
};

pub(crate) mod rendering;

use crate::flat::FlatFrames;
use crate::pile::Pile;
use crate::spare_memory::SpareMemory;
use crate::text::{
    ClosingQuotes, add_space, ends_with, has_letter, opens_tight, opens_with_mark, pull,
    push_without_periods,
};
use crate::token::{DelimiterIdx, DisplayLoc, FormatIdx, Heights};
use crate::tree_end::Edit;
use crate::writing::rendering::begin_prefix;
use csl_base::elem::{ElemChild, ElemChildren, ElemMeta};
use csl_base::element::{Affixes, InheritableNameOptions};
use csl_base::formatting::{Display, Formatting, StyleFormatting};
use std::alloc::{AllocError, Global};

/// Texts that are written one after another, into trees that are still open. A refusal for memory
/// leaves its stacks as high as they were; it may then only be dropped.
#[derive(Drop)]
pub struct WritingContext<'a> {
    alloc: Global,
    // The text that is not yet in a frame.
    buf: String,
    // The trees that are open, the innermost on top.
    frames: FlatFrames,
    formats: Pile<Formatting>,
    delimiters: Pile<Option<&'a str>>,
    name_options: Pile<&'a InheritableNameOptions>,
    // Whether closing quotes may pull punctuation in.
    pulling: bool,
    // Whether periods are left out.
    stripping: bool,
    // How many quotes are open.
    quote_depth: usize,
}

impl<'a> WritingContext<'a> {
    /// A context in which nothing is written, under these name options.
    ///
    /// # Errors
    ///
    /// Where memory is refused.
    pub fn new(
        alloc: Global,
        options: &'a InheritableNameOptions,
    ) -> Result<WritingContext<'a>, AllocError>
        ensures { IfOk result (λ context. state context ≡ begun (options_view options.now)) }
    {
        let memory = SpareMemory::new(alloc)?;
        Ok(WritingContext::in_spare_memory(alloc, options, memory))
    }

    /// The same in the memory that another context left.
    pub fn in_spare_memory(
        alloc: Global,
        options: &'a InheritableNameOptions,
        memory: SpareMemory,
    ) -> WritingContext<'a>
        ensures { state result ≡ begun (options_view options.now) }
    {
        let SpareMemory {
            mut text,
            children,
            counts,
        } = memory;
        text.clear();
        WritingContext {
            alloc,
            buf: text,
            frames: FlatFrames::within(children, counts),
            formats: Pile::new(alloc, Formatting::default()),
            delimiters: Pile::new(alloc, None),
            name_options: Pile::new(alloc, options),
            pulling: false,
            stripping: false,
            quote_depth: 0,
        }
    }

    /// How high its stacks are.
    pub fn heights(&self) -> Heights
        ensures frames { result.frames ≡ length (state self.now).frames }
        ensures formats { result.formats ≡ length (state self.now).formats }
        ensures delimiters { result.delimiters ≡ length (state self.now).delimiters }
        ensures name_options { result.name_options ≡ length (state self.now).name_options }
    {
        Heights {
            frames: self.frames.len(),
            formats: self.formats.len(),
            delimiters: self.delimiters.len(),
            name_options: self.name_options.len(),
        }
    }

    // Whether the buffer is empty.
    fn is_saved(&self) -> bool
        ensures { result ≡ is_saved (state self.now) }
    {
        self.buf.as_str().is_empty()
    }

    // Moves the buffer to the end of the top frame, joined to a text of its formatting.
    #[tactic(auto, unfolding(crate::specs::WritingState::saved))]
    fn save(&mut self) -> Result<(), AllocError>
        ensures done { OnOk result (state self.new ≡ saved (state self.old)) }
        ensures heights { heights (state self.new) ≡ heights (state self.old) }
    {
        if self.is_saved() {
            return Ok(());
        }
        self.save_text()
    }

    // The same of a buffer that isn't empty.
    #[tactic(auto, unfolding(crate::specs::WritingState::saved))]
    fn save_text(&mut self) -> Result<(), AllocError>
        requires { is_saved (state self.old) ≡ false }
        ensures done { OnOk result (state self.new ≡ saved (state self.old)) }
        ensures heights { heights (state self.new) ≡ heights (state self.old) }
    {
        let formatting = self.formatting();
        self.frames
            .join_text(self.alloc, self.buf.as_str(), formatting)?;
        self.buf.clear();
        Ok(())
    }

    fn edit_before(&mut self, edit: &Edit<'_>)
        ensures done { state self.new ≡ on_text_before (edited edit.now) (state self.old) }
        ensures heights { heights (state self.new) ≡ heights (state self.old) }
    {
        if self.is_saved() {
            self.frames.edit_filled(edit);
        } else {
            edit.apply(&mut self.buf);
        }
    }

    fn trim_before(&mut self, s: &str)
        ensures done { state self.new ≡ trimmed_for s.now (state self.old) }
        ensures heights { heights (state self.new) ≡ heights (state self.old) }
    {
        if opens_tight(s) {
            self.edit_before(&Edit::TrimEnd);
        }
    }

    fn take_repeated(&mut self, s: &str)
        ensures done { state self.new ≡ unrepeated_for s.now (state self.old) }
        ensures heights { heights (state self.new) ≡ heights (state self.old) }
    {
        if !has_letter(s) {
            self.edit_before(&Edit::TakeEnding(s.trim_end()));
        }
    }

    fn append(&mut self, s: &str) -> Result<(), AllocError>
        ensures done { OnOk result (state self.new ≡ appended s.now (state self.old)) }
        ensures heights { heights (state self.new) ≡ heights (state self.old) }
    {
        if self.stripping {
            push_without_periods(&mut self.buf, s)
        } else {
            self.buf.push_str(s)
        }
    }

    // Puts a mark before the closing quote of the text that may pull it in. Returns whether there
    // is one.
    fn pull_mark(&mut self, quotes: ClosingQuotes<'_>, mark: &str) -> Result<bool, AllocError>
        ensures moved { IfOk result (λ moved. moved
            ≡ option_map_or (ends_quoted (quotes_view quotes.entry))
            (quoted_text (state self.old)) false) }
        ensures done { OnOk result (state self.new
            ≡ on_quoted_text (pulled (quotes_view quotes.entry) mark.now) (state self.old)) }
        ensures heights { heights (state self.new) ≡ heights (state self.old) }
    {
        if self.is_saved() {
            self.frames.pull_in_filled(self.alloc, quotes, mark)
        } else {
            pull(&mut self.buf, quotes, mark)
        }
    }

    // Pulls the first character of `s` into the quotes before it, where it may be. Gives what is
    // left.
    fn pull<'s>(&mut self, quotes: ClosingQuotes<'_>, s: &'s str) -> Result<&'s str, AllocError>
        ensures left { IfOk result (λ left. left.now
            ≡ left_by_pull (quotes_view quotes.entry) s.now (state self.old)) }
        ensures done { OnOk result (state self.new
            ≡ after_pull (quotes_view quotes.entry) s.now (state self.old)) }
        ensures heights { heights (state self.new) ≡ heights (state self.old) }
    {
        if !self.may_pull(s) {
            return Ok(s);
        }
        let (mark, left) = s.split_at(1);
        if self.pull_mark(quotes, mark)? {
            Ok(left)
        } else {
            Ok(s)
        }
    }

    /// Whether `s` begins with a mark that closing quotes may pull in.
    pub(crate) fn may_pull(&self, s: &str) -> bool
        ensures value { result ≡ may_pull s.now (state self.now) }
        ensures cut { OnTrue result (IsCharBoundary s.now 1) }
    {
        self.pulling && opens_with_mark(s)
    }

    /// Writes `s` where nothing is pulled.
    ///
    /// # Errors
    ///
    /// Where memory is refused.
    #[tactic(auto, unfolding(crate::specs::WritingState::written))]
    pub(crate) fn write(&mut self, s: &str) -> Result<(), AllocError>
        ensures done { OnOk result (state self.new ≡ written s.now (state self.old)) }
        ensures heights { heights (state self.new) ≡ heights (state self.old) }
    {
        self.trim_before(s);
        self.take_repeated(s);
        self.append(s)?;
        self.pulling = false;
        Ok(())
    }

    /// Writes `s`. Where it begins with a mark that closing quotes may pull in, the mark moves
    /// before the quote that stands there. White space before `s` goes where `s` begins with white
    /// space, a period, a comma or a closing bracket; punctuation that `s` repeats is written once.
    ///
    /// # Errors
    ///
    /// Where memory is refused.
    #[tactic(auto, unfolding(crate::specs::WritingState::after_push_str))]
    pub(crate) fn push_str(&mut self, quotes: ClosingQuotes<'_>, s: &str) -> Result<(), AllocError>
        ensures done { OnOk result (state self.new
            ≡ after_push_str (quotes_view quotes.entry) s.now (state self.old)) }
        ensures heights { heights (state self.new) ≡ heights (state self.old) }
    {
        let left = self.pull(quotes, s)?;
        self.write(left)
    }

    /// Appends `s` as it stands.
    ///
    /// # Errors
    ///
    /// Where memory is refused.
    #[tactic(auto, unfolding(crate::specs::WritingState::verbatim))]
    pub(crate) fn push_verbatim(&mut self, s: &str) -> Result<(), AllocError>
        ensures done { OnOk result (state self.new ≡ verbatim s.now (state self.old)) }
        ensures heights { heights (state self.new) ≡ heights (state self.old) }
    {
        self.buf.push_str(s)?;
        self.pulling = false;
        Ok(())
    }

    /// Adds a child to the top frame, behind what was written.
    ///
    /// # Errors
    ///
    /// Where memory is refused.
    #[tactic(auto, unfolding(crate::specs::WritingState::with_child))]
    pub(crate) fn push_child(&mut self, child: ElemChild) -> Result<(), AllocError>
        ensures done { OnOk result
            (state self.new ≡ with_child (child_view child) (saved (state self.old))) }
        ensures heights { heights (state self.new) ≡ heights (state self.old) }
    {
        self.save()?;
        self.frames.push_child(child)
    }

    /// The formatting in which texts are written now.
    pub(crate) fn formatting(&self) -> Formatting
        ensures { result ≡ formatting (state self.now) }
    {
        self.formats.top()
    }

    /// Makes sure that a space or a no-break space ends what was written: the buffer, or where that
    /// is empty the last text of the top frame, if it has one.
    ///
    /// # Errors
    ///
    /// Where memory is refused.
    #[tactic(auto, unfolding(crate::specs::WritingState::with_space))]
    pub fn ensure_space(&mut self) -> Result<(), AllocError>
        ensures done { OnOk result (state self.new ≡ with_space (state self.old)) }
        ensures heights { heights (state self.new) ≡ heights (state self.old) }
    {
        if self.is_saved() {
            self.frames.space_last_text()
        } else {
            add_space(&mut self.buf)
        }
    }

    /// Changes the formatting to what is asked for, above what was written. A format that asks for
    /// nothing changes nothing.
    ///
    /// # Errors
    ///
    /// Where memory is refused; the stacks are as high as before.
    #[tactic(auto, unfolding(crate::specs::WritingState::formatted))]
    pub fn push_format(&mut self, format: StyleFormatting) -> Result<FormatIdx, AllocError>
        ensures token { IfOk result (λ token. token.height ≡ length (state self.old).formats) }
        ensures done { OnOk result (state self.new ≡ formatted format (state self.old)) }
        ensures refused { OnErr result (heights (state self.new) ≡ heights (state self.old)) }
        ensures cut_back { heights (cut_formats (length (state self.old).formats) (state self.new))
            ≡ heights (state self.old) }
    {
        let height = self.formats.len();
        if asks_nothing(format) {
            return Ok(FormatIdx { height });
        }
        self.push_asked(format)?;
        Ok(FormatIdx { height })
    }

    // The same of a format that asks for something.
    #[tactic(auto, unfolding(crate::specs::WritingState::formatted))]
    fn push_asked(&mut self, format: StyleFormatting) -> Result<(), AllocError>
        requires { asks_nothing format ≡ false }
        ensures done { OnOk result (state self.new ≡ formatted format (state self.old)) }
        ensures refused { OnErr result (heights (state self.new) ≡ heights (state self.old)) }
        ensures cut_back { heights (cut_formats (length (state self.old).formats) (state self.new))
            ≡ heights (state self.old) }
    {
        self.save()?;
        let formatting = self.formatting().apply(format);
        self.formats.push(formatting)?;
        Ok(())
    }

    /// Goes back to the formatting before a push. A stack of formats that isn't higher stays.
    ///
    /// # Errors
    ///
    /// Where memory is refused; the stacks are as high as before.
    #[tactic(auto, unfolding(crate::specs::WritingState::unformatted))]
    pub fn pop_format(&mut self, token: FormatIdx) -> Result<(), AllocError>
        ensures done { OnOk result (state self.new ≡ unformatted token.height (state self.old)) }
        ensures refused { OnErr result (heights (state self.new) ≡ heights (state self.old)) }
    {
        if token.height < self.formats.len() {
            self.save()?;
            self.formats.cut(token.height);
        }
        Ok(())
    }

    /// Opens a frame, in the formatting that is asked for.
    ///
    /// # Errors
    ///
    /// Where memory is refused; the stacks are as high as before.
    #[tactic(auto, unfolding(crate::specs::WritingState::opened, crate::specs::WritingState::formatted))]
    pub fn push_elem(&mut self, format: StyleFormatting) -> Result<DisplayLoc, AllocError>
        ensures frames { IfOk result (λ loc. loc.frames ≡ length (state self.old).frames) }
        ensures formats { IfOk result (λ loc. loc.formats ≡ length (state self.old).formats) }
        ensures done { OnOk result (state self.new ≡ opened format (state self.old)) }
        ensures height { OnOk result
            (length (state self.new).frames ≡ length (state self.old).frames + 1) }
        ensures more_formats { OnOk result
            (length (state self.old).formats ≤ length (state self.new).formats) }
        ensures refused { OnErr result (heights (state self.new) ≡ heights (state self.old)) }
    {
        if asks_nothing(format) {
            return self.open();
        }
        self.save()?;
        let frames = self.frames.len();
        let formats = self.push_format(format)?.height;
        if self.frames.open().is_err() {
            self.formats.cut(formats);
            return Err(AllocError);
        }
        Ok(DisplayLoc { frames, formats })
    }

    // Opens a frame in the formatting of before.
    #[tactic(auto, unfolding(crate::specs::WritingState::opened, crate::specs::WritingState::formatted))]
    fn open(&mut self) -> Result<DisplayLoc, AllocError>
        ensures frames { IfOk result (λ loc. loc.frames ≡ length (state self.old).frames) }
        ensures formats { IfOk result (λ loc. loc.formats ≡ length (state self.old).formats) }
        ensures done { OnOk result (state self.new ≡ opened nothing_asked (state self.old)) }
        ensures height { OnOk result
            (length (state self.new).frames ≡ length (state self.old).frames + 1) }
        ensures same_formats { OnOk result (length (state self.new).formats
            ≡ length (state self.old).formats) }
        ensures refused { OnErr result (heights (state self.new) ≡ heights (state self.old)) }
    {
        self.save()?;
        let loc = DisplayLoc {
            frames: self.frames.len(),
            formats: self.formats.len(),
        };
        self.frames.open()?;
        Ok(loc)
    }

    /// Closes the top frame: it goes to the one below as an element, where it is set off or stands
    /// for something, and else as its children. The formatting goes back to that before the frame.
    ///
    /// # Errors
    ///
    /// Where memory is refused; the stacks are as high as before.
    #[tactic(auto, unfolding(crate::specs::WritingState::closed_elem))]
    pub fn commit_elem(
        &mut self,
        loc: DisplayLoc,
        display: Option<Display>,
        meta: Option<ElemMeta>,
    ) -> Result<(), AllocError>
        requires { loc.frames + 1 ≡ length (state self.old).frames }
        ensures done { OnOk result
            (state self.new ≡ closed_elem loc.formats display meta (state self.old)) }
        ensures height { OnOk result (length (state self.new).frames ≡ loc.frames) }
        ensures format_height { OnOk result (length (state self.new).formats
            ≡ min loc.formats (length (state self.old).formats)) }
        ensures refused { OnErr result (heights (state self.new) ≡ heights (state self.old)) }
    {
        self.save()?;
        self.frames.close(display, meta)?;
        self.formats.cut(loc.formats);
        Ok(())
    }

    /// Drops the top frame. The formatting goes back to that before the frame.
    ///
    /// # Errors
    ///
    /// Where memory is refused; the stacks are as high as before.
    #[tactic(auto, unfolding(crate::specs::WritingState::discarded))]
    pub fn discard_elem(&mut self, loc: DisplayLoc) -> Result<(), AllocError>
        requires { loc.frames + 1 ≡ length (state self.old).frames }
        ensures done { OnOk result (state self.new ≡ discarded loc.formats (state self.old)) }
        ensures height { OnOk result (length (state self.new).frames ≡ loc.frames) }
        ensures format_height { OnOk result (length (state self.new).formats
            ≡ min loc.formats (length (state self.old).formats)) }
        ensures refused { OnErr result (heights (state self.new) ≡ heights (state self.old)) }
    {
        self.save()?;
        self.frames.discard();
        self.formats.cut(loc.formats);
        Ok(())
    }

    /// Opens a frame that begins with the prefix, as it stands. Gives the frame's token and the
    /// length of the prefix in bytes, 0 where there is none.
    ///
    /// # Errors
    ///
    /// Where memory is refused; the stacks are as high as before.
    pub fn apply_prefix(&mut self, affixes: &Affixes) -> Result<(DisplayLoc, usize), AllocError>
        ensures frames { IfOk result (λ prefix. prefix.0.frames ≡ length (state self.old).frames) }
        ensures formats { IfOk result
            (λ prefix. prefix.0.formats ≡ length (state self.old).formats) }
        ensures offset { IfOk result (λ prefix. prefix.1
            ≡ length (term_text (affixes_view affixes.now).prefix)) }
        ensures done { OnOk result (state self.new
            ≡ prefixed (affixes_view affixes.now).prefix (state self.old)) }
        ensures height { OnOk result
            (length (state self.new).frames ≡ length (state self.old).frames + 1) }
        ensures same_formats { OnOk result (length (state self.new).formats
            ≡ length (state self.old).formats) }
        ensures refused { OnErr result (heights (state self.new) ≡ heights (state self.old)) }
    {
        begin_prefix(self, affixes.prefix.as_deref())
    }

    /// Whether the top frame, which `apply_prefix` opened, shows anything behind its prefix: a
    /// character of its first text that begins behind the prefix and is not white space, or another
    /// child with content.
    ///
    /// # Errors
    ///
    /// Where memory is refused; the stacks are as high as before.
    #[tactic(auto, unfolding(crate::specs::WritingState::has_content_since))]
    pub fn has_content_since(&mut self, prefix: &(DisplayLoc, usize)) -> Result<bool, AllocError>
        requires { prefix.now.0.frames + 1 ≡ length (state self.old).frames }
        ensures shown { IfOk result
            (λ shown. shown ≡ has_content_since prefix.now.1 (state self.old)) }
        ensures done { OnOk result (state self.new ≡ saved (state self.old)) }
        ensures heights { heights (state self.new) ≡ heights (state self.old) }
    {
        self.save()?;
        Ok(self.frames.top_shows(prefix.1))
    }

    /// Whether the last text of the top frame ends so.
    #[tactic(auto, unfolding(crate::specs::WritingState::ends_so))]
    pub(crate) fn ends_so(&self, ending: &str) -> bool
        ensures { result ≡ ends_so ending.now (state self.now) }
    {
        match self.frames.last_text() {
            Some(last) => ends_with(last.text.as_str(), ending),
            None => false,
        }
    }

    /// Lets closing quotes pull punctuation in, if there is any next.
    pub(crate) fn let_pull(&mut self)
        ensures { state self.new ≡ pulling (state self.old) }
    {
        self.pulling = true;
    }

    /// How many quotes are open.
    pub(crate) fn quote_depth(&self) -> usize
        ensures { result ≡ (state self.now).quote_depth }
    {
        self.quote_depth
    }

    /// One more quote is open. The count stays at its greatest value.
    pub(crate) fn deepen(&mut self)
        ensures { state self.new ≡ deeper (state self.old) }
    {
        self.quote_depth = self.quote_depth.saturating_add(1);
    }

    /// One quote less is open, if there is one.
    pub(crate) fn rise(&mut self)
        ensures { state self.new ≡ less_deep (state self.old) }
    {
        self.quote_depth = self.quote_depth.saturating_sub(1);
    }

    /// Pushes a delimiter upon those before.
    ///
    /// # Errors
    ///
    /// Where memory is refused; nothing changes then.
    pub fn push_delimiter(&mut self, delimiter: Option<&'a str>) -> Result<DelimiterIdx, AllocError>
        ensures token { IfOk result (λ token. token.height ≡ length (state self.old).delimiters) }
        ensures done { OnOk result (state self.new
            ≡ delimited (option_map (λ s. s.now) delimiter.entry) (state self.old)) }
        ensures refused { OnErr result (state self.new ≡ state self.old) }
    {
        let height = self.delimiters.len();
        self.delimiters.push(delimiter)?;
        Ok(DelimiterIdx { height })
    }

    /// Goes back to the delimiters before a push. A stack of delimiters that isn't higher stays.
    pub fn pop_delimiter(&mut self, token: DelimiterIdx)
        ensures { state self.new ≡ undelimited token.height (state self.old) }
    {
        self.delimiters.cut(token.height);
    }

    /// Pushes name options as they are upon those before.
    ///
    /// # Errors
    ///
    /// Where memory is refused; nothing changes then.
    pub fn push_name_options(
        &mut self,
        options: &'a InheritableNameOptions,
    ) -> Result<(), AllocError>
        ensures done { OnOk result (state self.new
            ≡ with_options (options_view options.now) (state self.old)) }
        ensures refused { OnErr result (state self.new ≡ state self.old) }
    {
        self.name_options.push(options)?;
        Ok(())
    }

    /// Takes the name options off that were pushed last.
    pub fn pop_name_options(&mut self)
        requires { 1 < length (state self.old).name_options }
        ensures { state self.new ≡ without_options (state self.old) }
    {
        let height = self.name_options.len();
        self.name_options.cut(height - 1);
    }

    /// What was written into the bottom frame; the frames above are dropped.
    ///
    /// # Errors
    ///
    /// Where memory is refused.
    #[tactic(auto, unfolding(crate::specs::WritingState::flushed))]
    pub fn flush(mut self) -> Result<ElemChildren, AllocError>
        requires { length (state self).formats ≡ 1 }
        ensures { IfOk result (λ tree. flushed (state self.entry) ≡ Some tree) }
    {
        self.save()?;
        Ok(self.frames.finish())
    }

    /// The same as a tree that takes no more memory than it needs, and the memory that is left.
    ///
    /// # Errors
    ///
    /// Where memory is refused.
    #[tactic(auto, unfolding(crate::specs::WritingState::flushed))]
    pub fn flush_apart(mut self) -> Result<(ElemChildren, SpareMemory), AllocError>
        requires { length (state self).formats ≡ 1 }
        ensures { IfOk result (λ apart. flushed (state self.entry) ≡ Some apart.0) }
    {
        self.save()?;
        let (tree, children, counts) = self.frames.finish_apart()?;
        let memory = SpareMemory {
            text: self.buf,
            children,
            counts,
        };
        Ok((tree, memory))
    }
}

fn asks_nothing(format: StyleFormatting) -> bool
    ensures { result ≡ asks_nothing format }
{
    format.font_style.is_none()
        && format.font_variant.is_none()
        && format.font_weight.is_none()
        && format.text_decoration.is_none()
        && format.vertical_align.is_none()
}
