//! Calls of a writing context that rendering makes and its users don't.
ghost use Rattle.std.specs.Prelude.{◌≡◌, ◌+◌, OnOk, OnErr, IfOk, length, option_map};
ghost use Rattle.layout_context.specs.Steps.{term_text};
ghost use Rattle.layout_context.specs.WritingState.{
  state,
  heights,
  prefixed,
  stripping,
  not_stripping,
};

use crate::token::DisplayLoc;
use crate::writing::WritingContext;
use std::alloc::{AllocError, Global};

/// Opens a frame that begins with this text, as it stands. Gives the frame's token and the length
/// of the text in bytes, 0 where there is none.
///
/// # Errors
///
/// Where memory is refused; the stacks are as high as before.
#[tactic(auto, unfolding(crate::specs::WritingState::prefixed, crate::specs::WritingState::opened, crate::specs::WritingState::formatted, crate::specs::WritingState::saved))]
pub fn begin_prefix(
    writing: &mut WritingContext<'_>,
    prefix: Option<&str>,
) -> Result<(DisplayLoc, usize), AllocError>
    ensures frames { IfOk result (λ begun. begun.0.frames ≡ length (state writing.old).frames) }
    ensures formats { IfOk result (λ begun. begun.0.formats ≡ length (state writing.old).formats) }
    ensures offset { IfOk result (λ begun. begun.1
        ≡ length (term_text (option_map (λ s. s.now) prefix.entry))) }
    ensures done { OnOk result (state writing.new
        ≡ prefixed (option_map (λ s. s.now) prefix.entry) (state writing.old)) }
    ensures height { OnOk result
        (length (state writing.new).frames ≡ length (state writing.old).frames + 1) }
    ensures same_formats { OnOk result (length (state writing.new).formats
        ≡ length (state writing.old).formats) }
    ensures refused { OnErr result (heights (state writing.new) ≡ heights (state writing.old)) }
{
    let loc = writing.open()?;
    let Some(prefix) = prefix else {
        return Ok((loc, 0));
    };
    if writing.buf.push_str(prefix).is_err() {
        writing.frames.discard();
        return Err(AllocError);
    }
    Ok((loc, prefix.len()))
}

/// Leaves periods out from here on, where that is asked for.
pub fn may_strip_periods(writing: &mut WritingContext<'_>, asked: bool)
    ensures done { state writing.new ≡ stripping asked (state writing.old) }
    ensures heights { heights (state writing.new) ≡ heights (state writing.old) }
{
    if asked {
        writing.stripping = true;
    }
}

/// Leaves no period out from here on.
pub fn stop_stripping_periods(writing: &mut WritingContext<'_>)
    ensures { state writing.new ≡ not_stripping (state writing.old) }
{
    writing.stripping = false;
}

/// What a context takes memory from.
pub fn allocator(writing: &WritingContext<'_>) -> Global {
    writing.alloc
}
