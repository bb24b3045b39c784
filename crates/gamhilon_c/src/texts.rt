//! What comes of texts goes into the caller's buffer.
ghost use Rattle.gamhilon_c.specs.OfTexts.{HandsOutOfTexts};

use crate::buffer::place;
use cite_inputs::error::CallError;

/// Puts what comes of texts into the buffer, if there is something and the buffer is as long, and
/// gives its length.
pub(crate) fn hand_out_of_texts(
    text: &Result<String, CallError>,
    buffer: &mut [u8],
    needed: &mut usize,
) -> u32
    ensures { HandsOutOfTexts text.now result buffer.old buffer.new needed.new }
{
    match text {
        Ok(text) => place(text.as_bytes(), buffer, needed),
        Err(error) => {
            *needed = 0;
            u32::from(error.status())
        }
    }
}
