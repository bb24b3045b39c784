//! Text that goes into the caller's buffer.
ghost use Rattle.std.specs.Prelude.{◌≡◌, length};
ghost use Rattle.gamhilon_c.specs.Called.{HandsOut, PlacesText};

use document_answer::error::RunError;

/// The buffer begins with the text, or there is nothing to refuse.
pub(crate) const ANSWERED: u32 = 0;

/// The text is longer than the buffer.
pub(crate) const BUFFER_TOO_SMALL: u32 = 6;

/// Puts the text at the beginning of the buffer, if the buffer is as long, and gives its length.
pub(crate) fn place(text: &[u8], buffer: &mut [u8], needed: &mut usize) -> u32
    ensures { PlacesText text.now result buffer.old buffer.new needed.new }
{
    let length = text.len();
    *needed = length;
    if length > buffer.len() {
        return BUFFER_TOO_SMALL;
    }
    buffer[..length].copy_from_slice(text);
    ANSWERED
}

/// Puts the text into the buffer, if there is one and the buffer is as long, and gives its length.
pub(crate) fn hand_out(
    text: &Result<String, RunError>,
    buffer: &mut [u8],
    needed: &mut usize,
) -> u32
    ensures { HandsOut text.now result buffer.old buffer.new needed.new }
{
    match text {
        Ok(text) => place(text.as_bytes(), buffer, needed),
        Err(error) => {
            *needed = 0;
            u32::from(error.status())
        }
    }
}
