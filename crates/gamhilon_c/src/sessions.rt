//! Sessions.
ghost use Rattle.gamhilon_c.specs.OfSessions.{HandsOutOfSession, IsEditStatus, IsSessionStatus};
ghost use Rattle.gamhilon_c.specs.OfTexts.{HandsText};

use crate::buffer::{ANSWERED, BUFFER_TOO_SMALL, place};
use crate::given::GamhilonText;
use cite_session::texts::SessionTexts;
use session_handle::asking::{Asked, Edit};
use session_handle::error::SessionError;
use session_handle::handle::SessionHandle;
use std::alloc::Global;

/// Opens a session in these texts, in place of the one that there is. Gives the status.
#[unsafe(no_mangle)]
pub extern "C" fn gamhilon_session_open(
    alloc: Global,
    session: &mut SessionHandle,
    style: GamhilonText<'_>,
    locales: GamhilonText<'_>,
    options: GamhilonText<'_>,
) -> u32
    ensures { IsEditStatus result }
{
    let texts = SessionTexts {
        style: style.bytes(),
        locales: locales.bytes(),
        options: options.bytes(),
    };
    edit(alloc, session, Edit::Open(texts))
}

/// From now on the document is written in another style. Gives the status.
#[unsafe(no_mangle)]
pub extern "C" fn gamhilon_session_set_style(
    alloc: Global,
    session: &mut SessionHandle,
    style: GamhilonText<'_>,
    locales: GamhilonText<'_>,
    options: GamhilonText<'_>,
) -> u32
    ensures { IsEditStatus result }
{
    let texts = SessionTexts {
        style: style.bytes(),
        locales: locales.bytes(),
        options: options.bytes(),
    };
    edit(alloc, session, Edit::Style(texts))
}

/// Puts items into the session. Gives the status.
#[unsafe(no_mangle)]
pub extern "C" fn gamhilon_session_put_items(
    alloc: Global,
    session: &mut SessionHandle,
    items: GamhilonText<'_>,
) -> u32
    ensures { IsEditStatus result }
{
    edit(alloc, session, Edit::Put(items.bytes()))
}

/// Removes items from the session. Gives the status.
#[unsafe(no_mangle)]
pub extern "C" fn gamhilon_session_remove_items(
    alloc: Global,
    session: &mut SessionHandle,
    ids: GamhilonText<'_>,
) -> u32
    ensures { IsEditStatus result }
{
    edit(alloc, session, Edit::Remove(ids.bytes()))
}

/// Puts citations in place of those of the session. Gives the status.
#[unsafe(no_mangle)]
pub extern "C" fn gamhilon_session_set_citations(
    alloc: Global,
    session: &mut SessionHandle,
    citations: GamhilonText<'_>,
) -> u32
    ensures { IsEditStatus result }
{
    edit(alloc, session, Edit::Cite(citations.bytes()))
}

/// Puts what changed since the last answer, as JSON, into the buffer, and reports how many bytes
/// that takes. Gives the status.
#[unsafe(no_mangle)]
pub extern "C" fn gamhilon_session_answer(
    alloc: Global,
    session: &mut SessionHandle,
    buffer: &mut [u8],
    needed: &mut usize,
) -> u32
    ensures text { HandsText result buffer.old buffer.new needed.new }
    ensures status { IsSessionStatus result }
{
    hand_out_answer(alloc, session, Asked::Changes, buffer, needed)
}

/// Puts all citations and items of the session, as JSON, into the buffer, and reports how many
/// bytes that takes. Gives the status.
#[unsafe(no_mangle)]
pub extern "C" fn gamhilon_session_whole(
    alloc: Global,
    session: &mut SessionHandle,
    buffer: &mut [u8],
    needed: &mut usize,
) -> u32
    ensures text { HandsText result buffer.old buffer.new needed.new }
    ensures status { IsSessionStatus result }
{
    hand_out_answer(alloc, session, Asked::Whole, buffer, needed)
}

/// Puts what was read otherwise than it stands in the texts, as JSON, into the buffer, and reports
/// how many bytes that takes. Gives the status.
#[unsafe(no_mangle)]
pub extern "C" fn gamhilon_session_warnings(
    alloc: Global,
    session: &mut SessionHandle,
    buffer: &mut [u8],
    needed: &mut usize,
) -> u32
    ensures text { HandsText result buffer.old buffer.new needed.new }
    ensures status { IsSessionStatus result }
{
    let text = session.text(alloc, Asked::Warnings);
    hand_out_of_session(&text, buffer, needed)
}

/// Puts what was wrong with the last call that was refused into the buffer, and reports how many
/// bytes that takes. Gives the status.
#[unsafe(no_mangle)]
pub extern "C" fn gamhilon_session_error(
    alloc: Global,
    session: &mut SessionHandle,
    buffer: &mut [u8],
    needed: &mut usize,
) -> u32
    ensures text { HandsText result buffer.old buffer.new needed.new }
    ensures status { IsSessionStatus result }
{
    let text = session.text(alloc, Asked::Error);
    hand_out_of_session(&text, buffer, needed)
}

/// Closes the session, if one is open.
#[unsafe(no_mangle)]
pub extern "C" fn gamhilon_session_close(alloc: Global, session: &mut SessionHandle) {
    session.close(alloc);
}

/// Changes a session, and gives the status.
fn edit(alloc: Global, session: &mut SessionHandle, edit: Edit<'_>) -> u32
    ensures { IsEditStatus result }
{
    match session.edit(alloc, edit) {
        Ok(()) => ANSWERED,
        Err(error) => u32::from(error.status()),
    }
}

/// Puts an answer into the buffer, and keeps it in the session where the buffer isn't as long.
fn hand_out_answer(
    alloc: Global,
    session: &mut SessionHandle,
    asked: Asked,
    buffer: &mut [u8],
    needed: &mut usize,
) -> u32
    ensures text { HandsText result buffer.old buffer.new needed.new }
    ensures status { IsSessionStatus result }
{
    let text = session.text(alloc, asked);
    let status = hand_out_of_session(&text, buffer, needed);
    keep_answer(alloc, session, status, text);
    status
}

/// Keeps an answer in the session, where it wasn't handed out.
fn keep_answer(
    alloc: Global,
    session: &mut SessionHandle,
    status: u32,
    text: Result<String, SessionError>,
) {
    if let Ok(answer) = text {
        if status == BUFFER_TOO_SMALL {
            session.keep(alloc, answer);
        }
    }
}

/// Puts a text of a session into the buffer, if there is one and the buffer is as long, and gives
/// its length.
fn hand_out_of_session(
    text: &Result<String, SessionError>,
    buffer: &mut [u8],
    needed: &mut usize,
) -> u32
    ensures { HandsOutOfSession text.now result buffer.old buffer.new needed.new }
{
    match text {
        Ok(text) => place(text.as_bytes(), buffer, needed),
        Err(error) => {
            *needed = 0;
            u32::from(error.status())
        }
    }
}
