//! What a caller asks of a session.
use cite_session::texts::SessionTexts;

/// Something that changes a session.
#[derive(Clone, Copy)]
pub enum Edit<'t> {
    /// A session is opened, in place of the one that there was.
    Open(SessionTexts<'t>),
    /// It is written in another style.
    Style(SessionTexts<'t>),
    /// Items are put.
    Put(&'t [u8]),
    /// Items are removed.
    Remove(&'t [u8]),
    /// Its citations are others.
    Cite(&'t [u8]),
}

/// A text that a session has to hand out.
#[derive(Clone, Copy)]
pub enum Asked {
    /// What changed since the last answer.
    Changes,
    /// All that there is.
    Whole,
    /// What was read otherwise than it stands in the texts.
    Warnings,
    /// What was wrong with the last call that was refused, but for memory.
    Error,
}
