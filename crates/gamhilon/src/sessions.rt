//! A session does what lines say.
use program_files::error::CommandError;
use program_files::files::unreadable;
use session_lines::lines::LineSession;

/// Answers each line of the standard input by a line.
///
/// # Errors
///
/// `Unreadable`; `Output`; `OutOfMemory`.
pub(crate) fn answer_lines(rt: &(impl Input + Print + AllocGlobal)) -> Result<(), CommandError> {
    let mut session = LineSession::new();
    answer_all(rt, &mut session)
}

/// Answers each line by what a session says to it.
fn answer_all(
    rt: &(impl Input + Print + AllocGlobal),
    session: &mut LineSession,
) -> Result<(), CommandError> {
    for line in rt.lines(rt.alloc()) {
        let line = match line {
            Ok(line) => line,
            Err(error) => return Err(unreadable(rt.alloc(), "-", &error)?),
        };
        let answer = session.answer_line(rt.alloc(), line.as_str())?;
        println!(rt; "{answer}")?;
    }
    Ok(())
}
