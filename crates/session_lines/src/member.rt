//! A JSON object with one member.

/// The member of a JSON object that has one.
#[derive(Clone, Copy)]
pub(crate) struct Member<'l> {
    pub name: &'l str,
    /// What follows the colon. It is JSON where the line is.
    pub value: &'l str,
}

impl<'l> Member<'l> {
    /// The member of a line. Its name has no escapes.
    pub fn of_line(line: &'l str) -> Option<Member<'l>> {
        let inner = line.trim_ascii().strip_prefix("{")?.strip_suffix("}")?;
        let (name, rest) = inner
            .trim_ascii_start()
            .strip_prefix("\"")?
            .split_once("\"")?;
        let value = rest.trim_ascii_start().strip_prefix(":")?;
        Some(Member { name, value })
    }
}
