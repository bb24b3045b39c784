//! Steps over a text that allocate nothing. Each gives the rest of the text behind what it reads.
ghost use Rattle.std.specs.Prelude.{◌≡◌, ◌+◌, ◌<◌, ◌≤◌, length, IfOk, IfSome};

use crate::characters::{is_allowed, is_name_char, is_name_start, is_space};
use crate::error::Wanted;
use crate::stop::Stop;
use std::str::pattern::Pattern;

/// The text before the first match, and the text from it on, which is empty where there is none.
pub(crate) fn split_before<P: Pattern + Drop>(text: &str, pattern: P) -> (&str, &str)
    requires { P.can_search pattern }
    ensures { length result.0.now + length result.1.now ≡ length text.now }
{
    match text.find(pattern) {
        Some(at) => text.split_at(at),
        None => (text, ""),
    }
}

/// Behind white space.
pub(crate) fn skip_space(text: &str) -> &str
    ensures { length result.now ≤ length text.now }
{
    text.trim_start_matches(is_space)
}

/// Behind this mark, where the text begins with it.
pub(crate) fn expect<'a>(mark: &str, text: &'a str, wanted: Wanted) -> Result<&'a str, Stop>
    ensures { IfOk result (λ rest. length rest.now ≤ length text.now) }
{
    text.strip_prefix(mark).ok_or(Stop::at(wanted, text))
}

/// The name with which the text begins, which has no colon, and the rest.
pub(crate) fn plain_name(text: &str, wanted: Wanted) -> Result<(&str, &str), Stop>
    ensures { IfOk result (λ p. length p.1.now < length text.now) }
{
    let (name, rest) = split_before(text, |c| !is_name_char(c));
    if name.starts_with(is_name_start) && rest.len() < text.len() {
        Ok((name, rest))
    } else {
        Err(Stop::at(wanted, text))
    }
}

/// The name with which the text begins, with or without a prefix, and the rest.
pub(crate) fn name(text: &str) -> Result<(&str, &str), Stop>
    ensures { IfOk result (λ p. length p.1.now < length text.now) }
{
    let (name, rest) = split_before(text, |c| !is_name_char(c) && c != ':');
    let is_name = match name.split_once(':') {
        None => name.starts_with(is_name_start),
        Some((prefix, local)) => {
            prefix.starts_with(is_name_start)
                && local.starts_with(is_name_start)
                && !local.contains(':')
        }
    };
    if is_name && rest.len() < text.len() {
        Ok((name, rest))
    } else {
        Err(Stop::at(Wanted::Name, text))
    }
}

/// The text before the mark, and the text that follows the mark. `piece` is the text from the
/// beginning of what the mark ends.
pub(crate) fn split_at_mark<'a>(
    text: &'a str,
    mark: &str,
    piece: &str,
    wanted: Wanted,
) -> Result<(&'a str, &'a str), Stop>
    ensures { IfOk result (λ p. length p.1.now ≤ length text.now) }
{
    let Some((inside, behind)) = text.split_once(mark) else {
        return Err(Stop::at(wanted, piece));
    };
    let (allowed, refused) = split_before(inside, |c| !is_allowed(c));
    if refused.is_empty() {
        Ok((inside, behind))
    } else {
        Err(Stop::At {
            wanted: Wanted::AllowedCharacter,
            left: text.len().saturating_sub(allowed.len()),
        })
    }
}

/// Behind a comment, with whose `<!--` the text begins.
fn skip_comment<'a>(inside: &'a str, comment: &str) -> Result<&'a str, Stop>
    ensures { IfOk result (λ rest. length rest.now ≤ length inside.now) }
{
    let (_, behind) = split_at_mark(inside, "--", comment, Wanted::ClosedComment)?;
    expect(">", behind, Wanted::CommentEnd)
}

/// Behind a processing instruction, with whose `<?` the text begins.
fn skip_instruction<'a>(inside: &'a str, instruction: &str) -> Result<&'a str, Stop>
    ensures { IfOk result (λ rest. length rest.now ≤ length inside.now) }
{
    let (target, rest) = plain_name(inside, Wanted::Target)?;
    if target.eq_ignore_ascii_case("xml") {
        return Err(Stop::at(Wanted::Target, instruction));
    }
    if let Some(behind) = rest.strip_prefix("?>") {
        return Ok(behind);
    }
    if !rest.starts_with(is_space) {
        return Err(Stop::at(Wanted::Target, inside));
    }
    let (_, behind) = split_at_mark(rest, "?>", instruction, Wanted::ClosedInstruction)?;
    Ok(behind)
}

/// Behind a comment or a processing instruction, where the text begins with one.
pub(crate) fn skip_remark(text: &str) -> Option<Result<&str, Stop>>
    ensures { IfSome result (λ r. IfOk r (λ rest. length rest.now < length text.now)) }
{
    if let Some(inside) = text.strip_prefix("<!--") {
        Some(skip_comment(inside, text))
    } else if let Some(inside) = text.strip_prefix("<?") {
        Some(skip_instruction(inside, text))
    } else {
        None
    }
}

/// Behind white space, comments and processing instructions.
pub(crate) fn skip_remarks(text: &str) -> Result<&str, Stop>
    ensures { IfOk result (λ rest. length rest.now ≤ length text.now) }
{
    let mut rest = skip_space(text);
    'remarks: while let Some(behind) = skip_remark(rest) {
        rest = skip_space(behind?);
    }
    Ok(rest)
}
