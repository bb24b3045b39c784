//! Limits that a host sets to the documents of others.
ghost use Rattle.std.specs.Prelude.{[], ◌∷◌, ◌≡◌, map};
ghost use Rattle.value_styles.specs.StyleView.{style_view};
ghost use Rattle.document_styles.specs.NamedStyleView.{named_styles_view};
ghost use Rattle.document_values.specs.Reads.{Reads};
ghost use Rattle.document_answer.specs.Limited.{
  ChecksEach,
  ChecksStyles,
  limit_status,
  named_styles_in,
  styles_in,
};

use csl_base::style::IndependentStyle;
use document_requests::document::{read_value, top_of};
use document_styles::styles::{NamedStyle, styles_of};
use document_values::error::ReadError;
use driver_styles::limits::{Excess, Limits};
use driver_styles::prepared::PreparedStyle;
use std::alloc::{AllocError, Global};

/// Why a document isn't let through.
#[derive(Debug, Drop)]
pub enum LimitError {
    /// The input isn't JSON, or its styles aren't of the form that a document's have.
    Document,
    /// A layout of a style exceeds this limit.
    Exceeded(Excess),
    /// There was no memory left.
    OutOfMemory,
}

impl LimitError {
    /// The status that the library in C gives: 2 and 5 as for an answer, 7 where elements nest too
    /// deep, and 8 where there are too many.
    pub fn status(&self) -> u8
        ensures { result ≡ limit_status self.now }
    {
        match self {
            LimitError::Document => 2,
            LimitError::OutOfMemory => 5,
            LimitError::Exceeded(Excess::Depth) => 7,
            LimitError::Exceeded(Excess::Elements) => 8,
        }
    }
}

impl From<AllocError> for LimitError {
    ghost use Rattle.std.specs.Prelude.{◌≡◌};
    ghost use Rattle.document_answer.specs.declared.limits.LimitError.TheVariants.{OutOfMemory};

    ghost from_gives = { λ _ e. e ≡ OutOfMemory };

    fn from(_error: AllocError) -> LimitError {
        LimitError::OutOfMemory
    }
}

impl From<ReadError> for LimitError {
    ghost use Rattle.std.specs.Prelude.{◌≡◌};
    ghost use Rattle.document_answer.specs.Limited.{unread};

    ghost from_gives = { λ read e. e ≡ unread read };

    fn from(error: ReadError) -> LimitError {
        match error {
            ReadError::Document(_) => LimitError::Document,
            ReadError::OutOfMemory => LimitError::OutOfMemory,
        }
    }
}

/// Whether each layout of each style of the document is within the limits. A style whose macros
/// call each other in a ring passes: a document that asks for it has no answer. Nothing is
/// rendered.
///
/// # Errors
///
/// `Document` where the bytes aren't JSON, have a key that no document has, or have no styles of
/// their form; `Exceeded` with a limit that a layout exceeds; `OutOfMemory` where memory is
/// refused.
pub fn check_limits(alloc: Global, bytes: &[u8], limits: &Limits) -> Result<(), LimitError>
    ensures { ChecksStyles limits.now (styles_in bytes.now) result }
{
    let styles = styles_of_bytes(alloc, bytes)?;
    check_styles(alloc, &styles, limits)
}

/// The styles of the document that the bytes are.
#[tactic(auto, unfolding(crate::specs::Limited::named_styles_in))]
fn styles_of_bytes(alloc: Global, bytes: &[u8]) -> Result<Vec<NamedStyle>, ReadError>
    ensures { Reads (λ v. named_styles_view v.items) result (named_styles_in bytes.now) }
{
    let value = read_value(alloc, bytes)?;
    let object = top_of(alloc, &value)?;
    styles_of(alloc, object)
}

/// Whether each layout of each of these styles is within the limits.
pub(crate) fn check_styles(
    alloc: Global,
    styles: &[NamedStyle],
    limits: &Limits,
) -> Result<(), LimitError>
    ensures { ChecksEach limits.now (map (λ s. style_view s.style) styles.now) result }
{
    for named in styles {
        check_style(alloc, &named.style, limits)?;
    }
    Ok(())
}

fn check_style(alloc: Global, style: &IndependentStyle, limits: &Limits) -> Result<(), LimitError>
    ensures { ChecksEach limits.now (style_view style.now ∷ []) result }
{
    match PreparedStyle::new(alloc, style)? {
        // a style with a ring
        Err(_) => Ok(()),
        Ok(prepared) => match limits.check(&prepared) {
            Ok(()) => Ok(()),
            Err(which) => Err(LimitError::Exceeded(which)),
        },
    }
}
