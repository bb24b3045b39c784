//! Styles as the requests of a document use them.
ghost use Rattle.std.specs.Prelude.{◌≡◌, IfOk, IfSome};
ghost use Rattle.driver_styles.specs.PreparedView.{made_of};
ghost use Rattle.document_requests.specs.Prepared.{IsMadeOf, IsMadeOf-prop};

use csl_base::style::IndependentStyle;
use driver_styles::prepared::PreparedStyle;
use std::alloc::{AllocError, Global};

/// A style of a document, prepared where something asks for it and none of its macros call each
/// other in a ring.
#[derive(Drop)]
pub struct FoundStyle<'e> {
    /// The style as the document has it.
    pub style: &'e IndependentStyle,
    prepared: Option<PreparedStyle<'e>>,
    ghost same: { IsMadeOf prepared style.now } by { IsMadeOf-prop prepared style.now },
}

impl<'e> FoundStyle<'e> {
    /// The style, prepared if something asks for it and it has no ring.
    pub(crate) fn new(
        alloc: Global,
        style: &'e IndependentStyle,
        is_asked_for: bool,
    ) -> Result<FoundStyle<'e>, AllocError>
        ensures { IfOk result (λ found. found.style.now ≡ style.now) }
    {
        let plain = FoundStyle {
            style,
            prepared: None,
        };
        if !is_asked_for {
            return Ok(plain);
        }
        match PreparedStyle::new(alloc, style)? {
            Ok(prepared) => Ok(FoundStyle {
                style,
                prepared: Some(prepared),
            }),
            Err(_) => Ok(plain),
        }
    }

    /// The style, prepared; none where it isn't.
    pub fn prepared(&self) -> Option<&PreparedStyle<'e>>
        ensures { IfSome result (λ prepared. made_of prepared.now ≡ self.now.style.now) }
    {
        match &self.prepared {
            Some(prepared) => Some(prepared),
            None => None,
        }
    }
}
