//! Texts that callers in C hand in.
ghost use Rattle.std.specs.Prelude.{◌≡◌};

/// A text of the caller's, as one value.
#[repr(C)]
#[derive(Clone, Copy)]
pub struct GamhilonText<'t> {
    text: &'t [u8],
}

impl<'t> GamhilonText<'t> {
    /// Its bytes. Where there are none, the pointer isn't the caller's, which may be null.
    pub(crate) fn bytes(self) -> &'t [u8]
        ensures { result.now ≡ self.entry.text.now }
    {
        if self.text.is_empty() { &[] } else { self.text }
    }
}
