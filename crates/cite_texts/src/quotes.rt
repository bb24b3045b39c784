//! The quotation marks of a locale.
ghost use Rattle.std.specs.Prelude.{◌≡◌};

/// The marks around quotes: the outer ones, and those of quotes inside quotes.
#[derive(Clone, Copy)]
pub struct QuoteMarks<'a> {
    pub open: &'a str,
    pub close: &'a str,
    pub inner_open: &'a str,
    pub inner_close: &'a str,
}

impl<'a> QuoteMarks<'a> {
    /// The marks of quotes inside those that these are for.
    pub fn inside(self) -> QuoteMarks<'a>
        ensures opens { result.«open» ≡ self.entry.inner_open }
        ensures closes { result.close ≡ self.entry.inner_close }
        ensures opens_inside { result.inner_open ≡ self.entry.«open» }
        ensures closes_inside { result.inner_close ≡ self.entry.close }
    {
        QuoteMarks {
            open: self.inner_open,
            close: self.inner_close,
            inner_open: self.open,
            inner_close: self.close,
        }
    }
}
