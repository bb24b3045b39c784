//! Brackets around a text.
ghost use Rattle.std.specs.Prelude.{◌≡◌};
ghost use Rattle.driver_lookup.specs.BracketPairs.{left_bracket, right_bracket};

/// A pair of brackets, or none.
#[derive(Clone, Copy, PartialEq, Eq, Hash)]
pub enum Brackets {
    /// `(` and `)`.
    Round,
    /// `[` and `]`.
    Square,
    None,
}

impl Brackets {
    /// The bracket before the text, if there is one.
    pub fn left(self) -> Option<char>
        ensures { result ≡ left_bracket self }
    {
        match self {
            Brackets::Round => Some('('),
            Brackets::Square => Some('['),
            Brackets::None => None,
        }
    }

    /// The bracket after the text, if there is one.
    pub fn right(self) -> Option<char>
        ensures { result ≡ right_bracket self }
    {
        match self {
            Brackets::Round => Some(')'),
            Brackets::Square => Some(']'),
            Brackets::None => None,
        }
    }
}
