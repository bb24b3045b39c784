//! How often something was rendered.
ghost use Rattle.std.specs.Prelude.{◌≡◌};
ghost use Rattle.driver_writers.specs.Counted.{counted};

use std::marker::Model;

/// Counts renderings.
#[derive(Drop)]
pub struct Renders {
    count: u128,
}

impl Model for Renders {
    ghost use Rattle.std.specs.Prelude.{ℕ};

    ghost Value = { ℕ };

    ghost view = { λ r. r.count };
}

impl Renders {
    /// No rendering yet.
    pub fn new() -> Renders
        ensures { result ≡ 0 }
    {
        Renders { count: 0 }
    }

    /// How many renderings there were, whether they were refused or not. At its greatest value the
    /// count stays there.
    pub fn count(&self) -> u128
        ensures { result ≡ self.now }
    {
        self.count
    }

    /// One more.
    pub fn add_one(&mut self)
        ensures { self.new ≡ counted self.old }
    {
        self.count = self.count.saturating_add(1);
    }
}
