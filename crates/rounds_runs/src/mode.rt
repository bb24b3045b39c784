//! In how many rounds cites are disambiguated.
ghost use Rattle.value_sources.specs.Tells.{TellsEqual};

/// In how many rounds cites that read alike are disambiguated, and which marks count in them.
#[derive(Clone, Copy, PartialEq, Eq)]
pub enum RoundMode {
    /// In three at most. Each mark counts.
    Three,
    /// In as many as mark. A mark counts only where it raises the state of its entry, and a group
    /// waits for the next round where an entry of it was marked in this one.
    Full,
}

/// A law: `==` of modes is true exactly of equal values.
pub fn mode_equality_decides()
    ensures { TellsEqual ⟦<RoundMode as PartialEq>⟧.eq }
{}
