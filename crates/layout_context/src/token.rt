//! What records how high a stack was before something was put on it.
ghost use Rattle.std.specs.Prelude.{◌<◌};
ghost use Rattle.value_sources.specs.Tells.{TellsEqual};

/// Where a frame was opened: how many frames and how many formats there were before.
#[derive(Clone, Copy)]
pub struct DisplayLoc {
    pub(crate) frames: usize,
    pub(crate) formats: usize,
    ghost some_frame: { 0 < frames },
    ghost some_format: { 0 < formats },
}

/// Where a format was pushed: how many there were before.
#[derive(Clone, Copy)]
pub struct FormatIdx {
    pub(crate) height: usize,
    ghost some_format: { 0 < height },
}

/// Where a delimiter was pushed: how many there were before.
#[derive(Clone, Copy)]
pub struct DelimiterIdx {
    pub(crate) height: usize,
    ghost some_delimiter: { 0 < height },
}

/// How high the stacks of a context are.
#[derive(Clone, Copy, PartialEq, Eq)]
pub struct Heights {
    /// How many trees are open.
    pub frames: usize,
    pub formats: usize,
    pub delimiters: usize,
    pub name_options: usize,
}

/// A law: `==` of heights is true exactly of equal values.
pub fn heights_equality_decides()
    ensures { TellsEqual ⟦<Heights as PartialEq>⟧.eq }
{}
