//! Where cites are linked to their neighbours.
ghost use Rattle.std.specs.Prelude.{◌≡◌, false};
ghost use Rattle.mentions_ranges.specs.Links.{ends_long, moved, unlinked};

/// Which cites around one are linked to the next.
#[derive(Clone, Copy)]
pub(crate) struct Around {
    /// Two before it.
    pub(crate) before: bool,
    /// The one before it.
    pub(crate) here: bool,
    /// The cite itself.
    pub(crate) behind: bool,
}

/// None of them, as before the first cite.
pub(crate) fn unlinked() -> Around
    ensures { result ≡ unlinked }
{
    Around {
        before: false,
        here: false,
        behind: false,
    }
}

/// The same around the next cite, which is linked to the one behind it or isn't.
pub(crate) fn moved(around: Around, behind: bool) -> Around
    ensures { result ≡ moved around behind }
{
    Around {
        before: around.here,
        here: around.behind,
        behind,
    }
}

/// Whether three cites or more that are linked end here.
pub(crate) fn ends_long(around: Around) -> bool
    ensures { result ≡ ends_long around }
{
    around.before && around.here && !around.behind
}
