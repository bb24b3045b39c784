//! How large a style may be when each call of a macro is written out.
ghost use Rattle.std.specs.Prelude.{◌≤◌, IfOk};
ghost use Rattle.style_elements.specs.declared.limits.TheConstants.{MAX_DEPTH, MAX_ELEMENTS};

use crate::fault::Wanted;
use crate::outline::Size;

/// How many elements a macro or a layout may have.
pub const MAX_ELEMENTS: u64 = 1_000_000;

/// How deep the elements of a macro or a layout may nest.
pub const MAX_DEPTH: usize = 1_000;

/// Refuses a size beyond the limits.
///
/// # Errors
///
/// What is wanted in its place.
pub fn check_limits(size: Size) -> Result<(), Wanted>
    ensures elements { IfOk result (λ u. size.elements ≤ MAX_ELEMENTS) }
    ensures depth { IfOk result (λ u. size.depth ≤ MAX_DEPTH) }
{
    if size.elements > MAX_ELEMENTS {
        return Err(Wanted::FewerElements(MAX_ELEMENTS));
    }
    if size.depth > MAX_DEPTH {
        return Err(Wanted::LessDepth(MAX_DEPTH));
    }
    Ok(())
}
