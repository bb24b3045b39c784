//! Laws of what layouts pick.
pub use driver_styles::suffix_text::suffixes_unfold;
pub use layout_picking::picking::macros_unfold;
