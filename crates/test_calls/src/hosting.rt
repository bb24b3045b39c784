//! Styles of a host, which have a name in place of their layouts.

use csl_base::style::{Bibliography, IndependentStyle};
use document_answer::error::RunError;
use document_requests::document::value_of;
use document_styles::styles::{NamedStyle, styles_of};
use host_memo::host_style::named;
use std::alloc::{AllocError, Global};

/// Puts the name in the place of the elements of the layouts.
fn hide_layouts(alloc: Global, style: &mut IndependentStyle, name: &str) -> Result<(), AllocError> {
    style.citation.layout.elements = named(alloc, name)?;
    if let Some(Bibliography { layout, .. }) = &mut style.bibliography {
        layout.elements = named(alloc, name)?;
    }
    Ok(())
}

/// The styles of the document, each with its name in place of its layouts.
pub fn host_styles(alloc: Global, document: &str) -> Result<Vec<NamedStyle>, RunError> {
    let value = value_of(alloc, document)?;
    let styles = styles_of(alloc, &value);
    drop(value);
    let mut styles = styles?;
    for named in styles.iter_mut() {
        hide_layouts(alloc, &mut named.style, named.name.as_str())?;
    }
    Ok(styles)
}
