//! Styles of a host, which have a name in place of layouts.
ghost use Rattle.std.specs.Prelude.{◌≡◌, IfOk};
ghost use Rattle.value_styles.specs.ElementView.{elements_view};
ghost use Rattle.value_styles.specs.StyleView.{style_view};
ghost use Rattle.host_memo.specs.HostStyle.{one_text, host_style_name};

use csl_base::element::{Affixes, LayoutRenderingElement, TextTarget};
use csl_base::formatting::StyleFormatting;
use csl_base::style::IndependentStyle;
use std::alloc::{AllocError, Global};

/// The elements of the citation's layout of a style of this name: one text, which is the name. What
/// is written in such a style the host knows.
///
/// # Errors
///
/// Where memory is refused.
pub fn named(alloc: Global, name: &str) -> Result<Vec<LayoutRenderingElement>, AllocError>
    ensures { IfOk result (λ v. elements_view v.items ≡ one_text name.now) }
{
    let mut elements = Vec::new(alloc);
    elements.push(LayoutRenderingElement::Text {
        target: TextTarget::Value(String::from_str(alloc, name)?),
        quotes: false,
        strip_periods: false,
        affixes: Affixes {
            prefix: None,
            suffix: None,
        },
        formatting: StyleFormatting::default(),
        display: None,
    })?;
    Ok(elements)
}

/// The name of a style: the text with which its citation's layout begins; empty where it begins
/// with anything else.
pub fn style_name(style: &IndependentStyle) -> &str
    ensures { result.now ≡ host_style_name (style_view style.now) }
{
    match style.citation.layout.elements.as_slice() {
        [LayoutRenderingElement::Text { target, .. }, ..] => match target {
            TextTarget::Value(name) => name.as_str(),
            _ => "",
        },
        _ => "",
    }
}
