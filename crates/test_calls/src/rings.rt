//! Styles whose macros call each other in no ring.
ghost use Rattle.std.specs.Prelude.{IfOk};
ghost use Rattle.value_styles.specs.Ring.{HasNoRing};
ghost use Rattle.csl_writing.specs.ContextSource.{context_source};

use csl_base::locale::Locale;
use csl_base::style::IndependentStyle;
use csl_writing::lookup::StyleContext;
use document_answer::error::RunError;
use driver_lookup::lookup::StyleLocales;
use std::alloc::Global;

/// The style with these locale files.
pub(crate) fn ringless<'a>(
    alloc: Global,
    style: &'a IndependentStyle,
    files: &'a [Locale],
) -> Result<StyleContext<'a>, RunError>
    ensures { IfOk result (λ context. HasNoRing (context_source context).style.macros) }
{
    let source = StyleLocales::new(style, None, files);
    match source.ring(alloc)? {
        Some(_) => Err(RunError::Document),
        None => Ok(StyleContext::of_locales(source)),
    }
}
