//! The styles that are built in are printed.
use program_files::error::CommandError;
use program_styles::styles::{NAMES, style_named};

/// Prints the names of the styles that are built in, or the file of that of this name.
///
/// # Errors
///
/// `UnknownStyle`; `Output`; `OutOfMemory`.
pub fn show(rt: &(impl Print + AllocGlobal), name: Option<&str>) -> Result<(), CommandError> {
    let Some(name) = name else {
        return show_names(rt);
    };
    match style_named(name) {
        Some(text) => Ok(print!(rt; "{text}")?),
        None => Err(CommandError::UnknownStyle(String::from_str(rt.alloc(), name)?)),
    }
}

fn show_names(rt: &impl Print) -> Result<(), CommandError> {
    for name in NAMES {
        println!(rt; "{name}")?;
    }
    Ok(())
}
