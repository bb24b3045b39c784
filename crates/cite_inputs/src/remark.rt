//! What is wrong or odd in a text.
use crate::texts::TextName;
use fault_places::place::FaultPlace;
use std::fmt;
use style_xml::error::Place;

/// Something that is wrong or odd in a text.
#[derive(Debug, Drop)]
pub struct Remark {
    pub text: TextName,
    pub place: FaultPlace,
    /// What it is, in words.
    pub message: String,
}

/// The style for which a dependent style stands.
#[derive(Debug, Drop)]
pub struct ParentStyle {
    /// The link to it.
    pub link: String,
    /// The language that the dependent style asks for.
    pub language: Option<String>,
}

/// What is wrong with a text.
#[derive(Debug, Drop)]
pub struct Fault {
    pub remark: Remark,
    /// The style that is to be given in place of a dependent one, where that is what is wrong.
    pub parent: Option<ParentStyle>,
}

impl fmt::Display for Remark {
    fn fmt<W: fmt::Write>(&self, f: &mut fmt::Formatter<W>) -> fmt::Result {
        let text = &self.text;
        write!(f, "{text}:")?;
        match &self.place {
            FaultPlace::Whole => {}
            FaultPlace::Line(Place { line, column }) => write!(f, "{line}:{column}:")?,
            FaultPlace::Pointer(pointer) if pointer.is_empty() => {}
            FaultPlace::Pointer(pointer) => {
                f.write_char(' ')?;
                f.write_str(pointer.as_str())?;
                f.write_char(':')?;
            }
            FaultPlace::Field { entry, field } => {
                let entry = entry.as_str();
                let field = field.as_str();
                write!(f, " {entry}: {field}:")?;
            }
        }
        f.write_char(' ')?;
        f.write_str(self.message.as_str())
    }
}
