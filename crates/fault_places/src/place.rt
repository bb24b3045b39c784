//! Where in a text something is wrong or odd.
use serde_json::{Map, Value, put};
use std::alloc::{AllocError, Global};
use std::fmt;
use style_xml::error::Place;

/// Where in a text something is wrong or odd.
#[derive(Debug, Drop)]
pub enum FaultPlace {
    /// In the text as a whole.
    Whole,
    /// At this line and this column of it.
    Line(Place),
    /// At the part of its JSON to which this JSON Pointer (RFC 6901) leads; an empty one leads to
    /// the whole.
    Pointer(String),
    /// In this field of the entry with this key.
    Field { entry: String, field: String },
}

impl FaultPlace {
    /// At a line and a column where they are known, or else in the text as a whole.
    pub fn at_line(place: Option<Place>) -> FaultPlace {
        match place {
            Some(place) => FaultPlace::Line(place),
            None => FaultPlace::Whole,
        }
    }

    /// At the part of JSON to which a pointer leads.
    ///
    /// # Errors
    ///
    /// Where memory is refused.
    pub fn at_pointer<P: fmt::Display>(
        alloc: Global,
        pointer: &P,
    ) -> Result<FaultPlace, AllocError> {
        Ok(FaultPlace::Pointer(format!(in alloc; "{pointer}")?))
    }

    /// Adds the place to the members of a JSON object: `line` and `column`, or `pointer`, or
    /// `entry` and `field`. Of a whole text nothing is added.
    ///
    /// # Errors
    ///
    /// Where memory is refused.
    pub fn put_into(
        &self,
        alloc: Global,
        members: &mut Map<String, Value>,
    ) -> Result<(), AllocError> {
        match self {
            FaultPlace::Whole => Ok(()),
            FaultPlace::Line(Place { line, column }) => {
                put(members, alloc, "line", Value::from(*line))?;
                put(members, alloc, "column", Value::from(*column))
            }
            FaultPlace::Pointer(pointer) => {
                put(members, alloc, "pointer", Value::String(pointer.clone()?))
            }
            FaultPlace::Field { entry, field } => {
                put(members, alloc, "entry", Value::String(entry.clone()?))?;
                put(members, alloc, "field", Value::String(field.clone()?))
            }
        }
    }
}
