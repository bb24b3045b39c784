//! Members of objects.
ghost use Rattle.std.specs.Prelude.{◌≡◌};
ghost use Rattle.serde_json.specs.View.{view};
ghost use Rattle.reference_json.specs.Faults.{Faults};

use crate::fault::ReferencesError;
use crate::place::Place;
use crate::reader::Reader;
use serde_json::Value;

impl Reader {
    /// The text of the key; none where it is absent, null or empty.
    pub(crate) fn text_at(
        &mut self,
        place: &Place,
        object: &Value,
        key: &'static str,
    ) -> Result<Option<String>, ReferencesError>
        ensures { Faults result place.now (view object.now) }
    {
        match object.get(key) {
            Some(member) => self.text(&place.member(key), member),
            None => Ok(None),
        }
    }

    /// The truth value of the key; none where it is absent.
    pub(crate) fn flag_at(
        &self,
        place: &Place,
        object: &Value,
        key: &'static str,
    ) -> Result<Option<bool>, ReferencesError>
        ensures { Faults result place.now (view object.now) }
    {
        match object.get(key) {
            Some(member) => Ok(Some(self.flag(&place.member(key), member)?)),
            None => Ok(None),
        }
    }
}
