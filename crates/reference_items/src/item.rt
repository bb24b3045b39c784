//! Items.
use std::alloc::AllocError;

/// An item of CSL-JSON. No member is empty.
#[derive(Drop)]
pub struct Item {
    pub id: String,
    /// CSL's name of its type.
    pub item_type: &'static str,
    pub members: Vec<Member>,
}

/// A member of an item.
#[derive(Drop)]
pub struct Member {
    /// CSL's name of the variable.
    pub name: &'static str,
    pub value: MemberValue,
}

/// What a member holds.
#[derive(Drop)]
pub enum MemberValue {
    /// A text, with the markup of CSL-JSON.
    Text(String),
    Names(Vec<ItemName>),
    Date(ItemDate),
}

/// A name. A part that it doesn't have is empty.
#[derive(Drop)]
pub struct ItemName {
    pub family: String,
    pub given: String,
    pub dropping_particle: String,
    pub non_dropping_particle: String,
    pub suffix: String,
    /// The name of an institution, or of whoever has no parts.
    pub literal: String,
}

/// A date: its parts, or a literal.
#[derive(Drop)]
pub struct ItemDate {
    /// One date, or the first and the last of a range.
    pub points: Vec<DateNumbers>,
    /// A season, from 1 to 4, or 0.
    pub season: u8,
    pub is_circa: bool,
    pub literal: String,
}

/// A date in numbers. A month or a day that it doesn't have is 0.
#[derive(Clone, Copy, PartialEq, Eq)]
pub struct DateNumbers {
    /// The year; -44 is 44 BC.
    pub year: i32,
    pub month: u8,
    pub day: u8,
}

impl ItemDate {
    /// Whether the date says nothing.
    pub fn is_empty(&self) -> bool {
        self.points.is_empty() && self.literal.is_empty()
    }
}

impl Item {
    /// Adds a text, unless it is empty.
    ///
    /// # Errors
    /// Where memory is refused.
    pub fn put_text(&mut self, name: &'static str, text: String) -> Result<(), AllocError> {
        if text.is_empty() {
            return Ok(());
        }
        self.put(name, MemberValue::Text(text))
    }

    /// Adds names, if there are some.
    ///
    /// # Errors
    /// Where memory is refused.
    pub fn put_names(
        &mut self,
        name: &'static str,
        names: Vec<ItemName>,
    ) -> Result<(), AllocError> {
        if names.is_empty() {
            return Ok(());
        }
        self.put(name, MemberValue::Names(names))
    }

    /// Adds a date, unless it says nothing.
    ///
    /// # Errors
    /// Where memory is refused.
    pub fn put_date(&mut self, name: &'static str, date: ItemDate) -> Result<(), AllocError> {
        if date.is_empty() {
            return Ok(());
        }
        self.put(name, MemberValue::Date(date))
    }

    fn put(&mut self, name: &'static str, value: MemberValue) -> Result<(), AllocError> {
        self.members.push(Member { name, value })?;
        Ok(())
    }
}
