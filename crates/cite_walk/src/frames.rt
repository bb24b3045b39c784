//! Whether variables were called, and whether they had values (CSL 1.0.2, "Group").
use cite_limits::error::StylePlace;

/// What was called since an element began.
#[derive(Clone, Copy)]
pub(crate) struct Frame {
    /// Whether a variable was called.
    pub has_called: bool,
    /// Whether a variable that was called had a value.
    pub has_value: bool,
    /// How many variables had been used before.
    pub used_before: usize,
    /// How many names had been written before.
    pub names_before: usize,
    /// How many bytes had been paid for before.
    pub bytes_before: usize,
    /// How long what stands between its children is.
    pub delimiter: usize,
    /// Whether what is written in it is changed at its end, as to another case.
    pub is_changed: bool,
    /// The macro that it is, if it is one.
    pub called: Option<StylePlace>,
}

impl Frame {
    pub const NEW: Frame = Frame {
        has_called: false,
        has_value: false,
        used_before: 0,
        names_before: 0,
        bytes_before: 0,
        delimiter: 0,
        is_changed: false,
        called: None,
    };

    /// Whether all that was called is empty.
    pub fn is_in_vain(&self) -> bool {
        self.has_called && !self.has_value
    }

    /// A variable was called.
    pub fn call(&mut self, has_value: bool) {
        self.has_called = true;
        self.has_value = self.has_value || has_value;
    }

    /// What was called in an element inside.
    pub fn add(&mut self, inner: Frame) {
        self.has_called = self.has_called || inner.has_called;
        self.has_value = self.has_value || inner.has_value;
    }
}
