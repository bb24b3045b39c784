//! What calls give, a line each.
use std::alloc::{AllocError, Global};

/// Lines for what calls give.
#[derive(Drop)]
pub struct Said {
    text: String,
    /// Whether the call gave something.
    is_given: bool,
    /// Whether memory was refused, so that the text lacks something.
    is_cut: bool,
}

impl Said {
    pub fn new(alloc: Global) -> Said {
        Said {
            text: String::new(alloc),
            is_given: false,
            is_cut: false,
        }
    }

    /// The lines.
    ///
    /// # Errors
    ///
    /// Where memory was refused for a part of them.
    pub fn into_text(self) -> Result<String, AllocError> {
        let Said { text, is_cut, .. } = self;
        if is_cut { Err(AllocError) } else { Ok(text) }
    }

    /// Notes that memory was refused.
    pub fn cut(&mut self) {
        self.is_cut = true;
    }

    /// What the call gives, or a part of it.
    pub fn give(&mut self, text: &str) {
        let is_pushed = self.text.push_str(text).is_ok();
        self.is_given = true;
        self.is_cut = self.is_cut || !is_pushed;
    }

    /// The same of a text that may be refused.
    pub fn give_made(&mut self, made: Result<String, AllocError>) {
        match made {
            Ok(text) => self.give(text.as_str()),
            Err(_) => self.is_cut = true,
        }
    }

    /// Ends the line of a call. One that gave nothing is of no function of so many arguments.
    pub fn close(&mut self) {
        if !self.is_given {
            self.give("no such function of so many arguments");
        }
        self.give("\n");
        self.is_given = false;
    }
}
