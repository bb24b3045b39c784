//! Costs.

/// What something takes, or may take.
#[derive(Clone, Copy, PartialEq, Eq, Debug)]
pub struct Cost {
    /// A number of steps: elements of a style that are entered, and what takes as long.
    pub steps: usize,
    /// A number of bytes that are written.
    pub bytes: usize,
}

/// What there is too little of.
#[derive(Clone, Copy, PartialEq, Eq, Debug)]
pub enum Limited {
    Steps,
    Bytes,
}

impl Cost {
    pub const NOTHING: Cost = Cost { steps: 0, bytes: 0 };

    /// A step that writes nothing.
    pub const STEP: Cost = Cost { steps: 1, bytes: 0 };

    /// So many steps that write nothing.
    pub fn of_steps(steps: usize) -> Cost {
        Cost { steps, bytes: 0 }
    }

    /// So many bytes.
    pub fn of_bytes(bytes: usize) -> Cost {
        Cost { steps: 0, bytes }
    }

    /// Both together.
    pub fn plus(self, other: Cost) -> Cost {
        Cost {
            steps: self.steps.saturating_add(other.steps),
            bytes: self.bytes.saturating_add(other.bytes),
        }
    }

    /// The same so many times.
    pub fn times(self, count: usize) -> Cost {
        Cost {
            steps: self.steps.saturating_mul(count),
            bytes: self.bytes.saturating_mul(count),
        }
    }

    /// As many steps as the one with fewer has, and as many bytes as the one with fewer has.
    pub fn least(self, other: Cost) -> Cost {
        Cost {
            steps: self.steps.min(other.steps),
            bytes: self.bytes.min(other.bytes),
        }
    }

    /// As many steps as the one with more has, and as many bytes as the one with more has.
    pub fn most(self, other: Cost) -> Cost {
        Cost {
            steps: self.steps.max(other.steps),
            bytes: self.bytes.max(other.bytes),
        }
    }

    /// What is left of this when that is taken; nothing where that is more.
    pub fn less(self, taken: Cost) -> Cost {
        Cost {
            steps: self.steps.saturating_sub(taken.steps),
            bytes: self.bytes.saturating_sub(taken.bytes),
        }
    }

    /// What this has too little of for that cost, if anything.
    pub fn lacks(self, cost: Cost) -> Option<Limited> {
        if cost.steps > self.steps {
            Some(Limited::Steps)
        } else if cost.bytes > self.bytes {
            Some(Limited::Bytes)
        } else {
            None
        }
    }
}
