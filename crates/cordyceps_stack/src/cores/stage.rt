//! The stages of the parties of a transfer core.

/// A push that has begun: the room of its element, and what its party read from the head.
#[derive(Clone, Copy)]
pub(crate) struct Attempt {
    pub(crate) room: usize,
    pub(crate) read: Option<usize>,
}

/// Where a party is between two steps.
#[derive(Clone, Copy)]
pub(crate) enum Stage {
    /// In no call.
    Rest,
    /// In a push: a room has the element, and the head was read.
    Loaded(Attempt),
    /// In a push: the room leads to what was read.
    Set(Attempt),
    /// In a taking, at the room whose element comes next.
    Walking(usize),
}
