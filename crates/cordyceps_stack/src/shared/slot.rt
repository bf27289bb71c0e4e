//! What is in a slot of a shared stack's table.
ghost use Rattle.std.specs.Prelude.{◌≡◌};
ghost use Rattle.cordyceps_stack.specs.Shared.Slots.{link_of, linked_to};

/// The contents of a room's slot.
///
/// A link is 0, or 1 more than the room that it leads to. It has 32 bits, so that with an element that is a pointer a
/// slot has 16 bytes.
#[derive(Drop)]
pub(crate) enum Slot<E> {
    /// The room is free. Its link leads to the party's next free room.
    Free { link: u32 },
    /// The room is in use by an element. Its link leads to the room below it.
    Used { link: u32, item: E },
}

impl<E> Slot<E> {
    /// Returns the link of the room.
    pub(crate) fn link(&self) -> u32
        ensures { result ≡ link_of self.now }
    {
        match self {
            Slot::Free { link } | Slot::Used { link, .. } => *link,
        }
    }

    /// Links the room to what `to` leads to.
    pub(crate) fn set_link(&mut self, to: u32)
        ensures { self.new ≡ linked_to to self.old }
    {
        match self {
            Slot::Free { link } => *link = to,
            Slot::Used { link, .. } => *link = to,
        }
    }
}
