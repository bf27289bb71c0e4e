//! The rooms of a core.

/// A room of a core, which has space for one element, with a link to another room.
#[derive(Drop)]
pub struct Room<E> {
    /// The party that can use the room, if it is free.
    pub owner: Option<usize>,
    /// The element in the room, if it is in use.
    pub element: Option<E>,
    /// The room that this one leads to, if any.
    pub next: Option<usize>,
}
