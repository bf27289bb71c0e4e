//! A party's free rooms.

use cordyceps_shared::free::FreeRooms;

/// The free rooms of a party. A room that comes out of the queue follows the others, and its link already leads to the
/// room that comes out next.
#[derive(Clone, Copy)]
pub(crate) struct Spare {
    /// Their first, their last and their number.
    pub(crate) rooms: FreeRooms,
    /// The link of the last room, if there is one.
    pub(crate) end: u64,
}
