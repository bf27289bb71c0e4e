//! A party's free rooms, and how many of them it gives up.

use std::marker::Brand;

/// The free rooms of a party, in the order in which they are used. The link of each leads to the next.
#[derive(Clone, Copy)]
pub struct FreeRooms {
    /// The number of the first room plus 1. It has no meaning if `count` is 0.
    pub first: u64,
    /// The number of the last room. It has no meaning if `count` is 0.
    pub last: usize,
    /// The number of rooms.
    pub count: usize,
}

/// States, for proofs, how many rooms a call takes from its party.
pub trait Count {
    ghost use Rattle.std.specs.Prelude.{ℕ};

    ghost rooms: { ℕ };
}

impl Count for Brand {
    ghost rooms = { 0 };
}
