//! The word of a table that leads to its pool: the free rooms that no party has.
ghost use Rattle.std.specs.Prelude.{◌≡◌, ◌<◌};
ghost use Rattle.cordyceps_shared.specs.Pools.{packed, Fits};

use crate::free::FreeRooms;

/// How many rooms a call that puts an element in takes from the pool at most, if its party has none.
pub const QUANTUM: usize = 64;

/// The number of values of each of the first two parts of the word, which has three: the first room, the last one, and
/// the number of the rooms.
const PART: u64 = 1 << 21;

/// Returns the word that leads to these rooms. Requires that first and last are less than 2^21, and the number is less
/// than 2^22.
///
/// # Complexity
/// O(1).
pub fn pack(rooms: FreeRooms) -> u64
    requires { Fits rooms }
    ensures { result ≡ packed rooms }
{
    rooms.first + PART * (rooms.last as u64) + PART * PART * (rooms.count as u64)
}

/// Returns the rooms that a word leads to.
///
/// # Complexity
/// O(1).
pub fn unpack(word: u64) -> FreeRooms
    ensures { (packed result ≡ word) × Fits result }
{
    FreeRooms {
        first: word % PART,
        last: (word / PART % PART) as usize,
        count: (word / (PART * PART)) as usize,
    }
}
