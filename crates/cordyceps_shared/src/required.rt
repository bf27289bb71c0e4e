//! What calls on parties require. In a proved build these functions do nothing. In a build without proofs a run stops
//! at what does not hold, and their names say what that is.
ghost use Rattle.std.specs.Prelude.{◌<◌, ◌≤◌};

use cordyceps_base::shared::MAX_ROOMS;

/// Requires that a party with `rooms` free rooms has at least one.
///
/// # Complexity
/// O(1).
pub fn a_free_room(rooms: usize)
    requires { 0 < rooms }
{
    prove!(0 < rooms);
}

/// Requires that `taken`, the number of rooms that a call takes from a party, is at most `rooms`, which it has.
///
/// # Complexity
/// O(1).
pub fn as_many_rooms(taken: usize, rooms: usize)
    requires { taken ≤ rooms }
{
    prove!(taken <= rooms);
}

/// Requires that a new collection has at most `MAX_ROOMS` rooms.
///
/// # Complexity
/// O(1).
pub fn at_most_max_rooms(rooms: usize)
    requires { rooms ≤ MAX_ROOMS }
{
    prove!(rooms <= MAX_ROOMS);
}

/// Requires that a batch may have an element.
///
/// # Complexity
/// O(1).
pub fn a_batch_of_at_least_one(max: usize)
    requires { 1 ≤ max }
{
    prove!(1 <= max);
}
