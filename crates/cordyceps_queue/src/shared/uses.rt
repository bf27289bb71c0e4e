//! The uses of a room, and how the words of the table spell them.
//!
//! ```text
//! HEAD         2 * head + b                      b: the bit of the head's use
//! RIGHT        2 * (tail + 1) + b                b: the bit of the tail's use; 0 while a party has the right
//! LINKS + r    4 * (next + 1) + 2 * b + c        b: the bit of the use of next; c: that of the use of r
//! ```
//!
//! A room is used again and again. One bit says to which use of its room a word belongs: whoever begins a use of a room
//! loads the room's link, and takes the bit `c` that this does not have. So the link counts as null until one of this
//! use is stored, and no step has to clear it. A party knows the bits of the rooms that it acts on: it has read them in
//! `HEAD`, `RIGHT` or a link, or begun the use. In the link of a free room `next` is the next free room, and `b` says
//! nothing.
ghost use Rattle.std.specs.Prelude.{◌≡◌, ◌+◌, ◌*◌, ◌-◌, ◌<◌, ◌≤◌, ℕ, suc, MatchOption};
ghost use Rattle.cordyceps_base.specs.declared.shared.TheConstants.{MAX_ROOMS};
ghost use Rattle.cordyceps_queue.specs.Shared.Bits.{IsBit, IsLink, IsRead};

/// A use of a room: the room, and the bit of the use.
#[derive(Clone, Copy)]
pub(crate) struct RoomUse {
    pub(crate) room: usize,
    pub(crate) bit: u64,
}

/// Returns the word that leads to a use of a room.
#[inline(always)]
pub(crate) fn pointer(to: RoomUse) -> u64
    requires { (to.room ≤ MAX_ROOMS) × IsBit to.bit }
    ensures { result ≡ 2 * to.room + to.bit }
{
    2 * to.room as u64 + to.bit
}

/// Returns the use of a room to which a word leads.
#[inline(always)]
pub(crate) fn pointed(word: u64) -> RoomUse
    ensures { (room bit : ℕ) → word ≡ 2 * room + bit → IsBit bit → (result.room ≡ room) × (result.bit ≡ bit) }
{
    RoomUse {
        room: (word / 2) as usize,
        bit: word % 2,
    }
}

/// Returns the word of the right to dequeue while no party has it, which leads to this tail. While a party has the
/// right, the word is 0.
#[inline(always)]
pub(crate) fn free_right(tail: RoomUse) -> u64
    requires { (tail.room ≤ MAX_ROOMS) × IsBit tail.bit }
    ensures { result ≡ 2 * suc tail.room + tail.bit }
{
    2 * (tail.room as u64 + 1) + tail.bit
}

/// Returns the tail to which the word of the right leads, and `None` if a party has the right.
#[inline(always)]
pub(crate) fn free_tail(word: u64) -> Option<RoomUse>
    ensures { (right bit : ℕ) → word ≡ 2 * right + bit → IsBit bit →
        MatchOption result (right ≡ 0) (λ t. (right ≡ suc t.room) × (t.bit ≡ bit)) }
{
    let right = word / 2;
    if right == 0 {
        return None;
    }
    Some(RoomUse {
        room: right as usize - 1,
        bit: word % 2,
    })
}

/// Returns the link of a room in the use with this bit, which leads to a use of another room.
#[inline(always)]
pub(crate) fn link_to(to: RoomUse, bit: u64) -> u64
    requires { (to.room ≤ MAX_ROOMS) × IsBit to.bit × IsBit bit }
    ensures { result ≡ 4 * suc to.room + 2 * to.bit + bit }
{
    4 * (to.room as u64 + 1) + 2 * to.bit + bit
}

/// Returns a link that is null in the use of its room with this bit, since it has the other bit.
#[inline(always)]
pub(crate) fn null_link(bit: u64) -> u64
    requires { IsBit bit }
    ensures { result ≡ 1 - bit }
{
    1 - bit
}

/// Returns the link of a free room. It leads to the room before the number `at`, or nowhere if that is 0.
#[inline(always)]
pub(crate) fn free_link_to(at: u64) -> u64
    requires { at ≤ suc MAX_ROOMS }
    ensures { result ≡ 4 * at }
{
    4 * at
}

/// Returns what the link of a free room leads to, and the bit of the room's next use.
#[inline(always)]
pub(crate) fn free_link(link: u64) -> (u64, u64)
    ensures { (next to bit : ℕ) → IsLink link next to bit → (result.0 ≡ next) × (result.1 ≡ 1 - bit) × IsBit result.1 }
{
    (link / 4, 1 - link % 2)
}

/// Returns the use of a room to which a link leads that was written in the use with this bit, and `None` if the link is
/// of another use.
#[inline(always)]
pub(crate) fn leads_to(link: u64, bit: u64) -> Option<RoomUse>
    requires { (next to : ℕ) × IsRead bit link next to }
    ensures { (next to : ℕ) → IsRead bit link next to →
        MatchOption result (next ≡ 0) (λ r. (next ≡ suc r.room) × (r.bit ≡ to)) }
{
    if link % 2 != bit {
        return None;
    }
    Some(RoomUse {
        room: (link / 4) as usize - 1,
        bit: link / 2 % 2,
    })
}
