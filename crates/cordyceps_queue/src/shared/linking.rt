//! How the free rooms of a party are linked.
ghost use Rattle.std.specs.Prelude.{◌≡◌, ◌≢◌, ◌≤◌, ◌<◌, ◌+◌, ℕ, suc, List, [], ◌∷◌, ◌++◌, length, take, drop};
ghost use Rattle.cordyceps_shared.specs.FreeChains.{IsTied, MayJoin, Tracks, leads};
ghost use Rattle.cordyceps_shared.specs.Slots.{Near, view};
ghost use Rattle.cordyceps_queue.specs.Shared.Parts.{IsSeatOf, Relinked, TracksEnd};
ghost use Rattle.cordyceps_queue.specs.Shared.View.{free_chain, back_chain, all_rooms};

use crate::shared::plays::{Skip, Tie};
use crate::shared::spare::Spare;
use crate::shared::table::{PartySeat, Words};
use crate::shared::uses::{free_link, free_link_to};
use cordyceps_shared::free::FreeRooms;
use cordyceps_shared::layout::LINKS;

/// Links the last free room to the room that `at` leads to, which is about to follow it. If there is no free room, that
/// becomes the first.
#[inline(always)]
pub(crate) fn tie<E: Drop>(words: &Words<E>, seat: &mut PartySeat<E>, spare: &mut Spare, at: u64)
    requires table { IsSeatOf seat.old.table_id words.now.table_id }
    requires tracks { TracksEnd spare.old (free_chain (view seat.old.me)) }
    requires near { Near words.now.table_id.slots (view seat.old.me).free }
    requires named { (view seat.old.me).known.share ≢ [] }
    requires low { at ≤ words.now.table_id.slots }
    ensures table { seat.new.table_id ≡ seat.old.table_id }
    ensures relinked { Relinked seat.old.me seat.new.me }
    ensures tied { IsTied (free_chain (view seat.new.me)) at }
    ensures tracks { Tracks spare.new.rooms (free_chain (view seat.new.me))
        × (spare.new.rooms.count ≡ spare.old.rooms.count) }
    ensures first { (view seat.new.me).free ≡ [] → spare.new.rooms.first ≡ at }
{
    if spare.rooms.count == 0 {
        spare.rooms.first = at;
    } else if spare.end != at {
        words.store::<Tie>(seat, LINKS + spare.rooms.last, free_link_to(at));
    }
}

/// Lets the room that an element came out of follow the free rooms. Its link leads to the new tail, `next`.
#[inline(always)]
pub(crate) fn add_room<E: Drop>(
    words: &Words<E>,
    seat: &mut PartySeat<E>,
    spare: &mut Spare,
    room: usize,
    next: usize,
)
    requires table { IsSeatOf seat.old.table_id words.now.table_id }
    requires tracks { TracksEnd spare.old (free_chain (view seat.old.me)) }
    requires near { Near words.now.table_id.slots (view seat.old.me).free × (room < words.now.table_id.slots)
        × (next < words.now.table_id.slots) }
    requires back { ((view seat.old.me).back ≡ room ∷ []) × ((view seat.old.me).to ≡ suc next) }
    requires named { (view seat.old.me).known.share ≢ [] }
    requires few { length (view seat.old.me).free ≤ words.now.table_id.slots }
    ensures table { seat.new.table_id ≡ seat.old.table_id }
    ensures relinked { Relinked seat.old.me seat.new.me }
    ensures joins { MayJoin (free_chain (view seat.new.me)) (back_chain (view seat.new.me)) }
    ensures tracks { TracksEnd spare.new (all_rooms (view seat.new.me)) }
{
    tie(words, seat, spare, room as u64 + 1);
    spare.rooms.last = room;
    spare.rooms.count += 1;
    spare.end = next as u64 + 1;
}

/// Returns the word that leads to the free room after the first `rooms`, and the last of these. Where these are all, no
/// link is read.
pub(crate) fn skip_rooms<E: Drop>(
    words: &Words<E>,
    seat: &mut PartySeat<E>,
    spare: &Spare,
    rooms: usize,
) -> (u64, usize)
    requires table { IsSeatOf seat.old.table_id words.now.table_id }
    requires near { Near words.now.table_id.slots (view seat.old.me).free }
    requires named { (view seat.old.me).known.share ≢ [] }
    requires rooms { TracksEnd spare.now (free_chain (view seat.old.me)) × (rooms ≤ spare.now.rooms.count) }
    ensures seat { (seat.new.table_id ≡ seat.old.table_id) × (seat.new.me ≡ seat.old.me) }
    ensures first { (r : ℕ) → (rs : List ℕ) → drop rooms (view seat.old.me).free ≡ r ∷ rs → result.0 ≡ suc r }
    ensures last { (before : List ℕ) → (r : ℕ) → take rooms (view seat.old.me).free ≡ before ++ r ∷ [] → result.1 ≡ r }
    ensures end { 0 < rooms → result.0 ≡ leads (drop rooms (view seat.old.me).free) (view seat.old.me).end }
{
    if rooms == spare.rooms.count {
        return (spare.end, spare.rooms.last);
    }
    let mut at = spare.rooms.first;
    let mut last = 0;
    for _room in 0..rooms {
        last = at as usize - 1;
        at = free_link(words.load::<Skip>(seat, LINKS + last)).0;
    }
    (at, last)
}
