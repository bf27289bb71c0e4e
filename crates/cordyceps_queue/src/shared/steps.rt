//! The atomic steps of a shared queue. Each function is a part of a call.
ghost use Rattle.std.specs.Prelude.{◌≡◌, ◌≢◌, ◌≤◌, ◌<◌, ℕ, suc, List, [], ◌∷◌, length, Some, None, MatchOption};
ghost use Rattle.cordyceps_queue.specs.Shared.Parts.{IsSeatOf, IsBegun, IsSwapped, AsksRight, TracksEnd};
ghost use Rattle.cordyceps_queue.specs.History.{Event};
ghost use Rattle.cordyceps_queue.specs.Shared.Uses.{HasUse};
ghost use Rattle.cordyceps_shared.specs.Slots.{view, hand};
ghost use Rattle.cordyceps_queue.specs.Shared.Plays.{Sees, IsResting, IsHolding, IsAtStage, Blocked};
ghost use Rattle.cordyceps_queue.specs.Shared.Plays.{HandsOneOut, MovesTo, HandsOut};
ghost use Rattle.cordyceps_queue.specs.Shared.View.{name, free_chain, all_rooms};
ghost use Rattle.cordyceps_queue.specs.declared.cores.stage.Stage.TheVariants.{Cleared, Swapped, Rest, Holding, Null, PutRead};

use crate::shared::plays::{Begin, Give, Link, Look, Reread, Swap, Take};
use crate::shared::spare::Spare;
use crate::shared::table::{Chosen, PartySeat, Words};
use crate::shared::uses::{
    RoomUse, free_link, free_right, free_tail, leads_to, link_to, pointed, pointer,
};
use cordyceps_shared::layout::{HEAD, LINKS, RIGHT};
use std::marker::Brand;
use std::mem;

/// Begins a use of a free room, by which the room's link is null, and takes the room's slot, before this element is put
/// in. Returns what the link leads to, which is the next free room, and the bit of the new use.
fn begin<E: Drop, B: Chosen<E>>(
    words: &Words<E>,
    seat: &mut PartySeat<E>,
    room: usize,
    _item: &E,
) -> (u64, u64)
    requires table { IsSeatOf seat.old.table_id words.now.table_id }
    requires rest { IsResting words.now.table_id.slots seat.old.me }
    requires room { (rs : List ℕ) × ((view seat.old.me).free ≡ room ∷ rs) }
    requires item { B.item ≡ Some _item.now }
    ensures table { seat.new.table_id ≡ seat.old.table_id }
    ensures begun { IsBegun words.now.table_id.slots room result.0 _item.now seat.old.me seat.new.me }
    ensures knows { HasUse seat.new.me record { room = room; bit = result.1 } }
{
    free_link(words.load::<Begin<B>>(seat, LINKS + room))
}

/// Puts the element into the slot, makes its room the head, and returns the old head. The slot was empty, so nothing
/// has to be dropped, and it is not read.
fn swap_in<E: Drop>(words: &Words<E>, seat: &mut PartySeat<E>, to: RoomUse, item: E) -> RoomUse
    requires table { IsSeatOf seat.old.table_id words.now.table_id }
    requires stage { ((view seat.old.me).stage ≡ Cleared to.room) × ((view seat.old.me).item ≡ Some item)
        × ((view seat.old.me).back ≡ []) }
    requires hand { hand seat.old.me ≡ (to.room, None) ∷ [] }
    requires knows { HasUse seat.old.me to }
    requires near { (to.room < words.now.table_id.slots) × ((view seat.old.me).known.share ≢ []) }
    ensures table { seat.new.table_id ≡ seat.old.table_id }
    ensures swapped { IsSwapped words.now.table_id.slots to.room result.room item seat.old.me seat.new.me }
    ensures knows { HasUse seat.new.me to × HasUse seat.new.me result }
{
    mem::forget(words.exchange(seat, to.room, Some(item)));
    pointed(words.swap::<Swap>(seat, HEAD, pointer(to)))
}

/// Makes the old head lead to the room.
fn link<E: Drop>(words: &Words<E>, seat: &mut PartySeat<E>, to: RoomUse, old: RoomUse)
    requires table { IsSeatOf seat.old.table_id words.now.table_id }
    requires stage { ((view seat.old.me).stage ≡ Swapped to.room old.room) × ((view seat.old.me).back ≡ [])
        × (hand seat.old.me ≡ []) }
    requires knows { HasUse seat.old.me to × HasUse seat.old.me old }
    requires near { (old.room < words.now.table_id.slots) × (to.room < words.now.table_id.slots)
        × ((view seat.old.me).known.share ≢ []) }
    ensures table { seat.new.table_id ≡ seat.old.table_id }
    ensures rest { ((view seat.new.me).stage ≡ Rest) × ((view seat.new.me).back ≡ []) × (hand seat.new.me ≡ []) }
    ensures free { ((view seat.new.me).free ≡ (view seat.old.me).free)
        × ((view seat.new.me).end ≡ (view seat.old.me).end) }
    ensures sees { Sees (view seat.old.me) (Event.Link (name (view seat.old.me)) ∷ []) (view seat.new.me) }
{
    words.store::<Link>(seat, LINKS + old.room, link_to(to, old.bit));
}

/// Puts an element into the first free room, makes the room the head, and links it.
pub(crate) fn enqueue<E: Drop>(
    words: &Words<E>,
    seat: &mut PartySeat<E>,
    spare: &mut Spare,
    item: E,
)
    requires table { IsSeatOf seat.old.table_id words.now.table_id }
    requires rest { IsResting words.now.table_id.slots seat.old.me }
    requires rooms { TracksEnd spare.old (free_chain (view seat.old.me)) × (0 < spare.old.rooms.count) }
    ensures table { seat.new.table_id ≡ seat.old.table_id }
    ensures rest { IsResting words.now.table_id.slots seat.new.me }
    ensures tracks { TracksEnd spare.new (free_chain (view seat.new.me)) }
    ensures free { length (view seat.old.me).free ≡ suc (length (view seat.new.me).free) }
    ensures sees { Sees (view seat.old.me)
        (Event.Swap (name (view seat.old.me)) item ∷ Event.Link (name (view seat.old.me)) ∷ []) (view seat.new.me) }
{
    let room = spare.rooms.first as usize - 1;
    let (next, bit) = begin::<E, Brand>(words, seat, room, &item);
    spare.rooms.first = next;
    spare.rooms.count -= 1;
    let to = RoomUse { room, bit };
    let old = swap_in(words, seat, to, item);
    link(words, seat, to, old);
}

/// Gives the right to dequeue back, and the slot that the party took.
pub(crate) fn give<E: Drop>(words: &Words<E>, seat: &mut PartySeat<E>, tail: RoomUse)
    requires table { IsSeatOf seat.old.table_id words.now.table_id }
    requires holding { IsHolding words.now.table_id.slots tail.room seat.old.me }
    requires knows { HasUse seat.old.me tail }
    ensures table { seat.new.table_id ≡ seat.old.table_id }
    ensures rest { IsResting words.now.table_id.slots seat.new.me }
    ensures answer { MovesTo (Event.Free (name (view seat.old.me)) ∷ []) Rest seat.old.me seat.new.me }
{
    words.store::<Give>(seat, RIGHT, free_right(tail));
}

/// Reads the tail's link again, after the stub was put in. If it leads on, returns the new tail.
pub(crate) fn reread<E: Drop>(
    words: &Words<E>,
    seat: &mut PartySeat<E>,
    tail: RoomUse,
) -> Option<RoomUse>
    requires table { IsSeatOf seat.old.table_id words.now.table_id }
    requires stage { IsAtStage words.now.table_id.slots (PutRead tail.room) seat.old.me
        × (tail.room < words.now.table_id.slots) }
    requires knows { HasUse seat.old.me tail }
    ensures table { seat.new.table_id ≡ seat.old.table_id }
    ensures answer { MatchOption result
        (MovesTo [] (Holding tail.room) seat.old.me seat.new.me × Blocked (view seat.new.me) × HasUse seat.new.me tail)
        (λ r. HandsOut [] words.now.table_id.slots tail.room r.room seat.old.me seat.new.me × HasUse seat.new.me r) }
{
    leads_to(words.load::<Reread>(seat, LINKS + tail.room), tail.bit)
}

/// Takes the right to dequeue and returns the tail, or `None` if another party has the right.
pub(crate) fn take<E: Drop>(words: &Words<E>, seat: &mut PartySeat<E>) -> Option<RoomUse>
    requires table { IsSeatOf seat.old.table_id words.now.table_id }
    requires rest { IsResting words.now.table_id.slots seat.old.me }
    ensures table { seat.new.table_id ≡ seat.old.table_id }
    ensures took { MatchOption result (AsksRight words.now.table_id.slots 0 seat.old.me seat.new.me)
        (λ t. AsksRight words.now.table_id.slots (suc t.room) seat.old.me seat.new.me × HasUse seat.new.me t) }
{
    free_tail(words.swap::<Take>(seat, RIGHT, 0))
}

/// Reads the link of a tail that is not the stub. If it leads on, returns the new tail and what was in the slot; if it
/// is null, returns `None`.
pub(crate) fn look<E: Drop>(
    words: &Words<E>,
    seat: &mut PartySeat<E>,
    tail: RoomUse,
) -> Option<(RoomUse, E)>
    requires table { IsSeatOf seat.old.table_id words.now.table_id }
    requires holding { IsHolding words.now.table_id.slots tail.room seat.old.me }
    requires knows { HasUse seat.old.me tail }
    requires real { tail.room ≢ 0 }
    ensures table { seat.new.table_id ≡ seat.old.table_id }
    ensures answer { MatchOption result
        (MovesTo (Event.Look (name (view seat.old.me)) ∷ []) (Null tail.room) seat.old.me seat.new.me)
        (λ r. HandsOneOut (Event.Look (name (view seat.old.me)) ∷ []) words.now.table_id.slots tail.room r.0.room r.1
        seat.old.me seat.new.me) }
    ensures knows { MatchOption result (HasUse seat.new.me tail) (λ r. HasUse seat.new.me r.0) }
    ensures rooms { free_chain (view seat.new.me) ≡ all_rooms (view seat.old.me) }
{
    let link = words.load::<Look>(seat, LINKS + tail.room);
    let Some(next) = leads_to(link, tail.bit) else {
        return None;
    };
    let Some(item) = words.exchange(seat, tail.room, None) else {
        unreachable!()
    };
    Some((next, item))
}
