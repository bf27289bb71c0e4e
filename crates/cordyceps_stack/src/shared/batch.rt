//! How what a party took from a shared stack becomes a plain stack.
ghost use Rattle.std.specs.Prelude.{◌≡◌, ◌≢◌, ℕ, [], ◌∷◌, ◌++◌, map};
ghost use Rattle.cordyceps_shared.specs.FreeChains.{Tracks};
ghost use Rattle.cordyceps_stack.specs.Shared.Parts.{IsSeatOf, HasTaken, EmptiesHand};
ghost use Rattle.cordyceps_stack.specs.Cores.Stages.{room_elements};
ghost use Rattle.cordyceps_stack.specs.Shared.Batches.{in_order, with_next};
ghost use Rattle.cordyceps_stack.specs.Shared.Plays.{to_hand_out};
ghost use Rattle.cordyceps_stack.specs.Shared.Slots.{Hand, view, hand, filled, vacant, link_or};

use crate::shared::parting::{link_to_first, put_in_front};
use crate::shared::plays::Return;
use crate::shared::slot::Slot;
use crate::shared::table::{PartySeat, QUIET, Words};
use cordyceps_base::linked::Linked;
use cordyceps_base::stack::Links;
use cordyceps_shared::free::FreeRooms;
use cordyceps_single::stack::{Stack, put_last};
use std::mem;

/// Takes the element out of the first slot in hand, which is this room's, and turns to the next slot. Returns the
/// element, and the link that the room had. If it led to no room, it leads to `after` now.
fn empty<E: Drop>(words: &Words<E>, seat: &mut PartySeat<E>, room: usize, after: u32) -> (E, u64)
    requires table { IsSeatOf seat.old.table_id words.now.table_id }
    requires filled { (x : E) × (link : ℕ) × (others : Hand E)
        × (hand seat.old.me ≡ (room, filled x link) ∷ others) }
    ensures table { seat.new.table_id ≡ seat.old.table_id }
    ensures emptied { (x : E) → (link : ℕ) → (others : Hand E)
        → hand seat.old.me ≡ (room, filled x link) ∷ others
        → (result ≡ (x, link))
        × (seat.new.me ≡ (view seat.old.me, others ++ (room, vacant (link_or link after)) ∷ [])) }
{
    let slot = seat.slot_mut(words, room);
    let link = slot.link();
    let taken = mem::replace(slot, Slot::Free { link });
    // so that no link is written but the last
    if link == 0 {
        slot.set_link(after);
    }
    seat.turn();
    let Slot::Used { item, .. } = taken else {
        unreachable!()
    };
    (item, link as u64)
}

/// Adds an element at the front of a batch if that is to have the oldest first, and at its back otherwise.
fn add<T: Linked<Links<T>>, const OLDEST_FIRST: bool>(batch: &mut Stack<T>, item: T::Handle)
    ensures { batch.new ≡ with_next OLDEST_FIRST batch.old (T.element item) }
{
    if OLDEST_FIRST {
        batch.push(item);
    } else {
        put_last(batch, item);
    }
}

/// Moves the elements that the party took out of their slots, from the room that `at` leads to on, and returns the
/// slots. Their rooms, which stay linked, become the first free ones: the last of them leads to the party's other free
/// rooms. The elements come the last pushed first, or the oldest first.
pub(crate) fn hand_out<T: Linked<Links<T>>, const OLDEST_FIRST: bool>(
    words: &Words<T::Handle>,
    seat: &mut PartySeat<T::Handle>,
    free: &mut FreeRooms,
    at: u64,
) -> Stack<T>
    requires table { IsSeatOf seat.old.table_id words.now.table_id }
    requires taken { HasTaken words.now.table_id.slots at seat.old.me }
    requires tracks { Tracks free.old (view seat.old.me).free }
    ensures table { seat.new.table_id ≡ seat.old.table_id }
    ensures stack { result ≡ in_order OLDEST_FIRST (map T.element (room_elements (to_hand_out (view seat.old.me).doing))) }
    ensures seat { EmptiesHand words.now.table_id.slots seat.old.me seat.new.me }
    ensures tracks { Tracks free.new (view seat.new.me).free }
{
    let mut batch = Stack::new();
    if at == 0 {
        return batch;
    }
    let first = at;
    let after = link_to_first(free);
    let mut last = 0;
    let mut count = 0;
    let mut at = at;
    while at != 0 {
        last = at as usize - 1;
        let (item, below) = empty(words, seat, last, after);
        add::<T, OLDEST_FIRST>(&mut batch, item);
        count += 1;
        at = below;
    }
    words.load::<Return>(seat, QUIET);
    put_in_front(free, FreeRooms { first, last, count });
    batch
}
