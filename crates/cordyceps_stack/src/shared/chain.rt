//! How all elements of a plain stack are pushed at one step.
ghost use Rattle.std.specs.Prelude.{◌≡◌, ◌≤◌, ℕ, suc, List, ◌∷◌, length, map, MatchOption, MatchResult};
ghost use Rattle.cordyceps_shared.specs.FreeChains.{Tracks};
ghost use Rattle.cordyceps_shared.specs.Shares.{whole};
ghost use Rattle.cordyceps_stack.specs.Shared.Parts.{IsSeatOf, HoldsFirst, HasMissed, HasFilled, HasKept, HasBacked};
ghost use Rattle.cordyceps_stack.specs.Shared.Parts.{SettlesAllAt, HasPushedAll};
ghost use Rattle.cordyceps_stack.specs.Shared.Plays.{IsResting, IsReadyAll, elements_then};
ghost use Rattle.cordyceps_stack.specs.Shared.Slots.{Hand, view, hand, filled, vacant};

use crate::shared::batch::hand_out;
use crate::shared::plays::{ExchangeAll, Hold, LoadAll};
use crate::shared::slot::Slot;
use crate::shared::steps::{is_empty, pause, relink};
use crate::shared::table::{PartySeat, QUIET, Words};
use cordyceps_base::linked::Linked;
use cordyceps_base::stack::Links;
use cordyceps_shared::free::{Count, FreeRooms};
use cordyceps_shared::layout::HEAD;
use cordyceps_shared::required;
use cordyceps_single::stack::Stack;
use crossbeam_utils::Backoff;
use std::marker::Brand;
use std::mem;
use std::sync::Wait;

/// Takes the slots of the first free rooms: of one for an element, and of as many more as there are others.
fn hold<T: Linked<Links<T>>, B: Count>(
    words: &Words<T::Handle>,
    seat: &mut PartySeat<T::Handle>,
    _others: &Stack<T>,
)
    requires table { IsSeatOf seat.old.table_id words.now.table_id }
    requires rest { IsResting words.now.table_id.slots seat.old.me × (B.rooms ≡ suc (length _others.now)) }
    ensures table { seat.new.table_id ≡ seat.old.table_id }
    ensures holds { HoldsFirst (suc (length _others.now)) seat.old.me seat.new.me }
{
    words.load::<Hold<B>>(seat, QUIET);
}

/// Puts an element into the first slot in hand, which is this room's and has none. Returns the room's link, which
/// stays.
fn put<E: Drop>(words: &Words<E>, seat: &mut PartySeat<E>, room: usize, item: E) -> u64
    requires table { IsSeatOf seat.old.table_id words.now.table_id }
    requires vacant { (link : ℕ) × (others : Hand E) × (hand seat.old.me ≡ (room, vacant link) ∷ others) }
    ensures table { seat.new.table_id ≡ seat.old.table_id }
    ensures puts { (link : ℕ) → (others : Hand E) → hand seat.old.me ≡ (room, vacant link) ∷ others
        → (result ≡ link) × (seat.new.me ≡ (view seat.old.me, (room, filled item link) ∷ others)) }
{
    let slot = seat.slot_mut(words, room);
    let link = slot.link();
    mem::forget(mem::replace(slot, Slot::Used { link, item }));
    link as u64
}

/// Moves an element and the others into the slots of the first free rooms, which stay in hand. Their links lead from
/// each to the next. Returns the last of these rooms, whose slot is the first in hand.
fn fill<T: Linked<Links<T>>>(
    words: &Words<T::Handle>,
    seat: &mut PartySeat<T::Handle>,
    free: &mut FreeRooms,
    handle: T::Handle,
    others: Stack<T>,
) -> usize
    requires table { IsSeatOf seat.old.table_id words.now.table_id }
    requires rest { IsResting words.now.table_id.slots seat.old.me }
    requires rooms { Tracks free.old (view seat.old.me).free × (suc (length others) ≤ free.old.count) }
    ensures table { seat.new.table_id ≡ seat.old.table_id }
    ensures filled { (before : List (ℕ × T.Handle)) × (x : T.Handle)
        × HasFilled words.now.table_id.slots free.old.first before result x seat.old.me seat.new.me
        × (T.element handle ∷ others ≡ map T.element (elements_then before x)) }
    ensures tracks { Tracks free.new (view seat.new.me).free }
{
    hold::<T, Brand>(words, seat, &others);
    let mut others = others;
    let mut last = free.first as usize - 1;
    let mut next = put(words, seat, last, handle);
    let mut count = 1;
    while let Some(handle) = others.pop() {
        seat.turn();
        last = next as usize - 1;
        next = put(words, seat, last, handle);
        count += 1;
    }
    required::as_many_rooms(count, free.count);
    free.first = next;
    free.count -= count;
    last
}

/// Tries once to push what is in the slots in hand, and returns whether the stack was empty. If another party came
/// between, it returns `None`.
fn attempt<E: Drop>(
    words: &Words<E>,
    seat: &mut PartySeat<E>,
    first: u64,
    last: usize,
) -> Option<bool>
    requires table { IsSeatOf seat.old.table_id words.now.table_id }
    requires ready { (before : List (ℕ × E)) × (x : E)
        × IsReadyAll words.now.table_id.slots first before last x seat.old.me }
    ensures table { seat.new.table_id ≡ seat.old.table_id }
    ensures answer { (before : List (ℕ × E)) → (x : E)
        → IsReadyAll words.now.table_id.slots first before last x seat.old.me → MatchOption result
        (HasKept words.now.table_id.slots first before last x seat.new.me × HasMissed seat.old.me seat.new.me)
        (λ was_empty. SettlesAllAt words.now.table_id.slots 1 (elements_then before x) was_empty
        seat.old.me seat.new.me) }
{
    let read = words.load::<LoadAll>(seat, HEAD);
    relink(words, seat, last, read);
    if words.compare_exchange::<ExchangeAll>(seat, HEAD, read, first) == read {
        Some(read == 0)
    } else {
        None
    }
}

/// Pushes what is in the slots in hand, by as many tries as it needs, and returns whether the stack was empty. It
/// pauses after each failure.
fn settle_at_last<E: Drop, R: Wait>(
    rt: &R,
    words: &Words<E>,
    seat: &mut PartySeat<E>,
    first: u64,
    last: usize,
) -> bool
    requires table { IsSeatOf seat.old.table_id words.now.table_id }
    requires ready { (before : List (ℕ × E)) × (x : E)
        × IsReadyAll words.now.table_id.slots first before last x seat.old.me }
    ensures table { seat.new.table_id ≡ seat.old.table_id }
    ensures answer { (before : List (ℕ × E)) → (x : E)
        → IsReadyAll words.now.table_id.slots first before last x seat.old.me
        → (tries : ℕ) × SettlesAllAt words.now.table_id.slots (suc tries) (elements_then before x) result
        seat.old.me seat.new.me }
{
    let backoff = Backoff::new();
    for _ in rt.forever() {
        match attempt(words, seat, first, last) {
            Some(was_empty) => return was_empty,
            None => pause(&backoff),
        }
    }
    unreachable!()
}

/// Tries once to push all elements into the first free rooms. If there is no element, it looks.
pub(crate) fn try_push_all<T: Linked<Links<T>>>(
    words: &Words<T::Handle>,
    seat: &mut PartySeat<T::Handle>,
    free: &mut FreeRooms,
    elements: Stack<T>,
) -> Result<bool, Stack<T>>
    requires table { IsSeatOf seat.old.table_id words.now.table_id }
    requires rest { IsResting words.now.table_id.slots seat.old.me }
    requires rooms { Tracks free.old (view seat.old.me).free × (length elements ≤ free.old.count) }
    ensures table { seat.new.table_id ≡ seat.old.table_id }
    ensures rest { IsResting words.now.table_id.slots seat.new.me }
    ensures tracks { Tracks free.new (view seat.new.me).free }
    ensures answer { MatchResult result
        (λ was_empty. (pushed : List T.Handle) × (elements ≡ map T.element pushed)
        × HasPushedAll 1 pushed was_empty seat.old.me seat.new.me)
        (λ back. (back ≡ elements) × HasBacked seat.old.me seat.new.me) }
{
    let mut others = elements;
    let Some(handle) = others.pop() else {
        return Ok(is_empty(words, seat));
    };
    let first = free.first;
    let last = fill(words, seat, free, handle, others);
    if let Some(was_empty) = attempt(words, seat, first, last) {
        return Ok(was_empty);
    }
    relink(words, seat, last, 0);
    seat.turn();
    Err(hand_out::<T, false>(words, seat, free, first))
}

/// Pushes all elements into the first free rooms, by as many tries as it needs, and returns whether the stack was
/// empty. The slots stay in hand from try to try. It pauses as a push of one element does. If there is no element, it
/// looks.
pub(crate) fn push_all<T: Linked<Links<T>>, R: Wait>(
    rt: &R,
    words: &Words<T::Handle>,
    seat: &mut PartySeat<T::Handle>,
    free: &mut FreeRooms,
    elements: Stack<T>,
) -> bool
    requires table { IsSeatOf seat.old.table_id words.now.table_id }
    requires rest { IsResting words.now.table_id.slots seat.old.me }
    requires rooms { Tracks free.old (view seat.old.me).free × (length elements ≤ free.old.count) }
    ensures table { seat.new.table_id ≡ seat.old.table_id }
    ensures rest { IsResting words.now.table_id.slots seat.new.me }
    ensures tracks { Tracks free.new (view seat.new.me).free }
    ensures pushed { (pushed : List T.Handle) × (elements ≡ map T.element pushed)
        × ((tries : ℕ) × HasPushedAll (suc tries) pushed result seat.old.me seat.new.me) }
    ensures whole { (view seat.old.me).known.share ≡ whole → (pushed : List T.Handle)
        × (elements ≡ map T.element pushed) × HasPushedAll 1 pushed result seat.old.me seat.new.me }
{
    let mut others = elements;
    let Some(handle) = others.pop() else {
        return is_empty(words, seat);
    };
    let first = free.first;
    let last = fill(words, seat, free, handle, others);
    match attempt(words, seat, first, last) {
        Some(was_empty) => was_empty,
        None => settle_at_last(rt, words, seat, first, last),
    }
}
