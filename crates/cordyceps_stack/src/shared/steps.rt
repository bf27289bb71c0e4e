//! The atomic steps of a shared stack on its head. Each function is a part of a call.
ghost use Rattle.std.specs.Prelude.{◌≡◌, ◌≢◌, ◌<◌, ◌≤◌, ℕ, suc, List, [], ◌∷◌, MatchResult, MatchOption, IsTrue};
ghost use Rattle.cordyceps_shared.specs.FreeChains.{Tracks, leads, with_first};
ghost use Rattle.cordyceps_stack.specs.Shared.Parts.{IsSeatOf, Settled, HasMissed, HasPushed, SettlesAt, TookAll};
ghost use Rattle.cordyceps_stack.specs.Shared.Parts.{HasTried};
ghost use Rattle.cordyceps_stack.specs.History as event;
ghost use Rattle.cordyceps_stack.specs.Shared.Plays.{Sees, IsResting, IsReady, IsBegun};
ghost use Rattle.cordyceps_stack.specs.Shared.Slots.{Hand, view, hand, filled, vacant};
ghost use Rattle.cordyceps_stack.specs.Shared.Calls.{EndsLooked};
ghost use Rattle.cordyceps_stack.specs.Shared.View.{Idle, name};
ghost use Rattle.cordyceps_stack.specs.Shared.View as doing;
ghost use Rattle.cordyceps_shared.specs.Shares.{whole};

use crate::shared::plays::{Begin, Exchange, Load, Look, Return, Take};
use crate::shared::slot::Slot;
use crate::shared::table::{PartySeat, QUIET, Words};
use cordyceps_shared::free::FreeRooms;
use cordyceps_shared::layout::HEAD;
use crossbeam_utils::Backoff;
use std::sync::Wait;

/// Reads the head, and takes the slot of the first free room.
fn begin<E: Drop>(words: &Words<E>, seat: &mut PartySeat<E>, _room: usize) -> u64
    requires table { IsSeatOf seat.old.table_id words.now.table_id }
    requires rest { IsResting words.now.table_id.slots seat.old.me }
    requires room { (rs : List ℕ) × ((view seat.old.me).free.rooms ≡ _room ∷ rs) }
    ensures table { seat.new.table_id ≡ seat.old.table_id }
    ensures begun { (rs : List ℕ) → (view seat.old.me).free.rooms ≡ _room ∷ rs
        → IsBegun words.now.table_id.slots _room rs result seat.old.me seat.new.me }
{
    words.load::<Begin>(seat, HEAD)
}

/// Fills the slot of the room, and links the room to what was read. Returns the link that the room had. The slot has no
/// element before, so nothing has to be dropped.
fn fill<E: Drop>(words: &Words<E>, seat: &mut PartySeat<E>, room: usize, read: u64, item: E) -> u32
    requires table { IsSeatOf seat.old.table_id words.now.table_id }
    requires few { read ≤ words.now.table_id.slots }
    requires vacant { (link : ℕ) × (hand seat.old.me ≡ (room, vacant link) ∷ []) }
    ensures table { seat.new.table_id ≡ seat.old.table_id }
    ensures had { hand seat.old.me ≡ (room, vacant result) ∷ [] }
    ensures fills { seat.new.me ≡ (view seat.old.me, (room, filled item read) ∷ []) }
{
    let filled = Slot::Used {
        link: read as u32,
        item,
    };
    let Slot::Free { link } = words.exchange(seat, room, filled) else {
        unreachable!()
    };
    link
}

/// Links the room, whose slot is the first in hand, to what was read.
pub(crate) fn relink<E: Drop>(words: &Words<E>, seat: &mut PartySeat<E>, room: usize, read: u64)
    requires table { IsSeatOf seat.old.table_id words.now.table_id }
    requires few { read ≤ words.now.table_id.slots }
    requires filled { (x : E) × (link : ℕ) × (others : Hand E)
        × (hand seat.old.me ≡ (room, filled x link) ∷ others) }
    ensures table { seat.new.table_id ≡ seat.old.table_id }
    ensures links { (x : E) → (link : ℕ) → (others : Hand E) → hand seat.old.me ≡ (room, filled x link) ∷ others
        → seat.new.me ≡ (view seat.old.me, (room, filled x read) ∷ others) }
{
    seat.slot_mut(words, room).set_link(read as u32);
}

/// Reads the head, for another try.
fn load<E: Drop>(words: &Words<E>, seat: &mut PartySeat<E>, _room: usize) -> u64
    requires table { IsSeatOf seat.old.table_id words.now.table_id }
    requires ready { (x : E) × IsReady words.now.table_id.slots _room x seat.old.me }
    ensures table { seat.new.table_id ≡ seat.old.table_id }
    ensures doing { (view seat.new.me).doing ≡ doing.Loaded _room result }
    ensures few { result ≤ words.now.table_id.slots }
    ensures same { ((view seat.new.me).free ≡ (view seat.old.me).free) × (hand seat.new.me ≡ hand seat.old.me) }
    ensures sees { Sees (view seat.old.me) (event.Load (name (view seat.old.me)) ∷ []) (view seat.new.me) }
{
    words.load::<Load>(seat, HEAD)
}

/// Exchanges the head with the room if it is still what was read, and returns `true` if it was.
fn settle<E: Drop>(words: &Words<E>, seat: &mut PartySeat<E>, room: usize, read: u64) -> bool
    requires table { IsSeatOf seat.old.table_id words.now.table_id }
    requires filled { (x : E) × (hand seat.old.me ≡ (room, filled x read) ∷ []) }
    requires loaded { (view seat.old.me).doing ≡ doing.Loaded room read }
    requires named { (view seat.old.me).known.share ≢ [] }
    requires inside { room < words.now.table_id.slots }
    ensures table { seat.new.table_id ≡ seat.old.table_id }
    ensures settled { (x : E) → hand seat.old.me ≡ (room, filled x read) ∷ []
        → Settled room read x result seat.old.me seat.new.me }
{
    words.compare_exchange::<Exchange>(seat, HEAD, read, room as u64 + 1) == read
}

/// Tries once to push what is in the slot in hand, and returns whether the stack was empty. If another party came
/// between, it returns `None`.
fn attempt<E: Drop>(words: &Words<E>, seat: &mut PartySeat<E>, room: usize) -> Option<bool>
    requires table { IsSeatOf seat.old.table_id words.now.table_id }
    requires ready { (x : E) × IsReady words.now.table_id.slots room x seat.old.me }
    ensures table { seat.new.table_id ≡ seat.old.table_id }
    ensures answer { (x : E) → IsReady words.now.table_id.slots room x seat.old.me → MatchOption result
        (IsReady words.now.table_id.slots room x seat.new.me × HasMissed seat.old.me seat.new.me)
        (λ was_empty. SettlesAt words.now.table_id.slots 1 x was_empty seat.old.me seat.new.me) }
{
    let read = load(words, seat, room);
    relink(words, seat, room, read);
    if settle(words, seat, room, read) {
        Some(read == 0)
    } else {
        None
    }
}

/// Tries once to push an element into the first free room. Returns the link that the room had, and whether the stack
/// was empty, or `None` if another party came between. Then the room's slot stays in hand, with the element.
fn first_attempt<E: Drop>(
    words: &Words<E>,
    seat: &mut PartySeat<E>,
    room: usize,
    item: E,
) -> (u32, Option<bool>)
    requires table { IsSeatOf seat.old.table_id words.now.table_id }
    requires rest { IsResting words.now.table_id.slots seat.old.me }
    requires room { (rs : List ℕ) × ((view seat.old.me).free.rooms ≡ room ∷ rs) }
    ensures table { seat.new.table_id ≡ seat.old.table_id }
    ensures tried { HasTried words.now.table_id.slots room item result.0 result.1 seat.old.me seat.new.me }
{
    let read = begin(words, seat, room);
    let next = fill(words, seat, room, read, item);
    let was_empty = if settle(words, seat, room, read) {
        Some(read == 0)
    } else {
        None
    };
    (next, was_empty)
}

/// Empties the slot in hand and returns it. The room is the first free one again, and `next` leads to the one after it.
fn back_out<E: Drop>(words: &Words<E>, seat: &mut PartySeat<E>, room: usize, next: u32) -> E
    requires table { IsSeatOf seat.old.table_id words.now.table_id }
    requires ready { (x : E) × IsReady words.now.table_id.slots room x seat.old.me }
    requires next { next ≡ leads (view seat.old.me).free.rooms (view seat.old.me).free.end }
    ensures table { seat.new.table_id ≡ seat.old.table_id }
    ensures element { (x : E) → IsReady words.now.table_id.slots room x seat.old.me → result ≡ x }
    ensures seat { let old = view seat.old.me in
        seat.new.me ≡ (record old { doing = Idle; free = with_first room old.free }, []) }
{
    let vacant = Slot::Free { link: next };
    let Slot::Used { item, .. } = words.exchange(seat, room, vacant) else {
        unreachable!()
    };
    words.load::<Return>(seat, QUIET);
    item
}

/// Tries once to push into the first free room.
pub(crate) fn try_push<E: Drop>(
    words: &Words<E>,
    seat: &mut PartySeat<E>,
    free: &mut FreeRooms,
    item: E,
) -> Result<bool, E>
    requires table { IsSeatOf seat.old.table_id words.now.table_id }
    requires rest { IsResting words.now.table_id.slots seat.old.me }
    requires rooms { Tracks free.old (view seat.old.me).free × (0 < free.old.count) }
    ensures table { seat.new.table_id ≡ seat.old.table_id }
    ensures rest { IsResting words.now.table_id.slots seat.new.me }
    ensures tracks { Tracks free.new (view seat.new.me).free }
    ensures answer { MatchResult result
        (λ was_empty. HasPushed 1 item was_empty seat.old.me seat.new.me)
        (λ back. (back ≡ item) × HasMissed seat.old.me seat.new.me) }
{
    let room = free.first as usize - 1;
    match first_attempt(words, seat, room, item) {
        (next, Some(was_empty)) => {
            free.first = next as u64;
            free.count -= 1;
            Ok(was_empty)
        }
        (next, None) => Err(back_out(words, seat, room, next)),
    }
}

/// How many calls of `Backoff::spin` make a pause. Each gives twice as many spin-loop hints as the last, up to 64.
const SPINS: usize = 5;

/// Pauses for 31 spin-loop hints, the second time for 288, and from then on for 320. Meanwhile other parties push
/// several elements: a try takes longer the more parties try at a time.
pub(crate) fn pause(backoff: &Backoff) {
    for _ in 0..SPINS {
        backoff.spin();
    }
}

/// Pushes what is in the slot in hand, by as many tries as it needs, and returns whether the stack was empty. It pauses
/// after each failure.
fn settle_at_last<E: Drop, R: Wait>(
    rt: &R,
    words: &Words<E>,
    seat: &mut PartySeat<E>,
    room: usize,
) -> bool
    requires table { IsSeatOf seat.old.table_id words.now.table_id }
    requires ready { (x : E) × IsReady words.now.table_id.slots room x seat.old.me }
    ensures table { seat.new.table_id ≡ seat.old.table_id }
    ensures answer { (x : E) → IsReady words.now.table_id.slots room x seat.old.me
        → (tries : ℕ) × SettlesAt words.now.table_id.slots (suc tries) x result seat.old.me seat.new.me }
{
    let backoff = Backoff::new();
    for _ in rt.forever() {
        match attempt(words, seat, room) {
            Some(was_empty) => return was_empty,
            None => pause(&backoff),
        }
    }
    unreachable!()
}

/// Pushes into the first free room, by as many tries as it needs, and returns whether the stack was empty. The slot
/// stays in hand from try to try. It does not pause after the first failure: a pause takes longer than the step of
/// another party that made it fail.
pub(crate) fn push<E: Drop, R: Wait>(
    rt: &R,
    words: &Words<E>,
    seat: &mut PartySeat<E>,
    free: &mut FreeRooms,
    item: E,
) -> bool
    requires table { IsSeatOf seat.old.table_id words.now.table_id }
    requires rest { IsResting words.now.table_id.slots seat.old.me }
    requires rooms { Tracks free.old (view seat.old.me).free × (0 < free.old.count) }
    ensures table { seat.new.table_id ≡ seat.old.table_id }
    ensures rest { IsResting words.now.table_id.slots seat.new.me }
    ensures tracks { Tracks free.new (view seat.new.me).free }
    ensures pushed { (tries : ℕ) × HasPushed (suc tries) item result seat.old.me seat.new.me }
    ensures whole { (view seat.old.me).known.share ≡ whole → HasPushed 1 item result seat.old.me seat.new.me }
{
    let room = free.first as usize - 1;
    let (next, was_empty) = first_attempt(words, seat, room, item);
    free.first = next as u64;
    free.count -= 1;
    match was_empty {
        Some(was_empty) => was_empty,
        None => settle_at_last(rt, words, seat, room),
    }
}

/// Returns `true` if the stack has no element.
pub(crate) fn is_empty<E: Drop>(words: &Words<E>, seat: &mut PartySeat<E>) -> bool
    requires table { IsSeatOf seat.old.table_id words.now.table_id }
    requires rest { IsResting words.now.table_id.slots seat.old.me }
    ensures table { seat.new.table_id ≡ seat.old.table_id }
    ensures rest { IsResting words.now.table_id.slots seat.new.me
        × ((view seat.new.me).free ≡ (view seat.old.me).free) }
    ensures sees { Sees (view seat.old.me) (event.Load (name (view seat.old.me)) ∷ []) (view seat.new.me) }
    ensures answer { EndsLooked (IsTrue result) (name (view seat.old.me)) (view seat.new.me).known.seen }
{
    words.load::<Look>(seat, HEAD) == 0
}

/// Takes all elements and their slots in hand, and returns the word that leads to the first.
pub(crate) fn take<E: Drop>(words: &Words<E>, seat: &mut PartySeat<E>) -> u64
    requires table { IsSeatOf seat.old.table_id words.now.table_id }
    requires rest { IsResting words.now.table_id.slots seat.old.me }
    ensures table { seat.new.table_id ≡ seat.old.table_id }
    ensures took { TookAll words.now.table_id.slots result seat.old.me seat.new.me }
{
    words.swap::<Take>(seat, HEAD, 0)
}
