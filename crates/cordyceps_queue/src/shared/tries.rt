//! A try to dequeue, of a party that has the right or takes it for this try.
//!
//! A try is inlined into its caller, so that its outcome stays in registers. Only `put_stub` is called.
ghost use Rattle.std.specs.Prelude.{◌≡◌, ◌<◌, [], ◌∷◌};
ghost use Rattle.cordyceps_queue.specs.Shared.Parts.{IsSeatOf, Tries, Dequeued, TracksEnd};
ghost use Rattle.cordyceps_queue.specs.History.{Event};
ghost use Rattle.cordyceps_queue.specs.Shared.Uses.{HasUse};
ghost use Rattle.cordyceps_shared.specs.Slots.{view};
ghost use Rattle.cordyceps_queue.specs.Shared.Plays.{IsResting, IsHolding, IsAtStage};
ghost use Rattle.cordyceps_queue.specs.Shared.View.{name, free_chain, all_rooms};
ghost use Rattle.cordyceps_queue.specs.declared.cores.stage.Stage.TheVariants.{Second, Null, PutRead};

use crate::shared::linking::add_room;
use crate::shared::spare::Spare;
use crate::shared::steps::{give, look, reread, take};
use crate::shared::stub_steps::{
    head_of_stub, is_head, look_first, put_stub, read_second, take_out,
};
use crate::shared::table::{PartySeat, Tried, Words};
use crate::shared::uses::RoomUse;

/// Continues a try after the stub was put in after the tail.
#[inline(always)]
fn after_tail<E: Drop>(
    words: &Words<E>,
    seat: &mut PartySeat<E>,
    tail: RoomUse,
) -> (RoomUse, Tried<E>)
    requires table { IsSeatOf seat.old.table_id words.now.table_id }
    requires stage { IsAtStage words.now.table_id.slots (PutRead tail.room) seat.old.me
        × (tail.room < words.now.table_id.slots) }
    requires knows { HasUse seat.old.me tail }
    ensures table { seat.new.table_id ≡ seat.old.table_id }
    ensures answer { Tries [] words.now.table_id.slots seat.old.me seat.new.me result.0.room result.1 }
    ensures knows { HasUse seat.new.me result.0 }
    ensures rooms { free_chain (view seat.new.me) ≡ all_rooms (view seat.old.me) }
{
    match reread(words, seat, tail) {
        Some(next) => (
            next,
            Tried::Out(tail.room, take_out(words, seat, tail.room)),
        ),
        None => (tail, Tried::Inconsistent),
    }
}

/// Continues a try at a null link of a tail that is not the stub.
#[inline(always)]
fn at_end<E: Drop>(words: &Words<E>, seat: &mut PartySeat<E>, tail: RoomUse) -> (RoomUse, Tried<E>)
    requires table { IsSeatOf seat.old.table_id words.now.table_id }
    requires stage { IsAtStage words.now.table_id.slots (Null tail.room) seat.old.me
        × (tail.room < words.now.table_id.slots) }
    requires knows { HasUse seat.old.me tail }
    ensures table { seat.new.table_id ≡ seat.old.table_id }
    ensures answer { Tries [] words.now.table_id.slots seat.old.me seat.new.me result.0.room result.1 }
    ensures knows { HasUse seat.new.me result.0 }
    ensures rooms { free_chain (view seat.new.me) ≡ all_rooms (view seat.old.me) }
{
    if !is_head(words, seat, tail) {
        return (tail, Tried::Inconsistent);
    }
    put_stub(words, seat, tail);
    after_tail(words, seat, tail)
}

/// Continues a try after the stub was passed.
#[inline(always)]
fn after_stub<E: Drop>(
    words: &Words<E>,
    seat: &mut PartySeat<E>,
    tail: RoomUse,
) -> (RoomUse, Tried<E>)
    requires table { IsSeatOf seat.old.table_id words.now.table_id }
    requires stage { IsAtStage words.now.table_id.slots (Second tail.room) seat.old.me
        × (tail.room < words.now.table_id.slots) }
    requires knows { HasUse seat.old.me tail }
    ensures table { seat.new.table_id ≡ seat.old.table_id }
    ensures answer { Tries [] words.now.table_id.slots seat.old.me seat.new.me result.0.room result.1 }
    ensures knows { HasUse seat.new.me result.0 }
    ensures rooms { free_chain (view seat.new.me) ≡ all_rooms (view seat.old.me) }
{
    match read_second(words, seat, tail) {
        Some(next) => (
            next,
            Tried::Out(tail.room, take_out(words, seat, tail.room)),
        ),
        None => at_end(words, seat, tail),
    }
}

/// Tries once when the tail is the stub, in the use with this bit.
#[inline(always)]
fn look_stub<E: Drop>(words: &Words<E>, seat: &mut PartySeat<E>, bit: u64) -> (RoomUse, Tried<E>)
    requires table { IsSeatOf seat.old.table_id words.now.table_id }
    requires holding { IsHolding words.now.table_id.slots 0 seat.old.me }
    requires knows { HasUse seat.old.me record { room = 0; bit = bit } }
    ensures table { seat.new.table_id ≡ seat.old.table_id }
    ensures answer { Tries (Event.Look (name (view seat.old.me)) ∷ []) words.now.table_id.slots seat.old.me seat.new.me
        result.0.room result.1 }
    ensures knows { HasUse seat.new.me result.0 }
    ensures rooms { free_chain (view seat.new.me) ≡ all_rooms (view seat.old.me) }
{
    if let Some(next) = look_first(words, seat, bit) {
        return after_stub(words, seat, next);
    }
    let stub = RoomUse { room: 0, bit };
    if head_of_stub(words, seat) == 0 {
        return (stub, Tried::Empty);
    }
    (stub, Tried::Inconsistent)
}

/// Tries once, and leaves the room of an element that comes out unlinked to the free rooms.
#[inline(always)]
fn attempt<E: Drop>(words: &Words<E>, seat: &mut PartySeat<E>, tail: RoomUse) -> (RoomUse, Tried<E>)
    requires table { IsSeatOf seat.old.table_id words.now.table_id }
    requires holding { IsHolding words.now.table_id.slots tail.room seat.old.me }
    requires knows { HasUse seat.old.me tail }
    ensures table { seat.new.table_id ≡ seat.old.table_id }
    ensures answer { Tries (Event.Look (name (view seat.old.me)) ∷ []) words.now.table_id.slots seat.old.me seat.new.me
        result.0.room result.1 }
    ensures knows { HasUse seat.new.me result.0 }
    ensures rooms { free_chain (view seat.new.me) ≡ all_rooms (view seat.old.me) }
{
    if tail.room == 0 {
        return look_stub(words, seat, tail.bit);
    }
    match look(words, seat, tail) {
        Some((next, item)) => (next, Tried::Out(tail.room, item)),
        None => at_end(words, seat, tail),
    }
}

/// Tries once, as the party that has the right, and returns the tail after the try and the outcome. The room of an
/// element that comes out follows the party's free rooms.
#[inline(always)]
pub(crate) fn advance<E: Drop>(
    words: &Words<E>,
    seat: &mut PartySeat<E>,
    spare: &mut Spare,
    tail: RoomUse,
) -> (RoomUse, Tried<E>)
    requires table { IsSeatOf seat.old.table_id words.now.table_id }
    requires holding { IsHolding words.now.table_id.slots tail.room seat.old.me }
    requires knows { HasUse seat.old.me tail }
    requires tracks { TracksEnd spare.old (all_rooms (view seat.old.me)) }
    ensures table { seat.new.table_id ≡ seat.old.table_id }
    ensures holding { IsHolding words.now.table_id.slots result.0.room seat.new.me }
    ensures tracks { TracksEnd spare.new (all_rooms (view seat.new.me)) }
    ensures answer { Tries (Event.Look (name (view seat.old.me)) ∷ []) words.now.table_id.slots seat.old.me seat.new.me
        result.0.room result.1 }
    ensures knows { HasUse seat.new.me result.0 }
{
    let (next, tried) = attempt(words, seat, tail);
    match tried {
        Tried::Out(room, item) => {
            add_room(words, seat, spare, room, next.room);
            (next, Tried::Out(room, item))
        }
        Tried::Empty => (next, Tried::Empty),
        Tried::Inconsistent => (next, Tried::Inconsistent),
    }
}

/// Takes the right, tries once, and gives the right back. Returns `None` if another party has the right.
pub(crate) fn try_dequeue<E: Drop>(
    words: &Words<E>,
    seat: &mut PartySeat<E>,
    spare: &mut Spare,
) -> Option<Tried<E>>
    requires table { IsSeatOf seat.old.table_id words.now.table_id }
    requires rest { IsResting words.now.table_id.slots seat.old.me }
    requires tracks { TracksEnd spare.old (free_chain (view seat.old.me)) }
    ensures table { seat.new.table_id ≡ seat.old.table_id }
    ensures rest { IsResting words.now.table_id.slots seat.new.me }
    ensures tracks { TracksEnd spare.new (free_chain (view seat.new.me)) }
    ensures answer { Dequeued words.now.table_id.slots seat.old.me seat.new.me result }
{
    let Some(tail) = take(words, seat) else {
        return None;
    };
    let (tail, tried) = advance(words, seat, spare, tail);
    give(words, seat, tail);
    Some(tried)
}
