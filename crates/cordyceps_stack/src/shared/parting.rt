//! How a shared stack is created, and how its parties are split and absorbed.
ghost use Rattle.std.specs.Prelude.{◌≡◌, ◌<◌, ◌≤◌, ◌+◌, ◌^◌, ℕ, suc, List, [], ◌∷◌, ◌++◌, take, drop, IfOk};
ghost use Rattle.cordyceps_shared.specs.FreeChains.{joined, IsTied, MayJoin, Tracks};
ghost use Rattle.cordyceps_shared.specs.Knowing.{IsKnown};
ghost use Rattle.cordyceps_shared.specs.Slots.{Near};
ghost use Rattle.cordyceps_stack.specs.History.{Legal};
ghost use Rattle.cordyceps_stack.specs.Shared.Parting.{view_keeping, view_giving, view_absorbing};
ghost use Rattle.cordyceps_stack.specs.Shared.Parts.{IsSeatOf, HoldsFirst, Relinked, HasAbsorbed};
ghost use Rattle.cordyceps_stack.specs.Shared.Order as spec;
ghost use Rattle.cordyceps_stack.specs.Shared.Order.{leads_before};
ghost use Rattle.cordyceps_stack.specs.Shared.Slots.{Hand, view, hand, vacant, AreNew};
ghost use Rattle.cordyceps_stack.specs.Shared.Plays.{IsResting};
ghost use Rattle.cordyceps_stack.specs.Shared.View.{newcomer};

use crate::shared::plays::{Append, Cut, Hold, HoldLast, Learn, Merge, Return};
use crate::shared::slot::Slot;
use crate::shared::table::{OwnedTable, PartySeat, QUIET, WORDS, Words};
use atomic_table::{Refused, Table};
use cordyceps_base::shared::MAX_ROOMS;
use cordyceps_shared::free::{Count, FreeRooms};
use cordyceps_shared::layout::HEAD;
use std::alloc::{AllocError, Global};
use std::marker::Brand;

/// The greatest number of rooms of a stack whose rooms are in crosswise order.
const MAX_CROSSWISE: usize = 1 << 18;

/// Returns whether a stack has the whole block of `side` rows and columns that a room is in.
fn has_block(rooms: usize, side: usize, room: usize) -> bool
    requires { (room < rooms) × (rooms ≤ MAX_CROSSWISE) × (0 < side) × (side ≤ 32) }
    ensures { result ≡ spec.has_block rooms side room }
{
    let block = side * side;
    room / block * block + block <= rooms
}

/// Returns the room whose row in the block is this one's column, and whose column is its row.
fn across(side: usize, room: usize) -> usize
    requires { (room < MAX_CROSSWISE) × (0 < side) × (side ≤ 32) }
    ensures { result ≡ spec.across side room }
{
    let block = side * side;
    let (row, column) = (room % block / side, room % block % side);
    room / block * block + column * side + row
}

/// Returns the room at a place of the order in which a new stack's rooms are used, the last place first. The function
/// is its own inverse: it also returns the place of a room.
///
/// The order is by blocks of rooms, whose rows become columns. So rooms that are used one after another are 32 rooms
/// apart, and in different cache lines. Next to each other, a push and the walk of a taker would take the same line
/// from each other at each element: in a model that took 1.5 to 2.2 times as long. The rooms behind the last whole
/// block of 32 rows are in blocks of 16 and of 8 rows, and less than 64 of them in no block. On one thread with
/// 1,000,000 rooms the order took 1.12 times as long, so a stack of more than `MAX_CROSSWISE` rooms does not have it.
fn crosswise(rooms: usize, place: usize) -> usize
    requires { (place < rooms) × (rooms ≤ MAX_ROOMS) }
    ensures { result ≡ spec.crosswise rooms place }
{
    if rooms > MAX_CROSSWISE {
        place
    } else if has_block(rooms, 32, place) {
        across(32, place)
    } else if has_block(rooms, 16, place) {
        across(16, place)
    } else if has_block(rooms, 8, place) {
        across(8, place)
    } else {
        place
    }
}

/// Returns the link of a room of a new stack, which leads to the room at the place before.
fn first_link(rooms: usize, room: usize) -> u32
    requires { (room < rooms) × (rooms ≤ MAX_ROOMS) }
    ensures { result ≡ leads_before rooms (spec.crosswise rooms room) }
{
    let place = crosswise(rooms, room);
    if place == 0 {
        return 0;
    }
    crosswise(rooms, place - 1) as u32 + 1
}

/// Creates the slots of an empty stack with `rooms` rooms. The link of each leads to the room at the place before.
fn slots<E>(alloc: Global, rooms: usize) -> Result<Vec<Slot<E>>, AllocError>
    requires { rooms ≤ MAX_ROOMS }
    ensures { IfOk result (λ slots. AreNew slots.items rooms) }
{
    let mut slots = Vec::with_capacity(alloc, rooms)?;
    for room in 0..rooms {
        slots.push_reserved(Slot::Free {
            link: first_link(rooms, room),
        });
    }
    Ok(slots)
}

/// Creates the words and slots of an empty stack with `rooms` rooms, and the seat of the party that has them all.
pub(crate) fn open<E: Drop>(
    alloc: Global,
    rooms: usize,
) -> Result<(OwnedTable<E>, PartySeat<E>), AllocError>
    requires { rooms ≤ MAX_ROOMS }
    ensures { IfOk result (λ r. IsSeatOf r.1.table_id r.0.shared.table_id × (r.0.shared.table_id.slots ≡ rooms)
        × (r.1.me ≡ (newcomer rooms, []))) }
{
    let slots = slots(alloc, rooms)?;
    match Table::new(alloc, &[0; WORDS], slots, &rooms) {
        Ok(made) => Ok(made),
        Err(Refused { .. }) => Err(AllocError),
    }
}

fn cut<E: Drop, B: Count>(words: &Words<E>, seat: &mut PartySeat<E>, rooms: usize) -> PartySeat<E>
    requires table { IsSeatOf seat.old.table_id words.now.table_id }
    requires rest { IsResting words.now.table_id.slots seat.old.me × (B.rooms ≡ rooms) }
    ensures table { (seat.new.table_id ≡ seat.old.table_id) × (result.table_id ≡ seat.old.table_id) }
    ensures views { (seat.new.me ≡ (view_keeping rooms (view seat.old.me), []))
        × (result.me ≡ (view_giving rooms (view seat.old.me), [])) }
{
    words.split_seat::<Cut<B>>(seat)
}

/// Takes the slots of the first `rooms` free rooms.
fn hold<E: Drop, B: Count>(words: &Words<E>, seat: &mut PartySeat<E>, rooms: usize)
    requires table { IsSeatOf seat.old.table_id words.now.table_id }
    requires rest { IsResting words.now.table_id.slots seat.old.me × (B.rooms ≡ rooms) }
    ensures table { seat.new.table_id ≡ seat.old.table_id }
    ensures holds { HoldsFirst rooms seat.old.me seat.new.me }
{
    words.load::<Hold<B>>(seat, QUIET);
}

/// Returns the link in the first slot in hand, which is this room's, and turns to the next slot.
fn next<E: Drop>(words: &Words<E>, seat: &mut PartySeat<E>, room: usize) -> u64
    requires table { IsSeatOf seat.old.table_id words.now.table_id }
    requires vacant { (link : ℕ) × (others : Hand E) × (hand seat.old.me ≡ (room, vacant link) ∷ others) }
    ensures table { seat.new.table_id ≡ seat.old.table_id }
    ensures turned { (link : ℕ) → (others : Hand E) → hand seat.old.me ≡ (room, vacant link) ∷ others
        → (result ≡ link) × (seat.new.me ≡ (view seat.old.me, others ++ (room, vacant link) ∷ [])) }
{
    let link = seat.slot_mut(words, room).link();
    seat.turn();
    link as u64
}

/// Returns the word that leads to the free room after the first `rooms`, and the last of these. Where these are all, no
/// link is read.
pub(crate) fn skip_rooms<E: Drop>(
    words: &Words<E>,
    seat: &mut PartySeat<E>,
    free: &FreeRooms,
    rooms: usize,
) -> (u64, usize)
    requires table { IsSeatOf seat.old.table_id words.now.table_id }
    requires rest { IsResting words.now.table_id.slots seat.old.me }
    requires rooms { Tracks free.now (view seat.old.me).free × (rooms ≤ free.now.count) }
    ensures seat { (seat.new.table_id ≡ seat.old.table_id) × (seat.new.me ≡ seat.old.me) }
    ensures first { (r : ℕ) → (rs : List ℕ) → drop rooms (view seat.old.me).free.rooms ≡ r ∷ rs → result.0 ≡ suc r }
    ensures last { (before : List ℕ) → (r : ℕ) → take rooms (view seat.old.me).free.rooms ≡ before ++ r ∷ []
        → result.1 ≡ r }
{
    if rooms == free.count {
        return (0, free.last);
    }
    hold::<E, Brand>(words, seat, rooms);
    let mut at = free.first;
    let mut last = 0;
    for _room in 0..rooms {
        last = at as usize - 1;
        at = next(words, seat, last);
    }
    words.load::<Return>(seat, QUIET);
    (at, last)
}

/// Splits a seat, which has half of the first name and the first rooms of another, off that.
pub(crate) fn split<E: Drop>(
    words: &Words<E>,
    seat: &mut PartySeat<E>,
    free: &mut FreeRooms,
    rooms: usize,
) -> (PartySeat<E>, FreeRooms)
    requires table { IsSeatOf seat.old.table_id words.now.table_id }
    requires rest { IsResting words.now.table_id.slots seat.old.me }
    requires rooms { Tracks free.old (view seat.old.me).free × (rooms ≤ free.old.count) }
    ensures table { (seat.new.table_id ≡ seat.old.table_id) × (result.0.table_id ≡ seat.old.table_id) }
    ensures views { (seat.new.me ≡ (view_keeping rooms (view seat.old.me), []))
        × (result.0.me ≡ (view_giving rooms (view seat.old.me), [])) }
    ensures tracks { Tracks free.new (view seat.new.me).free × Tracks result.1 (view result.0.me).free }
{
    let (after, last) = skip_rooms(words, seat, free, rooms);
    let given = FreeRooms {
        first: free.first,
        last,
        count: rooms,
    };
    free.first = after;
    free.count -= rooms;
    (cut::<E, Brand>(words, seat, rooms), given)
}

/// Returns a link to the first free room, or 0 if there is none.
pub(crate) fn link_to_first(free: &FreeRooms) -> u32
    requires { 0 < free.now.count → free.now.first ≤ MAX_ROOMS }
    ensures { 0 < free.now.count → result ≡ free.now.first }
{
    if free.count == 0 {
        0
    } else {
        free.first as u32
    }
}

/// Links a free room, whose slot is the first in hand, to the room that `at` leads to.
pub(crate) fn lead<E: Drop>(words: &Words<E>, seat: &mut PartySeat<E>, room: usize, at: u32)
    requires table { IsSeatOf seat.old.table_id words.now.table_id }
    requires vacant { (link : ℕ) × (others : Hand E) × (hand seat.old.me ≡ (room, vacant link) ∷ others) }
    ensures table { seat.new.table_id ≡ seat.old.table_id }
    ensures leads { (link : ℕ) → (others : Hand E) → hand seat.old.me ≡ (room, vacant link) ∷ others
        → seat.new.me ≡ (view seat.old.me, (room, vacant at) ∷ others) }
{
    seat.slot_mut(words, room).set_link(at);
}

/// Puts rooms in front of the free ones. The last of them leads to the first of these.
pub(crate) fn put_in_front(free: &mut FreeRooms, front: FreeRooms)
    requires { free.old.count + front.count < 2 ^ 64 }
    ensures first { free.new.first ≡ front.first }
    ensures alone { free.old.count ≡ 0 → free.new.last ≡ front.last }
    ensures last { 0 < free.old.count → free.new.last ≡ free.old.last }
    ensures count { free.new.count ≡ free.old.count + front.count }
{
    if free.count == 0 {
        free.last = front.last;
    }
    free.first = front.first;
    free.count += front.count;
}

/// Links the last free room to the room that `at` leads to, which is about to follow it. If there is no free room, that
/// becomes the first.
fn tie<E: Drop>(words: &Words<E>, seat: &mut PartySeat<E>, free: &mut FreeRooms, at: u64)
    requires table { IsSeatOf seat.old.table_id words.now.table_id }
    requires few { at ≤ words.now.table_id.slots }
    requires rest { IsResting words.now.table_id.slots seat.old.me }
    requires tracks { Tracks free.old (view seat.old.me).free }
    ensures table { seat.new.table_id ≡ seat.old.table_id }
    ensures ties { Relinked seat.old.me seat.new.me × IsTied (view seat.new.me).free at }
    ensures tracks { Tracks free.new (view seat.new.me).free × (free.new.count ≡ free.old.count) }
    ensures first { (view seat.new.me).free.rooms ≡ [] → free.new.first ≡ at }
{
    if free.count == 0 {
        free.first = at;
    } else {
        words.load::<HoldLast>(seat, QUIET);
        lead(words, seat, free.last, at as u32);
        words.load::<Append>(seat, QUIET);
    }
}

/// Links the free rooms of another seat, which are about to follow those of this one.
fn append<E: Drop>(
    words: &Words<E>,
    seat: &mut PartySeat<E>,
    free: &mut FreeRooms,
    other: FreeRooms,
    _seat: &PartySeat<E>,
)
    requires table { IsSeatOf seat.old.table_id words.now.table_id }
    requires rest { IsResting words.now.table_id.slots seat.old.me }
    requires near { Near words.now.table_id.slots (view _seat.now.me).free.rooms }
    requires tracks { Tracks free.old (view seat.old.me).free × Tracks other (view _seat.now.me).free }
    ensures table { seat.new.table_id ≡ seat.old.table_id }
    ensures same { Relinked seat.old.me seat.new.me }
    ensures joins { MayJoin (view seat.new.me).free (view _seat.now.me).free }
    ensures tracks { Tracks (record free.new { count = free.new.count + other.count })
        (joined (view seat.new.me).free (view _seat.now.me).free) }
{
    if other.count > 0 {
        tie(words, seat, free, other.first);
        free.last = other.last;
    }
}

/// Absorbs another seat. What one of the two had seen is a prefix of what the other had.
pub(crate) fn absorb<E: Drop>(
    words: &Words<E>,
    seat: &mut PartySeat<E>,
    free: &mut FreeRooms,
    other: PartySeat<E>,
    rooms: FreeRooms,
)
    requires table { IsSeatOf seat.old.table_id words.now.table_id × IsSeatOf other.table_id words.now.table_id }
    requires rest { IsResting words.now.table_id.slots seat.old.me × IsResting words.now.table_id.slots other.me }
    requires tracks { Tracks free.old (view seat.old.me).free × Tracks rooms (view other.me).free }
    ensures table { seat.new.table_id ≡ seat.old.table_id }
    ensures absorbed { HasAbsorbed seat.old.me other.me seat.new.me }
    ensures known { IsKnown (λ h. Legal h) (view_absorbing (view seat.old.me) (view other.me)).known }
    ensures tracks { Tracks free.new (view seat.new.me).free }
{
    append(words, seat, free, rooms, &other);
    words.join_seat::<Merge>(seat, other);
    words.load::<Learn>(seat, HEAD);
    free.count += rooms.count;
}
