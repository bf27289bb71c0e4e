//! The atomic steps of a try to dequeue at the stub, and of putting the stub in. Each function is a part of a call.
ghost use Rattle.std.specs.Prelude.{◌≡◌, ◌≢◌, ◌<◌, ℕ, suc, [], ◌∷◌, true, false, Some, None, MatchOption};
ghost use Rattle.cordyceps_queue.specs.History.{Event};
ghost use Rattle.cordyceps_queue.specs.Shared.Plays.{IsHolding, IsAtStage, PassesStub, Blocked, HandsOut, MovesTo};
ghost use Rattle.cordyceps_queue.specs.Shared.Uses.{HasUse};
ghost use Rattle.cordyceps_shared.specs.Slots.{view, hand};
ghost use Rattle.cordyceps_queue.specs.Shared.Parts.{IsSeatOf};
ghost use Rattle.cordyceps_queue.specs.Shared.View.{bit_of, name};
ghost use Rattle.cordyceps_queue.specs.declared.cores.stage.Stage.TheVariants.{Holding, StubNull, Second, Null, PutClear, PutSwap, PutLink, PutRead};

use crate::shared::plays::{BeginStub, Head, HeadStub, LinkStub, LookStub, Read, SwapStub};
use crate::shared::table::{PartySeat, Words};
use crate::shared::uses::{RoomUse, free_link, leads_to, link_to, pointed, pointer};
use cordyceps_shared::layout::{HEAD, LINKS};

/// Reads the stub's link, when the stub is the tail, in the use with this bit. If it leads on, returns the room there.
pub(crate) fn look_first<E: Drop>(
    words: &Words<E>,
    seat: &mut PartySeat<E>,
    bit: u64,
) -> Option<RoomUse>
    requires table { IsSeatOf seat.old.table_id words.now.table_id }
    requires holding { IsHolding words.now.table_id.slots 0 seat.old.me }
    requires knows { HasUse seat.old.me record { room = 0; bit = bit } }
    ensures table { seat.new.table_id ≡ seat.old.table_id }
    ensures answer { MatchOption result
        (MovesTo (Event.Look (name (view seat.old.me)) ∷ []) StubNull seat.old.me seat.new.me)
        (λ r. PassesStub words.now.table_id.slots r.room seat.old.me seat.new.me) }
    ensures knows { MatchOption result (HasUse seat.new.me record { room = 0; bit = bit })
        (λ r. HasUse seat.new.me r) }
{
    leads_to(words.load::<LookStub>(seat, LINKS), bit)
}

/// Reads the head, after the stub's link was null, and returns its room.
pub(crate) fn head_of_stub<E: Drop>(words: &Words<E>, seat: &mut PartySeat<E>) -> usize
    requires table { IsSeatOf seat.old.table_id words.now.table_id }
    requires stage { IsAtStage words.now.table_id.slots StubNull seat.old.me }
    ensures table { seat.new.table_id ≡ seat.old.table_id }
    ensures stub { result ≡ 0
        → MovesTo (Event.Empty (name (view seat.old.me)) ∷ []) (Holding 0) seat.old.me seat.new.me }
    ensures room { result ≢ 0 → MovesTo [] (Holding 0) seat.old.me seat.new.me × Blocked (view seat.new.me) }
    ensures bit { bit_of (view seat.new.me).bits 0 ≡ bit_of (view seat.old.me).bits 0 }
{
    pointed(words.load::<HeadStub>(seat, HEAD)).room
}

/// Reads the link of the tail that was after the stub. If it leads on, returns the new tail.
pub(crate) fn read_second<E: Drop>(
    words: &Words<E>,
    seat: &mut PartySeat<E>,
    tail: RoomUse,
) -> Option<RoomUse>
    requires table { IsSeatOf seat.old.table_id words.now.table_id }
    requires stage { IsAtStage words.now.table_id.slots (Second tail.room) seat.old.me
        × (tail.room < words.now.table_id.slots) }
    requires knows { HasUse seat.old.me tail }
    ensures table { seat.new.table_id ≡ seat.old.table_id }
    ensures answer { MatchOption result
        (MovesTo [] (Null tail.room) seat.old.me seat.new.me × HasUse seat.new.me tail)
        (λ r. HandsOut [] words.now.table_id.slots tail.room r.room seat.old.me seat.new.me × HasUse seat.new.me r) }
{
    leads_to(words.load::<Read>(seat, LINKS + tail.room), tail.bit)
}

/// Returns `true` if the tail, whose link was null, is the head too.
pub(crate) fn is_head<E: Drop>(words: &Words<E>, seat: &mut PartySeat<E>, tail: RoomUse) -> bool
    requires table { IsSeatOf seat.old.table_id words.now.table_id }
    requires stage { IsAtStage words.now.table_id.slots (Null tail.room) seat.old.me
        × (tail.room < words.now.table_id.slots) }
    requires knows { HasUse seat.old.me tail }
    ensures table { seat.new.table_id ≡ seat.old.table_id }
    ensures alone { result ≡ true → MovesTo [] (PutClear tail.room) seat.old.me seat.new.me }
    ensures passed { result ≡ false
        → MovesTo [] (Holding tail.room) seat.old.me seat.new.me × Blocked (view seat.new.me) }
    ensures knows { HasUse seat.new.me tail }
{
    words.load::<Head>(seat, HEAD) == pointer(tail)
}

/// Begins a use of the stub's room, by which its link is null, and returns it.
fn begin_stub<E: Drop>(words: &Words<E>, seat: &mut PartySeat<E>, _tail: RoomUse) -> RoomUse
    requires table { IsSeatOf seat.old.table_id words.now.table_id }
    requires stage { IsAtStage words.now.table_id.slots (PutClear _tail.room) seat.old.me }
    requires knows { HasUse seat.old.me _tail }
    ensures table { seat.new.table_id ≡ seat.old.table_id }
    ensures answer { MovesTo [] (PutSwap _tail.room) seat.old.me seat.new.me }
    ensures knows { HasUse seat.new.me _tail × HasUse seat.new.me result × (result.room ≡ 0) }
{
    RoomUse {
        room: 0,
        bit: free_link(words.load::<BeginStub>(seat, LINKS)).1,
    }
}

fn swap_stub<E: Drop>(
    words: &Words<E>,
    seat: &mut PartySeat<E>,
    _tail: RoomUse,
    stub: RoomUse,
) -> RoomUse
    requires table { IsSeatOf seat.old.table_id words.now.table_id }
    requires stage { IsAtStage words.now.table_id.slots (PutSwap _tail.room) seat.old.me }
    requires knows { HasUse seat.old.me _tail × HasUse seat.old.me stub × (stub.room ≡ 0) }
    ensures table { seat.new.table_id ≡ seat.old.table_id }
    ensures answer { MovesTo [] (PutLink _tail.room result.room) seat.old.me seat.new.me }
    ensures knows { HasUse seat.new.me _tail × HasUse seat.new.me stub × HasUse seat.new.me result }
    ensures near { result.room < words.now.table_id.slots }
{
    pointed(words.swap::<SwapStub>(seat, HEAD, pointer(stub)))
}

fn link_stub<E: Drop>(
    words: &Words<E>,
    seat: &mut PartySeat<E>,
    _tail: RoomUse,
    stub: RoomUse,
    old: RoomUse,
)
    requires table { IsSeatOf seat.old.table_id words.now.table_id }
    requires stage { IsAtStage words.now.table_id.slots (PutLink _tail.room old.room) seat.old.me
        × (old.room < words.now.table_id.slots) }
    requires knows { HasUse seat.old.me _tail × HasUse seat.old.me stub × HasUse seat.old.me old × (stub.room ≡ 0) }
    ensures table { seat.new.table_id ≡ seat.old.table_id }
    ensures answer { MovesTo [] (PutRead _tail.room) seat.old.me seat.new.me }
    ensures knows { HasUse seat.new.me _tail }
{
    words.store::<LinkStub>(seat, LINKS + old.room, link_to(stub, old.bit));
}

/// Puts the stub in at the head, after the tail.
#[inline(never)]
pub(crate) fn put_stub<E: Drop>(words: &Words<E>, seat: &mut PartySeat<E>, tail: RoomUse)
    requires table { IsSeatOf seat.old.table_id words.now.table_id }
    requires stage { IsAtStage words.now.table_id.slots (PutClear tail.room) seat.old.me }
    requires knows { HasUse seat.old.me tail }
    ensures table { seat.new.table_id ≡ seat.old.table_id }
    ensures answer { MovesTo [] (PutRead tail.room) seat.old.me seat.new.me }
    ensures knows { HasUse seat.new.me tail }
{
    let stub = begin_stub(words, seat, tail);
    let old = swap_stub(words, seat, tail, stub);
    link_stub(words, seat, tail, stub, old);
}

/// Takes the tail's element out of its slot, which the party has.
pub(crate) fn take_out<E: Drop>(words: &Words<E>, seat: &mut PartySeat<E>, tail: usize) -> E
    requires table { (seat.old.table_id ≡ words.now.table_id) × (tail < words.now.table_id.slots) }
    requires full { (e : E) × (hand seat.old.me ≡ (tail, Some e) ∷ []) }
    ensures table { seat.new.table_id ≡ seat.old.table_id }
    ensures element { hand seat.old.me ≡ (tail, Some result) ∷ [] }
    ensures seat { seat.new.me ≡ (view seat.old.me, (tail, None) ∷ []) }
{
    let item = words.exchange(seat, tail, None);
    let Some(item) = item else { unreachable!() };
    item
}
