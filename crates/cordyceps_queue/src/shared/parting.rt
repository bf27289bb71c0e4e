//! How a shared queue is created, and how its parties are split and absorbed.
ghost use Rattle.std.specs.Prelude.{◌≡◌, ◌+◌, ◌≤◌, [], IfOk};
ghost use Rattle.cordyceps_shared.specs.FreeChains.{joined, MayJoin};
ghost use Rattle.cordyceps_shared.specs.Histories.{plain};
ghost use Rattle.cordyceps_shared.specs.Knowing.{IsKnown};
ghost use Rattle.cordyceps_queue.specs.Shared.Calls.{NonePending, NoneHolds};
ghost use Rattle.cordyceps_queue.specs.Shared.Parting.{view_keeping, view_giving, view_absorbing};
ghost use Rattle.cordyceps_shared.specs.Slots.{Near, view};
ghost use Rattle.cordyceps_queue.specs.Shared.Plays.{IsResting, LegalReversed};
ghost use Rattle.cordyceps_queue.specs.Shared.Parts.{IsSeatOf, AreNewWords, Relinked, HasAbsorbed, TracksEnd};
ghost use Rattle.cordyceps_queue.specs.Shared.View.{newcomer, free_chain};

use crate::shared::linking::{skip_rooms, tie};
use crate::shared::plays::{Cut, Learn, Merge};
use crate::shared::spare::Spare;
use crate::shared::table::{OwnedTable, PartySeat, Words};
use crate::shared::uses::{RoomUse, free_link_to, free_right, null_link};
use atomic_table::Table;
use cordyceps_base::shared::MAX_ROOMS;
use cordyceps_shared::free::{Count, FreeRooms};
use cordyceps_shared::layout::{HEAD, LINKS, RIGHT};
use std::alloc::{AllocError, Global};
use std::marker::Brand;

/// Creates the words of an empty queue with `rooms` rooms beside the stub's. The link of each room leads to the room
/// before it, and the stub's is of an earlier use.
fn links(alloc: Global, rooms: usize) -> Result<Vec<u64>, AllocError>
    requires { rooms ≤ MAX_ROOMS }
    ensures { IfOk result (λ words. AreNewWords words.items rooms) }
{
    let mut words = vec![in alloc; 0; LINKS + rooms + 1]?;
    words[RIGHT] = free_right(RoomUse { room: 0, bit: 0 });
    for room in 0..rooms + 1 {
        words[LINKS + room] = free_link_to(room as u64);
    }
    words[LINKS] = null_link(0);
    Ok(words)
}

/// Creates the words and slots of an empty queue with `rooms` rooms beside the stub's, and the seat of the party that
/// has them all.
pub(crate) fn open<E: Drop>(
    alloc: Global,
    rooms: usize,
) -> Result<(OwnedTable<E>, PartySeat<E>), AllocError>
    requires { rooms ≤ MAX_ROOMS }
    ensures { IfOk result (λ r. IsSeatOf r.1.table_id r.0.shared.table_id
        × (r.0.shared.table_id.slots ≡ rooms + 1) × (r.1.me ≡ (newcomer rooms, []))) }
{
    let words = links(alloc, rooms)?;
    Table::vacant(alloc, words.as_slice(), rooms + 1, &rooms)
}

fn cut<E: Drop, B: Count>(words: &Words<E>, seat: &mut PartySeat<E>, rooms: usize) -> PartySeat<E>
    requires table { IsSeatOf seat.old.table_id words.now.table_id }
    requires rest { IsResting words.now.table_id.slots seat.old.me × (B.rooms ≡ rooms) }
    ensures table { (seat.new.table_id ≡ seat.old.table_id) × (result.table_id ≡ seat.old.table_id) }
    ensures views { (seat.new.me ≡ (view_keeping rooms (view seat.old.me), []))
        × (result.me ≡ (view_giving rooms (view seat.old.me), [])) }
{
    words.split_seat::<Cut<B>>(seat)
}

/// Splits a seat, which has half of the first name and the first free rooms of another, off that.
pub(crate) fn split<E: Drop>(
    words: &Words<E>,
    seat: &mut PartySeat<E>,
    spare: &mut Spare,
    rooms: usize,
) -> (PartySeat<E>, Spare)
    requires table { IsSeatOf seat.old.table_id words.now.table_id }
    requires rest { IsResting words.now.table_id.slots seat.old.me }
    requires rooms { TracksEnd spare.old (free_chain (view seat.old.me)) × (rooms ≤ spare.old.rooms.count) }
    ensures table { (seat.new.table_id ≡ seat.old.table_id) × (result.0.table_id ≡ seat.old.table_id) }
    ensures views { (seat.new.me ≡ (view_keeping rooms (view seat.old.me), []))
        × (result.0.me ≡ (view_giving rooms (view seat.old.me), [])) }
    ensures tracks { TracksEnd spare.new (free_chain (view seat.new.me))
        × TracksEnd result.1 (free_chain (view result.0.me)) }
{
    let (after, last) = skip_rooms(words, seat, spare, rooms);
    let given = Spare {
        rooms: FreeRooms {
            first: spare.rooms.first,
            last,
            count: rooms,
        },
        end: after,
    };
    spare.rooms.first = after;
    spare.rooms.count -= rooms;
    (cut::<E, Brand>(words, seat, rooms), given)
}

/// Links the free rooms of another seat, which are about to follow those of this one.
fn append<E: Drop>(
    words: &Words<E>,
    seat: &mut PartySeat<E>,
    spare: &mut Spare,
    other: Spare,
    _seat: &PartySeat<E>,
)
    requires table { IsSeatOf seat.old.table_id words.now.table_id }
    requires rest { IsResting words.now.table_id.slots seat.old.me }
    requires tracks { TracksEnd spare.old (free_chain (view seat.old.me))
        × TracksEnd other (free_chain (view _seat.now.me)) }
    requires near { Near words.now.table_id.slots (view _seat.now.me).free }
    ensures table { seat.new.table_id ≡ seat.old.table_id }
    ensures relinked { Relinked seat.old.me seat.new.me }
    ensures joins { MayJoin (free_chain (view seat.new.me)) (free_chain (view _seat.now.me)) }
    ensures tracks { let rooms = spare.new.rooms in
        TracksEnd (record spare.new { rooms = record rooms { count = rooms.count + other.rooms.count } })
        (joined (free_chain (view seat.new.me)) (free_chain (view _seat.now.me))) }
{
    if other.rooms.count > 0 {
        tie(words, seat, spare, other.rooms.first);
        spare.rooms.last = other.rooms.last;
        spare.end = other.end;
    }
}

/// Absorbs another seat. What one of the two had seen is a prefix of what the other had.
pub(crate) fn absorb<E: Drop>(
    words: &Words<E>,
    seat: &mut PartySeat<E>,
    spare: &mut Spare,
    other: PartySeat<E>,
    rooms: Spare,
)
    requires table { IsSeatOf seat.old.table_id words.now.table_id × IsSeatOf other.table_id words.now.table_id }
    requires rest { IsResting words.now.table_id.slots seat.old.me × IsResting words.now.table_id.slots other.me }
    requires tracks { TracksEnd spare.old (free_chain (view seat.old.me))
        × TracksEnd rooms (free_chain (view other.me)) }
    ensures table { seat.new.table_id ≡ seat.old.table_id }
    ensures absorbed { HasAbsorbed seat.old.me other.me seat.new.me }
    ensures tracks { TracksEnd spare.new (free_chain (view seat.new.me)) }
    ensures known { IsKnown (λ h. LegalReversed h) (view_absorbing (view seat.old.me) (view other.me)).known }
    ensures linked { let known = (view_absorbing (view seat.old.me) (view other.me)).known in
        NonePending known.share (plain known.seen) }
    ensures unheld { let known = (view_absorbing (view seat.old.me) (view other.me)).known in
        NoneHolds known.share (plain known.seen) }
{
    append(words, seat, spare, rooms, &other);
    words.join_seat::<Merge>(seat, other);
    words.load::<Learn>(seat, HEAD);
    spare.rooms.count += rooms.rooms.count;
}
