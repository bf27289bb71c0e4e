//! How a party of a shared queue takes the rooms of the pool, and gives rooms back to it.
ghost use Rattle.std.specs.Prelude.{◌≡◌, ◌≢◌, ◌<◌, ◌≤◌, ◌∷◌, ◌++◌, ℕ, List, [], length, false};
ghost use Rattle.cordyceps_shared.specs.FreeChains.{first_rooms, rest_rooms};
ghost use Rattle.cordyceps_shared.specs.Pools.{Packs};
ghost use Rattle.cordyceps_shared.specs.Slots.{Near, view, hand};
ghost use Rattle.cordyceps_queue.specs.Shared.Parts.{IsSeatOf, MayReturn, Refills, GivesBack, TracksEnd};
ghost use Rattle.cordyceps_queue.specs.Shared.Parts.{GivesRest, RefillsTo, RefillsAtMost};
ghost use Rattle.cordyceps_queue.specs.Shared.Plays.{IsResting, FindsPool, LacksRooms, Sees};
ghost use Rattle.cordyceps_queue.specs.Shared.View.{free_chain, all_rooms, view_returned};

use crate::shared::linking::{skip_rooms, tie};
use crate::shared::plays::{Gather, GiveBack, GiveRest, Glance, Refill};
use crate::shared::spare::Spare;
use crate::shared::table::{PartySeat, Words};
use crate::shared::uses::free_link;
use cordyceps_shared::free::{Count, FreeRooms};
use cordyceps_shared::layout::{LINKS, POOL};
use cordyceps_shared::pool::{pack, unpack};
use std::marker::Brand;

/// How many more times a party takes the pool at most, if other rooms came into it before it gave rooms back.
pub(crate) const MORE_TRIES: usize = 8;

/// Takes the pool's rooms, and their slots in hand. Returns the word that leads to these rooms.
fn take<E: Drop>(words: &Words<E>, seat: &mut PartySeat<E>) -> u64
    requires table { IsSeatOf seat.old.table_id words.now.table_id }
    requires rest { IsResting words.now.table_id.slots seat.old.me }
    ensures table { seat.new.table_id ≡ seat.old.table_id }
    ensures finds { FindsPool words.now.table_id.slots result seat.old.me seat.new.me }
{
    words.swap::<Refill>(seat, POOL, 0)
}

/// Gives the slots in hand back, the last of which is this room's, and returns what its link leads to.
fn gather<E: Drop>(words: &Words<E>, seat: &mut PartySeat<E>, last: usize) -> u64
    requires table { IsSeatOf seat.old.table_id words.now.table_id }
    requires hand { MayReturn words.now.table_id.slots seat.old.me }
    requires last { (before : List ℕ) × ((view seat.old.me).back ≡ before ++ last ∷ []) }
    ensures table { seat.new.table_id ≡ seat.old.table_id }
    ensures gathered { seat.new.me ≡ (view_returned (view seat.old.me), []) }
    ensures end { result ≡ (view seat.old.me).to }
{
    free_link(words.load::<Gather>(seat, LINKS + last)).0
}

/// Takes all rooms of the pool, which follow the free ones, and returns how many they are.
pub(crate) fn refill<E: Drop>(words: &Words<E>, seat: &mut PartySeat<E>, spare: &mut Spare) -> usize
    requires table { IsSeatOf seat.old.table_id words.now.table_id }
    requires rest { IsResting words.now.table_id.slots seat.old.me }
    requires tracks { TracksEnd spare.old (free_chain (view seat.old.me)) }
    ensures table { seat.new.table_id ≡ seat.old.table_id }
    ensures refills { Refills words.now.table_id.slots result seat.old.me seat.new.me }
    ensures tracks { TracksEnd spare.new (free_chain (view seat.new.me)) }
{
    let found = take(words, seat);
    if found == 0 {
        return 0;
    }
    let taken = unpack(found);
    tie(words, seat, spare, taken.first);
    let end = gather(words, seat, taken.last);
    spare.rooms.last = taken.last;
    spare.rooms.count += taken.count;
    spare.end = end;
    taken.count
}

/// Reads the pool's word, gives the slots in hand back, and returns `true` if the pool has no room. Its contract also
/// states that the party has no more rooms than the queue.
fn look_at_pool<E: Drop>(words: &Words<E>, seat: &mut PartySeat<E>) -> bool
    requires table { IsSeatOf seat.old.table_id words.now.table_id }
    requires hand { MayReturn words.now.table_id.slots seat.old.me }
    ensures table { seat.new.table_id ≡ seat.old.table_id }
    ensures gathered { seat.new.me ≡ (view_returned (view seat.old.me), []) }
    ensures few { length (view seat.new.me).free ≤ words.now.table_id.slots }
    ensures lacks { result ≡ false → LacksRooms words.now.table_id.slots seat.old.me }
{
    words.load::<Glance>(seat, POOL) == 0
}

/// Exchanges the pool's word with `word` if the pool has no room, and returns `true` if it had none.
fn put<E: Drop, B: Count>(
    words: &Words<E>,
    seat: &mut PartySeat<E>,
    rooms: usize,
    word: u64,
) -> bool
    requires table { IsSeatOf seat.old.table_id words.now.table_id }
    requires bare { ((view seat.old.me).back ≡ []) × ((view seat.old.me).known.share ≢ []) }
    requires count { B.rooms ≡ rooms }
    requires packs { Packs word (first_rooms rooms (free_chain (view seat.old.me))) }
    ensures table { seat.new.table_id ≡ seat.old.table_id }
    ensures gives { GivesBack rooms result seat.old.me seat.new.me }
    ensures lacks { result ≡ false → LacksRooms words.now.table_id.slots seat.old.me }
{
    words.compare_exchange::<GiveBack<B>>(seat, POOL, 0, word) == 0
}

/// Gives the slots in hand back, and the first `rooms` free rooms to the pool, and returns `true`. If other rooms are
/// there, it returns `false`.
pub(crate) fn give_back<E: Drop>(
    words: &Words<E>,
    seat: &mut PartySeat<E>,
    spare: &mut Spare,
    rooms: usize,
) -> bool
    requires table { IsSeatOf seat.old.table_id words.now.table_id }
    requires hand { MayReturn words.now.table_id.slots seat.old.me }
    requires rooms { TracksEnd spare.old (all_rooms (view seat.old.me)) × (rooms ≤ spare.old.rooms.count) }
    ensures table { seat.new.table_id ≡ seat.old.table_id }
    ensures gives { GivesBack rooms result (view_returned (view seat.old.me), []) seat.new.me }
    ensures lacks { result ≡ false → LacksRooms words.now.table_id.slots seat.old.me }
    ensures tracks { TracksEnd spare.new (free_chain (view seat.new.me)) }
{
    // so that no link is read in vain
    let has_none = look_at_pool(words, seat);
    if rooms == 0 {
        return true;
    }
    if !has_none {
        return false;
    }
    let (after, last) = skip_rooms(words, seat, spare, rooms);
    let given = FreeRooms {
        first: spare.rooms.first,
        last,
        count: rooms,
    };
    if !put::<E, Brand>(words, seat, rooms, pack(given)) {
        return false;
    }
    spare.rooms.first = after;
    spare.rooms.count -= rooms;
    true
}

/// Exchanges the pool's word with `word` if the pool has no room, and returns `true` if it had none. The word leads to
/// the free rooms after the first `rooms`.
fn put_rest<E: Drop, B: Count>(
    words: &Words<E>,
    seat: &mut PartySeat<E>,
    rooms: usize,
    word: u64,
) -> bool
    requires table { IsSeatOf seat.old.table_id words.now.table_id }
    requires bare { ((view seat.old.me).back ≡ []) × ((view seat.old.me).known.share ≢ []) }
    requires count { B.rooms ≡ rooms }
    requires packs { Packs word (rest_rooms rooms (free_chain (view seat.old.me))) }
    ensures table { seat.new.table_id ≡ seat.old.table_id }
    ensures gives { GivesRest rooms result seat.old.me seat.new.me }
    ensures lacks { result ≡ false → LacksRooms words.now.table_id.slots seat.old.me }
{
    words.compare_exchange::<GiveRest<B>>(seat, POOL, 0, word) == 0
}

/// Keeps the first `rooms` free rooms and gives the others to the pool, and returns `true`. If other rooms are there,
/// it returns `false`, and keeps all.
fn give_rest<E: Drop>(
    words: &Words<E>,
    seat: &mut PartySeat<E>,
    spare: &mut Spare,
    rooms: usize,
) -> bool
    requires table { IsSeatOf seat.old.table_id words.now.table_id }
    requires rest { IsResting words.now.table_id.slots seat.old.me }
    requires few { length (view seat.old.me).free ≤ words.now.table_id.slots }
    requires rooms { TracksEnd spare.old (free_chain (view seat.old.me)) × (rooms < spare.old.rooms.count) }
    ensures table { seat.new.table_id ≡ seat.old.table_id }
    ensures gives { GivesRest rooms result seat.old.me seat.new.me }
    ensures lacks { result ≡ false → LacksRooms words.now.table_id.slots seat.old.me }
    ensures tracks { TracksEnd spare.new (free_chain (view seat.new.me)) }
{
    let (after, last) = skip_rooms(words, seat, spare, rooms);
    let given = FreeRooms {
        first: after,
        last: spare.rooms.last,
        count: spare.rooms.count - rooms,
    };
    if !put_rest::<E, Brand>(words, seat, rooms, pack(given)) {
        return false;
    }
    spare.rooms.last = last;
    spare.rooms.count = rooms;
    spare.end = after;
    true
}

/// Takes all rooms of the pool. If the party, which had `had` rooms, then has more than `most` of others', it gives
/// what is above that back. Returns `false` if it could not, since other rooms had come into the pool.
fn refill_to<E: Drop>(
    words: &Words<E>,
    seat: &mut PartySeat<E>,
    spare: &mut Spare,
    had: usize,
    most: usize,
) -> bool
    requires table { IsSeatOf seat.old.table_id words.now.table_id }
    requires rest { IsResting words.now.table_id.slots seat.old.me }
    requires rooms { TracksEnd spare.old (free_chain (view seat.old.me)) × (had ≤ spare.old.rooms.count) }
    ensures table { seat.new.table_id ≡ seat.old.table_id }
    ensures refills { RefillsTo words.now.table_id.slots had most result seat.old.me seat.new.me }
    ensures tracks { TracksEnd spare.new (free_chain (view seat.new.me)) }
{
    refill(words, seat, spare);
    spare.rooms.count - had <= most || give_rest(words, seat, spare, had + most)
}

/// Tries `refill_to` again until it returns `true`, up to `MORE_TRIES` times.
fn refill_again<E: Drop>(
    words: &Words<E>,
    seat: &mut PartySeat<E>,
    spare: &mut Spare,
    had: usize,
    most: usize,
)
    requires table { IsSeatOf seat.old.table_id words.now.table_id }
    requires rest { IsResting words.now.table_id.slots seat.old.me }
    requires rooms { TracksEnd spare.old (free_chain (view seat.old.me)) × (had ≤ spare.old.rooms.count) }
    requires seen { Sees (view seat.old.me) [] (view seat.old.me) }
    ensures table { seat.new.table_id ≡ seat.old.table_id }
    ensures rests { IsResting words.now.table_id.slots seat.new.me }
    ensures sees { Sees (view seat.old.me) [] (view seat.new.me) }
    ensures more { had ≤ length (view seat.new.me).free }
    ensures tracks { TracksEnd spare.new (free_chain (view seat.new.me)) }
{
    for _try in 0..MORE_TRIES {
        if refill_to(words, seat, spare, had, most) {
            return;
        }
    }
}

/// Takes at most `most` rooms of the pool, which follow the free ones, and returns how many they are. If other rooms
/// come into the pool each time that it gives rooms back, it keeps all that it took.
pub(crate) fn refill_at_most<E: Drop>(
    words: &Words<E>,
    seat: &mut PartySeat<E>,
    spare: &mut Spare,
    most: usize,
) -> usize
    requires table { IsSeatOf seat.old.table_id words.now.table_id }
    requires rest { IsResting words.now.table_id.slots seat.old.me }
    requires tracks { TracksEnd spare.old (free_chain (view seat.old.me)) }
    ensures table { seat.new.table_id ≡ seat.old.table_id }
    ensures refills { RefillsAtMost words.now.table_id.slots most result seat.old.me seat.new.me }
    ensures tracks { TracksEnd spare.new (free_chain (view seat.new.me)) }
{
    let had = spare.rooms.count;
    if !refill_to(words, seat, spare, had, most) {
        refill_again(words, seat, spare, had, most);
    }
    spare.rooms.count - had
}
