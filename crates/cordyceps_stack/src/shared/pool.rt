//! How a party of a shared stack takes the rooms of the pool, and gives rooms back to it.
ghost use Rattle.std.specs.Prelude.{◌≡◌, ◌<◌, ◌≤◌, [], length, false};
ghost use Rattle.cordyceps_shared.specs.FreeChains.{Tracks, first_rooms, rest_rooms};
ghost use Rattle.cordyceps_shared.specs.Pools.{Packs};
ghost use Rattle.cordyceps_stack.specs.Shared.Parts.{IsSeatOf, Refills, GivesBack};
ghost use Rattle.cordyceps_stack.specs.Shared.Parts.{GivesRest, RefillsTo, RefillsAtMost};
ghost use Rattle.cordyceps_stack.specs.Shared.Plays.{IsResting, FindsPool, LacksRooms, Sees};
ghost use Rattle.cordyceps_stack.specs.Shared.Slots.{view};

use crate::shared::parting::{lead, link_to_first, put_in_front, skip_rooms};
use crate::shared::plays::{GiveBack, GiveRest, Glance, Refill, Return};
use crate::shared::table::{PartySeat, QUIET, Words};
use cordyceps_shared::free::{Count, FreeRooms};
use cordyceps_shared::layout::POOL;
use cordyceps_shared::pool::{pack, unpack};
use std::marker::Brand;

/// How many more times a party takes the pool at most, if other rooms came into it before it gave rooms back.
pub(crate) const MORE_TRIES: usize = 8;

/// Takes the pool's rooms and their slots in hand, the last room's first. Returns the word that leads to these rooms.
fn take<E: Drop>(words: &Words<E>, seat: &mut PartySeat<E>) -> u64
    requires table { IsSeatOf seat.old.table_id words.now.table_id }
    requires rest { IsResting words.now.table_id.slots seat.old.me }
    ensures table { seat.new.table_id ≡ seat.old.table_id }
    ensures finds { FindsPool words.now.table_id.slots result seat.old.me seat.new.me }
{
    words.swap::<Refill>(seat, POOL, 0)
}

/// Takes all rooms of the pool, which become the first free ones, and returns how many they are.
pub(crate) fn refill<E: Drop>(
    words: &Words<E>,
    seat: &mut PartySeat<E>,
    free: &mut FreeRooms,
) -> usize
    requires table { IsSeatOf seat.old.table_id words.now.table_id }
    requires rest { IsResting words.now.table_id.slots seat.old.me }
    requires tracks { Tracks free.old (view seat.old.me).free }
    ensures table { seat.new.table_id ≡ seat.old.table_id }
    ensures refills { Refills words.now.table_id.slots result seat.old.me seat.new.me }
    ensures tracks { Tracks free.new (view seat.new.me).free }
{
    let found = take(words, seat);
    if found == 0 {
        return 0;
    }
    let taken = unpack(found);
    lead(words, seat, taken.last, link_to_first(free));
    seat.turn();
    words.load::<Return>(seat, QUIET);
    put_in_front(free, taken);
    taken.count
}

/// Returns `true` if the pool has no room. Its contract also states that the party has no more rooms than the stack.
fn look_at_pool<E: Drop>(words: &Words<E>, seat: &mut PartySeat<E>) -> bool
    requires table { IsSeatOf seat.old.table_id words.now.table_id }
    requires rest { IsResting words.now.table_id.slots seat.old.me }
    ensures same { (seat.new.table_id ≡ seat.old.table_id) × (seat.new.me ≡ seat.old.me) }
    ensures few { length (view seat.old.me).free.rooms ≤ words.now.table_id.slots }
    ensures lacks { result ≡ false → LacksRooms words.now.table_id.slots seat.old.me }
{
    words.load::<Glance>(seat, POOL) == 0
}

/// Exchanges the pool's word with `word` if the pool has no room, and returns `true` if it had none.
fn put<E: Drop, B: Count>(
    words: &Words<E>,
    seat: &mut PartySeat<E>,
    rooms: usize,
    word: u64,
) -> bool
    requires table { IsSeatOf seat.old.table_id words.now.table_id }
    requires rest { IsResting words.now.table_id.slots seat.old.me × (B.rooms ≡ rooms) }
    requires packs { Packs word (first_rooms rooms (view seat.old.me).free) }
    ensures table { seat.new.table_id ≡ seat.old.table_id }
    ensures gives { GivesBack rooms result seat.old.me seat.new.me }
    ensures lacks { result ≡ false → LacksRooms words.now.table_id.slots seat.old.me }
{
    words.compare_exchange::<GiveBack<B>>(seat, POOL, 0, word) == 0
}

/// Gives the first `rooms` free rooms to the pool, and returns `true`. If other rooms are there, it returns `false`.
pub(crate) fn give_back<E: Drop>(
    words: &Words<E>,
    seat: &mut PartySeat<E>,
    free: &mut FreeRooms,
    rooms: usize,
) -> bool
    requires table { IsSeatOf seat.old.table_id words.now.table_id }
    requires rest { IsResting words.now.table_id.slots seat.old.me }
    requires rooms { Tracks free.old (view seat.old.me).free × (rooms ≤ free.old.count) }
    ensures table { seat.new.table_id ≡ seat.old.table_id }
    ensures gives { GivesBack rooms result seat.old.me seat.new.me }
    ensures lacks { result ≡ false → LacksRooms words.now.table_id.slots seat.old.me }
    ensures tracks { Tracks free.new (view seat.new.me).free }
{
    if rooms == 0 {
        return true;
    }
    // so that no link is read in vain
    if !look_at_pool(words, seat) {
        return false;
    }
    let (after, last) = skip_rooms(words, seat, free, rooms);
    let given = FreeRooms {
        first: free.first,
        last,
        count: rooms,
    };
    if !put::<E, Brand>(words, seat, rooms, pack(given)) {
        return false;
    }
    free.first = after;
    free.count -= rooms;
    true
}

/// Exchanges the pool's word with `word` if the pool has no room, and returns `true` if it had none. The word leads to
/// the free rooms after the first `rooms`.
fn put_rest<E: Drop, B: Count>(
    words: &Words<E>,
    seat: &mut PartySeat<E>,
    rooms: usize,
    word: u64,
) -> bool
    requires table { IsSeatOf seat.old.table_id words.now.table_id }
    requires rest { IsResting words.now.table_id.slots seat.old.me × (B.rooms ≡ rooms) }
    requires packs { Packs word (rest_rooms rooms (view seat.old.me).free) }
    ensures table { seat.new.table_id ≡ seat.old.table_id }
    ensures gives { GivesRest rooms result seat.old.me seat.new.me }
    ensures lacks { result ≡ false → LacksRooms words.now.table_id.slots seat.old.me }
{
    words.compare_exchange::<GiveRest<B>>(seat, POOL, 0, word) == 0
}

/// Keeps the first `rooms` free rooms and gives the others to the pool, and returns `true`. If other rooms are there, it
/// returns `false`, and keeps all.
fn give_rest<E: Drop>(
    words: &Words<E>,
    seat: &mut PartySeat<E>,
    free: &mut FreeRooms,
    rooms: usize,
) -> bool
    requires table { IsSeatOf seat.old.table_id words.now.table_id }
    requires rest { IsResting words.now.table_id.slots seat.old.me }
    requires rooms { Tracks free.old (view seat.old.me).free × (rooms < free.old.count) }
    ensures table { seat.new.table_id ≡ seat.old.table_id }
    ensures gives { GivesRest rooms result seat.old.me seat.new.me }
    ensures lacks { result ≡ false → LacksRooms words.now.table_id.slots seat.old.me }
    ensures tracks { Tracks free.new (view seat.new.me).free }
{
    // so that no link is read in vain
    if !look_at_pool(words, seat) {
        return false;
    }
    let (after, last) = skip_rooms(words, seat, free, rooms);
    let given = FreeRooms {
        first: after,
        last: free.last,
        count: free.count - rooms,
    };
    if !put_rest::<E, Brand>(words, seat, rooms, pack(given)) {
        return false;
    }
    free.last = last;
    free.count = rooms;
    true
}

/// Takes all rooms of the pool. If the party, which had `had` rooms, then has more than `most` of others', it gives
/// what is above that back. Returns `false` if it could not, since other rooms had come into the pool.
fn refill_to<E: Drop>(
    words: &Words<E>,
    seat: &mut PartySeat<E>,
    free: &mut FreeRooms,
    had: usize,
    most: usize,
) -> bool
    requires table { IsSeatOf seat.old.table_id words.now.table_id }
    requires rest { IsResting words.now.table_id.slots seat.old.me }
    requires rooms { Tracks free.old (view seat.old.me).free × (had ≤ free.old.count) }
    ensures table { seat.new.table_id ≡ seat.old.table_id }
    ensures refills { RefillsTo words.now.table_id.slots had most result seat.old.me seat.new.me }
    ensures tracks { Tracks free.new (view seat.new.me).free }
{
    refill(words, seat, free);
    free.count - had <= most || give_rest(words, seat, free, had + most)
}

/// Tries `refill_to` again until it returns `true`, up to `MORE_TRIES` times.
fn refill_again<E: Drop>(
    words: &Words<E>,
    seat: &mut PartySeat<E>,
    free: &mut FreeRooms,
    had: usize,
    most: usize,
)
    requires table { IsSeatOf seat.old.table_id words.now.table_id }
    requires rest { IsResting words.now.table_id.slots seat.old.me }
    requires rooms { Tracks free.old (view seat.old.me).free × (had ≤ free.old.count) }
    requires seen { Sees (view seat.old.me) [] (view seat.old.me) }
    ensures table { seat.new.table_id ≡ seat.old.table_id }
    ensures rests { IsResting words.now.table_id.slots seat.new.me }
    ensures sees { Sees (view seat.old.me) [] (view seat.new.me) }
    ensures more { had ≤ length (view seat.new.me).free.rooms }
    ensures tracks { Tracks free.new (view seat.new.me).free }
{
    for _try in 0..MORE_TRIES {
        if refill_to(words, seat, free, had, most) {
            return;
        }
    }
}

/// Takes at most `most` rooms of the pool, which become the first free ones, and returns how many they are. If other
/// rooms come into the pool each time that it gives rooms back, it keeps all that it took.
pub(crate) fn refill_at_most<E: Drop>(
    words: &Words<E>,
    seat: &mut PartySeat<E>,
    free: &mut FreeRooms,
    most: usize,
) -> usize
    requires table { IsSeatOf seat.old.table_id words.now.table_id }
    requires rest { IsResting words.now.table_id.slots seat.old.me }
    requires tracks { Tracks free.old (view seat.old.me).free }
    ensures table { seat.new.table_id ≡ seat.old.table_id }
    ensures refills { RefillsAtMost words.now.table_id.slots most result seat.old.me seat.new.me }
    ensures tracks { Tracks free.new (view seat.new.me).free }
{
    let had = free.count;
    if !refill_to(words, seat, free, had, most) {
        refill_again(words, seat, free, had, most);
    }
    free.count - had
}
