//! Caches whose entries expire: each call, drops, refused memory, and many drawn calls beside a plain vector.
use crate::compared::{made, same};
use cordyceps::stable_map::Seeded;
use cordyceps_uses::expiring::{ExpiringCache, Timed};
use std::alloc::Global;
use std::process::Abort;
use test_support::counted::{Counted, Drops};
use test_support::draws::Draws;

/// A key, its value and its time.
type Entry = (u64, u64, u64);

/// The cache that the tests call.
type Cache<V> = ExpiringCache<u64, V, Seeded>;

/// A call of a cache, and what it returns.
#[derive(Clone, Copy)]
enum Call {
    /// Inserts a key and a value at a time until another, and returns the entry that goes for it.
    Insert(u64, u64, u64, u64, Option<Entry>),
    /// Returns the value of a key at a time, and uses it.
    Get(u64, u64, Option<u64>),
    /// Returns the value of a key at a time.
    Peek(u64, u64, Option<u64>),
    /// Gives a key at a time another time until which it is valid, and returns whether that was done.
    Renew(u64, u64, u64, bool),
    /// Removes a key, and returns its entry.
    Remove(u64, Option<Entry>),
    /// Removes at a time the entry that expires first.
    Expire(u64, Option<Entry>),
    /// Returns how many entries there are.
    Len(usize),
}

/// Returns an entry as a test compares it.
fn plain(entry: Option<(u64, Timed<u64>)>) -> Option<Entry> {
    let (key, timed) = entry?;
    Some((key, timed.value, timed.until))
}

/// Inserts an entry at a time, and returns the entry that goes for it.
fn put(
    rt: &impl Abort,
    alloc: Global,
    cache: &mut Cache<u64>,
    entry: Entry,
    now: u64,
) -> Option<Entry> {
    plain(made(rt, cache.insert(alloc, entry.0, entry.1, now, entry.2)))
}

/// Makes a call, and compares what it returns with what is wanted.
fn returns(rt: &impl Abort, alloc: Global, cache: &mut Cache<u64>, call: Call) {
    match call {
        Call::Insert(key, value, now, until, out) => {
            same(rt, put(rt, alloc, cache, (key, value, until), now), out);
        }
        Call::Get(key, now, value) => same(rt, cache.get(now, &key).copied(), value),
        Call::Peek(key, now, value) => same(rt, cache.peek(now, &key).copied(), value),
        Call::Renew(key, now, until, done) => same(rt, cache.renew(&key, now, until), done),
        Call::Remove(key, entry) => same(rt, plain(cache.remove(&key)), entry),
        Call::Expire(now, entry) => same(rt, plain(cache.remove_expired(now)), entry),
        Call::Len(len) => same(rt, cache.len(), len),
    }
}

/// Calls of a cache of three entries.
const CALLS: [Call; 33] = [
    Call::Expire(9, None),
    Call::Get(1, 0, None),
    Call::Insert(1, 10, 0, 50, None),
    Call::Insert(2, 20, 1, 20, None),
    Call::Insert(3, 30, 2, 40, None),
    Call::Len(3),
    Call::Peek(1, 3, Some(10)),
    Call::Get(1, 3, Some(10)),
    // no entry is expired: 2 was used longest ago
    Call::Insert(4, 40, 4, 60, Some((2, 20, 20))),
    // 3 is expired from 40 on
    Call::Get(3, 39, Some(30)),
    Call::Get(3, 40, None),
    Call::Peek(3, 41, None),
    Call::Len(3),
    // 1 was used longest ago, but 3 is expired
    Call::Insert(5, 50, 41, 42, Some((3, 30, 40))),
    // the old entry of the key goes, and not 5
    Call::Insert(4, 41, 43, 45, Some((4, 40, 60))),
    Call::Get(4, 44, Some(41)),
    Call::Expire(41, None),
    Call::Expire(45, Some((5, 50, 42))),
    Call::Expire(45, Some((4, 41, 45))),
    Call::Expire(45, None),
    Call::Remove(1, Some((1, 10, 50))),
    Call::Remove(1, None),
    Call::Expire(999, None),
    Call::Len(0),
    Call::Renew(6, 50, 90, false),
    Call::Insert(6, 60, 50, 70, None),
    Call::Insert(7, 70, 51, 80, None),
    Call::Insert(8, 80, 52, 90, None),
    // 6 expires last now, and was used last
    Call::Renew(6, 69, 95, true),
    Call::Renew(7, 80, 99, false),
    Call::Expire(85, Some((7, 70, 80))),
    Call::Expire(94, Some((8, 80, 90))),
    Call::Remove(6, Some((6, 60, 95))),
];

#[test]
fn evicts_what_is_expired_or_was_used_longest_ago(rt: HostRuntime) {
    let mut cache: Cache<u64> = made(&rt, ExpiringCache::new(rt.alloc(), 3, Seeded::new(1, 2)));
    for call in CALLS {
        returns(&rt, rt.alloc(), &mut cache, call);
    }
}

/// The keys are below this number, so that most are drawn again.
const KEYS: u64 = 24;

/// The entries, that which was used longest ago first.
type Plain = Vec<Entry>;

/// Returns where a vector has a key.
fn place(entries: &Plain, key: u64) -> Option<usize> {
    entries.as_slice().iter().position(|it| it.0 == key)
}

/// Takes an entry out of a vector.
fn cut(entries: &mut Plain, at: Option<usize>) -> Option<Entry> {
    let at = at?;
    if at < entries.len() {
        Some(entries.remove(at))
    } else {
        None
    }
}

/// Returns the places of the entries with the least time, the first of them in order of insertion.
fn first_to_expire(entries: &Plain, came: &Vec<(u64, u64)>, now: u64) -> Option<usize> {
    let mut best: Option<(u64, u64, usize)> = None;
    for (at, entry) in entries.as_slice().iter().enumerate() {
        let turn = came
            .as_slice()
            .iter()
            .find(|it| it.0 == entry.0)
            .map_or(0, |it| it.1);
        let this = (entry.2, turn, at);
        best = match best {
            Some(it) if (it.0, it.1) <= (this.0, this.1) => Some(it),
            _ => Some(this),
        };
    }
    let (until, _, at) = best?;
    if until <= now { Some(at) } else { None }
}

/// The vectors beside a cache: the entries in the order of use, and the turn in which each key came last.
#[derive(Drop)]
struct Beside {
    entries: Plain,
    came: Vec<(u64, u64)>,
    capacity: usize,
}

/// Inserts an entry into the vectors, and returns the one that goes for it.
fn insert_beside(
    rt: &impl Abort,
    beside: &mut Beside,
    entry: Entry,
    now: u64,
    turn: u64,
) -> Option<Entry> {
    let at = match place(&beside.entries, entry.0) {
        Some(at) => Some(at),
        None if beside.entries.len() < beside.capacity => None,
        None => first_to_expire(&beside.entries, &beside.came, now).or(Some(0)),
    };
    let out = cut(&mut beside.entries, at);
    made(rt, beside.entries.push(entry));
    come_beside(rt, beside, entry.0, turn);
    out
}

/// Writes down the turn in which a key came last into the order of the times.
fn come_beside(rt: &impl Abort, beside: &mut Beside, key: u64, turn: u64) {
    let old = beside.came.as_slice().iter().position(|it| it.0 == key);
    if let Some(at) = old
        && at < beside.came.len()
    {
        drop(beside.came.remove(at));
    }
    made(rt, beside.came.push((key, turn)));
}

/// Gives a key of the vectors another time until which it is valid, if it is not expired, and returns whether it did.
fn renew_beside(rt: &impl Abort, beside: &mut Beside, call: (u64, u64, u64), turn: u64) -> bool {
    let (key, now, until) = call;
    let at = place(&beside.entries, key);
    let Some(old) = at.and_then(|at| beside.entries.get(at).copied()) else {
        return false;
    };
    if old.2 <= now {
        return false;
    }
    cut(&mut beside.entries, at);
    made(rt, beside.entries.push((key, old.1, until)));
    come_beside(rt, beside, key, turn);
    true
}

/// Uses a key of a vector, and returns its value, if it is not expired.
fn use_beside(rt: &impl Abort, entries: &mut Plain, key: u64, now: u64) -> Option<u64> {
    let at = place(entries, key)?;
    if entries.get(at).is_none_or(|it| it.2 <= now) {
        return None;
    }
    let entry = cut(entries, Some(at))?;
    made(rt, entries.push(entry));
    Some(entry.1)
}

/// Makes a drawn call, beside the vectors.
fn step(
    rt: &impl Abort,
    alloc: Global,
    cache: &mut Cache<u64>,
    beside: &mut Beside,
    draws: &mut Draws,
    turn: u64,
) {
    let key = draws.below(KEYS);
    let now = turn / 4;
    match draws.below(9) {
        8 => {
            let until = now + draws.below(12);
            let wanted = renew_beside(rt, beside, (key, now, until), turn);
            same(rt, cache.renew(&key, now, until), wanted);
        }
        0 | 1 | 2 => {
            let entry = (key, turn, now + draws.below(12));
            let wanted = insert_beside(rt, beside, entry, now, turn);
            same(rt, put(rt, alloc, cache, entry, now), wanted);
        }
        3 | 4 => {
            let wanted = use_beside(rt, &mut beside.entries, key, now);
            same(rt, cache.get(now, &key).copied(), wanted);
        }
        5 => {
            let at = place(&beside.entries, key);
            same(rt, plain(cache.remove(&key)), cut(&mut beside.entries, at));
        }
        6 => {
            let at = first_to_expire(&beside.entries, &beside.came, now);
            same(
                rt,
                plain(cache.remove_expired(now)),
                cut(&mut beside.entries, at),
            );
        }
        _ => same(rt, cache.len(), beside.entries.len()),
    }
}

#[test]
fn ten_thousand_calls_do_what_they_do_to_a_vector(rt: HostRuntime) {
    let mut cache: Cache<u64> = made(&rt, ExpiringCache::new(rt.alloc(), 8, Seeded::new(3, 4)));
    let mut beside = Beside {
        entries: Vec::new(rt.alloc()),
        came: Vec::new(rt.alloc()),
        capacity: 8,
    };
    let mut draws = Draws::new(5);
    for turn in 0..10_000 {
        step(&rt, rt.alloc(), &mut cache, &mut beside, &mut draws, turn);
    }
}

#[test]
fn frees_each_value_once(rt: HostRuntime) {
    let drops = made(&rt, Drops::new(rt.alloc()));
    let mut cache: Cache<Counted> = made(&rt, ExpiringCache::new(rt.alloc(), 2, Seeded::new(5, 6)));
    for key in [1, 2, 3, 3] {
        let value = made(&rt, Counted::new(key, &drops));
        same(
            &rt,
            cache.insert(rt.alloc(), key, value, 0, key).is_ok(),
            true,
        );
    }
    same(&rt, (cache.len(), drops.count()), (2, 2));
    drop(cache.remove_expired(2));
    same(&rt, (cache.len(), drops.count()), (1, 3));
    drop(cache.remove(&3));
    same(&rt, (cache.len(), drops.count()), (0, 4));
    let value = made(&rt, Counted::new(4, &drops));
    same(&rt, cache.insert(rt.alloc(), 4, value, 0, 9).is_ok(), true);
    drop(cache);
    same(&rt, drops.count(), 5);
}
