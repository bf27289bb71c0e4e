//! Caches that forget what was used longest ago.
use crate::compared::{made, same};
use crate::made::{counted, no_drops};
use cordyceps::stable_map::Seeded;
use cordyceps_uses::recency::Cache;
use std::alloc::Global;
use std::process::Abort;
use test_support::counted::Counted;

/// The cache that the tests call.
type Numbers<V> = Cache<u64, V, Seeded>;

/// A call of a cache, and what it returns.
#[derive(Clone, Copy)]
enum Call {
    /// Inserts a key and a value, and returns the entry that is removed for it.
    Insert(u64, u64, Option<(u64, u64)>),
    /// Returns the value of a key, and uses it.
    Get(u64, Option<u64>),
    /// Returns the value of a key.
    Peek(u64, Option<u64>),
    /// Returns whether a key is there.
    Contains(u64, bool),
    /// Returns whether a key is there, and uses it.
    Touch(u64, bool),
    /// Removes a key, and returns its entry.
    Remove(u64, Option<(u64, u64)>),
    /// Returns how many entries there are.
    Len(usize),
}

/// Makes a call, and compares what it returns with what is wanted.
fn returns(rt: &impl Abort, alloc: Global, cache: &mut Numbers<u64>, call: Call) {
    match call {
        Call::Insert(key, value, out) => same(rt, made(rt, cache.insert(alloc, key, value)), out),
        Call::Get(key, value) => same(rt, cache.get(&key).copied(), value),
        Call::Peek(key, value) => same(rt, cache.peek(&key).copied(), value),
        Call::Contains(key, is_there) => same(rt, cache.contains(&key), is_there),
        Call::Touch(key, was_there) => same(rt, cache.touch(&key), was_there),
        Call::Remove(key, entry) => same(rt, cache.remove(&key), entry),
        Call::Len(len) => same(rt, cache.len(), len),
    }
}

/// Calls of a cache of three entries.
const CALLS: [Call; 22] = [
    Call::Insert(1, 10, None),
    Call::Insert(2, 20, None),
    Call::Insert(3, 30, None),
    Call::Get(1, Some(10)),
    Call::Touch(2, true),
    Call::Touch(9, false),
    // neither makes 3 the last used one
    Call::Peek(3, Some(30)),
    Call::Contains(3, true),
    Call::Insert(4, 40, Some((3, 30))),
    Call::Peek(3, None),
    Call::Contains(3, false),
    Call::Insert(1, 11, Some((1, 10))),
    Call::Insert(5, 50, Some((2, 20))),
    Call::Remove(4, Some((4, 40))),
    Call::Remove(4, None),
    Call::Len(2),
    Call::Insert(6, 60, None),
    Call::Insert(7, 70, Some((1, 11))),
    Call::Get(5, Some(50)),
    Call::Get(1, None),
    Call::Insert(8, 80, Some((6, 60))),
    Call::Len(3),
];

#[test]
fn forgets_what_was_used_longest_ago(rt: HostRuntime) {
    let mut cache: Numbers<u64> = made(&rt, Cache::new(rt.alloc(), 3, Seeded::new(1, 2)));
    for call in CALLS {
        returns(&rt, rt.alloc(), &mut cache, call);
    }
}

#[test]
fn frees_each_value_once(rt: HostRuntime) {
    let drops = no_drops(&rt, rt.alloc());
    let mut cache: Numbers<Counted> = made(&rt, Cache::new(rt.alloc(), 2, Seeded::new(3, 4)));
    for key in [1, 2, 3] {
        let put = cache.insert(rt.alloc(), key, counted(&rt, key, &drops));
        same(&rt, put.is_ok(), true);
    }
    same(&rt, drops.count(), 1);
    let replaced = cache.insert(rt.alloc(), 3, counted(&rt, 4, &drops));
    same(&rt, (replaced.is_ok(), drops.count()), (true, 1));
    drop(replaced);
    same(&rt, drops.count(), 2);
    let taken = cache.remove(&2);
    same(&rt, (taken.is_some(), drops.count()), (true, 2));
    drop(taken);
    same(&rt, drops.count(), 3);
    drop(cache);
    same(&rt, drops.count(), 4);
}

/// How many keys the long test has, and a number without a factor in common with that.
const KEYS: u64 = 400_000;

const STRIDE: u64 = 123_457;

/// A walk to each entry would take hours.
#[test]
fn removes_hundreds_of_thousands_in_scattered_order(rt: HostRuntime) {
    let mut cache: Numbers<u64> = made(
        &rt,
        Cache::new(rt.alloc(), KEYS as usize, Seeded::new(5, 6)),
    );
    for key in 0..KEYS {
        let put = cache.insert(rt.alloc(), key, key);
        same(&rt, put.is_ok(), true);
    }
    let mut sum: u64 = 0;
    for turn in 0..KEYS {
        let key = turn.wrapping_mul(STRIDE) % KEYS;
        same(&rt, cache.remove(&key), Some((key, key)));
        sum = sum.wrapping_add(key);
    }
    same(&rt, (cache.len(), sum), (0, 79_999_800_000));
}
