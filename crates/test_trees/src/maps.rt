//! Each call of a map and what it replies, and runs of many calls beside a sorted vector that should hold the same.
use crate::compared::{at_most, made, same};
use cordyceps_tree::node::TreeNode;
use cordyceps_tree::tree_map::TreeMap;
use std::alloc::Global;
use std::mem;
use std::process::Abort;
use test_support::draws::Draws;

/// No map of a test is larger.
const LARGEST: usize = 10_000;

/// The keys of random calls are below this.
const KEYS: u64 = 60;

/// A key and its value.
type Pair = (u64, u64);

type Map = TreeMap<u64, u64>;

/// A call of a map.
#[derive(Drop)]
enum Call {
    Insert(Pair),
    Remove(u64),
    /// Finds a key, and removes the node at its spot.
    RemoveAt(u64),
    Get(u64),
    /// Writes the value of a key, if the map has it.
    Write(Pair),
    Contains(u64),
    /// Finds a key, and reads at its spot.
    Find(u64),
    First,
    Last,
    PopFirst,
    PopLast,
    /// Walks over the keys from one on, before another.
    Range(u64, u64),
    Clear,
}

/// What a call replies.
#[derive(Clone, Copy, Debug, PartialEq)]
enum Reply {
    /// This key and value came out or were read, or none.
    Pair(Option<Pair>),
    /// The value that the key has, or had before it was written.
    Value(Option<u64>),
    Is(bool),
    /// How many pairs a walk came to, and what `mixed` makes of them.
    Walked(u64, u64),
    /// There is nothing to reply.
    Nothing,
}

/// Makes a number of another and a pair, which depends on their order.
fn mixed(sum: u64, pair: Pair) -> u64 {
    sum.wrapping_mul(31)
        .wrapping_add(pair.0)
        .wrapping_mul(31)
        .wrapping_add(pair.1)
}

/// Drops a node that came out, if one did, and returns its key and its value.
fn parts(node: Option<TreeNode<Pair>>) -> Reply {
    match node {
        Some(node) => Reply::Pair(Some(node.into_value())),
        None => Reply::Pair(None),
    }
}

/// Returns a copy of a key and a value.
fn copied(pair: Option<(&u64, &u64)>) -> Reply {
    match pair {
        Some((key, value)) => Reply::Pair(Some((*key, *value))),
        None => Reply::Pair(None),
    }
}

/// Walks over the keys of a map from one on, before another.
fn walked(map: &Map, low: u64, high: u64) -> Reply {
    let mut count = 0u64;
    let mut sum = 0u64;
    for (_, pair) in map.range(&low, &high) {
        count = count.wrapping_add(1);
        sum = mixed(sum, *pair);
    }
    Reply::Walked(count, sum)
}

/// Makes a call that changes nothing, and returns its reply.
fn look(map: &Map, call: &Call) -> Reply {
    match call {
        Call::Get(key) => match map.get(key) {
            Some(value) => Reply::Value(Some(*value)),
            None => Reply::Value(None),
        },
        Call::Contains(key) => Reply::Is(map.contains_key(key)),
        Call::Find(key) => match map.find(key) {
            Some(at) => copied(Some(map.key_value_at(at))),
            None => Reply::Pair(None),
        },
        Call::First => copied(map.first_key_value()),
        Call::Last => copied(map.last_key_value()),
        Call::Range(low, high) => walked(map, *low, *high),
        _ => Reply::Nothing,
    }
}

/// Makes a call, and returns its reply.
fn make_call(rt: &impl Abort, alloc: Global, map: &mut Map, call: &Call) -> Reply {
    at_most(rt, map.len(), LARGEST);
    match call {
        Call::Insert(pair) => {
            let node = made(rt, TreeNode::new(alloc, pair.0, *pair));
            let inserted = map.insert(node);
            same(
                rt,
                copied(Some(map.key_value_at(inserted.spot))),
                Reply::Pair(Some(*pair)),
            );
            parts(inserted.replaced)
        }
        Call::Remove(key) => parts(map.remove(key)),
        Call::RemoveAt(key) => match map.find(key) {
            Some(at) => parts(Some(map.remove_at(at))),
            None => Reply::Pair(None),
        },
        Call::Write(pair) => match map.get_mut(&pair.0) {
            Some(value) => Reply::Value(Some(mem::replace(value, pair.1))),
            None => Reply::Value(None),
        },
        Call::PopFirst => parts(map.pop_first()),
        Call::PopLast => parts(map.pop_last()),
        Call::Clear => {
            map.clear();
            Reply::Nothing
        }
        _ => look(map, call),
    }
}

/// Asserts what a map holds.
fn holds(rt: &impl Abort, map: &Map, pairs: &[Pair]) {
    let wanted = (pairs.len(), pairs.is_empty());
    same(rt, (map.len(), map.is_empty()), wanted);
    map.keys_rise();
    let mut walk = map.iter();
    for pair in pairs {
        let came = match walk.next() {
            Some((_, pair)) => Some(*pair),
            None => None,
        };
        same(rt, came, Some(*pair));
    }
    same(rt, walk.next().is_none(), true);
}

/// Returns how many keys of a sorted vector are below one.
fn count_below(pairs: &[Pair], key: u64) -> usize {
    let mut count = 0usize;
    for pair in pairs {
        if pair.0 < key {
            count = count.wrapping_add(1);
        }
    }
    count
}

/// Returns the pair of a key in a sorted vector, if it is there.
fn found(pairs: &[Pair], key: u64) -> Option<Pair> {
    let pair = *pairs.get(count_below(pairs, key))?;
    if pair.0 == key { Some(pair) } else { None }
}

/// Removes the pair at a place of a vector, if there is one.
fn taken(pairs: &mut Vec<Pair>, at: usize) -> Option<Pair> {
    if at < pairs.len() {
        Some(pairs.remove(at))
    } else {
        None
    }
}

/// Removes the pair of a key from a sorted vector, if it is there.
fn out_of(pairs: &mut Vec<Pair>, key: u64) -> Option<Pair> {
    found(pairs.as_slice(), key)?;
    let at = count_below(pairs.as_slice(), key);
    taken(pairs, at)
}

/// Puts a pair into a sorted vector, in the place of that of its key, which it returns.
fn put(rt: &impl Abort, pairs: &mut Vec<Pair>, pair: Pair) -> Option<Pair> {
    let old = out_of(pairs, pair.0);
    let at = count_below(pairs.as_slice(), pair.0);
    at_most(rt, at, pairs.len());
    made(rt, pairs.insert(at, pair));
    old
}

/// Returns what a walk over some keys of a sorted vector replies.
fn walk_wanted(pairs: &[Pair], low: u64, high: u64) -> Reply {
    let mut count = 0u64;
    let mut sum = 0u64;
    for pair in pairs {
        if low <= pair.0 && pair.0 < high {
            count = count.wrapping_add(1);
            sum = mixed(sum, *pair);
        }
    }
    Reply::Walked(count, sum)
}

/// Returns the value of a pair, if there is one.
fn value_of(pair: Option<Pair>) -> Reply {
    match pair {
        Some(pair) => Reply::Value(Some(pair.1)),
        None => Reply::Value(None),
    }
}

/// Returns what a call is to reply that changes nothing.
fn look_wanted(pairs: &[Pair], call: &Call) -> Reply {
    match call {
        Call::Get(key) => value_of(found(pairs, *key)),
        Call::Contains(key) => Reply::Is(found(pairs, *key).is_some()),
        Call::Find(key) => Reply::Pair(found(pairs, *key)),
        Call::First => Reply::Pair(pairs.first().copied()),
        Call::Last => Reply::Pair(pairs.last().copied()),
        Call::Range(low, high) => walk_wanted(pairs, *low, *high),
        _ => Reply::Nothing,
    }
}

/// Does to a sorted vector what a call does to a map, and returns the reply that is wanted.
fn wanted(rt: &impl Abort, pairs: &mut Vec<Pair>, call: &Call) -> Reply {
    match call {
        Call::Insert(pair) => Reply::Pair(put(rt, pairs, *pair)),
        Call::Remove(key) | Call::RemoveAt(key) => Reply::Pair(out_of(pairs, *key)),
        Call::Write(pair) => {
            let old = found(pairs.as_slice(), pair.0);
            if old.is_some() {
                put(rt, pairs, *pair);
            }
            value_of(old)
        }
        Call::PopFirst => Reply::Pair(taken(pairs, 0)),
        Call::PopLast => {
            let last = pairs.len().wrapping_sub(1);
            Reply::Pair(taken(pairs, last))
        }
        Call::Clear => {
            pairs.clear();
            Reply::Nothing
        }
        _ => look_wanted(pairs.as_slice(), call),
    }
}

/// Makes a call of a map and does the same to a vector. Asserts that both reply and hold the same, and returns the
/// reply.
fn agree(
    rt: &impl Abort,
    alloc: Global,
    map: &mut Map,
    pairs: &mut Vec<Pair>,
    call: &Call,
) -> Reply {
    let wanted = wanted(rt, pairs, call);
    let came = make_call(rt, alloc, map, call);
    same(rt, came, wanted);
    holds(rt, map, pairs.as_slice());
    came
}

/// Calls of a map that is empty at first, and what they reply.
const CALLS: &[(Call, Reply)] = &[
    (Call::First, Reply::Pair(None)),
    (Call::Last, Reply::Pair(None)),
    (Call::PopFirst, Reply::Pair(None)),
    (Call::PopLast, Reply::Pair(None)),
    (Call::Get(5), Reply::Value(None)),
    (Call::Remove(5), Reply::Pair(None)),
    (Call::Insert((5, 50)), Reply::Pair(None)),
    (Call::Insert((3, 30)), Reply::Pair(None)),
    (Call::Insert((9, 90)), Reply::Pair(None)),
    // the one that had the key comes back
    (Call::Insert((5, 51)), Reply::Pair(Some((5, 50)))),
    (Call::Insert((3, 31)), Reply::Pair(Some((3, 30)))),
    (Call::Get(5), Reply::Value(Some(51))),
    (Call::Write((9, 91)), Reply::Value(Some(90))),
    (Call::Write((8, 1)), Reply::Value(None)),
    (Call::Contains(9), Reply::Is(true)),
    (Call::Contains(8), Reply::Is(false)),
    (Call::Find(9), Reply::Pair(Some((9, 91)))),
    (Call::Find(4), Reply::Pair(None)),
    (Call::First, Reply::Pair(Some((3, 31)))),
    (Call::Last, Reply::Pair(Some((9, 91)))),
    // a range has its first key and not its last
    (Call::Range(4, 9), Reply::Walked(1, 5 * 31 + 51)),
    (Call::Range(5, 9), Reply::Walked(1, 5 * 31 + 51)),
    (Call::Range(6, 5), Reply::Walked(0, 0)),
    (Call::Range(9, 5), Reply::Walked(0, 0)),
    (Call::Remove(5), Reply::Pair(Some((5, 51)))),
    (Call::RemoveAt(5), Reply::Pair(None)),
    (Call::RemoveAt(3), Reply::Pair(Some((3, 31)))),
    (Call::PopLast, Reply::Pair(Some((9, 91)))),
    (Call::Insert((1, 2)), Reply::Pair(None)),
    (Call::Clear, Reply::Nothing),
    (Call::Last, Reply::Pair(None)),
];

#[test]
fn calls_of_a_map_reply(rt: HostRuntime) {
    let mut map: Map = TreeMap::new();
    let mut pairs = Vec::new(rt.alloc());
    for (call, wanted) in CALLS {
        same(
            &rt,
            agree(&rt, rt.alloc(), &mut map, &mut pairs, call),
            *wanted,
        );
    }
}

/// Draws a call. A new value is this number.
fn drawn(draws: &mut Draws, number: u64) -> Call {
    let key = draws.below(KEYS);
    match draws.below(20) {
        0 => Call::Get(key),
        1 => Call::Contains(key),
        2 => Call::Find(key),
        3 => Call::First,
        4 => Call::Last,
        5 => Call::PopFirst,
        6 => Call::PopLast,
        7 | 8 => Call::Range(key, draws.below(KEYS)),
        9 | 10 => Call::Write((key, number)),
        11 => Call::RemoveAt(key),
        12 | 13 | 14 => Call::Remove(key),
        _ => Call::Insert((key, number)),
    }
}

#[test]
fn many_calls_do_what_they_do_to_a_sorted_vector(rt: HostRuntime) {
    for start in 0..4u64 {
        let mut draws = Draws::new(start);
        let mut map: Map = TreeMap::new();
        let mut pairs = Vec::new(rt.alloc());
        for number in 0..2000u64 {
            let call = drawn(&mut draws, number);
            agree(&rt, rt.alloc(), &mut map, &mut pairs, &call);
        }
        agree(&rt, rt.alloc(), &mut map, &mut pairs, &Call::Clear);
    }
}
