//! Runs of many calls of a tree, beside a sorted vector that should hold the same.
use crate::calls::{Call, Keys, Pair, Reply, Sight, holds, make_call};
use crate::compared::{at_most, made, same};
use cordyceps_tree::stable_tree::StableTree;
use std::alloc::Global;
use std::process::Abort;
use test_support::draws::Draws;

/// The keys are below this, so that a tree mostly has some of them several times.
const KEYS: u64 = 60;

/// Draws a call of a tree of this length. A new element has this number. The tree grows up to some 80 elements.
fn drawn(draws: &mut Draws, len: usize, number: u64) -> Call {
    let pair = (number, draws.below(KEYS));
    let at = draws.place(len.saturating_sub(1));
    let kind = draws.below(24);
    let grows = draws.below(80) >= len as u64;
    match kind {
        0 => Call::First,
        1 => Call::Last,
        2 => Call::LowerBound(pair.1),
        3 => Call::UpperBound(pair.1),
        4 => Call::Find(pair.1),
        5 => Call::PartitionPoint(pair.1),
        6 => Call::PopFront,
        7 => Call::PopBack,
        8 => Call::TryInsert(pair),
        _ if len == 0 || grows => Call::Insert(pair),
        9 | 10 => Call::Update(at, pair.1),
        11 => Call::Replace(at, number),
        12 => Call::Read(at),
        _ => Call::Remove(at),
    }
}

/// Returns how many keys of a sorted vector are below this one, or, if equals count too, not above it.
fn count_before(pairs: &[Pair], key: u64, counts_equals: bool) -> usize {
    let mut count = 0usize;
    for pair in pairs {
        if pair.1 < key || (counts_equals && pair.1 == key) {
            count = count.wrapping_add(1);
        }
    }
    count
}

/// Inserts a pair after all that are not greater, and returns its place.
fn put_in_order(rt: &impl Abort, pairs: &mut Vec<Pair>, pair: Pair) -> usize {
    let at = count_before(pairs.as_slice(), pair.1, true);
    at_most(rt, at, pairs.len());
    made(rt, pairs.insert(at, pair));
    at
}

/// Removes the pair at a place of a vector, if there is one.
fn taken(pairs: &mut Vec<Pair>, at: usize) -> Option<Pair> {
    if at < pairs.len() {
        Some(pairs.remove(at))
    } else {
        None
    }
}

/// Returns the key at a place of a vector, if there is one.
fn key_at(pairs: &[Pair], at: usize) -> Option<u64> {
    Some(pairs.get(at)?.1)
}

/// Returns the keys before a place of a vector, at it and after it.
fn keys_around(pairs: &[Pair], at: usize) -> Sight {
    (
        key_at(pairs, at.wrapping_sub(1)),
        key_at(pairs, at),
        key_at(pairs, at.wrapping_add(1)),
    )
}

/// Returns what a call replies that leaves a spot at a place of a vector.
fn reply_at(pairs: &[Pair], at: usize) -> Reply {
    if at >= pairs.len() {
        return Reply::Nothing;
    }
    Reply::At(keys_around(pairs, at))
}

/// Does to a sorted vector what a call does to a tree, and returns the reply that is wanted.
fn wanted(rt: &impl Abort, pairs: &mut Vec<Pair>, call: &Call) -> Reply {
    let last = pairs.len().wrapping_sub(1);
    let at = match call {
        Call::Insert(pair) | Call::TryInsert(pair) => put_in_order(rt, pairs, *pair),
        Call::PopFront => return Reply::Out(taken(pairs, 0)),
        Call::PopBack => return Reply::Out(taken(pairs, last)),
        Call::First => 0,
        Call::Last => last,
        Call::Remove(at) => return Reply::Out(taken(pairs, *at)),
        Call::Update(at, key) => {
            let (number, old) = taken(pairs, *at).expect(rt, "the place has a pair");
            let to = put_in_order(rt, pairs, (number, *key));
            return Reply::Changed(old, keys_around(pairs.as_slice(), to));
        }
        Call::Replace(at, number) => {
            let old = taken(pairs, *at).expect(rt, "the place has a pair");
            at_most(rt, *at, pairs.len());
            made(rt, pairs.insert(*at, (*number, old.1)));
            return Reply::Out(Some(old));
        }
        Call::Read(at) => *at,
        Call::LowerBound(key) | Call::PartitionPoint(key) => {
            count_before(pairs.as_slice(), *key, false)
        }
        Call::UpperBound(key) => count_before(pairs.as_slice(), *key, true),
        Call::Find(key) => {
            let at = count_before(pairs.as_slice(), *key, false);
            if key_at(pairs.as_slice(), at) != Some(*key) {
                return Reply::Nothing;
            }
            at
        }
        Call::Clear => {
            pairs.clear();
            return Reply::Nothing;
        }
    };
    reply_at(pairs.as_slice(), at)
}

/// Makes a call of a tree and does the same to a vector. Asserts that both reply and hold the same, and returns the
/// reply.
pub fn agree(
    rt: &impl Abort,
    alloc: Global,
    tree: &mut Keys,
    pairs: &mut Vec<Pair>,
    call: &Call,
) -> Reply {
    let wanted = wanted(rt, pairs, call);
    let came = make_call(rt, alloc, tree, call);
    same(rt, came, wanted);
    holds(rt, tree, pairs.as_slice());
    came
}

#[test]
fn many_operations_do_what_they_do_to_a_sorted_vector(rt: HostRuntime) {
    for start in 0..4u64 {
        let mut draws = Draws::new(start);
        let mut tree: Keys = StableTree::new_min();
        let mut pairs = Vec::new(rt.alloc());
        for number in 0..2000u64 {
            let call = drawn(&mut draws, pairs.len(), number);
            agree(&rt, rt.alloc(), &mut tree, &mut pairs, &call);
        }
        for _ in 0..pairs.len() {
            agree(&rt, rt.alloc(), &mut tree, &mut pairs, &Call::PopFront);
        }
        same(&rt, tree.is_empty(), true);
    }
}
