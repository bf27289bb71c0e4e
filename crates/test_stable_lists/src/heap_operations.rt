//! Runs of many calls of a heap with spots, beside a sorted vector that should hold the same.
use crate::compared::same;
use crate::heap_calls::{Call, Keys, make_call};
use crate::keys::{Pair, Reply, taken};
use crate::sorted_operations::put_in_order;
use std::alloc::Global;
use std::process::Abort;
use test_support::draws::Draws;

/// The keys are below this, so that a heap mostly has some of them many times.
const KEYS: u64 = 24;

/// Elements that are appended. No call names their numbers.
const MORE: &[Pair] = &[
    (1_000_001, 7),
    (1_000_002, 23),
    (1_000_003, 7),
    (1_000_004, 0),
];

/// Draws a call of a heap into which elements of the numbers below this were pushed, and a new one of this number.
fn drawn(draws: &mut Draws, number: u64) -> Call {
    let key = draws.below(KEYS);
    let other = draws.below(number.wrapping_add(1).max(1));
    match draws.below(16) {
        0 | 1 | 2 | 3 => Call::Push((number, key)),
        4 => Call::TryPush((number, key)),
        5 | 6 => Call::PopFront,
        7 => Call::Append(MORE),
        8 => Call::Front,
        9 => Call::Get(other),
        10 => Call::Sum,
        11 | 12 => Call::Update(other, key),
        _ => Call::Remove(other),
    }
}

/// Returns the place of the pair with a number, or the length if there is none.
fn place_of(pairs: &[Pair], number: u64) -> usize {
    let mut at = 0usize;
    for pair in pairs {
        if pair.0 == number {
            return at;
        }
        at = at.wrapping_add(1);
    }
    at
}

/// Returns the key of a pair, if there is one.
fn key_of(pair: Option<Pair>) -> Option<u64> {
    Some(pair?.1)
}

/// Returns the sum of the keys of pairs.
fn sum_of(pairs: &[Pair]) -> u64 {
    let mut sum = 0u64;
    for pair in pairs {
        sum = sum.wrapping_add(pair.1);
    }
    sum
}

/// Does to a sorted vector what a call does to a heap, and returns the reply that is wanted.
fn wanted(rt: &impl Abort, pairs: &mut Vec<Pair>, call: &Call) -> Reply {
    match call {
        Call::Push(pair) | Call::TryPush(pair) => {
            put_in_order(rt, pairs, *pair);
            Reply::Nothing
        }
        Call::Append(more) => {
            for pair in *more {
                put_in_order(rt, pairs, *pair);
            }
            Reply::Nothing
        }
        Call::PopFront => Reply::Out(taken(pairs, 0)),
        Call::Front => Reply::Read(key_of(pairs.first().copied())),
        Call::Get(number) => {
            let at = place_of(pairs.as_slice(), *number);
            Reply::Read(key_of(pairs.get(at).copied()))
        }
        Call::Sum => Reply::Sum(pairs.len(), sum_of(pairs.as_slice())),
        Call::Remove(number) => {
            let at = place_of(pairs.as_slice(), *number);
            Reply::Out(taken(pairs, at))
        }
        Call::Update(number, key) => {
            let at = place_of(pairs.as_slice(), *number);
            let old = taken(pairs, at);
            if old.is_some() {
                put_in_order(rt, pairs, (*number, *key));
            }
            Reply::Read(key_of(old))
        }
    }
}

/// Makes a call of a heap and does the same to a vector. Asserts that both reply the same and are as long, and returns
/// the reply.
pub fn agree(
    rt: &impl Abort,
    alloc: Global,
    keys: &mut Keys,
    pairs: &mut Vec<Pair>,
    call: &Call,
) -> Reply {
    let wanted = wanted(rt, pairs, call);
    let came = make_call(rt, alloc, keys, call);
    same(rt, came, wanted);
    same(rt, keys.len(), pairs.len());
    came
}

#[test]
fn many_heap_operations_do_what_they_do_to_a_sorted_vector(rt: HostRuntime) {
    for start in 0..4u64 {
        let mut draws = Draws::new(start);
        let mut keys = Keys::new(rt.alloc());
        let mut pairs = Vec::new(rt.alloc());
        for number in 0..3000u64 {
            let call = drawn(&mut draws, number);
            agree(&rt, rt.alloc(), &mut keys, &mut pairs, &call);
        }
        for _ in 0..pairs.len() {
            agree(&rt, rt.alloc(), &mut keys, &mut pairs, &Call::PopFront);
        }
        same(&rt, keys.len(), 0);
    }
}
