//! Runs of many calls of a stable list, beside a vector that should hold the same.
use crate::compared::{made, same};
use crate::keys::{FOUR, Key, Pair, Reply, THREE, put, reply_at, taken};
use crate::stable_calls::{BySpot, Call, holds, reply};
use cordyceps_stable::stable_list::StableList;
use std::alloc::Global;
use std::process::Abort;
use test_support::draws::Draws;

/// The keys are below this, so that a list mostly has some of them twice.
const KEYS: u64 = 24;

/// Draws a call of a list of this length. A new element has this number.
fn drawn(draws: &mut Draws, len: usize, number: u64) -> Call {
    let pair = (number, draws.below(KEYS));
    let at = draws.place(len.saturating_sub(1));
    match draws.below(18) {
        0 => Call::PushFront(pair),
        1 => Call::PushBack(pair),
        2 => Call::PopFront,
        3 => Call::PopBack,
        4 => Call::Append(&[THREE, FOUR]),
        _ if len == 0 => Call::TryPushFront(pair),
        5 => Call::By(at, BySpot::InsertBefore(pair)),
        6 => Call::By(at, BySpot::InsertAfter(pair)),
        7 | 8 | 9 => Call::Remove(at),
        10 => Call::Replace(at, pair),
        11 => Call::By(at, BySpot::MoveToFront),
        12 => Call::By(at, BySpot::MoveToBack),
        13 => Call::By(at, BySpot::Read),
        14 => Call::By(at, BySpot::MoveAfterNext),
        15 => Call::By(at, BySpot::MoveAfterNew(pair)),
        _ => Call::By(at, BySpot::Write(pair.1)),
    }
}

/// Moves a pair of a vector, and returns where it then is.
fn moved(rt: &impl Abort, pairs: &mut Vec<Pair>, from: usize, to: usize) -> usize {
    let pair = taken(pairs, from).expect(rt, "the place has a pair");
    put(rt, pairs, to, pair)
}

/// Does to a vector what a call does to a list, and returns the reply that is wanted.
fn wanted(rt: &impl Abort, pairs: &mut Vec<Pair>, call: &Call) -> Reply {
    let end = pairs.len();
    let last = end.wrapping_sub(1);
    let at = match call {
        Call::PushFront(pair) | Call::TryPushFront(pair) => put(rt, pairs, 0, *pair),
        Call::PushBack(pair) | Call::TryPushBack(pair) => put(rt, pairs, end, *pair),
        Call::Append(more) => {
            made(rt, pairs.extend_from_slice(more));
            end
        }
        Call::PopFront => return Reply::Out(taken(pairs, 0)),
        Call::PopBack => return Reply::Out(taken(pairs, last)),
        Call::Front => 0,
        Call::Back => last,
        Call::Remove(at) => return Reply::Out(taken(pairs, *at)),
        Call::Replace(at, pair) => {
            let old = taken(pairs, *at);
            put(rt, pairs, *at, *pair);
            return Reply::Out(old);
        }
        Call::By(at, BySpot::InsertBefore(pair)) => put(rt, pairs, *at, *pair),
        Call::By(at, BySpot::InsertAfter(pair)) => put(rt, pairs, at.wrapping_add(1), *pair),
        Call::By(at, BySpot::Write(key)) => {
            if let Some(pair) = pairs.get_mut(*at) {
                pair.1 = *key;
            }
            *at
        }
        Call::By(at, BySpot::MoveToFront) => moved(rt, pairs, *at, 0),
        Call::By(at, BySpot::MoveToBack) => moved(rt, pairs, *at, last),
        Call::By(at, BySpot::MoveAfterNext) => {
            moved(rt, pairs, *at, at.wrapping_add(1).min(last))
        }
        Call::By(at, BySpot::MoveAfterNew(pair)) => {
            put(rt, pairs, 0, *pair);
            moved(rt, pairs, at.wrapping_add(1), 1)
        }
        Call::By(at, BySpot::Read) => *at,
    };
    reply_at(pairs, at)
}

/// Makes a call of a list and does the same to a vector. Asserts that both reply and hold the same, and returns the
/// reply.
pub fn agree(
    rt: &impl Abort,
    alloc: Global,
    list: &mut StableList<Key>,
    pairs: &mut Vec<Pair>,
    call: &Call,
) -> Reply {
    let wanted = wanted(rt, pairs, call);
    let came = reply(rt, alloc, list, call);
    same(rt, came, wanted);
    holds(rt, list, pairs.as_slice());
    came
}

#[test]
fn many_operations_do_what_they_do_to_a_vector(rt: HostRuntime) {
    for start in 0..6u64 {
        let mut draws = Draws::new(start);
        let mut list = StableList::default();
        let mut pairs = Vec::new(rt.alloc());
        for number in 0..500u64 {
            let call = drawn(&mut draws, pairs.len(), number);
            agree(&rt, rt.alloc(), &mut list, &mut pairs, &call);
        }
        for turn in 0..pairs.len() {
            let end = if turn % 2 == 0 {
                Call::PopFront
            } else {
                Call::PopBack
            };
            agree(&rt, rt.alloc(), &mut list, &mut pairs, &end);
        }
        same(&rt, list.is_empty(), true);
    }
}
