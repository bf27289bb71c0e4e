//! Runs of many drawn calls of maps, beside plain vectors that should hold the same.
ghost use Rattle.std.specs.Prelude.{◌<◌};

use crate::calls::{KEYS, Map, holds, reply};
use crate::compared::{made, same};
use crate::plain::{Call, Plain, Reply};
use cordyceps_many::hooks::{Hooks, One, Three, Two};
use cordyceps_map::seeded::Seeded;
use cordyceps_map::stable_map::StableMap;
use std::alloc::Global;
use std::process::Abort;
use test_support::draws::Draws;

/// After so many calls all that a map holds is compared. The replies are compared after each call.
const COMPARED: u64 = 64;

/// Maps of so many buckets, in the first of which all keys collide.
const FEW_BUCKETS: [usize; 2] = [1, 2];

const MANY_BUCKETS: [usize; 2] = [16, 64];

/// A node can be in at most so many lists.
const LISTS: usize = 4;

/// Draws a call of a map of at most so many buckets, whose last list is list `last`. A new node has this number.
fn drawn(draws: &mut Draws, buckets: usize, last: usize, number: u64) -> Call {
    let key = draws.below(KEYS);
    let other = draws.below(KEYS);
    let value = draws.below(1000);
    let i = draws.place(last.min(LISTS));
    match draws.below(28) {
        0 | 1 | 2 | 3 => Call::Insert((number, key, value)),
        4 => Call::Remove(key),
        5 => Call::RemoveAt(key),
        6 => Call::Find(key),
        7 => Call::ContainsKey(key),
        8 | 9 => Call::LinkBack(i, key),
        10 | 11 => Call::LinkFront(i, key),
        12 | 13 => Call::LinkBefore(i, key, other),
        14 | 15 => Call::LinkAfter(i, key, other),
        16 => Call::MoveToBack(i, key),
        17 => Call::MoveToFront(i, key),
        18 | 19 => Call::Unlink(i, key),
        20 => Call::EnsureUnlinked(i, key),
        21 => Call::UnlinkFront(i),
        22 if value < 200 => Call::UnlinkOthers(key),
        23 if value < 200 => Call::Rehash(draws.place(buckets.min(64))),
        24 => Call::Write(key, value),
        25 => Call::GetMut(key, value),
        26 | 27 => Call::LinkInOrder(i, key),
        _ => Call::Get(key),
    }
}

/// Makes a call of a map and does the same to vectors. Asserts that both reply and hold the same.
pub fn agree<H: Hooks>(
    rt: &impl Abort,
    alloc: Global,
    map: &mut Map<H>,
    last: usize,
    plain: &mut Plain,
    call: Call,
) -> Reply
    requires { last < H.count }
{
    let wanted = plain.call(rt, call);
    let came = reply(rt, alloc, map, last, call);
    same(rt, came, wanted);
    holds(rt, map, last, plain);
    came
}

/// Makes so many drawn calls of a map of so many buckets, of whose lists list `last` is the last, beside vectors.
fn run<H: Hooks>(rt: &impl Abort, alloc: Global, last: usize, buckets: usize, calls: u64)
    requires { last < H.count }
{
    let mut draws = Draws::new(buckets as u64);
    let mut map: Map<H> = made(
        rt,
        StableMap::with_capacity(alloc, buckets, Seeded::new(calls, 7)),
    );
    let mut plain = Plain::new(rt, alloc, last.wrapping_add(1));
    for turn in 0..calls {
        let call = drawn(&mut draws, buckets, last, turn);
        let wanted = plain.call(rt, call);
        same(rt, reply(rt, alloc, &mut map, last, call), wanted);
        if turn % COMPARED == 0 {
            holds(rt, &map, last, &plain);
        }
    }
    holds(rt, &map, last, &plain);
}

/// Makes so many drawn calls of a map of each of these numbers of buckets.
fn runs<H: Hooks>(rt: &impl Abort, alloc: Global, last: usize, tables: [usize; 2], calls: u64)
    requires { last < H.count }
{
    for buckets in &tables {
        run::<H>(rt, alloc, last, *buckets, calls);
    }
}

#[test]
fn many_calls_of_maps_of_one_list_do_what_they_do_to_vectors(rt: HostRuntime) {
    runs::<One>(&rt, rt.alloc(), 0, FEW_BUCKETS, 50_000);
    runs::<One>(&rt, rt.alloc(), 0, MANY_BUCKETS, 50_000);
}

#[test]
fn many_calls_of_few_buckets_and_two_lists_do_what_they_do_to_vectors(rt: HostRuntime) {
    runs::<Two>(&rt, rt.alloc(), 1, FEW_BUCKETS, 100_000);
}

#[test]
fn many_calls_of_many_buckets_and_two_lists_do_what_they_do_to_vectors(rt: HostRuntime) {
    runs::<Two>(&rt, rt.alloc(), 1, MANY_BUCKETS, 100_000);
}

#[test]
fn many_calls_of_few_buckets_and_three_lists_do_what_they_do_to_vectors(rt: HostRuntime) {
    runs::<Three>(&rt, rt.alloc(), 2, FEW_BUCKETS, 80_000);
}

#[test]
fn many_calls_of_many_buckets_and_three_lists_do_what_they_do_to_vectors(rt: HostRuntime) {
    runs::<Three>(&rt, rt.alloc(), 2, MANY_BUCKETS, 100_000);
}
