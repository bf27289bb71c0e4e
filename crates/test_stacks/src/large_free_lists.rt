//! Free lists with rooms for many shared blocks: as many as there can be, and fewer.
use crate::blocks::{dropped, no_drops};
use crate::compared::{at_most, made, same};
use crate::users::Remote;
use freelist::{FreeList, Local, MAX_ROOMS};
use std::alloc::Global;
use std::process::Abort;
use test_support::counted::Counted;
use test_support::nodes::number;

/// How many rooms the free lists have, and how many blocks they share.
const ROOMS: [(usize, u64); 2] = [(MAX_ROOMS, 12_000), (5_000, 5_000)];

/// How many blocks a party puts back at most.
const MOST: u64 = 4_000;

/// Gets this many blocks, whose numbers fall to 0.
fn gets_down(rt: &impl Abort, mut local: Local<'_, Counted>, count: u64) {
    for wanted in (0..count).rev() {
        same(rt, number(local.get()), Some(wanted));
    }
    same(rt, number(local.get()), None);
}

/// Splits the rooms of a new free list between three parties, each of which puts blocks back, and lets the last one get
/// all.
fn shares(rt: &impl Abort, alloc: Global, rooms: usize, blocks: u64) {
    at_most(rt, rooms, MAX_ROOMS);
    let drops = no_drops(rt, alloc);
    let (list, party) = made(rt, FreeList::new(alloc, rooms));
    let mut last = Remote::at(&list, party);
    let (mut first, mut second) = (last.split(rt, rooms / 3), last.split(rt, rooms / 3));
    let put = first.fill(rt, alloc, (0, MOST), &drops);
    let put = second.fill(rt, alloc, (put, MOST), &drops);
    last.fill(rt, alloc, (put, MOST), &drops);
    gets_down(rt, last.local(), blocks);
    dropped(rt, &drops, blocks);
}

#[test]
fn many_rooms_share_blocks(rt: HostRuntime) {
    for (rooms, blocks) in ROOMS {
        shares(&rt, rt.alloc(), rooms, blocks);
    }
}
