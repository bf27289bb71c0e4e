//! Stacks of many rooms: as many as a stack can have, and fewer.
use crate::compared::same;
use crate::items::{dropped, element, falls, no_drops, sum};
use crate::seats::{Seat, new_stack};
use cordyceps_stack::stack::MAX_ROOMS;
use std::alloc::Global;
use std::process::Abort;
use test_support::counted::Drops;

/// How many rooms the stacks have, and how many elements they hold. Up to 262,144 rooms their order is crosswise, in
/// blocks of 1,024, 256 and 64: the last stack has four, three and two of these, and eight rooms behind them.
const ROOMS: [(usize, u64); 4] = [
    (MAX_ROOMS, 12_000),
    (262_145, 12_000),
    (262_144, 12_000),
    (5_000, 5_000),
];

/// How many elements a party pushes at most.
const MOST: u64 = 4_000;

/// Pushes elements into the rooms of a party, at most `MOST`, each by one try, which nobody overtakes. Their numbers
/// rise from the first. Returns the number after the last. Only before the number 0 nothing is held.
fn fill(rt: &impl Abort, alloc: Global, seat: &mut Seat<'_>, first: u64, drops: &Drops) -> u64 {
    let end = sum(first, MOST.min(seat.rooms() as u64));
    for number in first..end {
        seat.pushes(rt, element(rt, alloc, number, drops), number == 0);
    }
    end
}

/// Splits the rooms of a new stack between three parties, each of which pushes, and lets the last one take all.
fn holds(rt: &impl Abort, alloc: Global, rooms: usize, elements: u64) {
    let drops = no_drops(rt, alloc);
    let (stack, party) = new_stack(rt, alloc, rooms);
    let mut last = Seat::new(&stack, party);
    let (mut first, mut second) = (last.split(rt, rooms / 3), last.split(rt, rooms / 3));
    let pushed = fill(rt, alloc, &mut first, 0, &drops);
    let pushed = fill(rt, alloc, &mut second, pushed, &drops);
    fill(rt, alloc, &mut last, pushed, &drops);
    let before = last.rooms() as u64;
    falls(rt, last.take_all(), elements.wrapping_sub(1), elements);
    same(rt, last.rooms() as u64, sum(before, elements));
    dropped(rt, &drops, elements);
}

#[test]
fn many_rooms_hold_elements(rt: HostRuntime) {
    for (rooms, elements) in ROOMS {
        holds(&rt, rt.alloc(), rooms, elements);
    }
}
