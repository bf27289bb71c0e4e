//! Rooms that come back by the pool: calls one after the other, and two threads that enqueue beside one that dequeues.
use crate::calls::{Call, Line, Reply};
use crate::compared::{made, same};
use crate::items::{Handle, append, element, elements, nothing, number, sum};
use crate::scenes::alone;
use crate::seats::{Claim, Seat, queue_of, shared};
use crate::tasks::{Task, run_all};
use std::alloc::Global;
use std::process::Abort;
use std::sync::Wait;
use std::sync::atomic::{AtomicU64, Ordering};
use std::thread;
use std::thread::Threads;
use test_support::counted::Drops;

/// How often a thread tries at most, before it fails.
const TRIES: u64 = 100_000_000;

/// The number of rooms through which all elements go.
const ROOMS: usize = 64;

/// How many elements each thread enqueues.
const EACH: u64 = 5000;

/// How often the threads meet.
const ROUNDS: u64 = 10;

/// A queue without rooms has none in its pool.
const NO_ROOM: [Line; 4] = [
    (0, Call::Refill, Reply::Refilled(0, 0)),
    (0, Call::GiveBack(0), Reply::Gave(true, 0)),
    (0, Call::TryPut(1), Reply::Full),
    (0, Call::Drops, Reply::Drops(1)),
];

/// The only room goes to the pool and comes back by an enqueue.
const ONE_ROOM: [Line; 8] = [
    (0, Call::GiveBack(1), Reply::Gave(true, 0)),
    (0, Call::TryPut(1), Reply::Rooms(0)),
    (0, Call::Refill, Reply::Refilled(0, 0)),
    (0, Call::TryPut(2), Reply::Full),
    (0, Call::Try, Reply::Element(1)),
    (0, Call::TryPut(3), Reply::Rooms(0)),
    (0, Call::Try, Reply::Element(3)),
    (0, Call::Rooms, Reply::Rooms(1)),
];

/// All rooms go to the pool, where those of another party find no place, and all are taken at once.
const ALL_ROOMS: [Line; 12] = [
    (0, Call::Split(1), Reply::Rooms(2)),
    (0, Call::GiveBack(2), Reply::Gave(true, 0)),
    (1, Call::GiveBack(1), Reply::Gave(false, 1)),
    (1, Call::GiveBack(0), Reply::Gave(true, 1)),
    (1, Call::Refill, Reply::Refilled(2, 3)),
    (1, Call::GiveBack(3), Reply::Gave(true, 0)),
    (0, Call::Refill, Reply::Refilled(3, 3)),
    (0, Call::PutMany(1, 3), Reply::Rooms(0)),
    (1, Call::TryPut(4), Reply::Full),
    (0, Call::Try, Reply::Element(1)),
    (0, Call::Try, Reply::Element(2)),
    (0, Call::Try, Reply::Element(3)),
];

/// Some of the rooms go to the pool and follow the others when they come back.
const SOME_ROOMS: [Line; 12] = [
    (0, Call::GiveBack(2), Reply::Gave(true, 2)),
    (0, Call::Put(1), Reply::Rooms(1)),
    (0, Call::Refill, Reply::Refilled(2, 3)),
    (0, Call::GiveBack(1), Reply::Gave(true, 2)),
    (0, Call::TryPut(2), Reply::Rooms(1)),
    (0, Call::TryPut(3), Reply::Rooms(0)),
    (0, Call::TryPut(4), Reply::Rooms(0)),
    (0, Call::TryPut(5), Reply::Full),
    (0, Call::Try, Reply::Element(1)),
    (0, Call::Try, Reply::Element(2)),
    (0, Call::GiveBack(2), Reply::Gave(true, 0)),
    (0, Call::Refill, Reply::Refilled(2, 2)),
];

/// All rooms go to the pool, also where others are there.
const ALL_BACK: [Line; 8] = [
    (0, Call::Split(1), Reply::Rooms(2)),
    (0, Call::GiveAllBack, Reply::Gave(true, 0)),
    (1, Call::GiveBack(1), Reply::Gave(false, 1)),
    (1, Call::GiveAllBack, Reply::Gave(true, 0)),
    (1, Call::GiveAllBack, Reply::Gave(true, 0)),
    (0, Call::RefillAtMost(2), Reply::Refilled(2, 2)),
    (0, Call::GiveAllBack, Reply::Gave(true, 0)),
    (1, Call::Refill, Reply::Refilled(3, 3)),
];

/// A party takes a part of the pool, and others find the rest, until it is empty.
const A_PART: [Line; 18] = [
    (0, Call::Split(0), Reply::Rooms(5)),
    (0, Call::GiveBack(5), Reply::Gave(true, 0)),
    (1, Call::RefillAtMost(2), Reply::Refilled(2, 2)),
    (0, Call::RefillAtMost(0), Reply::Refilled(0, 0)),
    (1, Call::RefillAtMost(1), Reply::Refilled(1, 3)),
    (0, Call::RefillAtMost(9), Reply::Refilled(2, 2)),
    (0, Call::RefillAtMost(1), Reply::Refilled(0, 2)),
    (1, Call::PutMany(1, 3), Reply::Rooms(0)),
    (0, Call::PutMany(4, 2), Reply::Rooms(0)),
    (0, Call::Try, Reply::Element(1)),
    (0, Call::Try, Reply::Element(2)),
    (0, Call::Try, Reply::Element(3)),
    (0, Call::Try, Reply::Element(4)),
    (0, Call::Try, Reply::Element(5)),
    (0, Call::GiveBack(4), Reply::Gave(true, 1)),
    (1, Call::RefillAtMost(3), Reply::Refilled(3, 3)),
    (1, Call::PutMany(6, 3), Reply::Rooms(0)),
    (0, Call::Refill, Reply::Refilled(1, 2)),
];

/// A party that enqueues takes 64 rooms of the pool, and another one finds the rest.
const A_QUANTUM: [Line; 6] = [
    (0, Call::Split(0), Reply::Rooms(100)),
    (0, Call::GiveBack(100), Reply::Gave(true, 0)),
    (1, Call::TryPut(1), Reply::Rooms(63)),
    (0, Call::TryPut(2), Reply::Rooms(35)),
    (1, Call::TryPut(3), Reply::Rooms(62)),
    (1, Call::Refill, Reply::Refilled(0, 62)),
];

/// Sixteen parties with one room each, of which each takes the rooms of the pool and gives them back with its own.
const SIXTEEN_PARTIES: [Line; 45] = [
    (0, Call::Split(1), Reply::Rooms(15)),
    (0, Call::Split(1), Reply::Rooms(14)),
    (0, Call::Split(1), Reply::Rooms(13)),
    (0, Call::Split(1), Reply::Rooms(12)),
    (0, Call::Split(1), Reply::Rooms(11)),
    (0, Call::Split(1), Reply::Rooms(10)),
    (0, Call::Split(1), Reply::Rooms(9)),
    (0, Call::Split(1), Reply::Rooms(8)),
    (0, Call::Split(1), Reply::Rooms(7)),
    (0, Call::Split(1), Reply::Rooms(6)),
    (0, Call::Split(1), Reply::Rooms(5)),
    (0, Call::Split(1), Reply::Rooms(4)),
    (0, Call::Split(1), Reply::Rooms(3)),
    (0, Call::Split(1), Reply::Rooms(2)),
    (0, Call::Split(1), Reply::Rooms(1)),
    (1, Call::GiveBack(1), Reply::Gave(true, 0)),
    (2, Call::Refill, Reply::Refilled(1, 2)),
    (2, Call::GiveBack(2), Reply::Gave(true, 0)),
    (3, Call::Refill, Reply::Refilled(2, 3)),
    (3, Call::GiveBack(3), Reply::Gave(true, 0)),
    (4, Call::Refill, Reply::Refilled(3, 4)),
    (4, Call::GiveBack(4), Reply::Gave(true, 0)),
    (5, Call::Refill, Reply::Refilled(4, 5)),
    (5, Call::GiveBack(5), Reply::Gave(true, 0)),
    (6, Call::Refill, Reply::Refilled(5, 6)),
    (6, Call::GiveBack(6), Reply::Gave(true, 0)),
    (7, Call::Refill, Reply::Refilled(6, 7)),
    (7, Call::GiveBack(7), Reply::Gave(true, 0)),
    (8, Call::Refill, Reply::Refilled(7, 8)),
    (8, Call::GiveBack(8), Reply::Gave(true, 0)),
    (9, Call::Refill, Reply::Refilled(8, 9)),
    (9, Call::GiveBack(9), Reply::Gave(true, 0)),
    (10, Call::Refill, Reply::Refilled(9, 10)),
    (10, Call::GiveBack(10), Reply::Gave(true, 0)),
    (11, Call::Refill, Reply::Refilled(10, 11)),
    (11, Call::GiveBack(11), Reply::Gave(true, 0)),
    (12, Call::Refill, Reply::Refilled(11, 12)),
    (12, Call::GiveBack(12), Reply::Gave(true, 0)),
    (13, Call::Refill, Reply::Refilled(12, 13)),
    (13, Call::GiveBack(13), Reply::Gave(true, 0)),
    (14, Call::Refill, Reply::Refilled(13, 14)),
    (14, Call::GiveBack(14), Reply::Gave(true, 0)),
    (15, Call::Refill, Reply::Refilled(14, 15)),
    (15, Call::GiveBack(15), Reply::Gave(true, 0)),
    (0, Call::Refill, Reply::Refilled(15, 16)),
];

/// A consumer gives back the rooms of what it took, also the last, while it has the right to dequeue.
fn by_a_consumer(claim: Claim) -> [Line; 10] {
    [
        (0, Call::Split(0), Reply::Rooms(2)),
        (1, Call::Consume(claim), Reply::Rooms(0)),
        (0, Call::PutMany(1, 2), Reply::Rooms(0)),
        (1, Call::Try, Reply::Element(1)),
        (1, Call::GiveBack(1), Reply::Gave(true, 0)),
        (1, Call::Try, Reply::Element(2)),
        (1, Call::GiveBack(1), Reply::Gave(false, 1)),
        (0, Call::TryPut(3), Reply::Rooms(0)),
        (1, Call::GiveBack(1), Reply::Gave(true, 0)),
        (1, Call::Try, Reply::Element(3)),
    ]
}

#[test]
fn rooms_come_back(rt: HostRuntime) {
    alone(&rt, rt.alloc(), 0, 1, &[&NO_ROOM]);
    alone(&rt, rt.alloc(), 1, 3, &[&ONE_ROOM]);
    alone(&rt, rt.alloc(), 3, 4, &[&ALL_ROOMS]);
    alone(&rt, rt.alloc(), 4, 5, &[&SOME_ROOMS]);
    alone(&rt, rt.alloc(), 3, 0, &[&ALL_BACK]);
    alone(&rt, rt.alloc(), 5, 8, &[&A_PART]);
    alone(&rt, rt.alloc(), 100, 3, &[&A_QUANTUM]);
    for claim in [Claim::Try, Claim::TryOwned] {
        alone(&rt, rt.alloc(), 2, 3, &[&by_a_consumer(claim)]);
    }
}

#[test]
fn sixteen_parties_pass_all_rooms_on(rt: HostRuntime) {
    alone(&rt, rt.alloc(), 16, 0, &[&SIXTEEN_PARTIES]);
}

/// Enqueues the last of the elements, then the one before it and so on, until there is no room or no element.
fn fill(rt: &impl Abort, seat: &mut Seat<'_>, elements: &mut Vec<Handle>) {
    for _ in 0..elements.len() {
        let Some(node) = elements.pop() else {
            return;
        };
        if let Err(back) = seat.try_put(rt, node) {
            append(rt, elements, back);
            return;
        }
    }
}

/// Dequeues all, gives the rooms back if the pool takes them, and returns how many came out.
fn drain(rt: &impl Abort, seat: &mut Seat<'_>) -> u64 {
    let mut count = 0;
    for _ in 0..TRIES {
        match seat.try_take(rt) {
            Ok(_node) => count = sum(count, 1),
            Err(_) => break,
        }
    }
    let rooms = seat.rooms(rt);
    seat.give_back(rt, rooms);
    count
}

// A party enqueues one element and then does nothing: it keeps 63 of 256 rooms. The others go through 193 rooms each
// time, so 2000 elements and that one come out in 11 batches.
#[test]
fn an_idle_party_leaves_most_rooms_to_others(rt: HostRuntime) {
    let drops = made(&rt, Drops::new(rt.alloc()));
    let (queue, party) = queue_of(&rt, rt.alloc(), None, 256);
    let queue = shared(&rt, rt.alloc(), queue);
    let mut taker = Seat::new(&queue, party);
    let mut idle = taker.split(&rt, 0);
    let mut busy = taker.split(&rt, 0);
    same(&rt, taker.give_back(&rt, 256), true);
    let first = element(&rt, rt.alloc(), 0, &drops);
    same(&rt, idle.try_put(&rt, first).is_ok(), true);
    let mut left = elements(&rt, rt.alloc(), 1, 2000, &drops);
    let (mut batches, mut taken) = (0, 0);
    for _ in 0..2001 {
        if left.is_empty() {
            break;
        }
        fill(&rt, &mut busy, &mut left);
        taken = sum(taken, drain(&rt, &mut taker));
        batches = sum(batches, 1);
    }
    same(&rt, (batches, taken), (11, 2001));
    same(&rt, (idle.rooms(&rt), drops.count()), (63, 2001));
}

/// A thread that enqueues elements, for each of which it needs a room of the pool.
#[derive(Drop)]
pub struct Filler<'q> {
    seat: Seat<'q>,
    elements: Vec<Handle>,
    /// How many rooms the threads have at last.
    left: &'q AtomicU64,
}

/// Enqueues an element, as soon as there is a room.
fn put(rt: &impl Abort, seat: &mut Seat<'_>, node: Handle) {
    let mut node = node;
    for _ in 0..TRIES {
        match seat.try_put(rt, node) {
            Ok(()) => return,
            Err(back) => node = back,
        }
        thread::yield_now();
    }
    panic!(rt; "no room came back");
}

impl Filler<'_> {
    /// Enqueues all, the first of them first.
    pub fn fill(self, rt: &impl Abort) {
        let Filler {
            mut seat,
            elements,
            left,
        } = self;
        for node in elements {
            put(rt, &mut seat, node);
        }
        left.fetch_add(seat.rooms(rt) as u64, Ordering::SeqCst);
    }
}

/// A thread that dequeues the elements of two others, and gives each room to the pool.
#[derive(Drop)]
pub struct Drainer<'q> {
    seat: Seat<'q>,
    /// The next number of each thread that enqueues.
    next: (u64, u64),
    left: &'q AtomicU64,
}

impl Drainer<'_> {
    /// Compares the number of an element that came out with the next one of its thread.
    fn count(&mut self, rt: &impl Abort, node: &Handle) {
        let number = number(rt, node);
        if number < EACH {
            same(rt, number, self.next.0);
            self.next.0 = sum(self.next.0, 1);
        } else {
            same(rt, number, self.next.1);
            self.next.1 = sum(self.next.1, 1);
        }
    }

    /// Dequeues all.
    pub fn drain(mut self, rt: &impl Abort) {
        for _ in 0..TRIES {
            match self.seat.try_take(rt) {
                Ok(node) => self.count(rt, &node),
                Err(_) => thread::yield_now(),
            }
            let rooms = self.seat.rooms(rt);
            self.seat.give_back(rt, rooms);
            if self.next == (EACH, 2 * EACH) {
                break;
            }
        }
        same(rt, self.next, (EACH, 2 * EACH));
        self.left
            .fetch_add(self.seat.rooms(rt) as u64, Ordering::SeqCst);
    }
}

/// Lets the threads meet at a new queue, whose rooms are in its pool, and asserts that none is lost.
fn meet<R: Threads + Wait + Abort + Sync>(rt: &R, alloc: Global) {
    let drops = made(rt, Drops::new(alloc));
    let left = nothing();
    let (queue, party) = queue_of(rt, alloc, None, ROOMS);
    let queue = shared(rt, alloc, queue);
    let mut seat = Seat::new(&queue, party);
    same(rt, seat.give_back(rt, ROOMS), true);
    let mut tasks = Vec::new(alloc);
    for first in [0, EACH] {
        let filler = Filler {
            seat: seat.split(rt, 0),
            elements: elements(rt, alloc, first, EACH, &drops),
            left: &left,
        };
        append(rt, &mut tasks, Task::Fill(filler));
    }
    let drainer = Drainer {
        seat: seat.split(rt, 0).consume(rt, Claim::Try),
        next: (0, EACH),
        left: &left,
    };
    append(rt, &mut tasks, Task::Drain(drainer));
    run_all(rt, tasks);
    let found = seat.refill(rt) as u64;
    same(rt, sum(found, left.load(Ordering::SeqCst)), ROOMS as u64);
    same(rt, drops.count(), 2 * EACH);
}

#[test]
fn many_elements_go_through_few_rooms(rt: HostRuntime) {
    for _ in 0..ROUNDS {
        meet(&rt, rt.alloc());
    }
}
