//! Calls of the parties at a queue, and what they reply.
use crate::compared::same;
use crate::items::{Handle, append, element, number, numbers, sum};
use crate::seats::{Claim, Seat};
use cordyceps_queue::mpsc_queue::TryDequeueError;
use std::alloc::Global;
use std::process::Abort;
use std::sync::Wait;
use std::sync::atomic::{AtomicU64, Ordering};
use std::{mem, thread};
use test_support::counted::Drops;

/// How often a thread looks at a count before it gives up.
const LOOKS: u64 = 10_000_000;

/// How often a thread looks whether a count stays.
const PAUSES: u64 = 1000;

/// A call of one party, or of the thread that makes its calls.
#[derive(Clone, Copy)]
pub enum Call {
    /// Splits a party with this many rooms off, which gets the next place.
    Split(usize),
    /// Enqueues an element of this number.
    Put(u64),
    /// Enqueues elements from this number on, and how many.
    PutMany(u64, u64),
    /// Enqueues an element of this number, if there is a room, of the party or in the pool.
    TryPut(u64),
    /// Enqueues an element of this number, and may wait for a room.
    PutWaiting(u64),
    /// Takes the rooms of the pool.
    Refill,
    /// Takes at most this many rooms of the pool.
    RefillAtMost(usize),
    /// Gives this many rooms to the pool.
    GiveBack(usize),
    /// Gives all rooms to the pool, with those that are there.
    GiveAllBack,
    /// The same, until the pool has taken them.
    GiveAllBackWaiting,
    /// Tries once to dequeue.
    Try,
    /// Dequeues, and may wait.
    Take,
    /// Takes a batch of at most this many elements.
    Batch(usize),
    /// Takes a batch of at most this many elements, and drops it once its first element came out.
    FirstOf(usize),
    /// Takes the right to dequeue, and has it until it is released.
    Consume(Claim),
    Release,
    /// Drops the party.
    Leave,
    /// Forgets the party, which is not dropped.
    Forget,
    /// Tells how many rooms the party has.
    Rooms,
    /// Tells how many drops were counted.
    Drops,
    /// Adds 1 to the count that threads share.
    Tell,
    /// Waits until the threads' count is this.
    Await(u64),
    /// Looks for a while whether the threads' count stays the same.
    Stays(u64),
}

/// What a call replies.
#[derive(Clone, Copy, PartialEq, Debug)]
pub enum Reply {
    Done,
    /// The element of this number came out.
    Element(u64),
    /// Elements from this number on came out, and how many.
    Elements(u64, usize),
    /// Nothing was held.
    Nothing,
    Fails(TryDequeueError),
    /// The party has this many rooms.
    Rooms(usize),
    /// There is no room, and the element came back.
    Full,
    /// The number of rooms that were in the pool, and the number that the party has now.
    Refilled(usize, usize),
    /// Whether the pool has taken the rooms, and how many the party has now.
    Gave(bool, usize),
    /// This many drops were counted.
    Drops(u64),
}

/// A call by the party at a place, and what it has to reply.
pub type Line = (usize, Call, Reply);

/// What all that act at a queue share.
#[derive(Drop)]
pub struct Stage {
    pub alloc: Global,
    /// How many elements were dropped.
    pub drops: Drops,
    /// How often threads told each other something.
    pub told: AtomicU64,
}

/// Who makes the calls of some parties, one after the other.
#[derive(Drop)]
pub struct Actor<'q> {
    stage: &'q Stage,
    seats: Vec<Seat<'q>>,
}

/// Looks at a count until it is this, and fails where that never comes.
pub fn await_count(rt: &impl Abort, count: &AtomicU64, wanted: u64) {
    for _ in 0..LOOKS {
        if count.load(Ordering::SeqCst) == wanted {
            return;
        }
        thread::yield_now();
    }
    panic!(rt; "a thread's calls have not returned");
}

/// Looks at a count again and again, which has to stay the same.
fn stays(rt: &impl Abort, count: &AtomicU64, wanted: u64) {
    for _ in 0..PAUSES {
        same(rt, count.load(Ordering::SeqCst), wanted);
        thread::yield_now();
    }
}

/// Enqueues elements from a number on, and how many.
fn put_many(rt: &impl Abort, stage: &Stage, seat: &mut Seat<'_>, (first, count): (u64, u64)) {
    for number in first..sum(first, count) {
        seat.put(rt, element(rt, stage.alloc, number, &stage.drops));
    }
}

/// Drops what one try returned, and returns its number, or why it failed.
pub fn tried(rt: &impl Abort, tried: Result<Handle, TryDequeueError>) -> Reply {
    match tried {
        Ok(node) => Reply::Element(number(rt, &node)),
        Err(why) => Reply::Fails(why),
    }
}

/// Dequeues, and may wait.
fn takes<R: Wait + Abort>(rt: &R, seat: &mut Seat<'_>) -> Reply {
    match seat.take(rt) {
        Some(node) => Reply::Element(number(rt, &node)),
        None => Reply::Nothing,
    }
}

/// Takes a batch, and all of its elements, or only the first.
fn takes_batch(rt: &impl Abort, seat: &mut Seat<'_>, most: usize, all: bool) -> Reply {
    match seat.take_linked(rt, most) {
        Ok(batch) if all => {
            let (first, count) = numbers(rt, batch);
            Reply::Elements(first, count)
        }
        Ok(mut batch) => match batch.next() {
            Some(node) => Reply::Element(number(rt, &node)),
            None => Reply::Nothing,
        },
        Err(why) => Reply::Fails(why),
    }
}

/// Takes the right to dequeue, and tells the rooms, or that another has it.
fn consumes<R: Wait + Abort>(rt: &R, seat: &mut Seat<'_>, claim: Claim) -> Reply {
    let party = mem::replace(seat, Seat::Left);
    *seat = party.consume(rt, claim);
    match seat {
        Seat::Party(_) => Reply::Fails(TryDequeueError::Busy),
        _ => Reply::Rooms(seat.rooms(rt)),
    }
}

impl<'q> Actor<'q> {
    /// Returns who makes the calls of this party, at place 0.
    pub fn new(rt: &impl Abort, stage: &'q Stage, seat: Seat<'q>) -> Actor<'q> {
        let mut seats = Vec::new(stage.alloc);
        append(rt, &mut seats, seat);
        Actor { stage, seats }
    }

    /// Makes these calls, and compares what they reply. A failure prints the line, the first of which is 0.
    pub fn run<R: Wait + Abort>(&mut self, rt: &R, lines: &[Line]) {
        for line in 0..lines.len() {
            let (place, call, wanted) = lines[line];
            let came = self.call(rt, place, call);
            same(rt, (line, came), (line, wanted));
        }
    }

    /// Returns the party at a place, which it leaves.
    pub fn leave(&mut self, rt: &impl Abort, place: usize) -> Seat<'q> {
        match self.seats.get_mut(place) {
            Some(seat) => mem::replace(seat, Seat::Left),
            None => panic!(rt; "no party has this place"),
        }
    }

    /// Makes a call, and returns what it replies.
    fn call<R: Wait + Abort>(&mut self, rt: &R, place: usize, call: Call) -> Reply {
        match call {
            Call::Leave => drop(self.leave(rt, place)),
            Call::Forget => mem::forget(self.leave(rt, place)),
            Call::Drops => return Reply::Drops(self.stage.drops.count()),
            Call::Tell => {
                self.stage.told.fetch_add(1, Ordering::SeqCst);
            }
            Call::Await(count) => await_count(rt, &self.stage.told, count),
            Call::Stays(count) => stays(rt, &self.stage.told, count),
            _ => return self.party_call(rt, place, call),
        }
        Reply::Done
    }

    /// Makes a call of the party at a place.
    fn party_call<R: Wait + Abort>(&mut self, rt: &R, place: usize, call: Call) -> Reply {
        let Some(seat) = self.seats.get_mut(place) else {
            panic!(rt; "no party has this place");
        };
        match call {
            Call::Try => return tried(rt, seat.try_take(rt)),
            Call::Take => return takes(rt, seat),
            Call::Batch(most) => return takes_batch(rt, seat, most, true),
            Call::FirstOf(most) => return takes_batch(rt, seat, most, false),
            Call::Consume(claim) => return consumes(rt, seat, claim),
            Call::Put(number) => {
                seat.put(rt, element(rt, self.stage.alloc, number, &self.stage.drops));
            }
            Call::PutMany(first, count) => put_many(rt, self.stage, seat, (first, count)),
            Call::TryPut(number) => {
                let node = element(rt, self.stage.alloc, number, &self.stage.drops);
                if seat.try_put(rt, node).is_err() {
                    return Reply::Full;
                }
            }
            Call::PutWaiting(number) => {
                seat.put_waiting(rt, element(rt, self.stage.alloc, number, &self.stage.drops));
            }
            Call::Refill => {
                let found = seat.refill(rt);
                return Reply::Refilled(found, seat.rooms(rt));
            }
            Call::RefillAtMost(most) => {
                let found = seat.refill_at_most(rt, most);
                return Reply::Refilled(found, seat.rooms(rt));
            }
            Call::GiveBack(rooms) => {
                let gave = seat.give_back(rt, rooms);
                return Reply::Gave(gave, seat.rooms(rt));
            }
            Call::GiveAllBack => {
                let gave = seat.give_all_back(rt);
                return Reply::Gave(gave, seat.rooms(rt));
            }
            Call::GiveAllBackWaiting => seat.give_all_back_waiting(rt),
            Call::Release => {
                let consumer = mem::replace(seat, Seat::Left);
                *seat = consumer.release(rt);
            }
            Call::Split(rooms) => {
                let other = seat.split(rt, rooms);
                let left = seat.rooms(rt);
                append(rt, &mut self.seats, other);
                return Reply::Rooms(left);
            }
            _ => {}
        }
        Reply::Rooms(seat.rooms(rt))
    }
}
