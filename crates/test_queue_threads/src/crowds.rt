//! Crowds at a queue: many that enqueue elements, and one or more that dequeue them.
use crate::compared::{made, same};
use crate::items::{append, elements, nothing};
use crate::seats::{Claim, Seat, queue_of, shared};
use crate::tasks::{Task, run_all};
use crate::workers::{Crowd, Meeting, Producer, Taker, Way};
use std::alloc::Global;
use std::process::Abort;
use std::sync::Wait;
use std::sync::atomic::Ordering;
use std::thread::Threads;
use test_support::counted::Drops;

/// How often each crowd runs.
const ROUNDS: u64 = 10;

impl Crowd {
    /// Returns what its threads share.
    fn meeting(self, rt: &impl Abort, alloc: Global) -> Meeting {
        let mut times = Vec::new(alloc);
        for _ in 0..self.all() {
            append(rt, &mut times, nothing());
        }
        Meeting {
            crowd: self,
            times,
            out: nothing(),
            ended: nothing(),
        }
    }

    /// Returns one that enqueues elements from this number on.
    fn producer<'q>(
        self,
        rt: &impl Abort,
        alloc: Global,
        seat: &mut Seat<'q>,
        first: u64,
        drops: &Drops,
    ) -> Producer<'q> {
        let elements = elements(rt, alloc, first, self.each, drops);
        Producer {
            seat: seat.split(rt, self.each as usize),
            elements,
            yields: self.yields,
        }
    }

    /// Returns a party that dequeues, or the consumer that it has become.
    fn taking<'q, R: Wait + Abort>(self, rt: &R, seat: &mut Seat<'q>) -> Seat<'q> {
        let party = seat.split(rt, 0);
        match self.claim {
            Some(claim) => party.consume(rt, claim),
            None => party,
        }
    }

    /// Runs all threads. The first producer enqueues the numbers from 0 on, and each other those that follow.
    fn run<'q, R: Threads + Wait + Abort + Sync>(
        self,
        rt: &R,
        alloc: Global,
        meeting: &'q Meeting,
        seats: (Seat<'q>, Seat<'q>),
        drops: &Drops,
    ) {
        let (mut seat, mut other) = seats;
        let mut tasks = Vec::new(alloc);
        for index in 0..self.producers {
            let first = self.first_of(index);
            let producer = self.producer(rt, alloc, &mut seat, first, drops);
            append(rt, &mut tasks, Task::Put(producer));
        }
        for _ in 0..self.takers {
            let taker = Taker {
                meeting,
                seat: self.taking(rt, &mut seat),
                other: other.split(rt, 1),
                numbers: Vec::new(alloc),
            };
            append(rt, &mut tasks, Task::Take(taker));
        }
        append(rt, &mut tasks, Task::Watch(&meeting.ended, self.takers));
        run_all(rt, tasks);
    }

    /// Runs all on new queues, and asserts that each number came out once.
    fn round<R: Threads + Wait + Abort + Sync>(self, rt: &R, alloc: Global) {
        let drops = made(rt, Drops::new(alloc));
        let meeting = self.meeting(rt, alloc);
        let (queue, party) = queue_of(rt, alloc, None, self.all() as usize);
        let (second, other) = queue_of(rt, alloc, None, self.takers as usize);
        let (queue, second) = (shared(rt, alloc, queue), shared(rt, alloc, second));
        let seats = (Seat::new(&queue, party), Seat::new(&second, other));
        self.run(rt, alloc, &meeting, seats, &drops);
        for times in &meeting.times {
            same(rt, times.load(Ordering::SeqCst), 1);
        }
        same(rt, drops.count(), self.all());
    }

    /// Runs all again and again.
    fn rounds<R: Threads + Wait + Abort + Sync>(self, rt: &R, alloc: Global) {
        for _ in 0..ROUNDS {
            self.round(rt, alloc);
        }
    }
}

/// How many producers there are and how many elements each enqueues, whether they yield, how many take, by which call
/// these have taken the right to dequeue, and how they dequeue.
type Row = (u64, u64, bool, u64, Option<Claim>, Way);

/// Crowds of one that takes, by each call.
const ONE_TAKES: [Row; 7] = [
    (8, 1000, false, 1, None, Way::Try),
    (1, 250, false, 1, Some(Claim::Try), Way::Cross),
    (4, 1000, false, 1, Some(Claim::Try), Way::Batches),
    (4, 1000, false, 1, Some(Claim::TryOwned), Way::Batches),
    (4, 1000, true, 1, None, Way::Wait),
    (4, 1000, true, 1, Some(Claim::Try), Way::Wait),
    (4, 1000, true, 1, Some(Claim::TryOwned), Way::Wait),
];

/// Crowds of several that take.
const SEVERAL_TAKE: [Row; 2] = [
    (2, 2, true, 2, None, Way::Wait),
    (4, 250, false, 3, None, Way::Try),
];

/// Lets crowds meet, each again and again.
fn meet<R: Threads + Wait + Abort + Sync>(rt: &R, alloc: Global, rows: &[Row]) {
    for (producers, each, yields, takers, claim, way) in rows {
        let crowd = Crowd {
            producers: *producers,
            each: *each,
            yields: *yields,
            takers: *takers,
            claim: *claim,
            way: *way,
        };
        crowd.rounds(rt, alloc);
    }
}

#[test]
fn one_takes_by_each_call_beside_producers(rt: HostRuntime) {
    meet(&rt, rt.alloc(), &ONE_TAKES);
}

#[test]
fn several_that_take_get_each_element_once(rt: HostRuntime) {
    meet(&rt, rt.alloc(), &SEVERAL_TAKE);
}
