//! Threads that push to a transfer stack, and take all that it holds.
use crate::compared::same;
use crate::items::{dropped, no_drops, pops, taken};
use crate::seats::{Call, Seat, new_stack};
use crate::workers::{Meeting, Part, Task, Way, Worker};
use cordyceps_stack::stack::Stack;
use std::alloc::Global;
use std::process::Abort;
use std::sync::Wait;
use std::sync::atomic::Ordering;
use std::thread::Threads;

/// How often the threads race.
const RACES: u64 = 50;

/// How often the threads of each other test run.
const ROUNDS: u64 = 10;

/// How often a thread pushes, while another disturbs it.
const PUSHES: u64 = 10_000;

/// The numbers of the elements that threads push.
const FOUR: [u64; 4] = [10, 11, 20, 21];

/// What a thread does, and how many pushes have told by then that nothing was held before.
const EACH_WAY: [(Part, u64); 3] = [
    ((Task::Push(Way::PushWasEmpty, 1), 1, 1), 1),
    ((Task::Push(Way::Push, 2), 2, 2), 1),
    ((Task::Push(Way::PushWasEmpty, 2), 4, 2), 2),
];

/// Pushes elements by each call that may wait, from threads of their own, and takes them when each thread has ended.
fn push_each_way<R: Threads + Wait + Abort + Sync>(rt: &R, alloc: Global) {
    let drops = no_drops(rt, alloc);
    let (stack, party) = new_stack(rt, alloc, 5);
    let mut all = Worker::new(Seat::new(&stack, party), Task::Watch, Stack::new());
    for (part, first) in EACH_WAY {
        all.start(rt, alloc, &[part], &Meeting::new(1, 0), &drops);
        same(rt, all.told.first, first);
    }
    same(rt, all.rooms, 5);
    pops(rt, all.left, &[4, 5, 2, 3, 1]);
}

#[test]
fn pushes_return(rt: HostRuntime) {
    for _ in 0..ROUNDS {
        push_each_way(&rt, rt.alloc());
    }
}

/// What threads do at a stack of four rooms: how often they meet, the part of each, how often each element is to be
/// taken by those that push on, and how many have a try that misses.
#[derive(Drop)]
struct Plan<'a> {
    rounds: u64,
    parts: &'a [Part],
    takings: u64,
    missed: u64,
}

impl Plan<'_> {
    /// Compares what the threads have at last, with what is held, with what they had at first.
    fn round<R: Threads + Wait + Abort + Sync>(&self, rt: &R, alloc: Global) {
        let drops = no_drops(rt, alloc);
        let (stack, party) = new_stack(rt, alloc, 4);
        let meeting = Meeting::new(self.parts.len() as u64, self.takings);
        let mut all = Worker::new(Seat::new(&stack, party), Task::Watch, Stack::new());
        all.start(rt, alloc, self.parts, &meeting, &drops);
        all.seat
            .calls(rt, &mut Stack::new(), &[Call::IsEmpty(true)]);
        all.is_counted(rt);
        same(rt, all.rooms, 4);
        same(rt, meeting.missed.load(Ordering::SeqCst), self.missed);
        dropped(rt, &drops, 0);
        taken(rt, alloc, all.left, self.takings, &FOUR);
        dropped(rt, &drops, 4);
    }

    /// Lets the threads meet.
    fn run<R: Threads + Wait + Abort + Sync>(&self, rt: &R, alloc: Global) {
        for _ in 0..self.rounds {
            self.round(rt, alloc);
        }
    }
}

// Two threads push.
#[test]
fn multithreaded_push(rt: HostRuntime) {
    let plan = Plan {
        rounds: ROUNDS,
        parts: &[
            (Task::Push(Way::Push, 2), 10, 2),
            (Task::Push(Way::Push, 2), 20, 2),
        ],
        takings: 0,
        missed: 0,
    };
    plan.run(&rt, rt.alloc());
}

// Two threads push, and two take, and push on what was not taken often enough.
#[test]
fn multithreaded_pop(rt: HostRuntime) {
    for takings in [1, 3] {
        let plan = Plan {
            rounds: RACES,
            parts: &[
                (Task::Push(Way::Push, 2), 10, 2),
                (Task::Push(Way::Push, 2), 20, 2),
                (Task::Take, 0, 0),
                (Task::Take, 0, 0),
            ],
            takings,
            missed: 0,
        };
        plan.run(&rt, rt.alloc());
    }
}

// Each of two threads pushes by one try, and by the call that waits where that missed.
#[test]
fn pushes_after_a_miss(rt: HostRuntime) {
    for way in [Way::Push, Way::PushWasEmpty] {
        let plan = Plan {
            rounds: ROUNDS,
            parts: &[(Task::Miss(way), 10, 2), (Task::Miss(way), 20, 2)],
            takings: 0,
            missed: 2,
        };
        plan.run(&rt, rt.alloc());
    }
}

// One of two threads pushes by the call that waits, while the other pushes by one try.
#[test]
fn pushes_beside_a_thread_that_disturbs(rt: HostRuntime) {
    for way in [Way::Push, Way::PushWasEmpty] {
        let plan = Plan {
            rounds: 1,
            parts: &[(Task::Push(way, PUSHES), 10, 2), (Task::Disturb, 20, 2)],
            takings: 0,
            missed: 0,
        };
        plan.run(&rt, rt.alloc());
    }
}
