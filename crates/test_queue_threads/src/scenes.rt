//! What the parties of a queue do, alone and on threads.
use crate::calls::{Actor, Line, Stage};
use crate::compared::{made, same};
use crate::items::{append, element, nothing, sum};
use crate::seats::{Seat, queue_of, shared};
use crate::tasks::{Task, run_all};
use std::alloc::Global;
use std::process::Abort;
use std::sync::Wait;
use std::thread::Threads;
use test_support::counted::Drops;

/// The number of the stub.
const STUB: u64 = 7;

/// Calls of the party at a place, on a thread of its own, where that party has the place 0.
pub type Part<'s> = (usize, &'s [Line]);

/// A queue with a stub, and what its parties do, of which the one that has all rooms has the place 0.
#[derive(Drop)]
pub struct Scene<'s> {
    pub rooms: usize,
    /// How many elements are made.
    pub elements: u64,
    /// What one thread does first, in tables one after the other.
    pub before: &'s [&'s [Line]],
    pub parts: &'s [Part<'s>],
    /// What one thread does at last, with the parties that took no part.
    pub after: &'s [Line],
}

impl Scene<'_> {
    /// Plays it this often.
    pub fn play<R: Threads + Wait + Abort + Sync>(&self, rt: &R, alloc: Global, rounds: u64) {
        for _ in 0..rounds {
            self.play_once(rt, alloc);
        }
    }

    /// Plays it on a new queue, which is dropped at last, and compares how many elements were dropped.
    fn play_once<R: Threads + Wait + Abort + Sync>(&self, rt: &R, alloc: Global) {
        let stage = Stage {
            alloc,
            drops: made(rt, Drops::new(alloc)),
            told: nothing(),
        };
        let stub = element(rt, alloc, STUB, &stage.drops);
        let (queue, party) = queue_of(rt, alloc, Some(stub), self.rooms);
        let queue = shared(rt, alloc, queue);
        self.act(rt, &stage, Seat::new(&queue, party));
        drop(queue);
        same(rt, stage.drops.count(), sum(self.elements, 1));
    }

    /// Makes the calls, those of parts on threads of their own.
    fn act<'q, R: Threads + Wait + Abort + Sync>(&self, rt: &R, stage: &'q Stage, seat: Seat<'q>) {
        let mut actor = Actor::new(rt, stage, seat);
        for lines in self.before {
            actor.run(rt, lines);
        }
        let mut tasks = Vec::new(stage.alloc);
        for (place, lines) in self.parts {
            let part = Actor::new(rt, stage, actor.leave(rt, *place));
            append(rt, &mut tasks, Task::Calls(part, lines));
        }
        run_all(rt, tasks);
        actor.run(rt, self.after);
    }
}

/// Makes these calls on one thread, of a new queue that is dropped at last, and compares how many elements were
/// dropped.
pub fn alone<R: Threads + Wait + Abort + Sync>(
    rt: &R,
    alloc: Global,
    rooms: usize,
    elements: u64,
    before: &[&[Line]],
) {
    let scene = Scene {
        rooms,
        elements,
        before,
        parts: &[],
        after: &[],
    };
    scene.play(rt, alloc, 1);
}
