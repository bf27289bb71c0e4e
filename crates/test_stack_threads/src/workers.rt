//! Parties at their stack, and threads that act through them: what each does, turn by turn, and how they are started
//! and watched.
ghost use Rattle.std.specs.Prelude.{⊤};

use crate::compared::{made, same};
use crate::items::{Handle, put_on, stock, sum};
use crate::seats::Seat;
use cordyceps_stack::stack::Stack;
use std::alloc::Global;
use std::process::Abort;
use std::sync::Wait;
use std::sync::atomic::{AtomicU64, Ordering};
use std::thread;
use std::thread::Threads;
use test_support::counted::{Counted, Drops};

/// How many turns a thread has at most.
const TURNS: u64 = 20_000_000;

/// By which call that may wait an element is pushed.
#[derive(Clone, Copy)]
pub enum Way {
    Push,
    PushWasEmpty,
}

/// What a thread does in its turns. Where it has no element left to push, it takes what is held to push it again.
#[derive(Clone, Copy)]
pub enum Task {
    /// Pushes by this call, so often.
    Push(Way, u64),
    /// Pushes by one try, and by this call where that missed, until a try of each of two threads has missed. No
    /// schedule has to make one miss.
    Miss(Way),
    /// Pushes by one try, until another thread has ended.
    Disturb,
    /// Takes what is held, and pushes on what was not taken often enough, until all four elements were.
    Take,
    /// Only looks whether the others have ended.
    Watch,
}

/// A thread's task, the first number of the elements that it has to push, and how many they are. It has as many rooms.
pub type Part = (Task, u64, u64);

/// What threads at one stack tell each other.
#[derive(Drop)]
pub struct Meeting {
    /// How many there are, beside the one that watches.
    threads: u64,
    /// How often each element is to be taken by those that push on.
    takings: u64,
    here: AtomicU64,
    /// How many had a try that missed.
    pub missed: AtomicU64,
    /// How many elements were taken often enough.
    arrived: AtomicU64,
    ended: AtomicU64,
}

impl Meeting {
    /// Returns a meeting that has not begun.
    pub fn new(threads: u64, takings: u64) -> Meeting {
        Meeting {
            threads,
            takings,
            here: nothing(),
            missed: nothing(),
            arrived: nothing(),
            ended: nothing(),
        }
    }

    /// Ends a thread's part.
    pub fn end(&self) {
        self.ended.fetch_add(1, Ordering::SeqCst);
    }

    /// Looks until all have ended, and fails where that never comes.
    pub fn await_all(&self, rt: &impl Abort) {
        for _ in 0..TURNS {
            if self.ended.load(Ordering::SeqCst) == self.threads {
                return;
            }
            thread::yield_now();
        }
        panic!(rt; "a thread's calls have not returned");
    }
}

/// What calls have told.
#[derive(Clone, Copy)]
pub struct Told {
    /// How many pushes told that nothing was held before.
    pub first: u64,
    /// How many pushes told nothing.
    untold: u64,
    /// How often something was taken.
    takes: u64,
}

/// Returns a count of nothing.
fn nothing() -> AtomicU64 {
    AtomicU64::new(0)
}

impl Told {
    /// Counts what a push told.
    fn push(&mut self, first: bool) {
        if first {
            self.first = sum(self.first, 1);
        }
    }

    /// Counts a take of this.
    fn take(&mut self, taken: &Stack<Counted>) {
        if !taken.is_empty() {
            self.takes = sum(self.takes, 1);
        }
    }

    /// Adds what others have counted.
    fn add(&mut self, other: Told) {
        self.first = sum(self.first, other.first);
        self.untold = sum(self.untold, other.untold);
        self.takes = sum(self.takes, other.takes);
    }
}

/// A party at its stack, and the thread that acts through it.
#[derive(Drop)]
pub struct Worker<'s> {
    pub seat: Seat<'s>,
    task: Task,
    /// What it has to push, or has taken often enough.
    pub left: Stack<Counted>,
    /// How often it has pushed by a call that may wait.
    pushed: u64,
    pub told: Told,
    /// How many rooms the parties had whose threads have ended.
    pub rooms: u64,
}

impl<'s> Worker<'s> {
    /// Returns a party that has this to do with these elements.
    pub fn new(seat: Seat<'s>, task: Task, left: Stack<Counted>) -> Worker<'s> {
        let told = Told {
            first: 0,
            untold: 0,
            takes: 0,
        };
        Worker {
            seat,
            task,
            left,
            pushed: 0,
            told,
            rooms: 0,
        }
    }

    /// Pushes an element by a call that may wait.
    fn push<R: Wait + Abort>(&mut self, rt: &R, way: Way, node: Handle) {
        self.pushed = sum(self.pushed, 1);
        match way {
            Way::Push => {
                self.seat.push(rt, node);
                self.told.untold = sum(self.told.untold, 1);
            }
            Way::PushWasEmpty => self.told.push(self.seat.push_was_empty(rt, node)),
        }
    }

    /// Takes all that is held.
    fn take_held(&mut self) -> Stack<Counted> {
        let held = self.seat.take_all();
        self.told.take(&held);
        held
    }

    /// Takes all that is held, and pushes it again into the rooms that came with it, or keeps what was taken often
    /// enough.
    fn push_on<R: Wait + Abort>(&mut self, rt: &R, meeting: &Meeting) {
        for mut node in self.take_held() {
            let taken = sum(node.get().value, 1);
            node.get_mut().value = taken;
            if taken < meeting.takings {
                self.push(rt, Way::Push, node);
            } else {
                self.left.push(node);
                meeting.arrived.fetch_add(1, Ordering::SeqCst);
            }
        }
    }

    /// Pushes an element by one try. Where that missed, it pushes by a call that may wait, or keeps it.
    fn try_push<R: Wait + Abort>(&mut self, rt: &R, node: Handle, meeting: &Meeting) {
        let back = match self.seat.try_push(rt, node) {
            Ok(first) => return self.told.push(first),
            Err(back) => back,
        };
        let Task::Miss(way) = self.task else {
            self.left.push(back);
            return;
        };
        if self.pushed == 0 {
            meeting.missed.fetch_add(1, Ordering::SeqCst);
        }
        self.push(rt, way, back);
    }

    /// Takes a turn.
    fn turn<R: Wait + Abort>(&mut self, rt: &R, meeting: &Meeting) {
        if let Task::Take = self.task {
            self.push_on(rt, meeting);
            thread::yield_now();
            return;
        }
        let Some(node) = self.left.pop() else {
            let held = self.take_held();
            put_on(&mut self.left, held);
            return;
        };
        match self.task {
            Task::Push(way, _) => self.push(rt, way, node),
            _ => self.try_push(rt, node, meeting),
        }
    }

    /// Tells whether its task is done.
    fn is_done(&self, meeting: &Meeting) -> bool {
        match self.task {
            Task::Push(_, times) => self.pushed == times,
            Task::Miss(_) => meeting.missed.load(Ordering::SeqCst) == 2,
            Task::Disturb => meeting.ended.load(Ordering::SeqCst) > 0,
            Task::Take => meeting.arrived.load(Ordering::SeqCst) == 4,
            Task::Watch => true,
        }
    }

    /// Takes turn after turn, once all are here, until its task is done.
    fn work<R: Wait + Abort>(&mut self, rt: &R, meeting: &Meeting) {
        meeting.here.fetch_add(1, Ordering::SeqCst);
        for _ in 0..TURNS {
            if meeting.here.load(Ordering::SeqCst) < meeting.threads {
                thread::yield_now();
            } else if self.is_done(meeting) {
                break;
            } else {
                self.turn(rt, meeting);
            }
        }
        if let Task::Push(_, _) = self.task {
            same(rt, self.is_done(meeting), true);
        }
        meeting.end();
    }

    /// Does what it has to do, and returns what it has then.
    fn run<R: Wait + Abort>(mut self, rt: &R, meeting: &Meeting) -> Worker<'s> {
        match self.task {
            Task::Watch => meeting.await_all(rt),
            _ => self.work(rt, meeting),
        }
        self
    }

    /// Takes in what a thread has left and counted that has ended: its spare party absorbs the other, and takes what is
    /// held.
    fn add(&mut self, ended: Worker<'s>) {
        let Worker {
            seat,
            left,
            told,
            ..
        } = ended;
        let (held, rooms) = seat.end();
        self.told.add(told);
        self.told.take(&held);
        self.rooms = sum(self.rooms, rooms);
        put_on(&mut self.left, held);
        put_on(&mut self.left, left);
    }

    /// Starts a thread for each part, with rooms of this one's, and one that watches them, and takes in what they have
    /// and have counted when all have ended.
    pub fn start<R: Threads + Wait + Abort + Sync>(
        &mut self,
        rt: &R,
        alloc: Global,
        parts: &[Part],
        meeting: &Meeting,
        drops: &Drops,
    ) {
        let mut workers = Vec::new(alloc);
        for (task, first, count) in parts {
            let seat = self.seat.split(rt, *count as usize);
            let elements = stock(rt, alloc, (*first, *count), drops);
            made(rt, workers.push(Worker::new(seat, *task, elements)));
        }
        let watch = Worker::new(self.seat.split(rt, 0), Task::Watch, Stack::new());
        made(rt, workers.push(watch));
        for worker in run_all(rt, workers, meeting) {
            self.add(worker);
        }
    }

    /// Asserts that each take of something follows one push that found nothing held.
    pub fn is_counted(&self, rt: &impl Abort) {
        let Told {
            first,
            untold,
            takes,
        } = self.told;
        same(
            rt,
            (first <= takes, takes <= first.wrapping_add(untold)),
            (true, true),
        );
    }
}

/// Lets each act on a thread of its own, and returns all. The clauses say nothing of what they do, which keeps the proof
/// short.
fn run_all<'s, R: Threads + Wait + Abort + Sync>(
    rt: &R,
    workers: Vec<Worker<'s>>,
    meeting: &Meeting,
) -> Vec<Worker<'s>> {
    let ended = thread::map_vec(
        rt,
        workers,
        &|worker: Worker<'_>| -> Worker<'_>
            requires { ⊤ }
            ensures { ⊤ }
        { worker.run(rt, meeting) },
    );
    made(rt, ended)
}
