//! Two threads that share a stack, and what mode `share` writes.

use crate::compared::same;
use crate::streams::{Paper, blank, has_outcome};
use cordyceps::TransferStack;
use replay_driver::fault::Fault;
use replay_driver::sink::ToWrite;
use replay_sharing::share::{Gate, OpenGate, run_share, share};
use std::alloc::Global;
use std::process::Abort;
use std::sync::Wait;
use std::sync::atomic::{AtomicBool, AtomicU64, Ordering};
use std::thread;
use std::thread::Threads;
use test_support::flags::is_set_in_time;

/// How often a worker looks for the other one.
const TURNS: u64 = 10_000_000;

/// How often the workers meet.
const ROUNDS: u64 = 10;

/// What one worker did at the gate.
#[derive(Drop)]
struct Visit {
    /// It has come to its first push.
    came: AtomicBool,
    /// How often it passed before its first push, before its second, and before any other.
    passed: [AtomicU64; 3],
}

impl Visit {
    fn none() -> Visit {
        Visit {
            came: AtomicBool::new(false),
            passed: [AtomicU64::new(0), AtomicU64::new(0), AtomicU64::new(0)],
        }
    }

    /// Returns how often it passed, by the number of the push.
    fn passed(&self) -> [u64; 3] {
        let [first, second, other] = &self.passed;
        [
            first.load(Ordering::SeqCst),
            second.load(Ordering::SeqCst),
            other.load(Ordering::SeqCst),
        ]
    }
}

/// A gate that holds each worker's first push until the other worker has come.
#[derive(Drop)]
struct Meeting {
    workers: (Visit, Visit),
    /// A worker that is none of the two passed.
    strange: AtomicBool,
    /// A worker's turns ran out.
    alone: AtomicBool,
}

impl Meeting {
    fn new() -> Meeting {
        Meeting {
            workers: (Visit::none(), Visit::none()),
            strange: AtomicBool::new(false),
            alone: AtomicBool::new(false),
        }
    }

    /// Looks until the other worker has come, or the turns have run out.
    fn await_other(&self, other: &Visit) {
        for _ in 0..TURNS {
            if other.came.load(Ordering::SeqCst) {
                return;
            }
            thread::yield_now();
        }
        self.alone.store(true, Ordering::SeqCst);
    }
}

impl Gate for Meeting {
    fn pass(&self, worker: u64, push: u64) {
        let (own, other) = match worker {
            0 => (&self.workers.0, &self.workers.1),
            1 => (&self.workers.1, &self.workers.0),
            _ => return self.strange.store(true, Ordering::SeqCst),
        };
        own.passed[push.min(2) as usize].fetch_add(1, Ordering::SeqCst);
        if push == 0 {
            own.came.store(true, Ordering::SeqCst);
            self.await_other(other);
        }
    }
}

/// Shares a new stack through the gate, and asserts the result, and that the party has its rooms again.
fn shares<R: Threads + Wait + Abort + Sync, G: Gate>(rt: &R, alloc: Global, gate: &G) {
    let Ok((stack, mut party)) = TransferStack::new(alloc, 4) else {
        panic!(rt; "no memory for a stack");
    };
    let Ok(values) = share(rt, alloc, gate, &stack, &mut party) else {
        panic!(rt; "no memory");
    };
    same(rt, values.as_slice(), [10, 11, 20, 21].as_slice());
    same(rt, (party.rooms(), stack.is_empty(&mut party)), (4, true));
}

/// What is done in a thread that is watched.
#[derive(Drop)]
enum Work<'a> {
    /// A stack is shared through a gate at which the workers meet.
    Meets(&'a Meeting),
    /// A stack is shared through an open gate.
    Shares,
    /// Mode `share` is run on a paper, and ends so, with this written.
    Writes(Paper, Result<(), Fault>, &'a [u8]),
}

/// Does the work, and sets the flag.
fn work_and_tell<R: Threads + Wait + Abort + Sync>(
    rt: &R,
    alloc: Global,
    work: Work,
    done: &AtomicBool,
) {
    match work {
        Work::Meets(gate) => shares(rt, alloc, gate),
        Work::Shares => shares(rt, alloc, &OpenGate),
        Work::Writes(paper, wanted, text) => {
            let mut output = ToWrite::new(paper);
            let end = run_share(rt, alloc, &mut output);
            has_outcome(rt, b"", (end, output.into_inner().written), wanted, text);
        }
    }
    done.store(true, Ordering::SeqCst);
}

/// Does the work in a thread of its own, and joins it once its flag is set. It fails where that never comes.
fn watched<R: Threads + Wait + Abort + Sync>(rt: &R, alloc: Global, work: Work) {
    let flag = AtomicBool::new(false);
    let done = &flag;
    let work = move || work_and_tell(rt, alloc, work, done);
    let look = || same(rt, is_set_in_time(done), true);
    thread::join(rt, work, look);
}

#[test]
fn share_workers_meet(rt: HostRuntime) {
    for _ in 0..ROUNDS {
        let meeting = Meeting::new();
        watched(&rt, rt.alloc(), Work::Meets(&meeting));
        // none waited for the other in vain, none but the two came, and each passed once before each of its pushes
        let alone = meeting.alone.load(Ordering::SeqCst);
        let strange = meeting.strange.load(Ordering::SeqCst);
        let passed = [meeting.workers.0.passed(), meeting.workers.1.passed()];
        same(&rt, (alone, strange), (false, false));
        same(&rt, passed, [[1, 1, 0], [1, 1, 0]]);
    }
}

#[test]
fn shares_often(rt: HostRuntime) {
    for _ in 0..50u8 {
        watched(&rt, rt.alloc(), Work::Shares);
    }
}

#[test]
fn a_shared_run_writes_its_line(rt: HostRuntime) {
    let line = b"10 11 20 21\n";
    for room in 0..line.len() + 1 {
        let end = if room < line.len() {
            Err(Fault::Write)
        } else {
            Ok(())
        };
        for fails in [true, false] {
            let paper = blank(rt.alloc(), room, fails);
            watched(&rt, rt.alloc(), Work::Writes(paper, end, &line[..room]));
        }
    }
}
