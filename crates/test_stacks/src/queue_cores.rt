//! Drops of a queue's core.
use crate::compared::same;
use crate::elements::counted;
use cordyceps_queue::mpsc_queue::{QueueCore, QueueStep, StepError};
use std::alloc::Global;
use std::process::Abort;
use test_support::counted::{Counted, Drops};

/// Returns a core with two parties, the first of which has this many rooms.
pub fn two<E: Drop>(alloc: Global, rooms: usize) -> Result<QueueCore<E>, StepError> {
    let mut core = QueueCore::new(alloc);
    for _ in 0..2usize {
        core.add_party()?;
    }
    for _ in 0..rooms {
        core.add_room(0)?;
    }
    Ok(core)
}

/// A call of the first party, with a new element where it puts one in.
#[derive(Clone, Copy)]
enum Move {
    Enqueue,
    /// The step that fills a room.
    Clear,
    Dequeue,
    Batch(usize),
}

/// Makes a call, and drops what it returns.
fn makes(rt: &impl Abort, core: &mut QueueCore<Counted>, call: Move, drops: &Drops) {
    match call {
        Move::Enqueue => drop(core.enqueue(0, counted(rt, 1, drops))),
        Move::Clear => drop(core.step(0, QueueStep::Clear(Some(counted(rt, 1, drops))))),
        Move::Dequeue => drop(core.try_dequeue(0)),
        Move::Batch(max) => drop(core.take_linked(0, max)),
    }
}

/// Makes these calls on a core with three rooms, and asserts how many elements have been dropped after each, and in all
/// when the core is dropped.
fn drops_in_order(rt: &impl Abort, alloc: Global, calls: &[(Move, u64)], all: u64) {
    let (Ok(drops), Ok(mut core)) = (Drops::new(alloc), two(alloc, 3)) else {
        panic!(rt; "memory was refused");
    };
    for (call, wanted) in calls {
        makes(rt, &mut core, *call, &drops);
        same(rt, drops.count(), *wanted);
    }
    drop(core);
    same(rt, drops.count(), all);
}

#[test]
fn each_element_is_dropped_once(rt: HostRuntime) {
    let calls = [
        (Move::Enqueue, 0),
        (Move::Enqueue, 0),
        (Move::Dequeue, 1),
        (Move::Clear, 1),
        // the party has begun to enqueue, and gets the element back
        (Move::Enqueue, 2),
    ];
    drops_in_order(&rt, rt.alloc(), &calls, 4);
    let batch = [
        (Move::Enqueue, 0),
        (Move::Enqueue, 0),
        (Move::Enqueue, 0),
        (Move::Batch(2), 2),
    ];
    drops_in_order(&rt, rt.alloc(), &batch, 3);
}
