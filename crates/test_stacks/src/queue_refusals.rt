//! What a queue's core returns after memory was refused. These tests say more where an allocation is made to fail, as
//! `tools/refusals` does.
use crate::compared::{at_most, same};
use crate::elements::counted;
use crate::queue_cores::two;
use crate::scripts::script_of;
use cordyceps_queue::mpsc_queue::{
    QueueAnswer, QueueCore, QueueStep, Replay, StepError, TryDequeueError, replay,
};
use std::alloc::{AllocError, Global};
use std::collections::VecDeque;
use std::process::Abort;
use std::test::*;
use test_support::counted::{Counted, Drops};

/// Adds a party, by a second call where the first was refused memory.
fn add_party<E: Drop>(core: &mut QueueCore<E>) -> Result<usize, StepError> {
    match core.add_party() {
        Err(StepError::Memory) => core.add_party(),
        other => other,
    }
}

/// Adds a room, by a second call where the first was refused memory.
fn add_room<E: Drop>(core: &mut QueueCore<E>, party: usize) -> Result<(), StepError> {
    match core.add_room(party) {
        Err(StepError::Memory) => core.add_room(party),
        other => other,
    }
}

#[test]
fn parties_and_rooms_come_at_the_second_call(rt: HostRuntime) {
    let mut core = QueueCore::new(rt.alloc());
    for party in 0..9usize {
        same(&rt, add_party(&mut core), Ok(party));
    }
    for party in 0..9usize {
        same(&rt, add_room(&mut core, party), Ok(()));
    }
    same(&rt, core.add_room(9), Err(StepError::NotThere));
    for party in 0..9usize {
        same(&rt, core.enqueue(party, party as u64), Ok(()));
        same(&rt, core.enqueue(party, 9), Err((StepError::NotThere, 9)));
    }
    for element in 0..9u64 {
        same(&rt, core.try_dequeue(8), Ok(Ok(element)));
    }
    same(&rt, core.try_dequeue(8), Ok(Err(TryDequeueError::Empty)));
}

/// Takes a batch, by a second call where the first was refused memory, asserts its values, and drops it.
fn batches(rt: &impl Abort, core: &mut QueueCore<Counted>, max: usize, values: &[u64]) {
    let tried = match core.take_linked(0, max) {
        Err(StepError::Memory) => core.take_linked(0, max),
        other => other,
    };
    let Ok(Ok(batch)) = tried else {
        panic!(rt; "no batch was returned");
    };
    same(rt, batch.len(), values.len());
    for (element, value) in batch.iter().zip(values) {
        same(rt, element.value, *value);
    }
}

/// Enqueues a new value by a party that has a room.
fn enqueues(rt: &impl Abort, core: &mut QueueCore<Counted>, value: u64, drops: &Drops) {
    same(rt, core.enqueue(0, counted(rt, value, drops)).is_ok(), true);
}

#[test]
fn a_batch_comes_at_the_second_call(rt: HostRuntime) -> Result<(), Fail> {
    let drops = Drops::new(rt.alloc())?;
    let mut core = QueueCore::new(rt.alloc());
    same(&rt, add_party(&mut core), Ok(0));
    for value in 0..3u64 {
        same(&rt, add_room(&mut core, 0), Ok(()));
        enqueues(&rt, &mut core, value, &drops);
    }
    batches(&rt, &mut core, 2, &[0, 1]);
    same(&rt, drops.count(), 2);
    enqueues(&rt, &mut core, 3, &drops);
    batches(&rt, &mut core, 9, &[2, 3]);
    same(&rt, drops.count(), 4);
    let last = core.try_dequeue(0);
    same(&rt, matches!(last, Ok(Err(TryDequeueError::Empty))), true);
    Ok(())
}

/// What a step returns.
type Reply = Result<QueueAnswer<u64>, (StepError, Option<u64>)>;

/// Returns the steps by which an element is enqueued and dequeued, with steps that are not there.
fn script(alloc: Global) -> Result<VecDeque<(usize, QueueStep<u64>)>, AllocError> {
    let steps = [
        (0, QueueStep::Clear(Some(1))),
        (0, QueueStep::Swap),
        (1, QueueStep::Take),
        (1, QueueStep::Clear(Some(2))),
        (1, QueueStep::ReadNext),
        (0, QueueStep::Link),
        (1, QueueStep::ReadHead),
        (7, QueueStep::Give),
        (1, QueueStep::ReadNext),
        (1, QueueStep::ReadNext),
        (1, QueueStep::ReadHead),
        (1, QueueStep::Clear(None)),
        (1, QueueStep::Swap),
        (1, QueueStep::Link),
        (1, QueueStep::ReadNext),
        (1, QueueStep::Give),
    ];
    script_of(alloc, steps)
}

/// What the script's steps return.
const REPLIES: [Reply; 16] = [
    Ok(QueueAnswer::Done),
    Ok(QueueAnswer::Done),
    Ok(QueueAnswer::Taken),
    Err((StepError::NotThere, Some(2))),
    Ok(QueueAnswer::Done),
    Ok(QueueAnswer::Done),
    Ok(QueueAnswer::Inconsistent),
    Err((StepError::NotThere, None)),
    Ok(QueueAnswer::Done),
    Ok(QueueAnswer::Done),
    Ok(QueueAnswer::Done),
    Ok(QueueAnswer::Done),
    Ok(QueueAnswer::Done),
    Ok(QueueAnswer::Done),
    Ok(QueueAnswer::Out(1)),
    Ok(QueueAnswer::Done),
];

/// Asserts what a replay returned: these replies, and `left` steps that it did not take since memory was refused.
fn gives(rt: &impl Abort, replayed: &Replay<u64>, replies: &[Reply], left: usize) {
    same(rt, replayed.replies.as_slice(), replies);
    same(rt, replayed.rest.len(), left);
    same(rt, replayed.stopped, left > 0);
    same(rt, replayed.back, None);
}

#[test]
fn a_replay_goes_on_from_its_rest(rt: HostRuntime) -> Result<(), Fail> {
    let steps = script(rt.alloc())?;
    let first = replay(rt.alloc(), two(rt.alloc(), 2)?, steps);
    let taken = first.replies.len();
    at_most(&rt, taken, REPLIES.len());
    gives(&rt, &first, &REPLIES[..taken], REPLIES.len() - taken);
    let second = replay(rt.alloc(), first.core, first.rest);
    gives(&rt, &second, &REPLIES[taken..], 0);
    Ok(())
}

/// Returns steps with three elements: one is enqueued and dequeued, one left in the core, and one returned.
fn counted_script(
    rt: &impl Abort,
    alloc: Global,
    drops: &Drops,
) -> Result<VecDeque<(usize, QueueStep<Counted>)>, AllocError> {
    let steps = [
        (0, QueueStep::Clear(Some(counted(rt, 1, drops)))),
        (0, QueueStep::Swap),
        (0, QueueStep::Link),
        (0, QueueStep::Clear(Some(counted(rt, 2, drops)))),
        (0, QueueStep::Swap),
        (0, QueueStep::Clear(Some(counted(rt, 3, drops)))),
        (0, QueueStep::Link),
        (1, QueueStep::Take),
        (1, QueueStep::ReadNext),
        (1, QueueStep::ReadNext),
    ];
    script_of(alloc, steps)
}

#[test]
fn a_replay_drops_each_element_once(rt: HostRuntime) -> Result<(), Fail> {
    let drops = Drops::new(rt.alloc())?;
    let steps = counted_script(&rt, rt.alloc(), &drops)?;
    let first = replay(rt.alloc(), two(rt.alloc(), 2)?, steps);
    let second = replay(rt.alloc(), first.core, first.rest);
    same(&rt, second.rest.len(), 0);
    same(&rt, drops.count(), 0);
    drop(first.replies);
    drop(second.replies);
    same(&rt, drops.count(), 2);
    drop(second.core);
    same(&rt, drops.count(), 3);
    Ok(())
}
