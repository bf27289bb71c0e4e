//! What idle threads sleep on, and the pause of a thread that found a queue empty.

use cordyceps::mpsc_queue::TryDequeueError;
use crossbeam_utils::sync::{Parker, Unparker};
use std::alloc::{AllocError, Global};
use std::sync::Wait;
use std::thread;

/// Sleeps until another thread wakes this one, if the queue was empty, and otherwise yields to other threads.
///
/// A wake-up before the sleep ends the sleep at once. So no wake-up is lost if the other thread enqueues before it
/// wakes this one. This is tested, but no contract states it.
pub(crate) fn pause<R: Wait>(rt: &R, parker: &Parker, why: TryDequeueError) {
    match why {
        TryDequeueError::Empty => parker.park(rt),
        _ => thread::yield_now(),
    }
}

/// Creates what a thread sleeps on, and what wakes it.
pub(crate) fn make_parker(alloc: Global) -> Result<(Parker, Unparker), AllocError> {
    let parker = Parker::new(alloc)?;
    let unparker = parker.unparker().clone()?;
    Ok((parker, unparker))
}

/// Creates what two threads sleep on, and what wakes each.
pub(crate) fn make_two_parkers(
    alloc: Global,
) -> Result<((Parker, Parker), (Unparker, Unparker)), AllocError> {
    let (first, wakes_first) = make_parker(alloc)?;
    let (second, wakes_second) = make_parker(alloc)?;
    Ok(((first, second), (wakes_first, wakes_second)))
}
