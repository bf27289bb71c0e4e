//! Wheels of timers that are started, cancelled and due.
use crate::compared::same;
use crate::made::{counted, no_drops, node};
use cordyceps_uses::timer_wheel::{Timer, TimerNode, TimerWheel};
use std::alloc::{AllocError, Global};
use std::process::Abort;
use test_support::counted::{Counted, Drops};

/// Returns the node of a timer with a deadline and a number.
fn timer(
    rt: &impl Abort,
    alloc: Global,
    deadline: u64,
    number: u64,
    drops: &Drops,
) -> TimerNode<Counted> {
    let payload = counted(rt, number, drops);
    node(rt, alloc, deadline, Timer { payload })
}

/// Ends a tick, and compares the numbers of the timers that were due with those that are wanted.
fn ticks(rt: &impl Abort, wheel: &mut TimerWheel<Counted>, wanted: &[u64]) {
    assert!(rt; wheel.time() < u64::MAX);
    let mut wanted = wanted.iter();
    for node in wheel.tick() {
        same(rt, Some(&node.into_value().payload.value), wanted.next());
    }
    same(rt, wanted.next(), None);
}

/// What is done with a wheel.
#[derive(Clone, Copy)]
enum Step {
    /// A timer with a deadline and a number is started, and this says whether it was taken.
    Start(u64, u64, bool),
    /// A tick ends, and the timers with these numbers were due.
    Tick(&'static [u64]),
    /// The time, and how many timers were dropped.
    Now(u64, u64),
}

/// The steps of the next test, on a wheel of four slots.
const STEPS: [Step; 16] = [
    Step::Start(1, 1, true),
    Step::Start(3, 2, true),
    Step::Start(1, 3, true),
    Step::Start(4, 4, false),
    Step::Now(0, 1),
    Step::Tick(&[]),
    Step::Tick(&[1, 3]),
    Step::Now(2, 3),
    Step::Start(1, 5, false),
    Step::Start(5, 6, true),
    Step::Start(6, 7, false),
    Step::Start(3, 8, true),
    Step::Tick(&[]),
    Step::Tick(&[2, 8]),
    Step::Tick(&[]),
    Step::Tick(&[6]),
];

#[test]
fn timers_are_due_at_their_deadlines(rt: HostRuntime) -> Result<(), AllocError> {
    let drops = no_drops(&rt, rt.alloc());
    let mut wheel = TimerWheel::new(rt.alloc(), 4)?;
    for step in STEPS {
        match step {
            Step::Start(deadline, number, wanted) => {
                let timer = timer(&rt, rt.alloc(), deadline, number, &drops);
                same(&rt, wheel.start(timer).is_ok(), wanted);
            }
            Step::Tick(wanted) => ticks(&rt, &mut wheel, wanted),
            Step::Now(time, dropped) => {
                same(&rt, (wheel.time(), drops.count()), (time, dropped));
            }
        }
    }
    same(&rt, (wheel.time(), drops.count()), (6, 8));
    Ok(())
}

#[test]
fn a_cancelled_timer_comes_back(rt: HostRuntime) -> Result<(), AllocError> {
    let drops = no_drops(&rt, rt.alloc());
    let mut wheel = TimerWheel::new(rt.alloc(), 4)?;
    let first = timer(&rt, rt.alloc(), 2, 1, &drops);
    let second = timer(&rt, rt.alloc(), 2, 2, &drops);
    let Ok(ticket) = wheel.start(first) else {
        panic!(rt; "a timer was not taken");
    };
    let Ok(other) = wheel.start(second) else {
        panic!(rt; "a timer was not taken");
    };
    same(&rt, other.deadline, 2);
    let node = wheel.cancel(ticket);
    same(&rt, (node.id(), node.into_value().payload.value), (2, 1));
    same(&rt, drops.count(), 1);
    for wanted in [[].as_slice(), &[], &[2]] {
        ticks(&rt, &mut wheel, wanted);
    }
    same(&rt, drops.count(), 2);
    Ok(())
}
