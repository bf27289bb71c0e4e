//! Timers that come when they are due, timers that are cancelled, and deadlines that have passed.
ghost use Rattle.cordyceps.specs.Elements.Element.{Element};
ghost use Rattle.cordyceps.specs.Spots.BySpot.{IsTaken};
ghost use Rattle.cordyceps_shared_uses.specs.declared.timers.Timer.{Timer};

use crate::compared::same;
use crate::made::{counted, no_drops};
use cordyceps::Spot;
use cordyceps_shared_uses::timers::Timers;
use std::alloc::Global;
use std::process::Abort;
use test_support::counted::{Counted, Drops};

/// Starts a timer with this number, and returns its spot.
fn start(
    rt: &impl Abort,
    timers: &mut Timers<Counted>,
    alloc: Global,
    deadline: u64,
    number: u64,
    drops: &Drops,
) -> Spot
    ensures { (timer : Element (Timer Counted)) × IsTaken timers.new.nodes result timer timers.old.nodes }
{
    match timers.start(alloc, deadline, counted(rt, number, drops)) {
        Ok(spot) => spot,
        Err(_) => panic!(rt; "no memory for a timer"),
    }
}

/// A timer's deadline, as it was given, and its number.
type Pair = (u64, u64);

/// Compares the deadlines and numbers of the timers that come at some times with those that are wanted.
fn come(rt: &impl Abort, timers: &mut Timers<Counted>, wanted: &[(u64, Option<Pair>)]) {
    for (now, wanted) in wanted {
        let came = match timers.pop_due(*now) {
            Some(timer) => Some((timer.deadline, timer.payload.value)),
            None => None,
        };
        same(rt, (*now, came), (*now, *wanted));
    }
}

#[test]
fn due_timers_come_in_order(rt: HostRuntime) {
    let drops = no_drops(&rt, rt.alloc());
    let mut timers = Timers::new();
    for (deadline, number) in [(30, 1), (10, 2), (20, 3), (10, 4), (20, 5)] {
        start(&rt, &mut timers, rt.alloc(), deadline, number, &drops);
    }
    let wanted = [
        (9, None),
        (10, Some((10, 2))),
        (10, Some((10, 4))),
        (25, Some((20, 3))),
        (29, Some((20, 5))),
        (29, None),
    ];
    come(&rt, &mut timers, &wanted);
    same(&rt, drops.count(), 4);
    drop(timers);
    same(&rt, drops.count(), 5);
}

/// Starts three timers, which are numbered from 1 on, and cancels one. It compares which others are left, in the order
/// in which they come.
fn cancels(
    rt: &impl Abort,
    alloc: Global,
    deadlines: (u64, u64, u64),
    number: u64,
    (next, last): (Pair, Pair),
) {
    let drops = no_drops(rt, alloc);
    let mut timers = Timers::new();
    let first = start(rt, &mut timers, alloc, deadlines.0, 1, &drops);
    let second = start(rt, &mut timers, alloc, deadlines.1, 2, &drops);
    let third = start(rt, &mut timers, alloc, deadlines.2, 3, &drops);
    let cancelled = match number {
        1 => timers.cancel(first),
        2 => timers.cancel(second),
        _ => timers.cancel(third),
    };
    same(
        rt,
        (cancelled.get().payload.value, drops.count()),
        (number, 0),
    );
    let wanted = [
        (u64::MAX, Some(next)),
        (u64::MAX, Some(last)),
        (u64::MAX, None),
    ];
    come(rt, &mut timers, &wanted);
    same(rt, drops.count(), 2);
    drop(cancelled);
    same(rt, drops.count(), 3);
}

#[test]
fn a_cancelled_timer_leaves_the_others_in_order(rt: HostRuntime) {
    for (deadlines, number, left) in [
        ((30, 10, 20), 1, ((10, 2), (20, 3))),
        ((30, 10, 20), 2, ((20, 3), (30, 1))),
        ((30, 10, 20), 3, ((10, 2), (30, 1))),
        ((10, 10, 10), 2, ((10, 1), (10, 3))),
    ] {
        cancels(&rt, rt.alloc(), deadlines, number, left);
    }
}

#[test]
fn a_cancelled_timer_is_started_again(rt: HostRuntime) {
    let drops = no_drops(&rt, rt.alloc());
    let mut timers = Timers::new();
    start(&rt, &mut timers, rt.alloc(), 20, 1, &drops);
    let spot = start(&rt, &mut timers, rt.alloc(), 10, 2, &drops);
    let mut cancelled = timers.cancel(spot);
    come(&rt, &mut timers, &[(19, None)]);
    cancelled.get_mut().deadline = 30;
    same(&rt, timers.restart(cancelled).is_ok(), true);
    let wanted = [
        (29, Some((20, 1))),
        (29, None),
        (30, Some((30, 2))),
        (30, None),
    ];
    come(&rt, &mut timers, &wanted);
    same(&rt, drops.count(), 2);
}

#[test]
fn a_timer_that_is_started_again_too_late_fires_at_once(rt: HostRuntime) {
    let drops = no_drops(&rt, rt.alloc());
    let mut timers = Timers::new();
    start(&rt, &mut timers, rt.alloc(), 20, 1, &drops);
    let spot = start(&rt, &mut timers, rt.alloc(), 10, 2, &drops);
    let cancelled = timers.cancel(spot);
    come(&rt, &mut timers, &[(15, None)]);
    same(&rt, timers.restart(cancelled).is_ok(), true);
    same(&rt, (timers.now(), timers.first_deadline()), (15, Some(15)));
    let wanted = [
        (14, None),
        (15, Some((10, 2))),
        (19, None),
        (20, Some((20, 1))),
    ];
    come(&rt, &mut timers, &wanted);
    same(&rt, drops.count(), 2);
}

/// Stops the first timer before it is due, and compares its deadline and its number, and then the clock.
fn stops_first(rt: &impl Abort, timers: &mut Timers<Counted>, wanted: Option<Pair>, clock: u64) {
    let came = match timers.stop_first() {
        Some(timer) => Some((timer.get().deadline, timer.get().payload.value)),
        None => None,
    };
    same(rt, (came, timers.now()), (wanted, clock));
}

#[test]
fn the_first_timer_is_stopped_before_it_is_due(rt: HostRuntime) {
    let drops = no_drops(&rt, rt.alloc());
    let mut timers = Timers::new();
    stops_first(&rt, &mut timers, None, 0);
    for (deadline, number) in [(30, 1), (10, 2), (30, 3)] {
        start(&rt, &mut timers, rt.alloc(), deadline, number, &drops);
    }
    stops_first(&rt, &mut timers, Some((10, 2)), 10);
    // its deadline has passed
    start(&rt, &mut timers, rt.alloc(), 9, 4, &drops);
    stops_first(&rt, &mut timers, Some((9, 4)), 10);
    stops_first(&rt, &mut timers, Some((30, 1)), 30);
    stops_first(&rt, &mut timers, Some((30, 3)), 30);
    stops_first(&rt, &mut timers, None, 30);
    same(&rt, drops.count(), 4);
}

#[test]
fn a_bound_comes_nearer_until_the_first_timer_is_due(rt: HostRuntime) {
    let drops = no_drops(&rt, rt.alloc());
    let mut timers = Timers::new();
    same(&rt, timers.not_before(), None);
    start(&rt, &mut timers, rt.alloc(), 23, 1, &drops);
    for bound in [16, 20, 22] {
        same(&rt, timers.not_before(), Some(bound));
        come(&rt, &mut timers, &[(bound, None)]);
    }
    same(&rt, timers.not_before(), Some(23));
    come(&rt, &mut timers, &[(23, Some((23, 1)))]);
    same(&rt, (timers.not_before(), drops.count()), (None, 1));
}

#[test]
fn a_timer_whose_deadline_has_passed_comes_as_it_was_given(rt: HostRuntime) {
    let drops = no_drops(&rt, rt.alloc());
    let mut timers = Timers::new();
    same(&rt, (timers.now(), timers.first_deadline()), (0, None));
    come(&rt, &mut timers, &[(50, None), (20, None)]);
    same(&rt, (timers.now(), timers.first_deadline()), (50, None));
    for (deadline, number) in [(30, 1), (70, 2), (50, 3), (0, 4)] {
        start(&rt, &mut timers, rt.alloc(), deadline, number, &drops);
    }
    same(&rt, (timers.now(), timers.first_deadline()), (50, Some(50)));
    let wanted = [
        (49, None),
        (50, Some((30, 1))),
        (50, Some((50, 3))),
        (51, Some((0, 4))),
        (69, None),
    ];
    come(&rt, &mut timers, &wanted);
    same(&rt, (timers.now(), timers.first_deadline()), (69, Some(70)));
    come(&rt, &mut timers, &[(80, Some((70, 2))), (80, None)]);
    same(&rt, (timers.now(), drops.count()), (80, 4));
}
