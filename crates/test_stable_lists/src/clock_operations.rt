//! Runs of many calls of a queue of times, beside a sorted vector that should hold the same.

use crate::clock_calls::{Call, Due, Timers, make_call};
use crate::compared::{at_most, made, same};
use crate::keys::{Reply, taken};
use std::alloc::Global;
use std::process::Abort;
use test_support::counted::Drops;
use test_support::draws::Draws;

/// How many calls a run makes.
const CALLS: u64 = 100_000;

/// What a queue should hold: the time and the number of each element, in order, and the clock. Elements that are due at
/// the same time are in the order in which they were pushed or last updated.
#[derive(Drop)]
struct Model {
    pairs: Vec<Due>,
    now: u64,
}

/// Draws a time that is due at the clock or later: mostly soon, often at the clock or when others are due, and near the
/// end of a run also at the end of all times.
fn drawn_time(draws: &mut Draws, now: u64, number: u64) -> u64 {
    if number > CALLS / 10 * 9 && draws.below(4) == 0 {
        return u64::MAX;
    }
    let step = draws.below(8) << draws.below(40);
    now.saturating_add(step)
}

/// Draws the number of an element of the queue, or of none.
fn drawn_number(draws: &mut Draws, pairs: &[Due]) -> u64 {
    let at = draws.below(pairs.len().max(1) as u64) as usize;
    match pairs.get(at) {
        Some(pair) => pair.1,
        None => 0,
    }
}

/// Draws a call of a queue that has `most` elements for most of the time. A new element has the number `number`.
fn drawn(draws: &mut Draws, model: &Model, most: usize, number: u64) -> Call {
    let time = drawn_time(draws, model.now, number);
    let some = drawn_number(draws, model.pairs.as_slice());
    let below = model.pairs.len() < most;
    match draws.below(16) {
        0 | 1 | 2 if below => Call::Push((time, number)),
        3 | 4 | 5 if below => Call::TryPush((time, number)),
        6 => Call::TryPush((model.now.saturating_sub(draws.below(4)), number)),
        0 | 1 | 7 => Call::PopFront,
        2 | 3 | 8 => Call::PopDue(time),
        9 => Call::PopDue(model.now),
        10 => Call::PopDue(model.now.saturating_sub(draws.below(4))),
        11 => Call::Remove(some),
        12 => Call::RemoveFront,
        13 => Call::Front,
        14 => Call::Update(some, time),
        _ => Call::Get(some),
    }
}

/// Puts an element into its place after those that are due at the same time, if it is due at the clock or later, or
/// returns it. No element has the greatest number.
fn put(rt: &impl Abort, model: &mut Model, due: Due) -> Option<Due> {
    if due.0 < model.now {
        return Some(due);
    }
    let at = match model.pairs.as_slice().binary_search(&(due.0, u64::MAX)) {
        Ok(at) | Err(at) => at,
    };
    at_most(rt, at, model.pairs.len());
    made(rt, model.pairs.insert(at, due));
    None
}

/// Returns the place of the element with a number, or the length if there is none.
fn place_of(pairs: &[Due], number: u64) -> usize {
    let mut at = 0usize;
    for pair in pairs {
        if pair.1 == number {
            return at;
        }
        at = at.wrapping_add(1);
    }
    at
}

/// Returns the time of the element at a place, if there is one.
fn time_at(pairs: &[Due], at: usize) -> Option<u64> {
    Some(pairs.get(at)?.0)
}

/// Removes the first element, whose time becomes the clock, if it is due by then.
fn pop_by(model: &mut Model, until: u64) -> Option<Due> {
    let first = *model.pairs.first()?;
    if first.0 > until {
        return None;
    }
    model.now = first.0;
    taken(&mut model.pairs, 0)
}

/// Changes the time of the element with a number, where the new one is the clock or later, and returns the old one.
fn change(rt: &impl Abort, model: &mut Model, number: u64, time: u64) -> Option<u64> {
    if time < model.now {
        return None;
    }
    let at = place_of(model.pairs.as_slice(), number);
    let old = taken(&mut model.pairs, at)?;
    put(rt, model, (time, number));
    Some(old.0)
}

/// Does to a sorted vector what a call does to a queue, and returns the reply that is wanted.
fn wanted(rt: &impl Abort, model: &mut Model, call: &Call) -> Reply {
    match call {
        Call::Push(due) | Call::TryPush(due) => Reply::Out(put(rt, model, *due)),
        Call::PopFront => Reply::Out(pop_by(model, u64::MAX)),
        Call::PopDue(until) => {
            let first = pop_by(model, *until);
            if first.is_none() {
                model.now = model.now.max(*until);
            }
            Reply::Out(first)
        }
        Call::Front => Reply::Read(time_at(model.pairs.as_slice(), 0)),
        Call::RemoveFront => Reply::Out(taken(&mut model.pairs, 0)),
        Call::Get(number) => {
            let at = place_of(model.pairs.as_slice(), *number);
            Reply::Read(time_at(model.pairs.as_slice(), at))
        }
        Call::Remove(number) => {
            let at = place_of(model.pairs.as_slice(), *number);
            Reply::Out(taken(&mut model.pairs, at))
        }
        Call::Update(number, time) => Reply::Read(change(rt, model, *number, *time)),
    }
}

/// A queue, a vector that should hold the same, and how many elements were made.
#[derive(Drop)]
struct Run {
    timers: Timers,
    model: Model,
    made: u64,
}

impl Run {
    /// Returns a queue and a vector of no element.
    fn new(alloc: Global) -> Run {
        Run {
            timers: Timers::new(alloc),
            model: Model {
                pairs: Vec::new(alloc),
                now: 0,
            },
            made: 0,
        }
    }
}

/// Makes a call of a queue and does the same to a vector. Asserts that both reply the same, and have the same length
/// and the same clock, and returns the reply.
fn agree(rt: &impl Abort, alloc: Global, drops: &Drops, run: &mut Run, call: &Call) -> Reply {
    let wanted = wanted(rt, &mut run.model, call);
    let came = make_call(rt, alloc, drops, &mut run.timers, call);
    same(rt, came, wanted);
    let state = (run.model.pairs.len(), run.model.now);
    same(rt, run.timers.state(), state);
    if let Call::Push(_) | Call::TryPush(_) = call {
        run.made = run.made.wrapping_add(1);
    }
    came
}

/// Makes many calls of a queue that has `most` elements for most of the time. At last half of its elements come out,
/// and the others are dropped with it.
fn many_calls(rt: &impl Abort, alloc: Global, most: usize) {
    let drops = made(rt, Drops::new(alloc));
    let mut draws = Draws::new(most as u64);
    let mut run = Run::new(alloc);
    for number in 0..most as u64 {
        let time = drawn_time(&mut draws, 0, number);
        agree(rt, alloc, &drops, &mut run, &Call::Push((time, number)));
    }
    for number in 0..CALLS {
        let call = drawn(
            &mut draws,
            &run.model,
            most,
            number.wrapping_add(most as u64),
        );
        agree(rt, alloc, &drops, &mut run, &call);
    }
    for _ in 0..run.model.pairs.len() / 2 {
        agree(rt, alloc, &drops, &mut run, &Call::PopFront);
    }
    let Run {
        timers,
        model: _,
        made: pushed,
    } = run;
    drop(timers);
    same(rt, drops.count(), pushed);
}

/// Calls of a queue that is empty at first, in which times are changed, and what they reply.
const UPDATES: &[(Call, Reply)] = &[
    (Call::Push((5, 1)), Reply::Out(None)),
    (Call::Push((5, 2)), Reply::Out(None)),
    (Call::Push((9, 3)), Reply::Out(None)),
    (Call::Push((40, 4)), Reply::Out(None)),
    // behind its equals, though its time stays the same
    (Call::Update(1, 5), Reply::Read(Some(5))),
    // before all others, and then among equals of a higher time
    (Call::Update(4, 2), Reply::Read(Some(40))),
    (Call::Front, Reply::Read(Some(2))),
    (Call::Update(2, 9), Reply::Read(Some(5))),
    (Call::PopFront, Reply::Out(Some((2, 4)))),
    // before the clock, at the clock, and an element that is not there
    (Call::Update(3, 1), Reply::Read(None)),
    (Call::Update(3, 2), Reply::Read(Some(9))),
    (Call::Update(4, 7), Reply::Read(None)),
    (Call::Get(3), Reply::Read(Some(2))),
    (Call::PopDue(2), Reply::Out(Some((2, 3)))),
    (Call::PopDue(4), Reply::Out(None)),
    (Call::PopDue(5), Reply::Out(Some((5, 1)))),
    // the only element: at the last time of all, and at the clock
    (Call::Update(2, u64::MAX), Reply::Read(Some(9))),
    (Call::PopDue(100), Reply::Out(None)),
    (Call::Update(2, 100), Reply::Read(Some(u64::MAX))),
    (Call::PopFront, Reply::Out(Some((100, 2)))),
    (Call::Update(2, 100), Reply::Read(None)),
];

#[test]
fn a_queue_of_times_moves_what_is_updated(rt: HostRuntime) {
    let drops = made(&rt, Drops::new(rt.alloc()));
    let mut run = Run::new(rt.alloc());
    for (call, reply) in UPDATES {
        let came = agree(&rt, rt.alloc(), &drops, &mut run, call);
        same(&rt, came, *reply);
    }
}

#[test]
fn many_calls_of_a_queue_of_times_do_what_they_do_to_a_sorted_vector(rt: HostRuntime) {
    for most in [1usize, 40, 4000] {
        many_calls(&rt, rt.alloc(), most);
    }
}
