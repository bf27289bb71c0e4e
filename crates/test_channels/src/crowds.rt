//! Threads that send to one.

use crate::calls::{Handle, element};
use crate::compared::{at_most, made, same};
use cordyceps_base::shared::MAX_ROOMS;
use cordyceps_channel::{
    Batch, Receiver, RecvTimeoutError, Sender, TryRecvError, TrySendError, channel,
};
use std::alloc::Global;
use std::process::Abort;
use std::sync::Wait;
use std::sync::atomic::{AtomicU64, Ordering};
use std::thread;
use std::thread::Threads;
use std::time::{Clock, Duration, Instant};
use test_support::counted::{Counted, Drops};
use test_support::draws::Draws;

/// How many elements each thread sends, where the receiver does not end first.
const EACH: u64 = 60;

/// After how many elements a thread rests.
const PART: u64 = 25;

/// How many plans are drawn, and the start of the sequence.
const RUNS: u64 = 200;

const START: u64 = 1;

/// How far the first numbers of threads are apart.
const FAR: u64 = 1_000_000_000;

/// By which calls elements go through.
#[derive(Clone, Copy)]
enum Way {
    /// By those that wait.
    Wait,
    /// By those that never wait, again and again.
    Poll,
    /// By those that wait, and each element by another sender, a clone of the one before, which then ends.
    Clone,
    /// By those that wait, and out in batches of up to three.
    Batch,
    /// By those that wait, and out by calls with a deadline of a tenth of a millisecond.
    Deadline,
}

/// The ways of the calls that wait.
const WAYS: [Way; 5] = [Way::Wait, Way::Poll, Way::Clone, Way::Batch, Way::Deadline];

/// What threads do at a channel.
#[derive(Clone, Copy)]
struct Plan {
    way: Way,
    rooms: usize,
    senders: u64,
    /// How many elements each thread sends.
    each: u64,
    /// After how many elements the receiver ends.
    most: u64,
}

/// What the threads of a channel count.
#[derive(Drop)]
struct Counts {
    drops: Drops,
    /// The elements that were made.
    made: AtomicU64,
    /// Those that came back since the receiver had ended.
    back: AtomicU64,
}

/// Sleeps, so that threads that wait for this one sleep too. A yield would give the processor away for much longer, if
/// other programs run on it.
fn rest(rt: &impl Clock) {
    thread::sleep(rt, Duration::from_micros(100));
}

/// Sends an element as soon as a try to send it finds a room, and returns whether it was sent.
fn poll(rt: &impl Clock, sender: &mut Sender<Counted>, node: Handle) -> bool {
    let mut node = node;
    for _ in 0..u64::MAX {
        match sender.try_send(node) {
            Ok(()) => return true,
            Err(TrySendError::Disconnected(_)) => return false,
            Err(TrySendError::Full(back)) => node = back,
        }
        rest(rt);
    }
    false
}

/// Sends an element, and returns whether it was sent.
fn send<R: Abort + Wait + Clock>(
    rt: &R,
    sender: &mut Sender<Counted>,
    way: Way,
    node: Handle,
) -> bool {
    match way {
        Way::Wait | Way::Batch | Way::Deadline => sender.send(rt, node).is_ok(),
        Way::Poll => poll(rt, sender, node),
        Way::Clone => {
            let mut other = made(rt, sender.try_clone(rt));
            let is_sent = other.send(rt, node).is_ok();
            *sender = other;
            is_sent
        }
    }
}

/// Sends elements with the numbers from `first` on, until one comes back.
fn send_all<R: Abort + Wait + Clock>(
    rt: &R,
    alloc: Global,
    sender: Sender<Counted>,
    plan: Plan,
    first: u64,
    counts: &Counts,
) {
    let mut sender = sender;
    for index in 0..plan.each {
        if index % PART == 0 {
            rest(rt);
        }
        let node = element(rt, alloc, first.wrapping_add(index), &counts.drops);
        counts.made.fetch_add(1, Ordering::SeqCst);
        if !send(rt, &mut sender, plan.way, node) {
            counts.back.fetch_add(1, Ordering::SeqCst);
            return;
        }
    }
    rest(rt);
}

/// Receives an element by calls that never wait, or returns `None` if all senders have ended.
fn poll_recv<R: Wait + Clock>(rt: &R, receiver: &mut Receiver<Counted>) -> Option<Handle> {
    for _ in 0..u64::MAX {
        match receiver.try_recv() {
            Ok(node) => return Some(node),
            Err(TryRecvError::Disconnected) => return None,
            Err(TryRecvError::Empty) => rest(rt),
        }
    }
    None
}

/// Receives an element by calls with a deadline, or returns `None` if all senders have ended.
fn recv_in_time<R: Wait + Clock>(rt: &R, receiver: &mut Receiver<Counted>) -> Option<Handle> {
    for _ in 0..u64::MAX {
        let deadline = Instant::now(rt)
            .ok()?
            .checked_add(Duration::from_micros(100))?;
        match receiver.recv_deadline(rt, deadline) {
            Ok(node) => return Some(node),
            Err(RecvTimeoutError::Disconnected) => return None,
            Err(RecvTimeoutError::Timeout) => {}
        }
    }
    None
}

/// Receives an element, or returns `None` if all senders have ended. What a batch has more comes at the next calls.
fn receive<R: Wait + Clock>(
    rt: &R,
    receiver: &mut Receiver<Counted>,
    batch: &mut Option<Batch<Counted>>,
    way: Way,
) -> Option<Handle> {
    match way {
        Way::Wait | Way::Clone => receiver.recv(rt).ok(),
        Way::Poll => poll_recv(rt, receiver),
        Way::Deadline => recv_in_time(rt, receiver),
        Way::Batch => {
            if let Some(more) = batch {
                if let Some(node) = more.next() {
                    return Some(node);
                }
            }
            let mut taken = receiver.recv_batch(rt, 3).ok()?;
            let node = taken.next();
            *batch = Some(taken);
            node
        }
    }
}

/// Receives as many elements as are wanted, or until all senders have ended. Returns how many came, and whether those
/// of each thread came in order.
fn receive_all<R: Abort + Wait + Clock>(
    rt: &R,
    alloc: Global,
    receiver: Receiver<Counted>,
    plan: Plan,
) -> (u64, bool) {
    let mut receiver = receiver;
    let mut next = Vec::new(alloc);
    for sender in 0..plan.senders {
        made(rt, next.push(sender.wrapping_mul(FAR)));
    }
    let mut in_order = true;
    let mut batch = None;
    for count in 0..plan.most {
        if count % PART == 0 {
            rest(rt);
        }
        let Some(node) = receive(rt, &mut receiver, &mut batch, plan.way) else {
            return (count, in_order);
        };
        match next.get_mut((node.id() / FAR) as usize) {
            Some(wanted) => {
                in_order = in_order && *wanted == node.id();
                *wanted = node.id().wrapping_add(1);
            }
            None => in_order = false,
        }
    }
    rest(rt);
    (plan.most, in_order)
}

/// What came of a plan.
#[derive(Clone, Copy)]
struct Outcome {
    /// How many elements came.
    came: u64,
    /// Whether those of each thread came in its order.
    in_order: bool,
    /// How many threads got an element back.
    back: u64,
    /// How many elements were made, and how many were dropped.
    made: u64,
    dropped: u64,
}

/// Starts a thread for each sender, and receives on this one.
fn exchange<R: Abort + Threads + Wait + Clock + Sync>(
    rt: &R,
    alloc: Global,
    plan: Plan,
) -> Outcome {
    at_most(rt, plan.rooms, MAX_ROOMS);
    let (first, receiver) = made(rt, channel(alloc, plan.rooms));
    let mut sender = first;
    let counts = Counts {
        drops: made(rt, Drops::new(alloc)),
        made: AtomicU64::new(0),
        back: AtomicU64::new(0),
    };
    let told = &counts;
    let (came, in_order) = thread::scope(thread::scope_env(), rt, |scope| {
        for number in 1..plan.senders {
            let other = made(rt, sender.try_clone(rt));
            let first = number.wrapping_mul(FAR);
            made(
                rt,
                scope.spawn(move || send_all(rt, alloc, other, plan, first, told)),
            );
        }
        made(
            rt,
            scope.spawn(move || send_all(rt, alloc, sender, plan, 0, told)),
        );
        receive_all(rt, alloc, receiver, plan)
    });
    Outcome {
        came,
        in_order,
        back: counts.back.load(Ordering::SeqCst),
        made: counts.made.load(Ordering::SeqCst),
        dropped: counts.drops.count(),
    }
}

/// Runs a plan, and asserts how many elements came and how many came back, and that each was dropped once.
fn run<R: Abort + Threads + Wait + Clock + Sync>(rt: &R, alloc: Global, plan: Plan) {
    let outcome = exchange(rt, alloc, plan);
    let all = plan.senders.wrapping_mul(plan.each);
    let back = if all > plan.most { plan.senders } else { 0 };
    same(
        rt,
        (outcome.came, outcome.in_order),
        (all.min(plan.most), true),
    );
    same(rt, (outcome.back, outcome.dropped), (back, outcome.made));
}

/// Runs a plan whose receiver may end before the senders, or not. Asserts that the elements of each thread came in
/// order, that all came if the receiver did not end, and that each was dropped once.
fn run_to_an_end<R: Abort + Threads + Wait + Clock + Sync>(rt: &R, alloc: Global, plan: Plan) {
    let outcome = exchange(rt, alloc, plan);
    let all = plan.senders.wrapping_mul(plan.each);
    let is_early = plan.most <= all;
    same(
        rt,
        (outcome.came, outcome.in_order),
        (all.min(plan.most), true),
    );
    same(rt, outcome.dropped, outcome.made);
    same(rt, is_early || outcome.back == 0, true);
}

/// Runs plans of each number of threads.
fn run_each<R: Abort + Threads + Wait + Clock + Sync>(
    rt: &R,
    alloc: Global,
    way: Way,
    rooms: usize,
    each: u64,
    most: u64,
) {
    for senders in [1, 2, 3, 8] {
        let plan = Plan {
            way,
            rooms,
            senders,
            each,
            most,
        };
        run(rt, alloc, plan);
    }
}

#[test]
fn what_threads_send_comes_out_in_the_order_of_each(rt: HostRuntime) {
    for way in WAYS {
        for rooms in [1, 2, 256, 4096] {
            run_each(&rt, rt.alloc(), way, rooms, EACH, u64::MAX);
        }
    }
}

#[test]
fn a_receiver_is_told_when_nothing_was_sent(rt: HostRuntime) {
    for rooms in [0, 1, 256] {
        run_each(&rt, rt.alloc(), Way::Wait, rooms, 0, u64::MAX);
    }
}

#[test]
fn senders_get_their_elements_back_when_the_receiver_ends(rt: HostRuntime) {
    for way in WAYS {
        for (rooms, most) in [(0, 0), (1, 0), (1, 60), (2, 60), (256, 60), (4096, 60)] {
            run_each(&rt, rt.alloc(), way, rooms, FAR, most);
        }
    }
}

// As many runs as a test has time for, with numbers of threads, rooms, elements and an end of the receiver that are
// drawn. The numbers drawn are the same each time, and the ways of the threads are not.
#[test]
fn either_side_ends_at_any_time(rt: HostRuntime) {
    let mut draws = Draws::new(START);
    for _ in 0..RUNS {
        let plan = Plan {
            way: WAYS[draws.below(5) as usize],
            rooms: [1, 2, 256][draws.below(3) as usize],
            senders: 1 + draws.below(8),
            each: draws.below(8),
            most: draws.below(64),
        };
        run_to_an_end(&rt, rt.alloc(), plan);
    }
}
