//! Each call of a queue of times, and what it replies; and how often the queue drops what it holds.
ghost use Rattle.std.specs.Prelude.{◌≡◌, refl, ⊤};

use crate::compared::{made, same};
use crate::drops::drops_one;
use crate::keys::{Handle, Key, Pair, Reply, make, parts};
use cordyceps_base::node::Node;
use cordyceps_clock::clock_queue::ClockQueue;
use cordyceps_clock::times::Times;
use cordyceps_list::list::Links;
use std::alloc::Global;
use std::mem;
use std::process::Abort;
use test_support::counted::{Counted, Drops, counted_node};

/// A call of a queue, or calls one after the other.
#[derive(Drop)]
enum Call {
    TryPush(Pair),
    /// Pushes an element, reads its time by the spot that came back, and removes it by that spot.
    PushAndRemove(Pair),
    PopFront,
    PopDue(u64),
    /// Reads the time of the element that is due first.
    Front,
    /// Reads a time before which none is due.
    NotBefore,
    /// Replaces the function of times by an equal one.
    SetTimes,
}

/// The times of elements: their values.
#[derive(Drop)]
pub struct ByValue;

impl Times<Key> for ByValue {
    ghost use Rattle.test_stable_lists.specs.declared.keys.Key.{Key};

    ghost computes_by = { λ _ of. of ≡ (λ x. x.value) };

    ghost can_compute = { λ _. ⊤ };

    ghost computes = { λ _ _. ((λ x. x.value), refl) };

    fn time(&self, key: &Key) -> u64 {
        key.value
    }
}

impl Times<Counted> for ByValue {
    ghost use Rattle.test_support.specs.declared.counted.Counted.{Counted};

    ghost computes_by = { λ _ of. of ≡ (λ x. x.value) };

    ghost can_compute = { λ _. ⊤ };

    ghost computes = { λ _ _. ((λ x. x.value), refl) };

    fn time(&self, counted: &Counted) -> u64 {
        counted.value
    }
}

/// Pushes an element, reads its time by the spot that came back, and removes it by that spot.
fn push_and_remove(queue: &mut ClockQueue<Key, ByValue>, node: Handle) -> Reply {
    match queue.try_push(node) {
        Ok(spot) => {
            let time = queue.get(spot).value;
            Reply::Removed(time, parts(Some(queue.remove(spot))))
        }
        Err(node) => Reply::Out(parts(Some(node))),
    }
}

/// Returns the time of the element that is due first.
fn first_time(queue: &ClockQueue<Key, ByValue>) -> Option<u64> {
    let spot = queue.front()?;
    Some(queue.get(spot).value)
}

/// Makes a call, and returns its reply.
fn make_call(
    rt: &impl Abort,
    alloc: Global,
    queue: &mut ClockQueue<Key, ByValue>,
    call: &Call,
) -> Reply {
    match call {
        Call::TryPush(pair) => match queue.try_push(make(rt, alloc, *pair)) {
            Ok(_) => Reply::Out(None),
            Err(node) => Reply::Out(parts(Some(node))),
        },
        Call::PushAndRemove(pair) => push_and_remove(queue, make(rt, alloc, *pair)),
        Call::PopFront => Reply::Out(parts(queue.pop_front())),
        Call::PopDue(now) => Reply::Out(parts(queue.pop_due(*now))),
        Call::Front => Reply::Read(first_time(queue)),
        Call::NotBefore => Reply::Read(queue.not_before()),
        Call::SetTimes => {
            queue.set_times(ByValue);
            Reply::Read(first_time(queue))
        }
    }
}

/// Calls of a queue that is empty at first, what they reply, and then the length of the queue and its `now`. Numbers
/// tell elements that are due at the same time apart.
const CALLS: &[(Call, Reply, usize, u64)] = &[
    (Call::PopFront, Reply::Out(None), 0, 0),
    (Call::TryPush((1, 5)), Reply::Out(None), 1, 0),
    (Call::TryPush((2, 3)), Reply::Out(None), 2, 0),
    (Call::TryPush((3, 5)), Reply::Out(None), 3, 0),
    (Call::TryPush((4, 1)), Reply::Out(None), 4, 0),
    (Call::TryPush((5, 3)), Reply::Out(None), 5, 0),
    (Call::TryPush((6, u64::MAX)), Reply::Out(None), 6, 0),
    // an element is removed that is due now, one after its equals, one that is due last
    (
        Call::PushAndRemove((7, 0)),
        Reply::Removed(0, Some((7, 0))),
        6,
        0,
    ),
    (
        Call::PushAndRemove((7, 5)),
        Reply::Removed(5, Some((7, 5))),
        6,
        0,
    ),
    (
        Call::PushAndRemove((7, u64::MAX)),
        Reply::Removed(u64::MAX, Some((7, u64::MAX))),
        6,
        0,
    ),
    (Call::PopFront, Reply::Out(Some((4, 1))), 5, 1),
    // an element that is due before now comes back
    (Call::TryPush((7, 0)), Reply::Out(Some((7, 0))), 5, 1),
    (Call::PushAndRemove((7, 0)), Reply::Out(Some((7, 0))), 5, 1),
    (Call::TryPush((7, 1)), Reply::Out(None), 6, 1),
    (Call::PopFront, Reply::Out(Some((7, 1))), 5, 1),
    // equals by arrival
    (Call::PopFront, Reply::Out(Some((2, 3))), 4, 3),
    (Call::TryPush((8, 3)), Reply::Out(None), 5, 3),
    (Call::PopFront, Reply::Out(Some((5, 3))), 4, 3),
    (Call::PopFront, Reply::Out(Some((8, 3))), 3, 3),
    (Call::TryPush((9, 2)), Reply::Out(Some((9, 2))), 3, 3),
    (Call::SetTimes, Reply::Read(Some(5)), 3, 3),
    (Call::PopFront, Reply::Out(Some((1, 5))), 2, 5),
    (Call::TryPush((9, u64::MAX)), Reply::Out(None), 3, 5),
    (Call::PopFront, Reply::Out(Some((3, 5))), 2, 5),
    // the highest bit
    (
        Call::NotBefore,
        Reply::Read(Some(9_223_372_036_854_775_808)),
        2,
        5,
    ),
    // the last time of all
    (Call::PopFront, Reply::Out(Some((6, u64::MAX))), 1, u64::MAX),
    (
        Call::TryPush((1, 18_446_744_073_709_551_614)),
        Reply::Out(Some((1, 18_446_744_073_709_551_614))),
        1,
        u64::MAX,
    ),
    (
        Call::PushAndRemove((1, u64::MAX)),
        Reply::Removed(u64::MAX, Some((1, u64::MAX))),
        1,
        u64::MAX,
    ),
    (Call::TryPush((1, u64::MAX)), Reply::Out(None), 2, u64::MAX),
    (Call::PopFront, Reply::Out(Some((9, u64::MAX))), 1, u64::MAX),
    (Call::PopFront, Reply::Out(Some((1, u64::MAX))), 0, u64::MAX),
    (Call::PopFront, Reply::Out(None), 0, u64::MAX),
];

/// Calls of a queue that pop what is due by a time. The queue is empty at first.
const POPS: &[(Call, Reply, usize, u64)] = &[
    // an empty queue, whose clock moves, and a time before the clock
    (Call::Front, Reply::Read(None), 0, 0),
    (Call::NotBefore, Reply::Read(None), 0, 0),
    (Call::PopDue(2), Reply::Out(None), 0, 2),
    (Call::PopDue(1), Reply::Out(None), 0, 2),
    (Call::TryPush((1, 1)), Reply::Out(Some((1, 1))), 0, 2),
    (Call::TryPush((2, 9)), Reply::Out(None), 1, 2),
    (Call::TryPush((3, 6)), Reply::Out(None), 2, 2),
    (Call::TryPush((4, 9)), Reply::Out(None), 3, 2),
    (Call::TryPush((5, 2)), Reply::Out(None), 4, 2),
    // an element is due, at the clock
    (Call::NotBefore, Reply::Read(Some(2)), 4, 2),
    (Call::PopDue(1), Reply::Out(None), 4, 2),
    (Call::PopDue(2), Reply::Out(Some((5, 2))), 3, 2),
    (Call::PopDue(2), Reply::Out(None), 3, 2),
    (Call::Front, Reply::Read(Some(6)), 3, 2),
    (Call::NotBefore, Reply::Read(Some(4)), 3, 2),
    // none is due, and the clock moves: by its lowest bit, and then into the bucket of the first element
    (Call::PopDue(3), Reply::Out(None), 3, 3),
    (Call::NotBefore, Reply::Read(Some(4)), 3, 3),
    (Call::PopDue(5), Reply::Out(None), 3, 5),
    (Call::NotBefore, Reply::Read(Some(6)), 3, 5),
    // an element is due before the time
    (Call::PopDue(7), Reply::Out(Some((3, 6))), 2, 6),
    (Call::PopDue(7), Reply::Out(None), 2, 7),
    (Call::TryPush((6, 7)), Reply::Out(None), 3, 7),
    (Call::PopDue(8), Reply::Out(Some((6, 7))), 2, 7),
    // equals by arrival
    (Call::PopDue(100), Reply::Out(Some((2, 9))), 1, 9),
    (Call::TryPush((7, 9)), Reply::Out(None), 2, 9),
    (Call::PopDue(9), Reply::Out(Some((4, 9))), 1, 9),
    (Call::PopDue(u64::MAX), Reply::Out(Some((7, 9))), 0, 9),
    // the last time of all
    (Call::PopDue(u64::MAX), Reply::Out(None), 0, u64::MAX),
    (Call::TryPush((8, u64::MAX)), Reply::Out(None), 1, u64::MAX),
    (Call::NotBefore, Reply::Read(Some(u64::MAX)), 1, u64::MAX),
    (Call::PopDue(0), Reply::Out(None), 1, u64::MAX),
    (
        Call::PopDue(u64::MAX),
        Reply::Out(Some((8, u64::MAX))),
        0,
        u64::MAX,
    ),
];

/// Makes calls of a queue that is empty at first, and asserts what they reply.
fn replies(rt: &impl Abort, alloc: Global, calls: &[(Call, Reply, usize, u64)]) {
    let mut queue: ClockQueue<Key, ByValue> = ClockQueue::new_with_times(ByValue);
    same(rt, (queue.len(), queue.now()), (0, 0));
    for (call, reply, len, now) in calls {
        same(rt, make_call(rt, alloc, &mut queue, call), *reply);
        same(rt, (queue.len(), queue.now()), (*len, *now));
        same(rt, queue.is_empty(), *len == 0);
    }
}

#[test]
fn each_call_of_a_queue_of_times_replies(rt: HostRuntime) {
    replies(&rt, rt.alloc(), CALLS);
    replies(&rt, rt.alloc(), POPS);
}

/// A queue of elements that count their drops.
type Counting = ClockQueue<Counted, ByValue>;

/// Returns a queue into which an element was pushed, whose time was changed, and from which it was removed.
fn emptied(rt: &impl Abort, alloc: Global, drops: &Drops) -> Counting {
    let mut queue: Counting = ClockQueue::new_with_times(ByValue);
    let spot = queue.push(made(rt, counted_node(alloc, 1, 7, drops)));
    same(rt, (queue.get(spot).value, queue.len()), (7, 1));
    let time = queue.update(spot, |counted| mem::replace(&mut counted.value, 9));
    same(rt, (time, queue.get(spot).value), (7, 9));
    drops_one(rt, queue.remove(spot), 1, drops);
    queue
}

/// Pushes an element of this number and time, and returns it if it comes back.
fn push(
    rt: &impl Abort,
    alloc: Global,
    queue: &mut Counting,
    (number, time): (u64, u64),
    drops: &Drops,
) -> Option<Node<Counted, Links<Counted>>> {
    match queue.try_push(made(rt, counted_node(alloc, number, time, drops))) {
        Ok(_) => None,
        Err(back) => Some(back),
    }
}

/// Asserts that there is an element of this number, and drops it.
fn is_dropped(
    rt: &impl Abort,
    node: Option<Node<Counted, Links<Counted>>>,
    number: u64,
    drops: &Drops,
) {
    match node {
        Some(node) => drops_one(rt, node, number, drops),
        None => panic!(rt; "no element came out or back"),
    }
}

#[test]
fn a_queue_of_times_drops_each_element_once(rt: HostRuntime) {
    let drops = made(&rt, Drops::new(rt.alloc()));
    let mut queue = emptied(&rt, rt.alloc(), &drops);
    for due in [(2u64, 6u64), (3, 2), (4, 8)] {
        let back = push(&rt, rt.alloc(), &mut queue, due, &drops);
        same(&rt, back.is_none(), true);
    }
    is_dropped(&rt, queue.pop_front(), 3, &drops);
    // it is due before now
    let back = push(&rt, rt.alloc(), &mut queue, (5, 1), &drops);
    is_dropped(&rt, back, 5, &drops);
    same(&rt, (queue.len(), drops.count()), (2, 3));
    drop(queue);
    same(&rt, drops.count(), 5);
}
