//! Spots that a program keeps, of a heap and of a queue of times: the contracts alone say that they are valid.
use crate::clock_queues::ByValue;
use crate::compared::{at_most, same};
use crate::keys::{Key, ONE, Pair, TWO, make, parts};
use cordyceps_clock::clock_queue::ClockQueue;
use cordyceps_heap::stable_heap::StableHeap;
use cordyceps_single::sorted_list::Least;
use std::alloc::Global;
use std::mem;
use std::process::Abort;

/// What came out, one after the other.
type Both = (Option<Pair>, Option<Pair>);

/// Pushes two elements into a heap, and removes each by its spot, the first one first or last.
fn of_a_heap(rt: &impl Abort, alloc: Global, first_comes_last: bool) -> Both {
    let mut heap: StableHeap<Key, Least> = StableHeap::new_min();
    let first = heap.push(make(rt, alloc, ONE));
    at_most(rt, heap.len(), 1);
    let second = heap.push(make(rt, alloc, TWO));
    if first_comes_last {
        let two = heap.remove(second);
        let one = heap.remove(first);
        return (parts(Some(two)), parts(Some(one)));
    }
    let one = heap.remove(first);
    let two = heap.remove(second);
    (parts(Some(one)), parts(Some(two)))
}

/// Pushes two elements into a queue of times, and removes each by its spot, the first one first or last.
fn of_a_queue(rt: &impl Abort, alloc: Global, first_comes_last: bool) -> Both {
    let mut queue: ClockQueue<Key, ByValue> = ClockQueue::new_with_times(ByValue);
    let first = queue.push(make(rt, alloc, ONE));
    at_most(rt, queue.len(), 1);
    let second = queue.push(make(rt, alloc, TWO));
    if first_comes_last {
        let two = queue.remove(second);
        let one = queue.remove(first);
        return (parts(Some(two)), parts(Some(one)));
    }
    let one = queue.remove(first);
    let two = queue.remove(second);
    (parts(Some(one)), parts(Some(two)))
}

#[test]
fn two_spots_are_kept_and_used_in_either_order(rt: HostRuntime) {
    same(
        &rt,
        of_a_heap(&rt, rt.alloc(), false),
        (Some(ONE), Some(TWO)),
    );
    same(
        &rt,
        of_a_heap(&rt, rt.alloc(), true),
        (Some(TWO), Some(ONE)),
    );
    same(
        &rt,
        of_a_queue(&rt, rt.alloc(), false),
        (Some(ONE), Some(TWO)),
    );
    same(
        &rt,
        of_a_queue(&rt, rt.alloc(), true),
        (Some(TWO), Some(ONE)),
    );
}

#[test]
fn a_spot_stays_valid_while_another_element_changes(rt: HostRuntime) {
    let mut heap: StableHeap<Key, Least> = StableHeap::new_min();
    let first = heap.push(make(&rt, rt.alloc(), ONE));
    at_most(&rt, heap.len(), 1);
    let second = heap.push(make(&rt, rt.alloc(), TWO));
    let old = heap.update(second, |key| mem::replace(&mut key.value, 5));
    same(&rt, (old, heap.get(first).value), (20, 10));
    same(&rt, parts(Some(heap.remove(second))), Some((2, 5)));
}

#[test]
fn a_spot_stays_valid_while_no_element_is_due(rt: HostRuntime) {
    let mut queue: ClockQueue<Key, ByValue> = ClockQueue::new_with_times(ByValue);
    let spot = queue.push(make(&rt, rt.alloc(), ONE));
    match queue.pop_due(9) {
        Some(early) => same(&rt, parts(Some(early)), None),
        None => {
            queue.set_times(ByValue);
            same(&rt, (queue.get(spot).value, queue.now()), (10, 9));
            same(&rt, parts(Some(queue.remove(spot))), Some(ONE));
        }
    }
    same(&rt, queue.is_empty(), true);
}
