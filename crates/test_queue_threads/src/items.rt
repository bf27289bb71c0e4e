//! Elements of a shared queue, which count how many of them were dropped, and what batches of them hold.
use crate::compared::{made, same};
use cordyceps_base::node::Node;
use cordyceps_queue::mpsc_queue::{Batch, Links};
use std::alloc::Global;
use std::process::Abort;
use std::sync::atomic::AtomicU64;
use test_support::counted::{Counted, Drops, counted_node};

/// What a queue takes and returns.
pub type Handle = Node<Counted, Links<Counted>>;

/// Returns the sum of two counts. No clause says so, which keeps the proofs of those that count short.
pub fn sum(count: u64, more: u64) -> u64 {
    count.wrapping_add(more)
}

/// Returns `count` times `each`. No clause says so, which keeps the proofs of its callers short.
pub fn times(count: u64, each: u64) -> u64 {
    count.wrapping_mul(each)
}

/// Returns a count of nothing.
pub fn nothing() -> AtomicU64 {
    AtomicU64::new(0)
}

/// Returns an element of this number, with ten times as much as its value.
pub fn element(rt: &impl Abort, alloc: Global, number: u64, drops: &Drops) -> Handle {
    made(rt, counted_node(alloc, number, times(10, number), drops))
}

/// Returns this many elements, with this number and the next ones.
pub fn elements(
    rt: &impl Abort,
    alloc: Global,
    first: u64,
    count: u64,
    drops: &Drops,
) -> Vec<Handle> {
    let mut all = Vec::new(alloc);
    for index in 0..count {
        append(rt, &mut all, element(rt, alloc, sum(first, index), drops));
    }
    all
}

/// Returns the number of an element that was made so. Its value has to be ten times as much.
pub fn number(rt: &impl Abort, node: &Handle) -> u64 {
    same(rt, node.get().value, times(10, node.id()));
    node.id()
}

/// Drops an element, if there is one, and returns its number.
pub fn number_of(rt: &impl Abort, node: Option<Handle>) -> Option<u64> {
    match node {
        Some(node) => Some(number(rt, &node)),
        None => None,
    }
}

/// Compares how many elements a batch says that it has left with what is wanted.
fn has_left(rt: &impl Abort, elements: &Batch<Counted>, wanted: usize) {
    let says = (elements.len(), elements.size_hint(), elements.is_empty());
    same(rt, says, (wanted, (wanted, Some(wanted)), wanted == 0));
}

/// Returns the number of a batch's first element, and how many it has. Each has to have the number after that of the
/// one before.
pub fn numbers(rt: &impl Abort, elements: Batch<Counted>) -> (u64, usize) {
    let mut left = elements;
    let (count, mut first) = (left.len(), 0u64);
    for taken in 0..count {
        has_left(rt, &left, count - taken);
        let Some(node) = left.next() else {
            panic!(rt; "an element is left");
        };
        if taken == 0 {
            first = node.id();
        }
        same(rt, number(rt, &node), sum(first, taken as u64));
    }
    has_left(rt, &left, 0);
    same(
        rt,
        (left.next().is_none(), left.next().is_none()),
        (true, true),
    );
    (first, count)
}

/// Appends a value, and ends the test where memory is refused.
pub fn append<T: Drop>(rt: &impl Abort, values: &mut Vec<T>, value: T) {
    made(rt, values.push(value));
}
