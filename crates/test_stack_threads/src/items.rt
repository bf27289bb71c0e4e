//! Elements of a shared stack, which count how often they were taken, and what a stack pops.
ghost use Rattle.std.specs.Prelude.{◌≡◌, length};

use crate::compared::{made, same};
use cordyceps_base::node::Node;
use cordyceps_stack::stack::{Links, Stack};
use std::alloc::Global;
use std::process::Abort;
use test_support::counted::{Counted, Drops, counted_node};
use test_support::nodes::number;

/// What a stack takes and returns. Its value says how often it was taken.
pub type Handle = Node<Counted, Links<Counted>>;

/// Returns the sum of two counts. No clause says so, which keeps the proofs of those that count short.
pub fn sum(count: u64, more: u64) -> u64 {
    count.wrapping_add(more)
}

/// Returns a count of no drops.
pub fn no_drops(rt: &impl Abort, alloc: Global) -> Drops {
    made(rt, Drops::new(alloc))
}

/// Returns an element of this number, which was never taken.
pub fn element(rt: &impl Abort, alloc: Global, number: u64, drops: &Drops) -> Handle {
    made(rt, counted_node(alloc, number, 0, drops))
}

/// Returns `count` elements, whose numbers begin with `first`, which pops first.
pub fn stock(
    rt: &impl Abort,
    alloc: Global,
    (first, count): (u64, u64),
    drops: &Drops,
) -> Stack<Counted> {
    let mut stock = Stack::new();
    for number in (first..sum(first, count)).rev() {
        stock.push(element(rt, alloc, number, drops));
    }
    stock
}

/// Returns `count` elements as `stock` does.
pub fn batch(
    rt: &impl Abort,
    alloc: Global,
    first: u64,
    count: usize,
    drops: &Drops,
) -> Stack<Counted>
    ensures { length result ≡ count }
{
    let mut batch = Stack::new();
    for pushed in 0..count {
        let number = sum(first, (count - 1 - pushed) as u64);
        batch.push(element(rt, alloc, number, drops));
    }
    batch
}

/// Asserts how many drops were counted.
pub fn dropped(rt: &impl Abort, drops: &Drops, wanted: u64) {
    same(rt, drops.count(), wanted);
}

/// Asserts the numbers that a stack pops, and that it pops no more.
pub fn pops(rt: &impl Abort, stack: Stack<Counted>, wanted: &[u64]) {
    let mut left = stack;
    for wanted in wanted {
        same(rt, number(left.pop()), Some(*wanted));
    }
    same(rt, left.is_empty(), true);
}

/// Asserts that a stack pops `count` numbers, of which `first` is the first and each other one is below the one
/// before, and that it pops no more.
pub fn falls(rt: &impl Abort, stack: Stack<Counted>, first: u64, count: u64) {
    let mut left = stack;
    for popped in 0..count {
        same(rt, number(left.pop()), Some(first.wrapping_sub(popped)));
    }
    same(rt, left.is_empty(), true);
}

/// Puts these elements onto others, the first first.
pub fn put_on(stack: &mut Stack<Counted>, elements: Stack<Counted>) {
    for node in elements {
        stack.push(node);
    }
}

/// Compares the numbers of these elements, the least first, with those that are wanted, and how often each was taken.
pub fn taken(
    rt: &impl Abort,
    alloc: Global,
    elements: Stack<Counted>,
    takings: u64,
    wanted: &[u64],
) {
    let mut all = Vec::new(alloc);
    for node in elements {
        same(rt, node.get().value, takings);
        made(rt, all.push(node.id()));
    }
    made(rt, all.sort());
    same(rt, all.as_slice(), wanted);
}
