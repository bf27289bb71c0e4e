//! Numbered blocks, which count their drops.
ghost use Rattle.std.specs.Prelude.{◌≡◌, length};

use crate::compared::{made, same};
use cordyceps_base::node::Node;
use freelist::{Links, Stack};
use std::alloc::{AllocError, Global};
use std::process::Abort;
use test_support::counted::{Counted, Drops, counted_node};
use test_support::nodes::number;

/// What a free list returns, and takes back.
pub type Handle = Node<Counted, Links<Counted>>;

/// Returns the sum of two numbers. No clause says so, which keeps the proofs of its callers short.
pub fn sum(number: u64, more: u64) -> u64 {
    number.wrapping_add(more)
}

/// Returns a count of no drops.
pub fn no_drops(rt: &impl Abort, alloc: Global) -> Drops {
    made(rt, Drops::new(alloc))
}

/// Returns a block of this number.
pub fn block(alloc: Global, number: u64, drops: &Drops) -> Result<Handle, AllocError> {
    counted_node(alloc, number, 0, drops)
}

/// Returns two blocks, of this number and the next.
pub fn pair(rt: &impl Abort, alloc: Global, first: u64, drops: &Drops) -> (Handle, Handle) {
    let one = made(rt, block(alloc, first, drops));
    let two = made(rt, block(alloc, sum(first, 1), drops));
    (one, two)
}

/// Returns a stack of two blocks, of which the first pops first.
pub fn two_of(first: Handle, second: Handle) -> Stack<Counted>
    ensures { length result ≡ 2 }
{
    let mut blocks = Stack::new();
    blocks.push(second);
    blocks.push(first);
    blocks
}

/// Returns blocks of the numbers from the first to the one before the end.
pub fn blocks(
    rt: &impl Abort,
    alloc: Global,
    first: u64,
    end: u64,
    drops: &Drops,
) -> Stack<Counted> {
    let mut blocks = Stack::new();
    for number in first..end {
        blocks.push(made(rt, block(alloc, number, drops)));
    }
    blocks
}

/// Asserts how many drops were counted.
pub fn dropped(rt: &impl Abort, drops: &Drops, wanted: u64) {
    same(rt, drops.count(), wanted);
}

/// Asserts the numbers that a stack pops, and that it pops no more.
pub fn pops(rt: &impl Abort, stack: Stack<Counted>, wanted: &[u64]) {
    let mut left = stack;
    for wanted in wanted {
        same(rt, number(left.pop()), Some(*wanted));
    }
    same(rt, left.is_empty(), true);
}

/// Compares the numbers of these blocks with those below an end, each of which is to be there once.
pub fn each_once(rt: &impl Abort, alloc: Global, blocks: Stack<Counted>, end: u64) {
    let mut numbers = Vec::new(alloc);
    for block in blocks {
        made(rt, numbers.push(block.id()));
    }
    made(rt, numbers.sort());
    same(rt, numbers.len() as u64, end);
    for (place, number) in numbers.iter().enumerate() {
        same(rt, *number, place as u64);
    }
}
