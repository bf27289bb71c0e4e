//! Each call of a tree, and what it replies.
ghost use Rattle.std.specs.Prelude.{◌≡◌, ◌/◌};
ghost use Rattle.std.specs.Ordering.{nat_cmp};

use crate::calls::{Call, Keys, Pair, Reply, holds, insert_all, make, parts};
use crate::compared::{at_most, same};
use crate::operations::agree;
use cordyceps_base::steps::Steps;
use cordyceps_single::sorted_list::{Least, Order};
use cordyceps_tree::stable_tree::StableTree;
use std::alloc::Global;
use std::cmp::Ordering;
use std::process::Abort;

/// Calls of a tree that is empty at first, and what they reply. Numbers tell elements with equal keys apart.
const CALLS: &[(Call, Reply)] = &[
    (Call::First, Reply::Nothing),
    (Call::Last, Reply::Nothing),
    (Call::PopFront, Reply::Out(None)),
    (Call::PopBack, Reply::Out(None)),
    (Call::Find(3), Reply::Nothing),
    // equals by arrival
    (Call::Insert((1, 5)), Reply::At((None, Some(5), None))),
    (Call::Insert((2, 3)), Reply::At((None, Some(3), Some(5)))),
    (Call::Insert((3, 5)), Reply::At((Some(5), Some(5), None))),
    (Call::TryInsert((4, 1)), Reply::At((None, Some(1), Some(3)))),
    (Call::Insert((5, 3)), Reply::At((Some(3), Some(3), Some(5)))),
    (Call::First, Reply::At((None, Some(1), Some(3)))),
    (Call::Last, Reply::At((Some(5), Some(5), None))),
    (Call::Read(2), Reply::At((Some(3), Some(3), Some(5)))),
    // 1 3 3 5 5, which are searched
    (Call::LowerBound(3), Reply::At((Some(1), Some(3), Some(3)))),
    (Call::UpperBound(3), Reply::At((Some(3), Some(5), Some(5)))),
    (Call::LowerBound(0), Reply::At((None, Some(1), Some(3)))),
    (Call::UpperBound(5), Reply::Nothing),
    (Call::LowerBound(6), Reply::Nothing),
    (Call::Find(5), Reply::At((Some(3), Some(5), Some(5)))),
    (Call::Find(4), Reply::Nothing),
    (
        Call::PartitionPoint(2),
        Reply::At((Some(1), Some(3), Some(3))),
    ),
    (Call::PartitionPoint(9), Reply::Nothing),
    // changed, and changed back
    (
        Call::Update(1, 5),
        Reply::Changed(3, (Some(5), Some(5), None)),
    ),
    (
        Call::Update(4, 0),
        Reply::Changed(5, (None, Some(0), Some(1))),
    ),
    (
        Call::Update(0, 3),
        Reply::Changed(0, (Some(3), Some(3), Some(5))),
    ),
    // replaced by one with the same key
    (Call::Replace(0, 6), Reply::Out(Some((4, 1)))),
    (Call::Replace(3, 7), Reply::Out(Some((1, 5)))),
    (Call::PopBack, Reply::Out(Some((3, 5)))),
    (Call::PopFront, Reply::Out(Some((6, 1)))),
    (Call::PopFront, Reply::Out(Some((5, 3)))),
    (Call::Remove(0), Reply::Out(Some((2, 3)))),
    (Call::Update(0, 7), Reply::Changed(5, (None, Some(7), None))),
    (Call::Clear, Reply::Nothing),
    (Call::First, Reply::Nothing),
];

#[test]
fn calls_reply(rt: HostRuntime) {
    let mut tree: Keys = StableTree::new_min();
    let mut pairs = Vec::new(rt.alloc());
    for (call, wanted) in CALLS {
        same(
            &rt,
            agree(&rt, rt.alloc(), &mut tree, &mut pairs, call),
            *wanted,
        );
    }
}

/// Compares the tens of the keys.
fn by_tens(first: &u64, second: &u64) -> Ordering
    ensures { result ≡ nat_cmp (first.now / 10) (second.now / 10) }
{
    (*first / 10).cmp(&(*second / 10))
}

/// Returns the tens of a key.
fn tens_of(key: &u64) -> u64
    ensures { result ≡ key.now / 10 }
{
    *key / 10
}

/// Asserts the order in which a tree has elements that are inserted one after the other, and pops them.
fn sorts<O: Order<u64> + Drop>(
    rt: &impl Abort,
    alloc: Global,
    mut tree: StableTree<u64, O>,
    pairs: &[Pair],
    wanted: &[Pair],
)
    requires { O.can_compare tree.order }
{
    insert_all(rt, alloc, &mut tree, pairs);
    holds(rt, &tree, wanted);
    for pair in wanted {
        same(rt, parts(tree.pop_front()), Some(*pair));
    }
    same(rt, parts(tree.pop_front()), None);
}

#[test]
fn equals_come_by_arrival(rt: HostRuntime) {
    let pairs = [(1, 5), (2, 3), (3, 5), (4, 1), (5, 3)];
    let least = StableTree::new_with_order(Least);
    let rising = [(4, 1), (2, 3), (5, 3), (1, 5), (3, 5)];
    sorts(&rt, rt.alloc(), least, &pairs, &rising);
    let greatest = StableTree::new_max();
    let falling = [(1, 5), (3, 5), (2, 3), (5, 3), (4, 1)];
    sorts(&rt, rt.alloc(), greatest, &pairs, &falling);
    let tens = StableTree::new_with_cmp(by_tens);
    let pairs = [(1, 21), (2, 11), (3, 12), (4, 20)];
    let rising = [(2, 11), (3, 12), (1, 21), (4, 20)];
    sorts(&rt, rt.alloc(), tens, &pairs, &rising);
    let tens = StableTree::new_by_key(tens_of);
    sorts(&rt, rt.alloc(), tens, &pairs, &rising);
}

#[test]
fn a_tree_is_low(rt: HostRuntime) {
    let mut tree: Keys = StableTree::new_min();
    same(&rt, tree.height(), 0);
    for key in 0..1023u64 {
        at_most(&rt, tree.len(), 1023);
        tree.insert(make(&rt, rt.alloc(), (key, key)));
    }
    // in order of arrival they make a tree whose levels are all full
    same(&rt, tree.height(), 10);
    let mut steps = Steps::new();
    at_most(&rt, tree.len(), 1023);
    tree.insert_in(make(&rt, rt.alloc(), (1023, 1023)), &mut steps);
    same(&rt, (steps.count(), tree.height()), (10, 11));
    let mut sum = 0u64;
    for (_, key) in tree.iter_from(tree.lower_bound(&1020)) {
        sum = sum.wrapping_add(*key);
    }
    same(&rt, sum, 1020 + 1021 + 1022 + 1023);
}

#[test]
fn a_node_keeps_its_number_and_its_value(rt: HostRuntime) {
    let mut node = make(&rt, rt.alloc(), (7, 8));
    same(&rt, (node.id(), *node.get()), (7, 8));
    node.set_id(9);
    *node.get_mut() = 10;
    same(&rt, (node.id(), *node.get()), (9, 10));
    same(&rt, node.into_value(), 10);
}
