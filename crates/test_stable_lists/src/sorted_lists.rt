//! Each call of a sorted list with spots, and what it replies.
ghost use Rattle.std.specs.Prelude.{◌≡◌, ◌/◌};
ghost use Rattle.std.specs.Ordering.{nat_cmp};

use crate::compared::same;
use crate::keys::{Key, Pair, Reply};
use crate::sorted_calls::{Call, holds, insert_all, pops};
use crate::sorted_operations::agree;
use cordyceps_single::sorted_list::{Least, Order};
use cordyceps_stable::stable_sorted_list::StableSortedList;
use std::alloc::Global;
use std::cmp::Ordering;
use std::process::Abort;

/// Calls of a list that is empty at first, and what they reply. Numbers tell elements with equal keys apart.
const CALLS: &[(Call, Reply)] = &[
    (Call::Front, Reply::Nothing),
    (Call::Back, Reply::Nothing),
    (Call::PopFront, Reply::Out(None)),
    // equals by arrival
    (Call::Insert((1, 5)), Reply::At((None, Some(5), None))),
    (Call::Insert((2, 3)), Reply::At((None, Some(3), Some(5)))),
    (Call::Insert((3, 5)), Reply::At((Some(5), Some(5), None))),
    (Call::TryInsert((4, 1)), Reply::At((None, Some(1), Some(3)))),
    (Call::Insert((5, 3)), Reply::At((Some(3), Some(3), Some(5)))),
    (Call::Front, Reply::At((None, Some(1), Some(3)))),
    (Call::Back, Reply::At((Some(5), Some(5), None))),
    (Call::Read(2), Reply::At((Some(3), Some(3), Some(5)))),
    (Call::PopFront, Reply::Out(Some((4, 1)))),
    (Call::PopFront, Reply::Out(Some((2, 3)))),
    (Call::PopFront, Reply::Out(Some((5, 3)))),
    (Call::PopFront, Reply::Out(Some((1, 5)))),
    (Call::PopFront, Reply::Out(Some((3, 5)))),
    (Call::PopFront, Reply::Out(None)),
    // 2 4 6 8, of which each is removed
    (
        Call::Append(&[(1, 8), (2, 2), (3, 6), (4, 4)]),
        Reply::Nothing,
    ),
    (Call::Remove(1), Reply::Out(Some((4, 4)))),
    (Call::Remove(2), Reply::Out(Some((1, 8)))),
    (Call::Remove(0), Reply::Out(Some((2, 2)))),
    (Call::Remove(0), Reply::Out(Some((3, 6)))),
    // 2 4 4 6, of which keys are changed, and changed back
    (
        Call::Append(&[(1, 2), (2, 4), (3, 4), (4, 6)]),
        Reply::Nothing,
    ),
    (
        Call::Update(0, 4),
        Reply::Changed(2, (Some(4), Some(4), Some(6))),
    ),
    (
        Call::Update(2, 2),
        Reply::Changed(4, (None, Some(2), Some(4))),
    ),
    (
        Call::Update(1, 4),
        Reply::Changed(4, (Some(4), Some(4), Some(6))),
    ),
    (
        Call::Update(1, 4),
        Reply::Changed(4, (Some(4), Some(4), Some(6))),
    ),
    (
        Call::Update(3, 1),
        Reply::Changed(6, (None, Some(1), Some(2))),
    ),
    (
        Call::Update(0, 6),
        Reply::Changed(1, (Some(4), Some(6), None)),
    ),
    (
        Call::Update(1, 9),
        Reply::Changed(4, (Some(6), Some(9), None)),
    ),
    (Call::PopFront, Reply::Out(Some((1, 2)))),
    (Call::PopFront, Reply::Out(Some((3, 4)))),
    (Call::PopFront, Reply::Out(Some((4, 6)))),
    // the only element
    (Call::Update(0, 8), Reply::Changed(9, (None, Some(8), None))),
    (Call::Append(&[]), Reply::Nothing),
    (Call::PopFront, Reply::Out(Some((2, 8)))),
    (Call::Append(&[]), Reply::Nothing),
    // merges
    (Call::Append(&[(1, 3), (2, 4)]), Reply::Nothing),
    (Call::Append(&[(3, 1), (4, 2)]), Reply::Nothing),
    (Call::Append(&[(5, 5), (6, 6)]), Reply::Nothing),
    (Call::PopFront, Reply::Out(Some((3, 1)))),
    (Call::PopFront, Reply::Out(Some((4, 2)))),
    (Call::PopFront, Reply::Out(Some((1, 3)))),
    (Call::PopFront, Reply::Out(Some((2, 4)))),
    (Call::PopFront, Reply::Out(Some((5, 5)))),
    (Call::PopFront, Reply::Out(Some((6, 6)))),
    (Call::Append(&[(1, 5), (2, 5), (3, 7)]), Reply::Nothing),
    (Call::Append(&[(4, 5), (5, 6), (6, 5)]), Reply::Nothing),
    (Call::PopFront, Reply::Out(Some((1, 5)))),
    (Call::PopFront, Reply::Out(Some((2, 5)))),
    (Call::PopFront, Reply::Out(Some((4, 5)))),
    (Call::PopFront, Reply::Out(Some((6, 5)))),
    (Call::PopFront, Reply::Out(Some((5, 6)))),
    (Call::PopFront, Reply::Out(Some((3, 7)))),
];

#[test]
fn calls_reply(rt: HostRuntime) {
    let mut list = StableSortedList::new_min();
    let mut pairs = Vec::new(rt.alloc());
    for (call, wanted) in CALLS {
        same(
            &rt,
            agree(&rt, rt.alloc(), &mut list, &mut pairs, call),
            *wanted,
        );
    }
}

/// Compares the tens of the keys.
pub fn by_tens(first: &Key, second: &Key) -> Ordering
    ensures { result ≡ nat_cmp (first.now.value / 10) (second.now.value / 10) }
{
    (first.value / 10).cmp(&(second.value / 10))
}

/// Returns the tens of a key.
pub fn tens_of(key: &Key) -> u64
    ensures { result ≡ key.now.value / 10 }
{
    key.value / 10
}

/// Asserts the order in which a list has elements that are inserted one after the other.
fn sorts<O: Order<Key> + Drop>(
    rt: &impl Abort,
    alloc: Global,
    mut list: StableSortedList<Key, O>,
    pairs: &[Pair],
    wanted: &[Pair],
)
    requires { O.can_compare list.order }
{
    insert_all(rt, alloc, &mut list, pairs);
    holds(rt, &list, wanted);
    pops(rt, list, wanted);
}

#[test]
fn equals_come_by_arrival(rt: HostRuntime) {
    let pairs = [(1, 5), (2, 3), (3, 5), (4, 1), (5, 3)];
    let least = StableSortedList::new_with_order(Least);
    let rising = [(4, 1), (2, 3), (5, 3), (1, 5), (3, 5)];
    sorts(&rt, rt.alloc(), least, &pairs, &rising);
    let greatest = StableSortedList::new_max();
    let falling = [(1, 5), (3, 5), (2, 3), (5, 3), (4, 1)];
    sorts(&rt, rt.alloc(), greatest, &pairs, &falling);
    let tens = StableSortedList::new_with_cmp(by_tens);
    let pairs = [(1, 21), (2, 11), (3, 12), (4, 20)];
    let rising = [(2, 11), (3, 12), (1, 21), (4, 20)];
    sorts(&rt, rt.alloc(), tens, &pairs, &rising);
    let tens = StableSortedList::new_by_key(tens_of);
    sorts(&rt, rt.alloc(), tens, &pairs, &rising);
}
