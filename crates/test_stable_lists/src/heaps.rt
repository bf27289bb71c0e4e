//! Each call of a heap with spots, and what it replies.
use crate::compared::same;
use crate::heap_calls::{Call, Keys, pops, push_all};
use crate::heap_operations::agree;
use crate::keys::{Key, Pair, Reply};
use crate::sorted_lists::{by_tens, tens_of};
use cordyceps_heap::stable_heap::StableHeap;
use cordyceps_single::sorted_list::{Least, Order};
use std::alloc::Global;
use std::process::Abort;

/// Calls of a heap that is empty at first, and what they reply. Numbers tell elements with equal keys apart.
const CALLS: &[(Call, Reply)] = &[
    (Call::Front, Reply::Read(None)),
    (Call::PopFront, Reply::Out(None)),
    (Call::Sum, Reply::Sum(0, 0)),
    // equals by arrival
    (Call::Push((1, 5)), Reply::Nothing),
    (Call::Push((2, 3)), Reply::Nothing),
    (Call::Sum, Reply::Sum(2, 8)),
    (Call::TryPush((3, 5)), Reply::Nothing),
    (Call::Push((4, 1)), Reply::Nothing),
    (Call::Push((5, 3)), Reply::Nothing),
    (Call::Front, Reply::Read(Some(1))),
    (Call::Get(3), Reply::Read(Some(5))),
    (Call::Sum, Reply::Sum(5, 17)),
    (Call::PopFront, Reply::Out(Some((4, 1)))),
    (Call::Sum, Reply::Sum(4, 16)),
    (Call::PopFront, Reply::Out(Some((2, 3)))),
    (Call::PopFront, Reply::Out(Some((5, 3)))),
    (Call::PopFront, Reply::Out(Some((1, 5)))),
    (Call::PopFront, Reply::Out(Some((3, 5)))),
    (Call::PopFront, Reply::Out(None)),
    // each is removed: the first and the last of a line, one within, the only one
    (Call::Push((1, 8)), Reply::Nothing),
    (Call::Push((2, 2)), Reply::Nothing),
    (Call::Push((3, 6)), Reply::Nothing),
    (Call::Push((4, 4)), Reply::Nothing),
    (Call::Push((5, 3)), Reply::Nothing),
    (Call::Remove(4), Reply::Out(Some((4, 4)))),
    (Call::Remove(2), Reply::Out(Some((2, 2)))),
    (Call::Front, Reply::Read(Some(3))),
    (Call::Remove(5), Reply::Out(Some((5, 3)))),
    (Call::Front, Reply::Read(Some(6))),
    (Call::Remove(1), Reply::Out(Some((1, 8)))),
    (Call::Remove(3), Reply::Out(Some((3, 6)))),
    (Call::Front, Reply::Read(None)),
    // keys are changed, so that an element goes before others, among equals, and behind
    (Call::Push((1, 2)), Reply::Nothing),
    (Call::Push((2, 4)), Reply::Nothing),
    (Call::Push((3, 4)), Reply::Nothing),
    (Call::Push((4, 6)), Reply::Nothing),
    (Call::Update(1, 4), Reply::Read(Some(2))),
    (Call::Front, Reply::Read(Some(4))),
    (Call::Update(4, 4), Reply::Read(Some(6))),
    (Call::Update(3, 1), Reply::Read(Some(4))),
    (Call::Update(3, 9), Reply::Read(Some(1))),
    (Call::Get(3), Reply::Read(Some(9))),
    (Call::PopFront, Reply::Out(Some((2, 4)))),
    (Call::PopFront, Reply::Out(Some((1, 4)))),
    (Call::PopFront, Reply::Out(Some((4, 4)))),
    // the only element
    (Call::Update(3, 8), Reply::Read(Some(9))),
    (Call::Append(&[]), Reply::Nothing),
    (Call::PopFront, Reply::Out(Some((3, 8)))),
    (Call::Append(&[]), Reply::Nothing),
    // elements of another heap come after their equals
    (
        Call::Append(&[(101, 5), (102, 3), (103, 7)]),
        Reply::Nothing,
    ),
    (Call::Push((1, 5)), Reply::Nothing),
    (
        Call::Append(&[(104, 5), (105, 7), (106, 1)]),
        Reply::Nothing,
    ),
    (Call::Update(1, 7), Reply::Read(Some(5))),
    (Call::PopFront, Reply::Out(Some((106, 1)))),
    (Call::PopFront, Reply::Out(Some((102, 3)))),
    (Call::PopFront, Reply::Out(Some((101, 5)))),
    (Call::PopFront, Reply::Out(Some((104, 5)))),
    (Call::PopFront, Reply::Out(Some((103, 7)))),
    (Call::PopFront, Reply::Out(Some((105, 7)))),
    (Call::PopFront, Reply::Out(Some((1, 7)))),
    (Call::PopFront, Reply::Out(None)),
];

#[test]
fn heap_calls_reply(rt: HostRuntime) {
    let mut keys = Keys::new(rt.alloc());
    let mut pairs = Vec::new(rt.alloc());
    for (call, wanted) in CALLS {
        same(
            &rt,
            agree(&rt, rt.alloc(), &mut keys, &mut pairs, call),
            *wanted,
        );
    }
}

/// Asserts the order in which a heap pops elements that are pushed one after the other.
fn sorts<O: Order<Key> + Drop>(
    rt: &impl Abort,
    alloc: Global,
    mut heap: StableHeap<Key, O>,
    pairs: &[Pair],
    wanted: &[Pair],
)
    requires { O.can_compare heap.order }
{
    push_all(rt, alloc, &mut heap, pairs);
    same(rt, heap.len(), pairs.len());
    pops(rt, heap, wanted);
}

#[test]
fn heaps_pop_equals_by_arrival(rt: HostRuntime) {
    let pairs = [(1, 5), (2, 3), (3, 5), (4, 1), (5, 3)];
    let least = StableHeap::new_with_order(Least);
    let rising = [(4, 1), (2, 3), (5, 3), (1, 5), (3, 5)];
    sorts(&rt, rt.alloc(), least, &pairs, &rising);
    let greatest = StableHeap::new_max();
    let falling = [(1, 5), (3, 5), (2, 3), (5, 3), (4, 1)];
    sorts(&rt, rt.alloc(), greatest, &pairs, &falling);
    let tens = StableHeap::new_with_cmp(by_tens);
    let pairs = [(1, 21), (2, 11), (3, 12), (4, 20)];
    let rising = [(2, 11), (3, 12), (1, 21), (4, 20)];
    sorts(&rt, rt.alloc(), tens, &pairs, &rising);
    let tens = StableHeap::new_by_key(tens_of);
    sorts(&rt, rt.alloc(), tens, &pairs, &rising);
}
