//! Calls of a stable list one after the other, and what they reply.
use crate::compared::same;
use crate::keys::{FOUR, ONE, Pair, Reply, THREE, TWO};
use crate::stable_calls::{BySpot, Call};
use crate::stable_operations::agree;
use cordyceps_stable::stable_list::StableList;

/// Another element.
const NINE: Pair = (9, 90);

/// Calls of a list that is empty at first, and then has the elements 1 to 3, and what the calls reply.
const CALLS: &[(Call, Reply)] = &[
    (Call::Front, Reply::Nothing),
    (Call::Back, Reply::Nothing),
    (Call::PopFront, Reply::Out(None)),
    (Call::PopBack, Reply::Out(None)),
    (Call::PushBack(TWO), Reply::At((None, Some(20), None))),
    (Call::PushFront(ONE), Reply::At((None, Some(10), Some(20)))),
    (Call::PushBack(THREE), Reply::At((Some(20), Some(30), None))),
    (Call::Front, Reply::At((None, Some(10), Some(20)))),
    (Call::Back, Reply::At((Some(20), Some(30), None))),
    // walks forth, and back
    (
        Call::By(0, BySpot::Read),
        Reply::At((None, Some(10), Some(20))),
    ),
    (
        Call::By(1, BySpot::Read),
        Reply::At((Some(10), Some(20), Some(30))),
    ),
    (
        Call::By(2, BySpot::Read),
        Reply::At((Some(20), Some(30), None)),
    ),
    // inserts beside each element
    (
        Call::By(0, BySpot::InsertBefore(NINE)),
        Reply::At((None, Some(90), Some(10))),
    ),
    (Call::Remove(0), Reply::Out(Some(NINE))),
    (
        Call::By(1, BySpot::InsertBefore(NINE)),
        Reply::At((Some(10), Some(90), Some(20))),
    ),
    (Call::Remove(1), Reply::Out(Some(NINE))),
    (
        Call::By(2, BySpot::InsertBefore(NINE)),
        Reply::At((Some(20), Some(90), Some(30))),
    ),
    (Call::Remove(2), Reply::Out(Some(NINE))),
    (
        Call::By(0, BySpot::InsertAfter(NINE)),
        Reply::At((Some(10), Some(90), Some(20))),
    ),
    (Call::Remove(1), Reply::Out(Some(NINE))),
    (
        Call::By(1, BySpot::InsertAfter(NINE)),
        Reply::At((Some(20), Some(90), Some(30))),
    ),
    (Call::Remove(2), Reply::Out(Some(NINE))),
    (
        Call::By(2, BySpot::InsertAfter(NINE)),
        Reply::At((Some(30), Some(90), None)),
    ),
    (Call::Remove(3), Reply::Out(Some(NINE))),
    // replaces each element, and puts it back
    (Call::Replace(0, NINE), Reply::Out(Some(ONE))),
    (Call::Replace(0, ONE), Reply::Out(Some(NINE))),
    (Call::Replace(1, NINE), Reply::Out(Some(TWO))),
    (Call::Replace(1, TWO), Reply::Out(Some(NINE))),
    (Call::Replace(2, NINE), Reply::Out(Some(THREE))),
    (Call::Replace(2, THREE), Reply::Out(Some(NINE))),
    // moves each element: 1 2 3, then 2 1 3, 1 2 3, 3 1 2, and 1 2 3 again
    (
        Call::By(0, BySpot::MoveToFront),
        Reply::At((None, Some(10), Some(20))),
    ),
    (
        Call::By(1, BySpot::MoveToFront),
        Reply::At((None, Some(20), Some(10))),
    ),
    (
        Call::By(1, BySpot::MoveToFront),
        Reply::At((None, Some(10), Some(20))),
    ),
    (
        Call::By(2, BySpot::MoveToFront),
        Reply::At((None, Some(30), Some(10))),
    ),
    (
        Call::By(0, BySpot::MoveToBack),
        Reply::At((Some(20), Some(30), None)),
    ),
    // 1 3 2, then 1 2 3, and again
    (
        Call::By(1, BySpot::MoveToBack),
        Reply::At((Some(30), Some(20), None)),
    ),
    (
        Call::By(1, BySpot::MoveToBack),
        Reply::At((Some(20), Some(30), None)),
    ),
    (
        Call::By(2, BySpot::MoveToBack),
        Reply::At((Some(20), Some(30), None)),
    ),
    // moves one to after another: 2 1 3, then 2 3 1, and again
    (
        Call::By(0, BySpot::MoveAfterNext),
        Reply::At((Some(20), Some(10), Some(30))),
    ),
    (
        Call::By(1, BySpot::MoveAfterNext),
        Reply::At((Some(30), Some(10), None)),
    ),
    (
        Call::By(2, BySpot::MoveAfterNext),
        Reply::At((Some(30), Some(10), None)),
    ),
    // 9 1 2 3, and 1 2 3
    (
        Call::By(2, BySpot::MoveAfterNew(NINE)),
        Reply::At((Some(90), Some(10), Some(20))),
    ),
    (Call::Remove(0), Reply::Out(Some(NINE))),
    // writes
    (
        Call::By(0, BySpot::Write(91)),
        Reply::At((None, Some(91), Some(20))),
    ),
    (
        Call::By(1, BySpot::Write(92)),
        Reply::At((Some(91), Some(92), Some(30))),
    ),
    (
        Call::By(2, BySpot::Write(93)),
        Reply::At((Some(92), Some(93), None)),
    ),
    (Call::PopFront, Reply::Out(Some((1, 91)))),
    (Call::PopBack, Reply::Out(Some((3, 93)))),
    (Call::PopBack, Reply::Out(Some((2, 92)))),
    (Call::PopFront, Reply::Out(None)),
    (Call::PopBack, Reply::Out(None)),
    // tries
    (Call::TryPushBack(TWO), Reply::At((None, Some(20), None))),
    (
        Call::TryPushFront(ONE),
        Reply::At((None, Some(10), Some(20))),
    ),
    (
        Call::TryPushBack(THREE),
        Reply::At((Some(20), Some(30), None)),
    ),
    (Call::Remove(1), Reply::Out(Some(TWO))),
    (Call::Remove(1), Reply::Out(Some(THREE))),
    // appends to and from nothing
    (Call::Append(&[]), Reply::Nothing),
    (Call::Remove(0), Reply::Out(Some(ONE))),
    (Call::Append(&[]), Reply::Nothing),
    (
        Call::Append(&[ONE, TWO]),
        Reply::At((None, Some(10), Some(20))),
    ),
    (
        Call::Append(&[THREE, FOUR]),
        Reply::At((Some(20), Some(30), Some(40))),
    ),
    (Call::PopFront, Reply::Out(Some(ONE))),
    (Call::PopBack, Reply::Out(Some(FOUR))),
];

#[test]
fn calls_reply(rt: HostRuntime) {
    let mut list = StableList::new();
    let mut pairs = Vec::new(rt.alloc());
    for (call, wanted) in CALLS {
        same(
            &rt,
            agree(&rt, rt.alloc(), &mut list, &mut pairs, call),
            *wanted,
        );
    }
}
