//! Calls of a queue's parties, one after the other.
use crate::calls::{Call, Line, Reply};
use crate::compared::same;
use crate::scenes::alone;
use crate::seats::Claim;
use cordyceps_queue::mpsc_queue::TryDequeueError;

const BUSY: Reply = Reply::Fails(TryDequeueError::Busy);

const EMPTY: Reply = Reply::Fails(TryDequeueError::Empty);

#[test]
fn errors_have_the_numbers_1_to_3(rt: HostRuntime) {
    let numbers = [
        TryDequeueError::Empty as usize,
        TryDequeueError::Inconsistent as usize,
        TryDequeueError::Busy as usize,
    ];
    same(&rt, numbers, [1, 2, 3]);
}

/// An element's own party takes it.
const ONE_PARTY: [Line; 6] = [
    (0, Call::Rooms, Reply::Rooms(1)),
    (0, Call::Put(1), Reply::Rooms(0)),
    (0, Call::Drops, Reply::Drops(0)),
    (0, Call::Try, Reply::Element(1)),
    (0, Call::Drops, Reply::Drops(1)),
    (0, Call::Try, EMPTY),
];

/// Two elements are held, in two of three rooms.
const TWO_HELD: [Line; 2] = [
    (0, Call::Put(1), Reply::Rooms(2)),
    (0, Call::Put(2), Reply::Rooms(1)),
];

/// Three more go through the rooms, which are all in use again and again. The numbers of what is held are as before.
const THREE_TURNS: [Line; 6] = [
    (0, Call::Put(3), Reply::Rooms(0)),
    (0, Call::Try, Reply::Element(1)),
    (0, Call::Put(1), Reply::Rooms(0)),
    (0, Call::Try, Reply::Element(2)),
    (0, Call::Put(2), Reply::Rooms(0)),
    (0, Call::Try, Reply::Element(3)),
];

/// The two that are held come out.
const TWO_LEFT: [Line; 4] = [
    (0, Call::Try, Reply::Element(1)),
    (0, Call::Try, Reply::Element(2)),
    (0, Call::Try, EMPTY),
    (0, Call::Rooms, Reply::Rooms(3)),
];

/// A party is dropped with a room and after it has enqueued, and the others get all that is held.
const A_DROPPED_PARTY: [Line; 14] = [
    (0, Call::Split(2), Reply::Rooms(2)),
    (1, Call::Put(1), Reply::Rooms(1)),
    (1, Call::Leave, Reply::Done),
    (0, Call::Split(0), Reply::Rooms(2)),
    (0, Call::Put(2), Reply::Rooms(1)),
    (2, Call::Try, Reply::Element(1)),
    (0, Call::Put(3), Reply::Rooms(0)),
    (0, Call::Try, Reply::Element(2)),
    (2, Call::Try, Reply::Element(3)),
    (0, Call::Try, EMPTY),
    (0, Call::Rooms, Reply::Rooms(1)),
    (2, Call::Rooms, Reply::Rooms(2)),
    (0, Call::Drops, Reply::Drops(3)),
    (2, Call::Leave, Reply::Done),
];

/// A consumer that was forgotten keeps the right. The queue takes elements, and returns none.
const A_FORGOTTEN_CONSUMER: [Line; 11] = [
    (0, Call::Put(1), Reply::Rooms(2)),
    (0, Call::Put(2), Reply::Rooms(1)),
    (0, Call::Split(0), Reply::Rooms(1)),
    (1, Call::Consume(Claim::Try), Reply::Rooms(0)),
    (1, Call::Try, Reply::Element(1)),
    (1, Call::Forget, Reply::Done),
    (0, Call::Try, BUSY),
    (0, Call::Consume(Claim::Try), BUSY),
    (0, Call::Put(3), Reply::Rooms(0)),
    (0, Call::Try, BUSY),
    (0, Call::Drops, Reply::Drops(1)),
];

#[test]
fn parties_come_and_go(rt: HostRuntime) {
    alone(&rt, rt.alloc(), 1, 1, &[&ONE_PARTY]);
    alone(&rt, rt.alloc(), 4, 3, &[&A_DROPPED_PARTY]);
    alone(&rt, rt.alloc(), 3, 3, &[&A_FORGOTTEN_CONSUMER]);
    let mut tables = [THREE_TURNS.as_slice(); 9];
    tables[0] = &TWO_HELD;
    tables[8] = &TWO_LEFT;
    alone(&rt, rt.alloc(), 3, 23, &tables);
}

/// A consumer keeps another party out, which also tries to become one, until it is released.
const KEEPS_OUT: [Line; 12] = [
    (1, Call::Try, EMPTY),
    (0, Call::Put(1), Reply::Rooms(1)),
    (0, Call::Try, BUSY),
    (0, Call::Consume(Claim::Try), BUSY),
    (0, Call::Consume(Claim::TryOwned), BUSY),
    (0, Call::Rooms, Reply::Rooms(1)),
    (1, Call::Try, Reply::Element(1)),
    (0, Call::Try, BUSY),
    (1, Call::Try, EMPTY),
    (1, Call::Release, Reply::Rooms(1)),
    (0, Call::Try, EMPTY),
    (1, Call::Try, EMPTY),
];

#[test]
fn a_consumer_keeps_others_out(rt: HostRuntime) {
    for (claim, other) in [(Claim::Try, Claim::TryOwned), (Claim::TryOwned, Claim::Try)] {
        let first = [
            (0, Call::Split(0), Reply::Rooms(2)),
            (1, Call::Consume(claim), Reply::Rooms(0)),
        ];
        let then = [
            (0, Call::Consume(other), Reply::Rooms(1)),
            (1, Call::Try, BUSY),
            (0, Call::Release, Reply::Rooms(1)),
            (1, Call::Consume(claim), Reply::Rooms(1)),
            (0, Call::Try, BUSY),
            (1, Call::Leave, Reply::Done),
            (0, Call::Try, EMPTY),
        ];
        alone(&rt, rt.alloc(), 2, 1, &[&first, &KEEPS_OUT, &then]);
    }
}

/// Enqueues three elements, and splits a party off.
const THREE_HELD: [Line; 4] = [
    (0, Call::Put(1), Reply::Rooms(2)),
    (0, Call::Put(2), Reply::Rooms(1)),
    (0, Call::Put(3), Reply::Rooms(0)),
    (0, Call::Split(0), Reply::Rooms(0)),
];

/// Takes the three by the party that was split off.
const TAKEN: [Line; 3] = [
    (1, Call::Try, Reply::Element(1)),
    (1, Call::Try, Reply::Element(2)),
    (1, Call::Try, Reply::Element(3)),
];

/// Takes them by the other.
const LEFT: [Line; 3] = [
    (0, Call::Try, Reply::Element(1)),
    (0, Call::Try, Reply::Element(2)),
    (0, Call::Try, Reply::Element(3)),
];

#[test]
fn a_dropped_consumer_leaves_what_is_held(rt: HostRuntime) {
    for claim in [Claim::Try, Claim::TryOwned] {
        for taken in 0..4 {
            let consume = [(1, Call::Consume(claim), Reply::Rooms(0))];
            let leave = [
                (1, Call::Leave, Reply::Done),
                (0, Call::Drops, Reply::Drops(taken as u64)),
            ];
            let empty = [(0, Call::Try, EMPTY)];
            alone(
                &rt,
                rt.alloc(),
                3,
                3,
                &[
                    &THREE_HELD,
                    &consume,
                    &TAKEN[..taken],
                    &leave,
                    &LEFT[taken..],
                    &empty,
                ],
            );
        }
    }
}

/// Takes all that is held at once, and then finds nothing.
const ALL_AT_ONCE: [Line; 4] = [
    (1, Call::Batch(9), Reply::Elements(1, 3)),
    (1, Call::Rooms, Reply::Rooms(3)),
    (1, Call::Batch(9), EMPTY),
    (1, Call::Drops, Reply::Drops(3)),
];

/// Takes no more than is asked for, and then what is left.
const TWO_AT_ONCE: [Line; 3] = [
    (1, Call::Batch(2), Reply::Elements(1, 2)),
    (1, Call::Batch(2), Reply::Elements(3, 1)),
    (1, Call::Batch(2), EMPTY),
];

/// Takes a batch of two, and drops it with one of them left.
const ONE_OF_TWO: [Line; 3] = [
    (1, Call::FirstOf(2), Reply::Element(1)),
    (1, Call::Drops, Reply::Drops(2)),
    (1, Call::Rooms, Reply::Rooms(2)),
];

/// Two parties enqueue, and a third splits off.
const BY_TWO_PARTIES: [Line; 5] = [
    (0, Call::Split(0), Reply::Rooms(3)),
    (0, Call::Split(2), Reply::Rooms(1)),
    (2, Call::Put(1), Reply::Rooms(1)),
    (2, Call::Put(2), Reply::Rooms(0)),
    (0, Call::Put(3), Reply::Rooms(0)),
];

#[test]
fn a_consumer_takes_batches(rt: HostRuntime) {
    for claim in [Claim::Try, Claim::TryOwned] {
        let consume = [(1, Call::Consume(claim), Reply::Rooms(0))];
        alone(
            &rt,
            rt.alloc(),
            3,
            3,
            &[&THREE_HELD, &consume, &ALL_AT_ONCE],
        );
        alone(
            &rt,
            rt.alloc(),
            3,
            3,
            &[&THREE_HELD, &consume, &TWO_AT_ONCE],
        );
        alone(&rt, rt.alloc(), 3, 3, &[&THREE_HELD, &consume, &ONE_OF_TWO]);
        alone(
            &rt,
            rt.alloc(),
            3,
            3,
            &[&BY_TWO_PARTIES, &consume, &ALL_AT_ONCE],
        );
    }
}
