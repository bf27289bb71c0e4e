//! Calls that may wait, of a party that is alone, and each on a thread of its own, beside one that watches it.
use crate::calls::{Call, Line, Reply};
use crate::scenes::{Scene, alone};
use crate::seats::Claim;
use cordyceps_queue::mpsc_queue::TryDequeueError;

/// How often each test's threads run.
const ROUNDS: u64 = 10;

/// Calls that may wait, of a party that is alone.
const BY_ONE_PARTY: [Line; 17] = [
    (0, Call::Put(1), Reply::Rooms(1)),
    (0, Call::Put(2), Reply::Rooms(0)),
    (0, Call::Take, Reply::Element(1)),
    (0, Call::Consume(Claim::Wait), Reply::Rooms(1)),
    (0, Call::Take, Reply::Element(2)),
    (0, Call::Take, Reply::Nothing),
    (0, Call::Release, Reply::Rooms(2)),
    (0, Call::Put(3), Reply::Rooms(1)),
    (0, Call::Consume(Claim::WaitOwned), Reply::Rooms(1)),
    (0, Call::Take, Reply::Element(3)),
    (0, Call::Take, Reply::Nothing),
    (0, Call::Release, Reply::Rooms(2)),
    (0, Call::GiveAllBackWaiting, Reply::Rooms(0)),
    (0, Call::PutWaiting(4), Reply::Rooms(1)),
    (0, Call::PutWaiting(5), Reply::Rooms(0)),
    (0, Call::Take, Reply::Element(4)),
    (0, Call::Take, Reply::Element(5)),
];

#[test]
fn calls_return_alone(rt: HostRuntime) {
    alone(&rt, rt.alloc(), 2, 5, &[&BY_ONE_PARTY]);
}

#[test]
fn enqueue_dequeue(rt: HostRuntime) {
    for first in [
        Call::Rooms,
        Call::Consume(Claim::Wait),
        Call::Consume(Claim::WaitOwned),
    ] {
        let scene = Scene {
            rooms: 1,
            elements: 1,
            before: &[&[
                (0, Call::Put(1), Reply::Rooms(0)),
                (0, Call::Split(0), Reply::Rooms(0)),
            ]],
            parts: &[
                (
                    0,
                    &[
                        (0, first, Reply::Rooms(0)),
                        (0, Call::Take, Reply::Element(1)),
                        (0, Call::Take, Reply::Nothing),
                        (0, Call::Tell, Reply::Done),
                    ],
                ),
                (1, &[(0, Call::Await(1), Reply::Done)]),
            ],
            after: &[],
        };
        scene.play(&rt, rt.alloc(), ROUNDS);
    }
}

#[test]
fn a_consumer_is_sent_to_a_thread(rt: HostRuntime) {
    for claim in [Claim::Try, Claim::TryOwned] {
        let scene = Scene {
            rooms: 2,
            elements: 2,
            before: &[&[
                (0, Call::Put(1), Reply::Rooms(1)),
                (0, Call::Put(2), Reply::Rooms(0)),
                (0, Call::Split(0), Reply::Rooms(0)),
                (0, Call::Split(0), Reply::Rooms(0)),
                (0, Call::Consume(claim), Reply::Rooms(0)),
                (1, Call::Try, Reply::Fails(TryDequeueError::Busy)),
            ]],
            parts: &[
                (
                    0,
                    &[
                        (0, Call::Take, Reply::Element(1)),
                        (0, Call::Take, Reply::Element(2)),
                        (0, Call::Take, Reply::Nothing),
                        (0, Call::Leave, Reply::Done),
                        (0, Call::Tell, Reply::Done),
                    ],
                ),
                (2, &[(0, Call::Await(1), Reply::Done)]),
            ],
            after: &[(1, Call::Try, Reply::Fails(TryDequeueError::Empty))],
        };
        scene.play(&rt, rt.alloc(), ROUNDS);
    }
}

/// An element is held, and two parties are split off.
const ONE_HELD: [Line; 3] = [
    (0, Call::Put(1), Reply::Rooms(0)),
    (0, Call::Split(0), Reply::Rooms(0)),
    (0, Call::Split(0), Reply::Rooms(0)),
];

const TELL: Line = (0, Call::Tell, Reply::Done);

#[test]
fn calls_wait_for_a_release(rt: HostRuntime) {
    let element = (Call::Try, Reply::Element(1));
    let empty = (Call::Try, Reply::Fails(TryDequeueError::Empty));
    let right = Reply::Rooms(0);
    let release = (Call::Release, right);
    let leave = (Call::Leave, Reply::Done);
    for (wait, next, claim, end) in [
        ((Call::Take, element.1), empty, Claim::Try, release),
        (
            (Call::Consume(Claim::Wait), right),
            element,
            Claim::Try,
            release,
        ),
        (
            (Call::Consume(Claim::WaitOwned), right),
            element,
            Claim::TryOwned,
            leave,
        ),
    ] {
        let holds = [
            (0, Call::Await(1), Reply::Done),
            (0, Call::Stays(1), Reply::Done),
            (0, end.0, end.1),
            (0, Call::Await(2), Reply::Done),
        ];
        let waits = [TELL, (0, wait.0, wait.1), TELL, (0, next.0, next.1)];
        let scene = Scene {
            rooms: 1,
            elements: 1,
            before: &[&ONE_HELD, &[(1, Call::Consume(claim), right)]],
            parts: &[(1, &holds), (2, &waits)],
            after: &[],
        };
        scene.play(&rt, rt.alloc(), ROUNDS);
    }
}

#[test]
fn an_enqueue_waits_for_a_room(rt: HostRuntime) {
    let frees = [
        (0, Call::Await(1), Reply::Done),
        (0, Call::Stays(1), Reply::Done),
        (0, Call::Try, Reply::Element(1)),
        (0, Call::GiveAllBackWaiting, Reply::Rooms(0)),
        (0, Call::Await(2), Reply::Done),
    ];
    let waits = [TELL, (0, Call::PutWaiting(2), Reply::Rooms(0)), TELL];
    let scene = Scene {
        rooms: 1,
        elements: 2,
        before: &[&ONE_HELD],
        parts: &[(1, &frees), (2, &waits)],
        after: &[(0, Call::Try, Reply::Element(2))],
    };
    scene.play(&rt, rt.alloc(), ROUNDS);
}
