//! A queue of as many rooms as it can have.
use crate::calls::{Call, Line, Reply};
use crate::scenes::alone;
use crate::seats::Claim;
use cordyceps_queue::mpsc_queue::{MAX_ROOMS, TryDequeueError};

/// The rooms are split between three parties, each of which enqueues, and one of which takes all elements at once.
const CALLS: [Line; 9] = [
    (0, Call::Split(349_525), Reply::Rooms(699_051)),
    (0, Call::Split(349_525), Reply::Rooms(349_526)),
    (1, Call::PutMany(0, 4_000), Reply::Rooms(345_525)),
    (2, Call::PutMany(4_000, 4_000), Reply::Rooms(345_525)),
    (0, Call::PutMany(8_000, 4_000), Reply::Rooms(345_526)),
    (2, Call::Consume(Claim::Try), Reply::Rooms(345_525)),
    (2, Call::Batch(MAX_ROOMS), Reply::Elements(0, 12_000)),
    (2, Call::Try, Reply::Fails(TryDequeueError::Empty)),
    (2, Call::Rooms, Reply::Rooms(357_525)),
];

#[test]
fn many_rooms_hold_elements(rt: HostRuntime) {
    alone(&rt, rt.alloc(), MAX_ROOMS, 12_000, &[&CALLS]);
}

/// All rooms go to the pool and come back at once, by each call that asks for them; an enqueue takes 64.
const COME_BACK: [Line; 10] = [
    (0, Call::GiveBack(MAX_ROOMS), Reply::Gave(true, 0)),
    (0, Call::Refill, Reply::Refilled(MAX_ROOMS, MAX_ROOMS)),
    (0, Call::GiveBack(MAX_ROOMS), Reply::Gave(true, 0)),
    (
        0,
        Call::RefillAtMost(MAX_ROOMS),
        Reply::Refilled(MAX_ROOMS, MAX_ROOMS),
    ),
    (0, Call::GiveBack(MAX_ROOMS), Reply::Gave(true, 0)),
    (0, Call::TryPut(0), Reply::Rooms(63)),
    (0, Call::Refill, Reply::Refilled(1_048_512, 1_048_575)),
    (0, Call::Try, Reply::Element(0)),
    (0, Call::Rooms, Reply::Rooms(MAX_ROOMS)),
    (0, Call::GiveBack(MAX_ROOMS), Reply::Gave(true, 0)),
];

#[test]
fn many_rooms_come_back_at_once(rt: HostRuntime) {
    alone(&rt, rt.alloc(), MAX_ROOMS, 1, &[&COME_BACK]);
}
