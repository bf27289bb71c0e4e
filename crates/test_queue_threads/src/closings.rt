//! Queues that are closed by their whole party.
ghost use Rattle.std.specs.Prelude.{◌≡◌};
ghost use Rattle.cordyceps_shared.specs.Shares.{whole};

use crate::calls::{Reply, tried};
use crate::compared::{at_most, made, same};
use crate::items::{Handle, element, elements, number_of, numbers};
use crate::seats::queue_of;
use cordyceps_queue::mpsc_queue::{Closed, MpscQueue, Party, TryDequeueError};
use std::alloc::Global;
use std::process::Abort;
use test_support::counted::{Counted, Drops};

/// A queue with its whole party, which has absorbed each other party.
#[derive(Drop)]
pub struct Whole {
    pub queue: MpscQueue<Counted>,
    pub party: Party<Counted>,
    ghost whole: { (party.table ≡ queue.table) × (party.share ≡ whole) },
}

/// What the whole party does, or another, which it then absorbs.
#[derive(Clone, Copy)]
enum Step {
    /// Enqueues an element of this number.
    Put(u64),
    /// Has another party do so, which gets this many rooms.
    PutByOther(u64, usize),
    /// Tries once to dequeue.
    Try,
    /// Has another party do so, which has no room before.
    TryByOther,
    /// Tells how many rooms the party has.
    Rooms,
}

impl Whole {
    /// Returns a new queue, with this stub if any.
    fn new(rt: &impl Abort, alloc: Global, stub: Option<Handle>, rooms: usize) -> Whole {
        let (queue, party) = queue_of(rt, alloc, stub, rooms);
        Whole { queue, party }
    }

    /// Returns a queue of three rooms with the stub 7, which holds the elements 1, 2 and 3.
    pub fn three_held(rt: &impl Abort, alloc: Global, drops: &Drops) -> Whole {
        let mut whole = Whole::new(rt, alloc, Some(element(rt, alloc, 7, drops)), 3);
        for node in elements(rt, alloc, 1, 3, drops) {
            whole.put(rt, node);
        }
        whole
    }

    /// Closes the queue.
    pub fn close(self) -> Closed<Counted> {
        let Whole { queue, party } = self;
        queue.close(party)
    }

    /// Enqueues an element into a room that must be there.
    fn put(&mut self, rt: &impl Abort, handle: Handle) {
        at_most(rt, 1, self.party.rooms());
        self.queue.enqueue(&mut self.party, handle);
    }

    /// Has another party do so, which gets this many rooms.
    fn put_by_other(&mut self, rt: &impl Abort, handle: Handle, rooms: usize) {
        at_most(rt, 1, rooms);
        at_most(rt, rooms, self.party.rooms());
        let mut other = self.queue.split(&mut self.party, rooms);
        self.queue.enqueue(&mut other, handle);
        self.queue.absorb(&mut self.party, other);
    }

    /// Has another party try once to dequeue, which has no room before.
    fn try_by_other(&mut self) -> Result<Handle, TryDequeueError> {
        let mut other = self.queue.split(&mut self.party, 0);
        let tried = self.queue.try_dequeue(&mut other);
        self.queue.absorb(&mut self.party, other);
        tried
    }

    /// Takes a step, and returns what it replies.
    fn step(&mut self, rt: &impl Abort, alloc: Global, drops: &Drops, step: Step) -> Reply {
        match step {
            Step::Put(number) => self.put(rt, element(rt, alloc, number, drops)),
            Step::PutByOther(number, rooms) => {
                self.put_by_other(rt, element(rt, alloc, number, drops), rooms);
            }
            Step::Try => return tried(rt, self.queue.try_dequeue(&mut self.party)),
            Step::TryByOther => return tried(rt, self.try_by_other()),
            Step::Rooms => {}
        }
        Reply::Rooms(self.party.rooms())
    }
}

/// Takes these steps on a queue with this many rooms, and the stub 7 or none, and closes it. Compares what the steps
/// reply, the number of the first element that the queue still held and how many, and the stub.
fn closes(
    rt: &impl Abort,
    alloc: Global,
    (rooms, stub): (usize, Option<u64>),
    steps: &[(Step, Reply)],
    held: (u64, usize),
) {
    let drops = made(rt, Drops::new(alloc));
    let node = match stub {
        Some(number) => Some(element(rt, alloc, number, &drops)),
        None => None,
    };
    let mut whole = Whole::new(rt, alloc, node, rooms);
    for (step, wanted) in steps {
        let came = whole.step(rt, alloc, &drops, *step);
        same(rt, came, *wanted);
    }
    let Closed {
        elements,
        stub: back,
    } = whole.close();
    same(rt, numbers(rt, elements), held);
    same(rt, number_of(rt, back), stub);
}

const EMPTY: Reply = Reply::Fails(TryDequeueError::Empty);

/// Steps on a queue without rooms, which stays empty.
const WITHOUT_ROOMS: [(Step, Reply); 3] = [
    (Step::TryByOther, EMPTY),
    (Step::Try, EMPTY),
    (Step::Rooms, Reply::Rooms(0)),
];

/// Steps after which the elements 2 and 3 are held.
const TWO_ROOMS: [(Step, Reply); 4] = [
    (Step::Put(1), Reply::Rooms(1)),
    (Step::Put(2), Reply::Rooms(0)),
    (Step::Try, Reply::Element(1)),
    (Step::Put(3), Reply::Rooms(0)),
];

/// Steps after which the element 3 is held.
const FIVE_ROOMS: [(Step, Reply); 6] = [
    (Step::PutByOther(1, 2), Reply::Rooms(4)),
    (Step::Put(2), Reply::Rooms(3)),
    (Step::Try, Reply::Element(1)),
    (Step::PutByOther(3, 4), Reply::Rooms(3)),
    (Step::TryByOther, Reply::Element(2)),
    (Step::Rooms, Reply::Rooms(4)),
];

#[test]
fn a_close_returns_what_is_held(rt: HostRuntime) {
    for stub in [None, Some(7u64)] {
        closes(&rt, rt.alloc(), (0, stub), &WITHOUT_ROOMS, (0, 0));
        closes(&rt, rt.alloc(), (2, stub), &TWO_ROOMS, (2, 2));
        closes(&rt, rt.alloc(), (5, stub), &FIVE_ROOMS, (3, 1));
    }
}
