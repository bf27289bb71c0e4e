//! Parties at their queue, and the consumers that they become.
ghost use Rattle.std.specs.Arc.{arc_value};
ghost use Rattle.std.specs.Prelude.{◌≡◌};
ghost use Rattle.cordyceps_shared.specs.Standings.{new_party};

use crate::compared::{at_most, made};
use crate::items::Handle;
use cordyceps_queue::mpsc_queue::{
    Batch, Consumer, MAX_ROOMS, MpscQueue, OwnedConsumer, Party, TryDequeueError,
};
use std::alloc::{AllocFailed, Global};
use std::process::Abort;
use std::sync::{Arc, Wait};
use test_support::counted::Counted;

/// A queue that has several owners.
pub type Shared = Arc<MpscQueue<Counted>, Global>;

/// By which call a party takes the right to dequeue.
#[derive(Clone, Copy)]
pub enum Claim {
    Try,
    Wait,
    TryOwned,
    WaitOwned,
}

/// A party at its queue.
#[derive(Drop)]
pub struct Seated<'q> {
    queue: &'q Shared,
    party: Party<Counted>,
    ghost seated: { party.table ≡ (arc_value queue.now).table },
}

/// A consumer of its queue.
#[derive(Drop)]
pub struct Consuming<'q> {
    queue: &'q Shared,
    consumer: Consumer<'q, Counted>,
    ghost seated: { consumer.table ≡ (arc_value queue.now).table },
}

/// A consumer that owns its queue with others.
#[derive(Drop)]
pub struct Owning<'q> {
    queue: &'q Shared,
    consumer: OwnedConsumer<Counted>,
    ghost seated: { consumer.queue ≡ arc_value queue.now },
}

/// A party, or what it has become.
#[derive(Drop)]
pub enum Seat<'q> {
    Party(Seated<'q>),
    Consumer(Consuming<'q>),
    Owned(Owning<'q>),
    Left,
}

/// Returns a new queue, with this stub if any, and its whole party.
pub fn queue_of(
    rt: &impl Abort,
    alloc: Global,
    stub: Option<Handle>,
    rooms: usize,
) -> (MpscQueue<Counted>, Party<Counted>)
    ensures { result.1 ≡ new_party result.0.table rooms }
{
    at_most(rt, rooms, MAX_ROOMS);
    let Some(stub) = stub else {
        return made(rt, MpscQueue::new(alloc, rooms));
    };
    match MpscQueue::new_with_stub(alloc, stub, rooms) {
        Ok(both) => both,
        Err(_) => panic!(rt; "memory was refused"),
    }
}

/// Returns a queue that can have several owners.
pub fn shared(rt: &impl Abort, alloc: Global, queue: MpscQueue<Counted>) -> Shared
    ensures { arc_value result ≡ queue }
{
    match Arc::new(alloc, queue) {
        Ok(shared) => shared,
        Err(AllocFailed { value: _ }) => panic!(rt; "memory was refused"),
    }
}

impl<'q> Seated<'q> {
    /// Returns the consumer that this party becomes, or the party where another has the right.
    fn consume<R: Wait>(self, rt: &R, waits: bool) -> Seat<'q> {
        let Seated { queue, party } = self;
        if waits {
            let consumer = queue.consume(rt, party);
            return Seat::Consumer(Consuming { queue, consumer });
        }
        match queue.try_consume(party) {
            Ok(consumer) => Seat::Consumer(Consuming { queue, consumer }),
            Err(party) => Seat::Party(Seated { queue, party }),
        }
    }

    /// The same with a consumer that owns the queue with others.
    fn consume_owned<R: Wait + Abort>(self, rt: &R, waits: bool) -> Seat<'q> {
        let Seated { queue, party } = self;
        let share = made(rt, Arc::try_clone(queue));
        if waits {
            let consumer = MpscQueue::consume_owned(rt, share, party);
            return Seat::Owned(Owning { queue, consumer });
        }
        match MpscQueue::try_consume_owned(share, party) {
            Ok(consumer) => Seat::Owned(Owning { queue, consumer }),
            Err((_, party)) => Seat::Party(Seated { queue, party }),
        }
    }
}

impl<'q> Seat<'q> {
    /// Returns a party of this queue.
    pub fn new(queue: &'q Shared, party: Party<Counted>) -> Seat<'q>
        requires { party.table ≡ (arc_value queue.now).table }
    {
        Seat::Party(Seated { queue, party })
    }

    /// Returns how many rooms the party has.
    pub fn rooms(&self, rt: &impl Abort) -> usize {
        match self {
            Seat::Party(it) => it.party.rooms(),
            Seat::Consumer(it) => it.consumer.rooms(),
            Seat::Owned(it) => it.consumer.rooms(),
            Seat::Left => panic!(rt; "the party has left"),
        }
    }

    /// Gives some of the rooms, which must be there, to a new party.
    pub fn split(&mut self, rt: &impl Abort, rooms: usize) -> Seat<'q> {
        let Seat::Party(it) = self else {
            panic!(rt; "only a party is split");
        };
        at_most(rt, rooms, it.party.rooms());
        let party = it.queue.split(&mut it.party, rooms);
        Seat::new(it.queue, party)
    }

    /// Enqueues an element into a room that must be there.
    pub fn put(&mut self, rt: &impl Abort, handle: Handle) {
        let Seat::Party(it) = self else {
            panic!(rt; "only a party enqueues");
        };
        at_most(rt, 1, it.party.rooms());
        it.queue.enqueue(&mut it.party, handle);
    }

    /// Enqueues an element into a room that is the party's or in the pool, and returns it if there is none.
    pub fn try_put(&mut self, rt: &impl Abort, handle: Handle) -> Result<(), Handle> {
        let Seat::Party(it) = self else {
            panic!(rt; "only a party enqueues");
        };
        it.queue.try_enqueue(&mut it.party, handle)
    }

    /// Enqueues an element by a call that may wait for a room.
    pub fn put_waiting<R: Wait + Abort>(&mut self, rt: &R, handle: Handle) {
        let Seat::Party(it) = self else {
            panic!(rt; "only a party enqueues");
        };
        it.queue.enqueue_waiting(rt, &mut it.party, handle);
    }

    /// Takes the rooms of the pool, and returns how many they are.
    pub fn refill(&mut self, rt: &impl Abort) -> usize {
        let Seat::Party(it) = self else {
            panic!(rt; "only a party takes the rooms of the pool");
        };
        it.queue.refill(&mut it.party)
    }

    /// Takes at most this many rooms of the pool, and returns how many they are.
    pub fn refill_at_most(&mut self, rt: &impl Abort, most: usize) -> usize {
        let Seat::Party(it) = self else {
            panic!(rt; "only a party takes the rooms of the pool");
        };
        it.queue.refill_at_most(&mut it.party, most)
    }

    /// Gives some of the rooms, which must be there, to the pool, and returns whether it has taken them.
    pub fn give_back(&mut self, rt: &impl Abort, rooms: usize) -> bool {
        match self {
            Seat::Party(it) => {
                at_most(rt, rooms, it.party.rooms());
                it.queue.give_back(&mut it.party, rooms)
            }
            Seat::Consumer(it) => {
                at_most(rt, rooms, it.consumer.rooms());
                it.consumer.give_back(rooms)
            }
            Seat::Owned(it) => {
                at_most(rt, rooms, it.consumer.rooms());
                it.consumer.give_back(rooms)
            }
            Seat::Left => panic!(rt; "the party has left"),
        }
    }

    /// Gives all rooms to the pool, with those that are there, and returns whether it has taken them.
    pub fn give_all_back(&mut self, rt: &impl Abort) -> bool {
        let Seat::Party(it) = self else {
            panic!(rt; "only a party gives all rooms back");
        };
        it.queue.give_all_back(&mut it.party)
    }

    /// Gives all rooms to the pool, with those that are there, by a call that may wait.
    pub fn give_all_back_waiting<R: Wait + Abort>(&mut self, rt: &R) {
        let Seat::Party(it) = self else {
            panic!(rt; "only a party gives all rooms back");
        };
        it.queue.give_all_back_waiting(rt, &mut it.party);
    }

    /// Tries once to dequeue an element.
    pub fn try_take(&mut self, rt: &impl Abort) -> Result<Handle, TryDequeueError> {
        match self {
            Seat::Party(it) => it.queue.try_dequeue(&mut it.party),
            Seat::Consumer(it) => it.consumer.try_dequeue(),
            Seat::Owned(it) => it.consumer.try_dequeue(),
            Seat::Left => panic!(rt; "the party has left"),
        }
    }

    /// Dequeues an element by a call that may wait.
    pub fn take<R: Wait + Abort>(&mut self, rt: &R) -> Option<Handle> {
        match self {
            Seat::Party(it) => it.queue.dequeue(rt, &mut it.party),
            Seat::Consumer(it) => it.consumer.dequeue(rt),
            Seat::Owned(it) => it.consumer.dequeue(rt),
            Seat::Left => panic!(rt; "the party has left"),
        }
    }

    /// Takes a batch of at most this many elements, and of one at least.
    pub fn take_linked(
        &mut self,
        rt: &impl Abort,
        most: usize,
    ) -> Result<Batch<Counted>, TryDequeueError> {
        at_most(rt, 1, most);
        match self {
            Seat::Consumer(it) => it.consumer.take_linked(most),
            Seat::Owned(it) => it.consumer.take_linked(most),
            _ => panic!(rt; "only a consumer takes batches"),
        }
    }

    /// Takes the right to dequeue, if another party does not have it.
    pub fn consume<R: Wait + Abort>(self, rt: &R, claim: Claim) -> Seat<'q> {
        let Seat::Party(party) = self else {
            panic!(rt; "only a party takes the right");
        };
        match claim {
            Claim::Try => party.consume(rt, false),
            Claim::Wait => party.consume(rt, true),
            Claim::TryOwned => party.consume_owned(rt, false),
            Claim::WaitOwned => party.consume_owned(rt, true),
        }
    }

    /// Gives the right to dequeue back.
    pub fn release(self, rt: &impl Abort) -> Seat<'q> {
        match self {
            Seat::Consumer(Consuming { queue, consumer }) => Seat::new(queue, consumer.release()),
            Seat::Owned(Owning { queue, consumer }) => Seat::new(queue, consumer.release().1),
            _ => panic!(rt; "only a consumer has the right"),
        }
    }
}
