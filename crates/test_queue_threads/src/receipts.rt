//! Receipts: a party tells another what it has seen, and who was told of an element finds it.
ghost use Rattle.std.specs.Arc.{arc_value};
ghost use Rattle.std.specs.Prelude.{◌≡◌};

use crate::compared::{at_most, made, same};
use crate::items::{Handle, element, number_of};
use crate::seats::{Shared, queue_of, shared};
use cordyceps_queue::mpsc_queue::{Consumer, MpscQueue, OwnedConsumer, Party, Receipt};
use std::alloc::Global;
use std::marker::{Brand, PhantomData};
use std::process::Abort;
use std::sync::{Arc, Mutex, Wait};
use std::thread;
use std::thread::Threads;
use test_support::counted::{Counted, Drops};

/// How many elements one thread puts in, and tells another of.
const ROUNDS: u64 = 10_000;

/// How often a thread looks for a letter, or for an empty mailbox, before it gives up.
const LOOKS: u64 = 10_000_000;

/// Which queue receipts are of that go through a lock.
trait Place {
    ghost use Rattle.atomic_table.specs.Seated.{TableId};

    ghost table: { TableId };
}

impl Place for Brand {
    ghost use Rattle.std.specs.Prelude.{[]};

    ghost table = { record {
      words = 0;
      slots = 0;
      views_name = 0;
      atom = 0;
      block = 0;
      offset = 0;
      slot_names = [];
    } };
}

/// A receipt of the queue of this place.
#[derive(Drop)]
struct Letter<P: Place> {
    receipt: Receipt<Counted>,
    place: PhantomData<P>,
    ghost here: { receipt.table ≡ P.table },
}

/// A party that puts elements in.
#[derive(Drop)]
struct Sender<'q, P: Place> {
    queue: &'q MpscQueue<Counted>,
    party: Party<Counted>,
    place: PhantomData<P>,
    ghost here: { (queue.now.table ≡ P.table) × (party.table ≡ P.table) },
}

/// A party that takes elements out.
#[derive(Drop)]
struct Receiver<'q, P: Place> {
    queue: &'q MpscQueue<Counted>,
    consumer: Consumer<'q, Counted>,
    place: PhantomData<P>,
    ghost here: { (queue.now.table ≡ P.table) × (consumer.table ≡ P.table) },
}

/// The same, as an owner of the queue.
#[derive(Drop)]
struct Owner<P: Place> {
    consumer: OwnedConsumer<Counted>,
    place: PhantomData<P>,
    ghost here: { consumer.queue.table ≡ P.table },
}

impl<'q, P: Place> Sender<'q, P> {
    /// Returns the consumer that the party becomes, where no other party dequeues.
    fn consume(self, rt: &impl Abort) -> Receiver<'q, P> {
        let Sender {
            queue,
            party,
            place: _,
        } = self;
        match queue.try_consume(party) {
            Ok(consumer) => Receiver {
                queue,
                consumer,
                place: PhantomData,
            },
            Err(_) => panic!(rt; "another party dequeues"),
        }
    }

    /// Returns the consumer that the party becomes, which owns the queue with others.
    fn consume_owned(self, rt: &impl Abort, queue: Shared) -> Owner<P>
        requires { (arc_value queue).table ≡ P.table }
    {
        match MpscQueue::try_consume_owned(queue, self.party) {
            Ok(consumer) => Owner {
                consumer,
                place: PhantomData,
            },
            Err(_) => panic!(rt; "another party dequeues"),
        }
    }

    /// Tells what the party has seen.
    fn letter(&mut self) -> Letter<P> {
        let receipt = self.queue.receipt(&mut self.party);
        Letter {
            receipt,
            place: PhantomData,
        }
    }

    /// Puts an element into a room that must be there, and tells of it.
    fn put(&mut self, rt: &impl Abort, handle: Handle) -> Letter<P> {
        at_most(rt, 1, self.party.rooms());
        self.queue.enqueue(&mut self.party, handle);
        self.letter()
    }

    /// Learns what a letter tells.
    fn learn(&mut self, letter: Letter<P>) {
        let Letter { receipt, place: _ } = letter;
        self.queue.learn(&mut self.party, receipt);
    }

    /// Tells the same as a letter.
    fn copy(&self, letter: &mut Letter<P>) -> Letter<P> {
        let receipt = self.queue.copy_receipt(&mut letter.receipt);
        Letter {
            receipt,
            place: PhantomData,
        }
    }
}

impl<'q, P: Place> Receiver<'q, P> {
    /// Gives the right to dequeue back.
    fn release(self) -> Sender<'q, P> {
        let Receiver {
            queue,
            consumer,
            place: _,
        } = self;
        Sender {
            queue,
            party: consumer.release(),
            place: PhantomData,
        }
    }

    /// Tells what the consumer has seen.
    fn letter(&mut self) -> Letter<P> {
        let receipt = self.consumer.receipt();
        Letter {
            receipt,
            place: PhantomData,
        }
    }

    /// Learns what a letter tells, and dequeues. The call may wait for an element that is not linked yet.
    fn take<R: Wait>(&mut self, rt: &R, letter: Letter<P>) -> Option<Handle> {
        let Letter { receipt, place: _ } = letter;
        self.consumer.learn(receipt);
        self.consumer.dequeue(rt)
    }
}

impl<P: Place> Owner<P> {
    /// Tells what the consumer has seen.
    fn letter(&mut self) -> Letter<P> {
        let receipt = self.consumer.receipt();
        Letter {
            receipt,
            place: PhantomData,
        }
    }

    /// Learns what a letter tells, and dequeues. The call may wait for an element that is not linked yet.
    fn take<R: Wait>(&mut self, rt: &R, letter: Letter<P>) -> Option<Handle> {
        let Letter { receipt, place: _ } = letter;
        self.consumer.learn(receipt);
        self.consumer.dequeue(rt)
    }
}

/// Returns two parties of the queue, of which the first has all rooms.
fn two_parties<'q, P: Place>(
    queue: &'q MpscQueue<Counted>,
    party: Party<Counted>,
) -> (Sender<'q, P>, Sender<'q, P>)
    requires { (queue.now.table ≡ P.table) × (party.table ≡ P.table) }
{
    let mut sender = party;
    let other = queue.split(&mut sender, 0);
    (
        Sender {
            queue,
            party: sender,
            place: PhantomData,
        },
        Sender {
            queue,
            party: other,
            place: PhantomData,
        },
    )
}

/// Tells a party of an element by a copy of a letter, and then the consumer that it becomes. Returns the party.
fn tell_a_consumer<'q, P: Place, R: Wait + Abort>(
    rt: &R,
    sender: &mut Sender<'q, P>,
    other: Sender<'q, P>,
    handle: Handle,
) -> Sender<'q, P> {
    let mut other = other;
    let mut letter = sender.put(rt, handle);
    other.learn(sender.copy(&mut letter));
    let mut receiver = other.consume(rt);
    same(rt, number_of(rt, receiver.take(rt, letter)), Some(1));
    sender.learn(receiver.letter());
    receiver.release()
}

/// Tells a consumer that owns the queue with others of an element, and of nothing more.
fn tell_an_owner<P: Place, R: Wait + Abort>(
    rt: &R,
    sender: &mut Sender<'_, P>,
    owner: Owner<P>,
    handle: Handle,
) {
    let mut owner = owner;
    let letter = sender.put(rt, handle);
    same(rt, number_of(rt, owner.take(rt, letter)), Some(2));
    let own = owner.letter();
    same(rt, number_of(rt, owner.take(rt, own)), None);
    sender.learn(owner.letter());
}

/// Lets parties and consumers of a queue tell each other what they have seen.
fn tell_in_turn<P: Place, R: Wait + Abort>(
    rt: &R,
    alloc: Global,
    queue: &Shared,
    party: Party<Counted>,
    drops: &Drops,
)
    requires { ((arc_value queue.now).table ≡ P.table) × (party.table ≡ P.table) }
{
    let (mut sender, other) = two_parties::<P>(queue, party);
    let other = tell_a_consumer(rt, &mut sender, other, element(rt, alloc, 1, drops));
    drop(sender.letter());
    let owner = other.consume_owned(rt, made(rt, Arc::try_clone(queue)));
    tell_an_owner(rt, &mut sender, owner, element(rt, alloc, 2, drops));
    same(rt, sender.party.rooms(), 0);
}

#[test]
fn a_receipt_goes_between_parties_and_consumers(rt: HostRuntime) {
    let drops = made(&rt, Drops::new(rt.alloc()));
    let (queue, party) = queue_of(&rt, rt.alloc(), None, 2);
    let queue = shared(&rt, rt.alloc(), queue);
    tell_in_turn::<Brand, _>(&rt, rt.alloc(), &queue, party, &drops);
    same(&rt, drops.count(), 2);
}

/// Where one thread leaves a letter for another.
type Mailbox<P> = Mutex<Option<Letter<P>>>;

/// Leaves a letter, once the one before was taken.
fn leave<P: Place, R: Wait + Abort>(rt: &R, mailbox: &Mailbox<P>, letter: Letter<P>) {
    for _ in 0..LOOKS {
        let mut held = mailbox.lock(rt);
        if held.is_none() {
            *held = Some(letter);
            return;
        }
        drop(held);
        thread::yield_now();
    }
    panic!(rt; "the letter before was not taken");
}

/// Takes the letter that another thread leaves.
fn take_out<P: Place, R: Wait + Abort>(rt: &R, mailbox: &Mailbox<P>) -> Letter<P> {
    for _ in 0..LOOKS {
        if let Some(letter) = mailbox.lock(rt).take() {
            return letter;
        }
        thread::yield_now();
    }
    panic!(rt; "no letter has come");
}

/// Puts elements in, and tells another thread of each.
fn put_all<P: Place, R: Wait + Abort>(
    rt: &R,
    alloc: Global,
    mailbox: &Mailbox<P>,
    sender: Sender<'_, P>,
    drops: &Drops,
) {
    let mut sender = sender;
    for number in 0..ROUNDS {
        let letter = sender.put(rt, element(rt, alloc, number, drops));
        leave(rt, mailbox, letter);
    }
}

/// Takes an element for each letter, and finds the one that it tells of.
fn take_all<P: Place, R: Wait + Abort>(rt: &R, mailbox: &Mailbox<P>, receiver: Receiver<'_, P>) {
    let mut receiver = receiver;
    for number in 0..ROUNDS {
        let letter = take_out(rt, mailbox);
        same(rt, number_of(rt, receiver.take(rt, letter)), Some(number));
    }
}

/// Lets one thread put elements in and tell another of each, which takes it.
fn tell_another<P: Place + Send + Sync, R: Threads + Wait + Abort + Sync>(
    rt: &R,
    alloc: Global,
    queue: &MpscQueue<Counted>,
    party: Party<Counted>,
    drops: &Drops,
)
    requires { (queue.now.table ≡ P.table) × (party.table ≡ P.table) }
{
    let (sender, other) = two_parties::<P>(queue, party);
    let receiver = other.consume(rt);
    let mailbox: Mailbox<P> = Mutex::new(None);
    thread::join(
        rt,
        || put_all(rt, alloc, &mailbox, sender, drops),
        || take_all(rt, &mailbox, receiver),
    );
}

#[test]
fn who_was_told_finds_each_element(rt: HostRuntime) {
    let drops = made(&rt, Drops::new(rt.alloc()));
    let (queue, party) = queue_of(&rt, rt.alloc(), None, ROUNDS as usize);
    tell_another::<Brand, _>(&rt, rt.alloc(), &queue, party, &drops);
    same(&rt, drops.count(), ROUNDS);
}
