//! Receipts: a party tells another what it has seen, and who was told of an element takes it.
ghost use Rattle.std.specs.Prelude.{◌≡◌};

use crate::compared::same;
use crate::items::{Handle, dropped, element, no_drops, pops, sum};
use crate::seats::{has_room, have_rooms, new_stack};
use cordyceps_stack::stack::{Inbox, Party, Receipt, Stack, TransferStack};
use std::alloc::Global;
use std::marker::{Brand, PhantomData};
use std::process::Abort;
use std::sync::{Mutex, Wait};
use std::thread;
use std::thread::Threads;
use test_support::counted::{Counted, Drops};
use test_support::nodes::number;

/// How many elements one thread pushes, and tells another of.
const ROUNDS: u64 = 10_000;

/// How often a thread looks for a letter, or for an empty mailbox, before it gives up.
const LOOKS: u64 = 10_000_000;

/// Which stack receipts are of that go through a lock.
trait Place {
    ghost use Rattle.atomic_table.specs.Seated.{TableId};

    ghost table: { TableId };
}

impl Place for Brand {
    ghost use Rattle.std.specs.Prelude.{[]};

    ghost table = { record {
      words = 0;
      slots = 0;
      views_name = 0;
      atom = 0;
      block = 0;
      offset = 0;
      slot_names = [];
    } };
}

/// A receipt of the stack of this place.
#[derive(Drop)]
struct Letter<P: Place> {
    receipt: Receipt<Counted>,
    place: PhantomData<P>,
    ghost here: { receipt.table ≡ P.table },
}

/// A party at the stack of this place.
#[derive(Drop)]
struct Teller<'s, P: Place> {
    stack: &'s TransferStack<Counted>,
    party: Party<Counted>,
    place: PhantomData<P>,
    ghost here: { (stack.now ≡ P.table) × (party.table ≡ P.table) },
}

impl<P: Place> Teller<'_, P> {
    /// Tells what the party has seen.
    fn letter(&mut self) -> Letter<P> {
        let receipt = self.stack.receipt(&mut self.party);
        Letter {
            receipt,
            place: PhantomData,
        }
    }

    /// Tells the same as a letter.
    fn copy(&self, letter: &mut Letter<P>) -> Letter<P> {
        let receipt = self.stack.copy_receipt(&mut letter.receipt);
        Letter {
            receipt,
            place: PhantomData,
        }
    }

    /// Learns what a letter tells.
    fn learn(&mut self, letter: Letter<P>) {
        let Letter { receipt, place: _ } = letter;
        self.stack.learn(&mut self.party, receipt);
    }

    /// Pushes an element into a room that must be there, and tells of it.
    fn push<R: Wait + Abort>(&mut self, rt: &R, handle: Handle) -> Letter<P> {
        has_room(rt, self.party.rooms());
        self.stack.push(rt, &mut self.party, handle);
        self.letter()
    }

    /// Compares whether nothing is held with what is wanted.
    fn is_empty(&mut self, rt: &impl Abort, wanted: bool) {
        same(rt, self.stack.is_empty(&mut self.party), wanted);
    }

    /// Learns what a letter tells, and takes all that is held, the element that was pushed first at the front.
    fn take(&mut self, letter: Letter<P>) -> Stack<Counted> {
        self.learn(letter);
        self.stack.take_all_in_order(&mut self.party)
    }
}

/// Returns two parties of the stack, of which the first has all rooms.
fn two_parties<'s, P: Place>(
    stack: &'s TransferStack<Counted>,
    party: Party<Counted>,
) -> (Teller<'s, P>, Teller<'s, P>)
    requires { (stack.now ≡ P.table) × (party.table ≡ P.table) }
{
    let mut party = party;
    let other = stack.split(&mut party, 0);
    (
        Teller {
            stack,
            party,
            place: PhantomData,
        },
        Teller {
            stack,
            party: other,
            place: PhantomData,
        },
    )
}

/// Lets two parties tell each other of elements: by a letter and its copy, and by none.
fn tell_in_turn<P: Place, R: Wait + Abort>(
    rt: &R,
    alloc: Global,
    stack: &TransferStack<Counted>,
    party: Party<Counted>,
    drops: &Drops,
)
    requires { (stack.now ≡ P.table) × (party.table ≡ P.table) }
{
    let (mut one, mut other) = two_parties::<P>(stack, party);
    let mut letter = one.push(rt, element(rt, alloc, 1, drops));
    other.learn(one.copy(&mut letter));
    other.is_empty(rt, false);
    pops(rt, other.take(letter), &[1]);
    one.learn(other.letter());
    one.is_empty(rt, true);
    drop(one.push(rt, element(rt, alloc, 2, drops)));
    let own = other.letter();
    pops(rt, other.take(own), &[2]);
    let last = one.letter();
    pops(rt, other.take(last), &[]);
    have_rooms(rt, (&one.party, &other.party), (0, 2));
}

#[test]
fn a_receipt_goes_between_parties(rt: HostRuntime) {
    let drops = no_drops(&rt, rt.alloc());
    let (stack, party) = new_stack(&rt, rt.alloc(), 2);
    tell_in_turn::<Brand, _>(&rt, rt.alloc(), &stack, party, &drops);
    dropped(&rt, &drops, 2);
}

/// Lets an inbox learn of an element before it receives it, and tell what it has seen.
fn tell_an_inbox<P: Place, R: Wait + Abort>(
    rt: &R,
    stack: &TransferStack<Counted>,
    party: Party<Counted>,
    handle: Handle,
)
    requires { (stack.now ≡ P.table) × (party.table ≡ P.table) }
{
    let (mut one, other) = two_parties::<P>(stack, party);
    let mut inbox = Inbox::new(stack, other.party);
    let Letter { receipt, place: _ } = one.push(rt, handle);
    inbox.learn(receipt);
    one.learn(Letter {
        receipt: inbox.receipt(),
        place: PhantomData,
    });
    same(
        rt,
        (number(inbox.pop()), number(inbox.pop())),
        (Some(1), None),
    );
}

#[test]
fn an_inbox_learns_a_receipt(rt: HostRuntime) {
    let drops = no_drops(&rt, rt.alloc());
    let (stack, party) = new_stack(&rt, rt.alloc(), 1);
    tell_an_inbox::<Brand, _>(&rt, &stack, party, element(&rt, rt.alloc(), 1, &drops));
    dropped(&rt, &drops, 1);
}

/// Where one thread leaves a letter for another.
type Mailbox<P> = Mutex<Option<Letter<P>>>;

/// Leaves a letter, once the one before was taken.
fn leave<P: Place, R: Wait + Abort>(rt: &R, mailbox: &Mailbox<P>, letter: Letter<P>) {
    for _ in 0..LOOKS {
        let mut held = mailbox.lock(rt);
        if held.is_none() {
            *held = Some(letter);
            return;
        }
        drop(held);
        thread::yield_now();
    }
    panic!(rt; "the letter before was not taken");
}

/// Takes the letter that another thread leaves.
fn take_out<P: Place, R: Wait + Abort>(rt: &R, mailbox: &Mailbox<P>) -> Letter<P> {
    for _ in 0..LOOKS {
        if let Some(letter) = mailbox.lock(rt).take() {
            return letter;
        }
        thread::yield_now();
    }
    panic!(rt; "no letter has come");
}

/// Pushes elements, and tells another thread of each.
fn push_all<P: Place, R: Wait + Abort>(
    rt: &R,
    alloc: Global,
    mailbox: &Mailbox<P>,
    sender: Teller<'_, P>,
    drops: &Drops,
) {
    let mut sender = sender;
    for round in 0..ROUNDS {
        let letter = sender.push(rt, element(rt, alloc, round, drops));
        leave(rt, mailbox, letter);
    }
}

/// Drops these elements, compares their numbers with this one and the next ones, and returns the number after these.
fn count_from(rt: &impl Abort, first: u64, elements: Stack<Counted>) -> u64 {
    let mut next = first;
    for node in elements {
        same(rt, node.id(), next);
        next = sum(next, 1);
    }
    next
}

/// Takes what is held for each letter. The element that the letter tells of is then taken, with each one before.
fn take_all<P: Place, R: Wait + Abort>(rt: &R, mailbox: &Mailbox<P>, receiver: Teller<'_, P>) {
    let mut receiver = receiver;
    let mut next = 0;
    for round in 0..ROUNDS {
        let letter = take_out(rt, mailbox);
        next = count_from(rt, next, receiver.take(letter));
        same(rt, round < next, true);
    }
    same(rt, next, ROUNDS);
}

/// Lets one thread push elements and tell another of each, which takes it.
fn tell_another<P: Place + Send + Sync, R: Threads + Wait + Abort + Sync>(
    rt: &R,
    alloc: Global,
    stack: &TransferStack<Counted>,
    party: Party<Counted>,
    drops: &Drops,
)
    requires { (stack.now ≡ P.table) × (party.table ≡ P.table) }
{
    let (sender, receiver) = two_parties::<P>(stack, party);
    let mailbox: Mailbox<P> = Mutex::new(None);
    thread::join(
        rt,
        || push_all(rt, alloc, &mailbox, sender, drops),
        || take_all(rt, &mailbox, receiver),
    );
}

#[test]
fn who_was_told_takes_each_element(rt: HostRuntime) {
    let drops = no_drops(&rt, rt.alloc());
    let (stack, party) = new_stack(&rt, rt.alloc(), ROUNDS as usize);
    tell_another::<Brand, _>(&rt, rt.alloc(), &stack, party, &drops);
    dropped(&rt, &drops, ROUNDS);
}
