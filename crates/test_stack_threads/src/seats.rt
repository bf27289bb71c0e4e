//! Stacks with their parties, and what the calls of one party return.
ghost use Rattle.std.specs.Prelude.{◌≡◌, ◌<◌, ◌≤◌, length};
ghost use Rattle.cordyceps_shared.specs.Shares.{whole};
ghost use Rattle.cordyceps_shared.specs.Standings.{new_party};

use crate::compared::{at_most, made, same};
use crate::items::{Handle, element, falls};
use cordyceps_stack::stack::{MAX_ROOMS, Party, Stack, TransferStack, TryPushError};
use std::alloc::Global;
use std::process::Abort;
use std::sync::Wait;
use test_support::counted::{Counted, Drops};

/// Returns a stack with this many rooms, and its whole party.
pub fn new_stack(
    rt: &impl Abort,
    alloc: Global,
    rooms: usize,
) -> (TransferStack<Counted>, Party<Counted>)
    ensures { result.1 ≡ new_party result.0 rooms }
{
    at_most(rt, rooms, MAX_ROOMS);
    made(rt, TransferStack::new(alloc, rooms))
}

/// Pushes an element by one try, which nobody overtakes, and compares whether nothing was held before with what is
/// wanted.
pub fn pushes(
    rt: &impl Abort,
    stack: &TransferStack<Counted>,
    party: &mut Party<Counted>,
    handle: Handle,
    first: bool,
)
    requires { party.old.table ≡ stack.now }
    ensures table { party.new.table ≡ stack.now }
    ensures share { party.new.share ≡ party.old.share }
{
    has_room(rt, party.rooms());
    match stack.try_push(party, handle) {
        Ok(was_empty) => same(rt, was_empty, first),
        Err(_) => panic!(rt; "nobody else pushes or takes"),
    }
}

/// Compares how many rooms two parties have with what is wanted. It says nothing of them, which keeps the proofs of its
/// callers short.
pub fn have_rooms(
    rt: &impl Abort,
    parties: (&Party<Counted>, &Party<Counted>),
    wanted: (usize, usize),
) {
    same(rt, (parties.0.rooms(), parties.1.rooms()), wanted);
}

/// Returns a stack of 3 rooms that holds the elements 1, 2 and 3, and its whole party.
pub fn three_held(
    rt: &impl Abort,
    alloc: Global,
    drops: &Drops,
) -> (TransferStack<Counted>, Party<Counted>)
    ensures table { result.1.table ≡ result.0 }
    ensures share { result.1.share ≡ whole }
{
    let (stack, mut party) = new_stack(rt, alloc, 3);
    pushes(rt, &stack, &mut party, element(rt, alloc, 1, drops), true);
    pushes(rt, &stack, &mut party, element(rt, alloc, 2, drops), false);
    pushes(rt, &stack, &mut party, element(rt, alloc, 3, drops), false);
    (stack, party)
}

/// A call of a party beside which no other acts, and what it must return.
#[derive(Clone, Copy)]
pub enum Call {
    /// How many rooms the party has.
    Rooms(usize),
    /// Whether nothing is held.
    IsEmpty(bool),
    /// So many rooms are given back, if no others lie there.
    GiveBack(usize, bool),
    /// Whether all rooms are given back, with those that were before.
    GiveAllBack(bool),
    /// How many rooms the party takes that were given back.
    Refill(usize),
    /// The most rooms that the party takes of those that were given back, and how many it takes.
    RefillAtMost(usize, usize),
    /// A push by one try, and whether nothing was held before.
    Push(bool),
    /// A push by one try that takes the rooms which were given back if the party has none, and whether nothing was held
    /// before. `None`: there is no room, and the element comes back.
    RefillAndPush(Option<bool>),
    /// All that is held: the number that comes first, and how many come, each with the number below the one before.
    Take(u64, u64),
}

/// Pushes an element as `Call::RefillAndPush` says. The stock gets it where there is no room.
fn refills_and_pushes(
    rt: &impl Abort,
    stack: &TransferStack<Counted>,
    party: &mut Party<Counted>,
    stock: &mut Stack<Counted>,
    handle: Handle,
    wanted: Option<bool>,
)
    requires { party.old.table ≡ stack.now }
    ensures { party.new.table ≡ stack.now }
{
    let number = handle.id();
    match stack.refill_and_try_push(party, handle) {
        Ok(first) => same(rt, Some(first), wanted),
        Err(TryPushError::Full(back)) => {
            same(rt, (back.id(), None), (number, wanted));
            stock.push(back);
        }
        Err(TryPushError::Contended(_)) => panic!(rt; "nobody else pushes or takes"),
    }
}

/// Returns what the stock pops.
fn next_of(rt: &impl Abort, stock: &mut Stack<Counted>) -> Handle {
    match stock.pop() {
        Some(handle) => handle,
        None => panic!(rt; "the stock has no element left"),
    }
}

/// Makes a call, and asserts what it returns. It pushes what the stock pops.
pub fn make(
    rt: &impl Abort,
    stack: &TransferStack<Counted>,
    party: &mut Party<Counted>,
    stock: &mut Stack<Counted>,
    call: Call,
)
    requires { party.old.table ≡ stack.now }
    ensures { party.new.table ≡ stack.now }
{
    match call {
        Call::Rooms(wanted) => same(rt, party.rooms(), wanted),
        Call::IsEmpty(wanted) => same(rt, stack.is_empty(party), wanted),
        Call::GiveBack(rooms, wanted) => {
            at_most(rt, rooms, party.rooms());
            same(rt, stack.give_back(party, rooms), wanted);
        }
        Call::GiveAllBack(wanted) => same(rt, stack.give_all_back(party), wanted),
        Call::Refill(wanted) => same(rt, stack.refill(party), wanted),
        Call::RefillAtMost(most, wanted) => same(rt, stack.refill_at_most(party, most), wanted),
        Call::Push(first) => pushes(rt, stack, party, next_of(rt, stock), first),
        Call::RefillAndPush(wanted) => {
            let handle = next_of(rt, stock);
            refills_and_pushes(rt, stack, party, stock, handle, wanted);
        }
        Call::Take(first, count) => falls(rt, stack.take_all(party), first, count),
    }
}

/// A party at its stack.
#[derive(Drop)]
pub struct Seat<'s> {
    stack: &'s TransferStack<Counted>,
    party: Party<Counted>,
    /// A party that makes no call until the other makes no more.
    spare: Party<Counted>,
    ghost seated: { (party.table ≡ stack.now) × (spare.table ≡ stack.now) },
}

impl<'s> Seat<'s> {
    /// Returns a party of this stack.
    pub fn new(stack: &'s TransferStack<Counted>, mut party: Party<Counted>) -> Seat<'s>
        requires { party.table ≡ stack.now }
    {
        let spare = stack.split(&mut party, 0);
        Seat {
            stack,
            party,
            spare,
        }
    }

    /// Gives some of the rooms, which must be there, to a new party.
    pub fn split(&mut self, rt: &impl Abort, rooms: usize) -> Seat<'s> {
        at_most(rt, rooms, self.party.rooms());
        let party = self.stack.split(&mut self.party, rooms);
        Seat::new(self.stack, party)
    }

    /// Returns how many rooms the party has.
    pub fn rooms(&self) -> usize {
        self.party.rooms()
    }

    /// Makes these calls, one after the other, and asserts what they return. They push what the stock pops.
    pub fn calls(&mut self, rt: &impl Abort, stock: &mut Stack<Counted>, calls: &[Call]) {
        for call in calls {
            make(rt, self.stack, &mut self.party, stock, *call);
        }
    }

    /// Pushes an element by one try, which nobody overtakes, and compares whether nothing was held before with what is
    /// wanted.
    pub fn pushes(&mut self, rt: &impl Abort, handle: Handle, first: bool) {
        pushes(rt, self.stack, &mut self.party, handle, first);
    }

    /// Pushes an element into a room that must be there, by a call that may wait.
    pub fn push<R: Wait + Abort>(&mut self, rt: &R, handle: Handle) {
        has_room(rt, self.party.rooms());
        self.stack.push(rt, &mut self.party, handle);
    }

    /// Does the same, and returns whether nothing was held before.
    pub fn push_was_empty<R: Wait + Abort>(&mut self, rt: &R, handle: Handle) -> bool {
        has_room(rt, self.party.rooms());
        self.stack.push_was_empty(rt, &mut self.party, handle)
    }

    /// Pushes an element into a room that must be there, by one try.
    pub fn try_push(&mut self, rt: &impl Abort, handle: Handle) -> Result<bool, Handle> {
        has_room(rt, self.party.rooms());
        self.stack.try_push(&mut self.party, handle)
    }

    /// Tries once to push an element, for which it takes the rooms that were given back if it has none.
    pub fn refill_and_try_push(&mut self, handle: Handle) -> Result<bool, Handle> {
        match self.stack.refill_and_try_push(&mut self.party, handle) {
            Ok(first) => Ok(first),
            Err(error) => Err(error.into_inner()),
        }
    }

    /// Pushes elements into rooms that must be there, all at one step by a call that may wait. `count` is how many they
    /// are.
    pub fn push_all<R: Wait + Abort>(&mut self, rt: &R, count: usize, elements: Stack<Counted>)
        requires { length elements ≡ count }
    {
        at_most(rt, count, self.party.rooms());
        self.stack.push_all(rt, &mut self.party, elements);
    }

    /// Does the same by one try, and then by the call that may wait where that missed.
    pub fn try_and_push_all<R: Wait + Abort>(
        &mut self,
        rt: &R,
        count: usize,
        elements: Stack<Counted>,
    )
        requires { length elements ≡ count }
    {
        at_most(rt, count, self.party.rooms());
        if let Err(back) = self.stack.try_push_all(&mut self.party, elements) {
            self.stack.push_all(rt, &mut self.party, back);
        }
    }

    /// Takes all that is held.
    pub fn take_all(&mut self) -> Stack<Counted> {
        self.stack.take_all(&mut self.party)
    }

    /// Gives all rooms back, if no others lie there.
    pub fn give_all_back(&mut self) {
        let rooms = self.party.rooms();
        self.stack.give_back(&mut self.party, rooms);
    }

    /// Lets the spare party absorb the other, and take what is held. Returns that, and how many rooms the party has
    /// then.
    pub fn end(self) -> (Stack<Counted>, u64) {
        let Seat {
            stack,
            party,
            mut spare,
        } = self;
        stack.absorb(&mut spare, party);
        (stack.take_all(&mut spare), spare.rooms() as u64)
    }
}

/// Fails where there is no room.
pub fn has_room(rt: &impl Abort, rooms: usize)
    ensures { 0 < rooms }
{
    assert!(rt; rooms > 0);
}
