//! Users of a free list: parties that put blocks back for all, and owners of a local part.
ghost use Rattle.std.specs.Prelude.{◌≡◌, ◌<◌, length};

use crate::blocks::{Handle, block, sum};
use crate::compared::{at_most, made, same};
use freelist::{FreeList, Local, Party, Stack, TryPushError};
use std::alloc::Global;
use std::process::Abort;
use std::thread;
use test_support::counted::{Counted, Drops};
use test_support::nodes::number;

/// How often a thread tries a call at most, before the test fails.
const TURNS: u64 = 10_000_000;

/// Puts a block back by one try, which nobody overtakes, and compares whether nothing was shared before with what is
/// wanted.
pub fn puts(
    rt: &impl Abort,
    list: &FreeList<Counted>,
    party: &mut Party<Counted>,
    handle: Handle,
    first: bool,
)
    requires { party.old.table ≡ list.now }
    ensures table { party.new.table ≡ list.now }
    ensures share { party.new.share ≡ party.old.share }
{
    has_room(rt, party.rooms());
    match list.put_remote(party, handle) {
        Ok(was_empty) => same(rt, was_empty, first),
        Err(_) => panic!(rt; "nobody else puts a block back or takes"),
    }
}

/// Compares how many rooms two parties have with what is wanted. It says nothing of them, which keeps the proofs of its
/// callers short.
pub fn have_rooms(
    rt: &impl Abort,
    parties: (&Party<Counted>, &Party<Counted>),
    wanted: (usize, usize),
) {
    same(rt, (parties.0.rooms(), parties.1.rooms()), wanted);
}

/// Puts two blocks into a local part.
pub fn puts_own(local: &mut Local<'_, Counted>, own: (Handle, Handle)) {
    let (one, two) = own;
    local.put(one);
    local.put(two);
}

/// Asserts the numbers of the blocks that are got one after the other.
pub fn gets(rt: &impl Abort, local: &mut Local<'_, Counted>, wanted: &[Option<u64>]) {
    for wanted in wanted {
        same(rt, number(local.get()), *wanted);
    }
}

/// Ends a local part, and compares how many rooms its party has with what is wanted. No block is to be left.
pub fn finishes(rt: &impl Abort, local: Local<'_, Counted>, rooms: usize) {
    let (blocks, party) = local.finish();
    same(rt, blocks.is_empty(), true);
    same(rt, party.rooms(), rooms);
}

/// Gets this many blocks, turn after turn.
pub fn get_all(rt: &impl Abort, mut local: Local<'_, Counted>, wanted: usize) -> Stack<Counted> {
    let mut all = Stack::new();
    let mut left = wanted;
    for _ in 0..TURNS {
        if left == 0 {
            return all;
        }
        match local.get() {
            Some(block) => {
                all.push(block);
                left -= 1;
            }
            None => thread::yield_now(),
        }
    }
    panic!(rt; "not all blocks came back");
}

/// A party at its free list.
#[derive(Drop)]
pub struct Remote<'f> {
    list: &'f FreeList<Counted>,
    party: Party<Counted>,
    ghost seated: { party.table ≡ list.now },
}

impl<'f> Remote<'f> {
    /// Returns a party of this free list.
    pub fn at(list: &'f FreeList<Counted>, party: Party<Counted>) -> Remote<'f>
        requires { party.table ≡ list.now }
    {
        Remote { list, party }
    }

    /// Puts a block back by one try, and compares whether nothing was shared before with what is wanted.
    pub fn puts(&mut self, rt: &impl Abort, handle: Handle, first: bool) {
        puts(rt, self.list, &mut self.party, handle, first);
    }

    /// Puts a block back by one try that takes the rooms of the pool if the party has none, and compares whether
    /// nothing was shared before with what is wanted. `None`: there is no room, and the block comes back and is
    /// dropped.
    pub fn refills_and_puts(&mut self, rt: &impl Abort, handle: Handle, wanted: Option<bool>) {
        let number = handle.id();
        match self.list.refill_and_put_remote(&mut self.party, handle) {
            Ok(first) => same(rt, Some(first), wanted),
            Err(TryPushError::Full(back)) => same(rt, (back.id(), None), (number, wanted)),
            Err(TryPushError::Contended(_)) => panic!(rt; "nobody else puts a block back or takes"),
        }
    }

    /// Puts `count` blocks back by one try, which nobody overtakes, and compares whether nothing was shared before with
    /// what is wanted.
    pub fn puts_all(&mut self, rt: &impl Abort, count: usize, blocks: Stack<Counted>, first: bool)
        requires { length blocks ≡ count }
    {
        at_most(rt, count, self.party.rooms());
        match self.list.put_remote_all(&mut self.party, blocks) {
            Ok(was_empty) => same(rt, was_empty, first),
            Err(_) => panic!(rt; "nobody else puts a block back or takes"),
        }
    }

    /// Gives some of the rooms, which must be there, to a new party.
    pub fn split(&mut self, rt: &impl Abort, rooms: usize) -> Remote<'f> {
        at_most(rt, rooms, self.party.rooms());
        let party = self.list.split(&mut self.party, rooms);
        Remote::at(self.list, party)
    }

    /// Returns how many rooms the party has.
    pub fn rooms(&self) -> usize {
        self.party.rooms()
    }

    /// Takes the rooms of the pool, and returns how many they are.
    pub fn refill(&mut self) -> usize {
        self.list.refill(&mut self.party)
    }

    /// Takes at most this many rooms of the pool, and returns how many they are.
    pub fn refill_at_most(&mut self, most: usize) -> usize {
        self.list.refill_at_most(&mut self.party, most)
    }

    /// Gives some of the rooms, which must be there, to the pool, and returns whether it has taken them.
    pub fn give_back(&mut self, rt: &impl Abort, rooms: usize) -> bool {
        at_most(rt, rooms, self.party.rooms());
        self.list.give_back(&mut self.party, rooms)
    }

    /// Gives all rooms to the pool, with those that are there, and returns whether it has taken them.
    pub fn give_all_back(&mut self) -> bool {
        self.list.give_all_back(&mut self.party)
    }

    /// Puts a block back into a room that must be there, by one try.
    fn try_put(&mut self, rt: &impl Abort, block: Handle) -> Result<(), Handle> {
        has_room(rt, self.party.rooms());
        match self.list.put_remote(&mut self.party, block) {
            Ok(_) => Ok(()),
            Err(back) => Err(back),
        }
    }

    /// Puts a block back into a room that must be there, try after try.
    fn put(&mut self, rt: &impl Abort, handle: Handle) {
        let mut block = handle;
        for _ in 0..TURNS {
            match self.try_put(rt, block) {
                Ok(()) => return,
                Err(back) => block = back,
            }
            thread::yield_now();
        }
        panic!(rt; "a block was not put back");
    }

    /// Puts blocks back into the rooms of its party, at most this many, each by one try. Their numbers rise from the
    /// first. Returns the number after the last. Only before the number 0 nothing is shared.
    pub fn fill(
        &mut self,
        rt: &impl Abort,
        alloc: Global,
        (first, most): (u64, u64),
        drops: &Drops,
    ) -> u64 {
        let end = sum(first, most.min(self.rooms() as u64));
        for number in first..end {
            self.puts(rt, made(rt, block(alloc, number, drops)), number == 0);
        }
        end
    }

    /// Puts all of these blocks back.
    pub fn put_all(mut self, rt: &impl Abort, blocks: Stack<Counted>) {
        for block in blocks {
            self.put(rt, block);
        }
    }

    /// Returns a local part with this party.
    pub fn local(self) -> Local<'f, Counted> {
        let Remote { list, party } = self;
        list.local(party)
    }
}

/// Fails where there is no room.
fn has_room(rt: &impl Abort, rooms: usize)
    ensures { 0 < rooms }
{
    assert!(rt; rooms > 0);
}
