//! The law of free lists: after any commands each block is in one place.
//!
//! The law is separate, over plain lists. `Whereabouts` says where one user's blocks are, and how many rooms its
//! parties have. `carry_out` shows what each command on the running structure changes of these. `each_once` sums over
//! all users of a legal history, and `is_of` gives that history where one whole party absorbed all their parties
//! (`Met`).
//!
//! It sums any function of blocks over all places, so it serves blocks of any type, also if they cannot be told apart.
//! It is stated of one user, over running code and whatever others do, and then of all users, over plain lists, for any
//! legal history of theirs.
ghost use Rattle.std.specs.Prelude.{◌≡◌, ◌≤◌, [], ◌∷◌, ◌++◌, map, reverse, List, None, IfOk};
ghost use Rattle.cordyceps_shared.specs.Histories.{plain};
ghost use Rattle.cordyceps_shared.specs.Shares.{whole};
ghost use Rattle.cordyceps_stack.specs.History.{held};
ghost use Rattle.cordyceps_stack.specs.Shared.Receipts.{TellsOfMore, AllTaken, OthersTook};
ghost use Rattle.freelist.specs.Blocks.{GetsTold};
ghost use Rattle.freelist.specs.Users.{alone, closing, CarriesOut, BothCarryOut, BothRun};
ghost use Rattle.freelist.specs.Users.{Life, all_parties, Met, EachOnce};
ghost use Rattle.freelist.specs.declared.laws.Command.TheVariants as kinds;

use crate::free_list::FreeList;
use crate::local::{Local, pile};
use cordyceps_base::linked::Linked;
use cordyceps_base::stack::Links;
use cordyceps_stack::stack::{Party, Receipt, Stack};
use std::alloc::{AllocError, Global};
use std::marker::Model;

/// What a user of a free list does next. If the user lacks what a command needs, the command does nothing.
#[derive(Clone, Copy, PartialEq, Eq, Debug)]
pub enum Command {
    /// Gets a block from its local part.
    Get,
    /// Puts the block that it got last into its local part.
    Put,
    /// Tries once to put that block back for all. Needs a room of its party's too.
    PutRemote,
    /// Makes a local part of the spare party. Needs that there is no local part yet.
    Open,
    /// Ends its local part: keeps the blocks, and makes the party the spare one. Needs that there is no spare party
    /// yet.
    Finish,
    /// Splits a spare party with this many rooms off its own, which needs as many. Needs that there is no spare party
    /// yet.
    Split(usize),
    /// Absorbs the spare party.
    Absorb,
}

/// A user of a free list: the blocks that are with it, a local part or none, a party that puts blocks back for all, and
/// a spare party or none. A contract sees these and the table of its free list.
///
/// # Complexity
/// Dropping it frees each block that is with it or in its local part once: O(n), for n blocks.
#[derive(Drop)]
pub struct User<'a, T: Linked<Links<T>>> {
    list: &'a FreeList<T>,
    hand: Stack<T>,
    local: Option<Local<'a, T>>,
    party: Party<T>,
    spare: Option<Party<T>>,
}

impl<'a, T: Linked<Links<T>>> Model for User<'a, T> {
    ghost use Rattle.freelist.specs.Users.{UserOf, AreAt};

    ghost Value = { UserOf T T.Handle };

    ghost view = { λ u.
        record { table = u.list.now; hand = u.hand; local = u.local; party = u.party; spare = u.spare } };

    ghost invariant = { λ u. AreAt u.list.now u.party u.local u.spare };
}

impl<'a, T: Linked<Links<T>>> User<'a, T> {
    /// Creates a user with these blocks and this party.
    ///
    /// # Complexity
    /// O(1).
    pub fn new(list: &'a FreeList<T>, hand: Stack<T>, party: Party<T>) -> User<'a, T>
        requires { party.table ≡ list.now }
        ensures { result ≡ alone list.now hand party }
    {
        User {
            list,
            hand,
            local: None,
            party,
            spare: None,
        }
    }

    fn get(&mut self)
        ensures { CarriesOut T.element (kinds.Get ∷ []) self.old self.new }
    {
        if let Some(local) = &mut self.local {
            if let Some(handle) = local.get() {
                self.hand.push(handle);
            }
        }
    }

    fn put(&mut self)
        ensures { CarriesOut T.element (kinds.Put ∷ []) self.old self.new }
    {
        if let Some(local) = &mut self.local {
            if let Some(handle) = self.hand.pop() {
                local.put(handle);
            }
        }
    }

    fn put_remote(&mut self)
        ensures { CarriesOut T.element (kinds.PutRemote ∷ []) self.old self.new }
    {
        if self.party.rooms() > 0 {
            if let Some(handle) = self.hand.pop() {
                if let Err(back) = self.list.put_remote(&mut self.party, handle) {
                    self.hand.push(back);
                }
            }
        }
    }

    fn open(&mut self)
        ensures { CarriesOut T.element (kinds.Open ∷ []) self.old self.new }
    {
        if self.local.is_none() {
            if let Some(party) = self.spare.take() {
                self.local = Some(self.list.local(party));
            }
        }
    }

    fn finish(&mut self)
        ensures carries { CarriesOut T.element (kinds.Finish ∷ []) self.old self.new }
        ensures finished { self.old.spare ≡ None → self.new.local ≡ None }
    {
        if self.spare.is_none() {
            if let Some(local) = self.local.take() {
                let (blocks, party) = local.finish();
                pile(&mut self.hand, blocks);
                self.spare = Some(party);
            }
        }
    }

    fn split(&mut self, rooms: usize)
        ensures { CarriesOut T.element (kinds.Split rooms ∷ []) self.old self.new }
    {
        if self.spare.is_none() && rooms <= self.party.rooms() {
            self.spare = Some(self.list.split(&mut self.party, rooms));
        }
    }

    fn absorb(&mut self)
        ensures carries { CarriesOut T.element (kinds.Absorb ∷ []) self.old self.new }
        ensures absorbed { (self.new.spare ≡ None) × (self.new.local ≡ self.old.local) }
    {
        if let Some(spare) = self.spare.take() {
            self.list.absorb(&mut self.party, spare);
        }
    }

    fn step(&mut self, command: Command)
        ensures { CarriesOut T.element (command ∷ []) self.old self.new }
    {
        match command {
            Command::Get => self.get(),
            Command::Put => self.put(),
            Command::PutRemote => self.put_remote(),
            Command::Open => self.open(),
            Command::Finish => self.finish(),
            Command::Split(rooms) => self.split(rooms),
            Command::Absorb => self.absorb(),
        }
    }
}

/// Carries out commands, one after the other, whatever other users do meanwhile. Each block that the user had is with
/// it, in its local part, or was put back for all: none is lost, and none is in two places.
///
/// # Complexity
/// That of the commands.
pub fn carry_out<T: Linked<Links<T>>>(user: &mut User<'_, T>, commands: &[Command])
    ensures { CarriesOut T.element commands.now user.old user.new }
{
    for command in commands {
        user.step(*command);
    }
}

/// Ends a user, and returns all blocks that are with it and in its local part, and one party, which has absorbed its
/// others.
///
/// # Complexity
/// O(n), for n blocks in its local part.
pub fn retire<T: Linked<Links<T>>>(user: User<'_, T>) -> (Stack<T>, Party<T>)
    ensures carries { CarriesOut T.element closing user.entry (alone user.entry.table result.0 result.1) }
    ensures table { result.1.table ≡ user.entry.table }
{
    let mut user = user;
    user.absorb();
    user.finish();
    user.absorb();
    let User {
        list: _,
        hand,
        local: _,
        party,
        spare: _,
    } = user;
    (hand, party)
}

/// Closes a free list as `close` does. If its party has absorbed those of all users, each block is with a user, in a
/// local part or in the result, and in one of these only.
///
/// # Complexity
/// O(r), for r rooms.
pub fn close_all<T: Linked<Links<T>>>(list: FreeList<T>, party: Party<T>) -> Stack<T>
    requires table { party.table ≡ list }
    requires whole { party.share ≡ whole }
    ensures shared { result ≡ map T.element (reverse (held (plain party.seen))) }
    ensures once { (lives : List (Life T.element))
        → Met (all_parties T.element lives) party
        → EachOnce T.element lives result }
{
    // its contract states what is true of the party
    party.rooms();
    list.close(party)
}

/// Learns a receipt, and gets a block. If it finds none, each block that was put back for all by what the receipt tells
/// has gone out. If the receipt tells of more such blocks than had gone out by what the party had seen, other parties
/// took some meanwhile.
///
/// # Complexity
/// That of `get`.
pub fn get_told<T: Linked<Links<T>>>(
    local: &mut Local<'_, T>,
    receipt: Receipt<T>,
) -> Option<T::Handle>
    requires { receipt.table ≡ local.old.party.table }
    ensures gets { GetsTold T.element receipt.told local.old result local.new }
    ensures gone { result ≡ None → AllTaken receipt.told local.new.party }
    ensures others { result ≡ None → TellsOfMore receipt.told local.old.party
        → OthersTook local.old.party local.new.party }
{
    local.learn(receipt);
    local.get()
}

/// Which of two users carries out which command.
#[derive(Clone, Copy, PartialEq, Eq, Debug)]
pub enum Turn {
    /// The first user carries out a command.
    First(Command),
    /// The second user carries out a command.
    Second(Command),
}

fn take_turn<T: Linked<Links<T>>>(first: &mut User<'_, T>, second: &mut User<'_, T>, turn: Turn)
    ensures { BothCarryOut T.element (turn ∷ []) first.old first.new second.old second.new }
{
    match turn {
        Turn::First(command) => first.step(command),
        Turn::Second(command) => second.step(command),
    }
}

/// Carries out the commands of two users, one after the other in the order of the turns.
///
/// Its contract states of each user alone that it carried out its own commands, in their order. It does not state how
/// the calls of the two are interleaved, since users whose parties have not met have no history in common: by the
/// contract, a get may miss a block that the other user put back at an earlier turn.
///
/// # Complexity
/// That of the commands.
pub fn take_turns<T: Linked<Links<T>>>(
    first: &mut User<'_, T>,
    second: &mut User<'_, T>,
    turns: &[Turn],
)
    ensures { BothCarryOut T.element turns.now first.old first.new second.old second.new }
{
    for turn in turns {
        take_turn(first, second, *turn);
    }
}

/// Creates a free list with two users, each with its blocks and `rooms` rooms, carries out their commands as
/// [`take_turns`] does, and ends the users and the list. Returns the blocks that are then with the first, with the
/// second, and shared: together they are the blocks that both had. Requires that `rooms` is at most half of
/// `MAX_ROOMS`.
///
/// In the end the parties of the two meet, and what both did is one legal history, in which each user's calls are in
/// order. The contract does not state how the calls of the two are interleaved there.
///
/// # Errors
/// If memory is refused, it returns `AllocError`, and the blocks are dropped.
///
/// # Complexity
/// O(`rooms`), and that of the commands.
pub fn run_both<T: Linked<Links<T>>>(
    alloc: Global,
    rooms: usize,
    hands: (Stack<T>, Stack<T>),
    turns: &[Turn],
) -> Result<(Stack<T>, Stack<T>, Stack<T>), AllocError>
    requires { rooms ≤ 524288 }
    ensures { IfOk result (λ given. BothRun T.element turns.now rooms hands.0 hands.1 given.0 given.1 given.2) }
{
    let (list, mut party) = FreeList::new(alloc, 2 * rooms)?;
    let other = list.split(&mut party, rooms);
    let mut first = User::new(&list, hands.0, party);
    let mut second = User::new(&list, hands.1, other);
    take_turns(&mut first, &mut second, turns);
    let (left, mut last) = retire(first);
    let (right, absorbed) = retire(second);
    list.absorb(&mut last, absorbed);
    Ok((left, right, close_all(list, last)))
}
