//! The part of a free list that one owner has.
ghost use Rattle.std.specs.Prelude.{◌≡◌, [], ◌∷◌, ◌++◌, reverse, false};
ghost use Rattle.cordyceps_shared.specs.Histories.{plain};
ghost use Rattle.cordyceps_shared.specs.Standings.{GivesBack};
ghost use Rattle.cordyceps_stack.specs.Shared.Calls.{LacksRooms};
ghost use Rattle.cordyceps_stack.specs.Shared.Receipts.{Learns};
ghost use Rattle.cordyceps_shared.specs.Shares.{whole};
ghost use Rattle.freelist.specs.Blocks.{GetsFrom, TakesShared};

use cordyceps_base::linked::Linked;
use cordyceps_base::stack::Links;
use cordyceps_stack::stack::{Party, Receipt, Stack, TransferStack};
use std::marker::Model;

/// The local part of a free list: the blocks of one owner, who takes the shared ones when these run out. A contract
/// sees the blocks, the last put back first, and the party.
///
/// Do not drop it while its party has rooms: they can never be used again. `give_back` gives rooms to the pool, and
/// `finish` returns the party.
///
/// # Complexity
/// Dropping it frees each block once: O(n), for n blocks.
///
/// # Examples
/// From `tour::give_back` of `cordyceps_uses`:
/// ```
/// // The owner puts a block back without an atomic step.
/// local.put(near);
/// // If another party comes between, the block is returned as an `Err`, and can be put back again.
/// let _ = blocks.put_remote(&mut remote, far);
/// // The owner gets the block that it put back last. If it has none, it takes those that others put back.
/// Ok(local.get())
/// ```
#[derive(Drop)]
pub struct Local<'a, T: Linked<Links<T>>> {
    shared: &'a TransferStack<T>,
    blocks: Stack<T>,
    party: Party<T>,
}

impl<'a, T: Linked<Links<T>>> Model for Local<'a, T> {
    ghost use Rattle.std.specs.Prelude.{◌≡◌};
    ghost use Rattle.freelist.specs.Blocks.{LocalOf};

    ghost Value = { LocalOf T T.Handle };

    ghost view = { λ l. record { blocks = l.blocks; party = l.party } };

    ghost invariant = { λ l. l.party.table ≡ l.shared.now };
}

/// Pushes the blocks of one stack onto another, in the order in which they are popped.
pub(crate) fn pile<T: Linked<Links<T>>>(hand: &mut Stack<T>, blocks: Stack<T>)
    ensures { hand.new ≡ reverse blocks ++ hand.old }
{
    let mut blocks = blocks;
    while let Some(handle) = blocks.pop() {
        hand.push(handle);
    }
}

impl<'a, T: Linked<Links<T>>> Local<'a, T> {
    /// Creates a local part without blocks.
    pub(crate) fn new(shared: &'a TransferStack<T>, party: Party<T>) -> Local<'a, T>
        requires { party.table ≡ shared.now }
        ensures { (result.blocks ≡ []) × (result.party ≡ party) }
    {
        Local {
            shared,
            blocks: Stack::new(),
            party,
        }
    }

    /// Removes a block and returns it: of the local blocks the one that was put back last. If there is none, it first
    /// takes all shared blocks, of which the one that was put back last is first. Returns `None` if there is no block.
    ///
    /// # Complexity
    /// O(1) if there is a local block, without an atomic step. Otherwise O(n), for n shared blocks: one swap of the
    /// head, and a walk through them.
    ///
    /// # Waits
    /// Never.
    pub fn get(&mut self) -> Option<T::Handle>
        ensures { GetsFrom T.element self.old.blocks self.old.party result self.new }
    {
        if !self.blocks.is_empty() {
            return self.blocks.pop();
        }
        self.blocks = self.shared.take_all(&mut self.party);
        self.blocks.pop()
    }

    /// Takes all shared blocks and puts them before the local ones. Of these, the block that was put back first comes
    /// out first. The party gets their rooms, which `give_back` can then give to those who put blocks back.
    ///
    /// `get` takes shared blocks only when no local one is left. So an owner that does not get that far calls this from
    /// time to time, if other parties wait for rooms.
    ///
    /// # Complexity
    /// O(n), for n shared blocks: one swap of the head, and two walks through them.
    ///
    /// # Waits
    /// Never.
    pub fn take_shared(&mut self)
        ensures { TakesShared T.element self.old.blocks self.old.party self.new }
    {
        let shared = self.shared.take_all(&mut self.party);
        pile(&mut self.blocks, shared);
    }

    /// Puts a block back, without an atomic step.
    ///
    /// # Complexity
    /// O(1).
    pub fn put(&mut self, handle: T::Handle)
        ensures blocks { self.new.blocks ≡ T.element handle ∷ self.old.blocks }
        ensures party { self.new.party ≡ self.old.party }
    {
        self.blocks.push(handle);
    }

    /// Gives all rooms of the party to the pool, from where each party may take them, and returns `true`. If other
    /// rooms are in the pool, it returns `false`, and the party has its rooms. These are the rooms of the blocks that
    /// `get` took, besides those that the party had.
    ///
    /// # Complexity
    /// O(1): one load and one compare-exchange.
    ///
    /// # Waits
    /// Never.
    pub fn give_back(&mut self) -> bool
        ensures blocks { self.new.blocks ≡ self.old.blocks }
        ensures party { GivesBack self.old.party.rooms result self.old.party self.new.party }
        ensures whole { self.old.party.share ≡ whole → result ≡ false → LacksRooms self.new.party }
    {
        let rooms = self.party.rooms();
        self.shared.give_back(&mut self.party, rooms)
    }

    /// Returns a receipt: it tells another thread's party what this one has seen.
    ///
    /// # Complexity
    /// O(1): one load.
    ///
    /// # Waits
    /// Never.
    pub fn receipt(&mut self) -> Receipt<T>
        ensures local { self.new ≡ self.old }
        ensures receipt { (result.table ≡ self.old.party.table) × (result.told ≡ plain self.old.party.seen) }
    {
        self.shared.receipt(&mut self.party)
    }

    /// Learns a receipt: the party has then seen all that the receipt tells, and what it had seen itself. If a `get`
    /// then finds no block, each block that was put back for all by what the receipt tells has gone out.
    ///
    /// # Complexity
    /// O(1): two loads.
    ///
    /// # Waits
    /// Never.
    ///
    /// # Examples
    /// From `laws::get_told` of `freelist`:
    /// ```
    /// local.learn(receipt);
    /// local.get()
    /// ```
    pub fn learn(&mut self, receipt: Receipt<T>)
        requires { receipt.table ≡ self.old.party.table }
        ensures blocks { self.new.blocks ≡ self.old.blocks }
        ensures party { Learns receipt.told self.old.party self.new.party }
    {
        self.shared.learn(&mut self.party, receipt);
    }

    /// Ends the local part, and returns its blocks and its party.
    ///
    /// # Complexity
    /// O(1).
    pub fn finish(self) -> (Stack<T>, Party<T>)
        ensures { (result.0 ≡ self.entry.blocks) × (result.1 ≡ self.entry.party) }
    {
        let Local {
            shared: _,
            blocks,
            party,
        } = self;
        (blocks, party)
    }
}
