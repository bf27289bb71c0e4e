//! The part of a free list that threads share.
ghost use Rattle.std.specs.Prelude.{◌≡◌, ◌<◌, ◌≤◌, List, [], length, map, max, reverse, true, false, is_ok, MatchResult};
ghost use Rattle.std.specs.Prelude.{IfOk, IfErr};
ghost use Rattle.cordyceps_shared.specs.Histories.{plain};
ghost use Rattle.cordyceps_shared.specs.Shares.{whole};
ghost use Rattle.cordyceps_shared.specs.Standings.{new_party, keeping, giving, Absorbs, GivesBack};
ghost use Rattle.cordyceps_stack.specs.History.{held, Legal};
ghost use Rattle.cordyceps_stack.specs.Shared.Calls.{PushesAt, PushesAllAt, Misses};
ghost use Rattle.cordyceps_stack.specs.Shared.Calls.{Refills, GivesAllBack, HasAllRooms, LacksRooms};
ghost use Rattle.cordyceps_stack.specs.Shared.Calls.{PushesRefilled, FailsToPush, IsCertainlyFull};
ghost use Rattle.cordyceps_stack.specs.Shared.Receipts.{Learns};

use crate::local::Local;
use cordyceps_base::linked::Linked;
use cordyceps_base::stack::Links;
use cordyceps_shared::required;
use cordyceps_stack::stack::{
    MAX_ROOMS, Party, QUANTUM, Receipt, Stack, TransferStack, TryPushError,
};
use std::alloc::{AllocError, Global};
use std::marker::Model;

/// A free list that threads share: they put blocks back, and their owner takes them. A handle owns a block. Each block
/// is with a user, in a `Local` or shared, and in one of these only.
///
/// It follows the sharded free lists of allocators, as those of mimalloc: a local list, and a shared one that the owner
/// takes as a whole when the local one is empty. A room is a permit to share one block: sharing spends one, and whoever
/// takes the block gets it. Each call is made through a party of this list: a handle through which a thread acts, and
/// which has some of the rooms.
///
/// A contract sees the list's table, by which it knows the parties of this list: their `table` is the same. What
/// happened to the list is told by what its parties have seen, their observed prefix of its history. A party's share is
/// its permission, and a whole party has the full one.
///
/// # Complexity
/// Dropping the list drops the shared blocks: O(r), for r rooms.
///
/// # Examples
/// From `tour::give_back` of `cordyceps_uses`:
/// ```
/// let (blocks, mut party) = FreeList::<Job>::new(alloc, 8)?;
/// // Another thread gets a party of its own, and the owner gets the local part.
/// let mut remote = blocks.split(&mut party, 8);
/// let mut local = blocks.local(party);
/// // The owner puts a block back without an atomic step.
/// local.put(near);
/// // If another party comes between, the block is returned as an `Err`, and can be put back again.
/// let _ = blocks.put_remote(&mut remote, far);
/// // The owner gets the block that it put back last. If it has none, it takes those that others put back.
/// Ok(local.get())
/// ```
#[derive(Drop)]
pub struct FreeList<T: Linked<Links<T>>> {
    shared: TransferStack<T>,
}

impl<T: Linked<Links<T>>> Model for FreeList<T> {
    ghost use Rattle.atomic_table.specs.Seated.{TableId};

    ghost Value = { TableId };

    ghost view = { λ f. f.shared };
}

impl<T: Linked<Links<T>>> FreeList<T> {
    /// Creates an empty free list with `rooms` rooms for shared blocks, and the party that has them all, which is
    /// whole. Requires that `rooms` is at most `MAX_ROOMS`.
    ///
    /// # Errors
    /// If memory is refused, it returns `AllocError`, and nothing is kept.
    ///
    /// # Complexity
    /// O(`rooms`), with three allocations, of which it frees one.
    pub fn new(alloc: Global, rooms: usize) -> Result<(FreeList<T>, Party<T>), AllocError>
        requires { rooms ≤ MAX_ROOMS }
        ensures { IfOk result (λ made. (made.1 ≡ new_party made.0 rooms) × (made.0.slots ≡ rooms)) }
    {
        required::at_most_max_rooms(rooms);
        let (shared, party) = TransferStack::new(alloc, rooms)?;
        Ok((FreeList { shared }, party))
    }

    /// Tries once to put a block back for all. Requires that the party has a room, which the block then uses. Returns
    /// `true` if no block was shared just before.
    ///
    /// # Errors
    /// If another party put a block back, or took all, between its two steps, the handle is returned, and the party
    /// keeps its room. To a whole party this never happens.
    ///
    /// # Complexity
    /// O(1): one load and one compare-exchange of the head, and steps on the room.
    ///
    /// # Waits
    /// Never.
    pub fn put_remote(&self, party: &mut Party<T>, handle: T::Handle) -> Result<bool, T::Handle>
        requires table { party.old.table ≡ self.now }
        requires room { 0 < party.old.rooms }
        ensures answer { MatchResult result
            (λ was_empty. PushesAt 1 handle was_empty party.old party.new)
            (λ back. (back ≡ handle) × Misses party.old party.new) }
        ensures whole { party.old.share ≡ whole → is_ok result ≡ true }
    {
        required::a_free_room(party.rooms());
        self.shared.try_push(party, handle)
    }

    /// Tries once to put a block back for all. If the party has no room, it takes at most `QUANTUM` of the pool
    /// first. Returns `true` if no block was shared just before.
    ///
    /// # Errors
    /// It returns `Full` if the party has no room and the pool has none. Where a whole party finds that, each room of
    /// the free list has a shared block. It returns `Contended` if another party put a block back, or took all, between
    /// the two steps of the try. The party then has a room. To a whole party this never happens. Both return the
    /// handle.
    ///
    /// # Complexity
    /// O(1): that of `put_remote`, and of `refill_at_most` with `QUANTUM` if the party has no room.
    ///
    /// # Waits
    /// Never.
    pub fn refill_and_put_remote(
        &self,
        party: &mut Party<T>,
        handle: T::Handle,
    ) -> Result<bool, TryPushError<T::Handle>>
        requires { party.old.table ≡ self.now }
        ensures answer { MatchResult result
            (λ was_empty. PushesRefilled handle was_empty party.old party.new)
            (λ error. FailsToPush handle error party.old party.new) }
        ensures few { party.old.share ≡ whole → party.new.rooms ≤ max party.old.rooms QUANTUM }
        ensures whole { party.old.share ≡ whole → IfErr result (λ error. IsCertainlyFull error party.new) }
    {
        self.shared.refill_and_try_push(party, handle)
    }

    /// Tries once to put all blocks of a stack back for all at one step. The owner gets them in their order: the block
    /// that `blocks` would pop first comes first. Requires that the party has as many rooms, which the blocks then use.
    /// Returns `true` if no block was shared just before. If there is no block, it only looks whether one is shared.
    ///
    /// # Errors
    /// If another party put a block back, or took all, between its two steps, all blocks are returned in their order,
    /// and the party keeps its rooms. To a whole party this never happens.
    ///
    /// # Complexity
    /// O(n), for n blocks: one load and one compare-exchange of the head, and steps on n rooms.
    ///
    /// # Waits
    /// Never.
    pub fn put_remote_all(&self, party: &mut Party<T>, blocks: Stack<T>) -> Result<bool, Stack<T>>
        requires table { party.old.table ≡ self.now }
        requires rooms { length blocks ≤ party.old.rooms }
        ensures answer { MatchResult result
            (λ was_empty. (shared : List T.Handle) × (blocks ≡ map T.element shared)
            × PushesAllAt 1 shared was_empty party.old party.new)
            (λ back. (back ≡ blocks) × Misses party.old party.new) }
        ensures whole { party.old.share ≡ whole → is_ok result ≡ true }
    {
        self.shared.try_push_all(party, blocks)
    }

    /// Takes all rooms of the pool, which become the party's, and returns how many they are. A whole party then has
    /// each room of the free list that has no shared block in it.
    ///
    /// # Complexity
    /// O(1).
    ///
    /// # Waits
    /// Never.
    pub fn refill(&self, party: &mut Party<T>) -> usize
        requires { party.old.table ≡ self.now }
        ensures answer { Refills result party.old party.new }
        ensures whole { party.old.share ≡ whole → HasAllRooms party.new }
    {
        self.shared.refill(party)
    }

    /// Takes at most `most` rooms of the pool, which become the party's, and returns how many they are. The others stay
    /// in the pool for other parties.
    ///
    /// It takes all and gives what is above `most` back at once. If another party gives rooms back between the two, it
    /// tries that again, up to 8 times, and then keeps what it took. So it can take more than `most` only while others
    /// give rooms back. A whole party never does, and if it takes fewer, it has each room of the free list that has
    /// no shared block in it.
    ///
    /// # Complexity
    /// O(k), for the k rooms that the party then has, and O(1) where the pool has at most `most`.
    ///
    /// # Waits
    /// Never.
    pub fn refill_at_most(&self, party: &mut Party<T>, most: usize) -> usize
        requires { party.old.table ≡ self.now }
        ensures answer { Refills result party.old party.new }
        ensures few { party.old.share ≡ whole → result ≤ most }
        ensures whole { party.old.share ≡ whole → result < most → HasAllRooms party.new }
    {
        self.shared.refill_at_most(party, most)
    }

    /// Gives `rooms` of the party's rooms to the pool, from where each party may take them, and returns `true`. If
    /// other rooms are in the pool, it returns `false`, and the party keeps its rooms. So a whole party that has every
    /// room without a block always gets `true`. Requires that the party has as many rooms.
    ///
    /// # Complexity
    /// O(`rooms`), or O(1) if the party gives all its rooms or none, or finds others in the pool.
    ///
    /// # Waits
    /// Never.
    pub fn give_back(&self, party: &mut Party<T>, rooms: usize) -> bool
        requires table { party.old.table ≡ self.now }
        requires rooms { rooms ≤ party.old.rooms }
        ensures answer { GivesBack rooms result party.old party.new }
        ensures whole { party.old.share ≡ whole → result ≡ false → LacksRooms party.new }
    {
        required::as_many_rooms(rooms, party.rooms());
        self.shared.give_back(party, rooms)
    }

    /// Gives all rooms of the party to the pool, together with those that are there, and returns `true`. A party that
    /// ends calls it before it is absorbed or dropped.
    ///
    /// It returns `false` only if other parties gave rooms back each of 8 times that it tried. The party then has no
    /// fewer rooms than before, so call it again. A whole party always gets `true`.
    ///
    /// # Complexity
    /// O(1).
    ///
    /// # Waits
    /// Never.
    pub fn give_all_back(&self, party: &mut Party<T>) -> bool
        requires { party.old.table ≡ self.now }
        ensures answer { GivesAllBack result party.old party.new }
        ensures whole { party.old.share ≡ whole → result ≡ true }
    {
        self.shared.give_all_back(party)
    }

    /// Splits a new party off `party`, which gives it `rooms` of its rooms and a part of its share. The new party has
    /// seen the same history, in which no event is its own. Requires that the party has as many rooms.
    ///
    /// # Complexity
    /// O(`rooms`), or O(1) if the party gives all its rooms.
    ///
    /// # Waits
    /// Never.
    pub fn split(&self, party: &mut Party<T>, rooms: usize) -> Party<T>
        requires table { party.old.table ≡ self.now }
        requires rooms { rooms ≤ party.old.rooms }
        ensures { (party.new ≡ keeping rooms party.old) × (result ≡ giving rooms party.old) }
    {
        required::as_many_rooms(rooms, party.rooms());
        self.shared.split(party, rooms)
    }

    /// Absorbs another party: `party` has its rooms, its names and its events, and has seen what the two had seen.
    ///
    /// # Complexity
    /// O(1).
    ///
    /// # Waits
    /// Never.
    pub fn absorb(&self, party: &mut Party<T>, other: Party<T>)
        requires { (party.old.table ≡ self.now) × (other.table ≡ self.now) }
        ensures { Absorbs (λ h. Legal h) party.old other party.new }
    {
        self.shared.absorb(party, other);
    }

    /// Returns a receipt: it tells another thread's party what this party has seen.
    ///
    /// # Complexity
    /// O(1): one load.
    ///
    /// # Waits
    /// Never.
    pub fn receipt(&self, party: &mut Party<T>) -> Receipt<T>
        requires { party.old.table ≡ self.now }
        ensures party { party.new ≡ party.old }
        ensures receipt { (result.table ≡ self.now) × (result.told ≡ plain party.old.seen) }
    {
        self.shared.receipt(party)
    }

    /// Returns a second receipt that tells the same.
    ///
    /// # Complexity
    /// O(1): one load.
    ///
    /// # Waits
    /// Never.
    pub fn copy_receipt(&self, receipt: &mut Receipt<T>) -> Receipt<T>
        requires { receipt.old.table ≡ self.now }
        ensures { (receipt.new ≡ receipt.old) × (result ≡ receipt.old) }
    {
        self.shared.copy_receipt(receipt)
    }

    /// Learns a receipt: the party has then seen all that the receipt tells, and what it had seen itself.
    ///
    /// # Complexity
    /// O(1): two loads.
    ///
    /// # Waits
    /// Never.
    pub fn learn(&self, party: &mut Party<T>, receipt: Receipt<T>)
        requires { (party.old.table ≡ self.now) × (receipt.table ≡ self.now) }
        ensures { Learns receipt.told party.old party.new }
    {
        self.shared.learn(party, receipt);
    }

    /// Creates a local part without blocks, for the owner of a party. There can be several at a time.
    ///
    /// # Complexity
    /// O(1).
    pub fn local(&self, party: Party<T>) -> Local<'_, T>
        requires { party.table ≡ self.now }
        ensures { (result.blocks ≡ []) × (result.party ≡ party) }
    {
        Local::new(&self.shared, party)
    }

    /// Closes the free list and returns all shared blocks, the last put back first. Requires the whole party; the
    /// result is exactly what its history holds.
    ///
    /// # Complexity
    /// O(r), for r rooms, which it frees.
    ///
    /// # Waits
    /// Never.
    pub fn close(self, party: Party<T>) -> Stack<T>
        requires table { party.table ≡ self }
        requires whole { party.share ≡ whole }
        ensures { result ≡ map T.element (reverse (held (plain party.seen))) }
    {
        self.shared.close(party)
    }
}
