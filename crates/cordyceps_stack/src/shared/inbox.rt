//! An inbox, from which one thread receives what others pushed, in order.
ghost use Rattle.std.specs.Prelude.{◌≡◌, [], false};
ghost use Rattle.cordyceps_shared.specs.Histories.{plain};
ghost use Rattle.cordyceps_shared.specs.Shares.{whole};
ghost use Rattle.cordyceps_shared.specs.Standings.{GivesBack};
ghost use Rattle.cordyceps_stack.specs.Shared.Calls.{LacksRooms};
ghost use Rattle.cordyceps_stack.specs.Shared.Inboxes.{ReceivesFrom};
ghost use Rattle.cordyceps_stack.specs.Shared.Receipts.{Learns};

use crate::shared::calls::{Party, TransferStack};
use crate::shared::receipt::Receipt;
use cordyceps_base::linked::Linked;
use cordyceps_base::stack::Links;
use cordyceps_single::stack::Stack;
use std::marker::Model;

/// The receiver of a shared stack that serves as a queue: it takes all that others pushed at once, and hands it out one
/// by one, in the order in which it was pushed. A contract sees the elements that were taken and not handed out yet, in
/// this order, and the party.
///
/// A push onto the stack costs one compare-exchange, and an element that is received a share of one swap, where an
/// `MpscQueue` takes two exchanges for an element. In return a push can be overtaken by another and tries again, and
/// whoever receives walks through what it took before it returns the first element.
///
/// Do not drop it while its party has rooms: they can never be used again. `give_back` gives rooms to the pool, and
/// `finish` returns the party.
///
/// # Complexity
/// Dropping it frees each element that was taken once: O(n), for n elements.
///
/// # Examples
/// From `tour::receive` of `cordyceps_uses`:
/// ```
/// // The inbox takes both jobs at once, and hands out the one that was pushed first.
/// let mut inbox = Inbox::new(&shared, taker);
/// let came = inbox.pop();
/// // What it took and did not hand out is returned with its party.
/// let (left, party) = inbox.finish();
/// ```
#[derive(Drop)]
pub struct Inbox<'a, T: Linked<Links<T>>> {
    shared: &'a TransferStack<T>,
    taken: Stack<T>,
    party: Party<T>,
}

impl<'a, T: Linked<Links<T>>> Model for Inbox<'a, T> {
    ghost use Rattle.std.specs.Prelude.{◌≡◌};
    ghost use Rattle.cordyceps_stack.specs.Shared.Inboxes.{InboxOf};

    ghost Value = { InboxOf T T.Handle };

    ghost view = { λ i. record { taken = i.taken; party = i.party } };

    ghost invariant = { λ i. i.party.table ≡ i.shared.now };
}

impl<'a, T: Linked<Links<T>>> Inbox<'a, T> {
    /// Creates an inbox that has taken nothing yet, for a party of the stack.
    ///
    /// # Complexity
    /// O(1).
    pub fn new(shared: &'a TransferStack<T>, party: Party<T>) -> Inbox<'a, T>
        requires { party.table ≡ shared.now }
        ensures taken { result.taken ≡ [] }
        ensures party { result.party ≡ party }
    {
        Inbox {
            shared,
            taken: Stack::new(),
            party,
        }
    }

    /// Removes the element that was pushed first and returns it, or `None` if there is none. The party gets the rooms
    /// of all elements when it takes them.
    ///
    /// # Complexity
    /// O(1) if elements are left that were taken before, without an atomic step. Otherwise O(n), for n elements that
    /// others pushed meanwhile: one swap of the head, and a walk through them. So it is O(1) amortized.
    ///
    /// # Waits
    /// Never.
    ///
    /// # Examples
    /// From `tour::receive` of `cordyceps_uses`:
    /// ```
    /// // The inbox takes both jobs at once, and hands out the one that was pushed first.
    /// let mut inbox = Inbox::new(&shared, taker);
    /// let came = inbox.pop();
    /// ```
    pub fn pop(&mut self) -> Option<T::Handle>
        ensures popped { ReceivesFrom T.element self.old.taken self.old.party result self.new }
        ensures table { self.new.party.table ≡ self.old.party.table }
        ensures share { self.new.party.share ≡ self.old.party.share }
    {
        if !self.taken.is_empty() {
            return self.taken.pop();
        }
        self.taken = self.shared.take_all_in_order(&mut self.party);
        self.taken.pop()
    }

    /// Gives all rooms of the party to the pool, from where each party may take them, and returns `true`. If other
    /// rooms are in the pool, it returns `false`, and the party has its rooms.
    ///
    /// # Complexity
    /// O(1): one load and one compare-exchange.
    ///
    /// # Waits
    /// Never.
    pub fn give_back(&mut self) -> bool
        ensures taken { self.new.taken ≡ self.old.taken }
        ensures party { GivesBack self.old.party.rooms result self.old.party self.new.party }
        ensures whole { self.old.party.share ≡ whole → result ≡ false → LacksRooms self.new.party }
    {
        let rooms = self.party.rooms();
        self.shared.give_back(&mut self.party, rooms)
    }

    /// Returns a receipt: it tells another thread's party what this one has seen.
    ///
    /// # Complexity
    /// O(1): one load.
    ///
    /// # Waits
    /// Never.
    pub fn receipt(&mut self) -> Receipt<T>
        ensures inbox { self.new ≡ self.old }
        ensures receipt { (result.table ≡ self.old.party.table) × (result.told ≡ plain self.old.party.seen) }
    {
        self.shared.receipt(&mut self.party)
    }

    /// Learns a receipt: the party has then seen all that the receipt tells, and what it had seen itself.
    ///
    /// # Complexity
    /// O(1): two loads.
    ///
    /// # Waits
    /// Never.
    pub fn learn(&mut self, receipt: Receipt<T>)
        requires { receipt.table ≡ self.old.party.table }
        ensures taken { self.new.taken ≡ self.old.taken }
        ensures party { Learns receipt.told self.old.party self.new.party }
    {
        self.shared.learn(&mut self.party, receipt);
    }

    /// Ends the inbox, and returns the elements that were taken and not handed out, and the party.
    ///
    /// # Complexity
    /// O(1).
    ///
    /// # Examples
    /// From `tour::receive` of `cordyceps_uses`:
    /// ```
    /// // What it took and did not hand out is returned with its party.
    /// let (left, party) = inbox.finish();
    /// drop(left);
    /// drop(shared.close(party));
    /// ```
    pub fn finish(self) -> (Stack<T>, Party<T>)
        ensures { (result.0 ≡ self.entry.taken) × (result.1 ≡ self.entry.party) }
    {
        let Inbox {
            shared: _,
            taken,
            party,
        } = self;
        (taken, party)
    }
}
