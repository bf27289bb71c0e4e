//! Receipts: what a party has seen, for other parties to learn.
ghost use Rattle.std.specs.Prelude.{◌≡◌, ◌≢◌, []};
ghost use Rattle.cordyceps_shared.specs.Histories.{plain};
ghost use Rattle.cordyceps_stack.specs.Shared.Parts.{IsSeatOf};
ghost use Rattle.cordyceps_stack.specs.Shared.Receipts.{Learns};
ghost use Rattle.cordyceps_stack.specs.Shared.Slots.{view, hand};
ghost use Rattle.cordyceps_stack.specs.Shared.Telling.{view_telling, view_hearing, HasHeard};

use crate::shared::calls::{Party, TransferStack};
use crate::shared::plays::{Hear, Heard, Tell};
use crate::shared::table::{PartySeat, Words};
use cordyceps_base::linked::Linked;
use cordyceps_base::stack::Links;
use cordyceps_shared::layout::HEAD;
use std::marker::Model;

/// Splits a seat without a share off, which tells what this one has seen.
pub(crate) fn tell<E: Drop>(words: &Words<E>, seat: &mut PartySeat<E>) -> PartySeat<E>
    requires { IsSeatOf seat.old.table_id words.now.table_id }
    ensures table { (seat.new.table_id ≡ seat.old.table_id) × (result.table_id ≡ seat.old.table_id) }
    ensures views { (seat.new.me ≡ seat.old.me) × (result.me ≡ (view_telling (view seat.old.me), [])) }
{
    words.split_seat::<Tell>(seat)
}

/// Takes in a seat without a share, and looks at the history, which begins with what that seat told.
pub(crate) fn hear<E: Drop>(words: &Words<E>, seat: &mut PartySeat<E>, other: PartySeat<E>)
    requires table { IsSeatOf seat.old.table_id words.now.table_id × IsSeatOf other.table_id words.now.table_id }
    requires named { (view seat.old.me).known.share ≢ [] }
    requires bare { ((view other.me).known.share ≡ []) × (hand other.me ≡ []) }
    ensures table { seat.new.table_id ≡ seat.old.table_id }
    ensures heard { HasHeard (view_hearing (view seat.old.me) (view other.me), hand seat.old.me) seat.new.me }
{
    words.join_seat::<Hear>(seat, other);
    words.load::<Heard>(seat, HEAD);
}

/// What a party has seen of its stack, for another party to learn. It has no rooms, and can be sent to a thread if
/// `T::Handle` can.
///
/// A party learns what others did when it calls the stack, but not always at once. One thread may tell another by other
/// means that an element was pushed, as by a channel or a mutex. If it passes a receipt along, and the other learns it,
/// the other finds the element, unless it has been taken.
///
/// A contract sees the table of its stack, and the history that it tells. A receipt may be dropped at any time, and
/// nothing is lost.
///
/// # Complexity
/// Dropping a receipt is O(1).
///
/// # Examples
/// From `laws::take_told` of `cordyceps_stack`:
/// ```
/// stack.learn(party, receipt);
/// stack.take_all(party)
/// ```
#[derive(Drop)]
pub struct Receipt<T: Linked<Links<T>>> {
    pub(crate) seat: PartySeat<T::Handle>,
}

impl<T: Linked<Links<T>>> Model for Receipt<T> {
    ghost use Rattle.cordyceps_stack.specs.Shared.Receipts.{ReceiptOf};
    ghost use Rattle.cordyceps_stack.specs.Shared.Telling.{IsReceipt, receipt_of};

    ghost Value = { ReceiptOf T.Handle };

    ghost view = { λ r. receipt_of r.seat.table_id r.seat.me.0 };

    ghost invariant = { λ r. IsReceipt r.seat.table_id r.seat.me };
}

impl<T: Linked<Links<T>>> TransferStack<T> {
    /// Returns a receipt: it tells another thread's party what this party has seen.
    ///
    /// # Complexity
    /// O(1): one load.
    ///
    /// # Waits
    /// Never.
    pub fn receipt(&self, party: &mut Party<T>) -> Receipt<T>
        requires { party.old.table ≡ self.now }
        ensures party { party.new ≡ party.old }
        ensures receipt { (result.table ≡ self.now) × (result.told ≡ plain party.old.seen) }
    {
        let seat = tell(&self.rooms.shared, &mut party.seat);
        Receipt { seat }
    }

    /// Returns a second receipt that tells the same.
    ///
    /// # Complexity
    /// O(1): one load.
    ///
    /// # Waits
    /// Never.
    pub fn copy_receipt(&self, receipt: &mut Receipt<T>) -> Receipt<T>
        requires { receipt.old.table ≡ self.now }
        ensures { (receipt.new ≡ receipt.old) × (result ≡ receipt.old) }
    {
        let seat = tell(&self.rooms.shared, &mut receipt.seat);
        Receipt { seat }
    }

    /// Learns a receipt: the party has then seen all that the receipt tells, and what it had seen itself.
    ///
    /// # Complexity
    /// O(1): two loads.
    ///
    /// # Waits
    /// Never.
    ///
    /// # Examples
    /// From `laws::take_told` of `cordyceps_stack`:
    /// ```
    /// stack.learn(party, receipt);
    /// stack.take_all(party)
    /// ```
    pub fn learn(&self, party: &mut Party<T>, receipt: Receipt<T>)
        requires { (party.old.table ≡ self.now) × (receipt.table ≡ self.now) }
        ensures { Learns receipt.told party.old party.new }
    {
        let Receipt { seat } = receipt;
        hear(&self.rooms.shared, &mut party.seat, seat);
    }
}
