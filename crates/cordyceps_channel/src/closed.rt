//! What is left of a sender that has ended.
//!
//! A receipt tells a receiver what a sender saw, but not whose it is. What is left of a sender also remembers its party,
//! at no cost when the program runs. So a law can say what several senders have sent, after their threads have ended.
ghost use Rattle.std.specs.Prelude.{◌≡◌};
ghost use Rattle.cordyceps_shared.specs.Histories.{plain};
ghost use Rattle.cordyceps_channel.specs.Channels.{IsClosed, IsNamed};

use cordyceps_base::linked::Linked;
use cordyceps_base::mpsc_queue::Links;
use cordyceps_queue::mpsc_queue::{Party, Receipt};
use std::marker::Model;
use std::snapshot::Snapshot;

/// What is left of a sender that has ended. It can be sent to a thread if `T::Handle` can.
///
/// A contract sees the party of the sender, as it was at the end.
#[derive(Drop)]
pub struct Closed<T: Linked<Links<T>>> {
    receipt: Receipt<T>,
    party: Snapshot<Party<T>>,
}

impl<T: Linked<Links<T>>> Model for Closed<T> {
    ghost use Rattle.cordyceps_queue.specs.Shared.Calls.{PartyOf};
    ghost use Rattle.cordyceps_channel.specs.Channels.{IsClosed};

    ghost Value = { PartyOf T.Handle };

    ghost view = { λ c. c.party.value };

    ghost invariant = { λ c. IsClosed c.receipt c.party.value };
}

impl<T: Linked<Links<T>>> Closed<T> {
    /// Makes what is left of a sender with this party.
    pub(crate) fn of(receipt: Receipt<T>, party: Snapshot<Party<T>>) -> Closed<T>
        requires { IsClosed receipt party.value }
        ensures { result ≡ party.value }
    {
        Closed { receipt, party }
    }

    /// Returns the last receipt of the sender, as `Sender::close` does.
    ///
    /// # Complexity
    /// O(1).
    pub fn into_receipt(self) -> Receipt<T>
        ensures receipt { (result.table ≡ self.table) × (result.told ≡ plain self.seen) }
        ensures named { IsNamed self }
    {
        let Closed { receipt, .. } = self;
        receipt
    }
}
