//! The receiving side of a channel.
//!
//! A receiver has a party of the queue. When it finds nothing and no sender is left, it absorbs the parties of all
//! senders. Its party is then whole: nobody else can put an element in, so a try that finds nothing shows that each
//! element that came in has gone out.
//!
//! `batches` has the calls that receive several elements, and `deadline` the one that waits for a limited time.
ghost use Rattle.std.specs.Arc.{arc_value};
ghost use Rattle.std.specs.Prelude.{◌≡◌, ◌≢◌, [], ◌∷◌, true, false, MatchResult};
ghost use Rattle.cordyceps_shared.specs.Histories.{plain};
ghost use Rattle.cordyceps_shared.specs.Knowing.{IsPrefixOf};
ghost use Rattle.cordyceps_shared.specs.Shares.{whole, gives_half};
ghost use Rattle.cordyceps_channel.specs.Channels.{Receives, FindsNone, IsOver, HasRegister, Stays};

use crate::bell::Listening;
use crate::errors::{Disconnected, TryRecvError};
use crate::register::{Register, RegisterPlace};
use crate::shared::Shared;
use crate::taker::Taker;
use crate::wake::{NoWake, Wake};
use cordyceps_base::linked::Linked;
use cordyceps_base::mpsc_queue::Links;
use cordyceps_queue::mpsc_queue::Receipt;
use std::alloc::Global;
use std::marker::Model;
use std::sync::atomic::Ordering;
use std::sync::{Arc, Wait};

/// The receiving side of a channel. It can be sent to a thread if `T::Handle` can.
///
/// Dropping a receiver ends it, which the senders are told. Elements that it has not received are dropped with the
/// channel.
///
/// A contract sees the party of the receiver: the table of the channel's queue, and what the receiver has seen, in
/// which its own events are marked. What it `received` are the elements that its own events took out.
///
/// # Complexity
/// Dropping a receiver is O(1), unless it is the last of the channel's two sides: then the queue is dropped too.
pub struct Receiver<T: Linked<Links<T>>, W: Wake + Drop = NoWake> {
    pub(crate) shared: Arc<Shared<T, W>, Global>,
    register: RegisterPlace<T>,
    pub(crate) taker: Taker<T>,
    is_last: bool,
}

impl<T: Linked<Links<T>>, W: Wake + Drop> Model for Receiver<T, W> {
    ghost use Rattle.std.specs.Arc.{arc_value};
    ghost use Rattle.cordyceps_queue.specs.Shared.Calls.{PartyOf};
    ghost use Rattle.cordyceps_channel.specs.Channels.{IsReceiver};

    ghost Value = { PartyOf T.Handle };

    ghost view = { λ r. r.taker.party };

    ghost invariant = { λ r.
        IsReceiver (arc_value (arc_value r.shared).queue).table r.register r.is_last r.taker.party };
}

impl<T: Linked<Links<T>>, W: Wake + Drop> Drop for Receiver<T, W> {
    /// Ends the receiver, and tells the senders.
    ///
    /// # Complexity
    /// O(1), and that of dropping the queue if nothing else of the channel is left.
    fn drop(self) {
        let Receiver {
            shared,
            register,
            taker,
            is_last: _,
        } = self;
        shared.receiver_has_ended.store(true, Ordering::SeqCst);
        shared.freed.ring();
        drop(taker);
        drop(register);
    }
}

impl<T: Linked<Links<T>>, W: Wake + Drop> Receiver<T, W> {
    /// Makes a receiver of a taker.
    pub(crate) fn of(
        shared: Arc<Shared<T, W>, Global>,
        register: RegisterPlace<T>,
        taker: Taker<T>,
    ) -> Receiver<T, W>
        requires register { HasRegister (arc_value (arc_value shared).queue).table false register }
        requires table { taker.party.table ≡ (arc_value (arc_value shared).queue).table }
        requires share { taker.party.share ≡ gives_half whole }
        ensures { result ≡ taker.party }
    {
        Receiver {
            shared,
            register,
            taker,
            is_last: false,
        }
    }

    /// Frees all rooms that the receiver has, if they are at least a batch.
    pub(crate) fn free_batch(&mut self)
        ensures { Stays self.old self.new }
    {
        if self.taker.give_back(self.shared.batch) {
            self.shared.freed.ring();
        }
    }

    /// Absorbs the parties of all senders, if all have ended, and returns whether they have.
    fn gather(&mut self) -> bool
        ensures received { Receives [] self.old self.new }
        ensures last { result ≡ true → self.new.share ≡ whole }
        ensures others { result ≡ false → (self.new ≡ self.old) × (self.new.share ≢ whole) }
    {
        if self.is_last {
            return true;
        }
        if self.shared.senders.load(Ordering::SeqCst) > 0 {
            return false;
        }
        let Some(mut register) = self.register.take() else {
            return false;
        };
        if !register.collect(&self.shared.queue) {
            self.register.put(register);
            return false;
        }
        let Register { party, homes } = register;
        drop(homes);
        self.taker.absorb(party);
        self.is_last = true;
        true
    }

    /// Returns whether all senders have ended, and frees all rooms if they have not.
    pub(crate) fn is_end(&mut self) -> bool
        ensures received { Receives [] self.old self.new }
        ensures last { result ≡ true → self.new.share ≡ whole }
        ensures others { result ≡ false → Stays self.old self.new × (self.new.share ≢ whole) }
    {
        if self.gather() {
            return true;
        }
        if self.taker.give_all() {
            self.shared.freed.ring();
        }
        false
    }

    /// Receives the oldest element, if one is there.
    ///
    /// # Errors
    /// It returns `Disconnected` if all senders have ended and each element that was sent has been received, and else
    /// `Empty`. `Empty` may also be returned while a sender is in `try_send`, or in `try_clone`.
    ///
    /// # Complexity
    /// O(1), and O(n) once, for n senders, when all have ended.
    ///
    /// # Waits
    /// Never.
    pub fn try_recv(&mut self) -> Result<T::Handle, TryRecvError>
        ensures { MatchResult result (λ handle. Receives (handle ∷ []) self.old self.new)
            (λ why. FindsNone why self.old self.new) }
    {
        if let Some(handle) = self.taker.try_dequeue() {
            self.free_batch();
            return Ok(handle);
        }
        if !self.is_end() {
            return Err(TryRecvError::Empty);
        }
        // Elements may have come in between the try and the end of the last sender.
        match self.taker.try_dequeue() {
            Some(handle) => Ok(handle),
            None => Err(TryRecvError::Disconnected),
        }
    }

    /// Receives the oldest element, and waits while none is there.
    ///
    /// # Errors
    /// If all senders have ended and each element that was sent has been received, it returns `Disconnected`.
    ///
    /// # Complexity
    /// That of `try_recv` for each try.
    ///
    /// # Waits
    /// For an element, or for the last sender to end. It looks some times, and then sleeps.
    ///
    /// # Examples
    /// From `laws::receive_all` of `cordyceps_channel`:
    /// ```
    /// match receiver.recv(rt) {
    ///     Ok(element) => all.push(element)?,
    ///     Err(Disconnected { value: () }) => return Ok(all),
    /// }
    /// ```
    pub fn recv<R: Wait>(&mut self, rt: &R) -> Result<T::Handle, Disconnected>
        ensures { MatchResult result (λ handle. Receives (handle ∷ []) self.old self.new)
            (λ _. Receives [] self.old self.new × IsOver self.new) }
    {
        let mut listening = Listening::new();
        for _ in rt.forever() {
            match self.try_recv() {
                Ok(handle) => {
                    self.shared.sent.leave(listening);
                    return Ok(handle);
                }
                Err(TryRecvError::Disconnected) => {
                    self.shared.sent.leave(listening);
                    return Err(Disconnected { value: () });
                }
                Err(TryRecvError::Empty) => self.shared.sent.wait(rt, &mut listening),
            }
        }
        unreachable!()
    }

    /// Arms the receiver: the next sender that sends or ends calls the waker of `channel_with_waker`, once. Does nothing
    /// in a channel without a waker.
    ///
    /// An event loop arms the receiver, and then receives until nothing is there before it sleeps: what comes after the
    /// last try finds the receiver armed.
    ///
    /// # Complexity
    /// O(1).
    ///
    /// # Waits
    /// Never.
    pub fn arm(&mut self)
        ensures { self.new ≡ self.old }
    {
        self.shared.sent.arm();
    }

    /// Disarms the receiver, and returns whether it was armed, which it is until a sender has called the waker.
    ///
    /// # Complexity
    /// O(1).
    ///
    /// # Waits
    /// Never.
    pub fn disarm(&mut self) -> bool
        ensures { self.new ≡ self.old }
    {
        self.shared.sent.disarm()
    }

    /// Learns a receipt of a sender. The receiver has then seen all that the receipt tells. Requires that the receipt
    /// is of this channel.
    ///
    /// # Complexity
    /// O(1): two loads.
    ///
    /// # Waits
    /// Never.
    ///
    /// # Examples
    /// From `laws::close_and_receive` of `cordyceps_channel`:
    /// ```
    /// receiver.learn(sender.close());
    /// receive_all(rt, alloc, receiver)
    /// ```
    pub fn learn(&mut self, receipt: Receipt<T>)
        requires { receipt.table ≡ self.old.table }
        ensures received { Receives [] self.old self.new }
        ensures told { IsPrefixOf receipt.told (plain self.new.seen) }
    {
        self.taker.learn(receipt);
    }
}
