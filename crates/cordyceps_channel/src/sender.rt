//! The sending side of a channel.
//!
//! A sender has a party of the queue. Its rooms are few at a time: it takes up to a quantum when it has none, and gives
//! all back when it ends. When it ends it leaves its party in its place of the register, which takes no memory and
//! waits for nobody: the place is this sender's alone until then. So the receiver can take all parties in at the end,
//! and its own is whole again.
ghost use Rattle.std.specs.Arc.{arc_value};
ghost use Rattle.std.specs.Prelude.{◌≡◌, ◌≢◌, ◌<◌, true, false, IfOk, MatchResult};
ghost use Rattle.cordyceps_shared.specs.Histories.{plain};
ghost use Rattle.cordyceps_shared.specs.Standings.{name_of};
ghost use Rattle.cordyceps_queue.specs.Shared.Calls.{FindsFull, Legal};
ghost use Rattle.cordyceps_channel.specs.Channels.{Sends, SendsNothing, HasBack, IsOpened, HasRegister, IsRegister};

use crate::bell::Listening;
use crate::closed::Closed;
use crate::errors::{Disconnected, TrySendError};
use crate::register::{Home, Opened, Register, RegisterPlace};
use crate::shared::{Shared, give_all_back};
use crate::wake::{NoWake, Wake};
use cordyceps_base::linked::Linked;
use cordyceps_base::mpsc_queue::Links;
use cordyceps_queue::mpsc_queue::{Party, Receipt};
use crossbeam_utils::Backoff;
use std::alloc::{AllocError, Global};
use std::marker::Model;
use std::snapshot::Snapshot;
use std::sync::atomic::Ordering;
use std::sync::{Arc, Wait};

/// The sending side of a channel. It can be sent to a thread if `T::Handle` can.
///
/// Dropping a sender ends it, which the receiver is told. A sender that is forgotten, as by `mem::forget`, never ends,
/// so the receiver waits for it.
///
/// A contract sees the party of the sender: the table of the channel's queue, and what the sender has seen, in which
/// its own events are marked. It sees no contents.
///
/// # Complexity
/// Dropping a sender is O(1), unless it is the last of the channel's two sides: then the queue is dropped too.
///
/// # Waits
/// Dropping a sender never waits.
pub struct Sender<T: Linked<Links<T>>, W: Wake + Drop = NoWake> {
    shared: Arc<Shared<T, W>, Global>,
    register: RegisterPlace<T>,
    /// The number of its place.
    number: usize,
    home: Home<T>,
    party: Party<T>,
}

impl<T: Linked<Links<T>>, W: Wake + Drop> Model for Sender<T, W> {
    ghost use Rattle.std.specs.Arc.{arc_value};
    ghost use Rattle.cordyceps_queue.specs.Shared.Calls.{PartyOf};
    ghost use Rattle.cordyceps_channel.specs.Channels.{IsSender};

    ghost Value = { PartyOf T.Handle };

    ghost view = { λ s. s.party };

    ghost invariant = { λ s. IsSender (arc_value (arc_value s.shared).queue).table s.number s.register s.party s.home };
}

impl<T: Linked<Links<T>>, W: Wake + Drop> Drop for Sender<T, W> {
    /// Ends the sender: gives its rooms back, leaves its party in its place, and tells the receiver.
    ///
    /// # Complexity
    /// O(1), and that of dropping the queue if nothing else of the channel is left.
    fn drop(self) {
        let Sender {
            shared,
            register,
            number: _,
            mut home,
            mut party,
        } = self;
        give_all_back(&shared.queue, &mut party);
        shared.freed.ring();
        home.put(party);
        shared.senders.fetch_sub(1, Ordering::SeqCst);
        shared.sent.ring();
        drop(register);
    }
}

impl<T: Linked<Links<T>>, W: Wake + Drop> Sender<T, W> {
    /// Makes a sender of an opened party.
    pub(crate) fn of(
        shared: Arc<Shared<T, W>, Global>,
        register: RegisterPlace<T>,
        opened: Opened<T>,
    ) -> Sender<T, W>
        requires register { HasRegister (arc_value (arc_value shared).queue).table false register }
        requires opened { IsOpened (arc_value (arc_value shared).queue).table opened.number opened.party opened.home }
        ensures { result ≡ opened.party }
    {
        let Opened {
            number,
            party,
            home,
        } = opened;
        shared.senders.fetch_add(1, Ordering::SeqCst);
        Sender {
            shared,
            register,
            number,
            home,
            party,
        }
    }

    /// Takes rooms if the sender has none, and returns whether it has one.
    fn has_room(&mut self) -> bool
        ensures sends { SendsNothing self.old self.new }
        ensures room { result ≡ true → 0 < self.new.rooms }
        ensures full { result ≡ false → FindsFull self.old self.new }
    {
        if self.party.rooms() > 0 {
            return true;
        }
        let shared = &self.shared;
        let taken = shared.queue.refill_at_most(&mut self.party, shared.quantum);
        if taken == 0 {
            return false;
        }
        // Another sender may have found the pool empty while this one had all of its rooms.
        shared.freed.ring();
        true
    }

    /// Sends an element, if a room is free.
    ///
    /// # Errors
    /// It returns `Full` if no room was free, and `Disconnected` if the receiver has ended. Both have the element. An
    /// element that was sent while the receiver ended may not be received: it is dropped with the channel.
    ///
    /// # Complexity
    /// O(1), and O(q) where it takes a quantum of q rooms, at most 64.
    ///
    /// # Waits
    /// Never.
    pub fn try_send(&mut self, handle: T::Handle) -> Result<(), TrySendError<T::Handle>>
        ensures { MatchResult result (λ _. Sends handle self.old self.new)
            (λ why. HasBack handle why self.old self.new) }
    {
        if self.shared.receiver_has_ended.load(Ordering::SeqCst) {
            return Err(TrySendError::Disconnected(handle));
        }
        if !self.has_room() {
            return Err(TrySendError::Full(handle));
        }
        self.shared.queue.enqueue(&mut self.party, handle);
        self.shared.sent.ring();
        Ok(())
    }

    /// Sends an element, and waits while no room is free.
    ///
    /// # Errors
    /// If the receiver has ended, it returns `Disconnected` with the element.
    ///
    /// # Complexity
    /// That of `try_send` for each try.
    ///
    /// # Waits
    /// For the receiver to free a room, or to end. It looks some times, and then sleeps. In a channel without rooms it
    /// waits until the receiver ends.
    pub fn send<R: Wait>(
        &mut self,
        rt: &R,
        handle: T::Handle,
    ) -> Result<(), Disconnected<T::Handle>>
        ensures { MatchResult result (λ _. Sends handle self.old self.new)
            (λ why. (why.value ≡ handle) × SendsNothing self.old self.new) }
    {
        let mut listening = Listening::new();
        let mut handle = handle;
        for _ in rt.forever() {
            match self.try_send(handle) {
                Ok(()) => {
                    self.shared.freed.leave(listening);
                    return Ok(());
                }
                Err(TrySendError::Disconnected(value)) => {
                    self.shared.freed.leave(listening);
                    return Err(Disconnected { value });
                }
                Err(TrySendError::Full(value)) => handle = value,
            }
            self.shared.freed.wait(rt, &mut listening);
        }
        unreachable!()
    }

    /// Returns a receipt, which tells the receiver what this sender has seen: its own elements, and others'. That
    /// history is legal.
    ///
    /// # Complexity
    /// O(1): one load.
    ///
    /// # Waits
    /// Never.
    pub fn receipt(&mut self) -> Receipt<T>
        ensures same { self.new ≡ self.old }
        ensures receipt { (result.table ≡ self.old.table) × (result.told ≡ plain self.old.seen) }
        ensures legal { Legal result.told }
    {
        let _rooms = self.party.rooms();
        self.shared.queue.receipt(&mut self.party)
    }

    /// Ends the sender, as its drop does, and returns its last receipt. A receiver that learns it knows all that this
    /// sender sent.
    ///
    /// # Complexity
    /// That of a drop.
    ///
    /// # Waits
    /// Never.
    pub fn close(self) -> Receipt<T>
        ensures receipt { (result.table ≡ self.table) × (result.told ≡ plain self.seen) }
        ensures legal { Legal result.told }
    {
        let mut sender = self;
        let receipt = sender.receipt();
        drop(sender);
        receipt
    }

    /// Ends the sender, as `close` does, and returns what is left of it, of which `laws::receive_all_of` says what this
    /// sender and others have sent.
    ///
    /// # Complexity
    /// That of a drop.
    ///
    /// # Waits
    /// Never.
    pub fn finish(self) -> Closed<T>
        ensures { result ≡ self }
    {
        let mut sender = self;
        let receipt = sender.receipt();
        let party = Snapshot::of(&sender.party);
        drop(sender);
        Closed::of(receipt, party)
    }

    /// Returns another sender of the same channel. It takes over the party of one that has ended, if there is one, and
    /// counts what that one has sent as its own.
    ///
    /// # Errors
    /// If memory is refused, it returns `AllocError`, and the channel is as before.
    ///
    /// # Complexity
    /// O(n), for the n senders that there were at most at a time. Without one that has ended, it allocates a place.
    ///
    /// # Waits
    /// While another thread clones a sender of this channel.
    pub fn try_clone<R: Wait>(&mut self, rt: &R) -> Result<Sender<T, W>, AllocError>
        ensures same { self.new ≡ self.old }
        ensures made { IfOk result (λ sender. sender.table ≡ self.old.table) }
        ensures apart { IfOk result (λ sender. name_of sender ≢ name_of self.old) }
    {
        let shared = Arc::try_clone(&self.shared)?;
        let place = self.register.another()?;
        let mut register = take_register(rt, &mut self.register);
        let opened = register.open(shared.alloc, &shared.queue);
        self.register.put(register);
        let opened = opened?;
        // Two senders never have one place. The proof knows it from this test.
        if opened.number == self.number {
            return Err(AllocError);
        }
        Ok(Sender::of(shared, place, opened))
    }
}

/// Takes the register out of its place, and waits while another sender has it.
fn take_register<T: Linked<Links<T>>, R: Wait>(rt: &R, place: &mut RegisterPlace<T>) -> Register<T>
    requires { place.old.took ≡ false }
    ensures place { place.new ≡ record place.old { took = true } }
    ensures register { IsRegister place.old.key.value.table result.party result.homes.items }
{
    let backoff = Backoff::new();
    for _ in rt.forever() {
        if let Some(register) = place.take() {
            return register;
        }
        backoff.snooze();
    }
    unreachable!()
}
