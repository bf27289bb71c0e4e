//! Receiving from several channels by one thread.
//!
//! The receivers of a select listen to one bell, so a thread that waits for all of them sleeps once. A try asks each
//! receiver once, in two rows: those behind the one from which it received last, and then the others, so that no channel
//! is left out while others are busy. If each of them is disconnected, so is the select, since an end is final.
ghost use Rattle.std.specs.Prelude.{◌≡◌, ◌≤◌, ◌++◌, [], ◌∷◌, length, IfOk, MatchResult};
ghost use Rattle.cordyceps_channel.specs.Channels.{IsChannel};
ghost use Rattle.cordyceps_channel.specs.Selects.{AreOver, ReceivesAt, ReceivesNothing, SelectsNone, SelectsNoneInTime};
ghost use Rattle.cordyceps_channel.specs.Selects.{At, LearnsAt, RowFindsNone, worst};

use crate::bell::{Bell, Listening};
use crate::errors::{Disconnected, RecvTimeoutError, TryRecvError};
use crate::pair::channel_at;
use crate::receiver::Receiver;
use crate::sender::Sender;
use crate::wake::{NoWake, Wake};
use cordyceps_base::linked::Linked;
use cordyceps_base::mpsc_queue::Links;
use cordyceps_base::shared::MAX_ROOMS;
use cordyceps_queue::mpsc_queue::Receipt;
use std::alloc::{AllocError, Global};
use std::marker::Model;
use std::sync::{Arc, Wait};
use std::time::{Clock, Instant};

/// What a select received, and from which of its channels.
#[derive(Drop, Clone, Copy, PartialEq, Eq, Debug)]
pub struct Selected<H> {
    /// The number of the channel. The first that the select created has the number 0.
    pub index: usize,
    /// The element.
    pub value: H,
}

/// The receivers of several channels, from which one thread receives.
///
/// It creates its channels itself, since their receivers listen to one bell. They have elements of one type. Dropping a
/// select ends all receivers.
///
/// A contract sees the parties of the receivers, in the order in which their channels were created.
#[derive(Drop)]
pub struct Select<T: Linked<Links<T>>, W: Wake + Drop = NoWake> {
    alloc: Global,
    bell: Arc<Bell<W>, Global>,
    receivers: Vec<Receiver<T, W>>,
    turn: usize,
}

impl<T: Linked<Links<T>>, W: Wake + Drop> Model for Select<T, W> {
    ghost use Rattle.std.specs.Prelude.{List};
    ghost use Rattle.cordyceps_queue.specs.Shared.Calls.{PartyOf};

    ghost Value = { List (PartyOf T.Handle) };

    ghost view = { λ s. s.receivers.items };
}

/// Returns the worse of two answers: `Disconnected` only if both are.
fn worse(first: TryRecvError, second: TryRecvError) -> TryRecvError
    ensures { result ≡ worst first second }
{
    match first {
        TryRecvError::Disconnected => second,
        TryRecvError::Empty => TryRecvError::Empty,
    }
}

impl<T: Linked<Links<T>>> Select<T> {
    /// Creates a select without channels.
    ///
    /// # Errors
    /// If memory is refused, it returns `AllocError`.
    ///
    /// # Complexity
    /// O(1).
    pub fn new(alloc: Global) -> Result<Select<T>, AllocError>
        ensures { IfOk result (λ select. select ≡ []) }
    {
        Select::with_waker(alloc, NoWake)
    }
}

impl<T: Linked<Links<T>>, W: Wake + Drop> Select<T, W> {
    /// Creates a select without channels that an event loop can wait for: once it is armed, the next sender of one of
    /// its channels that sends or ends calls the waker.
    ///
    /// # Errors
    /// If memory is refused, it returns `AllocError`.
    ///
    /// # Complexity
    /// O(1).
    pub fn with_waker(alloc: Global, waker: W) -> Result<Select<T, W>, AllocError>
        ensures { IfOk result (λ select. select ≡ []) }
    {
        Ok(Select {
            alloc,
            bell: Arc::new(alloc, Bell::new(waker))?,
            receivers: Vec::new(alloc),
            turn: 0,
        })
    }

    /// Creates a channel with `rooms` rooms, keeps its receiver, and returns its first sender. Requires that `rooms` is
    /// at most `MAX_ROOMS`.
    ///
    /// # Errors
    /// If memory is refused, it returns `AllocError`, and the select is unchanged.
    ///
    /// # Complexity
    /// O(`rooms`), and O(n) at times, for n channels.
    pub fn channel(&mut self, rooms: usize) -> Result<Sender<T, W>, AllocError>
        requires { rooms ≤ MAX_ROOMS }
        ensures { MatchResult result
            (λ sender. (receiver : _) × IsChannel rooms sender receiver × (self.new ≡ self.old ++ receiver ∷ []))
            (λ _. self.new ≡ self.old) }
    {
        self.receivers.try_reserve(1)?;
        let (sender, receiver) = channel_at(Arc::try_clone(&self.bell)?, self.alloc, rooms)?;
        self.receivers.push_reserved(receiver);
        Ok(sender)
    }

    /// Returns the number of channels.
    pub fn len(&self) -> usize
        ensures { result ≡ length self.now }
    {
        self.receivers.len()
    }

    /// Receives an element from one of the channels, if one is there. Channels have turns: the search begins behind the
    /// channel from which the select received last.
    ///
    /// # Errors
    /// It returns `Disconnected` if all senders of all channels have ended and each element that was sent has been
    /// received, and else `Empty`. A select without channels is disconnected.
    ///
    /// # Complexity
    /// That of a call of `Receiver::try_recv` for each channel.
    ///
    /// # Waits
    /// Never.
    pub fn try_recv(&mut self) -> Result<Selected<T::Handle>, TryRecvError>
        ensures { MatchResult result (λ found. ReceivesAt found.index found.value self.old self.new)
            (λ why. SelectsNone why self.old self.new) }
    {
        let count = self.receivers.len();
        let turn = self.turn.min(count);
        match self.try_row(turn, count) {
            Ok(found) => Ok(found),
            Err(behind) => match self.try_row(0, turn) {
                Ok(found) => Ok(found),
                Err(before) => Err(worse(behind, before)),
            },
        }
    }

    /// Tries each receiver from `first` on, and before `end`, until one has an element.
    fn try_row(&mut self, first: usize, end: usize) -> Result<Selected<T::Handle>, TryRecvError>
        requires { (first ≤ end) × (end ≤ length self.old) }
        ensures { MatchResult result (λ found. ReceivesAt found.index found.value self.old self.new)
            (λ why. RowFindsNone why first end self.old self.new) }
    {
        let mut none = TryRecvError::Disconnected;
        for index in first..end {
            match self.receivers[index].try_recv() {
                Ok(value) => {
                    self.turn = index + 1;
                    return Ok(Selected { index, value });
                }
                Err(why) => none = worse(none, why),
            }
        }
        Err(none)
    }

    /// Receives an element from one of the channels, and waits while none is there.
    ///
    /// # Errors
    /// If all senders of all channels have ended and each element that was sent has been received, it returns
    /// `Disconnected`. A select without channels is disconnected.
    ///
    /// # Complexity
    /// That of `try_recv` for each try.
    ///
    /// # Waits
    /// For an element of one of the channels, or for the last sender of all of them to end. It looks some times, and
    /// then sleeps.
    pub fn recv<R: Wait>(&mut self, rt: &R) -> Result<Selected<T::Handle>, Disconnected>
        ensures { MatchResult result (λ found. ReceivesAt found.index found.value self.old self.new)
            (λ _. ReceivesNothing self.old self.new × AreOver self.new) }
    {
        let mut listening = Listening::new();
        for _ in rt.forever() {
            match self.try_recv() {
                Ok(found) => {
                    self.bell.leave(listening);
                    return Ok(found);
                }
                Err(TryRecvError::Disconnected) => {
                    self.bell.leave(listening);
                    return Err(Disconnected { value: () });
                }
                Err(TryRecvError::Empty) => self.bell.wait(rt, &mut listening),
            }
        }
        unreachable!()
    }

    /// Receives an element from one of the channels, and waits while none is there, until a deadline.
    ///
    /// # Errors
    /// It returns `Disconnected` as `recv` does, and `Timeout` if the deadline passed while no element was there. A
    /// clock that cannot be read ends the wait.
    ///
    /// # Complexity
    /// That of `try_recv` for each try.
    ///
    /// # Waits
    /// As `recv`, and no longer than until the deadline.
    pub fn recv_deadline<R: Wait + Clock>(
        &mut self,
        rt: &R,
        deadline: Instant,
    ) -> Result<Selected<T::Handle>, RecvTimeoutError>
        ensures { MatchResult result (λ found. ReceivesAt found.index found.value self.old self.new)
            (λ why. SelectsNoneInTime why self.old self.new) }
    {
        let mut listening = Listening::new();
        for _ in rt.forever() {
            match self.try_recv() {
                Ok(found) => {
                    self.bell.leave(listening);
                    return Ok(found);
                }
                Err(TryRecvError::Disconnected) => {
                    self.bell.leave(listening);
                    return Err(RecvTimeoutError::Disconnected);
                }
                Err(TryRecvError::Empty) => {
                    if !self.bell.wait_until(rt, &mut listening, deadline) {
                        self.bell.leave(listening);
                        return Err(RecvTimeoutError::Timeout);
                    }
                }
            }
        }
        unreachable!()
    }

    /// Learns a receipt of a sender of the channel with this number. Its receiver has then seen all that the receipt
    /// tells. Requires that the select has this channel, and that the receipt is of it.
    ///
    /// # Complexity
    /// O(1): two loads.
    ///
    /// # Waits
    /// Never.
    ///
    /// # Examples
    /// From `laws::close_and_select` of `cordyceps_channel`:
    /// ```
    /// select.learn(index, sender.close());
    /// select_all(rt, alloc, select)
    /// ```
    pub fn learn(&mut self, index: usize, receipt: Receipt<T>)
        requires { At index (λ u. receipt.table ≡ u.table) self.old }
        ensures { LearnsAt index receipt.told self.old self.new }
    {
        self.receivers[index].learn(receipt);
    }

    /// Arms the select: the next sender of one of the channels that sends or ends calls the waker of `with_waker`, once.
    /// It is used as `Receiver::arm`.
    ///
    /// # Complexity
    /// O(1).
    ///
    /// # Waits
    /// Never.
    pub fn arm(&mut self)
        ensures { self.new ≡ self.old }
    {
        self.bell.arm();
    }

    /// Disarms the select, and returns whether it was armed, which it is until a sender has called the waker.
    ///
    /// # Complexity
    /// O(1).
    ///
    /// # Waits
    /// Never.
    pub fn disarm(&mut self) -> bool
        ensures { self.new ≡ self.old }
    {
        self.bell.disarm()
    }
}
