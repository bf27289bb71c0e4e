//! The party of a receiver, which has the right to dequeue while elements come out one after the other.
//!
//! A party without the right takes it and gives it back at each try. A receiver keeps it while its tries succeed, and
//! gives it back when it finds nothing: then it gives all its rooms to the pool, which takes a party without the right.
ghost use Rattle.std.specs.Arc.{arc_value};
ghost use Rattle.std.specs.Prelude.{◌≡◌, ◌≤◌, [], ◌∷◌, true, false, MatchOption};
ghost use Rattle.cordyceps_shared.specs.Histories.{plain};
ghost use Rattle.cordyceps_shared.specs.Knowing.{IsPrefixOf};
ghost use Rattle.cordyceps_shared.specs.Shares.{whole, join_shares};
ghost use Rattle.cordyceps_queue.specs.Shared.Calls.{FindsBusy};
ghost use Rattle.cordyceps_channel.specs.Channels.{Receives, ReceivesBatch, IsOver, Misses, Stays, received};

use crate::shared::give_all_back;
use cordyceps_base::linked::Linked;
use cordyceps_base::mpsc_queue::Links;
use cordyceps_queue::mpsc_queue::{Batch, MpscQueue, OwnedConsumer, Party, Receipt};
use std::alloc::Global;
use std::marker::Model;
use std::sync::Arc;

/// The queue and a party that has not the right to dequeue.
type Resting<T> = (Arc<MpscQueue<T>, Global>, Party<T>);

/// The party of a receiver. A contract sees the party, and whether it has the right to dequeue.
#[derive(Drop)]
pub(crate) struct Taker<T: Linked<Links<T>>> {
    /// The party while it has the right.
    consumer: Option<OwnedConsumer<T>>,
    /// The party while it has not.
    resting: Option<Resting<T>>,
}

impl<T: Linked<Links<T>>> Model for Taker<T> {
    ghost use Rattle.std.specs.Arc.{arc_value};
    ghost use Rattle.cordyceps_queue.specs.Shared.Calls.{QueueOf};
    ghost use Rattle.cordyceps_channel.specs.Takers.{TakerOf, taker_of, IsTaker};

    ghost Value = { TakerOf T.Handle };

    ghost view = { λ t. taker_of t.consumer t.resting };

    ghost invariant = { λ t. IsTaker (λ q. (arc_value {X = QueueOf T.Handle} q).table) t.consumer t.resting };
}

impl<T: Linked<Links<T>>> Taker<T> {
    /// Makes a taker of a party that has not the right.
    pub fn new(queue: Arc<MpscQueue<T>, Global>, party: Party<T>) -> Taker<T>
        requires { party.table ≡ (arc_value queue).table }
        ensures { result.party ≡ party }
    {
        Taker {
            consumer: None,
            resting: Some((queue, party)),
        }
    }

    /// Takes the right, if the party has it not, and returns whether it has it then. Another party may have it.
    fn hold(&mut self) -> bool
        ensures holds { self.new.holds ≡ result }
        ensures stays { Stays self.old.party self.new.party }
        ensures whole { self.old.party.share ≡ whole → result ≡ true }
        ensures busy { result ≡ false → FindsBusy self.old.party self.new.party }
    {
        let Some((queue, party)) = self.resting.take() else {
            return true;
        };
        match MpscQueue::try_consume_owned(queue, party) {
            Ok(consumer) => {
                self.consumer = Some(consumer);
                true
            }
            Err(back) => {
                self.resting = Some(back);
                false
            }
        }
    }

    /// Gives the right back, if the party has it.
    fn rest(&mut self)
        ensures holds { self.new.holds ≡ false }
        ensures stays { Stays self.old.party self.new.party }
    {
        let Some(consumer) = self.consumer.take() else {
            return;
        };
        self.resting = Some(consumer.release());
    }

    /// Tries once to take an element out.
    pub fn try_dequeue(&mut self) -> Option<T::Handle>
        ensures answer { MatchOption result
            (Misses self.old.party self.new.party × (self.old.party.share ≡ whole → IsOver self.new.party))
            (λ handle. Receives (handle ∷ []) self.old.party self.new.party) }
        ensures share { self.new.party.share ≡ self.old.party.share }
    {
        if !self.hold() {
            return None;
        }
        let Some(consumer) = &mut self.consumer else {
            unreachable!()
        };
        match consumer.try_dequeue() {
            Ok(handle) => Some(handle),
            Err(_why) => None,
        }
    }

    /// Takes up to `max` elements out.
    pub fn take(&mut self, max: usize) -> Option<Batch<T>>
        requires { 1 ≤ max }
        ensures answer { MatchOption result
            (Misses self.old.party self.new.party × (self.old.party.share ≡ whole → IsOver self.new.party))
            (λ batch. ReceivesBatch T.element max batch self.old.party self.new.party) }
        ensures share { self.new.party.share ≡ self.old.party.share }
    {
        if !self.hold() {
            return None;
        }
        let Some(consumer) = &mut self.consumer else {
            unreachable!()
        };
        match consumer.take_linked(max) {
            Ok(batch) => Some(batch),
            Err(_why) => None,
        }
    }

    /// Gives all of the party's rooms to the pool, if they are at least this many, and returns whether it gave them. It
    /// keeps the right to dequeue if the pool has no room.
    pub fn give_back(&mut self, at_least: usize) -> bool
        ensures stays { Stays self.old.party self.new.party }
        ensures gave { result ≡ true → self.new.party.rooms ≡ 0 }
    {
        let Some(consumer) = &mut self.consumer else {
            return false;
        };
        let rooms = consumer.rooms();
        if rooms < at_least {
            return false;
        }
        if consumer.give_back(rooms) {
            return true;
        }
        self.give_all()
    }

    /// Gives the right back, and all rooms to the pool, and returns whether the party had rooms.
    pub fn give_all(&mut self) -> bool
        ensures holds { self.new.holds ≡ false }
        ensures stays { Stays self.old.party self.new.party }
        ensures gave { result ≡ true → self.new.party.rooms ≡ 0 }
    {
        self.rest();
        let Some((queue, mut party)) = self.resting.take() else {
            unreachable!()
        };
        let gave = give_all_back(&queue, &mut party);
        self.resting = Some((queue, party));
        gave
    }

    /// Takes another party in, which took nothing out.
    pub fn absorb(&mut self, other: Party<T>)
        requires table { other.table ≡ self.old.party.table }
        requires none { received other ≡ [] }
        ensures received { Receives [] self.old.party self.new.party }
        ensures share { self.new.party.share ≡ join_shares self.old.party.share other.share }
    {
        self.rest();
        let Some((queue, mut party)) = self.resting.take() else {
            unreachable!()
        };
        queue.absorb(&mut party, other);
        self.resting = Some((queue, party));
    }

    /// Learns a receipt.
    pub fn learn(&mut self, receipt: Receipt<T>)
        requires { receipt.table ≡ self.old.party.table }
        ensures stays { Stays self.old.party self.new.party }
        ensures told { IsPrefixOf receipt.told (plain self.new.party.seen) }
    {
        self.rest();
        let Some((queue, mut party)) = self.resting.take() else {
            unreachable!()
        };
        queue.learn(&mut party, receipt);
        self.resting = Some((queue, party));
    }
}
