//! The machine of a core: its words, its rooms and the stages of its parties.
//!
//! The head of `specs/Cores/Machine.antt` has a picture of the four readings of one machine, of which this is the code.
ghost use Rattle.std.specs.Prelude.{◌≡◌, ◌≢◌, ◌<◌, ◌++◌, ◌∷◌, [], length, Some, None, IsSome, IfOk, OnOk, OnErr, slice_get, nat_eq, is_some};
ghost use Rattle.cordyceps_shared.specs.Rooms.{element_in, next_in};
ghost use Rattle.cordyceps_queue.specs.Cores.Machine.{after_step, acts, least_free, set_stage, clear, swap, link, take, give, hand_out, look, read, read_again, read_stub, head_stub, head_tail};
ghost use Rattle.cordyceps_queue.specs.Cores.CoreMeets.{IsSound, new_machine, with_party, with_room};
ghost use Rattle.cordyceps_queue.specs.Cores.Drain.{count_held};

use crate::cores::rooms::Rooms;
use crate::cores::stage::Stage;
use crate::cores::steps::QueueStep::{Clear, Give, Link, ReadHead, ReadNext, Swap, Take};
use crate::cores::steps::{Answered, QueueAnswer, QueueStep};
use cordyceps_base::shared::StepError;
use std::alloc::{AllocError, Global};
use std::marker::Model;

/// The head, the right to dequeue (the tail, or `None` while a party has it), the rooms, and each party's stage.
#[derive(Drop)]
pub(crate) struct Machine<E> {
    head: usize,
    right: Option<usize>,
    rooms: Rooms<E>,
    parties: Vec<Stage>,
}

impl<E> Model for Machine<E> {
    ghost use Rattle.cordyceps_queue.specs.Cores.Machine.{Machine};

    ghost Value = { Machine E };

    ghost view = { λ m. record { head = m.head; right = m.right; rooms = m.rooms; parties = m.parties.items } };
}

impl<E: Drop> Machine<E> {
    /// Creates a machine without parties, rooms and elements.
    pub(crate) fn new(alloc: Global) -> Self
        ensures { result ≡ new_machine }
    {
        Machine {
            head: 0,
            right: Some(0),
            rooms: Rooms::new(alloc),
            parties: Vec::new(alloc),
        }
    }

    /// Adds a party at rest, and returns its number.
    pub(crate) fn add_party(&mut self) -> Result<usize, AllocError>
        ensures ok { IfOk result (λ n. (n ≡ length self.old.parties) × (self.new ≡ with_party self.old)) }
        ensures err { OnErr result (self.new ≡ self.old) }
    {
        let party = self.parties.len();
        self.parties.push(Stage::Rest)?;
        Ok(party)
    }

    /// Adds a free room of a party.
    pub(crate) fn add_room(&mut self, party: usize) -> Result<(), AllocError>
        ensures ok { OnOk result (self.new ≡ with_room self.old party) }
        ensures err { OnErr result (self.new ≡ self.old) }
    {
        self.rooms.add(party)
    }

    /// Returns the stage of a party, if there is such a party.
    pub(crate) fn stage(&self, party: usize) -> Option<Stage>
        ensures { result ≡ slice_get self.now.parties party }
    {
        self.parties.get(party).copied()
    }

    /// Returns `true` if the party has a free room.
    pub(crate) fn has_room(&self, party: usize) -> bool
        ensures { result ≡ is_some (least_free party self.now.rooms) }
    {
        self.rooms.least_free(party).is_some()
    }

    /// Returns the number of elements, by a walk through all rooms and parties.
    pub(crate) fn count_held(&self) -> usize
        ensures { result ≡ count_held self.now }
    {
        let cleared = self
            .parties
            .iter()
            .filter(|stage| stage.is_cleared())
            .count();
        self.rooms.occupied().saturating_sub(cleared)
    }

    /// Moves a party to another stage, and returns `answer`.
    fn set_stage(&mut self, party: usize, stage: Stage, answer: QueueAnswer<E>) -> Answered<E>
        requires { party < length self.old.parties }
        ensures { (self.new, result) ≡ set_stage self.old party stage answer }
    {
        self.parties[party] = stage;
        Ok(answer)
    }

    fn clear(&mut self, party: usize, element: E) -> Answered<E>
        requires sound { IsSound self.old }
        requires at { slice_get self.old.parties party ≡ Some Stage.Rest }
        ensures { (self.new, result) ≡ clear self.old party element (least_free party self.old.rooms) }
    {
        let Some(room) = self.rooms.least_free(party) else {
            return Err((StepError::NotThere, Some(element)));
        };
        self.rooms.hold(room, element);
        self.parties[party] = Stage::Cleared(room);
        Ok(QueueAnswer::Done)
    }

    fn swap(&mut self, party: usize, room: usize, stage: Stage) -> Answered<E>
        requires { party < length self.old.parties }
        ensures { (self.new, result) ≡ swap self.old party room stage }
    {
        self.head = room;
        self.parties[party] = stage;
        Ok(QueueAnswer::Done)
    }

    fn link(&mut self, party: usize, room: usize, next: Option<usize>, stage: Stage) -> Answered<E>
        requires party { party < length self.old.parties }
        requires room { room < length self.old.rooms }
        ensures { (self.new, result) ≡ link self.old party room next stage }
    {
        self.rooms.link(room, next);
        self.parties[party] = stage;
        Ok(QueueAnswer::Done)
    }

    fn take(&mut self, party: usize) -> Answered<E>
        requires { party < length self.old.parties }
        ensures { (self.new, result) ≡ take self.old party self.old.right }
    {
        let Some(tail) = self.right else {
            return Ok(QueueAnswer::Busy);
        };
        self.right = None;
        self.parties[party] = Stage::Holding(tail);
        Ok(QueueAnswer::Taken)
    }

    fn give(&mut self, party: usize, tail: usize) -> Answered<E>
        requires { party < length self.old.parties }
        ensures { (self.new, result) ≡ give self.old party tail }
    {
        self.right = Some(tail);
        self.parties[party] = Stage::Rest;
        Ok(QueueAnswer::Done)
    }

    /// Takes the tail's element out, and moves the party to the next room.
    fn hand_out(&mut self, party: usize, tail: usize, next: usize) -> Answered<E>
        requires party { party < length self.old.parties }
        requires full { IsSome (element_in (slice_get self.old.rooms tail)) }
        ensures { (self.new, result) ≡ hand_out self.old party tail next (element_in (slice_get self.old.rooms tail)) }
    {
        let element = self.rooms.free(tail, party);
        self.parties[party] = Stage::Holding(next);
        Ok(QueueAnswer::Out(element))
    }

    fn read_stub(&mut self, party: usize) -> Answered<E>
        requires party { party < length self.old.parties }
        requires room { 0 < length self.old.rooms }
        ensures { (self.new, result) ≡ read_stub self.old party (next_in (slice_get self.old.rooms 0)) }
    {
        match self.rooms.next(0) {
            None => self.set_stage(party, Stage::StubNull, QueueAnswer::Done),
            Some(next) => self.set_stage(party, Stage::Second(next), QueueAnswer::Done),
        }
    }

    fn read(&mut self, party: usize, tail: usize) -> Answered<E>
        requires party { party < length self.old.parties }
        requires room { tail < length self.old.rooms }
        requires full { IsSome (element_in (slice_get self.old.rooms tail)) }
        ensures { (self.new, result) ≡ read self.old party tail (next_in (slice_get self.old.rooms tail)) }
    {
        match self.rooms.next(tail) {
            None => self.set_stage(party, Stage::Null(tail), QueueAnswer::Done),
            Some(next) => self.hand_out(party, tail, next),
        }
    }

    fn read_again(&mut self, party: usize, tail: usize) -> Answered<E>
        requires party { party < length self.old.parties }
        requires room { tail < length self.old.rooms }
        requires full { IsSome (element_in (slice_get self.old.rooms tail)) }
        ensures { (self.new, result) ≡ read_again self.old party tail (next_in (slice_get self.old.rooms tail)) }
    {
        match self.rooms.next(tail) {
            None => self.set_stage(party, Stage::Holding(tail), QueueAnswer::Inconsistent),
            Some(next) => self.hand_out(party, tail, next),
        }
    }

    fn look(&mut self, party: usize, tail: usize) -> Answered<E>
        requires party { party < length self.old.parties }
        requires room { tail < length self.old.rooms }
        requires full { tail ≢ 0 → IsSome (element_in (slice_get self.old.rooms tail)) }
        ensures { (self.new, result) ≡ look self.old party tail (next_in (slice_get self.old.rooms tail)) }
    {
        if tail == 0 {
            self.read_stub(party)
        } else {
            self.read(party, tail)
        }
    }

    fn head_stub(&mut self, party: usize) -> Answered<E>
        requires { party < length self.old.parties }
        ensures { (self.new, result) ≡ head_stub self.old party (nat_eq self.old.head 0) }
    {
        if self.head == 0 {
            self.set_stage(party, Stage::Holding(0), QueueAnswer::Empty)
        } else {
            self.set_stage(party, Stage::Holding(0), QueueAnswer::Inconsistent)
        }
    }

    fn head_tail(&mut self, party: usize, tail: usize) -> Answered<E>
        requires { party < length self.old.parties }
        ensures { (self.new, result) ≡ head_tail self.old party tail (nat_eq self.old.head tail) }
    {
        if self.head == tail {
            self.set_stage(party, Stage::PutClear(tail), QueueAnswer::Done)
        } else {
            self.set_stage(party, Stage::Holding(tail), QueueAnswer::Inconsistent)
        }
    }

    /// Takes a step of a party, or refuses it.
    pub(crate) fn act(&mut self, party: usize, step: QueueStep<E>) -> Answered<E>
        requires { IsSound self.old }
        ensures { (self.new, result) ≡ after_step self.old party step }
    {
        let Some(stage) = self.stage(party) else {
            return Err((StepError::NotThere, step.into_element()));
        };
        match (stage, step) {
            (Stage::Rest, Clear(Some(element))) => self.clear(party, element),
            (Stage::Rest, Take) => self.take(party),
            (Stage::Cleared(room), Swap) => self.swap(party, room, Stage::Swapped(room, self.head)),
            (Stage::Swapped(room, old), Link) => self.link(party, old, Some(room), Stage::Rest),
            (Stage::Holding(tail), ReadNext) => self.look(party, tail),
            (Stage::Holding(tail), Give) => self.give(party, tail),
            (Stage::StubNull, ReadHead) => self.head_stub(party),
            (Stage::Second(tail), ReadNext) => self.read(party, tail),
            (Stage::Null(tail), ReadHead) => self.head_tail(party, tail),
            (Stage::PutClear(tail), Clear(None)) => self.link(party, 0, None, Stage::PutSwap(tail)),
            (Stage::PutSwap(tail), Swap) => self.swap(party, 0, Stage::PutLink(tail, self.head)),
            (Stage::PutLink(tail, old), Link) => {
                self.link(party, old, Some(0), Stage::PutRead(tail))
            }
            (Stage::PutRead(tail), ReadNext) => self.read_again(party, tail),
            (_, step) => Err((StepError::NotThere, step.into_element())),
        }
    }
}
