//! The calls of an inbox: many threads send, and one at a time receives.
ghost use Rattle.std.specs.Prelude.{◌≡◌, ◌≤◌, IfSome, MatchResult};
ghost use Rattle.cordyceps_queue.specs.Shared.Calls.{IsCertain};
ghost use Rattle.cordyceps_shared.specs.Shares.{whole};
ghost use Rattle.cordyceps_c_shared.specs.Inboxes.{GivesRooms, IsNew, KeepsAtMost, Receives, TakesOver};
ghost use Rattle.cordyceps_c_shared.specs.Inboxes.{TriesToSend, TriesToSplit, letter_of};
ghost use Rattle.cordyceps_c_shared.specs.declared.inbox.Sent.TheVariants.{Done, Full};

use crate::inbox::{Inbox, KEPT, Sent};
use cordyceps_base::node::Node;
use cordyceps_c_base::carried::{Carried, Letter};
use cordyceps_queue::mpsc_queue::{MAX_ROOMS, MpscQueue, TryDequeueError};
use std::alloc::Global;
use std::sync::Arc;

impl Inbox {
    /// Makes an inbox of so many rooms, or `None` if memory is refused. Requires that they are at most `MAX_ROOMS`.
    pub fn new(alloc: Global, rooms: usize) -> Option<Inbox>
        requires { rooms ≤ MAX_ROOMS }
        ensures { IfSome result (IsNew rooms) }
    {
        let Ok((queue, party)) = MpscQueue::<Carried>::new(alloc, rooms) else {
            return None;
        };
        match Arc::new(alloc, queue) {
            Ok(queue) => Some(Inbox { queue, party }),
            Err(_) => None,
        }
    }

    /// Makes a further handle of the same inbox, without rooms. Returns `None` if there are too many, and changes
    /// nothing then.
    pub fn split(&mut self) -> Option<Inbox>
        ensures { TriesToSplit self.old self.new result }
    {
        match Arc::try_clone(&self.queue) {
            Ok(queue) => {
                let party = self.queue.split(&mut self.party, 0);
                Some(Inbox { queue, party })
            }
            Err(_) => None,
        }
    }

    /// Sends a payload, and says how that ended. Only `Done` changes what is in the queue.
    pub fn send(&mut self, alloc: Global, payload: u64) -> Sent
        ensures { TriesToSend (letter_of payload) result self.old self.new }
    {
        let letter: Letter = match Node::new(alloc, 0, Carried { value: payload }) {
            Ok(letter) => letter,
            Err(_) => return Sent::NoMemory,
        };
        match self.send_node(letter) {
            Ok(()) => Sent::Done,
            Err(_) => Sent::Full,
        }
    }

    /// Sends a node. Returns it if no room is free; the queue is unchanged then.
    pub fn send_node(&mut self, letter: Letter) -> Result<(), Letter>
        ensures { MatchResult result (λ _. TriesToSend letter Done self.old self.new)
            (λ back. (back ≡ letter) × TriesToSend letter Full self.old self.new) }
    {
        self.queue.try_enqueue(&mut self.party, letter)
    }

    /// Tries once to receive. The handle keeps at most `KEPT` rooms then, or none if nothing was there, and gives others
    /// to the pool.
    pub fn receive(&mut self) -> Result<Letter, TryDequeueError>
        ensures tried { Receives result self.old self.new }
        ensures whole { self.old.party.share ≡ whole → IsCertain result }
    {
        match self.queue.try_dequeue(&mut self.party) {
            Ok(letter) => {
                self.keep_at_most(KEPT);
                Ok(letter)
            }
            Err(TryDequeueError::Empty) => {
                self.keep_at_most(0);
                Err(TryDequeueError::Empty)
            }
            Err(TryDequeueError::Inconsistent) => Err(TryDequeueError::Inconsistent),
            Err(TryDequeueError::Busy) => Err(TryDequeueError::Busy),
        }
    }

    /// Gives the rooms of the handle, if it has more than `most`, to the pool, with those that are there. It keeps them
    /// if other handles gave rooms back each time that it tried.
    fn keep_at_most(&mut self, most: usize)
        ensures { KeepsAtMost most self.old self.new }
    {
        if self.party.rooms() > most {
            let _given = self.give_back();
        }
    }

    /// Takes over the rooms and the history of another handle of the same inbox.
    pub fn absorb(&mut self, other: Inbox)
        requires { other.party.table ≡ self.old.party.table }
        ensures { TakesOver self.old other self.new }
    {
        let Inbox { queue: _, party } = other;
        self.queue.absorb(&mut self.party, party);
    }

    /// Gives all rooms to the pool, with those that were in it, and returns `true`. Returns `false` if other handles
    /// gave rooms back each time that it tried.
    pub fn give_back(&mut self) -> bool
        ensures { GivesRooms result self.old self.new }
    {
        self.queue.give_all_back(&mut self.party)
    }
}
