//! The calls of a pile: many threads push, and any of them takes all at once.
ghost use Rattle.std.specs.Prelude.{◌≡◌, ◌≤◌, ◌==◌, [], length, IfSome};
ghost use Rattle.cordyceps_c_shared.specs.Piles.{GivesRooms, IsNew, Pops, PushesNode, TakesOver};
ghost use Rattle.cordyceps_c_shared.specs.Piles.{TriesToPush, TriesToSplit};
ghost use Rattle.cordyceps_c_shared.specs.Inboxes.{letter_of};

use crate::pile::{Pile, Pushed};
use cordyceps_base::node::Node;
use cordyceps_c_base::carried::{Carried, Sheet};
use cordyceps_stack::stack::{MAX_ROOMS, Stack, TransferStack, TryPushError};
use std::alloc::Global;
use std::sync::Arc;

impl Pile {
    /// Makes a pile of so many rooms, or `None` if memory is refused. Requires that they are at most `MAX_ROOMS`.
    pub fn new(alloc: Global, rooms: usize) -> Option<Pile>
        requires { rooms ≤ MAX_ROOMS }
        ensures { IfSome result (IsNew rooms) }
    {
        let Ok((stack, party)) = TransferStack::<Carried>::new(alloc, rooms) else {
            return None;
        };
        match Arc::new(alloc, stack) {
            Ok(stack) => Some(Pile {
                stack,
                party,
                taken: Stack::new(),
            }),
            Err(_) => None,
        }
    }

    /// Makes a further handle of the same pile, without rooms and without messages. Returns `None` if there are too
    /// many, and changes nothing then.
    pub fn split(&mut self) -> Option<Pile>
        ensures { TriesToSplit self.old self.new result }
    {
        match Arc::try_clone(&self.stack) {
            Ok(stack) => {
                let party = self.stack.split(&mut self.party, 0);
                Some(Pile {
                    stack,
                    party,
                    taken: Stack::new(),
                })
            }
            Err(_) => None,
        }
    }

    /// Tries once to push a payload, and says how that ended. Only `Done` changes what is in the stack.
    pub fn push(&mut self, alloc: Global, payload: u64) -> Pushed
        ensures { TriesToPush (letter_of payload) result self.old self.new }
    {
        let sheet: Sheet = match Node::new(alloc, 0, Carried { value: payload }) {
            Ok(sheet) => sheet,
            Err(_) => return Pushed::NoMemory,
        };
        match self.push_node(sheet) {
            Ok(_) => Pushed::Done,
            Err(TryPushError::Full(_)) => Pushed::Full,
            Err(TryPushError::Contended(_)) => Pushed::Busy,
        }
    }

    /// Tries once to push a node. Returns `true` if the stack was empty just before. Returns the node if no room is
    /// free, or if another party came between the two steps of the try; what is in the stack is unchanged then.
    pub fn push_node(&mut self, sheet: Sheet) -> Result<bool, TryPushError<Sheet>>
        ensures { PushesNode sheet result self.old self.new }
    {
        self.stack.refill_and_try_push(&mut self.party, sheet)
    }

    /// Hands out the first of the messages that were taken. If there is none, it first takes all of the stack, of which
    /// the one that was pushed last is the first.
    pub fn pop(&mut self) -> Option<Sheet>
        ensures { Pops result self.old self.new }
    {
        if !self.taken.is_empty() {
            return self.taken.pop();
        }
        self.taken = self.stack.take_all(&mut self.party);
        self.taken.pop()
    }

    /// Returns `true` if none of the messages that were taken is left.
    pub fn has_none_left(&self) -> bool
        ensures { result ≡ (length self.now.taken == 0) }
    {
        self.taken.is_empty()
    }

    /// Takes over the rooms and the history of another handle of the same pile. Requires that it has handed out what it
    /// took.
    pub fn absorb(&mut self, other: Pile)
        requires table { other.party.table ≡ self.old.party.table }
        requires none_left { other.taken ≡ [] }
        ensures { TakesOver self.old other self.new }
    {
        let Pile {
            stack: _,
            party,
            taken: _,
        } = other;
        self.stack.absorb(&mut self.party, party);
    }

    /// Gives all rooms to the pool, with those that were in it, and returns `true`. Returns `false` if other handles
    /// gave rooms back each time that it tried.
    pub fn give_back(&mut self) -> bool
        ensures { GivesRooms result self.old self.new }
    {
        self.stack.give_all_back(&mut self.party)
    }
}
