//! The rooms of a transfer core.
ghost use Rattle.std.specs.Prelude.{◌≡◌, ◌<◌, ◌≤◌, ◌++◌, [], ◌∷◌, length, slice_get, IsSome, Some, None, OnOk, OnErr};
ghost use Rattle.cordyceps_shared.specs.Rooms.{change, with_link, as_free_room, element_in, next_in};
ghost use Rattle.cordyceps_shared.specs.Rooms.{occupied};
ghost use Rattle.cordyceps_stack.specs.Cores.Machine.{with_element, new_room, least_free};

use cordyceps_shared::room::Room;
use std::alloc::{AllocError, Global};
use std::marker::Model;

/// Rooms with numbers from 0, in the order in which they were added.
#[derive(Drop)]
pub(crate) struct Rooms<E> {
    list: Vec<Room<E>>,
}

impl<E> Model for Rooms<E> {
    ghost use Rattle.std.specs.Prelude.{List};
    ghost use Rattle.cordyceps_shared.specs.declared.room.Room.{Room};

    ghost Value = { List (Room E) };

    ghost view = { λ rooms. rooms.list.items };
}

impl<E: Drop> Rooms<E> {
    /// Creates an empty list of rooms. Allocates nothing.
    pub(crate) fn new(alloc: Global) -> Self
        ensures { result ≡ [] }
    {
        Rooms {
            list: Vec::new(alloc),
        }
    }

    /// Adds a free room of a party.
    pub(crate) fn add(&mut self, party: usize) -> Result<(), AllocError>
        ensures ok { OnOk result (self.new ≡ self.old ++ new_room party ∷ []) }
        ensures err { OnErr result (self.new ≡ self.old) }
    {
        self.list.push(Room {
            owner: Some(party),
            element: None,
            next: None,
        })?;
        Ok(())
    }

    /// Returns the party's free room with the least number, by a walk through all rooms.
    pub(crate) fn least_free(&self, party: usize) -> Option<usize>
        ensures { result ≡ least_free party self.now }
    {
        self.list.iter().position(|room| room.owner == Some(party))
    }

    /// Returns the room that the room `index` leads to.
    pub(crate) fn next(&self, index: usize) -> Option<usize>
        requires { index < length self.now }
        ensures { result ≡ next_in (slice_get self.now index) }
    {
        self.list[index].next
    }

    /// Puts an element into a room, which is then no party's free one.
    pub(crate) fn hold(&mut self, index: usize, element: E)
        requires { index < length self.old }
        ensures { self.new ≡ change (with_element element) index self.old }
    {
        let room = &mut self.list[index];
        room.owner = None;
        room.element = Some(element);
    }

    /// Makes a room lead to `next`.
    pub(crate) fn link(&mut self, index: usize, next: Option<usize>)
        requires { index < length self.old }
        ensures { self.new ≡ change (with_link next) index self.old }
    {
        self.list[index].next = next;
    }

    /// Takes the element out of a room, which is then a free one of the party.
    pub(crate) fn free(&mut self, index: usize, party: usize) -> E
        requires within { index < length self.old }
        requires full { IsSome (element_in (slice_get self.old index)) }
        ensures rooms { self.new ≡ change (as_free_room party) index self.old }
        ensures element { element_in (slice_get self.old index) ≡ Some result }
    {
        let room = &mut self.list[index];
        room.owner = Some(party);
        room.element.take().unwrap()
    }

    /// Returns the number of rooms that have an element, by a walk through all rooms.
    pub(crate) fn occupied(&self) -> usize
        ensures { result ≡ occupied self.now }
    {
        self.list
            .iter()
            .filter(|room| room.element.is_some())
            .count()
    }
}
