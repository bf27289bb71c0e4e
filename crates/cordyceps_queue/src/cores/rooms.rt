//! The rooms of a core.
ghost use Rattle.std.specs.Prelude.{◌≡◌, ◌<◌, ◌++◌, [], ◌∷◌, length, slice_get, is_some, IsSome, IfSome, Some, None, OnOk, OnErr};
ghost use Rattle.std.specs.List.{position};
ghost use Rattle.cordyceps_shared.specs.Rooms.{occupied};
ghost use Rattle.cordyceps_shared.specs.Rooms.{change, with_link, as_free_room, is_free_for, element_in, next_in};
ghost use Rattle.cordyceps_queue.specs.Cores.Machine.{with_element, stub_room, least_free};

use cordyceps_shared::room::Room;
use std::alloc::{AllocError, Global};
use std::marker::Model;

/// Rooms with numbers from 1, each for one element. The stub, which has no element, is room 0.
#[derive(Drop)]
pub(crate) struct Rooms<E> {
    stub_next: Option<usize>,
    list: Vec<Room<E>>,
}

impl<E> Model for Rooms<E> {
    ghost use Rattle.std.specs.Prelude.{List, ◌∷◌};
    ghost use Rattle.cordyceps_shared.specs.declared.room.Room.{Room};
    ghost use Rattle.cordyceps_queue.specs.Cores.Machine.{stub_room};

    ghost Value = { List (Room E) };

    ghost view = { λ rooms. stub_room rooms.stub_next ∷ rooms.list.items };
}

/// Returns the index of the party's first free room.
fn first_free<E>(rooms: &[Room<E>], party: usize) -> Option<usize>
    ensures place { result ≡ position (is_free_for party) rooms.now }
    ensures within { IfSome result (λ place. place < length rooms.now) }
{
    rooms.iter().position(|room| room.owner == Some(party))
}

impl<E: Drop> Rooms<E> {
    /// Creates the stub's room alone. Allocates nothing.
    pub(crate) fn new(alloc: Global) -> Self
        ensures { result ≡ stub_room None ∷ [] }
    {
        Rooms {
            stub_next: None,
            list: Vec::new(alloc),
        }
    }

    /// Adds a free room of a party.
    pub(crate) fn add(&mut self, party: usize) -> Result<(), AllocError>
        ensures ok { OnOk result
            (self.new ≡ self.old ++ record { owner = Some party; element = None; next = None } ∷ []) }
        ensures err { OnErr result (self.new ≡ self.old) }
    {
        self.list.push(Room {
            owner: Some(party),
            element: None,
            next: None,
        })?;
        Ok(())
    }

    /// Returns the party's free room with the least number, by a walk through all rooms.
    pub(crate) fn least_free(&self, party: usize) -> Option<usize>
        ensures { result ≡ least_free party self.now }
    {
        let place = first_free(&self.list, party)?;
        Some(place + 1)
    }

    /// Returns the room that `room` leads to.
    pub(crate) fn next(&self, room: usize) -> Option<usize>
        requires { room < length self.now }
        ensures { result ≡ next_in (slice_get self.now room) }
    {
        if room == 0 {
            self.stub_next
        } else {
            self.list[room - 1].next
        }
    }

    /// Returns the number of rooms that have an element, by a walk through all rooms.
    pub(crate) fn occupied(&self) -> usize
        ensures { result ≡ occupied self.now }
    {
        self.list
            .iter()
            .filter(|room| room.element.is_some())
            .count()
    }

    /// Puts an element into a room, which is then no party's free one and has a null link.
    pub(crate) fn hold(&mut self, room: usize, element: E)
        requires within { room < length self.old }
        requires not_stub { 0 < room }
        ensures { self.new ≡ change (with_element element) room self.old }
    {
        self.list[room - 1] = Room {
            owner: None,
            element: Some(element),
            next: None,
        };
    }

    /// Makes a room lead to another.
    pub(crate) fn link(&mut self, room: usize, next: Option<usize>)
        requires { room < length self.old }
        ensures { self.new ≡ change (with_link next) room self.old }
    {
        if room == 0 {
            self.stub_next = next;
        } else {
            self.list[room - 1].next = next;
        }
    }

    /// Takes the element out of a room, which is then a free one of the party.
    pub(crate) fn free(&mut self, room: usize, party: usize) -> E
        requires { IsSome (element_in (slice_get self.old room)) }
        ensures rooms { self.new ≡ change (as_free_room party) room self.old }
        ensures element { element_in (slice_get self.old room) ≡ Some result }
    {
        let freed = &mut self.list[room - 1];
        freed.owner = Some(party);
        freed.element.take().unwrap()
    }
}
