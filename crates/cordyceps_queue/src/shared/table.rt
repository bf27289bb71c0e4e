//! The table of a shared queue, and what its seats know.
ghost use Rattle.cordyceps_queue.specs.Shared.View.{View, newcomer};

use atomic_table::{Seat, Shared, Table, TableRule};
use std::alloc::Global;
use std::marker::{Brand, Model, PhantomData};

/// What a seat knows. No value of it is made: a contract sees a `View`.
pub(crate) struct SeatView<E> {
    element: PhantomData<E>,
}

impl<E> Model for SeatView<E> {
    ghost Value = { View E };

    ghost view = { λ _. newcomer 0 };
}

/// The invariant of the table, which each step keeps. Its key is the number of rooms.
pub(crate) struct Rule;

impl<E> TableRule<Option<E>, SeatView<E>, usize> for Rule {
    ghost use Rattle.cordyceps_queue.specs.Shared.Rule.{RuleHolds};

    ghost holds = { λ _. RuleHolds };

    ghost first = { newcomer };
}

/// The words and slots of the table.
///
/// The word `HEAD` leads to the head. The word `RIGHT` leads to the tail, and is 0 while a party has the right to
/// dequeue. The word `LINKS + r` is the link of room `r`. If it was written in an earlier use of the room, it is null.
/// The link of a free room leads to the next free room of the party, or of the pool. `uses` says how these words are
/// spelled. The word `POOL` leads to the pool, or is 0. The word `BELL` is the bell's (`bell`). The other words are not
/// used. Slot `r` has the element of room `r`, and room 0 is the stub's.
pub(crate) type Words<E> = Shared<Option<E>, SeatView<E>, usize, Rule>;

/// The table, which owns its memory.
pub(crate) type OwnedTable<E> = Table<Option<E>, SeatView<E>, usize, Rule, Global>;

/// The seat of a party: the token by which it acts on the table.
pub(crate) type PartySeat<E> = Seat<Option<E>, SeatView<E>>;

/// The element for which a use of a room begins. Each call that begins a use chooses it.
pub(crate) trait Chosen<E> {
    ghost use Rattle.std.specs.Prelude.{Option};

    ghost item: { Option E };
}

impl<E> Chosen<E> for Brand {
    ghost use Rattle.std.specs.Prelude.{None};

    ghost item = { None };
}

/// The outcome of a try to dequeue.
#[derive(Drop)]
pub(crate) enum Tried<E> {
    /// The oldest element came out of this room.
    Out(usize, E),
    /// The queue had no element.
    Empty,
    /// The oldest element or the one after it is not linked yet.
    Inconsistent,
}
