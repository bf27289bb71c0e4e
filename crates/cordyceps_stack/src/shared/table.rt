//! The table of a shared stack, and what its seats know.
ghost use Rattle.cordyceps_stack.specs.Shared.View.{View, newcomer};

use crate::shared::slot::Slot;
use atomic_table::{Seat, Shared, Table, TableRule};
use cordyceps_shared::layout::{LINKS, RIGHT};
use std::alloc::Global;
use std::marker::{Model, PhantomData};

/// The index of a word that no step writes. A step that only takes slots or returns them reads it. The word has 128
/// bytes of its own, so a read of it never waits for another processor.
pub(crate) const QUIET: usize = RIGHT;

/// The number of words of the table. The links are in the slots.
pub(crate) const WORDS: usize = LINKS;

/// What a seat knows. No value of it is made: a contract sees a `View`.
pub(crate) struct SeatView<E> {
    element: PhantomData<E>,
}

impl<E> Model for SeatView<E> {
    ghost Value = { View E };

    ghost view = { λ _. newcomer 0 };
}

/// The invariant of the table, which each step keeps. Its key is the number of rooms.
pub(crate) struct Rule;

impl<E> TableRule<Slot<E>, SeatView<E>, usize> for Rule {
    ghost use Rattle.cordyceps_stack.specs.Shared.Rule.{RuleHolds};

    ghost holds = { λ _. RuleHolds };

    ghost first = { newcomer };
}

/// The words and slots of the table.
///
/// The word `HEAD` is 0, or 1 more than the room that was pushed last. Slot `r` has the link of room `r`, and its
/// element if the room is in use. The word `POOL` is 0, or has the first, the last and the number of the free rooms
/// that no party has (`pack`). No step writes the word `QUIET`. The other words fill up cache lines, and no step uses
/// them.
pub(crate) type Words<E> = Shared<Slot<E>, SeatView<E>, usize, Rule>;

/// The table, which owns its memory.
pub(crate) type OwnedTable<E> = Table<Slot<E>, SeatView<E>, usize, Rule, Global>;

/// The seat of a party: the token by which it acts on the table.
pub(crate) type PartySeat<E> = Seat<Slot<E>, SeatView<E>>;
