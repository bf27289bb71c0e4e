//! Doubly linked lists of owned nodes, with iterators, cursors and a filter.
//!
//! Take a `List` where elements come and go at the ends, or at the place of a cursor. Where an element leaves or moves
//! at any time, from wherever it is, take a `StableList` of `cordyceps_stable`.
//!
//! A list is a double chain and two fingers (`finger`). A `CursorMut` and an `IterMut` are guards: the contract of
//! their `Drop` says that the list has the guard's elements. A `CursorMut` takes the nodes out of its list until it is
//! dropped (`owned`). An `IterMut` borrows its list, keeps places as numbers, and finds nodes by the fingers. It keeps
//! no address of a node and no borrowed part of the chain: with those, no contract could say what the list has after
//! the drop. A `Cursor` and an `Iter` only read, and keep the address of their node. A `DrainFilter` has a place, a
//! list and a predicate, and each `next` is `remove_first` of a `CursorMut` at that place.
//!
//! Proved: that each call does what it does on a plain sequence, at all lengths; what `try_split_off_in` counts. That a
//! split follows no link which it does not count is read in one private function, and no contract says it. Only tested:
//! that steps of a guard take few moves, and that a drop leaves no node.
//!
//! A list takes 56 bytes, 32 of them for the fingers, and a node 32 bytes and its value. Calls at the ends and at a
//! cursor are O(1), but for `remove_first`. `split_off` walks from the nearer end, and `remove`, which takes a number,
//! from the front.
#![tactic(auto)]

pub mod cursor;
pub mod cursor_mut;
pub mod filter;
mod finger;
pub mod iter;
pub mod iter_mut;
pub mod laws;
pub mod list;
mod owned;
