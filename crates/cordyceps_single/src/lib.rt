//! Stacks and sorted lists of owned nodes, and the orders.
//!
//! A `Stack` is last in, first out. A `TransferStack` takes and returns whole stacks. A `SortedList` is sorted by an
//! order, and keeps equals in order of insertion. Take it where most elements arrive in order, or where there are few:
//! an insertion elsewhere walks. `cordyceps_stable` has a sorted list with spots, and `cordyceps_heap` a heap.
//!
//! Either is a single chain. A `SortedList` has an order too, and `insert` walks with the chain's `Cursor`.
//!
//! Proved: that a stack does what a sequence does; that a sorted list is the arrangement of its arrivals, of which
//! there is one; what `insert_in` counts. Only tested: how often a call asks the order, and that a drop leaves no node.
//!
//! A node takes 32 bytes and its value, a `Stack` 16 bytes, and a `SortedList` 16 and its order. `push`, `pop`,
//! `take_all` and `pop_front` are O(1). `insert` is O(1) where the element goes last, and otherwise O(k), for k
//! elements up to its place.
#![tactic(auto)]

mod by_fn;
mod by_key;
pub mod counter;
mod grow;
mod iter;
mod order;
pub mod sorted_list;
pub mod stack;
