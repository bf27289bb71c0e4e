//! Lists whose elements are reached by stable pointers, their spots.
//!
//! A push returns a `Spot`, which reaches its element until that leaves, whatever happens to the others. Take a
//! `StableList` where the caller says the order, as for a least recently used list, and a `StableSortedList` where an
//! order does and most elements arrive nearly in it. For many elements in any order take a `StableHeap` of
//! `cordyceps_heap`, and for times a `ClockQueue` of `cordyceps_clock`.
//!
//! A `StableList` is a double chain, and its value is the chain's: each element with its address, which users keep as a
//! `Spot`. Its invariant states that addresses are distinct, since callers cannot derive it. Nothing checks a spot at
//! run time, since callers prove it valid. A check would need one more word in each node, and a result for invalid
//! spots. An `Option` of a spot takes two words, where the pointer of the Rust crate `cordyceps` uses null for `None`;
//! so a table of them is twice as large, and removal by it takes up to a fifth longer.
//!
//! Proved: that each call does what it does on a plain sequence; which spots are valid after it; that no two elements
//! are at one spot; what `insert_in` counts. Only tested: how often other calls ask the order, and that a drop leaves
//! no node.
//!
//! A `StableList` takes 24 bytes, and a node 32 bytes and its value. Calls at an end or by a spot are O(1). `insert`
//! and `update` of a sorted list are O(k + 1), for k elements that are greater.
#![tactic(auto)]

pub mod addresses;
mod asked;
mod cursor;
mod renewing;
pub mod stable_list;
pub mod stable_sorted_list;
