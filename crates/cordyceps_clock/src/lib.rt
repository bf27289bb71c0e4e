//! A priority queue of elements that are due at times. Each element is reached by a stable pointer, its spot.
//!
//! Take a `ClockQueue` for timers, or for other elements with a `u64` that is never below the greatest that came out.
//! It asks no order, and `not_before` returns in O(1) a time before which none is due. For keys in any order take a
//! `StableHeap` of `cordyceps_heap`, which also took less time where nine in ten timers were cancelled before the first
//! came out.
//!
//! `clock_queue` has the queue, `buckets` its buckets and their ends, `spreading` what a pop moves, `renewing` an
//! update, and `times` the functions that return times.
//!
//! Proved: that the element that comes out is due first, and of equals was pushed first; that none is due where
//! `pop_due` returns `None`; that the clock never goes back; that no element is lost; which spots are valid after a
//! call. Only tested: that a drop leaves no node. How often an element is moved is neither proved nor tested.
//!
//! A queue takes 1,072 bytes and its function of times, and a node 32 bytes and its value. `push`, `update`, `remove`
//! and `not_before` are O(1). `pop_front` and `pop_due` are O(1) amortized, and O(n) at the worst. `front` walks
//! through the lowest bucket.
#![tactic(auto)]

mod buckets;
pub mod clock_queue;
mod renewing;
mod spreading;
pub mod times;
