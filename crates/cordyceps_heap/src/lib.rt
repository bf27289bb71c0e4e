//! Priority queues whose elements are reached by stable pointers, their spots, and sorts and merges of lists.
//!
//! Take a `StableHeap` for many elements in any order, of which many leave or change before they are the least, as
//! timers do. Where most elements arrive nearly in order, a `StableSortedList` of `cordyceps_stable` is enough. For
//! times that are never before the last that came out, `cordyceps_clock` has a `ClockQueue`, which asks no order.
//!
//! `stable_heap` has the heap, `fresh` its unsorted elements, `ranked` and `merging` its sorted lines, and `sorting`
//! stable sorts and merges of a `List`, which allocate nothing.
//!
//! Proved: that the element that comes out is the least, and of equals the one that was pushed first; that no element
//! is lost; which spots are valid after a call; that a sort is stable. Only tested: how often a heap, a sort and a
//! merge ask the order, and that a drop leaves no node.
//!
//! A heap takes 592 bytes and its order, and a node 32 bytes and its value. `push` and `update` are O(1), without a
//! comparison, and so is `remove`. `front` and `pop_front` are O(log n), and sort each fresh element in O(log n),
//! amortized. A sort is O(n log n).
#![tactic(auto)]

mod fresh;
pub mod iter;
mod merging;
mod ranked;
mod renewing;
pub mod sorting;
pub mod stable_heap;
