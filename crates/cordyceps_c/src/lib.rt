//! The collections for C: lists, timers, priority queues, inboxes and piles, each behind a handle.
//!
//! C owns the memory of a handle, and nothing else. A handle is of one collection, or of nothing, and then it is
//! `{NULL}`. Each call with payloads is total on the handle of nothing: it answers `false`, or the number that says so,
//! and changes nothing. `c/cordyceps.h` declares the calls, and says what C must keep.
//!
//! Nodes can lie in structs of C's own. The calls on such nodes require of their handles what they need, and those of
//! lists and queues get no allocator: they allocate nothing.
//!
//! No call waits. Calls on one handle are made one at a time; calls on different handles of one inbox, or of one
//! pile, may run at the same time.
#![tactic(auto)]

pub mod inbox;
pub mod list;
pub mod node_list;
pub mod node_queue;
pub mod nodes;
pub mod pile;
pub mod queue;
pub mod timers;
