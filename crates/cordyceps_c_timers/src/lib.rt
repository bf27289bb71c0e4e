//! Timers and a priority queue for C, each behind a handle.
#![tactic(auto)]

pub mod node_queue;
pub mod node_queue_handle;
pub mod queue;
pub mod queue_handle;
pub mod queue_unchecked;
pub mod timers;
pub mod timers_handle;
pub mod timers_unchecked;
