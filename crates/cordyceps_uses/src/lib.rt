//! Small, proved programs to copy. Their contracts are stated in the terms of each program's own subject.
#![tactic(auto)]

pub mod connections;
pub mod examples;
pub mod expiring;
pub mod job;
mod keyed;
pub mod pooled_queue;
mod ranked;
pub mod recency;
pub mod sessions;
pub mod task_table;
pub mod tasks;
pub mod timer_wheel;
pub mod tour;
pub mod waiting;
