//! Small, proved programs to copy in which threads share a collection, and the timers that one of them needs. Their
//! contracts are stated in the terms of each program's own subject.
#![tactic(auto)]

mod idle;
pub mod journal;
pub mod logger;
pub mod mailbox;
pub mod pool;
pub mod run_queue;
pub mod scheduler;
pub mod timers;
