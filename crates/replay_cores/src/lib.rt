//! Sessions of scripts over the cores of a transfer stack and of a queue.
//!
//! Take `TransferSession` and `QueueSession` to replay an interleaving of threads step by step. A line is a step or a
//! call of one party of a core, and has one reply (`CoreReply`).
//!
//! A `CoreSession` is a core and an allocator. `ScriptedCore` says of a core how a line is read and run;
//! `transfer_session` and `queue_session` implement it for the two. The machine of a script on a core is the core's
//! own, which is exact.
//!
//! Proved: that each reply, and the core afterwards, are those of the core's machine. Only tested: that lines succeed
//! where there is memory.
//!
//! A line takes the time of the core's call: O(r) where that seeks a free room or takes all, for r rooms, and otherwise
//! O(1), amortized. It allocates for a new party or room, a batch, and its text.
#![tactic(auto)]

pub mod core_session;
pub mod queue_session;
pub mod transfer_session;
