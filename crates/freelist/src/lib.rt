//! Free lists: an owner gets and puts blocks back without an atomic step, and other threads put blocks back too.
//!
//! Take a `FreeList` where one thread allocates and others free, as with the buffers of a server. Several threads may
//! get blocks, each by a `Local` of its own.
//!
//! A `FreeList` is a `TransferStack`. A `Local` is a reference to it, a `Stack`, and the owner's party. `get` pops from
//! the stack, which it fills with a whole batch if it is empty, and `put` pushes onto it.
//!
//! Proved: what each call makes of the local blocks and of the history that the parties share; that no block is lost or
//! in two places, over any calls of any users (`laws`); that an owner who was told of blocks by a receipt, and finds
//! none, finds them gone out. Only tested: that blocks which two threads put back come to their owner once each on
//! running threads, and that a dropped `Local` drops its own blocks alone.
//!
//! Each room takes 16 bytes, and `new` allocates them all, at most 1,048,576; a block takes 32 bytes and its value.
//! `put`, and `get` where a local block is left, are O(1) without an atomic step. `put_remote` is O(1): one load and
//! one compare-exchange of the head. A `get` that takes shared blocks is O(n), for n of them, with one swap of the
//! head.
#![tactic(auto)]

mod free_list;
pub mod laws;
mod local;

pub use cordyceps_base::linked::Linked;
pub use cordyceps_base::stack::Links;
pub use cordyceps_stack::stack::{MAX_ROOMS, Party, Receipt, Stack, TryPushError};
pub use free_list::FreeList;
pub use local::Local;
