//! The stack that threads share without a lock, and its core.
//!
//! Take a `TransferStack` to hand elements or freed blocks to another thread in batches: a push adds one element or a
//! `Stack` of them, and whoever takes gets all that is held. By an `Inbox` one thread receives them one by one, in the
//! order in which they were pushed. Take an `MpscQueue` of `cordyceps_queue` where no insertion may be tried again, or
//! where several consumers pass the right to dequeue on. `freelist` has free lists over it.
//!
//! `shared` has the stack on threads, and `cores` its algorithm as a plain value, which `replay` runs step by step.
//! `stack` has the names for users; it also has those of `cordyceps_single`, as `sorted_list` does.
//!
//! Proved: what each call adds to the history that its party has seen, whatever other threads do between its steps;
//! that a batch is all that was held, in order; that no element is lost or duplicated, and no room but those of a party
//! that is dropped; that a whole party's push succeeds at its first try; that who was told of elements by a receipt
//! takes some, unless others did. Only tested: that calls which may wait return, that a drop leaves no node, and how
//! many rooms of the pool a party that is not whole takes.
//!
//! A room takes 16 bytes, and `new` allocates them all, at most 1,048,576; a node takes 32 bytes and its value. A try
//! to push is O(1): one load and one compare-exchange of the head. One of n elements has also a step on each of n
//! rooms. `take_all` is O(n), for n elements, with one swap of the head. `split` is O(r), for r rooms that it gives
//! away, `absorb`, `refill` and `give_all_back` are O(1), and no call but `new` allocates.
#![tactic(auto)]

mod cores;
pub mod laws;
mod shared;
pub mod sorted_list;
pub mod stack;
