//! Two threads that share a stack, and the line that mode `share` writes.
//!
//! Take `share` as a small example of threads at a `TransferStack`: two workers push two items each, by parties of
//! their own, and when both have ended their parties are absorbed and all is taken. `run_share` makes the stack and
//! writes the values, sorted.
//!
//! Proved: that the values are 10, 11, 20 and 21 in any interleaving; that the party can be used for another call where
//! memory or a thread was refused. Only tested: that the threads run at once, that each passes its `Gate` before each
//! push, and that `run_share` calls `share`.
//!
//! A call of `share` allocates four nodes, the values, and what two threads take, and waits for both. A push tries
//! again as long as the other thread comes between its steps.
#![tactic(auto)]

pub mod share;
