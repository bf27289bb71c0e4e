//! What the collections for C share: a box as a pointer, what a handle owns, tickets, nodes of C's own, and results
//! that go out.
#![tactic(auto)]

pub mod carried;
pub mod node_handle;
pub mod out;
pub mod raw;
pub mod tickets;
