//! The layout of the words of a shared table.
//!
//! A stack's table ends before `LINKS`, since its links lie in its slots, and no step writes its word at `RIGHT`.
//!
//! `POOL`, `HEAD` and `RIGHT` have 128 bytes each of their own. These are two cache lines, since a processor may fetch
//! lines in pairs. A step on one of them takes its line from all other processors, but neither another of them nor a
//! link. A queue's links share lines: one line each would take eight times the memory.

/// The index of the word that leads to the pool: the free rooms that no party has.
pub const POOL: usize = 0;

/// The index of the word that leads to the element that was put in last.
pub const HEAD: usize = 16;

/// The index of the word of a queue's right to dequeue.
pub const RIGHT: usize = 32;

/// The index of the link of room 0. Those of the other rooms follow, in order.
pub const LINKS: usize = 48;
