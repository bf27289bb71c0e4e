//! Queues that threads share, with many producers and one consumer at a time.
//!
//! Take an `MpscQueue` for mailboxes, run queues and logs: first in, first out, without a lock, and without memory
//! after `new`. The right to dequeue can pass from one party to another. Where one thread receives all, and some of its
//! calls may take longer, an `Inbox` of `cordyceps_stack` needs fewer atomic steps. If only one thread uses the queue,
//! take a `List`.
//!
//! `shared` has the queue, `cores` its algorithm as a plain value, `laws` what follows for several calls, and
//! `mpsc_queue` the public names.
//!
//! Proved: that elements come out in the order in which they went in, each once; that `Empty` is returned only where no
//! element was in the queue; that one party at a time has the right to dequeue; that no room is lost but those of a
//! party that is dropped. This holds for all parties and all interleavings of their steps. Only tested: that calls that
//! may wait return, that a drop of the queue drops each element, and that only the constructors allocate. That atomic
//! steps have one order is trusted.
//!
//! A room takes 24 bytes, with handles of one word. `new` and `close` are O(r), for r rooms. `split`, `give_back` and
//! `refill_at_most` walk through the rooms that they give or keep. Other calls that do not wait are O(1), and
//! `take_linked` O(1) for each element. `docs/SPEED.md` says how long calls took, beside other queues.
#![tactic(auto)]

mod cores;
pub mod laws;
pub mod mpsc_queue;
mod shared;
