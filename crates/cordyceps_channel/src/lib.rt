//! A channel over an `MpscQueue`: senders, and one receiver, which wait, end, and say so.
//!
//! Take it where many threads send elements to one. `channel` makes the first `Sender` and the `Receiver`; a sender
//! makes others by `try_clone`, also while elements go through. Sending takes no memory. `send` waits while the channel
//! is full and `recv` while it is empty, and both sleep if that lasts. An end is told by a drop: when all senders are
//! dropped, the receiver gets what is left, and then `Disconnected`; when the receiver is dropped, a sender gets its
//! element back. A `Select` receives from several channels, and an event loop can be woken by a `Wake`. Take an
//! `MpscQueue` of `cordyceps_queue` itself where no thread may sleep, or where parties have rooms of their own.
//!
//! `pair` creates a channel, `sender` and `receiver` have its two sides, with `batches` and `deadline`, `select` has the
//! receivers of several channels, and `errors` what they return where nothing goes through. `laws` has calls in a row.
//! `register` keeps the parties of senders that ended, `place` is where a sender leaves its party, `closed` what is left
//! of a sender, `taker` has the receiver's party, `bell` what threads sleep on, `wake` what wakes an event loop, and
//! `shared` what both sides share.
//!
//! Proved: each element that a sender sends is put in once, or comes back; the receiver receives elements in the order
//! in which they came in; where it gets `Disconnected`, all senders have ended, and it has received each element that
//! was ever sent; and if it learned the last receipt of a sender, the elements of this sender are among these, in the
//! order in which they were sent. What senders sent that a channel was created with is among these too, and no element
//! counts for two of them. Only tested: that a call that waits returns when it should, and that drops leave no
//! element.
//!
//! A room takes 24 bytes, with handles of one word, and each sender has a place, a table of one word and one slot.
//! `try_send` is an enqueue and two loads, and where the sender has no room it takes some of the pool; `try_recv` is a
//! try to dequeue. A call that has waited longer sleeps in the kernel.
#![tactic(auto)]

mod batches;
mod bell;
mod closed;
mod deadline;
mod errors;
pub mod laws;
mod pair;
mod place;
mod receiver;
mod register;
mod select;
mod sender;
mod shared;
mod taker;
mod wake;

pub use closed::Closed;
pub use cordyceps_queue::mpsc_queue::{Batch, Receipt};
pub use errors::{Disconnected, RecvTimeoutError, TryRecvError, TrySendError};
pub use pair::{channel, channel_with_senders, channel_with_waker};
pub use receiver::Receiver;
pub use select::{Select, Selected};
pub use sender::Sender;
pub use wake::{NoWake, Wake};
