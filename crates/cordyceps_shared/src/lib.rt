//! What the stack and the queue that threads share have in common: the layout of their words, their pool and their
//! rooms, and the theory of the parties that act on them.
//!
//! ```text
//! names of a collection                        shares
//!
//!               (empty)                        whole: that of the party of `new`
//!              /       \
//!            0           1                     after a split: one party keeps 0, the new one has 1
//!          /   \       /   \
//!        00     01    10    11                 after each of them was split
//! ```
//!
//! A party is one user of a collection. A call is told by what its party has seen: a prefix of the collection's one
//! history, in which its own events are marked. Each event carries a name, by which it is known whose it is. A share is
//! a list of names; a split halves its first name, and an absorb joins names. So the shares of all parties are distinct
//! without a counter, and a party whose share is the empty name alone has absorbed all that were split off. Names exist
//! in proofs only.
//!
//! Take it to build another such collection over a table of `atomic_table`. Its rule (invariant) cites what this crate
//! states and proves, for any type of events and of views. `layout` has the places of the words, `pool` the word of the
//! pool, `free` a party's free rooms, `room` the rooms of a core, and `required` what calls require.
//!
//! - Contracts, and proofs of callers, cite its histories, names and shares (`Histories`, `Shares`, `Standings`), what
//!   parties did over several calls (`Acting`, `Moving`, `Sending`), and how two lists interleave (`Interleaving`).
//! - The rules cite what a party knows (`Knowing`), that steps, splits, absorbs and receipts keep it (`StepEvents`,
//!   `Splits`, `Absorbs`, `Receipts`), free rooms and the pool (`FreeChains`, `Pools`), and slots and words (`Slots`,
//!   `Words`).
//! - The cores cite `Rooms`, and free lists `NameHalves`, `Owning` and `Summing`.
//!
//! Proved: that steps, splits, absorbs and receipts keep what every party knows, whatever the events are; that the
//! pool's word has what was packed. Nothing of it is only tested. All functions are O(1), and allocate nothing. The
//! pool's word, the head and the right to dequeue take 128 bytes each.
#![tactic(auto)]

pub mod free;
pub mod layout;
pub mod pool;
pub mod required;
pub mod room;
