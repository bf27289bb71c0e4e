//! The core of the stack: its algorithm as a plain value, which takes one step at a time.
//!
//! ```text
//! head
//! +---+     room 2        room 0        room 3        room 1
//! |   |     +---+---+     +---+---+     +---+---+     +---+---+
//! | o ----->| y | o ----->| x |   |     | z |   |     |   |   |   free, of party 0
//! +---+     +---+---+     +---+---+     +---+---+     +---+---+
//!
//! stages    party 0: at rest        party 1: loaded, with room 3, and read room 2
//! ```
//!
//! A `TransferCore` is `head`, a vector of rooms, and one of the parties' stages. A room has an element, the next room,
//! and the party whose free room it is.
//!
//! - A push is `Load`, which puts the element into the party's free room with the least number and reads `head`,
//!   `SetNext`, which links the room to what was read, and `Exchange`, which makes the room the head if the head is
//!   still what was read. Otherwise the push has failed, and the element is returned.
//! - A taking is `Take`, which empties `head`, and one `Walk` for each element, whose room becomes the party's.
//!
//! One owner takes all steps, so nothing runs beside a step. The steps of several parties come in any order, as those
//! of threads do, and `replay` takes a list of them. In the picture party 1 has loaded: its next step links room 3 to
//! room 2. Other parties see nothing of a push before its exchange.
//!
//! Each kind of step is a function whose contract is one row of a machine of plain lists (`after_step`). A core meets a
//! history only if its parties' stages fit. Otherwise steps would not keep a core's chain equal to what the history
//! holds. So each room in use is with one party or in the stack, a party that has loaded knows what `head` was, and
//! what a walk has left is a suffix of the party's last batch.

pub(crate) mod calls;
pub(crate) mod replay;
pub(crate) mod replay_end;
pub(crate) mod rooms;
pub(crate) mod stage;
pub(crate) mod steps;
