//! Commands on lists, stacks and sorted lists, the items that they name, and the replies to them.
//!
//! These are the types that the tables of `cordyceps_tables` run, and that the lines of `replay_lines` spell. Take the
//! crate where you name a command or a `Reply`: a command is one call of a structure, or a block of calls of a cursor,
//! and has one reply. An `Item` is a value and a number, and can be linked into collections of each kind.
//!
//! Proved: that an item's handle is a node with the item's number; that items are ordered by value, then by number.
//! What commands mean is said in `cordyceps_tables`.
//!
//! An `Item` takes 16 bytes, and a command 24 or 32 besides what its vector holds. No function here allocates, and each
//! is O(1).
#![tactic(auto)]

mod item;
mod list_command;
mod reply;
mod sorted_command;
mod stack_command;

pub use item::Item;
pub use list_command::{CursorCommand, Filter, ListCommand, ListEnd, Turn};
pub use reply::Reply;
pub use sorted_command::SortedCommand;
pub use stack_command::StackCommand;
