//! The replay of commands on tables of structures that hold items.
//!
//! A table owns its structures. Each command is one call of a structure, or a block of calls of a cursor, and has one
//! reply. A contract says that each reply, and what the structures hold afterwards, are what the commands mean.

mod blocks;
mod filters;
mod lists;
mod nodes;
mod played;
mod replies;
mod sorteds;
mod stacks;
mod walks;

pub use lists::{Lists, replay_lists};
pub use played::Played;
pub use sorteds::{Sorteds, replay_sorted};
pub use stacks::{Stacks, replay_stacks};
