//! The replay of commands on tables of structures that hold items.
//!
//! A table owns its structures. Each command is one call of a structure, or a block of calls of a cursor, and has one
//! reply.

pub use cordyceps_commands::{
    CursorCommand, Filter, Item, ListCommand, ListEnd, Reply, SortedCommand, StackCommand, Turn,
};
pub use cordyceps_tables::replay::{
    Lists, Played, Sorteds, Stacks, replay_lists, replay_sorted, replay_stacks,
};
