//! Tables of lists, stacks and sorted lists of items, and the replay of commands on them.
//!
//! A table owns sixteen structures. Take `Lists`, `Stacks` or `Sorteds` to run calls that are data: commands of a test,
//! of a script or of a log. `replay_lists`, `replay_stacks` and `replay_sorted` run a queue of commands, and return the
//! replies and the commands that are left.
//!
//! Proved: that each reply, and what the structures hold afterwards, are what the commands mean on plain sequences;
//! that a command that was refused memory has changed nothing, and can be run later. Commands on sorted lists have the
//! premise that the lists are in order, since a type's invariant cannot speak of what a function computes: `new`
//! promises order, and each replay keeps it. Only tested: that commands succeed where there is memory, and that a drop
//! leaves no node.
//!
//! A command takes the time of its calls and, for a `Show` or a block, amortized O(1) for each item and line of its
//! reply. A push allocates a node of 48 bytes. The function of a table of sorted lists is `Copy`, since each list has
//! one: a copy computes the same, while of a clone that would be a condition.
#![tactic(auto)]

pub mod replay;
