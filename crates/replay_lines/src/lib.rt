//! The lines of scripts: words and numbers, the commands of each mode, and the texts of replies.
//!
//! Each mode has a file, whose `read_command` reads a line as a command of `cordyceps_commands`, or of a core. `reply`
//! and `core_reply` append the texts of replies, and `reason` says why a line is bad. Take the crate to read or write
//! the language of `docs/REPLAY.md`.
//!
//! Proved: that a line is read as the command that its words mean, and in the modes `list`, `transfer` and `queue`
//! exactly if it is the command's one spelling; that a reply appends its text, or nothing if memory is refused; that
//! `find_reason` returns the first reason of the table there. Only tested: that a call succeeds where there is memory.
//!
//! To read a line is O(b), for b bytes, and allocates only for words of `walk`, `into` and `from`. A line's words are
//! checked before memory is requested, so refused memory always means a command that was not run. To append a reply is
//! amortized O(1) for each item and line.
#![tactic(auto)]

pub mod core_reply;
pub mod cursor_command;
mod line_words;
pub mod list_command;
mod list_words;
pub mod queue_command;
pub mod reason;
pub mod reply;
pub mod sorted_command;
pub mod stack_command;
pub mod transfer_command;
mod words;
