//! The modes of scripts, and the sessions over lists, stacks and sorted lists.
//!
//! Take `run` of `modes` to run a script in a mode, and `run_with_reason` to learn why a line is bad. The session of
//! mode `list` makes a command of a line, and runs it by `Lists::run` on its sixteen lists; those of `stack` and
//! `sorted` do the same. A cursor block runs as one command, at its end. The sessions of `transfer` and `queue` are
//! those of `replay_cores`.
//!
//! Proved: that a run does what the driver promises of the mode's machine, so that it writes exactly the replies to the
//! lines that it took; that a reason is told exactly after a bad line. Only tested: that the reason is that line's.
//!
//! A line takes the time of its command, O(1) or a walk through a list, and that of its words and its text. A cursor
//! block keeps its lines, of 24 bytes each, until it runs.
#![tactic(auto)]

mod block;
mod list_session;
pub mod modes;
mod noting;
mod sorted_session;
mod stack_session;
