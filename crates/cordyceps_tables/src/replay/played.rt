//! The result of a replay.

use cordyceps_commands::Reply;
use std::collections::VecDeque;

/// The result of a replay: the replies to the commands that were run, and the commands that were not run.
#[derive(Drop)]
pub struct Played<C> {
    /// One reply for each command that was run, in order.
    pub replies: Vec<Reply>,
    /// The commands that were not run, in order. Empty unless memory was refused.
    pub rest: VecDeque<C>,
}
