//! Scripts of steps.
use std::alloc::{AllocError, Global};
use std::collections::VecDeque;

/// Returns a script of the parties' steps.
pub fn script_of<S: Drop, const N: usize>(
    alloc: Global,
    steps: [(usize, S); N],
) -> Result<VecDeque<(usize, S)>, AllocError> {
    Ok(VecDeque::from_array(alloc, steps)?)
}
