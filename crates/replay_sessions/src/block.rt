//! A cursor block whose end has not come.

use cordyceps_commands::{CursorCommand, ListEnd};

/// A cursor block that is open.
#[derive(Drop)]
pub struct Block {
    /// The number of its list.
    pub list: u8,
    /// The end of the list at which its cursor begins.
    pub end: ListEnd,
    /// Its lines so far.
    pub lines: Vec<CursorCommand>,
}
