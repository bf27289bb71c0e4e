//! Replies to commands.

use crate::item::Item;

/// The reply to a command.
#[derive(Debug, PartialEq, Eq, Drop)]
pub enum Reply {
    /// The command was run, and there is nothing more to tell.
    Done,
    /// The item that was asked for.
    Found(Item),
    /// There is no such item or place.
    Nothing,
    /// The number of items.
    Len(u64),
    /// The index of a cursor's item.
    Index(u64),
    /// The result of a test.
    Truth(bool),
    /// The items that were asked for, in order. `None` if there was no more.
    Show(Vec<Option<Item>>),
    /// The command's condition was not met, and nothing was changed.
    NotThere,
    /// The replies to the lines of a block, including the line that begins it.
    Block(Vec<Reply>),
}
