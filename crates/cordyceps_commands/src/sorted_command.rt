//! Commands on sorted lists.

use crate::item::Item;

/// One command on sorted lists. Its first field is the number of the list, from 0 to 15. The reply is named after the
/// colon.
#[derive(Drop)]
pub enum SortedCommand {
    /// Inserts an item before the first that is greater: `Done`.
    Insert(u8, Item),
    /// Removes the first item: `Found`, or `Nothing` if the list is empty.
    PopFront(u8),
    /// Reads all items: `Show`, in order.
    Show(u8),
    /// Pushes the items onto a stack, and creates the list from it, if the list is empty: `Done` or `NotThere`.
    FromStack(u8, Vec<Item>),
}
