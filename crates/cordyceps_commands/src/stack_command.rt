//! Commands on stacks.

use crate::item::Item;

/// One command on stacks. Its first field is the number of the stack, from 0 to 15. The reply is named after the colon.
#[derive(Drop)]
pub enum StackCommand {
    /// Pushes an item: `Truth`, `true` if the stack was empty.
    Push(u8, Item),
    /// Removes the item that was pushed last: `Found`, or `Nothing` if the stack is empty.
    Pop(u8),
    /// Moves all items, in their order, to the second stack, if that is another one and empty: `Done` or `NotThere`.
    TakeAll(u8, u8),
    /// Tests if the stack is empty: `Truth`.
    IsEmpty(u8),
    /// Removes all items: `Show`, the last pushed first.
    Drain(u8),
}
