//! Commands on lists.

use crate::item::Item;

/// An end of a list.
#[derive(Clone, Copy, Debug, PartialEq, Eq)]
pub enum ListEnd {
    /// The first item.
    Front,
    /// The last item.
    Back,
}

/// A step of an iterator.
#[derive(Clone, Copy, Debug, PartialEq, Eq)]
pub enum Turn {
    /// The next item from the front.
    Next,
    /// The next item from the back.
    NextBack,
}

/// A predicate of a command, which is called on one item after the other.
#[derive(Clone, Copy, Debug, PartialEq, Eq)]
pub enum Filter {
    /// Passes items with an even value.
    Even,
    /// Passes the first item that it is called on, not the second, and so on in turn.
    Alternate,
    /// Passes each item.
    All,
}

/// One line of a cursor block: one call of a `CursorMut`. The reply is named after the colon.
#[derive(Clone, Copy)]
pub enum CursorCommand {
    /// Moves the cursor to the next place: `Done`.
    MoveNext,
    /// Moves the cursor to the previous place: `Done`.
    MovePrev,
    /// Reads the item at the cursor: `Found` or `Nothing`.
    Current,
    /// Reads the next item: `Found` or `Nothing`.
    PeekNext,
    /// Reads the previous item: `Found` or `Nothing`.
    PeekPrev,
    /// Reads the cursor's index: `Index` or `Nothing`.
    Index,
    /// Counts the items: `Len`.
    Len,
    /// Sets the value of the item at the cursor: `Done` or `Nothing`.
    Set(u64),
    /// Sets the value of the next item: `Done` or `Nothing`.
    SetNext(u64),
    /// Sets the value of the previous item: `Done` or `Nothing`.
    SetPrev(u64),
    /// Reads the item at the cursor, and moves the cursor to the next place: `Found`, or `Nothing` if it stays.
    Next,
    /// Removes the item at the cursor: `Found` or `Nothing`.
    RemoveCurrent,
    /// Removes the first item that passes, from the cursor on: `Found` or `Nothing`.
    RemoveFirst(Filter),
    /// Inserts an item after the cursor's, if the length is below `usize::MAX`: `Done` or `NotThere`.
    InsertAfter(Item),
    /// Inserts an item before the cursor's, if the length is below `usize::MAX`: `Done` or `NotThere`.
    InsertBefore(Item),
    /// Moves the items after the cursor's to a list, if that is another one and empty: `Done` or `NotThere`.
    SplitAfter(u8),
    /// Moves the items before the cursor's to a list, if that is another one and empty: `Done` or `NotThere`.
    SplitBefore(u8),
    /// Moves all items of a list after the cursor's, if that is another list and the sum of the lengths is at most
    /// `usize::MAX`: `Done` or `NotThere`.
    SpliceAfter(u8),
    /// Moves all items of a list before the cursor's, if that is another list and the sum of the lengths is at most
    /// `usize::MAX`: `Done` or `NotThere`.
    SpliceBefore(u8),
    /// Ends the block, which may also end without it: `Done`.
    End,
}

/// One command on lists. Its first field is the number of the list, from 0 to 15. The reply is named after the colon.
#[derive(Drop)]
pub enum ListCommand {
    /// Prepends an item, if the list's length is below `usize::MAX`: `Done` or `NotThere`.
    PushFront(u8, Item),
    /// Appends an item, if the list's length is below `usize::MAX`: `Done` or `NotThere`.
    PushBack(u8, Item),
    /// Removes the first item: `Found`, or `Nothing` if the list is empty.
    PopFront(u8),
    /// Removes the last item: `Found`, or `Nothing` if the list is empty.
    PopBack(u8),
    /// Reads the first item: `Found`, or `Nothing` if the list is empty.
    Front(u8),
    /// Reads the last item: `Found`, or `Nothing` if the list is empty.
    Back(u8),
    /// Sets the value of the first item: `Done`, or `Nothing` if the list is empty.
    SetFront(u8, u64),
    /// Sets the value of the last item: `Done`, or `Nothing` if the list is empty.
    SetBack(u8, u64),
    /// Counts the items: `Len`.
    Len(u8),
    /// Moves all items of the second list to the back of the first, if these are two lists and the sum of the lengths
    /// is at most `usize::MAX`: `Done` or `NotThere`.
    Append(u8, u8),
    /// Keeps this many items, and moves the others to the second list, if that is another one and empty: `Done`,
    /// `Nothing` if the number is above the length, or `NotThere`.
    Split(u8, u64, u8),
    /// Removes the first item with this number: `Found`, or `Nothing` if there is none.
    Remove(u8, u64),
    /// Adds a number to the value of each item, modulo 2^64: `Done`.
    Bump(u8, u64),
    /// Reads items by an iterator, from both ends: `Show`.
    Walk(u8, Vec<Turn>),
    /// Removes all items, and shows those that an iterator returns, from both ends: `Show`.
    Into(u8, Vec<Turn>),
    /// Removes the items that pass, at most this many: `Show`.
    Drain(u8, Filter, u64),
    /// Reads all items: `Show`.
    Show(u8),
    /// Runs the lines of a block on a cursor that begins at this end: `Block`. An `End` may come last.
    Cursor(u8, ListEnd, Vec<CursorCommand>),
}
