//! Items, queues of commands, and the replies that are wanted.
ghost use Rattle.std.specs.Prelude.{◌≡◌, IfOk};

use crate::compared::same;
use cordyceps::replay::{Item, Reply};
use std::alloc::{AllocError, Global};
use std::collections::VecDeque;
use std::process::Abort;

/// The item whose number and value are 1.
pub const ONE: Item = Item { value: 1, id: 1 };

/// The item whose number and value are 2.
pub const TWO: Item = Item { value: 2, id: 2 };

/// The item whose number and value are 3.
pub const THREE: Item = Item { value: 3, id: 3 };

/// Returns a queue of the commands.
pub fn queue_of<C: Drop, const N: usize>(
    alloc: Global,
    commands: [C; N],
) -> Result<VecDeque<C>, AllocError>
    ensures { IfOk result (λ queue. queue.items ≡ commands) }
{
    Ok(VecDeque::from_array(alloc, commands)?)
}

/// A reply that is wanted. It takes no memory, so that a table can have it.
#[derive(Clone, Copy)]
pub enum Want<'a> {
    /// The command was run.
    Done,
    /// There is no such item or place.
    Nothing,
    /// The command's condition was not met.
    NotThere,
    /// This item was found.
    Found(Item),
    /// There are this many items.
    Len(u64),
    /// A cursor is at this index.
    Index(u64),
    /// Whether it is so.
    Truth(bool),
    /// These items are shown.
    Items(&'a [Item]),
    /// The lines of a block have these replies, of which none holds more.
    Block(&'a [Want<'a>]),
}

/// Returns the reply of a line of a block.
fn line_of(rt: &impl Abort, want: Want<'_>) -> Reply {
    match want {
        Want::Done => Reply::Done,
        Want::Nothing => Reply::Nothing,
        Want::NotThere => Reply::NotThere,
        Want::Found(item) => Reply::Found(item),
        Want::Len(len) => Reply::Len(len),
        Want::Index(index) => Reply::Index(index),
        Want::Truth(truth) => Reply::Truth(truth),
        Want::Items(_) | Want::Block(_) => panic!(rt; "a line holds no more"),
    }
}

/// Returns the replies of the lines of a block.
fn lines_of(rt: &impl Abort, alloc: Global, wants: &[Want<'_>]) -> Result<Vec<Reply>, AllocError> {
    let mut replies = Vec::new(alloc);
    for want in wants {
        replies.push(line_of(rt, *want))?;
    }
    Ok(replies)
}

/// Returns items that are shown.
fn shown(alloc: Global, items: &[Item]) -> Result<Vec<Option<Item>>, AllocError> {
    let mut shown = Vec::new(alloc);
    for item in items {
        shown.push(Some(*item))?;
    }
    Ok(shown)
}

/// Returns the replies that are wanted.
fn replies_of(
    rt: &impl Abort,
    alloc: Global,
    wants: &[Want<'_>],
) -> Result<Vec<Reply>, AllocError> {
    let mut replies = Vec::new(alloc);
    for want in wants {
        let reply = match *want {
            Want::Items(items) => Reply::Show(shown(alloc, items)?),
            Want::Block(lines) => Reply::Block(lines_of(rt, alloc, lines)?),
            plain => line_of(rt, plain),
        };
        replies.push(reply)?;
    }
    Ok(replies)
}

/// Asserts that all commands were replayed, and what was replied to the first of them and then to the rest.
pub fn replied(
    rt: &impl Abort,
    alloc: Global,
    (first, second): (&[Reply], &[Reply]),
    left: usize,
    wants: &[Want<'_>],
) -> Result<(), AllocError> {
    let wanted = replies_of(rt, alloc, wants)?;
    let (before, after) = wanted.split_at(first.len().min(wanted.len()));
    same(rt, (first, second, left), (before, after, 0));
    Ok(())
}
