//! The replies of the modes `transfer` and `queue`.
ghost use Rattle.std.specs.Prelude.{◌≡◌, ◌++◌, OnErr, OnOk};
ghost use Rattle.replay_lines.specs.CoreReplies.{core_text, item_text, line_of_reply, show};

use crate::reply::push_show;
use cordyceps_commands::Item;
use std::alloc::{AllocError, Global};

/// The reply to a line of the modes `transfer` and `queue`.
#[derive(Drop)]
pub enum CoreReply {
    /// The party with this number was added.
    Party(usize),
    /// The command was run, and there is nothing more to tell.
    Done,
    /// `true` if the core had no item before.
    Truth(bool),
    /// An item came out.
    Found(Item),
    /// An item came out, the last one of what was taken.
    Last(Item),
    /// A push failed, and its item is returned.
    Failed(Item),
    /// All items were taken, and have yet to come out.
    Taken,
    /// There was no item to take.
    Nothing,
    /// Another party has the right to dequeue.
    Busy,
    /// The queue has no item.
    Empty,
    /// The oldest item of the queue or the one after it is not linked yet.
    Inconsistent,
    /// The items that came out together: newest first from a transfer stack, oldest first from a queue.
    Show(Vec<Item>),
    /// There is no such party, or it cannot take that step or make that call.
    NotThere,
}

/// Appends a line of a word and an item. If memory is refused, appends nothing.
fn push_item(alloc: Global, text: &mut Vec<u8>, word: &str, item: Item) -> Result<(), AllocError>
    ensures ok { OnOk result (text.new.items ≡ text.old.items ++ item_text word.now item) }
    ensures err { OnErr result (text.new.items ≡ text.old.items) }
{
    let id = item.id;
    let value = item.value;
    let line = format!(in alloc; "{word} {id} {value}\n")?;
    text.extend_from_slice(line.as_bytes())
}

/// Appends a line that shows items. If memory is refused, appends nothing.
fn push_items(alloc: Global, text: &mut Vec<u8>, items: &[Item]) -> Result<(), AllocError>
    ensures ok { OnOk result (text.new.items ≡ text.old.items ++ core_text (show items.now)) }
    ensures err { OnErr result (text.new.items ≡ text.old.items) }
{
    let mut shown = Vec::new(alloc);
    for item in items {
        shown.push(Some(*item))?;
    }
    push_show(alloc, text, &shown)
}

/// Appends the line of a reply to the text.
///
/// # Errors
/// If memory is refused, it returns `AllocError`, and appends nothing.
///
/// # Complexity
/// Amortized O(k), for k items of the reply.
pub fn push_core_reply(
    alloc: Global,
    text: &mut Vec<u8>,
    reply: &CoreReply,
) -> Result<(), AllocError>
    ensures ok { OnOk result (text.new.items ≡ text.old.items ++ core_text (line_of_reply reply.now)) }
    ensures err { OnErr result (text.new.items ≡ text.old.items) }
{
    match reply {
        CoreReply::Party(party) => {
            let party = *party;
            let line = format!(in alloc; "party {party}\n")?;
            text.extend_from_slice(line.as_bytes())
        }
        CoreReply::Done => text.extend_from_slice(b"ok\n"),
        CoreReply::Truth(true) => text.extend_from_slice(b"true\n"),
        CoreReply::Truth(false) => text.extend_from_slice(b"false\n"),
        CoreReply::Found(item) => push_item(alloc, text, "some", *item),
        CoreReply::Last(item) => push_item(alloc, text, "last", *item),
        CoreReply::Failed(item) => push_item(alloc, text, "failed", *item),
        CoreReply::Taken => text.extend_from_slice(b"taken\n"),
        CoreReply::Nothing => text.extend_from_slice(b"none\n"),
        CoreReply::Busy => text.extend_from_slice(b"busy\n"),
        CoreReply::Empty => text.extend_from_slice(b"empty\n"),
        CoreReply::Inconsistent => text.extend_from_slice(b"inconsistent\n"),
        CoreReply::Show(items) => push_items(alloc, text, items),
        CoreReply::NotThere => text.extend_from_slice(b"not there\n"),
    }
}
