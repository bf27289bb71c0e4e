//! The texts of replies to commands on tables.
ghost use Rattle.std.specs.Prelude.{◌≡◌, ◌++◌, length, take, OnErr, OnOk};
ghost use Rattle.cordyceps_commands.specs.Replies.{lines_of, show};
ghost use Rattle.replay_lines.specs.ReplyText.{line_text, shown_text, text_of};

use cordyceps_commands::{Item, Reply};
use std::alloc::{AllocError, Global};

/// Appends an item as a line of items shows it. If memory is refused, appends nothing.
fn push_shown(alloc: Global, text: &mut Vec<u8>, item: Option<Item>) -> Result<(), AllocError>
    ensures ok { OnOk result (text.new.items ≡ text.old.items ++ shown_text item) }
    ensures err { OnErr result (text.new.items ≡ text.old.items) }
{
    let Some(item) = item else {
        return text.extend_from_slice(b" -");
    };
    let id = item.id;
    let value = item.value;
    let shown = format!(in alloc; " {id}:{value}")?;
    text.extend_from_slice(shown.as_bytes())
}

/// Appends a line that shows items. If memory is refused, a prefix of the line may have been appended.
fn push_all(alloc: Global, text: &mut Vec<u8>, items: &[Option<Item>]) -> Result<(), AllocError>
    ensures ok { OnOk result (text.new.items ≡ text.old.items ++ line_text (show items.now)) }
    ensures front { take (length text.old.items) text.new.items ≡ text.old.items }
{
    text.extend_from_slice(b"show")?;
    for item in items {
        push_shown(alloc, text, *item)?;
    }
    text.extend_from_slice(b"\n")
}

/// Appends a line that shows items to the text.
///
/// # Errors
/// If memory is refused, it returns `AllocError`, and appends nothing.
///
/// # Complexity
/// Amortized O(k), for k items.
pub fn push_show(
    alloc: Global,
    text: &mut Vec<u8>,
    items: &[Option<Item>],
) -> Result<(), AllocError>
    ensures ok { OnOk result (text.new.items ≡ text.old.items ++ line_text (show items.now)) }
    ensures err { OnErr result (text.new.items ≡ text.old.items) }
{
    let start = text.len();
    if push_all(alloc, text, items).is_err() {
        text.truncate(start);
        return Err(AllocError);
    }
    Ok(())
}

/// Appends the lines of a reply to the text.
///
/// # Errors
/// If memory is refused, it returns `AllocError`, and appends nothing.
///
/// # Complexity
/// Amortized O(k), for k items and lines of the reply.
pub fn push_reply(alloc: Global, text: &mut Vec<u8>, reply: &Reply) -> Result<(), AllocError>
    ensures ok { OnOk result (text.new.items ≡ text.old.items ++ text_of (lines_of reply.now)) }
    ensures err { OnErr result (text.new.items ≡ text.old.items) }
{
    match reply {
        Reply::Done => text.extend_from_slice(b"ok\n"),
        Reply::Nothing => text.extend_from_slice(b"none\n"),
        Reply::NotThere => text.extend_from_slice(b"not there\n"),
        Reply::Truth(true) => text.extend_from_slice(b"true\n"),
        Reply::Truth(false) => text.extend_from_slice(b"false\n"),
        Reply::Found(item) => {
            let id = item.id;
            let value = item.value;
            let line = format!(in alloc; "some {id} {value}\n")?;
            text.extend_from_slice(line.as_bytes())
        }
        Reply::Len(len) => {
            let len = *len;
            let line = format!(in alloc; "len {len}\n")?;
            text.extend_from_slice(line.as_bytes())
        }
        Reply::Index(index) => {
            let index = *index;
            let line = format!(in alloc; "index {index}\n")?;
            text.extend_from_slice(line.as_bytes())
        }
        Reply::Show(items) => push_show(alloc, text, items),
        Reply::Block(replies) => {
            let start = text.len();
            for reply in replies {
                if push_reply(alloc, text, reply).is_err() {
                    text.truncate(start);
                    return Err(AllocError);
                }
            }
            Ok(())
        }
    }
}
