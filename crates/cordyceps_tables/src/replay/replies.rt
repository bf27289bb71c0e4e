//! Replies to commands, made from the results of calls.
ghost use Rattle.std.specs.Prelude.{◌≡◌, ◌∷◌, []};
ghost use Rattle.std.specs.List.{flat_map};
ghost use Rattle.cordyceps_commands.specs.Replies.{block_begins, done, nothing, len, truth, show, not_there, lines_of, found_or_nothing, index_or_nothing};

use cordyceps_commands::{Item, Reply};

/// Returns the reply that a command was run.
pub(crate) fn done() -> Reply
    ensures { lines_of result ≡ done ∷ [] }
{
    Reply::Done
}

/// Returns the reply that a command's condition was not met.
pub(crate) fn not_there() -> Reply
    ensures { lines_of result ≡ not_there ∷ [] }
{
    Reply::NotThere
}

/// Returns the reply that there is no such item.
pub(crate) fn nothing() -> Reply
    ensures { lines_of result ≡ nothing ∷ [] }
{
    Reply::Nothing
}

/// Returns the reply with a number of items.
#[tactic(auto, using(cordyceps_commands::proofs::Replies::len_line))]
pub(crate) fn len_of(count: usize) -> Reply
    ensures { lines_of result ≡ len count ∷ [] }
{
    Reply::Len(count as u64)
}

/// Returns the reply with a truth value.
#[tactic(auto, using(cordyceps_commands::proofs::Replies::truth_line))]
pub(crate) fn truth_of(is: bool) -> Reply
    ensures { lines_of result ≡ truth is ∷ [] }
{
    Reply::Truth(is)
}

/// Returns the reply with the items that were asked for.
#[tactic(auto, using(cordyceps_commands::proofs::Replies::show_line))]
pub(crate) fn show_of(items: Vec<Option<Item>>) -> Reply
    ensures { lines_of result ≡ show items.items ∷ [] }
{
    Reply::Show(items)
}

/// Returns the reply with the replies to the lines of a block.
#[tactic(auto, using(cordyceps_commands::proofs::Replies::block_lines))]
pub(crate) fn block_of(replies: Vec<Reply>) -> Reply
    ensures { lines_of result ≡ block_begins ∷ flat_map lines_of replies.items }
{
    Reply::Block(replies)
}

/// Returns the reply with an item, if there is one.
#[tactic(auto, using(cordyceps_commands::proofs::Replies::found_line))]
pub(crate) fn reply_of(item: Option<Item>) -> Reply
    ensures { lines_of result ≡ found_or_nothing item ∷ [] }
{
    match item {
        Some(item) => Reply::Found(item),
        None => Reply::Nothing,
    }
}

/// Returns the reply with an index, if there is one.
#[tactic(auto, using(cordyceps_commands::proofs::Replies::index_line))]
pub(crate) fn index_of(index: Option<usize>) -> Reply
    ensures { lines_of result ≡ index_or_nothing index ∷ [] }
{
    match index {
        Some(index) => Reply::Index(index as u64),
        None => Reply::Nothing,
    }
}
