//! Commands that remove the items that pass a filter.
ghost use Rattle.std.specs.Prelude.{◌≡◌, ◌≤◌, [], length, min, IfOk, OnErr, true, not, vec_capacity};
ghost use Rattle.cordyceps_commands.specs.Replies.{lines_of};
ghost use Rattle.cordyceps_tables.specs.Filters.{passes, drain};
ghost use Rattle.cordyceps_tables.specs.Lists.{show_removed};

use crate::replay::replies::show_of;
use cordyceps_commands::{Filter, Item, Reply};
use cordyceps_list::list::List;
use std::alloc::{AllocError, Global};

/// Returns `true` if an item passes. The turn is that of the first item, the third, and so on.
pub(crate) fn passes(filter: Filter, turn: bool, item: &Item) -> bool
    ensures { result ≡ passes filter turn item.now }
{
    match filter {
        Filter::Even => item.value % 2 == 0,
        Filter::Alternate => turn,
        Filter::All => true,
    }
}

/// Removes the items that pass, at most `limit`, and shows them. Requires capacity for these.
fn take_out(
    list: &mut List<Item>,
    filter: Filter,
    limit: u64,
    mut items: Vec<Option<Item>>,
) -> Reply
    requires none { items.items ≡ [] }
    requires room { min (length list.old) limit ≤ vec_capacity items }
    ensures { (list.new, lines_of result) ≡ show_removed (drain filter limit true list.old 0) }
{
    let mut turn = true;
    let mut drain = list.drain_filter(
        move |item: &Item| -> bool
            ensures answer { result ≡ passes filter turn.entry item.now }
            ensures turned { turn.exit ≡ not turn.entry }
        {
            let is = passes(filter, turn, item);
            turn = !turn;
            is
        },
    );
    for _ in 0..limit {
        let Some(node) = drain.next() else {
            return show_of(items);
        };
        let Ok(()) = items.push(Some(node.into_value())) else {
            unreachable!()
        };
    }
    show_of(items)
}

/// Removes the items that pass, at most `limit`, and shows them. If memory for these is refused, it changes nothing.
pub(crate) fn drain(
    alloc: Global,
    list: &mut List<Item>,
    filter: Filter,
    limit: u64,
) -> Result<Reply, AllocError>
    ensures ok { IfOk result (λ reply. (list.new, lines_of reply) ≡ show_removed (drain filter limit true list.old 0)) }
    ensures err { OnErr result (list.new ≡ list.old) }
{
    let items = Vec::with_capacity(alloc, list.len().min(limit as usize))?;
    Ok(take_out(list, filter, limit, items))
}
