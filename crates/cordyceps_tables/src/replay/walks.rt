//! Commands on a list by its iterators.
ghost use Rattle.std.specs.Prelude.{◌≡◌, ◌∷◌, [], Some, map, IfOk, OnOk, OnErr};
ghost use Rattle.cordyceps_base.specs.Element.{values};
ghost use Rattle.cordyceps_commands.specs.Replies.{done, show, lines_of};
ghost use Rattle.cordyceps_tables.specs.Walks.{item_for, rest_after, items_for, bump_all};

use crate::replay::replies::{done, show_of};
use cordyceps_base::node::Node;
use cordyceps_commands::{Item, Reply, Turn};
use cordyceps_list::iter::{IntoIter, Iter};
use cordyceps_list::list::List;
use std::alloc::{AllocError, Global};
use std::mem;

/// Adds a number to the value of each item, modulo 2^64.
pub(crate) fn bump(list: &mut List<Item>, by: u64) -> Reply
    ensures kept { list.new ≡ bump_all by list.old }
    ensures reply { lines_of result ≡ done ∷ [] }
{
    let mut items = list.iter_mut();
    while let Some(item) = items.next() {
        item.value = item.value.wrapping_add(by);
    }
    done()
}

/// Returns what an iterator returns at one of its ends.
fn look(items: &mut Iter<'_, Item>, turn: Turn) -> Option<Item>
    ensures answer { result ≡ item_for turn items.old }
    ensures rest { items.new ≡ rest_after turn items.old }
{
    match turn {
        Turn::Next => items.next().copied(),
        Turn::NextBack => items.next_back().copied(),
    }
}

/// Shows the items that an iterator returns. If memory for these is refused, it returns an error.
pub(crate) fn walk(alloc: Global, list: &List<Item>, turns: &[Turn]) -> Result<Reply, AllocError>
    ensures { IfOk result (λ reply. lines_of reply ≡ show (items_for turns.now (values list.now)) ∷ []) }
{
    let mut shown = Vec::with_capacity(alloc, turns.len())?;
    let mut items = list.iter();
    for turn in turns {
        let item = look(&mut items, *turn);
        let Ok(()) = shown.push(item) else {
            unreachable!()
        };
    }
    Ok(show_of(shown))
}

/// Returns the item of the handle that an iterator returns at one of its ends.
#[tactic(auto, using(crate::proofs::Walks::last_given))]
fn take(items: &mut IntoIter<Item>, turn: Turn) -> Option<Item>
    ensures answer { result ≡ item_for turn (values items.old) }
    ensures rest { values items.new ≡ rest_after turn (values items.old) }
{
    match turn {
        Turn::Next => items.next().map(Node::into_value),
        Turn::NextBack => items.next_back().map(Node::into_value),
    }
}

/// Removes all items, and shows those that an iterator returns. If memory for these is refused, it changes nothing.
pub(crate) fn walk_into(
    alloc: Global,
    list: &mut List<Item>,
    turns: &[Turn],
) -> Result<Reply, AllocError>
    ensures emptied { OnOk result (list.new ≡ []) }
    ensures ok { IfOk result (λ reply. lines_of reply ≡ show (items_for turns.now (values list.old)) ∷ []) }
    ensures err { OnErr result (list.new ≡ list.old) }
{
    let mut shown = Vec::with_capacity(alloc, turns.len())?;
    let mut items = mem::replace(list, List::new()).into_iter();
    for turn in turns {
        let item = take(&mut items, *turn);
        let Ok(()) = shown.push(item) else {
            unreachable!()
        };
    }
    Ok(show_of(shown))
}

/// Shows all items. If memory for these is refused, it returns an error.
pub(crate) fn show(alloc: Global, list: &List<Item>) -> Result<Reply, AllocError>
    ensures { IfOk result (λ reply. lines_of reply ≡ show (map Some (values list.now)) ∷ []) }
{
    let mut shown = Vec::with_capacity(alloc, list.len())?;
    for item in list.iter() {
        let Ok(()) = shown.push(Some(*item)) else {
            unreachable!()
        };
    }
    Ok(show_of(shown))
}
