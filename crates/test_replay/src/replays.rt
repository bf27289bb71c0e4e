//! Commands on lists, and an item as a handle of each kind.
ghost use Rattle.std.specs.Prelude.{All};
ghost use Rattle.cordyceps.specs.Lists.{Fits};

use crate::compared::same;
use crate::wanted::{ONE, THREE, TWO, Want, queue_of, replied};
use cordyceps::replay::{Item, ListCommand, Lists, replay_lists};
use cordyceps::{Kind, Linked, Node, list, mpsc_queue, stack};
use std::alloc::{AllocError, Global};
use std::collections::VecDeque;
use std::process::Abort;
use std::test::Fail;
use test_support::nodes::node_of;

/// Runs the commands on the lists, and the rest where memory was refused, and asserts what they reply.
pub fn replies(
    rt: &impl Abort,
    alloc: Global,
    lists: Lists,
    commands: VecDeque<ListCommand>,
    wants: &[Want<'_>],
) -> Result<(), AllocError>
    requires { All Fits commands.items }
{
    let mut lists = lists;
    let first = replay_lists(alloc, &mut lists, commands);
    let second = replay_lists(alloc, &mut lists, first.rest);
    replied(
        rt,
        alloc,
        (first.replies.as_slice(), second.replies.as_slice()),
        second.rest.len(),
        wants,
    )
}

#[test]
fn pushes_and_pops(rt: HostRuntime) -> Result<(), Fail> {
    let commands = queue_of(
        rt.alloc(),
        [
            ListCommand::PushBack(0, ONE),
            ListCommand::PushBack(0, TWO),
            ListCommand::PushFront(0, THREE),
            ListCommand::PopFront(0),
            ListCommand::PopBack(0),
            ListCommand::Len(0),
            ListCommand::PopFront(1),
        ],
    )?;
    let wants = [
        Want::Done,
        Want::Done,
        Want::Done,
        Want::Found(THREE),
        Want::Found(TWO),
        Want::Len(1),
        Want::Nothing,
    ];
    replies(&rt, rt.alloc(), Lists::new(), commands, &wants)?;
    Ok(())
}

/// Makes a handle of a node of an item, and asserts the node that it returns.
fn is_its_handle<L: Kind>(rt: &impl Abort, node: Node<Item, L>, item: Item) {
    let node: Node<Item, L> = Item::into_ptr(Item::from_ptr(node));
    same(rt, (node.id(), *node.get()), (item.id, item));
}

#[test]
fn an_item_is_its_own_handle(rt: HostRuntime) -> Result<(), Fail> {
    let item = Item { value: 7, id: 8 };
    is_its_handle::<list::Links<Item>>(&rt, node_of(rt.alloc(), 8, item)?, item);
    is_its_handle::<stack::Links<Item>>(&rt, node_of(rt.alloc(), 8, item)?, item);
    is_its_handle::<mpsc_queue::Links<Item>>(&rt, node_of(rt.alloc(), 8, item)?, item);
    let orders = [
        item < Item { value: 8, id: 0 },
        item < Item { value: 7, id: 9 },
    ];
    same(&rt, orders, [true, true]);
    Ok(())
}
