//! Commands on sorted lists.
ghost use Rattle.std.specs.Prelude.{All};
ghost use Rattle.cordyceps.specs.Sorteds.{Fits};

use crate::wanted::{Want, queue_of, replied};
use cordyceps::replay::{Item, SortedCommand, Sorteds, replay_sorted};
use replay_sessions::modes::compare_tens;
use std::alloc::{AllocError, Global};
use std::collections::VecDeque;
use std::process::Abort;
use std::test::Fail;

/// Runs the commands on empty lists, and the rest where memory was refused, and asserts what they reply.
fn replies(
    rt: &impl Abort,
    alloc: Global,
    commands: VecDeque<SortedCommand>,
    wants: &[Want<'_>],
) -> Result<(), AllocError>
    requires { All Fits commands.items }
{
    let mut sorteds = Sorteds::new(compare_tens);
    let first = replay_sorted(alloc, &mut sorteds, commands);
    let second = replay_sorted(alloc, &mut sorteds, first.rest);
    replied(
        rt,
        alloc,
        (first.replies.as_slice(), second.replies.as_slice()),
        second.rest.len(),
        wants,
    )
}

/// Four items, of which two pairs are equal in their tens.
const FOUR_ITEMS: [Item; 4] = [
    Item { value: 21, id: 1 },
    Item { value: 11, id: 2 },
    Item { value: 12, id: 3 },
    Item { value: 20, id: 4 },
];

/// The items in their order.
const IN_ORDER: [Item; 4] = [
    Item { value: 12, id: 3 },
    Item { value: 11, id: 2 },
    Item { value: 20, id: 4 },
    Item { value: 21, id: 1 },
];

/// The items in their order, where one replaced the first.
const THEN: [Item; 4] = [
    Item { value: 11, id: 2 },
    Item { value: 13, id: 6 },
    Item { value: 20, id: 4 },
    Item { value: 21, id: 1 },
];

#[test]
fn keeps_equals_by_arrival(rt: HostRuntime) -> Result<(), Fail> {
    let items = FOUR_ITEMS.to_vec(rt.alloc())?;
    let again = [Item { value: 5, id: 5 }].to_vec(rt.alloc())?;
    let commands = queue_of(
        rt.alloc(),
        [
            SortedCommand::FromStack(11, items),
            SortedCommand::Show(11),
            SortedCommand::FromStack(11, again),
            SortedCommand::Insert(11, Item { value: 13, id: 6 }),
            SortedCommand::PopFront(11),
            SortedCommand::Show(11),
            SortedCommand::PopFront(15),
        ],
    )?;
    let wants = [
        Want::Done,
        Want::Items(&IN_ORDER),
        Want::NotThere,
        Want::Done,
        Want::Found(Item { value: 12, id: 3 }),
        Want::Items(&THEN),
        Want::Nothing,
    ];
    replies(&rt, rt.alloc(), commands, &wants)?;
    Ok(())
}
