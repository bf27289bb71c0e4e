//! Commands on lists, with a block of commands at a cursor.

use crate::replays::replies;
use crate::wanted::{ONE, THREE, TWO, Want, queue_of};
use cordyceps::replay::{CursorCommand, ListCommand, ListEnd, Lists};
use std::test::Fail;

/// The replies to the lines of the block.
const SPLIT: [Want<'static>; 9] = [
    Want::Done,
    Want::Done,
    Want::Nothing,
    Want::Done,
    Want::Found(THREE),
    Want::Index(2),
    Want::Done,
    Want::Index(0),
    Want::Done,
];

#[test]
fn splits_at_a_cursor(rt: HostRuntime) -> Result<(), Fail> {
    let lines = vec![in rt.alloc();
        CursorCommand::MovePrev,
        CursorCommand::Index,
        CursorCommand::MovePrev,
        CursorCommand::Current,
        CursorCommand::Index,
        CursorCommand::SplitBefore(1),
        CursorCommand::Index,
        CursorCommand::End,
    ]?;
    let commands = queue_of(
        rt.alloc(),
        [
            ListCommand::PushBack(0, ONE),
            ListCommand::PushBack(0, TWO),
            ListCommand::PushBack(0, THREE),
            ListCommand::Cursor(0, ListEnd::Front, lines),
            ListCommand::Show(0),
            ListCommand::Show(1),
        ],
    )?;
    let wants = [
        Want::Done,
        Want::Done,
        Want::Done,
        Want::Block(&SPLIT),
        Want::Items(&[THREE]),
        Want::Items(&[ONE, TWO]),
    ];
    replies(&rt, rt.alloc(), Lists::default(), commands, &wants)?;
    Ok(())
}
