//! Commands on stacks.
ghost use Rattle.std.specs.Prelude.{All};
ghost use Rattle.cordyceps.specs.Stacks.{Fits};

use crate::wanted::{ONE, TWO, Want, queue_of, replied};
use cordyceps::replay::{StackCommand, Stacks, replay_stacks};
use std::alloc::{AllocError, Global};
use std::collections::VecDeque;
use std::process::Abort;
use std::test::Fail;

/// Runs the commands on the stacks, and the rest where memory was refused, and asserts what they reply.
fn replies(
    rt: &impl Abort,
    alloc: Global,
    stacks: Stacks,
    commands: VecDeque<StackCommand>,
    wants: &[Want<'_>],
) -> Result<(), AllocError>
    requires { All Fits commands.items }
{
    let mut stacks = stacks;
    let first = replay_stacks(alloc, &mut stacks, commands);
    let second = replay_stacks(alloc, &mut stacks, first.rest);
    replied(
        rt,
        alloc,
        (first.replies.as_slice(), second.replies.as_slice()),
        second.rest.len(),
        wants,
    )
}

#[test]
fn moves_and_drains(rt: HostRuntime) -> Result<(), Fail> {
    let commands = queue_of(
        rt.alloc(),
        [
            StackCommand::Push(0, ONE),
            StackCommand::Push(0, TWO),
            StackCommand::TakeAll(0, 1),
            StackCommand::IsEmpty(0),
            StackCommand::Drain(1),
            StackCommand::IsEmpty(1),
            StackCommand::Drain(15),
        ],
    )?;
    let wants = [
        Want::Truth(true),
        Want::Truth(false),
        Want::Done,
        Want::Truth(true),
        Want::Items(&[TWO, ONE]),
        Want::Truth(true),
        Want::Items(&[]),
    ];
    replies(&rt, rt.alloc(), Stacks::default(), commands, &wants)?;
    Ok(())
}
