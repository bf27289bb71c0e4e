//! A replay of thousands of commands, beside a plain model of what they do.
ghost use Rattle.std.specs.Prelude.{All, IfOk};
ghost use Rattle.cordyceps.specs.Lists.{Fits};

use crate::compared::{made, same};
use cordyceps::replay::{Item, ListCommand, Lists, Reply, replay_lists};
use std::alloc::{AllocError, Global};
use std::collections::VecDeque;
use std::mem;
use std::process::Abort;
use std::test::Fail;
use test_support::draws::Draws;

/// How many commands are drawn. As many as there are lists follow, of which each shows one.
const DRAWN: usize = 4000;

/// A command on one of four lists, or on two.
#[derive(Drop)]
struct Drawn {
    list: usize,
    other: usize,
    command: ListCommand,
}

/// Returns the command with this number.
fn draw(draws: &mut Draws, number: usize) -> Drawn
    ensures { Fits result.command }
{
    let list = draws.below(4) as u8;
    let other = draws.below(4) as u8;
    let value = draws.below(100);
    let id = draws.below(10);
    if number >= DRAWN {
        let shown = number % 4;
        return Drawn {
            list: shown,
            other: shown,
            command: ListCommand::Show(shown as u8),
        };
    }
    let command = match draws.below(16) {
        0 | 1 | 2 => ListCommand::PushFront(list, Item { value, id }),
        3 | 4 | 5 => ListCommand::PushBack(list, Item { value, id }),
        6 => ListCommand::PopFront(list),
        7 => ListCommand::PopBack(list),
        8 => ListCommand::Remove(list, id),
        9 => ListCommand::SetBack(list, value),
        10 => ListCommand::Append(list, other),
        11 => ListCommand::Split(list, id, other),
        12 => ListCommand::Bump(list, u64::MAX - value),
        13 => ListCommand::Front(list),
        14 => ListCommand::Len(list),
        _ => ListCommand::Show(list),
    };
    Drawn {
        list: list as usize,
        other: other as usize,
        command,
    }
}

/// Asserts that memory was there for a command, and returns its reply.
fn done(rt: &impl Abort, was_there: bool) -> Reply {
    same(rt, was_there, true);
    Reply::Done
}

/// Returns the reply for an item, if there is one.
fn found(item: Option<Item>) -> Reply {
    match item {
        Some(item) => Reply::Found(item),
        None => Reply::Nothing,
    }
}

/// Returns the reply that shows what is held.
fn shown(rt: &impl Abort, alloc: Global, held: &VecDeque<Item>) -> Reply {
    let mut items = Vec::new(alloc);
    for item in held.iter() {
        done(rt, items.push(Some(*item)).is_ok());
    }
    Reply::Show(items)
}

/// Runs a command on one list, and returns its reply.
fn on_one(
    rt: &impl Abort,
    alloc: Global,
    held: &mut VecDeque<Item>,
    command: &ListCommand,
) -> Reply {
    match command {
        ListCommand::PushFront(_, item) => done(rt, held.push_front(*item).is_ok()),
        ListCommand::PushBack(_, item) => done(rt, held.push_back(*item).is_ok()),
        ListCommand::PopFront(_) => found(held.pop_front()),
        ListCommand::PopBack(_) => found(held.pop_back()),
        ListCommand::Front(_) => found(held.front().copied()),
        ListCommand::Remove(_, id) => match held.iter().position(|item| item.id == *id) {
            Some(at) => found(held.remove(at)),
            None => Reply::Nothing,
        },
        ListCommand::Len(_) => Reply::Len(held.len() as u64),
        ListCommand::SetBack(_, value) => match held.back_mut() {
            Some(last) => {
                last.value = *value;
                Reply::Done
            }
            None => Reply::Nothing,
        },
        ListCommand::Bump(_, by) => {
            for item in held.iter_mut() {
                item.value = item.value.wrapping_add(*by);
            }
            Reply::Done
        }
        _ => shown(rt, alloc, held),
    }
}

/// Appends the second list to the first, or splits the first and moves what is behind to the second, if that is empty.
fn on_two(
    rt: &impl Abort,
    held: &mut VecDeque<Item>,
    other: &mut VecDeque<Item>,
    command: &ListCommand,
) -> Reply {
    match command {
        ListCommand::Split(_, _, _) if !other.is_empty() => Reply::NotThere,
        ListCommand::Split(_, at, _) if *at > held.len() as u64 => Reply::Nothing,
        ListCommand::Split(_, at, _) => {
            *other = made(rt, held.split_off(*at as usize));
            Reply::Done
        }
        _ => done(rt, held.append(other).is_ok()),
    }
}

/// Runs a command on one or two of the lists, and returns its reply.
fn run(rt: &impl Abort, alloc: Global, lists: &mut [VecDeque<Item>; 4], drawn: &Drawn) -> Reply {
    let (list, other) = (drawn.list % 4, drawn.other % 4);
    let command = &drawn.command;
    match command {
        ListCommand::Append(_, _) | ListCommand::Split(_, _, _) if list == other => Reply::NotThere,
        ListCommand::Append(_, _) | ListCommand::Split(_, _, _) => {
            let mut moved = mem::replace(&mut lists[other], VecDeque::new(alloc));
            let reply = on_two(rt, &mut lists[list], &mut moved, command);
            lists[other] = moved;
            reply
        }
        _ => on_one(rt, alloc, &mut lists[list], command),
    }
}

/// Returns the commands, with the model's replies.
fn commands_and_replies(
    rt: &impl Abort,
    alloc: Global,
) -> Result<(VecDeque<ListCommand>, Vec<Reply>), AllocError>
    ensures { IfOk result (λ made. All Fits made.0.items) }
{
    let mut draws = Draws::new(1);
    let mut lists = [
        VecDeque::new(alloc),
        VecDeque::new(alloc),
        VecDeque::new(alloc),
        VecDeque::new(alloc),
    ];
    let mut commands = VecDeque::new(alloc);
    let mut replies = Vec::new(alloc);
    for number in 0..DRAWN + 4 {
        let next = draw(&mut draws, number);
        let reply = run(rt, alloc, &mut lists, &next);
        done(rt, replies.push(reply).is_ok());
        commands.push_back(next.command)?;
    }
    Ok((commands, replies))
}

#[test]
fn replies_as_a_plain_model(rt: HostRuntime) -> Result<(), Fail> {
    let (commands, wanted) = commands_and_replies(&rt, rt.alloc())?;
    let mut lists = Lists::new();
    let played = replay_lists(rt.alloc(), &mut lists, commands);
    same(
        &rt,
        (played.replies.as_slice(), played.rest.len()),
        (wanted.as_slice(), 0),
    );
    Ok(())
}
