//! Commands of mode `list` that are read from their lines, and printed as these.

use crate::compared::{made, same};
use cordyceps::replay::{CursorCommand, Filter, Item, ListCommand, ListEnd, Turn};
use replay_lines::cursor_command::read_cursor_command;
use replay_lines::list_command::read_command;
use std::alloc::{AllocError, Global};
use std::test::Fail;

/// Returns a word and numbers, with a space before each number.
fn spell(alloc: Global, word: &str, numbers: &[u64]) -> Result<String, AllocError> {
    let mut line = String::from_str(alloc, word)?;
    for number in numbers {
        let more = format!(in alloc; " {number}")?;
        line.push_str(&more)?;
    }
    Ok(line)
}

/// Returns a line, a space and a word.
fn with_word(mut line: String, word: &str) -> Result<String, AllocError> {
    line.push_str(" ")?;
    line.push_str(word)?;
    Ok(line)
}

/// Returns the letters of turns.
fn letters(alloc: Global, turns: &[Turn]) -> Result<String, AllocError> {
    let mut letters = String::new(alloc);
    for turn in turns {
        letters.push_str(match turn {
            Turn::Next => "n",
            Turn::NextBack => "b",
        })?;
    }
    Ok(letters)
}

fn word_of_filter(filter: Filter) -> &'static str {
    match filter {
        Filter::Even => "even",
        Filter::Alternate => "alt",
        Filter::All => "all",
    }
}

fn word_of_end(end: ListEnd) -> &'static str {
    match end {
        ListEnd::Front => "front",
        ListEnd::Back => "back",
    }
}

/// Returns a word, the number of a list, and an item.
fn with_item(alloc: Global, word: &str, list: u8, item: Item) -> Result<String, AllocError> {
    spell(alloc, word, &[list as u64, item.id, item.value])
}

/// Returns a word, the number of a list, and turns.
fn with_turns(alloc: Global, word: &str, list: u8, turns: &[Turn]) -> Result<String, AllocError> {
    let line = spell(alloc, word, &[list as u64])?;
    let letters = letters(alloc, turns)?;
    with_word(line, &letters)
}

/// Returns the line of `drain`.
fn drain(alloc: Global, list: u8, filter: Filter, most: u64) -> Result<String, AllocError> {
    let line = spell(alloc, "drain", &[list as u64])?;
    let filter = spell(alloc, word_of_filter(filter), &[most])?;
    with_word(line, &filter)
}

/// Returns the line of a command; of a block, its first line.
fn line_of(alloc: Global, command: &ListCommand) -> Result<String, AllocError> {
    match command {
        ListCommand::PushFront(list, item) => with_item(alloc, "pushf", *list, *item),
        ListCommand::PushBack(list, item) => with_item(alloc, "pushb", *list, *item),
        ListCommand::PopFront(list) => spell(alloc, "popf", &[*list as u64]),
        ListCommand::PopBack(list) => spell(alloc, "popb", &[*list as u64]),
        ListCommand::Front(list) => spell(alloc, "front", &[*list as u64]),
        ListCommand::Back(list) => spell(alloc, "back", &[*list as u64]),
        ListCommand::SetFront(list, value) => spell(alloc, "setf", &[*list as u64, *value]),
        ListCommand::SetBack(list, value) => spell(alloc, "setb", &[*list as u64, *value]),
        ListCommand::Len(list) => spell(alloc, "len", &[*list as u64]),
        ListCommand::Append(list, other) => spell(alloc, "append", &[*list as u64, *other as u64]),
        ListCommand::Split(list, at, other) => {
            spell(alloc, "split", &[*list as u64, *at, *other as u64])
        }
        ListCommand::Remove(list, id) => spell(alloc, "remove", &[*list as u64, *id]),
        ListCommand::Bump(list, by) => spell(alloc, "bump", &[*list as u64, *by]),
        ListCommand::Walk(list, turns) => with_turns(alloc, "walk", *list, turns),
        ListCommand::Into(list, turns) => with_turns(alloc, "into", *list, turns),
        ListCommand::Drain(list, filter, most) => drain(alloc, *list, *filter, *most),
        ListCommand::Show(list) => spell(alloc, "show", &[*list as u64]),
        ListCommand::Cursor(list, end, _) => {
            with_word(spell(alloc, "cursor", &[*list as u64])?, word_of_end(*end))
        }
    }
}

/// Returns the line of a command of a block.
fn line_in_block(alloc: Global, command: CursorCommand) -> Result<String, AllocError> {
    match command {
        CursorCommand::MoveNext => spell(alloc, "next", &[]),
        CursorCommand::MovePrev => spell(alloc, "prev", &[]),
        CursorCommand::Current => spell(alloc, "cur", &[]),
        CursorCommand::PeekNext => spell(alloc, "pnext", &[]),
        CursorCommand::PeekPrev => spell(alloc, "pprev", &[]),
        CursorCommand::Index => spell(alloc, "index", &[]),
        CursorCommand::Len => spell(alloc, "len", &[]),
        CursorCommand::Set(value) => spell(alloc, "set", &[value]),
        CursorCommand::SetNext(value) => spell(alloc, "setn", &[value]),
        CursorCommand::SetPrev(value) => spell(alloc, "setp", &[value]),
        CursorCommand::Next => spell(alloc, "step", &[]),
        CursorCommand::RemoveCurrent => spell(alloc, "remove", &[]),
        CursorCommand::RemoveFirst(filter) => {
            with_word(spell(alloc, "first", &[])?, word_of_filter(filter))
        }
        CursorCommand::InsertAfter(item) => spell(alloc, "insa", &[item.id, item.value]),
        CursorCommand::InsertBefore(item) => spell(alloc, "insb", &[item.id, item.value]),
        CursorCommand::SplitAfter(other) => spell(alloc, "splita", &[other as u64]),
        CursorCommand::SplitBefore(other) => spell(alloc, "splitb", &[other as u64]),
        CursorCommand::SpliceAfter(other) => spell(alloc, "splicea", &[other as u64]),
        CursorCommand::SpliceBefore(other) => spell(alloc, "spliceb", &[other as u64]),
        CursorCommand::End => spell(alloc, "end", &[]),
    }
}

/// Lines outside of blocks, of each command at least one.
const LINES: [&str; 21] = [
    "pushf 0 1 2",
    "pushb 15 18446744073709551615 0",
    "popf 1",
    "popb 2",
    "front 3",
    "back 4",
    "setf 5 6",
    "setb 7 8",
    "len 9",
    "append 10 11",
    "split 12 1000 13",
    "remove 14 99",
    "bump 0 18446744073709551615",
    "walk 1 nnbb",
    "into 2 b",
    "drain 3 even 0",
    "drain 4 alt 5",
    "drain 6 all 18446744073709551615",
    "show 7",
    "cursor 8 front",
    "cursor 9 back",
];

/// Lines of a block, of each command at least one.
const LINES_IN_BLOCKS: [&str; 22] = [
    "next",
    "prev",
    "cur",
    "pnext",
    "pprev",
    "index",
    "len",
    "set 1",
    "setn 2",
    "setp 18446744073709551615",
    "step",
    "remove",
    "first even",
    "first alt",
    "first all",
    "insa 4 5",
    "insb 6 7",
    "splita 0",
    "splitb 15",
    "splicea 1",
    "spliceb 2",
    "end",
];

#[test]
fn a_command_is_printed_as_its_line(rt: HostRuntime) -> Result<(), Fail> {
    for line in LINES {
        let read = made(&rt, read_command(rt.alloc(), line.as_bytes()));
        let printed = match &read {
            Some(command) => line_of(rt.alloc(), command)?,
            None => String::new(rt.alloc()),
        };
        same(&rt, printed.as_str(), line);
    }
    Ok(())
}

#[test]
fn a_command_of_a_block_is_printed_as_its_line(rt: HostRuntime) -> Result<(), Fail> {
    for line in LINES_IN_BLOCKS {
        let printed = match read_cursor_command(line.as_bytes()) {
            Some(command) => line_in_block(rt.alloc(), command)?,
            None => String::new(rt.alloc()),
        };
        same(&rt, printed.as_str(), line);
    }
    Ok(())
}
