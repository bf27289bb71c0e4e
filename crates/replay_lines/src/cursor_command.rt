//! The lines of a cursor block.
ghost use Rattle.std.specs.Prelude.{◌≡◌, Some, IfSome};
ghost use Rattle.cordyceps_commands.specs.ListCommands.{OtherFits};
ghost use Rattle.replay_lines.specs.Words.{words_left};
ghost use Rattle.replay_lines.specs.CursorScript.{bare_of, verb_of, command_with, cursor_command_of};
ghost use Rattle.replay_lines.specs.CursorSpelling.{spelling_of, HasNumbers};
ghost use Rattle.cordyceps_commands.specs.declared.list_command.CursorCommand.{CursorCommand};

use crate::line_words::{item, no_word, only_word, structure, value};
use crate::list_words::filter;
use crate::words::Words;
use cordyceps_commands::CursorCommand;

/// A command word of a block.
#[derive(Clone, Copy)]
pub enum CursorVerb {
    /// A word that is a command by itself.
    Bare(CursorCommand),
    /// `set V`: sets the value of the item at the cursor.
    Set,
    /// `setn V`: sets the value of the next item.
    SetNext,
    /// `setp V`: sets the value of the previous item.
    SetPrev,
    /// `first F`: removes the first item that passes, from the cursor on.
    RemoveFirst,
    /// `insa ID V`: inserts an item after the cursor's.
    InsertAfter,
    /// `insb ID V`: inserts an item before the cursor's.
    InsertBefore,
    /// `splita M`: moves the items after the cursor's to list M.
    SplitAfter,
    /// `splitb M`: moves the items before the cursor's to list M.
    SplitBefore,
    /// `splicea M`: moves all items of list M after the cursor's.
    SpliceAfter,
    /// `spliceb M`: moves all items of list M before the cursor's.
    SpliceBefore,
}

fn read_bare(word: &[u8]) -> Option<CursorCommand>
    ensures { result ≡ bare_of word.now }
{
    if word == b"next".as_slice() {
        Some(CursorCommand::MoveNext)
    } else if word == b"prev".as_slice() {
        Some(CursorCommand::MovePrev)
    } else if word == b"cur".as_slice() {
        Some(CursorCommand::Current)
    } else if word == b"pnext".as_slice() {
        Some(CursorCommand::PeekNext)
    } else if word == b"pprev".as_slice() {
        Some(CursorCommand::PeekPrev)
    } else if word == b"index".as_slice() {
        Some(CursorCommand::Index)
    } else if word == b"len".as_slice() {
        Some(CursorCommand::Len)
    } else if word == b"step".as_slice() {
        Some(CursorCommand::Next)
    } else if word == b"remove".as_slice() {
        Some(CursorCommand::RemoveCurrent)
    } else if word == b"end".as_slice() {
        Some(CursorCommand::End)
    } else {
        None
    }
}

pub(crate) fn read_verb(word: &[u8]) -> Option<CursorVerb>
    ensures { result ≡ verb_of word.now }
{
    if word == b"set".as_slice() {
        Some(CursorVerb::Set)
    } else if word == b"setn".as_slice() {
        Some(CursorVerb::SetNext)
    } else if word == b"setp".as_slice() {
        Some(CursorVerb::SetPrev)
    } else if word == b"first".as_slice() {
        Some(CursorVerb::RemoveFirst)
    } else if word == b"insa".as_slice() {
        Some(CursorVerb::InsertAfter)
    } else if word == b"insb".as_slice() {
        Some(CursorVerb::InsertBefore)
    } else if word == b"splita".as_slice() {
        Some(CursorVerb::SplitAfter)
    } else if word == b"splitb".as_slice() {
        Some(CursorVerb::SplitBefore)
    } else if word == b"splicea".as_slice() {
        Some(CursorVerb::SpliceAfter)
    } else if word == b"spliceb".as_slice() {
        Some(CursorVerb::SpliceBefore)
    } else {
        read_bare(word).map(CursorVerb::Bare)
    }
}

/// Reads the words that follow a command word.
fn read_with(verb: CursorVerb, words: Words) -> Option<CursorCommand>
    ensures { result ≡ command_with verb (words_left words.entry.rest) }
{
    match verb {
        CursorVerb::Bare(command) => no_word(words).map(|()| command),
        CursorVerb::Set => value(words).map(CursorCommand::Set),
        CursorVerb::SetNext => value(words).map(CursorCommand::SetNext),
        CursorVerb::SetPrev => value(words).map(CursorCommand::SetPrev),
        CursorVerb::RemoveFirst => filter(only_word(words)?).map(CursorCommand::RemoveFirst),
        CursorVerb::InsertAfter => item(words).map(CursorCommand::InsertAfter),
        CursorVerb::InsertBefore => item(words).map(CursorCommand::InsertBefore),
        CursorVerb::SplitAfter => structure(words).map(CursorCommand::SplitAfter),
        CursorVerb::SplitBefore => structure(words).map(CursorCommand::SplitBefore),
        CursorVerb::SpliceAfter => structure(words).map(CursorCommand::SpliceAfter),
        CursorVerb::SpliceBefore => structure(words).map(CursorCommand::SpliceBefore),
    }
}

/// Reads the command word, and the words that follow it.
fn read_words(line: &[u8]) -> Option<CursorCommand>
    ensures { result ≡ cursor_command_of line.now }
{
    let mut words = Words::new(line);
    let verb = read_verb(words.next_word()?)?;
    read_with(verb, words)
}

/// Reads a line of a block of mode `list`, or returns `None` if the line is bad.
///
/// # Complexity
/// O(b), for b bytes of the line.
pub fn read_cursor_command(line: &[u8]) -> Option<CursorCommand>
    ensures value { result ≡ cursor_command_of line.now }
    ensures fits { IfSome result OtherFits }
    ensures spelled { IfSome result (λ command. line.now ≡ spelling_of command) }
    ensures every { (command : CursorCommand) → OtherFits command → HasNumbers command → spelling_of command ≡ line.now
        → result ≡ Some command }
{
    read_words(line)
}
