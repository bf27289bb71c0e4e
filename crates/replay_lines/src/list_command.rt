//! The lines of mode `list` outside of blocks.
ghost use Rattle.std.specs.Prelude.{◌≡◌, true, Some, is_some, IfOk, OnErr, IfSome};
ghost use Rattle.std.specs.Option.{option_map};
ghost use Rattle.replay_lines.specs.Words.{words_left};
ghost use Rattle.replay_lines.specs.LineWords.{no_word_of};
ghost use Rattle.replay_lines.specs.ListVerbs.{end_verb_of, verb_of};
ghost use Rattle.replay_lines.specs.ListScript.{meaning_of_command, meaning_with, meaning_of, LineFits};
ghost use Rattle.replay_lines.specs.Spelling.{spelling_of, HasNumbers};
ghost use Rattle.cordyceps_commands.specs.declared.list_command.ListCommand.{ListCommand};

use crate::line_words::{item, no_word, structure, value};
use crate::list_words::{drain_words, end_word, split_words, turns_word};
use crate::words::{Words, structure_number};
use cordyceps_commands::ListCommand;
use std::alloc::{AllocError, Global};

/// A command word of the mode.
#[derive(Clone, Copy)]
pub enum Verb {
    /// `pushf L ID V`: prepends an item.
    PushFront,
    /// `pushb L ID V`: appends an item.
    PushBack,
    /// `popf L`: removes the first item.
    PopFront,
    /// `popb L`: removes the last item.
    PopBack,
    /// `front L`: reads the first item.
    Front,
    /// `back L`: reads the last item.
    Back,
    /// `setf L V`: sets the value of the first item.
    SetFront,
    /// `setb L V`: sets the value of the last item.
    SetBack,
    /// `len L`: counts the items.
    Len,
    /// `append L M`: moves all items of list M to the back of list L.
    Append,
    /// `split L AT M`: keeps AT items, and moves the others to list M.
    Split,
    /// `remove L ID`: removes the first item with this number.
    Remove,
    /// `bump L N`: adds N to the value of each item.
    Bump,
    /// `walk L W`: reads items by an iterator, from both ends.
    Walk,
    /// `into L W`: removes all items, and shows those that an iterator returns.
    Into,
    /// `drain L F K`: removes the items that pass, at most K.
    Drain,
    /// `show L`: reads all items.
    Show,
    /// `cursor L front` or `cursor L back`: begins a cursor block.
    Cursor,
}

/// Reads a word of a call on the ends of a list.
fn read_end_verb(word: &[u8]) -> Option<Verb>
    ensures { result ≡ end_verb_of word.now }
{
    if word == b"pushf".as_slice() {
        Some(Verb::PushFront)
    } else if word == b"pushb".as_slice() {
        Some(Verb::PushBack)
    } else if word == b"popf".as_slice() {
        Some(Verb::PopFront)
    } else if word == b"popb".as_slice() {
        Some(Verb::PopBack)
    } else if word == b"front".as_slice() {
        Some(Verb::Front)
    } else if word == b"back".as_slice() {
        Some(Verb::Back)
    } else if word == b"setf".as_slice() {
        Some(Verb::SetFront)
    } else if word == b"setb".as_slice() {
        Some(Verb::SetBack)
    } else {
        None
    }
}

pub(crate) fn read_verb(word: &[u8]) -> Option<Verb>
    ensures { result ≡ verb_of word.now }
{
    if word == b"len".as_slice() {
        Some(Verb::Len)
    } else if word == b"append".as_slice() {
        Some(Verb::Append)
    } else if word == b"split".as_slice() {
        Some(Verb::Split)
    } else if word == b"remove".as_slice() {
        Some(Verb::Remove)
    } else if word == b"bump".as_slice() {
        Some(Verb::Bump)
    } else if word == b"walk".as_slice() {
        Some(Verb::Walk)
    } else if word == b"into".as_slice() {
        Some(Verb::Into)
    } else if word == b"drain".as_slice() {
        Some(Verb::Drain)
    } else if word == b"show".as_slice() {
        Some(Verb::Show)
    } else if word == b"cursor".as_slice() {
        Some(Verb::Cursor)
    } else {
        read_end_verb(word)
    }
}

/// Returns the command, unless a word is left.
fn bare(words: Words, command: ListCommand) -> Option<ListCommand>
    ensures { result ≡ option_map (λ none. command) (no_word_of (words_left words.entry.rest)) }
{
    no_word(words)?;
    Some(command)
}

/// Reads the words after the number of a list, if the command word takes no turns.
fn read_plain(alloc: Global, verb: Verb, list: u8, words: Words) -> Option<ListCommand>
    requires walk { verb ≡ Verb.Walk → ⊥ }
    requires into { verb ≡ Verb.Into → ⊥ }
    ensures { option_map meaning_of_command result ≡ meaning_with verb list (words_left words.entry.rest) }
{
    match verb {
        Verb::PushFront => Some(ListCommand::PushFront(list, item(words)?)),
        Verb::PushBack => Some(ListCommand::PushBack(list, item(words)?)),
        Verb::PopFront => bare(words, ListCommand::PopFront(list)),
        Verb::PopBack => bare(words, ListCommand::PopBack(list)),
        Verb::Front => bare(words, ListCommand::Front(list)),
        Verb::Back => bare(words, ListCommand::Back(list)),
        Verb::SetFront => Some(ListCommand::SetFront(list, value(words)?)),
        Verb::SetBack => Some(ListCommand::SetBack(list, value(words)?)),
        Verb::Len => bare(words, ListCommand::Len(list)),
        Verb::Append => Some(ListCommand::Append(list, structure(words)?)),
        Verb::Split => {
            let (at, other) = split_words(words)?;
            Some(ListCommand::Split(list, at, other))
        }
        Verb::Remove => Some(ListCommand::Remove(list, value(words)?)),
        Verb::Bump => Some(ListCommand::Bump(list, value(words)?)),
        Verb::Walk | Verb::Into => unreachable!(),
        Verb::Drain => {
            let (filter, most) = drain_words(words)?;
            Some(ListCommand::Drain(list, filter, most))
        }
        Verb::Show => bare(words, ListCommand::Show(list)),
        Verb::Cursor => Some(ListCommand::Cursor(list, end_word(words)?, Vec::new(alloc))),
    }
}

/// Reads the words after the number of a list.
fn read_with(
    alloc: Global,
    verb: Verb,
    list: u8,
    words: Words,
) -> Result<Option<ListCommand>, AllocError>
    ensures value { IfOk result
        (λ read. option_map meaning_of_command read ≡ meaning_with verb list (words_left words.entry.rest)) }
    ensures err { OnErr result (is_some (meaning_with verb list (words_left words.entry.rest)) ≡ true) }
{
    match verb {
        Verb::Walk => {
            let turns = turns_word(alloc, words)?;
            Ok(turns.map(|turns| ListCommand::Walk(list, turns)))
        }
        Verb::Into => {
            let turns = turns_word(alloc, words)?;
            Ok(turns.map(|turns| ListCommand::Into(list, turns)))
        }
        _ => Ok(read_plain(alloc, verb, list, words)),
    }
}

/// Reads the command word, the number of the list, and the words that follow it.
fn read_words(alloc: Global, line: &[u8]) -> Result<Option<ListCommand>, AllocError>
    ensures value { IfOk result (λ read. option_map meaning_of_command read ≡ meaning_of line.now) }
    ensures err { OnErr result (is_some (meaning_of line.now) ≡ true) }
{
    let mut words = Words::new(line);
    let Some(verb) = words.next_word().and_then(read_verb) else {
        return Ok(None);
    };
    let Some(list) = words.next_word().and_then(structure_number) else {
        return Ok(None);
    };
    read_with(alloc, verb, list, words)
}

/// Reads a line of mode `list` outside of blocks, or returns `None` if the line is bad. The first line of a block is
/// the command of a block without lines.
///
/// # Errors
/// If memory is refused, it returns `AllocError`. The line is not bad then.
///
/// # Complexity
/// O(b), for b bytes of the line. Only `walk` and `into` allocate.
pub fn read_command(alloc: Global, line: &[u8]) -> Result<Option<ListCommand>, AllocError>
    ensures value { IfOk result (λ read. option_map meaning_of_command read ≡ meaning_of line.now) }
    ensures fits { IfOk result (λ read. IfSome read LineFits) }
    ensures spelled { IfOk result (λ read. IfSome read (λ command. line.now ≡ spelling_of command)) }
    ensures every { IfOk result
        (λ read. (command : ListCommand) → LineFits command → HasNumbers command → spelling_of command ≡ line.now
        → option_map meaning_of_command read ≡ Some (meaning_of_command command)) }
    ensures err { OnErr result (is_some (meaning_of line.now) ≡ true) }
{
    read_words(alloc, line)
}
