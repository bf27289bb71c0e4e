//! The lines of mode `sorted`.
ghost use Rattle.std.specs.Prelude.{◌≡◌, ◌++◌, Some, None, true, is_some, IfOk, IfSome, OnErr};
ghost use Rattle.std.specs.Option.{option_map};
ghost use Rattle.cordyceps_commands.specs.SortedCommands.{Fits};
ghost use Rattle.replay_lines.specs.Words.{words_left};
ghost use Rattle.replay_lines.specs.SortedScript.{verb_of, pair_of, pairs_of, structure_and_pairs_of, from, entry_for, entry_of};

use crate::line_words::{item_with, structure, structure_and_item};
use crate::words::{Words, structure_number};
use cordyceps_commands::{Item, SortedCommand};
use memchr::memchr;
use std::alloc::{AllocError, Global};

/// A command word of the mode.
#[derive(Clone, Copy)]
pub enum Verb {
    /// `insert S ID V`: inserts an item.
    Insert,
    /// `pop S`: removes the first item.
    Pop,
    /// `show S`: reads all items.
    Show,
    /// `from S ID:V ..`: pushes the items onto a stack, and creates the list from it.
    From,
}

pub(crate) fn read_verb(word: &[u8]) -> Option<Verb>
    ensures { result ≡ verb_of word.now }
{
    if word == b"insert".as_slice() {
        Some(Verb::Insert)
    } else if word == b"pop".as_slice() {
        Some(Verb::Pop)
    } else if word == b"show".as_slice() {
        Some(Verb::Show)
    } else if word == b"from".as_slice() {
        Some(Verb::From)
    } else {
        None
    }
}

/// Reads `ID:V`.
fn pair(word: &[u8]) -> Option<Item>
    ensures { result ≡ pair_of word.now }
{
    let Some(colon) = memchr(b':', word) else {
        return None;
    };
    item_with(&word[..colon], &word[colon + 1..])
}

/// Returns `true` if all words are pairs `ID:V`.
fn are_pairs(mut words: Words) -> bool
    ensures { result ≡ is_some (pairs_of (words_left words.entry.rest)) }
{
    while let Some(word) = words.next_word() {
        if pair(word).is_none() {
            return false;
        }
    }
    true
}

/// Reads pairs `ID:V`, up to the last word.
fn pairs(alloc: Global, mut words: Words) -> Result<Vec<Item>, AllocError>
    requires { is_some (pairs_of (words_left words.rest)) ≡ true }
    ensures { IfOk result (λ items. Some items.items ≡ pairs_of (words_left words.entry.rest)) }
{
    let mut items = Vec::new(alloc);
    while let Some(word) = words.next_word() {
        match pair(word) {
            Some(item) => items.push(item)?,
            None => unreachable!(),
        }
    }
    Ok(items)
}

/// Reads the number of a list and the pairs `ID:V` of a stack, at least one.
fn from_stack(alloc: Global, mut words: Words) -> Result<Option<SortedCommand>, AllocError>
    ensures value { IfOk result
        (λ command. option_map entry_for command
        ≡ option_map (λ x. from x.0 x.1) (structure_and_pairs_of (words_left words.entry.rest))) }
    ensures fits { IfOk result (λ command. IfSome command Fits) }
    ensures err { OnErr result (is_some (structure_and_pairs_of (words_left words.entry.rest)) ≡ true) }
{
    let Some(word) = words.next_word() else {
        return Ok(None);
    };
    let Some(list) = structure_number(word) else {
        return Ok(None);
    };
    let mut rest = words;
    if rest.next_word().is_none() || !are_pairs(words) {
        return Ok(None);
    }
    let items = pairs(alloc, words)?;
    Ok(Some(SortedCommand::FromStack(list, items)))
}

/// Reads a line of mode `sorted`, or returns `None` if the line is bad.
///
/// # Errors
/// If memory is refused, it returns `AllocError`. The line is not bad then.
///
/// # Complexity
/// O(b), for b bytes of the line. Only `from` allocates.
pub fn read_command(alloc: Global, line: &[u8]) -> Result<Option<SortedCommand>, AllocError>
    ensures value { IfOk result (λ command. option_map entry_for command ≡ entry_of line.now) }
    ensures fits { IfOk result (λ command. IfSome command Fits) }
    ensures err { OnErr result (is_some (entry_of line.now) ≡ true) }
{
    let mut words = Words::new(line);
    let Some(word) = words.next_word() else {
        return Ok(None);
    };
    let Some(verb) = read_verb(word) else {
        return Ok(None);
    };
    let command = match verb {
        Verb::Insert => {
            structure_and_item(words).map(|(list, item)| SortedCommand::Insert(list, item))
        }
        Verb::Pop => structure(words).map(SortedCommand::PopFront),
        Verb::Show => structure(words).map(SortedCommand::Show),
        Verb::From => return from_stack(alloc, words),
    };
    Ok(command)
}
