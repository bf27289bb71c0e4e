//! Words of mode `list`. Each function returns `None` if the words are not these, and takes O(b), for b bytes of the
//! words.
ghost use Rattle.std.specs.Prelude.{◌≡◌, true, Some, is_some, IfOk, OnErr};
ghost use Rattle.std.specs.Option.{option_map};
ghost use Rattle.replay_lines.specs.Words.{words_left};
ghost use Rattle.replay_lines.specs.ListWords.{end_of, filter_of, turn_of, turns_of, turns_word_of, split_words_of, drain_words_of, end_word_of};

use crate::line_words::{only_word, structure, value};
use crate::words::{Words, number};
use cordyceps_commands::{Filter, ListEnd, Turn};
use std::alloc::{AllocError, Global};

/// Reads an end of a list.
fn list_end(word: &[u8]) -> Option<ListEnd>
    ensures { result ≡ end_of word.now }
{
    if word == b"front".as_slice() {
        Some(ListEnd::Front)
    } else if word == b"back".as_slice() {
        Some(ListEnd::Back)
    } else {
        None
    }
}

/// Reads `F`, a filter.
pub fn filter(word: &[u8]) -> Option<Filter>
    ensures { result ≡ filter_of word.now }
{
    if word == b"even".as_slice() {
        Some(Filter::Even)
    } else if word == b"alt".as_slice() {
        Some(Filter::Alternate)
    } else if word == b"all".as_slice() {
        Some(Filter::All)
    } else {
        None
    }
}

fn turn(letter: u8) -> Option<Turn>
    ensures { result ≡ turn_of letter }
{
    match letter {
        b'n' => Some(Turn::Next),
        b'b' => Some(Turn::NextBack),
        _ => None,
    }
}

/// Returns `true` if the word is `W`, of 1 to 64 letters.
fn are_turns(word: &[u8]) -> bool
    ensures { result ≡ is_some (turns_of word.now) }
{
    if word.is_empty() || word.len() > 64 {
        return false;
    }
    for letter in word {
        if turn(*letter).is_none() {
            return false;
        }
    }
    true
}

/// Reads `W`.
fn turns(alloc: Global, word: &[u8]) -> Result<Vec<Turn>, AllocError>
    requires { is_some (turns_of word.now) ≡ true }
    ensures { IfOk result (λ turns. Some turns.items ≡ turns_of word.now) }
{
    let mut turns = Vec::new(alloc);
    for letter in word {
        match turn(*letter) {
            Some(turn) => turns.push(turn)?,
            None => unreachable!(),
        }
    }
    Ok(turns)
}

/// Reads `W`, the turns of an iterator.
///
/// # Errors
/// If memory is refused, it returns `AllocError`. The words are these then.
pub fn turns_word(alloc: Global, words: Words) -> Result<Option<Vec<Turn>>, AllocError>
    ensures value { IfOk result
        (λ read. option_map (λ x. x.items) read ≡ turns_word_of (words_left words.entry.rest)) }
    ensures err { OnErr result (is_some (turns_word_of (words_left words.entry.rest)) ≡ true) }
{
    let Some(word) = only_word(words) else {
        return Ok(None);
    };
    if !are_turns(word) {
        return Ok(None);
    }
    let turns = turns(alloc, word)?;
    Ok(Some(turns))
}

/// Reads `AT M`: an index, and the number of another list.
pub fn split_words(mut words: Words) -> Option<(u64, u8)>
    ensures { result ≡ split_words_of (words_left words.entry.rest) }
{
    let at = number(words.next_word()?)?;
    Some((at, structure(words)?))
}

/// Reads `F K`: a filter, and a number of items.
pub fn drain_words(mut words: Words) -> Option<(Filter, u64)>
    ensures { result ≡ drain_words_of (words_left words.entry.rest) }
{
    let filter = filter(words.next_word()?)?;
    Some((filter, value(words)?))
}

/// Reads `front` or `back`, an end of a list.
pub fn end_word(words: Words) -> Option<ListEnd>
    ensures { result ≡ end_word_of (words_left words.entry.rest) }
{
    list_end(only_word(words)?)
}
