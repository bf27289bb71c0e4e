//! The lines of mode `transfer`.
ghost use Rattle.std.specs.Prelude.{◌≡◌, Some, IfSome};
ghost use Rattle.replay_lines.specs.Words.{words_left};
ghost use Rattle.replay_lines.specs.TransferScript.{verb_of, command_with, command_of};
ghost use Rattle.replay_lines.specs.TransferSpelling.{spelling_of, HasNumbers};

use crate::line_words::{no_word, party, party_and_item};
use crate::words::Words;
use cordyceps_commands::Item;

/// A command of mode `transfer`, with the number of its party.
#[derive(Clone, Copy)]
pub enum TransferCommand {
    /// Adds a party.
    Party,
    /// Adds a free room to the party.
    Room(usize),
    /// Begins a push.
    Load(usize, Item),
    /// Makes the room of a push lead to what was read.
    SetNext(usize),
    /// Ends a push, which fails if the head is not what was read.
    Exchange(usize),
    /// Takes all items.
    Take(usize),
    /// Returns the next item of what was taken.
    Walk(usize),
    /// Pushes an item, without a step of another party between.
    Push(usize, Item),
    /// Takes all items and returns them, without a step of another party between.
    TakeAll(usize),
}

/// A command word of the mode.
#[derive(Clone, Copy)]
pub enum Verb {
    /// `party`: adds a party.
    Party,
    /// `room P`: adds a free room to the party.
    Room,
    /// `load P ID V`: begins a push.
    Load,
    /// `setnext P`: makes the room of a push lead to what was read.
    SetNext,
    /// `exch P`: ends a push.
    Exchange,
    /// `take P`: takes all items.
    Take,
    /// `walk P`: returns the next item of what was taken.
    Walk,
    /// `push P ID V`: pushes an item.
    Push,
    /// `takeall P`: takes all items and returns them.
    TakeAll,
}

pub(crate) fn read_verb(word: &[u8]) -> Option<Verb>
    ensures { result ≡ verb_of word.now }
{
    if word == b"party".as_slice() {
        Some(Verb::Party)
    } else if word == b"room".as_slice() {
        Some(Verb::Room)
    } else if word == b"load".as_slice() {
        Some(Verb::Load)
    } else if word == b"setnext".as_slice() {
        Some(Verb::SetNext)
    } else if word == b"exch".as_slice() {
        Some(Verb::Exchange)
    } else if word == b"take".as_slice() {
        Some(Verb::Take)
    } else if word == b"walk".as_slice() {
        Some(Verb::Walk)
    } else if word == b"push".as_slice() {
        Some(Verb::Push)
    } else if word == b"takeall".as_slice() {
        Some(Verb::TakeAll)
    } else {
        None
    }
}

/// Reads the words that follow a command word.
fn read_with(verb: Verb, words: Words) -> Option<TransferCommand>
    ensures { result ≡ command_with verb (words_left words.entry.rest) }
{
    match verb {
        Verb::Party => no_word(words).map(|()| TransferCommand::Party),
        Verb::Room => party(words).map(TransferCommand::Room),
        Verb::Load => party_and_item(words).map(|(p, i)| TransferCommand::Load(p, i)),
        Verb::SetNext => party(words).map(TransferCommand::SetNext),
        Verb::Exchange => party(words).map(TransferCommand::Exchange),
        Verb::Take => party(words).map(TransferCommand::Take),
        Verb::Walk => party(words).map(TransferCommand::Walk),
        Verb::Push => party_and_item(words).map(|(p, i)| TransferCommand::Push(p, i)),
        Verb::TakeAll => party(words).map(TransferCommand::TakeAll),
    }
}

/// Reads the command word, and the words that follow it.
fn read_words(line: &[u8]) -> Option<TransferCommand>
    ensures { result ≡ command_of line.now }
{
    let mut words = Words::new(line);
    let verb = read_verb(words.next_word()?)?;
    read_with(verb, words)
}

/// Reads a line of mode `transfer`, or returns `None` if the line is bad.
///
/// # Complexity
/// O(b), for b bytes of the line.
pub fn read_command(line: &[u8]) -> Option<TransferCommand>
    ensures value { result ≡ command_of line.now }
    ensures spelled { IfSome result (λ command. line.now ≡ spelling_of command) }
    ensures every { (command : TransferCommand) → HasNumbers command
        → spelling_of command ≡ line.now
        → result ≡ Some command }
{
    read_words(line)
}
