//! The lines of mode `queue`.
ghost use Rattle.std.specs.Prelude.{◌≡◌, Some, IfSome};
ghost use Rattle.replay_lines.specs.Words.{words_left};
ghost use Rattle.replay_lines.specs.QueueScript.{call_of, verb_of, command_with, command_of};
ghost use Rattle.replay_lines.specs.QueueSpelling.{spelling_of, HasNumbers};

use crate::line_words::{no_word, party, party_and_item, party_and_number, party_and_perhaps_item};
use crate::words::Words;
use cordyceps_commands::Item;

/// A command of mode `queue`, with the number of its party.
#[derive(Clone, Copy)]
pub enum QueueCommand {
    /// Adds a party.
    Party,
    /// Adds a free room to the party.
    Room(usize),
    /// Puts an item into a free room, or makes the stub's link null before the stub is put in.
    Clear(usize, Option<Item>),
    /// Makes that room the head, or the stub.
    Swap(usize),
    /// Makes the old head lead to that room, or to the stub.
    Link(usize),
    /// Takes the right to dequeue.
    Take(usize),
    /// Reads the tail's link.
    ReadNext(usize),
    /// Reads the head.
    ReadHead(usize),
    /// Gives the right to dequeue back.
    Give(usize),
    /// Appends an item, without a step of another party between.
    Enqueue(usize, Item),
    /// Tries once to remove the oldest item, without a step of another party between.
    Dequeue(usize),
    /// Removes up to this many items, without a step of another party between.
    Batch(usize, usize),
}

/// A command word of the mode.
#[derive(Clone, Copy)]
pub enum Verb {
    /// `party`: adds a party.
    Party,
    /// `room P`: adds a free room to the party.
    Room,
    /// `clear P ID V`: puts an item into a free room. `clear P`: makes the stub's link null before the stub is put in.
    Clear,
    /// `swap P`: makes that room the head, or the stub.
    Swap,
    /// `link P`: makes the old head lead to that room, or to the stub.
    Link,
    /// `take P`: takes the right to dequeue.
    Take,
    /// `next P`: reads the tail's link.
    ReadNext,
    /// `head P`: reads the head.
    ReadHead,
    /// `give P`: gives the right to dequeue back.
    Give,
    /// `enq P ID V`: appends an item.
    Enqueue,
    /// `deq P`: tries once to remove the oldest item.
    Dequeue,
    /// `batch P N`: removes up to N items.
    Batch,
}

/// Reads a word of a whole call.
fn read_call(word: &[u8]) -> Option<Verb>
    ensures { result ≡ call_of word.now }
{
    if word == b"party".as_slice() {
        Some(Verb::Party)
    } else if word == b"room".as_slice() {
        Some(Verb::Room)
    } else if word == b"enq".as_slice() {
        Some(Verb::Enqueue)
    } else if word == b"deq".as_slice() {
        Some(Verb::Dequeue)
    } else if word == b"batch".as_slice() {
        Some(Verb::Batch)
    } else {
        None
    }
}

pub(crate) fn read_verb(word: &[u8]) -> Option<Verb>
    ensures { result ≡ verb_of word.now }
{
    if word == b"clear".as_slice() {
        Some(Verb::Clear)
    } else if word == b"swap".as_slice() {
        Some(Verb::Swap)
    } else if word == b"link".as_slice() {
        Some(Verb::Link)
    } else if word == b"take".as_slice() {
        Some(Verb::Take)
    } else if word == b"next".as_slice() {
        Some(Verb::ReadNext)
    } else if word == b"head".as_slice() {
        Some(Verb::ReadHead)
    } else if word == b"give".as_slice() {
        Some(Verb::Give)
    } else {
        read_call(word)
    }
}

/// Reads the words that follow a command word.
fn read_with(verb: Verb, words: Words) -> Option<QueueCommand>
    ensures { result ≡ command_with verb (words_left words.entry.rest) }
{
    match verb {
        Verb::Party => no_word(words).map(|()| QueueCommand::Party),
        Verb::Room => party(words).map(QueueCommand::Room),
        Verb::Clear => party_and_perhaps_item(words).map(|(p, i)| QueueCommand::Clear(p, i)),
        Verb::Swap => party(words).map(QueueCommand::Swap),
        Verb::Link => party(words).map(QueueCommand::Link),
        Verb::Take => party(words).map(QueueCommand::Take),
        Verb::ReadNext => party(words).map(QueueCommand::ReadNext),
        Verb::ReadHead => party(words).map(QueueCommand::ReadHead),
        Verb::Give => party(words).map(QueueCommand::Give),
        Verb::Enqueue => party_and_item(words).map(|(p, i)| QueueCommand::Enqueue(p, i)),
        Verb::Dequeue => party(words).map(QueueCommand::Dequeue),
        Verb::Batch => party_and_number(words).map(|(p, n)| QueueCommand::Batch(p, n)),
    }
}

/// Reads the command word, and the words that follow it.
fn read_words(line: &[u8]) -> Option<QueueCommand>
    ensures { result ≡ command_of line.now }
{
    let mut words = Words::new(line);
    let verb = read_verb(words.next_word()?)?;
    read_with(verb, words)
}

/// Reads a line of mode `queue`, or returns `None` if the line is bad.
///
/// # Complexity
/// O(b), for b bytes of the line.
pub fn read_command(line: &[u8]) -> Option<QueueCommand>
    ensures value { result ≡ command_of line.now }
    ensures spelled { IfSome result (λ command. line.now ≡ spelling_of command) }
    ensures every { (command : QueueCommand) → HasNumbers command
        → spelling_of command ≡ line.now
        → result ≡ Some command }
{
    read_words(line)
}
