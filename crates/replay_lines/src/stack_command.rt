//! The lines of mode `stack`.
ghost use Rattle.std.specs.Prelude.{◌≡◌, Some, IfSome};
ghost use Rattle.cordyceps_commands.specs.StackCommands.{Fits};
ghost use Rattle.replay_lines.specs.StackScript.{verb_of, command_of};

use crate::line_words::{structure, structure_and_item, two_structures};
use crate::words::Words;
use cordyceps_commands::StackCommand;

/// A command word of the mode.
#[derive(Clone, Copy)]
pub enum Verb {
    /// `push S ID V`: pushes an item.
    Push,
    /// `pop S`: removes the item that was pushed last.
    Pop,
    /// `take S M`: moves all items to stack M.
    Take,
    /// `empty S`: tests if the stack is empty.
    Empty,
    /// `drain S`: removes all items.
    Drain,
}

pub(crate) fn read_verb(word: &[u8]) -> Option<Verb>
    ensures { result ≡ verb_of word.now }
{
    if word == b"push".as_slice() {
        Some(Verb::Push)
    } else if word == b"pop".as_slice() {
        Some(Verb::Pop)
    } else if word == b"take".as_slice() {
        Some(Verb::Take)
    } else if word == b"empty".as_slice() {
        Some(Verb::Empty)
    } else if word == b"drain".as_slice() {
        Some(Verb::Drain)
    } else {
        None
    }
}

/// Reads a line of mode `stack`, or returns `None` if the line is bad.
///
/// # Complexity
/// O(b), for b bytes of the line.
pub fn read_command(line: &[u8]) -> Option<StackCommand>
    ensures value { result ≡ command_of line.now }
    ensures fits { IfSome result Fits }
{
    let mut words = Words::new(line);
    let command = match read_verb(words.next_word()?)? {
        Verb::Push => {
            let (stack, item) = structure_and_item(words)?;
            StackCommand::Push(stack, item)
        }
        Verb::Pop => StackCommand::Pop(structure(words)?),
        Verb::Take => {
            let (stack, to) = two_structures(words)?;
            StackCommand::TakeAll(stack, to)
        }
        Verb::Empty => StackCommand::IsEmpty(structure(words)?),
        Verb::Drain => StackCommand::Drain(structure(words)?),
    };
    Some(command)
}
