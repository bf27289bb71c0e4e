//! Why a line is bad.
ghost use Rattle.std.specs.Prelude.{◌≡◌};
ghost use Rattle.replay_lines.specs.Words.{words_left};
ghost use Rattle.replay_lines.specs.Reasons.{digits_only, has_carriage_return, fault_of, first_fault_of, is_great, first_is_great, second_is_great, third_is_great, has_great, list_structures, structures_of, reason_after, reason_of_words, reason_of};

use crate::words::{Words, number};
use crate::{
    cursor_command, list_command, queue_command, sorted_command, stack_command, transfer_command,
};
use std::fmt;

/// Why a line is bad. Its text is a word or three, for the line on standard error.
#[derive(Clone, Copy, Debug, PartialEq, Eq)]
pub enum Reason {
    /// The line has more than 120 bytes.
    TooLong,
    /// The line has no byte.
    Empty,
    /// The line has a carriage return.
    CarriageReturn,
    /// A space is at an end of the line, or beside another space.
    StraySpace,
    /// The first word is no command word of the mode.
    NoSuchWord,
    /// A number begins with a zero, and has more digits.
    LeadingZero,
    /// A number is 2^64 or greater.
    TooGreat,
    /// A structure has a number above 15.
    NoSuchStructure,
    /// The words after the command word are not those that it takes.
    OtherWords,
}

impl fmt::Display for Reason {
    ghost use Rattle.std.specs.Prelude.{Some};
    ghost use Rattle.replay_lines.specs.Reasons.{reason_text};

    ghost output = { λ reason. Some (reason_text reason) };

    fn fmt<W: fmt::Write>(&self, f: &mut fmt::Formatter<W>) -> fmt::Result {
        f.write_str(match self {
            Reason::TooLong => "too long",
            Reason::Empty => "empty line",
            Reason::CarriageReturn => "carriage return",
            Reason::StraySpace => "stray space",
            Reason::NoSuchWord => "no such word",
            Reason::LeadingZero => "leading zero",
            Reason::TooGreat => "number too great",
            Reason::NoSuchStructure => "no such structure",
            Reason::OtherWords => "wrong words",
        })
    }
}

/// The command words of a mode.
#[derive(Clone, Copy, Debug, PartialEq, Eq)]
pub enum Vocabulary {
    /// Those of mode `list`, outside of blocks and in them.
    List,
    /// Those of mode `stack`.
    Stack,
    /// Those of mode `sorted`.
    Sorted,
    /// Those of mode `transfer`.
    Transfer,
    /// Those of mode `queue`.
    Queue,
}

/// Which words after a command word are numbers of structures.
#[derive(Clone, Copy)]
pub enum Structures {
    /// None.
    Nowhere,
    /// The first.
    First,
    /// The first and the second.
    FirstAndSecond,
    /// The first and the third.
    FirstAndThird,
}

/// Returns `true` if a word has digits alone.
fn are_digits(word: &[u8]) -> bool
    ensures { result ≡ digits_only word.now }
{
    for byte in word {
        if !byte.is_ascii_digit() {
            return false;
        }
    }
    true
}

/// Returns `true` if a line has a carriage return.
fn has_return(line: &[u8]) -> bool
    ensures { result ≡ has_carriage_return line.now }
{
    for byte in line {
        if *byte == b'\r' {
            return true;
        }
    }
    false
}

/// Returns what is wrong with a word whatever its place is.
fn fault(word: &[u8]) -> Option<Reason>
    ensures { result ≡ fault_of word.now }
{
    if word.is_empty() {
        return Some(Reason::StraySpace);
    }
    if !are_digits(word) || number(word).is_some() {
        return None;
    }
    if word[0] == b'0' {
        Some(Reason::LeadingZero)
    } else {
        Some(Reason::TooGreat)
    }
}

/// Returns what is wrong with the first word of these of which something is.
fn first_fault(mut words: Words) -> Option<Reason>
    ensures { result ≡ first_fault_of (words_left words.entry.rest) }
{
    while let Some(word) = words.next_word() {
        if let Some(reason) = fault(word) {
            return Some(reason);
        }
    }
    None
}

/// Returns `true` if a word is a number, and none of a structure.
fn is_no_structure(word: &[u8]) -> bool
    ensures { result ≡ is_great word.now }
{
    match number(word) {
        Some(number) => number > 15,
        None => false,
    }
}

/// Returns `true` if the first of these words is a number, and none of a structure.
fn first_is_no_structure(mut words: Words) -> bool
    ensures { result ≡ first_is_great (words_left words.entry.rest) }
{
    match words.next_word() {
        Some(word) => is_no_structure(word),
        None => false,
    }
}

/// The same of the second word.
fn second_is_no_structure(mut words: Words) -> bool
    ensures { result ≡ second_is_great (words_left words.entry.rest) }
{
    match words.next_word() {
        Some(_) => first_is_no_structure(words),
        None => false,
    }
}

/// The same of the third word.
fn third_is_no_structure(mut words: Words) -> bool
    ensures { result ≡ third_is_great (words_left words.entry.rest) }
{
    match words.next_word() {
        Some(_) => second_is_no_structure(words),
        None => false,
    }
}

/// Returns `true` if one of the words that are to be structures is a greater number.
fn names_no_structure(structures: Structures, words: Words) -> bool
    ensures { result ≡ has_great structures (words_left words.entry.rest) }
{
    match structures {
        Structures::Nowhere => false,
        Structures::First => first_is_no_structure(words),
        Structures::FirstAndSecond => {
            first_is_no_structure(words) || second_is_no_structure(words)
        }
        Structures::FirstAndThird => first_is_no_structure(words) || third_is_no_structure(words),
    }
}

/// Returns which words after a word of mode `list` are structures, or `None` if it is no command word there.
fn structures_in_list(word: &[u8]) -> Option<Structures>
    ensures { result ≡ list_structures word.now }
{
    use crate::cursor_command::CursorVerb;
    use crate::list_command::Verb;
    match list_command::read_verb(word) {
        Some(Verb::Append) => return Some(Structures::FirstAndSecond),
        Some(Verb::Split) => return Some(Structures::FirstAndThird),
        Some(_) => return Some(Structures::First),
        None => {}
    }
    match cursor_command::read_verb(word)? {
        CursorVerb::SplitAfter | CursorVerb::SplitBefore => Some(Structures::First),
        CursorVerb::SpliceAfter | CursorVerb::SpliceBefore => Some(Structures::First),
        _ => Some(Structures::Nowhere),
    }
}

/// Returns which words after a word are structures, or `None` if it is no command word of the mode.
fn structures_after(vocabulary: Vocabulary, word: &[u8]) -> Option<Structures>
    ensures { result ≡ structures_of vocabulary word.now }
{
    match vocabulary {
        Vocabulary::List => structures_in_list(word),
        Vocabulary::Stack => match stack_command::read_verb(word)? {
            stack_command::Verb::Take => Some(Structures::FirstAndSecond),
            _ => Some(Structures::First),
        },
        Vocabulary::Sorted => sorted_command::read_verb(word).map(|_| Structures::First),
        Vocabulary::Transfer => transfer_command::read_verb(word).map(|_| Structures::Nowhere),
        Vocabulary::Queue => queue_command::read_verb(word).map(|_| Structures::Nowhere),
    }
}

/// Returns why the words after a command word are not those that it takes.
fn judge_after(structures: Structures, words: Words) -> Reason
    ensures { result ≡ reason_after structures (words_left words.entry.rest) }
{
    match first_fault(words) {
        Some(fault) => fault,
        None => if names_no_structure(structures, words) {
            Reason::NoSuchStructure
        } else {
            Reason::OtherWords
        },
    }
}

/// Returns why the words of a line are no command of a mode.
fn judge(vocabulary: Vocabulary, mut words: Words) -> Reason
    ensures { result ≡ reason_of_words vocabulary (words_left words.entry.rest) }
{
    match words.next_word() {
        None => Reason::OtherWords,
        Some([]) => Reason::StraySpace,
        Some(first) => match structures_after(vocabulary, first) {
            Some(structures) => judge_after(structures, words),
            None => Reason::NoSuchWord,
        },
    }
}

/// Returns why a line is bad that is no command of a mode.
///
/// Of several reasons it returns the first: that the line is empty, has a carriage return, or begins with no command
/// word; then what is wrong with a word alone, the first such word; then that a structure is above 15. A command word
/// of mode `list` counts as one outside of blocks if it can be one.
///
/// # Complexity
/// O(b), for b bytes of the line.
pub fn find_reason(vocabulary: Vocabulary, line: &[u8]) -> Reason
    ensures { result ≡ reason_of vocabulary line.now }
{
    if line.is_empty() {
        return Reason::Empty;
    }
    if has_return(line) {
        return Reason::CarriageReturn;
    }
    judge(vocabulary, Words::new(line))
}
