//! The words after a command word, up to the end of the line. Each function returns `None` if the words are not these,
//! and takes O(b), for b bytes of the words.
ghost use Rattle.std.specs.Prelude.{◌≡◌, ◌∷◌, [], None, MatchOption};
ghost use Rattle.replay_lines.specs.Words.{words_left};
ghost use Rattle.replay_lines.specs.LineWords.{only_word_of, no_word_of, structure_of, value_of, item_of, two_structures_of, structure_and_item_of, party_and_number_of, party_and_item_of, perhaps_item_of, party_and_perhaps_item_of};

use crate::words::{Words, number, structure_number};
use cordyceps_commands::Item;

/// Reads one word.
pub fn only_word<'a>(mut words: Words<'a>) -> Option<&'a [u8]>
    ensures { MatchOption result (only_word_of (words_left words.entry.rest) ≡ None)
        (λ word. words_left words.entry.rest ≡ word.now ∷ []) }
{
    let word = words.next_word()?;
    match words.next_word() {
        Some(_) => None,
        None => Some(word),
    }
}

/// Reads no word.
pub fn no_word(mut words: Words) -> Option<()>
    ensures { result ≡ no_word_of (words_left words.entry.rest) }
{
    match words.next_word() {
        Some(_) => None,
        None => Some(()),
    }
}

/// Reads `S`, the number of a structure.
pub fn structure(words: Words) -> Option<u8>
    ensures { result ≡ structure_of (words_left words.entry.rest) }
{
    structure_number(only_word(words)?)
}

/// Reads `V`, a value.
pub fn value(words: Words) -> Option<u64>
    ensures { result ≡ value_of (words_left words.entry.rest) }
{
    number(only_word(words)?)
}

/// Reads `ID V`, an item.
pub fn item(mut words: Words) -> Option<Item>
    ensures { result ≡ item_of (words_left words.entry.rest) }
{
    let id = number(words.next_word()?)?;
    let value = value(words)?;
    Some(Item { value, id })
}

/// Returns the item with this number and this value.
pub fn item_with(id: &[u8], value: &[u8]) -> Option<Item>
    ensures { result ≡ item_of (id.now ∷ value.now ∷ []) }
{
    let id = number(id)?;
    let value = number(value)?;
    Some(Item { value, id })
}

/// Reads `S M`, the numbers of two structures.
pub fn two_structures(mut words: Words) -> Option<(u8, u8)>
    ensures { result ≡ two_structures_of (words_left words.entry.rest) }
{
    let first = structure_number(words.next_word()?)?;
    Some((first, structure(words)?))
}

/// Reads `S ID V`, the number of a structure and an item.
pub fn structure_and_item(mut words: Words) -> Option<(u8, Item)>
    ensures { result ≡ structure_and_item_of (words_left words.entry.rest) }
{
    let structure = structure_number(words.next_word()?)?;
    Some((structure, item(words)?))
}

/// Reads `P`, the number of a party.
pub fn party(words: Words) -> Option<usize>
    ensures { result ≡ value_of (words_left words.entry.rest) }
{
    Some(value(words)? as usize)
}

/// Reads `P N`, the number of a party and another number.
pub fn party_and_number(mut words: Words) -> Option<(usize, usize)>
    ensures { result ≡ party_and_number_of (words_left words.entry.rest) }
{
    let party = number(words.next_word()?)?;
    Some((party as usize, value(words)? as usize))
}

/// Reads `P ID V`, the number of a party and an item.
pub fn party_and_item(mut words: Words) -> Option<(usize, Item)>
    ensures { result ≡ party_and_item_of (words_left words.entry.rest) }
{
    let party = number(words.next_word()?)?;
    Some((party as usize, item(words)?))
}

/// Reads no word, or `ID V`.
fn perhaps_item(words: Words) -> Option<Option<Item>>
    ensures { result ≡ perhaps_item_of (words_left words.entry.rest) }
{
    let mut rest = words;
    match rest.next_word() {
        Some(_) => Some(Some(item(words)?)),
        None => Some(None),
    }
}

/// Reads `P` or `P ID V`, the number of a party and an item if there is one.
pub fn party_and_perhaps_item(mut words: Words) -> Option<(usize, Option<Item>)>
    ensures { result ≡ party_and_perhaps_item_of (words_left words.entry.rest) }
{
    let party = number(words.next_word()?)?;
    Some((party as usize, perhaps_item(words)?))
}
