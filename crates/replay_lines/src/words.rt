//! The words of a line, and the numbers that words spell.
ghost use Rattle.std.specs.Prelude.{◌≡◌, ◌<◌, ◌^◌, ℕ, Some, decimal, IfSome};
ghost use Rattle.replay_lines.specs.Words.{number_of, structure_number_of, words_left};

use memchr::memchr;

/// Returns the number that the digits of a word are.
fn read_number(word: &[u8]) -> Option<u64>
    ensures { result ≡ number_of word.now }
{
    match word {
        [] | [b'0', _, ..] => return None,
        _ => {}
    }
    let mut value = 0u64;
    for digit in word {
        if !digit.is_ascii_digit() {
            return None;
        }
        value = value
            .checked_mul(10)?
            .checked_add(u64::from(*digit - b'0'))?;
    }
    Some(value)
}

/// Returns the number below 2^64 that a word spells in decimal, without a leading zero. Returns `None` if it spells
/// none.
///
/// # Complexity
/// O(b), for b bytes of the word.
pub fn number(word: &[u8]) -> Option<u64>
    ensures value { result ≡ number_of word.now }
    ensures numeral { IfSome result (λ n. word.now ≡ decimal n) }
    ensures every { (n : ℕ) → n < 2 ^ 64 → decimal n ≡ word.now → result ≡ Some n }
{
    read_number(word)
}

/// Returns the number of one of sixteen structures, from 0 to 15. Returns `None` if the word spells no such number.
///
/// # Complexity
/// O(b), for b bytes of the word.
pub fn structure_number(word: &[u8]) -> Option<u8>
    ensures { result ≡ structure_number_of word.now }
{
    match number(word) {
        Some(number) if number < 16 => Some(number as u8),
        _ => None,
    }
}

/// The words of a line that were not read yet. Two words are separated by exactly one space.
#[derive(Clone, Copy)]
pub struct Words<'a> {
    rest: Option<&'a [u8]>,
}

impl<'a> Words<'a> {
    ghost use Rattle.std.specs.Prelude.{◌≡◌, ◌∷◌, [], Some, MatchOption};
    ghost use Rattle.replay_lines.specs.Words.{words_left, words};

    /// Creates the sequence of all words of a line. A space at an end, or after another space, separates an empty word.
    ///
    /// # Complexity
    /// O(1).
    pub fn new(line: &'a [u8]) -> Self
        ensures { words_left result.rest ≡ words line.now }
    {
        Words { rest: Some(line) }
    }

    /// Reads the next word, or returns `None` if there is none.
    ///
    /// # Complexity
    /// O(b), for b bytes of the word.
    pub fn next_word(&mut self) -> Option<&'a [u8]>
        ensures { MatchOption result ((words_left self.old.rest ≡ []) × (words_left self.new.rest ≡ []))
            (λ word. words_left self.old.rest ≡ word.now ∷ words_left self.new.rest) }
    {
        let rest = self.rest?;
        match memchr(b' ', rest) {
            Some(at) => {
                self.rest = Some(&rest[at + 1..]);
                Some(&rest[..at])
            }
            None => {
                self.rest = None;
                Some(rest)
            }
        }
    }
}
