//! Where a script is read from.
ghost use Rattle.std.specs.Prelude.{◌≡◌, ◌++◌, ℕ, ◌+◌, ◌<◌, ◌≤◌, ◌^◌, List, [], length, take, IsTrue, IsErr, IfOk, OnOk, OnErr, ◌⊎◌};
ghost use Rattle.replay_driver.specs.Asked.{reader_in};
ghost use Rattle.replay_driver.specs.Known.{IsReadOut, Gives, gives-nothing, gives-more};

use crate::asked::AskedReader;
use crate::fault::Failed;
use std::io::Read;

/// The maximum number of bytes of a source.
const MOST_BYTES: u64 = 1 << 63;

/// A source of bytes, at most 2^63 of them.
pub trait Source {
    // These bytes were read between the first state and the second.
    ghost gives: { Self → Self → List ℕ → Type 0 };

    // The maximum number of bytes that are still to come.
    ghost room: { Self → ℕ };

    // The end was met: no byte comes any more.
    ghost at_end: { Self → Type 0 };

    // A read failed: each further one fails.
    ghost has_failed: { Self → Type 0 };

    /// Reads bytes into the front of the buffer, and returns how many. If it returns 0 for a buffer that is not empty,
    /// the end was met: no byte follows. Nothing else is the end.
    ///
    /// # Errors
    /// If the read fails, no byte was read, and each further read fails too.
    fn read(&mut self, buffer: &mut [u8]) -> Result<usize, Failed>
        ensures count { IfOk result (λ n. n ≤ length buffer.new) }
        ensures bytes { IfOk result (λ n. gives self.old self.new (take n buffer.new)) }
        ensures room { IfOk result (λ n. n + room self.new ≡ room self.old) }
        ensures ok { OnOk result (has_failed self.new → ⊥) }

        ensures end { IfOk result (λ n. n ≡ 0 → 0 < length buffer.new → at_end self.new) }
        ensures no_other_end { IfOk result
            (λ n. at_end self.new → at_end self.old ⊎ ((n ≡ 0) × (0 < length buffer.new))) }
        ensures after_end { IfOk result (λ n. at_end self.old → n ≡ 0) }
        ensures stays_at_end { at_end self.old → at_end self.new }

        ensures err { OnErr result (gives self.old self.new []) }
        ensures keeps_room { OnErr result (room self.new ≡ room self.old) }
        ensures ends_nothing { OnErr result (at_end self.new → at_end self.old) }
        ensures fails { OnErr result (has_failed self.new) }
        ensures after_failure { has_failed self.old → IsErr result };

    ghost gives_nothing: { (s : Self) → gives s s [] };

    ghost gives_more: { (s t u : Self) (xs ys : List ℕ) → gives s t xs → gives t u ys → gives s u (xs ++ ys) };

    ghost nothing_after_end: { (s t : Self) (bytes : List ℕ) → at_end s → gives s t bytes → bytes ≡ [] };

    ghost few: { (s : Self) → room s ≤ 2 ^ 63 };
}

/// A reader as a source.
///
/// A read fails if the reader's does, even if it was interrupted, or after 2^63 bytes. Then each further one fails.
#[derive(Drop)]
pub struct FromRead<R: Read> {
    reader: AskedReader<R>,
    left: u64,
    asked_for_more: bool,
    ended: bool,
    ghost few: { left ≤ 2 ^ 63 },
    ghost none_left: { IsTrue asked_for_more → left ≡ 0 },
    ghost read_out: { IsTrue ended → IsReadOut (R.remaining (reader_in reader)) },
}

impl<R: Read> FromRead<R> {
    ghost use Rattle.std.specs.Prelude.{◌≡◌, ◌^◌};
    ghost use Rattle.replay_driver.specs.Streams.{reader_of};

    /// Creates a source of what the reader returns from now on. It has not failed.
    ///
    /// # Complexity
    /// O(1).
    pub fn new(reader: R) -> Self
        ensures reader { reader_of result ≡ reader }
        ensures sound { ⟦<FromRead<R> as Source>⟧.has_failed result → ⊥ }
        ensures before_end { ⟦<FromRead<R> as Source>⟧.at_end result → ⊥ }
        ensures room { ⟦<FromRead<R> as Source>⟧.room result ≡ 2 ^ 63 }
    {
        FromRead {
            reader: AskedReader::new(reader),
            left: MOST_BYTES,
            asked_for_more: false,
            ended: false,
        }
    }
}

impl<R: Read> Source for FromRead<R> {
    ghost use Rattle.replay_driver.specs.Streams.{reader_of, HasFailedToRead};

    ghost gives = { λ s t. Gives (R.remaining (reader_of s)) (R.remaining (reader_of t)) (IsTrue s.ended)
        (IsTrue t.ended) };

    ghost room = { λ s. s.left };

    ghost at_end = { λ s. IsTrue s.ended × IsReadOut (R.remaining (reader_of s)) };

    ghost has_failed = { λ s. HasFailedToRead s };

    ghost gives_nothing = { λ s. gives-nothing (R.remaining (reader_of s)) (IsTrue s.ended) };

    ghost gives_more = { λ s t u. gives-more (R.remaining (reader_of s)) (R.remaining (reader_of t))
        (R.remaining (reader_of u)) (IsTrue s.ended) (IsTrue t.ended) (IsTrue u.ended) };

    ghost nothing_after_end = { λ s t bytes ended gave. (gave.1 ended.0).0 };

    ghost few = { λ s. s.few };

    fn read(&mut self, buffer: &mut [u8]) -> Result<usize, Failed> {
        if self.asked_for_more || self.reader.has_failed() {
            return Err(Failed);
        }
        if self.ended {
            return Ok(0);
        }
        let room = buffer.len().min(self.left as usize);
        if room == 0 && !buffer.is_empty() {
            self.asked_for_more = true;
            return Err(Failed);
        }
        let Ok(count) = self.reader.read(&mut buffer[..room]) else {
            return Err(Failed);
        };
        self.left -= count as u64;
        self.ended = count == 0 && room > 0;
        Ok(count)
    }
}
