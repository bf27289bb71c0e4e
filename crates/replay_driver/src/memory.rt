//! Scripts in memory.
ghost use Rattle.std.specs.Prelude.{◌≡◌, ◌≤◌, ◌^◌, [], length, Some, IsTrue};
ghost use Rattle.replay_driver.specs.Known.{Gives, gives-nothing, gives-more};

use crate::fault::Failed;
use crate::source::Source;

/// Bytes in memory as a source. No read of them fails.
#[derive(Drop)]
pub struct FromSlice<'a> {
    rest: &'a [u8],
    ended: bool,
    ghost few: { length rest.now ≤ 2 ^ 63 },
    ghost read_out: { IsTrue ended → rest.now ≡ [] },
}

impl<'a> FromSlice<'a> {
    ghost use Rattle.std.specs.Prelude.{◌≡◌};
    ghost use Rattle.replay_driver.specs.Streams.{bytes_of};

    /// Creates a source of these bytes.
    ///
    /// # Complexity
    /// O(1).
    pub fn new(bytes: &'a [u8]) -> Self
        ensures bytes { bytes_of result ≡ bytes.now }
        ensures before_end { ⟦<FromSlice<'a> as Source>⟧.at_end result → ⊥ }
    {
        FromSlice {
            rest: bytes,
            ended: false,
        }
    }
}

impl Source for FromSlice<'_> {
    ghost gives = { λ s t. Gives (Some s.rest.now) (Some t.rest.now) (IsTrue s.ended) (IsTrue t.ended) };

    ghost room = { λ s. length s.rest.now };

    ghost at_end = { λ s. IsTrue s.ended × (s.rest.now ≡ []) };

    ghost has_failed = { λ s. ⊥ };

    ghost gives_nothing = { λ s. gives-nothing (Some s.rest.now) (IsTrue s.ended) };

    ghost gives_more = { λ s t u. gives-more (Some s.rest.now) (Some t.rest.now) (Some u.rest.now) (IsTrue s.ended)
        (IsTrue t.ended) (IsTrue u.ended) };

    ghost nothing_after_end = { λ s t bytes ended gave. (gave.1 ended.0).0 };

    ghost few = { λ s. s.few };

    fn read(&mut self, buffer: &mut [u8]) -> Result<usize, Failed> {
        let count = buffer.len().min(self.rest.len());
        buffer[..count].copy_from_slice(&self.rest[..count]);
        self.rest = &self.rest[count..];
        self.ended = self.ended || (count == 0 && !buffer.is_empty());
        Ok(count)
    }
}
