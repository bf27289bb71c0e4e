//! Where replies are written.
ghost use Rattle.std.specs.Prelude.{◌≡◌, ◌++◌, ℕ, ◌<◌, ◌≤◌, List, [], length, take, IsErr, IfOk, OnOk, OnErr};
ghost use Rattle.std.specs.Io.KnownBytes.{Appends};
ghost use Rattle.replay_driver.specs.Known.{Appends-nothing, Appends-more};

use crate::asked::AskedWriter;
use crate::fault::Failed;
use std::io::Write;

/// A destination of bytes.
pub trait Sink {
    // These bytes were written between the first state and the second.
    ghost takes: { Self → Self → List ℕ → Type 0 };

    // A write failed: each further one fails.
    ghost has_failed: { Self → Type 0 };

    /// Writes a prefix of the bytes, and returns its length: at least 1 if there are any bytes.
    ///
    /// # Errors
    /// If the write fails, no byte was written, and each further write fails too.
    fn write(&mut self, bytes: &[u8]) -> Result<usize, Failed>
        ensures count { IfOk result (λ n. n ≤ length bytes.now) }
        ensures some { IfOk result (λ n. 0 < length bytes.now → 0 < n) }
        ensures bytes { IfOk result (λ n. takes self.old self.new (take n bytes.now)) }
        ensures ok { OnOk result (has_failed self.new → ⊥) }

        ensures err { OnErr result (takes self.old self.new []) }
        ensures fails { OnErr result (has_failed self.new) }
        ensures after_failure { has_failed self.old → IsErr result };

    ghost takes_nothing: { (s : Self) → takes s s [] };

    ghost takes_more: { (s t u : Self) (xs ys : List ℕ) → takes s t xs → takes t u ys → takes s u (xs ++ ys) };
}

/// A writer as a sink.
///
/// A write fails if the writer's does, even if it was interrupted, or if the writer takes none of the bytes. The writer
/// is not flushed: use one without a buffer, or flush what `into_inner` returns.
#[derive(Drop)]
pub struct ToWrite<W> {
    writer: AskedWriter<W>,
}

impl<W: Write> ToWrite<W> {
    ghost use Rattle.std.specs.Prelude.{◌≡◌};
    ghost use Rattle.replay_driver.specs.Streams.{writer_of};

    /// Creates a sink that writes to a writer. It has not failed.
    ///
    /// # Complexity
    /// O(1).
    pub fn new(writer: W) -> Self
        ensures writer { writer_of result ≡ writer }
        ensures sound { ⟦<ToWrite<W> as Sink>⟧.has_failed result → ⊥ }
    {
        ToWrite {
            writer: AskedWriter::new(writer),
        }
    }
}

impl<W> ToWrite<W> {
    ghost use Rattle.std.specs.Prelude.{◌≡◌};
    ghost use Rattle.replay_driver.specs.Streams.{writer_of};

    /// Returns the writer.
    ///
    /// # Complexity
    /// O(1).
    pub fn into_inner(self) -> W
        ensures { result ≡ writer_of self }
    {
        self.writer.into_inner()
    }
}

impl<W: Write> Sink for ToWrite<W> {
    ghost use Rattle.replay_driver.specs.Streams.{writer_of, HasFailedToWrite};

    ghost takes = { λ s t bytes. Appends (W.contents (writer_of s)) (W.contents (writer_of t)) bytes };

    ghost has_failed = { λ s. HasFailedToWrite s };

    ghost takes_nothing = { λ s. Appends-nothing (W.contents (writer_of s)) };

    ghost takes_more = { λ s t u. Appends-more (W.contents (writer_of s)) (W.contents (writer_of t))
        (W.contents (writer_of u)) };

    fn write(&mut self, bytes: &[u8]) -> Result<usize, Failed> {
        if self.writer.has_failed() {
            return Err(Failed);
        }
        match self.writer.write(bytes) {
            Ok(count) if count > 0 || bytes.is_empty() => Ok(count),
            _ => Err(Failed),
        }
    }
}
