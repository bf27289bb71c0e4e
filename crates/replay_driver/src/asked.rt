//! A reader and a writer that are only asked, and note that they failed.
ghost use Rattle.std.specs.Prelude.{◌≡◌, ◌||◌, false, is_err};
ghost use Rattle.std.specs.Io.{ReadsAtMost, WritesAtMost};
ghost use Rattle.std.specs.Io.KnownBytes.{ReadConsumes, WriteAppends};
ghost use Rattle.replay_driver.specs.Asked.{reader_in, reader_failed, writer_in, writer_failed, is_refused};

use std::io::{Read, Result, Write};

/// A reader, and whether an answer of its own was `Err`. Only `read` changes either.
#[derive(Drop)]
pub struct AskedReader<R> {
    reader: R,
    failed: bool,
}

impl<R: Read> AskedReader<R> {
    /// Creates one of a reader that was not asked.
    pub fn new(reader: R) -> Self
        ensures reader { reader_in result ≡ reader }
        ensures sound { reader_failed result ≡ false }
    {
        AskedReader {
            reader,
            failed: false,
        }
    }

    /// Returns whether an answer was `Err`.
    pub fn has_failed(&self) -> bool
        ensures { result ≡ reader_failed self.now }
    {
        self.failed
    }

    /// Asks the reader once, and returns its answer.
    pub fn read(&mut self, buffer: &mut [u8]) -> Result<usize>
        ensures bound { ReadsAtMost result buffer.new }
        ensures bytes { ReadConsumes (R.remaining (reader_in self.old)) (R.remaining (reader_in self.new)) result
            buffer.new }
        ensures noted { reader_failed self.new ≡ reader_failed self.old || is_err result }
    {
        let answer = self.reader.read(buffer);
        self.failed = self.failed || answer.is_err();
        answer
    }
}

/// A writer, and whether an answer of its own was `Err`, or that it took none of some bytes. Only `write` changes
/// either.
#[derive(Drop)]
pub struct AskedWriter<W> {
    writer: W,
    failed: bool,
}

impl<W> AskedWriter<W> {
    /// Creates one of a writer that was not asked.
    pub fn new(writer: W) -> Self
        ensures writer { writer_in result ≡ writer }
        ensures sound { writer_failed result ≡ false }
    {
        AskedWriter {
            writer,
            failed: false,
        }
    }

    /// Returns whether an answer was `Err`, or that it took none of some bytes.
    pub fn has_failed(&self) -> bool
        ensures { result ≡ writer_failed self.now }
    {
        self.failed
    }

    /// Returns the writer.
    pub fn into_inner(self) -> W
        ensures { result ≡ writer_in self }
    {
        let AskedWriter { writer, failed: _ } = self;
        writer
    }
}

impl<W: Write> AskedWriter<W> {
    /// Asks the writer once, and returns its answer.
    pub fn write(&mut self, bytes: &[u8]) -> Result<usize>
        ensures bound { WritesAtMost result bytes.now }
        ensures bytes { WriteAppends (W.contents (writer_in self.old)) (W.contents (writer_in self.new)) result
            bytes.now }
        ensures noted { writer_failed self.new ≡ writer_failed self.old || is_refused bytes.now result }
    {
        let answer = self.writer.write(bytes);
        let is_refused = match answer {
            Ok(count) => count == 0 && !bytes.is_empty(),
            Err(_) => true,
        };
        self.failed = self.failed || is_refused;
        answer
    }
}
