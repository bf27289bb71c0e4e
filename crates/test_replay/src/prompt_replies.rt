//! What is written before more is read: the replies to all lines that are complete.

use crate::compared::{made, same};
use replay_cores::queue_session::QueueSession;
use replay_driver::script::run_script;
use replay_driver::sink::ToWrite;
use replay_driver::source::FromRead;
use std::cell::Cell;
use std::io::{self, ErrorKind, Read, Write};

/// The parts of a script as they are read, and how many bytes of replies are written by then.
const PARTS: [(&[u8], usize); 7] = [
    (b"party\n", 0),
    // party 0
    (b"room 0\n", 8),
    // ok
    (b"par", 11),
    (b"ty\nroom", 11),
    // party 1
    (b" 1\nroom 1\nroom 5\n", 19),
    // ok, ok, not there
    (b"party", 35),
    (b"", 35),
];

/// A writer that counts what is written.
#[derive(Drop)]
struct Counter<'a> {
    written: &'a Cell<usize>,
}

impl Write for Counter<'_> {
    fn write(&mut self, bytes: &[u8]) -> io::Result<usize> {
        let written = self.written.get();
        self.written.set(written.wrapping_add(bytes.len()));
        Ok(bytes.len())
    }

    fn flush(&mut self) -> io::Result<()> {
        Ok(())
    }
}

/// A reader that gives one part at a time, and notes how many bytes of replies are written before.
#[derive(Drop)]
struct Asker<'a> {
    written: &'a Cell<usize>,
    seen: Vec<usize>,
}

impl Read for Asker<'_> {
    fn read(&mut self, buffer: &mut [u8]) -> io::Result<usize> {
        let at = self.seen.len();
        self.seen.push(self.written.get())?;
        if at >= PARTS.len() || PARTS[at].0.len() > buffer.len() {
            return Err(io::Error::from(ErrorKind::Other));
        }
        let part = PARTS[at].0;
        buffer[..part.len()].copy_from_slice(part);
        Ok(part.len())
    }
}

#[test]
fn replies_are_written_before_more_is_read(rt: HostRuntime) {
    let written = Cell::new(0);
    let mut asker = Asker {
        written: &written,
        seen: Vec::new(rt.alloc()),
    };
    let mut session = QueueSession::new(rt.alloc());
    let mut input = FromRead::new(&mut asker);
    let mut output = ToWrite::new(Counter { written: &written });
    let end = run_script(rt.alloc(), &mut session, &mut input, &mut output);
    same(&rt, end, Ok(()));
    let mut wanted = Vec::new(rt.alloc());
    for (_, bytes) in PARTS {
        made(&rt, wanted.push(bytes));
    }
    same(&rt, (asker.seen, written.get()), (wanted, 43));
}
