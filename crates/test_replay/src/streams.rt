//! Streams in memory, runs of scripts over them, and how they end.

use crate::compared::same;
use replay_driver::fault::Fault;
use replay_driver::sink::ToWrite;
use replay_driver::source::FromRead;
use replay_sessions::modes::{Choice, Mode, compare_tens, run};
use std::alloc::Global;
use std::io::{self, ErrorKind, Read, Write};
use std::process::Abort;

/// A reader of some bytes, a few at a time. After them it ends or fails.
#[derive(Drop)]
pub struct Script<'a> {
    pub rest: &'a [u8],
    pub at_once: usize,
    pub fails: bool,
}

impl Read for Script<'_> {
    fn read(&mut self, buffer: &mut [u8]) -> io::Result<usize> {
        let rest = self.rest;
        if rest.is_empty() && self.fails {
            return Err(io::Error::from(ErrorKind::Other));
        }
        let count = rest.len().min(buffer.len()).min(self.at_once);
        buffer[..count].copy_from_slice(&rest[..count]);
        self.rest = &rest[count..];
        Ok(count)
    }
}

/// A writer that takes this many bytes. Then it fails, or takes nothing.
#[derive(Drop)]
pub struct Paper {
    pub written: Vec<u8>,
    /// How many bytes were passed to it, written or not.
    pub offered: usize,
    pub room: usize,
    pub fails: bool,
}

impl Write for Paper {
    fn write(&mut self, bytes: &[u8]) -> io::Result<usize> {
        self.offered = self.offered.wrapping_add(bytes.len());
        if self.room == 0 && self.fails {
            return Err(io::Error::from(ErrorKind::Other));
        }
        let count = bytes.len().min(self.room);
        self.written.extend_from_slice(&bytes[..count])?;
        self.room -= count;
        Ok(count)
    }

    fn flush(&mut self) -> io::Result<()> {
        Ok(())
    }
}

/// Returns a script that is read at once.
pub fn whole(rest: &[u8]) -> Script<'_> {
    Script {
        rest,
        at_once: usize::MAX,
        fails: false,
    }
}

/// Returns a paper with this room, on which nothing is written.
pub fn blank(alloc: Global, room: usize, fails: bool) -> Paper {
    Paper {
        written: Vec::new(alloc),
        offered: 0,
        room,
        fails,
    }
}

/// How a run ends, and what it writes.
pub type Outcome = (Result<(), Fault>, Vec<u8>);

/// Runs a script on a paper, and returns how it ends and what it writes.
pub fn outcome(alloc: Global, choice: Choice, script: Script, paper: Paper) -> Outcome {
    let mut input = FromRead::new(script);
    let mut output = ToWrite::new(paper);
    let mode = match choice {
        Choice::List => Mode::List,
        Choice::Stack => Mode::Stack,
        Choice::Sorted => Mode::Sorted(compare_tens),
        Choice::Transfer => Mode::Transfer,
        Choice::Queue => Mode::Queue,
        // it has no scripts
        Choice::Share => return (Err(Fault::Read), output.into_inner().written),
    };
    let end = run(alloc, mode, &mut input, &mut output);
    (end, output.into_inner().written)
}

/// Asserts how a run of these lines ended, and what it wrote.
pub fn has_outcome(
    rt: &impl Abort,
    lines: &[u8],
    came: Outcome,
    end: Result<(), Fault>,
    text: &[u8],
) {
    let (ended, written) = came;
    same(rt, (lines, ended, written.as_slice()), (lines, end, text));
}

/// Runs a script on a paper with room for all replies, and asserts how it ends and what it writes.
pub fn ends(
    rt: &impl Abort,
    alloc: Global,
    choice: Choice,
    script: Script,
    end: Result<(), Fault>,
    text: &[u8],
) {
    let rest = script.rest;
    let came = outcome(alloc, choice, script, blank(alloc, usize::MAX, false));
    has_outcome(rt, rest, came, end, text);
}
