//! The driver: it moves lines from a source to a session, and texts from the session to a sink.
ghost use Rattle.std.specs.Prelude.{◌≡◌, ◌+◌, ◌-◌, ◌<◌, ◌≤◌, ◌^◌, [], length, take, drop, IfOk, OnOk, OnErr, IsTrue, ◌↔◌, Err};
ghost use Rattle.replay_driver.specs.Steps.{TakesOne, TakesLines, TakesLast, Reads, fault_of};
ghost use Rattle.replay_driver.specs.Halts.{Halts, EndsLines};
ghost use Rattle.replay_driver.specs.Script.{Runs, AnswersAll, RunsOver};
ghost use Rattle.replay_driver.specs.declared.fault.Fault.{Fault};

use crate::fault::{Failed, Fault};
use crate::memory::FromSlice;
use crate::session::{Session, Stop};
use crate::sink::Sink;
use crate::source::Source;
use crate::text::flush;
use memchr::memchr;
use std::alloc::Global;

/// The maximum length of a line, without its line feed.
const LONGEST_LINE: usize = 120;

/// The length of text at which it is written.
const FULL: usize = 1 << 16;

/// Takes one line. If the text is long enough, writes it.
fn take_line<S: Session, O: Sink>(
    session: &mut S,
    line: &[u8],
    text: &mut Vec<u8>,
    output: &mut O,
) -> Result<(), Stop>
    requires { S.is_ready session.old }
    ensures ready { S.is_ready session.new }
    ensures taken { TakesOne S.machine O.takes (O.has_failed output.new) line.now
        (record { state = S.state session.old; sink = output.old; text = text.old.items })
        (record { state = S.state session.new; sink = output.new; text = text.new.items }) result }
{
    if line.len() > LONGEST_LINE {
        return Err(Stop::Bad);
    }
    match session.take(line, text) {
        Ok(true) => {}
        Ok(false) => return Err(Stop::Bad),
        Err(_) => return Err(Stop::Memory),
    }
    if text.len() >= FULL && flush(output, text).is_err() {
        return Err(Stop::Write);
    }
    Ok(())
}

/// Takes the complete lines of a block, and returns how many bytes they are. Adds the number of good lines to the
/// count.
fn take_lines<S: Session, O: Sink>(
    session: &mut S,
    block: &[u8],
    count: &mut u64,
    text: &mut Vec<u8>,
    output: &mut O,
) -> Result<usize, Stop>
    requires ready { S.is_ready session.old }
    requires room { count.old + length block.now < 2 ^ 64 }
    ensures ready { S.is_ready session.new }
    ensures taken { TakesLines S.machine O.takes (O.has_failed output.new) block.now
        (record {
          run = record { state = S.state session.old; sink = output.old; text = text.old.items };
          count = count.old;
        })
        (record {
          run = record { state = S.state session.new; sink = output.new; text = text.new.items };
          count = count.new;
        })
        result }
    ensures bound { count.new ≤ count.old + length block.now }
{
    let mut start = 0;
    while let Some(length) = memchr(b'\n', &block[start..]) {
        let end = start + length;
        take_line(session, &block[start..end], text, output)?;
        *count += 1;
        start = end + 1;
    }
    Ok(start)
}

/// Returns the fault of a stop at this line.
fn fault_at(stop: Stop, line: u64) -> Fault
    ensures { result ≡ fault_of stop line }
{
    match stop {
        Stop::Bad => Fault::BadLine(line),
        Stop::Memory => Fault::Memory,
        Stop::Write => Fault::Write,
    }
}

/// Takes what is after the last line feed, if it is a line.
fn take_last<S: Session, O: Sink>(
    session: &mut S,
    line: &[u8],
    text: &mut Vec<u8>,
    output: &mut O,
) -> Result<(), Stop>
    requires { S.is_ready session.old }
    ensures ready { S.is_ready session.new }
    ensures taken { TakesLast S.machine O.takes (O.has_failed output.new) line.now
        (record { state = S.state session.old; sink = output.old; text = text.old.items })
        (record { state = S.state session.new; sink = output.new; text = text.new.items }) result }
{
    if line.is_empty() {
        return Ok(());
    }
    take_line(session, line, text, output)
}

/// Reads into the block after the `held` bytes at its front, and returns where the bytes end now. No text may wait to
/// be written: whoever gives the bytes may wait for the replies to those before.
fn read_more<I: Source>(
    input: &mut I,
    block: &mut [u8],
    held: usize,
    _text: &Vec<u8>,
) -> Result<usize, Failed>
    requires held { held < length block.old }
    requires written { _text.now.items ≡ [] }
    ensures len { length block.new ≡ length block.old }
    ensures within { IfOk result (λ end. (held ≤ end) × (end ≤ length block.new)) }
    ensures read { IfOk result (λ end. Reads I.gives input.old input.new (take held block.old) (take end block.new)) }
    ensures room { IfOk result (λ end. end + I.room input.new ≡ held + I.room input.old) }
    ensures end { IfOk result (λ end. end ≡ held → I.at_end input.new) }
    ensures err { OnErr result (I.gives input.old input.new []) }
    ensures fails { OnErr result (I.has_failed input.new) }
{
    let count = input.read(&mut block[held..])?;
    Ok(held + count)
}

/// Moves what is left of the block to its front.
fn keep(block: &mut [u8], used: usize, end: usize)
    requires order { used ≤ end }
    requires within { end ≤ length block.old }
    ensures len { length block.new ≡ length block.old }
    ensures kept { take (end - used) block.new ≡ drop used (take end block.old) }
{
    block.copy_within(used..end, 0);
}

/// Reads and takes lines, up to the end of the input or to a fault. The block holds what was read and not yet taken.
fn read_lines<S: Session, I: Source, O: Sink>(
    session: &mut S,
    input: &mut I,
    output: &mut O,
    block: &mut [u8],
    text: &mut Vec<u8>,
) -> Result<(), Fault>
    requires ready { S.is_ready session.old }
    requires block { 120 < length block.old }
    requires written { text.old.items ≡ [] }
    ensures ready { S.is_ready session.new }
    ensures halts { Halts S.machine
        (I.gives input.old input.new) (I.at_end input.new) (I.has_failed input.new)
        O.takes (O.has_failed output.new)
        (record { state = S.state session.old; sink = output.old; text = text.old.items })
        (record { state = S.state session.new; sink = output.new; text = text.new.items }) result }
{
    let mut count = 0u64;
    let mut held = 0usize;
    loop {
        let Ok(end) = read_more(input, block, held, text) else {
            return Err(Fault::Read);
        };
        if end == held {
            return match take_last(session, &block[..held], text, output) {
                Ok(()) => Ok(()),
                Err(stop) => Err(fault_at(stop, count + 1)),
            };
        }
        let used = match take_lines(session, &block[..end], &mut count, text, output) {
            Ok(used) => used,
            Err(stop) => return Err(fault_at(stop, count + 1)),
        };
        held = end - used;
        if held > LONGEST_LINE {
            return Err(Fault::BadLine(count + 1));
        }
        keep(block, used, end);
        let Ok(()) = flush(output, text) else {
            return Err(Fault::Write);
        };
    }
}

/// The number of bytes that are read at once.
const BLOCK: usize = 1 << 16;

/// Tells the session of the end of the lines, unless writing or memory failed before.
fn end_lines<S: Session>(
    session: &mut S,
    text: &mut Vec<u8>,
    halt: Result<(), Fault>,
) -> Result<(), Fault>
    requires { S.is_ready session.old }
    ensures ended { EndsLines S.machine (S.state session.old) (S.state session.new) text.old.items text.new.items halt
        result }
    ensures ready { S.is_ready session.new }
{
    match halt {
        Err(Fault::Memory) => Err(Fault::Memory),
        Err(Fault::Write) => Err(Fault::Write),
        other => match session.end(text) {
            Ok(()) => other,
            Err(_) => Err(Fault::Memory),
        },
    }
}

/// Returns `true` if a write failed.
fn has_stopped_writing(halt: Result<(), Fault>) -> bool
    ensures { IsTrue result ↔ (halt ≡ Err Fault.Write) }
{
    matches!(halt, Err(Fault::Write))
}

/// Runs a script: reads its lines, and writes the replies to them.
///
/// The lines go to the session, up to the first bad one or to the end of the input. Then the session is told of the
/// end, unless writing or memory failed. The source and the sink may be in any state, and the session in any state in
/// which it takes lines. Before the source is read again, the replies to all complete lines are written. So whoever
/// gives the lines may wait for a reply before the next one.
///
/// # Errors
/// It returns `BadLine` with the number of the first line that is bad or has more than 120 bytes without its line feed,
/// `Read` or `Write` if the source or the sink failed, and `Memory` if memory was refused. The replies to all commands
/// before that are written, except after `Write`: then a prefix of the replies is.
///
/// In any case the session is ready for another script. After `Ok`, `BadLine` and `Read` its state is that after the
/// lines before, and after their end. After `Memory` it is that after the lines before the refused command, which may
/// have been run, with its reply lost. After `Write` it is that after the first lines, or after all and their end.
///
/// # Complexity
/// O(b), for b bytes of the script, and what the session takes. It allocates a block of 65,536 bytes, and keeps about
/// as many bytes of replies.
pub fn run_script<S: Session, I: Source, O: Sink>(
    alloc: Global,
    session: &mut S,
    input: &mut I,
    output: &mut O,
) -> Result<(), Fault>
    requires { S.is_ready session.old }
    ensures ready { S.is_ready session.new }
    ensures runs { Runs S.machine (S.state session.old) (S.state session.new)
        (I.gives input.old input.new) (I.at_end input.new) (I.has_failed input.new)
        (O.takes output.old output.new) (O.has_failed output.new) result }
{
    let Ok(mut block) = vec![in alloc; 0u8; BLOCK] else {
        return Err(Fault::Memory);
    };
    let mut text = Vec::new(alloc);
    let halt = read_lines(session, input, output, &mut block, &mut text);
    let end = end_lines(session, &mut text, halt);
    if has_stopped_writing(end) {
        return Err(Fault::Write);
    }
    match flush(output, &mut text) {
        Ok(()) => end,
        Err(_) => Err(Fault::Write),
    }
}

/// Runs a script that is in memory. After `Ok`, each line of the script was taken, and the replies to all of them are
/// written.
///
/// # Errors
/// It returns `BadLine`, `Write` or `Memory` as `run_script` does, and never `Read`.
///
/// # Complexity
/// That of `run_script`.
pub fn run_bytes<S: Session, O: Sink>(
    alloc: Global,
    session: &mut S,
    script: &[u8],
    output: &mut O,
) -> Result<(), Fault>
    requires { S.is_ready session.old }
    ensures ready { S.is_ready session.new }
    ensures all { OnOk result (AnswersAll S.machine (S.state session.old) (S.state session.new) script.now
        (O.takes output.old output.new)) }
    ensures runs { RunsOver S.machine (S.state session.old) (S.state session.new) script.now
        (O.takes output.old output.new) (O.has_failed output.new) result }
{
    let mut input = FromSlice::new(script);
    run_script(alloc, session, &mut input, output)
}
