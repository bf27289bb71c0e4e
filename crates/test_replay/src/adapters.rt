//! What a sink passes to its writer, and scripts in memory.

use crate::compared::{made, same};
use crate::streams::{blank, has_outcome};
use replay_cores::queue_session::QueueSession;
use replay_driver::fault::Fault;
use replay_driver::script::run_bytes;
use replay_driver::sink::{Sink, ToWrite};

// A sink may write a prefix of the bytes, but this one leaves it to the writer which.
#[test]
fn a_write_hands_on_all_bytes(rt: HostRuntime) {
    for (room, taken) in [(1, b"a".as_slice()), (3, b"abc"), (9, b"abc")] {
        let mut output = ToWrite::new(blank(rt.alloc(), room, false));
        same(&rt, output.write(b"abc"), Ok(taken.len()));
        let paper = output.into_inner();
        same(&rt, (paper.written.as_slice(), paper.offered), (taken, 3));
    }
}

#[test]
fn a_script_in_memory(rt: HostRuntime) {
    let table: [(&[u8], Result<(), Fault>, &[u8]); 4] = [
        (b"", Ok(()), b""),
        (b"party\nparty", Ok(()), b"party 0\nparty 1\n"),
        (b"party\nroom 0\n", Ok(()), b"party 0\nok\n"),
        (b"party\n\nparty\n", Err(Fault::BadLine(2)), b"party 0\n"),
    ];
    for (script, wanted, text) in table {
        let mut session = QueueSession::new(rt.alloc());
        let mut output = ToWrite::new(blank(rt.alloc(), usize::MAX, false));
        let end = run_bytes(rt.alloc(), &mut session, script, &mut output);
        let came = (end, output.into_inner().written);
        has_outcome(&rt, script, came, wanted, text);
    }
}

// The script is longer than two of the blocks that are read at once.
#[test]
fn a_long_script_in_memory(rt: HostRuntime) {
    let mut script = Vec::new(rt.alloc());
    let mut text = Vec::new(rt.alloc());
    made(&rt, script.extend_from_slice(b"party\n"));
    made(&rt, text.extend_from_slice(b"party 0\n"));
    for _ in 0..20_000 {
        made(&rt, script.extend_from_slice(b"room 0\n"));
        made(&rt, text.extend_from_slice(b"ok\n"));
    }
    let mut session = QueueSession::new(rt.alloc());
    let mut output = ToWrite::new(blank(rt.alloc(), usize::MAX, false));
    let end = run_bytes(rt.alloc(), &mut session, &script, &mut output);
    same(
        &rt,
        (end, output.into_inner().written == text),
        (Ok(()), true),
    );
}
