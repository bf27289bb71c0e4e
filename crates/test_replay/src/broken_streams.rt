//! Scripts over readers and writers that fail after each number of bytes, or take little at once.

use crate::streams::{Script, blank, ends, has_outcome, outcome, whole};
use replay_driver::fault::Fault;
use replay_sessions::modes::Choice;

/// Scripts of which each line is good, and their replies, of which each is a line.
const EXAMPLES: [(Choice, &[u8], &[u8]); 4] = [
    (
        Choice::List,
        b"pushb 0 1 1\npushb 0 2 2\npushf 0 3 3\npopf 0\npopb 0\nlen 0\npopf 1\n",
        b"ok\nok\nok\nsome 3 3\nsome 2 2\nlen 1\nnone\n",
    ),
    (
        Choice::List,
        b"pushb 0 1 1\npushb 0 2 2\npushb 0 3 3\ncursor 0 front\nprev\nindex\nprev\ncur\nindex\n\
          splitb 1\nindex\nend\nshow 0\nshow 1\n",
        b"ok\nok\nok\nok\nok\nnone\nok\nsome 3 3\nindex 2\nok\nindex 0\nok\nshow 3:3\nshow 1:1 2:2\n",
    ),
    (
        Choice::Stack,
        b"push 0 1 1\npush 0 2 2\ntake 0 1\nempty 0\ndrain 1\n",
        b"true\nfalse\nok\ntrue\nshow 2:2 1:1\n",
    ),
    (
        Choice::Sorted,
        b"from 11 1:21 2:11 3:12 4:20\nshow 11\n",
        b"ok\nshow 3:12 2:11 4:20 1:21\n",
    ),
];

/// Returns the replies to those lines of a script that are complete.
fn replies_to<'a>(script: &[u8], replies: &'a [u8]) -> &'a [u8] {
    let mut left = 0u64;
    for byte in script {
        if *byte == b'\n' {
            left = left.wrapping_add(1);
        }
    }
    for at in 0..replies.len() {
        if left == 0 {
            return &replies[..at];
        }
        if replies[at] == b'\n' {
            left -= 1;
        }
    }
    replies
}

// A block that is open when the read fails is run, so that each complete line has its reply.
#[test]
fn failed_and_short_reads(rt: HostRuntime) {
    for (choice, script, replies) in EXAMPLES {
        for given in 0..=script.len() {
            let rest = &script[..given];
            let text = replies_to(rest, replies);
            for at_once in [1, 64] {
                let input = Script {
                    rest,
                    at_once,
                    fails: true,
                };
                ends(&rt, rt.alloc(), choice, input, Err(Fault::Read), text);
            }
            // the whole script, so many bytes and one at once
            let input = Script {
                rest: script,
                at_once: given.wrapping_add(1),
                fails: false,
            };
            ends(&rt, rt.alloc(), choice, input, Ok(()), replies);
        }
    }
}

#[test]
fn bad_lines_before_failed_reads(rt: HostRuntime) {
    let line = [b'7'; 121];
    let table: [(&[u8], bool, Result<(), Fault>, &[u8]); 5] = [
        (&line[..120], true, Err(Fault::Read), b""),
        (&line[..120], false, Err(Fault::BadLine(1)), b""),
        (&line, true, Err(Fault::BadLine(1)), b""),
        (&line, false, Err(Fault::BadLine(1)), b""),
        (
            b"len 0\nlen 16\nle",
            true,
            Err(Fault::BadLine(2)),
            b"len 0\n",
        ),
    ];
    for (rest, fails, end, text) in table {
        for at_once in [1, 64, 121] {
            let input = Script {
                rest,
                at_once,
                fails,
            };
            ends(&rt, rt.alloc(), Choice::List, input, end, text);
        }
    }
}

#[test]
fn failed_writes(rt: HostRuntime) {
    for (choice, script, replies) in EXAMPLES {
        for room in 0..=replies.len() {
            let end = if room < replies.len() {
                Err(Fault::Write)
            } else {
                Ok(())
            };
            for fails in [true, false] {
                let paper = blank(rt.alloc(), room, fails);
                let came = outcome(rt.alloc(), choice, whole(script), paper);
                has_outcome(&rt, script, came, end, &replies[..room]);
            }
        }
    }
}
