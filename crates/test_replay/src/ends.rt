//! How scripts end, and lines that are bad.

use crate::streams::{ends, whole};
use replay_driver::fault::Fault;
use replay_sessions::modes::Choice;
use std::alloc::Global;
use std::process::Abort;

/// A mode, lines of it, their replies, and how they end.
type Row = (Choice, &'static [u8], &'static [u8], Result<(), Fault>);

/// Runs of which some end at a bad line.
const ENDS: [Row; 9] = [
    (Choice::List, b"", b"", Ok(())),
    (
        Choice::List,
        b"popf 0\npopf 16\npopf 0\n",
        b"none\n",
        Err(Fault::BadLine(2)),
    ),
    (
        Choice::List,
        b"pushf 0 18446744073709551616 0\n",
        b"",
        Err(Fault::BadLine(1)),
    ),
    (
        Choice::List,
        b"len 0\nlen 0\nle",
        b"len 0\nlen 0\n",
        Err(Fault::BadLine(3)),
    ),
    // a block that is open is run at a bad line, and at the end
    (
        Choice::List,
        b"pushb 0 1 1\ncursor 0 front\ncur\nshow 0\n",
        b"ok\nok\nsome 1 1\n",
        Err(Fault::BadLine(4)),
    ),
    (Choice::List, b"cursor 3 front", b"ok\n", Ok(())),
    (
        Choice::Stack,
        b"push 0 1 1\npushf 0 1 1\n",
        b"true\n",
        Err(Fault::BadLine(2)),
    ),
    (
        Choice::Sorted,
        b"show 0\nfrom 0\n",
        b"show\n",
        Err(Fault::BadLine(2)),
    ),
    // a line of 121 bytes
    (
        Choice::Sorted,
        b"from 11 100:10 100:10 100:10 100:10 100:10 100:10 100:10 100:10 100:10 100:10 100:10 100:10 \
          100:10 100:10 100:10 100:1000",
        b"",
        Err(Fault::BadLine(1)),
    ),
];

#[test]
fn scripts_end(rt: HostRuntime) {
    for (choice, lines, text, end) in ENDS {
        ends(&rt, rt.alloc(), choice, whole(lines), end, text);
    }
}

/// Lines that are bad in some place.
#[derive(Clone, Copy)]
struct BadLines {
    choice: Choice,
    /// Good lines before each of them.
    good: &'static [u8],
    /// The replies to the good lines.
    replies: &'static [u8],
    /// Its number, behind the good lines.
    number: u64,
    bad: &'static [&'static [u8]],
}

/// Lines of mode `list`, outside of blocks.
const OUTSIDE: BadLines = BadLines {
    choice: Choice::List,
    good: b"popf 0\n",
    replies: b"none\n",
    number: 2,
    bad: &[
        b"",
        b" ",
        b"len  0",
        b"len 0 ",
        b" len 0",
        b"len\t0",
        b"len 0\r",
        b"len 0\xff",
        b"popf 00",
        b"popf +0",
        b"popf 16",
        b"popf",
        b"popf 0 0",
        b"popf 1 ",
        b" popf 1",
        b"Popf 1",
        b"POPF 0",
        b"pop 0",
        b"push 0 1 2",
        b"pushf 0 1",
        b"pushf 0 1 1 1",
        b"pushf 16 1 2",
        b"pushf 0  1 2",
        b"pushf 0 18446744073709551616 0",
        b"pushf 0 0 -1",
        b"setf 0",
        b"split 1 2 16",
        b"bump 0 18446744073709551616",
        b"bump 0 01",
        b"walk 0",
        b"walk 0 ",
        b"walk 0 nbx",
        b"walk 0 nnnnnnnnnnnnnnnnnnnnnnnnnnnnnnnnnnnnnnnnnnnnnnnnnnnnnnnnnnnnnnnnn",
        b"drain 1 odd 2",
        b"drain 1 all",
        b"cursor 1 middle",
        b"cursor 1",
        b"end 1",
        b"first",
        b"splita 16",
        b"set",
        // good ones within blocks
        b"next",
        b"prev",
        b"cur",
        b"pnext",
        b"pprev",
        b"index",
        b"len",
        b"set 1",
        b"setn 2",
        b"setp 3",
        b"step",
        b"remove",
        b"first even",
        b"first alt",
        b"first all",
        b"insa 4 5",
        b"insb 6 7",
        b"splita 0",
        b"splitb 15",
        b"splicea 1",
        b"spliceb 2",
        b"end",
    ],
};

/// Lines of mode `list` within a block.
const INSIDE: BadLines = BadLines {
    choice: Choice::List,
    good: b"cursor 0 front\nlen\n",
    replies: b"ok\nlen 0\n",
    number: 3,
    bad: &[
        b"",
        b" ",
        b"next ",
        b" next",
        b"Next",
        b"end 1",
        b"first",
        b"first odd",
        b"splita 16",
        b"set",
        b"insa 4",
        b"push 0 1 2",
        b"popf 1 ",
        b"split 1 2 16",
        b"bump 0 01",
        b"walk 1",
        b"walk 1 nbx",
        b"drain 1 odd 2",
        b"cursor 1 middle",
        // good ones outside of blocks
        b"pushf 0 1 2",
        b"pushb 15 18446744073709551615 0",
        b"popf 1",
        b"popb 2",
        b"front 3",
        b"back 4",
        b"setf 5 6",
        b"setb 7 8",
        b"len 9",
        b"append 10 11",
        b"split 12 1000 13",
        b"remove 14 99",
        b"bump 0 1",
        b"walk 1 nnbb",
        b"into 2 b",
        b"drain 3 even 0",
        b"drain 4 alt 5",
        b"drain 6 all 18446744073709551615",
        b"show 7",
        b"cursor 8 front",
        b"cursor 9 back",
    ],
};

/// Lines of mode `sorted`.
const SORTED: BadLines = BadLines {
    choice: Choice::Sorted,
    good: b"show 0\n",
    replies: b"show\n",
    number: 2,
    bad: &[
        b"from 0 1",
        b"from 0 1:",
        b"from 0 :1",
        b"from 0 1:2:3",
        b"from 0 1:1  2:2",
        b"from 0 1:1 ",
        b"from 16 1:1",
        b"from 0 01:1",
        b"from 1:1",
    ],
};

/// Lines of mode `transfer`.
const TRANSFER: BadLines = BadLines {
    choice: Choice::Transfer,
    good: b"party\n",
    replies: b"party 0\n",
    number: 2,
    bad: &[
        b"",
        b"party 0",
        b"party ",
        b"parties",
        b"room",
        b"room 0 0",
        b"room  0",
        b"room 00",
        b"room 18446744073709551616",
        b"load 0",
        b"load 0 1",
        b"load 0 1 1 1",
        b"load 0 1 -1",
        b"setnext",
        b"setnext 0 0",
        b"exch",
        b"exch x",
        b"take 0 ",
        b"walk",
        b"walk 0 n",
        b"push 0 1",
        b"push 1",
        b"takeall",
        b"takeall 0 0",
        b"clear 0",
    ],
};

/// Lines of mode `queue`.
const QUEUE: BadLines = BadLines {
    choice: Choice::Queue,
    good: b"party\n",
    replies: b"party 0\n",
    number: 2,
    bad: &[
        b"",
        b"party 0",
        b"room",
        b"room 0 1",
        b"clear",
        b"clear 0 ",
        b"clear 0 1",
        b"clear 0 1 1 1",
        b"clear 0 1 18446744073709551616",
        b"clear 01",
        b"swap",
        b"swap 0 1 1",
        b"link",
        b"link 0 0",
        b"take",
        b"next",
        b"next 0 0",
        b"head -1",
        b"give 18446744073709551616",
        b"enq 0",
        b"enq 0 1",
        b"enq 0 1 1 1",
        b"deq",
        b"deq 0 0",
        b"batch",
        b"batch 0",
        b"batch 0 ",
        b"batch 0 01",
        b"batch 0 1 1",
        b"batch 0 18446744073709551616",
        b"push 0 1 1",
        b"takeall 0",
    ],
};

/// Returns the lines one after the other, with a bad one between two of the good ones.
fn around(rt: &impl Abort, alloc: Global, good: &[u8], bad: &[u8]) -> Vec<u8> {
    let mut lines = Vec::new(alloc);
    for part in [good, bad, b"\n", good] {
        assert!(rt; lines.extend_from_slice(part).is_ok());
    }
    lines
}

#[test]
fn bad_lines(rt: HostRuntime) {
    for rows in [OUTSIDE, INSIDE, SORTED, TRANSFER, QUEUE] {
        for bad in rows.bad {
            let lines = around(&rt, rt.alloc(), rows.good, bad);
            let end = Err(Fault::BadLine(rows.number));
            ends(
                &rt,
                rt.alloc(),
                rows.choice,
                whole(&lines),
                end,
                rows.replies,
            );
        }
    }
}
