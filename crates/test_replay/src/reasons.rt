//! Why a line is bad, where a run is asked to tell.

use crate::compared::same;
use crate::streams::{blank, whole};
use replay_driver::fault::Fault;
use replay_driver::sink::ToWrite;
use replay_driver::source::FromRead;
use replay_lines::reason::Reason;
use replay_sessions::modes::{Mode, compare_tens, run_with_reason};
use std::alloc::Global;
use std::test::Fail;

/// Runs lines in mode `sorted`, and returns how that ends, and the reason that it tells.
fn told(
    alloc: Global,
    lines: &[u8],
    before: Option<Reason>,
) -> (Result<(), Fault>, Option<Reason>) {
    let mut input = FromRead::new(whole(lines));
    let mut output = ToWrite::new(blank(alloc, usize::MAX, false));
    let mut why = before;
    let mode = Mode::Sorted(compare_tens);
    let end = run_with_reason(alloc, mode, &mut input, &mut output, &mut why);
    (end, why)
}

/// Lines in mode `sorted` of which the second is bad, and the reason with its text.
const BAD: [(&[u8], Reason, &str); 11] = [
    (b"show 0\n\n", Reason::Empty, "empty line"),
    (
        b"show 0\nshow 0\r\n",
        Reason::CarriageReturn,
        "carriage return",
    ),
    (b"show 0\nshow  0\n", Reason::StraySpace, "stray space"),
    (b"show 0\nshow 0 \n", Reason::StraySpace, "stray space"),
    (b"show 0\n show 0\n", Reason::StraySpace, "stray space"),
    (b"show 0\nSHOW 0\n", Reason::NoSuchWord, "no such word"),
    (b"show 0\nshow 00\n", Reason::LeadingZero, "leading zero"),
    (
        b"show 0\ninsert 0 1 18446744073709551616\n",
        Reason::TooGreat,
        "number too great",
    ),
    (
        b"show 0\nshow 16\n",
        Reason::NoSuchStructure,
        "no such structure",
    ),
    (b"show 0\nshow\n", Reason::OtherWords, "wrong words"),
    // a line of 121 bytes
    (
        b"show 0\nfrom 11 100:10 100:10 100:10 100:10 100:10 100:10 100:10 100:10 100:10 100:10 100:10 100:10 \
          100:10 100:10 100:10 100:1000\n",
        Reason::TooLong,
        "too long",
    ),
];

#[test]
fn a_reason_is_told_after_a_bad_line(rt: HostRuntime) -> Result<(), Fail> {
    for (lines, reason, text) in BAD {
        let came = told(rt.alloc(), lines, None);
        same(&rt, came, (Err(Fault::BadLine(2)), Some(reason)));
        let shown = format!(in rt.alloc(); "{reason}")?;
        same(&rt, shown.as_str(), text);
    }
    let came = told(rt.alloc(), b"show 0\n", Some(Reason::Empty));
    same(&rt, came, (Ok(()), None));
    Ok(())
}
