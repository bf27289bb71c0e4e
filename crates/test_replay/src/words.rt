//! The words of the command line, and those on standard error.

use crate::compared::{made, same};
use replay_driver::fault::Fault;
use replay_sessions::modes::{Choice, USAGE, choose};
use std::test::Fail;

#[test]
fn choices(rt: HostRuntime) {
    let table: [(&[&str], Option<Choice>); 12] = [
        (&[], None),
        (&["list"], Some(Choice::List)),
        (&["stack"], Some(Choice::Stack)),
        (&["sorted"], Some(Choice::Sorted)),
        (&["transfer"], Some(Choice::Transfer)),
        (&["queue"], Some(Choice::Queue)),
        (&["share"], Some(Choice::Share)),
        (&["transfer", "queue"], None),
        (&["List"], None),
        (&[""], None),
        (&["list", "list"], None),
        (&["list", ""], None),
    ];
    for (texts, wanted) in table {
        let mut words = Vec::new(rt.alloc());
        for text in texts {
            let word = made(&rt, String::from_str(rt.alloc(), text));
            made(&rt, words.push(word));
        }
        same(&rt, choose(&words), wanted);
    }
    same(
        &rt,
        USAGE,
        "usage: cordyceps_replay list|stack|sorted|transfer|queue|share",
    );
}

#[test]
fn faults(rt: HostRuntime) -> Result<(), Fail> {
    let table = [
        (Fault::BadLine(1), 2, "bad line 1"),
        (Fault::BadLine(u64::MAX), 2, "bad line 18446744073709551615"),
        (Fault::Read, 3, "read failed"),
        (Fault::Write, 3, "write failed"),
        (Fault::Memory, 4, "out of memory"),
    ];
    for (fault, status, text) in table {
        let shown = format!(in rt.alloc(); "{fault}")?;
        same(&rt, (fault.status(), shown.as_str()), (status, text));
    }
    Ok(())
}
