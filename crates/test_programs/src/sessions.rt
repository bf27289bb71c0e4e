//! A table of sessions: which ends, which is evicted, and what a use changes.
use crate::compared::{at_most, made, same};
use cordyceps::stable_map::MapNode;
use cordyceps_uses::sessions::{Session, SessionNode, Sessions};
use std::alloc::Global;
use std::process::Abort;

/// No table of a test has more sessions.
const LONGEST: usize = 10;

/// A call of a table, and what it returns. A session is told by its number.
#[derive(Clone, Copy)]
enum Call {
    /// Opens a session with a number, a time of last use and a deadline, and returns the one that had its number.
    Open(u64, u64, u64, Option<u64>),
    /// Uses a session by its number, at a time, with a new deadline, and returns whether it is there.
    Touch(u64, u64, u64, bool),
    /// Takes out the session that ends first, if it ends by a time.
    Expire(u64, Option<u64>),
    /// Takes out the session that was used longest ago.
    Evict(Option<u64>),
    /// Takes out a session by its number.
    Close(u64, Option<u64>),
    /// Returns how many are there.
    Len(usize),
}

/// Makes a session, whose peer is told by its number.
fn session(rt: &impl Abort, alloc: Global, id: u64, seen: u64, deadline: u64) -> SessionNode {
    let session = Session {
        seen,
        deadline,
        peer: 7,
    };
    made(rt, MapNode::new(alloc, id, id, session))
}

/// Returns the number of a session that came out.
fn number(node: Option<SessionNode>) -> Option<u64> {
    node.map(|it| *it.key())
}

/// Makes a call, and compares what it returns with what is wanted.
fn returns(rt: &impl Abort, alloc: Global, table: &mut Sessions, call: Call) {
    match call {
        Call::Open(id, seen, deadline, replaced) => {
            at_most(rt, table.len(), LONGEST);
            let node = session(rt, alloc, id, seen, deadline);
            same(rt, number(table.open(node)), replaced);
        }
        Call::Touch(id, now, deadline, is_there) => {
            same(rt, table.touch(id, now, deadline), is_there);
        }
        Call::Expire(now, id) => same(rt, number(table.expire(now)), id),
        Call::Evict(id) => same(rt, number(table.evict()), id),
        Call::Close(id, closed) => same(rt, number(table.close(id)), closed),
        Call::Len(len) => same(rt, table.len(), len),
    }
}

/// Calls of a table.
const CALLS: [Call; 20] = [
    Call::Evict(None),
    Call::Expire(100, None),
    Call::Touch(1, 0, 10, false),
    Call::Open(1, 0, 100, None),
    Call::Open(2, 1, 50, None),
    Call::Open(3, 2, 70, None),
    Call::Len(3),
    Call::Touch(1, 5, 60, true),
    Call::Touch(9, 5, 60, false),
    Call::Expire(49, None),
    Call::Expire(50, Some(2)),
    Call::Evict(Some(3)),
    Call::Close(3, None),
    Call::Open(1, 6, 40, Some(1)),
    Call::Open(4, 3, 90, None),
    Call::Evict(Some(4)),
    Call::Expire(39, None),
    Call::Expire(40, Some(1)),
    Call::Close(1, None),
    Call::Len(0),
];

#[test]
fn sessions_end_and_make_room(rt: HostRuntime) {
    let mut table = made(&rt, Sessions::new(rt.alloc(), 4, (3, 5)));
    for call in CALLS {
        returns(&rt, rt.alloc(), &mut table, call);
    }
}
