//! A table of connections: which is evicted, closed, or expires.
use crate::compared::same;
use crate::made::node;
use cordyceps_uses::connections::{Connection, Connections};
use std::alloc::Global;
use std::process::Abort;

/// A call of a table, and what it returns. A connection is told by its number.
#[derive(Clone, Copy)]
enum Call {
    /// Opens a connection with a number, active at a time, and returns the one that was closed for it.
    Open(u64, u64, Option<u64>),
    /// Opens a connection with a number, active at a time, closes it by its spot, and returns it.
    OpenAndClose(u64, u64),
    /// Renews the connection that was idle longest, at a time. There has to be one.
    Renew(u64),
    /// Closes the connection that was idle longest by its spot, and returns it.
    Close(Option<u64>),
    /// Closes the connection that was idle longest, if that was before a time, and returns it.
    Expire(u64, Option<u64>),
    /// Returns how many are open.
    Len(usize),
}

/// Opens a connection, and returns the number of the one that was closed for it.
fn open(
    rt: &impl Abort,
    alloc: Global,
    table: &mut Connections<u32>,
    id: u64,
    time: u64,
) -> Option<u64> {
    let connection = Connection {
        last_active: time,
        peer: 7,
    };
    let opened = table.open(node(rt, alloc, id, connection));
    opened.evicted.map(|node| node.id())
}

/// Opens a connection and closes it, and returns the number of the closed one and its peer's.
fn open_and_close(
    rt: &impl Abort,
    alloc: Global,
    table: &mut Connections<u32>,
    id: u64,
    time: u64,
) -> (u64, u32) {
    let connection = Connection {
        last_active: time,
        peer: 9,
    };
    let opened = table.open(node(rt, alloc, id, connection));
    let closed = table.close(opened.spot);
    (closed.id(), closed.get().peer)
}

/// Makes a call, and compares what it returns with what is wanted.
fn returns(rt: &impl Abort, alloc: Global, table: &mut Connections<u32>, call: Call) {
    match call {
        Call::Open(id, time, evicted) => same(rt, open(rt, alloc, table, id, time), evicted),
        Call::OpenAndClose(id, time) => {
            same(rt, open_and_close(rt, alloc, table, id, time), (id, 9));
        }
        Call::Renew(time) => match table.idlest() {
            Some(spot) => table.renew(spot, time),
            None => panic!(rt; "no connection is open"),
        },
        Call::Close(id) => match table.idlest() {
            Some(spot) => same(rt, Some(table.close(spot).id()), id),
            None => same(rt, None, id),
        },
        Call::Expire(since, id) => same(rt, table.expire(since).map(|node| node.id()), id),
        Call::Len(len) => same(rt, table.len(), len),
    }
}

/// Calls of a table of three connections.
const CALLS: [Call; 22] = [
    Call::Close(None),
    Call::Expire(9, None),
    Call::Open(1, 10, None),
    Call::Open(2, 11, None),
    Call::Renew(12),
    Call::Open(3, 12, None),
    Call::Len(3),
    Call::Open(4, 5, Some(2)),
    Call::Open(5, 20, Some(4)),
    Call::Expire(12, None),
    Call::Expire(13, Some(1)),
    Call::Len(2),
    Call::OpenAndClose(6, 15),
    Call::OpenAndClose(7, 30),
    Call::Len(2),
    Call::Renew(20),
    Call::Open(8, 19, None),
    Call::Close(Some(8)),
    Call::Close(Some(5)),
    Call::Expire(21, Some(3)),
    Call::Close(None),
    Call::Len(0),
];

#[test]
fn the_one_idle_longest_makes_room(rt: HostRuntime) {
    let mut table = Connections::new(3);
    for call in CALLS {
        returns(&rt, rt.alloc(), &mut table, call);
    }
}
