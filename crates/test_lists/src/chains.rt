//! Chains: nodes that are linked both ways or one way, cut, joined and walked over.
use crate::compared::{made, same};
use cordyceps_base::double_chain::DoubleChain;
use cordyceps_base::node::Node;
use cordyceps_base::single_chain::SingleChain;
use cordyceps_base::{list, stack};
use std::alloc::Global;
use std::process::Abort;
use test_support::counted::{Counted, Drops, counted_node};
use test_support::nodes::node_of;

/// Returns a node that counts its drop.
fn counted(
    rt: &impl Abort,
    alloc: Global,
    id: u64,
    drops: &Drops,
) -> Node<Counted, list::Links<Counted>> {
    made(rt, counted_node(alloc, id, 0, drops))
}

#[test]
fn links_both_ways(rt: HostRuntime) {
    let drops = made(&rt, Drops::new(rt.alloc()));
    let mut chain = DoubleChain::empty();
    chain.link_back(counted(&rt, rt.alloc(), 2, &drops));
    chain.link_back(counted(&rt, rt.alloc(), 3, &drops));
    chain.link_front(counted(&rt, rt.alloc(), 1, &drops));
    let first = chain.head();
    let second = chain.next(first, 0);
    let third = chain.next(second, 1);
    let ids = (chain.id(first, 0), chain.id(second, 1), chain.id(third, 2));
    same(&rt, ids, (1, 2, 3));
    let back = chain.prev(chain.tail(), 2);
    same(&rt, (chain.len(), chain.id(back, 1)), (3, 2));
    let (front, rest) = chain.cut(second, 1);
    let mut turned = rest.join(front);
    let ends = (turned.unlink_front().id(), turned.unlink_back().id());
    same(&rt, ends, (2, 1));
    same(&rt, drops.count(), 2);
    drop(turned);
    same(&rt, drops.count(), 3);
}

/// A chain of numbers.
type Numbers = SingleChain<u64, stack::Links<u64>>;

/// Asserts the values of a chain, in order.
fn holds(rt: &impl Abort, chain: &Numbers, wanted: &[u64]) {
    let mut left = chain.values();
    for value in wanted {
        same(rt, left.next(), Some(value));
    }
    same(rt, left.next(), None);
}

/// Asserts the first and the last value of a chain.
fn ends(rt: &impl Abort, chain: &Numbers, first: Option<u64>, last: Option<u64>) {
    same(rt, chain.is_empty(), first.is_none());
    same(
        rt,
        (chain.first().copied(), chain.last().copied()),
        (first, last),
    );
}

#[test]
fn links_one_way(rt: HostRuntime) {
    let alloc = rt.alloc();
    let mut chain = SingleChain::empty();
    ends(&rt, &chain, None, None);
    chain.link_back(made(&rt, node_of(alloc, 2, 20)));
    chain.link_front(made(&rt, node_of(alloc, 1, 10)));
    chain.link_back(made(&rt, node_of(alloc, 3, 30)));
    ends(&rt, &chain, Some(10), Some(30));
    let mut other = SingleChain::one(made(&rt, node_of(alloc, 4, 40)));
    other.link_front(made(&rt, node_of(alloc, 5, 50)));
    let mut both = chain.join(other);
    holds(&rt, &both, &[10, 20, 30, 50, 40]);
    same(&rt, both.unlink_front().into_value(), 10);
    same(&rt, both.unlink_front().id(), 2);
    ends(&rt, &both, Some(30), Some(40));
}

#[test]
fn a_cursor_inserts_nodes(rt: HostRuntime) {
    let alloc = rt.alloc();
    let mut chain = SingleChain::empty();
    chain.link_back(made(&rt, node_of(alloc, 1, 10)));
    chain.link_back(made(&rt, node_of(alloc, 3, 30)));
    let mut cursor = chain.into_cursor();
    same(&rt, cursor.current().copied(), Some(10));
    cursor.advance();
    cursor.insert(made(&rt, node_of(alloc, 2, 20)));
    same(&rt, cursor.current().copied(), Some(30));
    cursor.advance();
    same(&rt, cursor.current().is_none(), true);
    cursor.insert(made(&rt, node_of(alloc, 4, 40)));
    holds(&rt, &cursor.close(), &[10, 20, 30, 40]);
}
