//! Channels that are refused memory. This says more where an allocation is made to fail, as `tools/refusals` does.

use crate::compared::same;
use cordyceps_channel::{Select, Selected, Sender, TryRecvError, channel};
use std::alloc::AllocError;
use std::sync::Wait;
use test_support::counted::{Counted, Drops, counted_node};

/// Clones a sender, by a second call where the first was refused memory.
fn cloned(rt: &impl Wait, sender: &mut Sender<Counted>) -> Result<Sender<Counted>, AllocError> {
    match sender.try_clone(rt) {
        Ok(other) => Ok(other),
        Err(AllocError) => sender.try_clone(rt),
    }
}

#[test]
fn a_channel_goes_on_after_refused_memory(rt: HostRuntime) -> Result<(), AllocError> {
    let drops = Drops::new(rt.alloc())?;
    let one = counted_node(rt.alloc(), 1, 1, &drops)?;
    let two = counted_node(rt.alloc(), 2, 2, &drops)?;
    let (mut first, mut receiver) = match channel::<Counted>(rt.alloc(), 2) {
        Ok(sides) => sides,
        Err(AllocError) => channel(rt.alloc(), 2)?,
    };
    let mut others = Vec::with_capacity(rt.alloc(), 4)?;
    for _ in 0..4u64 {
        others.push(cloned(&rt, &mut first)?)?;
    }
    let mut last = others.pop();
    let mut sent = (first.try_send(one).is_ok(), false);
    if let Some(sender) = &mut last {
        sent.1 = sender.try_send(two).is_ok();
    }
    drop(others);
    drop(first);
    drop(last);
    let mut numbers = (0, 0);
    if let Ok(node) = receiver.try_recv() {
        numbers.0 = node.id();
    }
    if let Ok(node) = receiver.try_recv() {
        numbers.1 = node.id();
    }
    let is_over = matches!(receiver.try_recv(), Err(TryRecvError::Disconnected));
    same(
        &rt,
        (sent, numbers, is_over, drops.count()),
        ((true, true), (1, 2), true, 2),
    );
    Ok(())
}

/// Creates a channel of a select, by a second call where the first was refused memory.
fn opened(select: &mut Select<Counted>) -> Result<Sender<Counted>, AllocError> {
    match select.channel(2) {
        Ok(sender) => Ok(sender),
        Err(AllocError) => select.channel(2),
    }
}

#[test]
fn a_select_goes_on_after_refused_memory(rt: HostRuntime) -> Result<(), AllocError> {
    let drops = Drops::new(rt.alloc())?;
    let node = counted_node(rt.alloc(), 1, 1, &drops)?;
    let mut select = match Select::<Counted>::new(rt.alloc()) {
        Ok(select) => select,
        Err(AllocError) => Select::new(rt.alloc())?,
    };
    let first = opened(&mut select)?;
    let mut second = opened(&mut select)?;
    let is_sent = second.try_send(node).is_ok();
    drop(first);
    drop(second);
    let mut came = (0, 0);
    if let Ok(Selected { index, value }) = select.try_recv() {
        came = (index, value.id());
    }
    let is_over = matches!(select.try_recv(), Err(TryRecvError::Disconnected));
    same(
        &rt,
        (is_sent, select.len(), came, is_over, drops.count()),
        (true, 2, (1, 1), true, 1),
    );
    Ok(())
}
