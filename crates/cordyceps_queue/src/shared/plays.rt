//! The steps of a shared queue, for contracts. Values of these types are not used when the program runs.
ghost use Rattle.cordyceps_queue.specs.Shared.Uses.{after_begin, after_swap, after_link, after_take, after_look};
ghost use Rattle.cordyceps_queue.specs.Shared.Uses.{after_look_stub, after_read, after_head, after_head_stub};
ghost use Rattle.cordyceps_queue.specs.Shared.Uses.{after_begin_stub, after_swap_stub, after_link_stub, after_give};
ghost use Rattle.cordyceps_queue.specs.Shared.Uses.{after_reread, after_tie, after_skip};
ghost use Rattle.cordyceps_queue.specs.Shared.Uses.{after_refill, after_gather, after_glance, after_give_back, after_give_rest};
ghost use Rattle.cordyceps_queue.specs.Shared.Parting.{after_learn, view_keeping, view_giving};
ghost use Rattle.cordyceps_queue.specs.Shared.Parting.{view_absorbing, view_absorbed};
ghost use Rattle.cordyceps_queue.specs.Shared.Bell.{after_listen, after_ring, after_clear, after_doze};
ghost use Rattle.cordyceps_queue.specs.Shared.Telling.{view_as_is, view_telling, view_hearing, after_hear};

use crate::shared::table::{Chosen, SeatView};
use atomic_table::{Join, Play, Split};
use cordyceps_shared::free::Count;
use std::marker::PhantomData;

/// A load of a free room's link, by which an enqueue begins a use of the room, takes its slot and learns the next free
/// room.
pub(crate) struct Begin<B> {
    item: PhantomData<B>,
}

impl<E, B: Chosen<E>> Play<Option<E>, SeatView<E>> for Begin<B> {
    ghost then = { after_begin B.item };
}

/// A swap of the head, which puts an element in.
pub(crate) struct Swap;

impl<E> Play<Option<E>, SeatView<E>> for Swap {
    ghost then = { after_swap };
}

/// A store to the old head's link, which links the element.
pub(crate) struct Link;

impl<E> Play<Option<E>, SeatView<E>> for Link {
    ghost then = { after_link };
}

/// A swap of the right to dequeue, which takes it if it is free.
pub(crate) struct Take;

impl<E> Play<Option<E>, SeatView<E>> for Take {
    ghost then = { after_take };
}

/// A store that gives the right to dequeue back.
pub(crate) struct Give;

impl<E> Play<Option<E>, SeatView<E>> for Give {
    ghost then = { after_give };
}

/// A load of the tail's link after the stub was put in.
pub(crate) struct Reread;

impl<E> Play<Option<E>, SeatView<E>> for Reread {
    ghost then = { after_reread };
}

/// A load of the link of a tail that is not the stub, which begins a try.
pub(crate) struct Look;

impl<E> Play<Option<E>, SeatView<E>> for Look {
    ghost then = { after_look };
}

/// A load of the stub's link when the stub is the tail, which begins a try.
pub(crate) struct LookStub;

impl<E> Play<Option<E>, SeatView<E>> for LookStub {
    ghost then = { after_look_stub };
}

/// A load of the link of the room after the stub.
pub(crate) struct Read;

impl<E> Play<Option<E>, SeatView<E>> for Read {
    ghost then = { after_read };
}

/// A load of the head after the tail's link was null.
pub(crate) struct Head;

impl<E> Play<Option<E>, SeatView<E>> for Head {
    ghost then = { after_head };
}

/// A load of the head after the stub's link was null.
pub(crate) struct HeadStub;

impl<E> Play<Option<E>, SeatView<E>> for HeadStub {
    ghost then = { after_head_stub };
}

/// A load of the stub's link, which begins a use of its room.
pub(crate) struct BeginStub;

impl<E> Play<Option<E>, SeatView<E>> for BeginStub {
    ghost then = { after_begin_stub };
}

/// A swap of the head, which puts the stub in.
pub(crate) struct SwapStub;

impl<E> Play<Option<E>, SeatView<E>> for SwapStub {
    ghost then = { after_swap_stub };
}

/// A store to the old head's link, which links the stub.
pub(crate) struct LinkStub;

impl<E> Play<Option<E>, SeatView<E>> for LinkStub {
    ghost then = { after_link_stub };
}

/// A store to the link of the last free room.
pub(crate) struct Tie;

impl<E> Play<Option<E>, SeatView<E>> for Tie {
    ghost then = { after_tie };
}

/// A load of a free room's link, which leads to the next.
pub(crate) struct Skip;

impl<E> Play<Option<E>, SeatView<E>> for Skip {
    ghost then = { after_skip };
}

/// A swap of the pool's word, which takes all rooms of the pool and their slots.
pub(crate) struct Refill;

impl<E> Play<Option<E>, SeatView<E>> for Refill {
    ghost then = { after_refill };
}

/// A load of the link of the last of these rooms, at which their slots are given back.
pub(crate) struct Gather;

impl<E> Play<Option<E>, SeatView<E>> for Gather {
    ghost then = { after_gather };
}

/// A load of the pool's word, at which the slots in hand are given back.
pub(crate) struct Glance;

impl<E> Play<Option<E>, SeatView<E>> for Glance {
    ghost then = { after_glance };
}

/// A compare-exchange of the pool's word. If the pool has no room, the first `B::rooms` free rooms go there.
pub(crate) struct GiveBack<B> {
    count: PhantomData<B>,
}

impl<E, B: Count> Play<Option<E>, SeatView<E>> for GiveBack<B> {
    ghost then = { after_give_back B.rooms };
}

/// A compare-exchange of the pool's word. If the pool has no room, the free rooms after the first `B::rooms` go there.
pub(crate) struct GiveRest<B> {
    count: PhantomData<B>,
}

impl<E, B: Count> Play<Option<E>, SeatView<E>> for GiveRest<B> {
    ghost then = { after_give_rest B.rooms };
}

/// A load of the head after an absorb.
pub(crate) struct Learn;

impl<E> Play<Option<E>, SeatView<E>> for Learn {
    ghost then = { after_learn };
}

/// A split, at which a party gives up `B::rooms` rooms.
pub(crate) struct Cut<B> {
    count: PhantomData<B>,
}

impl<E, B: Count> Split<SeatView<E>> for Cut<B> {
    ghost left = { view_keeping B.rooms };

    ghost right = { view_giving B.rooms };
}

/// An absorb.
pub(crate) struct Merge;

impl<E> Join<SeatView<E>> for Merge {
    ghost both = { view_absorbing };

    ghost spent = { view_absorbed };
}

/// A split, at which a receipt is made.
pub(crate) struct Tell;

impl<E> Split<SeatView<E>> for Tell {
    ghost left = { view_as_is };

    ghost right = { view_telling };
}

/// A join, at which a receipt is taken in.
pub(crate) struct Hear;

impl<E> Join<SeatView<E>> for Hear {
    ghost both = { view_hearing };

    ghost spent = { view_absorbed };
}

/// A load of the head after a receipt was taken in.
pub(crate) struct Heard;

impl<E> Play<Option<E>, SeatView<E>> for Heard {
    ghost then = { after_hear };
}

/// A load of the bell's word before a ring.
pub(crate) struct Listen;

impl<E> Play<Option<E>, SeatView<E>> for Listen {
    ghost then = { after_listen };
}

/// A swap of the bell's word, which rings the bell.
pub(crate) struct Ring;

impl<E> Play<Option<E>, SeatView<E>> for Ring {
    ghost then = { after_ring };
}

/// A compare-exchange of the bell's word, which clears the bell.
pub(crate) struct Clear;

impl<E> Play<Option<E>, SeatView<E>> for Clear {
    ghost then = { after_clear };
}

/// A compare-exchange of the bell's word before a sleep.
pub(crate) struct Doze;

impl<E> Play<Option<E>, SeatView<E>> for Doze {
    ghost then = { after_doze };
}
