//! The steps of a shared stack, for contracts. Values of these types are not used when the program runs.
ghost use Rattle.cordyceps_stack.specs.Shared.Plays.{after_look, after_begin, after_load, after_exchange, after_take};
ghost use Rattle.cordyceps_stack.specs.Shared.Plays.{after_load_all, after_exchange_all};
ghost use Rattle.cordyceps_stack.specs.Shared.Plays.{after_hold, after_hold_last, after_return, after_append};
ghost use Rattle.cordyceps_stack.specs.Shared.Plays.{after_refill, after_glance, after_give_back, after_give_rest};
ghost use Rattle.cordyceps_stack.specs.Shared.Parting.{after_learn, view_keeping, view_giving};
ghost use Rattle.cordyceps_stack.specs.Shared.Parting.{view_absorbing, view_absorbed};
ghost use Rattle.cordyceps_stack.specs.Shared.Telling.{view_as_is, view_telling, view_hearing, after_hear};

use crate::shared::slot::Slot;
use crate::shared::table::SeatView;
use atomic_table::{Join, Play, Split};
use cordyceps_shared::free::Count;
use std::marker::PhantomData;

/// A load of the head by `is_empty`.
pub(crate) struct Look;

impl<E> Play<Slot<E>, SeatView<E>> for Look {
    ghost then = { after_look };
}

/// A load of the head, which begins a push and takes the slot of the first free room.
pub(crate) struct Begin;

impl<E> Play<Slot<E>, SeatView<E>> for Begin {
    ghost then = { after_begin };
}

/// A load of the head, which begins another try to push.
pub(crate) struct Load;

impl<E> Play<Slot<E>, SeatView<E>> for Load {
    ghost then = { after_load };
}

/// A compare-exchange of the head, which ends a try to push. If it succeeds, it returns the slot.
pub(crate) struct Exchange;

impl<E> Play<Slot<E>, SeatView<E>> for Exchange {
    ghost then = { after_exchange };
}

/// A load of the head, which begins a try to push all that is in the slots in hand.
pub(crate) struct LoadAll;

impl<E> Play<Slot<E>, SeatView<E>> for LoadAll {
    ghost then = { after_load_all };
}

/// A compare-exchange of the head, which ends such a try. If it succeeds, it returns the slots.
pub(crate) struct ExchangeAll;

impl<E> Play<Slot<E>, SeatView<E>> for ExchangeAll {
    ghost then = { after_exchange_all };
}

/// A swap of the head, which takes all elements and their slots.
pub(crate) struct Take;

impl<E> Play<Slot<E>, SeatView<E>> for Take {
    ghost then = { after_take };
}

/// A load of the quiet word, which takes the slots of the first `B::rooms` free rooms.
pub(crate) struct Hold<B> {
    count: PhantomData<B>,
}

impl<E, B: Count> Play<Slot<E>, SeatView<E>> for Hold<B> {
    ghost then = { after_hold B.rooms };
}

/// A load of the quiet word, which takes the slot of the last free room.
pub(crate) struct HoldLast;

impl<E> Play<Slot<E>, SeatView<E>> for HoldLast {
    ghost then = { after_hold_last };
}

/// A load of the quiet word, which returns all slots in hand. Their rooms become the first free ones.
pub(crate) struct Return;

impl<E> Play<Slot<E>, SeatView<E>> for Return {
    ghost then = { after_return };
}

/// A load of the quiet word, which returns the slot in hand. Its room becomes the last free one.
pub(crate) struct Append;

impl<E> Play<Slot<E>, SeatView<E>> for Append {
    ghost then = { after_append };
}

/// A swap of the pool's word, which takes all rooms of the pool and their slots.
pub(crate) struct Refill;

impl<E> Play<Slot<E>, SeatView<E>> for Refill {
    ghost then = { after_refill };
}

/// A load of the pool's word, before rooms are given back.
pub(crate) struct Glance;

impl<E> Play<Slot<E>, SeatView<E>> for Glance {
    ghost then = { after_glance };
}

/// A compare-exchange of the pool's word. If the pool has no room, the first `B::rooms` free rooms go there.
pub(crate) struct GiveBack<B> {
    count: PhantomData<B>,
}

impl<E, B: Count> Play<Slot<E>, SeatView<E>> for GiveBack<B> {
    ghost then = { after_give_back B.rooms };
}

/// A compare-exchange of the pool's word. If the pool has no room, the free rooms after the first `B::rooms` go there.
pub(crate) struct GiveRest<B> {
    count: PhantomData<B>,
}

impl<E, B: Count> Play<Slot<E>, SeatView<E>> for GiveRest<B> {
    ghost then = { after_give_rest B.rooms };
}

/// A load of the head after an absorb.
pub(crate) struct Learn;

impl<E> Play<Slot<E>, SeatView<E>> for Learn {
    ghost then = { after_learn };
}

/// A split, at which a party gives up `B::rooms` rooms.
pub(crate) struct Cut<B> {
    count: PhantomData<B>,
}

impl<E, B: Count> Split<SeatView<E>> for Cut<B> {
    ghost left = { view_keeping B.rooms };

    ghost right = { view_giving B.rooms };
}

/// An absorb.
pub(crate) struct Merge;

impl<E> Join<SeatView<E>> for Merge {
    ghost both = { view_absorbing };

    ghost spent = { view_absorbed };
}

/// A split, at which a receipt is made.
pub(crate) struct Tell;

impl<E> Split<SeatView<E>> for Tell {
    ghost left = { view_as_is };

    ghost right = { view_telling };
}

/// A join, at which a receipt is taken in.
pub(crate) struct Hear;

impl<E> Join<SeatView<E>> for Hear {
    ghost both = { view_hearing };

    ghost spent = { view_absorbed };
}

/// A load of the head after a receipt was taken in.
pub(crate) struct Heard;

impl<E> Play<Slot<E>, SeatView<E>> for Heard {
    ghost then = { after_hear };
}
