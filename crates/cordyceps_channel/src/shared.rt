//! What senders and receiver of a channel share.

ghost use Rattle.std.specs.Prelude.{◌≡◌, ◌<◌, true};
ghost use Rattle.cordyceps_channel.specs.Channels.{DoesNothing};

use crate::bell::Bell;
use crate::wake::{NoWake, Wake};
use cordyceps_base::linked::Linked;
use cordyceps_base::mpsc_queue::Links;
use cordyceps_queue::mpsc_queue::{MpscQueue, Party};
use std::alloc::Global;
use std::sync::Arc;
use std::sync::atomic::{AtomicBool, AtomicU64};

/// The most rooms that a sender takes at a time.
const MAX_QUANTUM: usize = 64;

/// A sender takes at most one in so many rooms at a time, so that no 256 senders can have them all and send nothing.
const SENDERS: usize = 256;

/// How often a party tries to give all its rooms back. Each try in vain is several rooms given back by others.
const TRIES: usize = 1000;

/// What senders and receiver of a channel share.
#[derive(Drop)]
pub(crate) struct Shared<T: Linked<Links<T>>, W: Wake + Drop> {
    /// The queue through which elements go. The receiver's consumer shares its ownership.
    pub queue: Arc<MpscQueue<T>, Global>,
    /// The memory of new senders.
    pub alloc: Global,
    /// How many senders have not ended.
    pub senders: AtomicU64,
    /// Whether the receiver has ended.
    pub receiver_has_ended: AtomicBool,
    /// Rings when an element is sent and when a sender ends.
    pub sent: Arc<Bell<W>, Global>,
    /// Rings when rooms become free and when the receiver ends.
    pub freed: Bell<NoWake>,
    /// How many rooms a sender takes at a time.
    pub quantum: usize,
    /// With how many rooms the receiver frees them, even if more elements are there.
    pub batch: usize,
    ghost takes_some: { 0 < quantum },
}

impl<T: Linked<Links<T>>, W: Wake + Drop> Shared<T, W> {
    /// Creates what is shared by a channel over this queue, of so many rooms, whose receiver listens to this bell, and
    /// may keep so many rooms.
    pub fn new(
        queue: Arc<MpscQueue<T>, Global>,
        sent: Arc<Bell<W>, Global>,
        alloc: Global,
        rooms: usize,
        kept: usize,
    ) -> Shared<T, W>
        ensures queue { result.queue ≡ queue }
        ensures some { 0 < result.quantum }
    {
        Shared {
            queue,
            alloc,
            senders: AtomicU64::new(0),
            receiver_has_ended: AtomicBool::new(false),
            sent,
            freed: Bell::new(NoWake),
            quantum: (rooms / SENDERS).clamp(1, MAX_QUANTUM),
            batch: kept.saturating_add(1),
        }
    }
}

/// Gives all rooms of a party to the pool, and returns whether it did. Only if others give rooms back at each of many
/// tries, the party keeps its rooms.
pub(crate) fn give_all_back<T: Linked<Links<T>>>(queue: &MpscQueue<T>, party: &mut Party<T>) -> bool
    requires { party.old.table ≡ queue.now.table }
    ensures nothing { DoesNothing party.old party.new }
    ensures gave { result ≡ true → (0 < party.old.rooms) × (party.new.rooms ≡ 0) }
{
    if party.rooms() == 0 {
        return false;
    }
    for _ in 0..TRIES {
        if queue.give_all_back(party) {
            return true;
        }
    }
    false
}
