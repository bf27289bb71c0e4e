//! How a channel is created: the queue, the register of its senders' parties, and its two sides.
ghost use Rattle.std.specs.Prelude.{◌≡◌, ◌≤◌, ◌+◌, IfOk};
ghost use Rattle.cordyceps_channel.specs.Channels.{IsChannel, HaveChannel, IsEmptyChannel, IsNewSender, AreParties, rooms_under};

use crate::bell::Bell;
use crate::place::Place;
use crate::receiver::Receiver;
use crate::register::{Register, RegisterPlace};
use crate::sender::Sender;
use crate::shared::Shared;
use crate::taker::Taker;
use crate::wake::{NoWake, Wake};
use cordyceps_base::linked::Linked;
use cordyceps_base::mpsc_queue::Links;
use cordyceps_base::shared::MAX_ROOMS;
use cordyceps_queue::mpsc_queue::{MpscQueue, Party};
use std::alloc::{AllocError, Global};
use std::marker::Model;
use std::snapshot::Snapshot;
use std::sync::Arc;

/// The queue of a new channel, the party of its register, and that of its receiver.
#[derive(Drop)]
struct Parts<T: Linked<Links<T>>> {
    queue: MpscQueue<T>,
    party: Party<T>,
    receivers: Party<T>,
}

/// Creates a queue whose rooms are all in the pool, and splits the receiver's party off its party.
fn make_parts<T: Linked<Links<T>>>(alloc: Global, rooms: usize) -> Result<Parts<T>, AllocError>
    requires { rooms ≤ MAX_ROOMS }
    ensures { IfOk result (λ made. AreParties rooms made.queue.table made.party made.receivers) }
{
    let (queue, mut party) = MpscQueue::new(alloc, rooms)?;
    // The pool of a new queue has no rooms, so it takes these.
    if !queue.give_back(&mut party, rooms) {
        return Err(AllocError);
    }
    let receivers = queue.split(&mut party, 0);
    Ok(Parts {
        queue,
        party,
        receivers,
    })
}

/// Creates a channel with `rooms` rooms, and returns its first sender and its receiver. Requires that `rooms` is at
/// most `MAX_ROOMS`.
///
/// As many elements can wait to be received as the channel has rooms, and up to an eighth more: the queue has as many
/// rooms more, which the receiver may keep until a try finds no element. A sender takes up to one in 256 rooms at a
/// time, and keeps them until it has used them or ends. A channel without rooms takes no element.
///
/// # Errors
/// If memory is refused, it returns `AllocError`, and nothing is kept.
///
/// # Complexity
/// O(`rooms`).
pub fn channel<T: Linked<Links<T>>>(
    alloc: Global,
    rooms: usize,
) -> Result<(Sender<T>, Receiver<T>), AllocError>
    requires { rooms ≤ MAX_ROOMS }
    ensures { IfOk result (λ ends. IsChannel rooms ends.0 ends.1) }
{
    let bell = Arc::new(alloc, Bell::new(NoWake))?;
    channel_at(bell, alloc, rooms)
}

/// Creates a channel as `channel` does, whose receiver can be waited for by an event loop: once it is armed
/// (`Receiver::arm`), the next sender that sends or ends calls the waker. Requires that `rooms` is at most `MAX_ROOMS`.
///
/// # Errors
/// If memory is refused, it returns `AllocError`, and nothing is kept.
///
/// # Complexity
/// O(`rooms`).
pub fn channel_with_waker<T: Linked<Links<T>>, W: Wake + Drop>(
    alloc: Global,
    rooms: usize,
    waker: W,
) -> Result<(Sender<T, W>, Receiver<T, W>), AllocError>
    requires { rooms ≤ MAX_ROOMS }
    ensures { IfOk result (λ ends. IsChannel rooms ends.0 ends.1) }
{
    let bell = Arc::new(alloc, Bell::new(waker))?;
    channel_at(bell, alloc, rooms)
}

/// Returns how many rooms the queue of a channel with this many rooms has.
fn rooms_of_queue(rooms: usize) -> usize
    requires { rooms ≤ MAX_ROOMS }
    ensures more { result ≡ rooms_under rooms }
    ensures few { result ≤ MAX_ROOMS }
{
    (rooms + rooms / 8).min(MAX_ROOMS)
}

/// A new channel without senders, whose register nobody else has yet.
#[derive(Drop)]
struct Fresh<T: Linked<Links<T>>, W: Wake + Drop> {
    shared: Arc<Shared<T, W>, Global>,
    place: RegisterPlace<T>,
    register: Register<T>,
    taker: Taker<T>,
}

impl<T: Linked<Links<T>>, W: Wake + Drop> Model for Fresh<T, W> {
    ghost use Rattle.std.specs.Arc.{arc_value};
    ghost use Rattle.std.specs.Prelude.{length};
    ghost use Rattle.cordyceps_channel.specs.Channels.{FreshOf, IsFresh};

    ghost Value = { FreshOf T.Handle };

    ghost view = { λ f. record {
      table = (arc_value (arc_value f.shared).queue).table;
      senders = length f.register.homes.items;
      receiver = f.taker.party;
    } };

    ghost invariant = { λ f. IsFresh (arc_value (arc_value f.shared).queue).table f.place f.register.party
        f.register.homes.items f.taker.party };
}

impl<T: Linked<Links<T>>, W: Wake + Drop> Fresh<T, W> {
    /// Creates a channel whose receiver listens to this bell.
    fn new(
        bell: Arc<Bell<W>, Global>,
        alloc: Global,
        rooms: usize,
    ) -> Result<Fresh<T, W>, AllocError>
        requires { rooms ≤ MAX_ROOMS }
        ensures { IfOk result (λ fresh. IsEmptyChannel rooms fresh) }
    {
        let total = rooms_of_queue(rooms);
        let Parts {
            queue,
            party,
            receivers,
        } = make_parts(alloc, total)?;
        let key = Snapshot::of(&party);
        let place = Place::new(alloc, &key)?;
        let register = Register {
            party,
            homes: Vec::new(alloc),
        };
        let queue = Arc::new(alloc, queue)?;
        let taker = Taker::new(Arc::try_clone(&queue)?, receivers);
        let kept = total.saturating_sub(rooms);
        let shared = Arc::new(alloc, Shared::new(queue, bell, alloc, rooms, kept))?;
        Ok(Fresh {
            shared,
            place,
            register,
            taker,
        })
    }

    /// Makes one more sender.
    fn add_sender(&mut self) -> Result<Sender<T, W>, AllocError>
        ensures { IfOk result (λ sender. IsNewSender self.old.table self.old.senders sender
            × (self.new ≡ record self.old { senders = self.old.senders + 1 })) }
    {
        let shared = Arc::try_clone(&self.shared)?;
        let place = self.place.another()?;
        let opened = self.register.split(shared.alloc, &shared.queue)?;
        Ok(Sender::of(shared, place, opened))
    }

    /// Leaves the register in its place, and makes the receiver.
    fn into_receiver(self) -> Receiver<T, W>
        ensures receiver { result ≡ self.receiver }
        ensures table { result.table ≡ self.table }
    {
        let Fresh {
            shared,
            mut place,
            register,
            taker,
        } = self;
        place.put(register);
        Receiver::of(shared, place, taker)
    }
}

/// Creates a channel whose receiver listens to this bell.
pub(crate) fn channel_at<T: Linked<Links<T>>, W: Wake + Drop>(
    bell: Arc<Bell<W>, Global>,
    alloc: Global,
    rooms: usize,
) -> Result<(Sender<T, W>, Receiver<T, W>), AllocError>
    requires { rooms ≤ MAX_ROOMS }
    ensures { IfOk result (λ ends. IsChannel rooms ends.0 ends.1) }
{
    let mut fresh = Fresh::new(bell, alloc, rooms)?;
    let sender = fresh.add_sender()?;
    Ok((sender, fresh.into_receiver()))
}

/// Creates a channel with `rooms` rooms, as `channel` does, and returns `count` senders and its receiver. No two of the
/// senders act under the same name, so `laws::receive_all_of` can say what all of them have sent. Requires that `rooms` is
/// at most `MAX_ROOMS`.
///
/// # Errors
/// If memory is refused, it returns `AllocError`, and nothing is kept.
///
/// # Complexity
/// O(`rooms` + `count`).
pub fn channel_with_senders<T: Linked<Links<T>>>(
    alloc: Global,
    rooms: usize,
    count: usize,
) -> Result<(Vec<Sender<T>>, Receiver<T>), AllocError>
    requires { rooms ≤ MAX_ROOMS }
    ensures { IfOk result (λ ends. HaveChannel rooms count ends.0.items ends.1) }
{
    let bell = Arc::new(alloc, Bell::new(NoWake))?;
    let mut fresh = Fresh::new(bell, alloc, rooms)?;
    let mut senders = Vec::new(alloc);
    for _ in 0..count {
        let sender = fresh.add_sender()?;
        senders.push(sender)?;
    }
    Ok((senders, fresh.into_receiver()))
}
