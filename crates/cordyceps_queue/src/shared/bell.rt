//! The bell of a queue, for which a party sleeps until another rings it.
//!
//! ```text
//! BELL    0    nobody has rung since it was last cleared
//!         1    somebody has
//!         2    nobody has, and a party sleeps
//! ```
ghost use Rattle.std.specs.Prelude.{◌≡◌, ◌≢◌, [], ◌∷◌, true};
ghost use Rattle.cordyceps_shared.specs.Histories.{plain};
ghost use Rattle.cordyceps_shared.specs.Slots.{view};
ghost use Rattle.cordyceps_queue.specs.declared.cores.stage.Stage.TheVariants.{Rest};
ghost use Rattle.cordyceps_queue.specs.Bells.{IsQuiet};
ghost use Rattle.cordyceps_queue.specs.History.{Event};
ghost use Rattle.cordyceps_queue.specs.Shared.Bell.{Hears, RingsBell, ClearsBell, Sleeps};
ghost use Rattle.cordyceps_queue.specs.Shared.Parts.{IsSeatOf};
ghost use Rattle.cordyceps_queue.specs.Shared.View.{name};

use crate::shared::calls::{MpscQueue, Party};
use crate::shared::plays::{Clear, Doze, Listen, Ring};
use crate::shared::table::{PartySeat, Words};
use cordyceps_base::linked::Linked;
use cordyceps_base::mpsc_queue::Links;
use std::sync::Wait;

/// The index of the word of the bell. It has a cache line of its own, the second of the pair whose first is that of
/// `RIGHT`.
pub(crate) const BELL: usize = 40;

/// The word of a bell that nobody has rung since it was last cleared.
const QUIET: u64 = 0;

/// The word of a bell that somebody has rung.
const RUNG: u64 = 1;

/// The word of a bell that nobody has rung, and for which a party sleeps.
const ASLEEP: u64 = 2;

/// Rings the bell, and wakes all that sleep for it.
pub(crate) fn ring<E: Drop>(words: &Words<E>, seat: &mut PartySeat<E>)
    requires table { IsSeatOf seat.old.table_id words.now.table_id }
    requires rest { ((view seat.old.me).stage ≡ Rest) × ((view seat.old.me).known.share ≢ []) }
    ensures table { seat.new.table_id ≡ seat.old.table_id }
    ensures hears { Hears (Event.Ring (name (view seat.old.me)) ∷ []) seat.old.me seat.new.me }
{
    if words.load::<Listen>(seat, BELL) == RUNG {
        return;
    }
    if words.swap::<Ring>(seat, BELL, RUNG) == ASLEEP {
        words.wake_all(BELL);
    }
}

/// Clears the bell. If a party sleeps for it, the word still says so.
pub(crate) fn clear<E: Drop>(words: &Words<E>, seat: &mut PartySeat<E>)
    requires table { IsSeatOf seat.old.table_id words.now.table_id }
    requires named { (view seat.old.me).known.share ≢ [] }
    ensures table { seat.new.table_id ≡ seat.old.table_id }
    ensures hears { Hears (Event.Clear (name (view seat.old.me)) ∷ []) seat.old.me seat.new.me }
{
    words.compare_exchange::<Clear>(seat, BELL, RUNG, QUIET);
}

/// Sleeps for the bell, and returns `true`. If it is rung already, returns `false` at once.
pub(crate) fn sleep<E: Drop, R: Wait>(words: &Words<E>, rt: &R, seat: &mut PartySeat<E>) -> bool
    requires table { IsSeatOf seat.old.table_id words.now.table_id }
    requires named { (view seat.old.me).known.share ≢ [] }
    ensures table { seat.new.table_id ≡ seat.old.table_id }
    ensures hears { Hears [] seat.old.me seat.new.me }
    ensures quiet { result ≡ true → IsQuiet (plain (view seat.new.me).known.seen) }
{
    if words.compare_exchange::<Doze>(seat, BELL, QUIET, ASLEEP) == RUNG {
        return false;
    }
    words.park(rt, BELL, ASLEEP as u32);
    true
}

impl<T: Linked<Links<T>>> MpscQueue<T> {
    /// Rings the bell, which wakes all parties that sleep for it. A producer rings after it has put its elements in.
    ///
    /// If the bell is rung already, it is one load.
    ///
    /// # Complexity
    /// O(1): one load, and a swap if the bell was not rung. If a party sleeps, it also calls the kernel.
    ///
    /// # Waits
    /// Never.
    pub fn ring(&self, party: &mut Party<T>)
        requires { party.old.table ≡ self.now.table }
        ensures { RingsBell party.old party.new }
    {
        ring(&self.rooms.shared, &mut party.seat);
    }

    /// Clears the bell, so that a later `sleep` sleeps unless somebody rings in between.
    ///
    /// A party that waits for elements clears the bell, tries to dequeue, and sleeps if it found none. So a producer
    /// that it missed has yet to ring: `laws::sleeper_is_owed` of `cordyceps_queue`. If it cleared the bell after its
    /// try, it could lose that ring.
    ///
    /// # Complexity
    /// O(1): one compare-exchange.
    ///
    /// # Waits
    /// Never.
    pub fn clear_bell(&self, party: &mut Party<T>)
        requires { party.old.table ≡ self.now.table }
        ensures { ClearsBell party.old party.new }
    {
        clear(&self.rooms.shared, &mut party.seat);
    }

    /// Sleeps until somebody rings the bell, and returns `true`. It may also wake for no reason. If the bell has been
    /// rung since it was last cleared, it does not sleep, and returns `false`.
    ///
    /// What the party has seen afterwards is what had happened when it went to sleep.
    ///
    /// # Complexity
    /// O(1): one compare-exchange. If it sleeps, it also calls the kernel.
    ///
    /// # Waits
    /// For a ring.
    pub fn sleep<R: Wait>(&self, rt: &R, party: &mut Party<T>) -> bool
        requires { party.old.table ≡ self.now.table }
        ensures { Sleeps result party.old party.new }
    {
        sleep(&self.rooms.shared, rt, &mut party.seat)
    }
}
