//! The register of a channel: where each sender's party comes back to when the sender ends.
//!
//! A name of a party is a word of bits, and splitting a party gives half of its first name away. The receiver's party
//! has the name 1, and the register's the name 0, from which those of senders are split off, one after the other:
//!
//! ```text
//! whole ─┬─ 1    the receiver
//!        └─ 0 ─┬─ 01    the first sender, whose place is homes[0]
//!              └─ 00 ─┬─ 001    the second sender, whose place is homes[1]
//!                     └─ 000    the register
//! ```
//!
//! If all senders have ended, the register's party absorbs theirs, the last first: 000 and 001 are 00, 00 and 01 are 0.
//! The receiver's party absorbs that one, and is whole. No count of senders is trusted for it: a party in each place
//! shows that its sender has ended. A new sender takes over the party and the place of one that has ended, so there are
//! as many places as there were senders at a time.
ghost use Rattle.std.specs.Prelude.{◌≡◌, ◌+◌, [], length, true, IfOk, IfSome};
ghost use Rattle.cordyceps_channel.specs.Channels.{IsRegister, IsOpened, left_after, sent};

use crate::place::{Fits, Place};
use cordyceps_base::linked::Linked;
use cordyceps_base::mpsc_queue::Links;
use cordyceps_queue::mpsc_queue::{MpscQueue, Party};
use std::alloc::{AllocError, Global};
use std::snapshot::Snapshot;

/// The key of a place: the party of which the one in the place was split off.
pub(crate) type Key<T> = Snapshot<Party<T>>;

/// The place to which the party of a sender comes back.
pub(crate) type Home<T> = Place<Party<T>, Key<T>>;

impl<T: Linked<Links<T>>> Fits<Key<T>> for Party<T> {
    ghost use Rattle.cordyceps_channel.specs.Channels.{ComesBack};

    ghost fits = { λ key party. ComesBack key.value party };
}

/// The party from which those of senders are split off, and the place of each of these.
///
/// A sender's party is half of the share that the register's party had. So if each comes back, in the reverse order,
/// the register's party has its whole share again.
#[derive(Drop)]
pub(crate) struct Register<T: Linked<Links<T>>> {
    pub party: Party<T>,
    pub homes: Vec<Home<T>>,
}

impl<T: Linked<Links<T>>> Fits<Key<T>> for Register<T> {
    ghost use Rattle.cordyceps_channel.specs.Channels.{IsRegister};

    ghost fits = { λ key register. IsRegister key.value.table register.party register.homes.items };
}

/// The place of a channel's register. Who takes the register out has it alone.
pub(crate) type RegisterPlace<T> = Place<Register<T>, Key<T>>;

/// A party for a new sender, and the place that it comes back to.
#[derive(Drop)]
pub(crate) struct Opened<T: Linked<Links<T>>> {
    /// The number of the place.
    pub number: usize,
    pub party: Party<T>,
    pub home: Home<T>,
}

impl<T: Linked<Links<T>>> Register<T> {
    /// Returns the party of a sender that has ended, for a new one, if there is one.
    fn reopen(&mut self) -> Result<Option<Opened<T>>, AllocError>
        requires { IsRegister self.old.party.table self.old.party self.old.homes.items }
        ensures party { self.new.party ≡ self.old.party }
        ensures homes { self.new.homes.items ≡ self.old.homes.items }
        ensures opened { IfOk result (λ some. IfSome some (λ found.
            IsOpened self.old.party.table found.number found.party found.home)) }
    {
        for i in 0..self.homes.len() {
            if self.homes[i].is_filled() {
                let mut home = self.homes[i].another()?;
                if let Some(party) = home.take() {
                    return Ok(Some(Opened {
                        number: i,
                        party,
                        home,
                    }));
                }
            }
        }
        Ok(None)
    }

    /// Splits a new party off that of the register. It has sent nothing.
    pub fn split(&mut self, alloc: Global, queue: &MpscQueue<T>) -> Result<Opened<T>, AllocError>
        requires { IsRegister queue.now.table self.old.party self.old.homes.items }
        ensures register { IsRegister queue.now.table self.new.party self.new.homes.items }
        ensures opened { IfOk result (λ found. IsOpened queue.now.table found.number found.party found.home) }
        ensures unsent { IfOk result (λ found. sent found.party ≡ []) }
        ensures number { IfOk result (λ found. found.number ≡ length self.old.homes.items) }
        ensures more { IfOk result (λ found. length self.new.homes.items ≡ found.number + 1) }
    {
        let number = self.homes.len();
        self.homes.try_reserve(1)?;
        let key = Snapshot::of(&self.party);
        let mut home = Place::new(alloc, &key)?;
        let kept = home.another()?;
        self.homes.push_reserved(kept);
        let party = queue.split(&mut self.party, 0);
        Ok(Opened {
            number,
            party,
            home,
        })
    }

    /// Returns a party for a new sender.
    ///
    /// # Errors
    /// If memory is refused, it returns `AllocError`, and the register is unchanged.
    pub fn open(&mut self, alloc: Global, queue: &MpscQueue<T>) -> Result<Opened<T>, AllocError>
        requires { IsRegister queue.now.table self.old.party self.old.homes.items }
        ensures register { IsRegister queue.now.table self.new.party self.new.homes.items }
        ensures opened { IfOk result (λ found. IsOpened queue.now.table found.number found.party found.home) }
    {
        if let Some(opened) = self.reopen()? {
            return Ok(opened);
        }
        self.split(alloc, queue)
    }

    /// Absorbs parties that came back, the last first, until one has not, and returns whether all have.
    pub fn collect(&mut self, queue: &MpscQueue<T>) -> bool
        requires { IsRegister queue.now.table self.old.party self.old.homes.items }
        ensures register { IsRegister queue.now.table self.new.party self.new.homes.items }
        ensures all { result ≡ true → self.new.party.share ≡ left_after 0 }
    {
        while let Some(mut home) = self.homes.pop() {
            match home.take() {
                Some(party) => queue.absorb(&mut self.party, party),
                None => {
                    self.homes.push_reserved(home);
                    return false;
                }
            }
        }
        true
    }
}
