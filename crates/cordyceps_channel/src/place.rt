//! Places in which one thread leaves a value for another, which then knows what is true of the value.
//!
//! A place is a table with one word and one slot. A handle that takes the value has the slot in hand until it leaves
//! another one there. [`Fits`] says what is true of each value, of the place's key. So whoever takes a value out knows
//! that of it, though no clause tells what a place holds.
ghost use Rattle.std.specs.Prelude.{◌≡◌, true, false, IfOk, MatchOption};

use atomic_table::{Play, Seat, Split, Table, TableRule};
use std::alloc::{AllocError, Global};
use std::marker::{Model, PhantomData};
use std::sync::Arc;

/// The number of the word that says whether a value is in the slot.
const WORD: usize = 0;

/// The word while no value was in the slot yet.
const NEW: u64 = 2;

/// The word while a value is in the slot.
const IN: u64 = 1;

/// The word while a handle has the slot in hand.
const OUT: u64 = 0;

/// What is true of each value in a place with a key.
pub(crate) trait Fits<K> {
    ghost fits: { K → Self → Type 0 };
}

/// The rule of a place's table, which each step keeps.
pub(crate) struct Rule;

impl<X: Fits<K>, K> TableRule<Option<X>, K, K> for Rule {
    ghost use Rattle.cordyceps_channel.specs.Places.{PlaceHolds};

    ghost holds = { PlaceHolds X.fits };

    ghost first = { λ key. key };
}

/// A compare-exchange by which a handle takes the slot with a value.
struct Takes<X, K> {
    of: PhantomData<(X, K)>,
}

impl<X: Fits<K>, K> Play<Option<X>, K> for Takes<X, K> {
    ghost use Rattle.cordyceps_channel.specs.Places.{Took};

    ghost then = { Took X.fits };
}

/// A compare-exchange by which the first handle takes the slot of a new place.
struct Opens<X, K> {
    of: PhantomData<(X, K)>,
}

impl<X: Fits<K>, K> Play<Option<X>, K> for Opens<X, K> {
    ghost use Rattle.cordyceps_channel.specs.Places.{opened};

    ghost then = { opened };
}

/// A store by which a handle gives the slot back with a value.
struct Gives<X, K> {
    of: PhantomData<(X, K)>,
}

impl<X: Fits<K>, K> Play<Option<X>, K> for Gives<X, K> {
    ghost use Rattle.cordyceps_channel.specs.Places.{gave};

    ghost then = { gave };
}

/// A split by which another handle is made, of the same key.
struct Copies;

impl<K> Split<K> for Copies {
    ghost use Rattle.cordyceps_channel.specs.Places.{same_key};

    ghost left = { same_key };

    ghost right = { same_key };
}

/// The table of a place.
type PlaceTable<X, K> = Table<Option<X>, K, K, Rule, Global>;

/// A handle of a place, by which its thread takes the value or leaves one.
///
/// A contract sees the key of the place, and whether this handle took the value out and has yet to leave one.
#[derive(Drop)]
pub(crate) struct Place<X: Fits<K> + Drop, K> {
    table: Arc<PlaceTable<X, K>, Global>,
    seat: Seat<Option<X>, K>,
    took: bool,
}

impl<X: Fits<K> + Drop, K> Model for Place<X, K> {
    ghost use Rattle.std.specs.Arc.{arc_value};
    ghost use Rattle.cordyceps_channel.specs.Places.{PlaceOf, IsHandle};

    ghost Value = { PlaceOf K };

    ghost view = { λ p. record { key = p.seat.me.0; took = p.took } };

    ghost invariant = { λ p.
        IsHandle (arc_value p.table).shared.table_id (arc_value p.table).shared.key p.seat.table_id p.seat.me p.took };
}

impl<X: Fits<K> + Drop, K> Place<X, K> {
    /// Creates a place without a value, for which this handle has yet to leave one.
    ///
    /// # Errors
    /// If memory is refused, it returns `AllocError`.
    pub fn new(alloc: Global, key: &K) -> Result<Place<X, K>, AllocError>
        ensures { IfOk result (λ place. place ≡ record { key = key.now; took = true }) }
    {
        let (table, mut seat) = Table::vacant(alloc, &[NEW], 1, key)?;
        let table: Arc<PlaceTable<X, K>, Global> = Arc::new(alloc, table)?;
        if table
            .shared
            .compare_exchange::<Opens<X, K>>(&mut seat, WORD, NEW, OUT)
            != NEW
        {
            return Err(AllocError);
        }
        Ok(Place {
            table,
            seat,
            took: true,
        })
    }

    /// Returns another handle of the place.
    ///
    /// # Errors
    /// If there are as many handles as an `Arc` can count, it returns `AllocError`.
    pub fn another(&mut self) -> Result<Place<X, K>, AllocError>
        ensures same { self.new ≡ self.old }
        ensures made { IfOk result (λ place. place ≡ record { key = self.old.key; took = false }) }
    {
        let table = Arc::try_clone(&self.table)?;
        let seat = self.table.shared.split_seat::<Copies>(&mut self.seat);
        Ok(Place {
            table,
            seat,
            took: false,
        })
    }

    /// Takes the value out, if one is there. Requires that this handle has not taken one.
    pub fn take(&mut self) -> Option<X>
        requires { self.old.took ≡ false }
        ensures { MatchOption result (self.new ≡ self.old)
            (λ value. (self.new ≡ record self.old { took = true }) × X.fits self.old.key value) }
    {
        let shared = &self.table.shared;
        if shared.compare_exchange::<Takes<X, K>>(&mut self.seat, WORD, IN, OUT) != IN {
            return None;
        }
        let value = shared.exchange(&mut self.seat, 0, None);
        self.took = true;
        value
    }

    /// Returns whether a value was there at one moment of the call.
    pub fn is_filled(&self) -> bool {
        self.table.shared.peek(WORD) == IN
    }

    /// Leaves a value. Requires that this handle has taken one, and that the value fits the key.
    pub fn put(&mut self, value: X)
        requires took { self.old.took ≡ true }
        requires fits { X.fits self.old.key value }
        ensures { self.new ≡ record self.old { took = false } }
    {
        let shared = &self.table.shared;
        shared.exchange(&mut self.seat, 0, Some(value));
        shared.store::<Gives<X, K>>(&mut self.seat, WORD, IN);
        self.took = false;
    }
}
