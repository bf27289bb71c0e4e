//! Cursors that move from spot to spot.
ghost use Rattle.std.specs.Prelude.{◌≡◌, IfSome, Some, None, MatchOption, ⊤};
ghost use denote.RawPtr.{Ptr};
ghost use Rattle.cordyceps_base.specs.BySpot.{HasSpot, HoldsAt};
ghost use Rattle.cordyceps_stable.specs.Walk.{IsOn, IsBack};

use crate::stable_list::{Spot, first_spot, last_spot, spot_of};
use cordyceps_base::double_chain::DoubleChain;
use std::alloc::AllocError;
use std::marker::Model;

/// A cursor that reads a stable list or a stable sorted list. A contract sees the nodes and the spot that the cursor is
/// at.
///
/// It is at an element, or at the null place, which is after the last element and before the first.
///
/// # Examples
/// From `tour::take_least` of `cordyceps_uses`:
/// ```
/// let mut cursor = jobs.cursor_front();
/// // This is the spot of the best job that the cursor has passed.
/// let mut best = cursor.spot()?;
/// cursor.move_next();
/// while let Some(at) = cursor.spot() {
///     if jobs.get(at).rank < jobs.get(best).rank {
///         best = at;
///     }
///     cursor.move_next();
/// }
/// Some(jobs.remove(best))
/// ```
#[derive(Drop)]
pub struct SpotCursor<'a, T> {
    chain: &'a DoubleChain<T>,
    at: Option<Spot>,
}

impl<'a, T> Model for SpotCursor<'a, T> {
    ghost use Rattle.std.specs.Prelude.{IfSome};
    ghost use Rattle.cordyceps_base.specs.BySpot.{HasSpot};
    ghost use Rattle.cordyceps_stable.specs.Walk.{Place};

    ghost Value = { Place T };

    ghost view = { λ c. record { nodes = c.chain.now; spot = c.at } };

    ghost invariant = { λ c. IfSome c.at (λ p. HasSpot c.chain.now p) };
}

impl<'a, T> Clone for SpotCursor<'a, T> {
    ghost is_clone = { λ c again. again ≡ c };

    ghost is_infallible = { λ _. ⊤ };

    /// Returns a second cursor at the same place. It allocates nothing, and never returns an error.
    ///
    /// # Complexity
    /// O(1).
    fn clone(&self) -> Result<SpotCursor<'a, T>, AllocError> {
        Ok(SpotCursor {
            chain: self.chain,
            at: self.at,
        })
    }
}

impl<'a, T> SpotCursor<'a, T> {
    /// Returns a cursor at a spot of a chain, or at the null place. Requires that the spot is valid.
    pub(crate) fn new(chain: &'a DoubleChain<T>, at: Option<Spot>) -> SpotCursor<'a, T>
        requires { IfSome at (λ p. HasSpot chain.now p) }
        ensures { result ≡ record { nodes = chain.now; spot = at } }
    {
        SpotCursor { chain, at }
    }

    /// Returns the spot after the cursor's, or `None` for the null place.
    fn place_after(&self) -> Option<Spot>
        ensures place { IsOn self.now.nodes self.now.spot result }
        ensures there { IfSome result (λ p. HasSpot self.now.nodes p) }
    {
        match self.at {
            Some(at) => spot_of(self.chain.next_at(at.address)),
            None => first_spot(self.chain),
        }
    }

    /// Returns the spot before the cursor's, or `None` for the null place.
    fn place_before(&self) -> Option<Spot>
        ensures place { IsBack self.now.nodes self.now.spot result }
        ensures there { IfSome result (λ p. HasSpot self.now.nodes p) }
    {
        match self.at {
            Some(at) => spot_of(self.chain.prev_at(at.address)),
            None => last_spot(self.chain),
        }
    }

    /// Moves the cursor to the next element: from the last element to the null place, and from there to the first
    /// element.
    ///
    /// # Complexity
    /// O(1).
    ///
    /// # Examples
    /// From `tour::take_least` of `cordyceps_uses`:
    /// ```
    /// let mut cursor = jobs.cursor_front();
    /// // This is the spot of the best job that the cursor has passed.
    /// let mut best = cursor.spot()?;
    /// cursor.move_next();
    /// while let Some(at) = cursor.spot() {
    ///     if jobs.get(at).rank < jobs.get(best).rank {
    ///         best = at;
    ///     }
    ///     cursor.move_next();
    /// }
    /// ```
    pub fn move_next(&mut self)
        ensures nodes { self.new.nodes ≡ self.old.nodes }
        ensures moved { IsOn self.old.nodes self.old.spot self.new.spot }
    {
        let at = self.place_after();
        *self = SpotCursor::new(self.chain, at);
    }

    /// Moves the cursor to the previous element: from the first element to the null place, and from there to the last
    /// element.
    ///
    /// # Complexity
    /// O(1).
    pub fn move_prev(&mut self)
        ensures nodes { self.new.nodes ≡ self.old.nodes }
        ensures moved { IsBack self.old.nodes self.old.spot self.new.spot }
    {
        let at = self.place_before();
        *self = SpotCursor::new(self.chain, at);
    }

    /// Returns the spot of the cursor's element, or `None` at the null place.
    ///
    /// # Complexity
    /// O(1).
    ///
    /// # Examples
    /// From `tour::take_least` of `cordyceps_uses`:
    /// ```
    /// let mut cursor = jobs.cursor_front();
    /// // This is the spot of the best job that the cursor has passed.
    /// let mut best = cursor.spot()?;
    /// cursor.move_next();
    /// while let Some(at) = cursor.spot() {
    ///     if jobs.get(at).rank < jobs.get(best).rank {
    ///         best = at;
    ///     }
    ///     cursor.move_next();
    /// }
    /// ```
    pub fn spot(&self) -> Option<Spot>
        ensures spot { result ≡ self.now.spot }
        ensures there { IfSome result (λ p. HasSpot self.now.nodes p) }
    {
        self.at
    }

    /// Returns a reference to the value at the cursor, or `None` at the null place.
    ///
    /// # Complexity
    /// O(1).
    pub fn current(&self) -> Option<&'a T>
        ensures { MatchOption result (self.now.spot ≡ None)
            (λ v. (p : Ptr) × (self.now.spot ≡ Some p) × HoldsAt self.now.nodes p v.now) }
    {
        match self.at {
            Some(at) => Some(self.chain.get_at(at.address)),
            None => None,
        }
    }
}
