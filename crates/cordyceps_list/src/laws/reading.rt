//! Laws of cursors and iterators that read.
ghost use Rattle.std.specs.Prelude.{◌≡◌, ◌+◌, ◌-◌, ◌*◌, ◌%◌, ◌++◌, length, take, drop, map, reverse, IfOk, OnOk};
ghost use Rattle.cordyceps_base.specs.Element.{values};
ghost use Rattle.cordyceps_list.specs.Turns.{parts_by};

use crate::cursor::Cursor;
use crate::iter::Iter;
use crate::list::{Links, List};
use cordyceps_base::linked::Linked;
use std::alloc::{AllocError, Global};

/// Calls `next`, and appends its result to those from the front.
fn read_first<'a, T: Linked<Links<T>>>(
    left: &mut Iter<'a, T>,
    firsts: &mut Vec<&'a T>,
) -> Result<(), AllocError>
    ensures firsts { OnOk result
        (map (λ v. v.now) firsts.new.items ≡ map (λ v. v.now) firsts.old.items ++ take 1 left.old) }
    ensures left { left.new ≡ drop 1 left.old }
{
    if let Some(value) = left.next() {
        firsts.push(value)?;
    }
    Ok(())
}

/// Calls `next_back`, and appends its result to those from the back.
fn read_last<'a, T: Linked<Links<T>>>(
    left: &mut Iter<'a, T>,
    lasts: &mut Vec<&'a T>,
) -> Result<(), AllocError>
    ensures lasts { OnOk result (reverse (map (λ v. v.now) lasts.new.items)
        ≡ drop (length left.old - 1) left.old ++ reverse (map (λ v. v.now) lasts.old.items)) }
    ensures left { left.new ≡ take (length left.old - 1) left.old }
{
    if let Some(value) = left.next_back() {
        lasts.push(value)?;
    }
    Ok(())
}

/// Reads the values from both ends in turn: `true` calls `next`, and `false` calls `next_back`. The values that are
/// left then follow from the front. Returns those from the front, in order, and those from the back, the last one
/// first.
///
/// The first and the second reversed are together all values, each once and in order.
///
/// # Errors
/// If memory is refused, it returns `AllocError`.
///
/// # Complexity
/// O(k + n), for k turns and n elements, with amortized O(1) for each value that it collects.
pub fn read_from_both_ends<'a, T: Linked<Links<T>>>(
    alloc: Global,
    list: &'a List<T>,
    turns: &[bool],
) -> Result<(Vec<&'a T>, Vec<&'a T>), AllocError>
    ensures turns { let parts = parts_by turns.now (values list.now) in
        IfOk result (λ read. (map (λ v. v.now) read.0.items ≡ parts.firsts ++ parts.left)
        × (reverse (map (λ v. v.now) read.1.items) ≡ parts.lasts)) }
    ensures once { IfOk result (λ read. map (λ v. v.now) read.0.items ++ reverse (map (λ v. v.now) read.1.items)
        ≡ values list.now) }
{
    let mut left = list.iter();
    let mut firsts = Vec::new(alloc);
    let mut lasts = Vec::new(alloc);
    for turn in turns {
        if *turn {
            read_first(&mut left, &mut firsts)?;
        } else {
            read_last(&mut left, &mut lasts)?;
        }
    }
    let more = left.len();
    for _ in 0..more {
        read_first(&mut left, &mut firsts)?;
    }
    Ok((firsts, lasts))
}

impl<'a, T: Linked<Links<T>>> Cursor<'a, T> {
    /// Moves the cursor to the next place `moves` times. One move more than there are elements leads back to the same
    /// place.
    ///
    /// # Complexity
    /// O(`moves`).
    pub fn go_on(&mut self, moves: usize)
        ensures elements { self.new.elements ≡ self.old.elements }
        ensures place { self.new.place ≡ (self.old.place + moves) % (length self.old.elements + 1) }
        ensures round { moves ≡ length self.old.elements + 1 → self.new ≡ self.old }
    {
        prove!(self.place() <= self.len());
        for _ in 0..moves {
            self.move_next();
        }
    }

    /// Moves the cursor to the previous place `moves` times. This leads to the same place as `moves` times the length
    /// moves to the next place. One move more than there are elements leads back to the same place.
    ///
    /// # Complexity
    /// O(`moves`).
    pub fn go_back(&mut self, moves: usize)
        ensures elements { self.new.elements ≡ self.old.elements }
        ensures place { self.new.place
            ≡ (self.old.place + moves * length self.old.elements) % (length self.old.elements + 1) }
        ensures round { moves ≡ length self.old.elements + 1 → self.new ≡ self.old }
    {
        prove!(self.place() <= self.len());
        for _ in 0..moves {
            self.move_prev();
        }
    }
}
