//! Laws of iterators that return mutable references.
ghost use Rattle.std.specs.Prelude.{◌≡◌, ◌-◌, ◌++◌, length, take, drop, reverse, IfOk, OnOk};
ghost use Rattle.std.specs.Iterator.{YieldsFirst, YieldsLast};
ghost use Rattle.cordyceps_base.specs.Element.{values};
ghost use Rattle.cordyceps_list.specs.IterMut.{elements, to_lend, lender};
ghost use Rattle.cordyceps_list.specs.Turns.{parts_by};

use crate::iter_mut::IterMut;
use crate::list::{Links, List};
use cordyceps_base::linked::Linked;
use std::alloc::{AllocError, Global};

/// Returns a copy of the value that `next` returns.
fn copied_next<T: Linked<Links<T>> + Copy>(left: &mut IterMut<'_, T>) -> Option<T>
    ensures same_reference { lender left.new ≡ lender left.old }
    ensures elements { elements left.new ≡ elements left.old }
    ensures first { YieldsFirst to_lend left.old result left.new }
{
    let Some(value) = left.next() else {
        return None;
    };
    Some(*value)
}

/// Returns a copy of the value that `next_back` returns.
fn copied_next_back<T: Linked<Links<T>> + Copy>(left: &mut IterMut<'_, T>) -> Option<T>
    ensures same_reference { lender left.new ≡ lender left.old }
    ensures elements { elements left.new ≡ elements left.old }
    ensures last { YieldsLast to_lend left.old result left.new }
{
    let Some(value) = left.next_back() else {
        return None;
    };
    Some(*value)
}

/// Calls `next`, and appends a copy of its result to those from the front.
fn copy_first<T: Linked<Links<T>> + Copy>(
    left: &mut IterMut<'_, T>,
    firsts: &mut Vec<T>,
) -> Result<(), AllocError>
    ensures same_reference { lender left.new ≡ lender left.old }
    ensures elements { elements left.new ≡ elements left.old }
    ensures firsts { OnOk result (firsts.new.items ≡ firsts.old.items ++ take 1 (to_lend left.old)) }
    ensures left { to_lend left.new ≡ drop 1 (to_lend left.old) }
{
    if let Some(value) = copied_next(left) {
        firsts.push(value)?;
    }
    Ok(())
}

/// Calls `next_back`, and appends a copy of its result to those from the back.
fn copy_last<T: Linked<Links<T>> + Copy>(
    left: &mut IterMut<'_, T>,
    lasts: &mut Vec<T>,
) -> Result<(), AllocError>
    ensures same_reference { lender left.new ≡ lender left.old }
    ensures elements { elements left.new ≡ elements left.old }
    ensures lasts { OnOk result (reverse lasts.new.items
        ≡ drop (length (to_lend left.old) - 1) (to_lend left.old) ++ reverse lasts.old.items) }
    ensures left { to_lend left.new ≡ take (length (to_lend left.old) - 1) (to_lend left.old) }
{
    if let Some(value) = copied_next_back(left) {
        lasts.push(value)?;
    }
    Ok(())
}

/// Copies the values from both ends in turn: `true` calls `next`, and `false` calls `next_back`. The values that are
/// left then follow from the front. Returns those from the front, in order, and those from the back, the last one
/// first.
///
/// The first and the second reversed are together all values, each once and in order.
///
/// # Errors
/// If memory is refused, it returns `AllocError`.
///
/// # Complexity
/// O(k + n), for k turns and n elements, with amortized O(1) for each value that it collects.
pub fn copy_from_both_ends<T: Linked<Links<T>> + Copy>(
    alloc: Global,
    list: &mut List<T>,
    turns: &[bool],
) -> Result<(Vec<T>, Vec<T>), AllocError>
    ensures turns { let parts = parts_by turns.now (values list.old) in
        IfOk result (λ copies. (copies.0.items ≡ parts.firsts ++ parts.left)
        × (reverse copies.1.items ≡ parts.lasts)) }
    ensures once { IfOk result (λ copies. copies.0.items ++ reverse copies.1.items ≡ values list.old) }
    ensures kept { list.new ≡ list.old }
{
    let mut left = list.iter_mut();
    let mut firsts = Vec::new(alloc);
    let mut lasts = Vec::new(alloc);
    for turn in turns {
        if *turn {
            copy_first(&mut left, &mut firsts)?;
        } else {
            copy_last(&mut left, &mut lasts)?;
        }
    }
    for _ in 0..left.len() {
        copy_first(&mut left, &mut firsts)?;
    }
    Ok((firsts, lasts))
}
