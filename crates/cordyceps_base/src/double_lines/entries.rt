//! The iterator over the nodes of a table of lines.
ghost use Rattle.std.specs.Prelude.{◌≡◌, [], ⊤};
ghost use Rattle.std.specs.Iterator.{YieldsFirstBy, item_count};
ghost use denote.RawPtr.{null_ptr};
ghost use Rattle.cordyceps_base.specs.DoubleLines.{flat, IsLeft};
ghost use Rattle.cordyceps_base.specs.Nodes.{entries};

use super::{Lines, MAX_LINES};
use crate::boxes::Address;
use crate::double_row::Row;
use std::alloc::AllocError;
use std::marker::Model;

/// An iterator over the nodes of a table, line by line, each as its address and a reference to its value. A contract
/// sees the nodes that are left, each as its address and its value.
///
/// When it has returned `None` once, it returns `None` from then on.
///
/// # Complexity
/// A walk over all n nodes is O(n + k), for k lines.
#[derive(Drop)]
pub struct Entries<'a, T> {
    firsts: &'a [Address; MAX_LINES],
    count: usize,
    line: usize,
    at: Address,
    rest: &'a Row<T>,
}

impl<'a, T> Model for Entries<'a, T> {
    ghost use Rattle.std.specs.Prelude.{List};
    ghost use denote.RawPtr.{Ptr};
    ghost use Rattle.cordyceps_base.specs.DoubleLines.{IsLeft};
    ghost use Rattle.cordyceps_base.specs.Nodes.{entries, nodes_of};

    ghost Value = { List (Ptr × T) };

    ghost view = { λ e. entries (nodes_of e.rest.now.blocks) };

    ghost invariant = { λ e. IsLeft e.firsts.now e.count e.line e.at.ptr e.rest.now.blocks };
}

impl<'a, T> Clone for Entries<'a, T> {
    ghost is_clone = { λ e again. again ≡ e };

    ghost is_infallible = { λ _. ⊤ };

    /// Returns a second iterator over the nodes that are left. It allocates nothing, and never returns an error.
    ///
    /// # Complexity
    /// O(1).
    fn clone(&self) -> Result<Entries<'a, T>, AllocError> {
        Ok(Entries {
            firsts: self.firsts,
            count: self.count,
            line: self.line,
            at: self.at,
            rest: self.rest,
        })
    }
}

impl<T> Lines<T> {
    /// Returns an iterator over the nodes, line by line.
    pub fn entries(&self) -> Entries<'_, T>
        ensures { result ≡ entries (flat self.now) }
    {
        Entries {
            firsts: &self.firsts,
            count: self.count,
            line: 0,
            at: Address::null(),
            rest: &self.row,
        }
    }
}

impl<'a, T> Iterator for Entries<'a, T> {
    type Item = (Address, &'a T);

    ghost next_gives = { YieldsFirstBy (λ x. (x.0.ptr, x.1.now)) (λ e. e) };

    ghost remaining = { item_count (λ e. e) };

    /// Returns the address of the first node that is left and a reference to its value, or `None` if none is left.
    ///
    /// # Complexity
    /// O(1), and O(1) for each line without a node that it passes.
    fn next(&mut self) -> Option<(Address, &'a T)> {
        let rest = self.rest;
        let (line, at) = first_left(self.firsts, self.count, self.line, self.at, rest);
        self.line = line;
        self.at = at;
        if at.is_null() {
            return None;
        }
        let block = rest.get(at, 0);
        self.at = block.links.next;
        self.rest = rest.after_first();
        Some((at, &block.value))
    }
}

/// Passes lines without a node. Returns the number of lines passed, and the address of the first node that is left, or
/// null if none is.
fn first_left<T>(
    firsts: &[Address; MAX_LINES],
    count: usize,
    line: usize,
    at: Address,
    rest: &Row<T>,
) -> (usize, Address)
    requires { IsLeft firsts.now count line at.ptr rest.now.blocks }
    ensures left { IsLeft firsts.now count result.0 result.1.ptr rest.now.blocks }
    ensures none { result.1.ptr ≡ null_ptr → rest.now.blocks ≡ [] }
{
    let mut line = line;
    let mut at = at;
    while line < count && at.is_null() {
        at = firsts[line];
        line += 1;
    }
    (line, at)
}
