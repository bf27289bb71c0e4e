//! A value that is kept for later: the stub that the maker of a queue provided.
//!
//! It is in a table of one slot. As a field it would require handles that threads can share; for a table it is enough
//! that they can be sent. The table's key, a snapshot, tells what `close` returns.
ghost use Rattle.std.specs.Prelude.{◌≡◌, IfOk, IfErr};

use atomic_table::{Closed, Refused, Table, TableRule};
use std::alloc::{AllocFailed, Global};
use std::marker::Model;
use std::snapshot::Snapshot;

/// The invariant of a vault: its only slot is at home, with the value that the key shows.
struct AtHome;

impl<E> TableRule<E, (), Snapshot<E>> for AtHome {
    ghost use Rattle.cordyceps_queue.specs.Shared.Vault.{IsAtHome};

    ghost holds = { λ key. IsAtHome key.value };

    ghost first = { λ _. tt };
}

/// Keeps one value, which nobody reads until `into_inner` returns it. A contract sees the value.
///
/// Threads can share it if `E` can be sent to a thread, even if `E` cannot be shared by threads. Dropping it drops the
/// value.
#[derive(Drop)]
pub(crate) struct Vault<E> {
    table: Table<E, (), Snapshot<E>, AtHome, Global>,
}

impl<E> Model for Vault<E> {
    ghost use Rattle.std.specs.Prelude.{◌≡◌};

    ghost Value = { E };

    ghost view = { λ v. v.table.shared.key.value };

    ghost invariant = { λ v. v.table.shared.table_id.slots ≡ 1 };
}

impl<E> Vault<E> {
    /// Keeps a value, by three allocations, one of which it frees. If memory is refused, returns the value.
    pub(crate) fn new(alloc: Global, value: E) -> Result<Vault<E>, AllocFailed<E>>
        ensures kept { IfOk result (λ v. v ≡ value) }
        ensures value_returned { IfErr result (λ e. e.value ≡ value) }
    {
        let shown = Snapshot::of(&value);
        let Ok(mut slots) = Vec::with_capacity(alloc, 1) else {
            return Err(AllocFailed { value });
        };
        slots.push_reserved(value);
        match Table::new(alloc, &[], slots, &shown) {
            Ok((table, _)) => Ok(Vault { table }),
            Err(Refused { mut slots }) => {
                let value = slots.pop().unwrap();
                slots.destroy_empty();
                Err(AllocFailed { value })
            }
        }
    }

    /// Returns the value, and frees the memory.
    pub(crate) fn into_inner(self) -> E
        ensures { result ≡ self }
    {
        let Vault { table } = self;
        let mut closed: Closed<E, Global> = table.close();
        let value = closed.take(0);
        closed.free();
        value
    }
}
