//! Scripts in mode `sorted`.
ghost use Rattle.std.specs.Prelude.{◌≡◌, ℕ, IfOk, OnErr};
ghost use Rattle.std.specs.declared.cmp.Ordering.{Ordering};
ghost use Rattle.cordyceps_commands.specs.Replies.{lines_of};
ghost use Rattle.cordyceps_tables.specs.Sorteds.{step, order_of, Fits, AreInOrder};
ghost use Rattle.cordyceps_tables.specs.Tables.{empty_table};
ghost use Rattle.replay_sessions.specs.Tens.{by_tens, ComparesTens};

use cordyceps_commands::{Item, Reply, SortedCommand};
use cordyceps_tables::replay::Sorteds;
use replay_driver::session::Session;
use replay_lines::reply::push_reply;
use replay_lines::sorted_command::read_command;
use std::alloc::{AllocError, Global};
use std::cmp::Ordering;

/// A session of a script in mode `sorted`, with its sixteen sorted lists.
#[derive(Drop)]
pub struct SortedSession<F> {
    alloc: Global,
    sorteds: Sorteds<F>,
}

impl<F: Fn(&Item, &Item) -> Ordering + Copy> SortedSession<F> {
    /// Creates a session with sixteen empty lists, the last five with the function `by`, which compares values divided
    /// by ten. Allocates nothing.
    ///
    /// # Complexity
    /// O(1).
    pub fn new(alloc: Global, by: F) -> Self
        requires callable { F.IsAlwaysCallable by }
        requires tens { ComparesTens F.Fn by }
        ensures table { result.sorteds.0 ≡ empty_table 16 }
        ensures in_order { (order : ℕ → Item → Item → Ordering) → AreInOrder order result.sorteds.0 }
        ensures function { result.sorteds.1 ≡ by }
    {
        SortedSession {
            alloc,
            sorteds: Sorteds::new(by),
        }
    }

    /// Runs one command, and returns its reply.
    fn play(&mut self, command: SortedCommand) -> Result<Reply, AllocError>
        requires fits { Fits command }
        requires callable { F.IsAlwaysCallable self.old.sorteds.1 }
        requires tens { ComparesTens F.Fn self.old.sorteds.1 }
        requires in_order { AreInOrder (order_of ⟦<Item as Ord>⟧.cmp by_tens) self.old.sorteds.0 }
        ensures reply { IfOk result
            (λ reply. (self.new.sorteds.0, lines_of reply)
            ≡ step (order_of ⟦<Item as Ord>⟧.cmp by_tens) self.old.sorteds.0 command) }
        ensures err { OnErr result (self.new.sorteds.0 ≡ self.old.sorteds.0) }
        ensures in_order { AreInOrder (order_of ⟦<Item as Ord>⟧.cmp by_tens) self.new.sorteds.0 }
        ensures function { self.new.sorteds.1 ≡ self.old.sorteds.1 }
    {
        self.sorteds.run(self.alloc, &command)
    }
}

impl<F: Fn(&Item, &Item) -> Ordering + Copy> Session for SortedSession<F> {
    ghost use Rattle.cordyceps_tables.specs.Sorteds.{order_of, AreInOrder};
    ghost use Rattle.cordyceps_tables.specs.Tables.{Table};
    ghost use Rattle.replay_sessions.specs.SortedMachine.{sorted_machine};
    ghost use Rattle.replay_sessions.specs.Tens.{by_tens, ComparesTens};

    ghost State = { Table };

    ghost machine = { sorted_machine (order_of ⟦<Item as Ord>⟧.cmp by_tens) };

    ghost state = { λ session. session.sorteds.0 };

    ghost is_ready = { λ session. F.IsAlwaysCallable session.sorteds.1
        × ComparesTens F.Fn session.sorteds.1
        × AreInOrder (order_of ⟦<Item as Ord>⟧.cmp by_tens) session.sorteds.0 };

    fn take(&mut self, line: &[u8], text: &mut Vec<u8>) -> Result<bool, AllocError> {
        let Some(command) = read_command(self.alloc, line)? else {
            return Ok(false);
        };
        let reply = self.play(command)?;
        push_reply(self.alloc, text, &reply)?;
        Ok(true)
    }

    fn end(&mut self, _text: &mut Vec<u8>) -> Result<(), AllocError> {
        Ok(())
    }
}
