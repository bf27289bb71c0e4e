//! Scripts in mode `stack`.
ghost use Rattle.std.specs.Prelude.{◌≡◌, IfOk, OnErr};
ghost use Rattle.cordyceps_commands.specs.Replies.{lines_of};
ghost use Rattle.cordyceps_tables.specs.Stacks.{step, Fits};
ghost use Rattle.cordyceps_tables.specs.Tables.{empty_table};

use cordyceps_commands::{Reply, StackCommand};
use cordyceps_tables::replay::Stacks;
use replay_driver::session::Session;
use replay_lines::reply::push_reply;
use replay_lines::stack_command::read_command;
use std::alloc::{AllocError, Global};

/// A session of a script in mode `stack`, with its sixteen stacks.
#[derive(Drop)]
pub struct StackSession {
    alloc: Global,
    stacks: Stacks,
}

impl StackSession {
    /// Creates a session with sixteen empty stacks. Allocates nothing.
    ///
    /// # Complexity
    /// O(1).
    pub fn new(alloc: Global) -> Self
        ensures { result.stacks ≡ empty_table 16 }
    {
        StackSession {
            alloc,
            stacks: Stacks::new(),
        }
    }

    /// Runs one command, and returns its reply.
    fn play(&mut self, command: StackCommand) -> Result<Reply, AllocError>
        requires { Fits command }
        ensures reply { IfOk result (λ reply. (self.new.stacks, lines_of reply) ≡ step self.old.stacks command) }
        ensures err { OnErr result (self.new.stacks ≡ self.old.stacks) }
    {
        self.stacks.run(self.alloc, &command)
    }
}

impl Session for StackSession {
    ghost use Rattle.cordyceps_tables.specs.Tables.{Table};
    ghost use Rattle.replay_sessions.specs.StackMachine.{stack_machine};

    ghost State = { Table };

    ghost machine = { stack_machine };

    ghost state = { λ session. session.stacks };

    fn take(&mut self, line: &[u8], text: &mut Vec<u8>) -> Result<bool, AllocError> {
        let Some(command) = read_command(line) else {
            return Ok(false);
        };
        let reply = self.play(command)?;
        push_reply(self.alloc, text, &reply)?;
        Ok(true)
    }

    fn end(&mut self, _text: &mut Vec<u8>) -> Result<(), AllocError> {
        Ok(())
    }
}
