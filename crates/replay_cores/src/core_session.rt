//! Sessions of scripts in which each line is a command on a core.
ghost use Rattle.std.specs.Prelude.{◌≡◌, ℕ, List, Option, IfOk, OnErr};
ghost use Rattle.replay_lines.specs.CoreReplies.{CoreLine, line_of_reply};

use replay_driver::session::Session;
use replay_lines::core_reply::{CoreReply, push_core_reply};
use std::alloc::{AllocError, Global};

/// A core on which the lines of a script are commands.
pub trait ScriptedCore {
    /// What a line tells the core to do.
    type Command;

    // The core with which a script begins.
    ghost first: { Self };

    // What a line means; `None` if it is bad.
    ghost command_of: { List ℕ → Option Self.Command };

    // The core after a command, and the reply.
    ghost step: { Self → Self.Command → Self × CoreLine };

    /// Creates a core without parties, rooms and items. Allocates nothing.
    ///
    /// # Complexity
    /// O(1).
    fn create(alloc: Global) -> Self
        ensures { result ≡ first };

    /// Returns the command that a line means, or `None` if it is bad.
    ///
    /// # Complexity
    /// O(b), for b bytes of the line.
    fn read(line: &[u8]) -> Option<Self::Command>
        ensures { result ≡ command_of line.now };

    /// Runs a command, and returns its reply.
    ///
    /// # Errors
    /// If memory for it is refused, it returns `AllocError`, and has changed nothing.
    ///
    /// # Complexity
    /// That of the core's call.
    fn play(&mut self, command: Self::Command) -> Result<CoreReply, AllocError>
        ensures ok { IfOk result (λ reply. (self.new, line_of_reply reply) ≡ step self.old command) }
        ensures err { OnErr result (self.new ≡ self.old) };
}

/// A session of a script, with its core.
#[derive(Drop)]
pub struct CoreSession<C> {
    alloc: Global,
    core: C,
}

impl<C: ScriptedCore> CoreSession<C> {
    /// Creates a session with a core without parties, rooms and items. Allocates nothing.
    ///
    /// # Complexity
    /// O(1).
    pub fn new(alloc: Global) -> Self
        ensures { result.core ≡ C.first }
    {
        CoreSession {
            alloc,
            core: C::create(alloc),
        }
    }
}

impl<C: ScriptedCore> Session for CoreSession<C> {
    ghost use Rattle.replay_cores.specs.Commands.{core_commands_machine};

    ghost State = { C };

    ghost machine = { core_commands_machine C.command_of C.step };

    ghost state = { λ session. session.core };

    fn take(&mut self, line: &[u8], text: &mut Vec<u8>) -> Result<bool, AllocError> {
        let Some(command) = C::read(line) else {
            return Ok(false);
        };
        let reply = self.core.play(command)?;
        push_core_reply(self.alloc, text, &reply)?;
        Ok(true)
    }

    fn end(&mut self, _text: &mut Vec<u8>) -> Result<(), AllocError> {
        Ok(())
    }
}
