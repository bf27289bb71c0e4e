//! Scripts in mode `list`.
ghost use Rattle.std.specs.Prelude.{◌≡◌, Some, None, IfOk, IfErr, OnOk, OnErr};
ghost use Rattle.cordyceps_tables.specs.Lists.{step, Fits};
ghost use Rattle.cordyceps_commands.specs.Replies.{lines_of};
ghost use Rattle.cordyceps_tables.specs.Tables.{empty_table};
ghost use Rattle.replay_sessions.specs.ListMachine.{list_machine};
ghost use Rattle.replay_sessions.specs.OpenBlocks.{open_as, open_of, IsOpen, CanRun, Closes, CameBackOrRan};
ghost use Rattle.replay_driver.specs.Steps.{TakesLine};
ghost use Rattle.replay_sessions.specs.declared.block.Block.{Block};

use crate::block::Block;
use cordyceps_commands::{CursorCommand, ListCommand, Reply};
use cordyceps_tables::replay::Lists;
use replay_driver::session::Session;
use replay_lines::cursor_command::read_cursor_command;
use replay_lines::list_command::read_command;
use replay_lines::reply::push_reply;
use std::alloc::{AllocError, Global};

/// A session of a script in mode `list`, with its sixteen lists, and a cursor block if one is open.
#[derive(Drop)]
pub struct ListSession {
    alloc: Global,
    lists: Lists,
    block: Option<Block>,
}

/// Returns the block that a command runs.
fn block_of(command: ListCommand) -> Option<Block>
    ensures { (block : Block) → command ≡ ListCommand.Cursor block.list block.end block.lines → result ≡ Some block }
{
    match command {
        ListCommand::Cursor(list, end, lines) => Some(Block { list, end, lines }),
        _other => None,
    }
}

impl ListSession {
    /// Creates a session with sixteen empty lists. Allocates nothing.
    ///
    /// # Complexity
    /// O(1).
    pub fn new(alloc: Global) -> Self
        ensures lists { result.lists ≡ empty_table 16 }
        ensures block { result.block ≡ None }
    {
        ListSession {
            alloc,
            lists: Lists::new(),
            block: None,
        }
    }

    /// Runs one command, and returns its reply.
    fn play(&mut self, command: ListCommand) -> Result<Reply, AllocError>
        requires { Fits command }
        ensures reply { IfOk result (λ reply. (self.new.lists, lines_of reply) ≡ step self.old.lists command) }
        ensures err { OnErr result (self.new.lists ≡ self.old.lists) }
        ensures block { self.new.block ≡ self.old.block }
    {
        self.lists.run(self.alloc, &command)
    }

    /// Runs a block, and appends its text. If memory is refused, it appends nothing, and returns the block unless that
    /// was run.
    fn run_block(&mut self, block: Block, text: &mut Vec<u8>) -> Result<(), Option<Block>>
        requires { CanRun (Some block) }
        ensures ok { OnOk result
            (Closes self.old.lists (open_as block) self.new.lists text.old.items text.new.items) }
        ensures err { OnErr result (text.new.items ≡ text.old.items) }
        ensures back { IfErr result (λ back. CameBackOrRan self.old.lists block back self.new.lists) }
        ensures block { self.new.block ≡ self.old.block }
    {
        let Block { list, end, lines } = block;
        let command = ListCommand::Cursor(list, end, lines);
        let Ok(reply) = self.lists.run(self.alloc, &command) else {
            return Err(block_of(command));
        };
        match push_reply(self.alloc, text, &reply) {
            Ok(()) => Ok(()),
            Err(_) => Err(None),
        }
    }

    /// Takes a line outside of blocks.
    fn take_outside(&mut self, line: &[u8], text: &mut Vec<u8>) -> Result<bool, AllocError>
        requires { self.old.block ≡ None }
        ensures taken { TakesLine list_machine (self.old.lists, open_of self.old.block) line.now
            (self.new.lists, open_of self.new.block) text.old.items text.new.items result }
        ensures ready { IsOpen self.new.block }
    {
        let Some(command) = read_command(self.alloc, line)? else {
            return Ok(false);
        };
        match command {
            ListCommand::Cursor(list, end, lines) => {
                self.block = Some(Block { list, end, lines });
                Ok(true)
            }
            command => {
                let reply = self.play(command)?;
                push_reply(self.alloc, text, &reply)?;
                Ok(true)
            }
        }
    }

    /// Takes a line of a block.
    fn take_inside(
        &mut self,
        mut block: Block,
        line: &[u8],
        text: &mut Vec<u8>,
    ) -> Result<bool, AllocError>
        requires open { IsOpen (Some block) }
        requires block { self.old.block ≡ None }
        ensures taken { TakesLine list_machine (self.old.lists, open_of (Some block)) line.now
            (self.new.lists, open_of self.new.block) text.old.items text.new.items result }
        ensures ready { IsOpen self.new.block }
    {
        let Some(command) = read_cursor_command(line) else {
            self.block = Some(block);
            return Ok(false);
        };
        let held = block.lines.len();
        let Ok(()) = block.lines.push(command) else {
            self.block = Some(block);
            return Err(AllocError);
        };
        let CursorCommand::End = command else {
            self.block = Some(block);
            return Ok(true);
        };
        match self.run_block(block, text) {
            Ok(()) => Ok(true),
            Err(Some(mut back)) => {
                back.lines.truncate(held);
                self.block = Some(back);
                Err(AllocError)
            }
            Err(None) => Err(AllocError),
        }
    }
}

impl Session for ListSession {
    ghost use Rattle.replay_sessions.specs.ListMachine.{State, list_machine};
    ghost use Rattle.replay_sessions.specs.OpenBlocks.{open_of, IsOpen};

    ghost State = { State };

    ghost machine = { list_machine };

    ghost state = { λ session. (session.lists, open_of session.block) };

    ghost is_ready = { λ session. IsOpen session.block };

    fn take(&mut self, line: &[u8], text: &mut Vec<u8>) -> Result<bool, AllocError> {
        match self.block.take() {
            None => self.take_outside(line, text),
            Some(block) => self.take_inside(block, line, text),
        }
    }

    fn end(&mut self, text: &mut Vec<u8>) -> Result<(), AllocError> {
        let Some(block) = self.block.take() else {
            return Ok(());
        };
        match self.run_block(block, text) {
            Ok(()) => Ok(()),
            Err(back) => {
                self.block = back;
                Err(AllocError)
            }
        }
    }
}
