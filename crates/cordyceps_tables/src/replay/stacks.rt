//! Commands on a table of stacks.
ghost use Rattle.std.specs.Prelude.{◌≡◌, ◌∷◌, [], ◌++◌, ◌<◌, drop, length, reverse, map, Some, All, IfOk, OnOk, OnErr, slice_get, ◌==◌};
ghost use Rattle.cordyceps_base.specs.Element.{values};
ghost use Rattle.cordyceps_commands.specs.Replies.{show, truth, lines_of, found_or_nothing};
ghost use Rattle.cordyceps_tables.specs.Tables.{empty_table, element_of};
ghost use Rattle.cordyceps_tables.specs.Stacks.{take_all, step, Fits};
ghost use Rattle.cordyceps_tables.specs.Plays.{Plays};

use crate::replay::nodes::node_of;
use crate::replay::played::Played;
use crate::replay::replies::{done, not_there, reply_of, show_of, truth_of};
use cordyceps_base::node::Node;
use cordyceps_commands::{Item, Reply, StackCommand};
use cordyceps_single::stack::Stack;
use std::alloc::{AllocError, Global};
use std::collections::VecDeque;
use std::marker::Model;

/// Pushes an item.
fn push(alloc: Global, stack: &mut Stack<Item>, item: Item) -> Result<Reply, AllocError>
    ensures pushed { OnOk result (stack.new ≡ element_of item ∷ stack.old) }
    ensures reply { IfOk result (λ reply. lines_of reply ≡ truth (length stack.old == 0) ∷ []) }
    ensures err { OnErr result (stack.new ≡ stack.old) }
{
    let node = node_of(alloc, item)?;
    Ok(truth_of(stack.push_was_empty(node)))
}

/// Removes the item that was pushed last, and frees its node.
fn pop(stack: &mut Stack<Item>) -> Reply
    ensures kept { stack.new ≡ drop 1 stack.old }
    ensures reply { lines_of result ≡ found_or_nothing (slice_get (values stack.old) 0) ∷ [] }
{
    reply_of(stack.pop().map(Node::into_value))
}

/// Pushes the elements of another stack, the last pushed first.
fn put_back(stack: &mut Stack<Item>, mut others: Stack<Item>)
    ensures { stack.new ≡ reverse others ++ stack.old }
{
    while let Some(node) = others.pop() {
        stack.push(node);
    }
}

/// Removes all items. If memory for the reply is refused, it puts all back.
fn drain(alloc: Global, stack: &mut Stack<Item>) -> Result<Reply, AllocError>
    ensures emptied { OnOk result (stack.new ≡ []) }
    ensures reply { IfOk result (λ reply. lines_of reply ≡ show (map Some (values stack.old)) ∷ []) }
    ensures err { OnErr result (stack.new ≡ stack.old) }
{
    let mut items = Vec::new(alloc);
    let mut taken = Stack::new();
    while let Some(node) = stack.pop() {
        let item = *node.get();
        taken.push(node);
        if items.push(Some(item)).is_err() {
            put_back(stack, taken);
            return Err(AllocError);
        }
    }
    Ok(show_of(items))
}

/// Sixteen stacks of items, numbered from 0. A contract sees the elements of each.
///
/// # Complexity
/// Dropping it frees each node once: O(n), for n items.
#[derive(Drop)]
pub struct Stacks {
    stacks: [Stack<Item>; 16],
}

impl Model for Stacks {
    ghost use Rattle.std.specs.Prelude.{List};
    ghost use Rattle.cordyceps_base.specs.Element.{Elements};
    ghost use Rattle.cordyceps_commands.specs.declared.item.Item.{Item};

    ghost Value = { List (Elements Item) };

    ghost view = { λ s. s.stacks };
}

impl Stacks {
    /// Creates sixteen empty stacks. Allocates nothing.
    ///
    /// # Complexity
    /// O(1).
    pub fn new() -> Self
        ensures { result ≡ empty_table 16 }
    {
        Stacks {
            stacks: std::array::from_fn(|_| Stack::new()),
        }
    }

    /// Moves all items of a stack to another one, if that is empty.
    fn take_all(&mut self, from: usize, to: usize) -> Reply
        requires from { from < 16 }
        requires to { to < 16 }
        ensures { (self.new, lines_of result) ≡ take_all self.old from to }
    {
        if from == to || !self.stacks[to].is_empty() {
            return not_there();
        }
        self.stacks[to] = self.stacks[from].take_all();
        done()
    }

    /// Runs a command, and returns its reply. Requires that the command names the stacks 0 to 15.
    ///
    /// # Errors
    /// If memory for the reply or for a node is refused, it returns `AllocError`, and has changed nothing.
    ///
    /// # Complexity
    /// O(1) for each command other than `Drain`, which is O(n), for n items.
    pub fn run(&mut self, alloc: Global, command: &StackCommand) -> Result<Reply, AllocError>
        requires { Fits command.now }
        ensures ok { IfOk result (λ reply. (self.new, lines_of reply) ≡ step self.old command.now) }
        ensures err { OnErr result (self.new ≡ self.old) }
    {
        match command {
            StackCommand::Push(stack, item) => {
                push(alloc, &mut self.stacks[*stack as usize], *item)
            }
            StackCommand::Pop(stack) => Ok(pop(&mut self.stacks[*stack as usize])),
            StackCommand::TakeAll(stack, to) => Ok(self.take_all(*stack as usize, *to as usize)),
            StackCommand::IsEmpty(stack) => {
                Ok(truth_of(self.stacks[*stack as usize].is_empty()))
            }
            StackCommand::Drain(stack) => drain(alloc, &mut self.stacks[*stack as usize]),
        }
    }
}

impl Default for Stacks {
    ghost is_default = { λ s. s ≡ empty_table 16 };

    /// Creates sixteen empty stacks, as `new` does.
    ///
    /// # Complexity
    /// O(1).
    fn default() -> Self {
        Stacks::new()
    }
}

/// Runs commands in order, and returns their replies and the commands that were not run. Requires that the commands
/// name the stacks 0 to 15.
///
/// # Errors
/// If memory for a command's reply or node is refused, the replay stops: that command, which has changed nothing, and
/// those after it are the rest. They can be run later on the same stacks.
///
/// # Complexity
/// O(1) for each command other than `Drain`, which is O(n), for n items. A reply takes amortized O(1), and that of
/// `Drain` as much for each item.
pub fn replay_stacks(
    alloc: Global,
    stacks: &mut Stacks,
    commands: VecDeque<StackCommand>,
) -> Played<StackCommand>
    requires { All Fits commands.items }
    ensures { Plays step stacks.old commands.items result.replies.items result.rest.items stacks.new }
{
    let mut replies = Vec::new(alloc);
    let mut rest = commands;
    while let Some(command) = rest.front() {
        if replies.reserve(1).is_err() {
            break;
        }
        let Ok(reply) = stacks.run(alloc, command) else {
            break;
        };
        let Ok(()) = replies.push(reply) else {
            unreachable!()
        };
        rest.pop_front();
    }
    Played { replies, rest }
}
