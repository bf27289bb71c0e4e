//! Commands on a table of lists.
ghost use Rattle.std.specs.Prelude.{◌≡◌, ◌++◌, ◌∷◌, [], ◌-◌, ◌<◌, length, take, drop, All, IfOk, OnErr, slice_get};
ghost use Rattle.cordyceps_base.specs.Element.{values};
ghost use Rattle.cordyceps_commands.specs.Replies.{lines_of, found_or_nothing};
ghost use Rattle.cordyceps_tables.specs.Tables.{empty_table, element_of};
ghost use Rattle.cordyceps_tables.specs.Lists.{push, set_item, call_on, append, split, list_of, step, Fits};
ghost use Rattle.cordyceps_tables.specs.Plays.{Plays};

use crate::replay::blocks::run_block;
use crate::replay::filters::drain;
use crate::replay::nodes::node_of;
use crate::replay::played::Played;
use crate::replay::replies::{done, len_of, not_there, nothing, reply_of};
use crate::replay::walks::{bump, show, walk, walk_into};
use cordyceps_base::node::Node;
use cordyceps_commands::{Item, ListCommand, Reply};
use cordyceps_list::list::List;
use std::alloc::{AllocError, Global};
use std::collections::VecDeque;
use std::marker::Model;
use std::mem;

/// Prepends an item.
fn push_front(alloc: Global, list: &mut List<Item>, item: Item) -> Result<Reply, AllocError>
    ensures ok { IfOk result (λ reply. (list.new, lines_of reply) ≡ push list.old (element_of item ∷ list.old)) }
    ensures err { OnErr result (list.new ≡ list.old) }
{
    let node = node_of(alloc, item)?;
    if list.len() < usize::MAX {
        list.push_front(node);
        Ok(done())
    } else {
        Ok(not_there())
    }
}

/// Appends an item.
fn push_back(alloc: Global, list: &mut List<Item>, item: Item) -> Result<Reply, AllocError>
    ensures ok { IfOk result
        (λ reply. (list.new, lines_of reply) ≡ push list.old (list.old ++ element_of item ∷ [])) }
    ensures err { OnErr result (list.new ≡ list.old) }
{
    let node = node_of(alloc, item)?;
    if list.len() < usize::MAX {
        list.push_back(node);
        Ok(done())
    } else {
        Ok(not_there())
    }
}

/// Removes the first item, and frees its node.
fn pop_front(list: &mut List<Item>) -> Reply
    ensures kept { list.new ≡ drop 1 list.old }
    ensures reply { lines_of result ≡ found_or_nothing (slice_get (values list.old) 0) ∷ [] }
{
    reply_of(list.pop_front().map(Node::into_value))
}

/// Removes the last item, and frees its node.
#[tactic(auto, using(crate::proofs::Ends::all_but_last, crate::proofs::Ends::last_value))]
fn pop_back(list: &mut List<Item>) -> Reply
    ensures kept { list.new ≡ take (length list.old - 1) list.old }
    ensures reply { lines_of result ≡ found_or_nothing (slice_get (values list.old) (length list.old - 1)) ∷ [] }
{
    reply_of(list.pop_back().map(Node::into_value))
}

/// Sets the value of the first item.
fn set_front(list: &mut List<Item>, value: u64) -> Reply
    ensures { (list.new, lines_of result) ≡ set_item list.old 0 (slice_get (values list.old) 0) value }
{
    let Some(item) = list.front_mut() else {
        return nothing();
    };
    item.value = value;
    done()
}

/// Sets the value of the last item.
fn set_back(list: &mut List<Item>, value: u64) -> Reply
    ensures { (list.new, lines_of result)
        ≡ set_item list.old (length list.old - 1) (slice_get (values list.old) (length list.old - 1)) value }
{
    let Some(item) = list.back_mut() else {
        return nothing();
    };
    item.value = value;
    done()
}

/// Returns the number of the list that a command names first.
fn number_of(command: &ListCommand) -> u8
    ensures { result ≡ list_of command.now }
{
    match command {
        ListCommand::PushFront(list, _) | ListCommand::PushBack(list, _) => *list,
        ListCommand::PopFront(list) | ListCommand::PopBack(list) => *list,
        ListCommand::Front(list) | ListCommand::Back(list) => *list,
        ListCommand::SetFront(list, _) | ListCommand::SetBack(list, _) => *list,
        ListCommand::Len(list) | ListCommand::Show(list) => *list,
        ListCommand::Append(list, _) | ListCommand::Split(list, _, _) => *list,
        ListCommand::Remove(list, _) | ListCommand::Bump(list, _) => *list,
        ListCommand::Walk(list, _) | ListCommand::Into(list, _) => *list,
        ListCommand::Drain(list, _, _) | ListCommand::Cursor(list, _, _) => *list,
    }
}

/// Runs a command on its list alone. Blocks, and commands that name a second list, are not run here.
fn run_call(
    alloc: Global,
    list: &mut List<Item>,
    command: &ListCommand,
) -> Result<Reply, AllocError>
    ensures ok { IfOk result (λ reply. (list.new, lines_of reply) ≡ call_on list.old command.now) }
    ensures err { OnErr result (list.new ≡ list.old) }
{
    match command {
        ListCommand::PushFront(_, item) => push_front(alloc, list, *item),
        ListCommand::PushBack(_, item) => push_back(alloc, list, *item),
        ListCommand::PopFront(_) => Ok(pop_front(list)),
        ListCommand::PopBack(_) => Ok(pop_back(list)),
        ListCommand::Front(_) => Ok(reply_of(list.front().copied())),
        ListCommand::Back(_) => Ok(reply_of(list.back().copied())),
        ListCommand::SetFront(_, value) => Ok(set_front(list, *value)),
        ListCommand::SetBack(_, value) => Ok(set_back(list, *value)),
        ListCommand::Len(_) => Ok(len_of(list.len())),
        ListCommand::Remove(_, id) => Ok(reply_of(list.remove(*id).map(Node::into_value))),
        ListCommand::Bump(_, by) => Ok(bump(list, *by)),
        ListCommand::Walk(_, turns) => walk(alloc, list, turns),
        ListCommand::Into(_, turns) => walk_into(alloc, list, turns),
        ListCommand::Drain(_, filter, limit) => drain(alloc, list, *filter, *limit),
        ListCommand::Show(_) => show(alloc, list),
        ListCommand::Append(_, _) | ListCommand::Split(_, _, _) => Ok(not_there()),
        ListCommand::Cursor(_, _, _) => Ok(not_there()),
    }
}

/// Moves all items of the second list to the back of the first.
fn append(lists: &mut [List<Item>], list: usize, other: usize) -> Reply
    requires list { list < length lists.old }
    requires other { other < length lists.old }
    ensures { (lists.new, lines_of result) ≡ append lists.old list other }
{
    if list == other || lists[list].len() > usize::MAX - lists[other].len() {
        return not_there();
    }
    let mut more = mem::replace(&mut lists[other], List::new());
    lists[list].append(&mut more);
    done()
}

/// Keeps `index` items, and moves the others to the second list.
fn split(lists: &mut [List<Item>], list: usize, index: usize, other: usize) -> Reply
    requires list { list < length lists.old }
    requires other { other < length lists.old }
    ensures { (lists.new, lines_of result) ≡ split lists.old list index other }
{
    if list == other || lists[other].len() != 0 {
        return not_there();
    }
    let Some(rest) = lists[list].try_split_off(index) else {
        return nothing();
    };
    lists[other] = rest;
    done()
}

/// Sixteen lists of items, numbered from 0. A contract sees the elements of each.
///
/// # Complexity
/// Dropping it frees each node once: O(n), for n items.
#[derive(Drop)]
pub struct Lists {
    lists: [List<Item>; 16],
}

impl Model for Lists {
    ghost use Rattle.std.specs.Prelude.{List};
    ghost use Rattle.cordyceps_base.specs.Element.{Elements};
    ghost use Rattle.cordyceps_commands.specs.declared.item.Item.{Item};

    ghost Value = { List (Elements Item) };

    ghost view = { λ s. s.lists };
}

impl Lists {
    /// Creates sixteen empty lists. Allocates nothing.
    ///
    /// # Complexity
    /// O(1).
    pub fn new() -> Self
        ensures { result ≡ empty_table 16 }
    {
        Lists {
            lists: std::array::from_fn(|_| List::new()),
        }
    }

    /// Runs a command, and returns its reply. Requires that the command names the lists 0 to 15, and that in a block an
    /// `End` comes only last.
    ///
    /// # Errors
    /// If memory for the reply or for nodes is refused, it returns `AllocError`, and has changed nothing. A block is
    /// one command.
    ///
    /// # Complexity
    /// The time of the command's calls: O(1) at the ends of a list, for `Len` and `Append`, and for each line of a
    /// block other than `RemoveFirst`; the others walk along the list. `Show` and `Block` take amortized O(1) more for
    /// each item and line.
    pub fn run(&mut self, alloc: Global, command: &ListCommand) -> Result<Reply, AllocError>
        requires { Fits command.now }
        ensures ok { IfOk result (λ reply. (self.new, lines_of reply) ≡ step self.old command.now) }
        ensures err { OnErr result (self.new ≡ self.old) }
    {
        match command {
            ListCommand::Append(list, other) => {
                Ok(append(&mut self.lists, *list as usize, *other as usize))
            }
            ListCommand::Split(list, at, other) => {
                let (list, at, other) = (*list as usize, *at as usize, *other as usize);
                Ok(split(&mut self.lists, list, at, other))
            }
            ListCommand::Cursor(list, end, lines) => {
                run_block(alloc, &mut self.lists, *list as usize, *end, lines)
            }
            _ => {
                let list = &mut self.lists[number_of(command) as usize];
                run_call(alloc, list, command)
            }
        }
    }
}

impl Default for Lists {
    ghost is_default = { λ s. s ≡ empty_table 16 };

    /// Creates sixteen empty lists, as `new` does.
    ///
    /// # Complexity
    /// O(1).
    fn default() -> Self {
        Lists::new()
    }
}

/// Removes the first command.
fn discard_first(commands: &mut VecDeque<ListCommand>)
    ensures { commands.new.items ≡ drop 1 commands.old.items }
{
    commands.pop_front();
}

/// Runs commands in order, and returns their replies and the commands that were not run. Requires that the commands
/// name the lists 0 to 15, and that in a block an `End` comes only last.
///
/// # Errors
/// If memory for a command's reply or nodes is refused, the replay stops: that command, which has changed nothing, and
/// those after it are the rest. They can be run later on the same lists. A block is one command.
///
/// # Complexity
/// Each command takes the time of its calls: O(1) at the ends of a list, for `Len` and `Append`, and for each line of a
/// block other than `RemoveFirst`; the others walk along the list. A reply takes amortized O(1), and `Show` and `Block`
/// as much for each item and line.
pub fn replay_lists(
    alloc: Global,
    lists: &mut Lists,
    commands: VecDeque<ListCommand>,
) -> Played<ListCommand>
    requires { All Fits commands.items }
    ensures { Plays step lists.old commands.items result.replies.items result.rest.items lists.new }
{
    let mut replies = Vec::new(alloc);
    let mut rest = commands;
    while let Some(command) = rest.front() {
        if replies.reserve(1).is_err() {
            break;
        }
        let Ok(reply) = lists.run(alloc, command) else {
            break;
        };
        let Ok(()) = replies.push(reply) else {
            unreachable!()
        };
        discard_first(&mut rest);
    }
    Played { replies, rest }
}
