//! Commands on a table of sorted lists.
ghost use Rattle.std.specs.Prelude.{◌≡◌, ℕ, ◌∷◌, [], ◌++◌, ◌<◌, drop, length, reverse, map, Some, All, IfOk, OnOk, OnErr, slice_get, ◌==◌, slice_set, slice_index_or};
ghost use Rattle.std.specs.declared.cmp.Ordering.{Ordering};
ghost use Rattle.std.specs.List.Sorted.{IsSortedBy};
ghost use Rattle.cordyceps_base.specs.Element.{Elements, values};
ghost use Rattle.cordyceps_single.specs.Arrangement.{Sorted, less, put};
ghost use Rattle.cordyceps_single.specs.ByFn.{Computes};
ghost use Rattle.cordyceps_commands.specs.Replies.{done, show, lines_of, found_or_nothing};
ghost use Rattle.cordyceps_tables.specs.Tables.{empty_table, element_of};
ghost use Rattle.cordyceps_tables.specs.Sorteds.{empty_with, fill, order_of, step, step_on, made_of, Fits, list_of, AreInOrder};
ghost use Rattle.cordyceps_tables.specs.Plays.{Plays, AnswersSome};

use crate::replay::nodes::node_of;
use crate::replay::played::Played;
use crate::replay::replies::{done, not_there, reply_of, show_of};
use cordyceps_base::node::Node;
use cordyceps_commands::{Item, Reply, SortedCommand};
use cordyceps_single::sorted_list::{ByFn, Greatest, Least, Order, SortedList};
use cordyceps_single::stack::Stack;
use std::alloc::{AllocError, Global};
use std::cmp::Ordering;
use std::collections::VecDeque;
use std::marker::Model;

/// Returns the number of the list that a command names.
fn number_of(command: &SortedCommand) -> u8
    ensures { result ≡ list_of command.now }
{
    match command {
        SortedCommand::Insert(list, _) | SortedCommand::FromStack(list, _) => *list,
        SortedCommand::PopFront(list) | SortedCommand::Show(list) => *list,
    }
}

/// Inserts an item.
fn insert<O: Order<Item>>(
    alloc: Global,
    list: &mut SortedList<Item, O>,
    item: Item,
) -> Result<Reply, AllocError>
    requires { O.can_compare list.old.order }
    ensures put { OnOk result ((cmp : Item → Item → Ordering)
        → O.compares_by list.old.order cmp
        → IsSortedBy (less cmp) list.old.elements
        → list.new.elements ≡ put cmp list.old.elements (element_of item)) }
    ensures reply { IfOk result (λ reply. lines_of reply ≡ done ∷ []) }
    ensures err { OnErr result (list.new ≡ list.old) }
    ensures order { list.new.order ≡ list.old.order }
{
    list.insert(node_of(alloc, item)?);
    Ok(done())
}

/// Removes the first item, and frees its node.
fn pop_front<O: Order<Item>>(list: &mut SortedList<Item, O>) -> Reply
    ensures kept { list.new.elements ≡ drop 1 list.old.elements }
    ensures reply { lines_of result ≡ found_or_nothing (slice_get (values list.old.elements) 0) ∷ [] }
    ensures order { list.new.order ≡ list.old.order }
{
    reply_of(list.pop_front().map(Node::into_value))
}

/// Reads all items.
fn show<O: Order<Item>>(alloc: Global, list: &SortedList<Item, O>) -> Result<Reply, AllocError>
    ensures { IfOk result (λ reply. lines_of reply ≡ show (map Some (values list.now.elements)) ∷ []) }
{
    let mut items = Vec::new(alloc);
    for item in list.iter() {
        items.push(Some(*item))?;
    }
    Ok(show_of(items))
}

/// Returns `true` if the list has no item.
fn is_empty<O: Order<Item>>(list: &SortedList<Item, O>) -> bool
    ensures { result ≡ (length list.now.elements == 0) }
{
    list.iter().next().is_none()
}

/// Creates a stack onto which the items were pushed in order.
fn stack_of(alloc: Global, items: &[Item]) -> Result<Stack<Item>, AllocError>
    ensures { IfOk result (λ stack. stack ≡ map element_of (reverse items.now)) }
{
    let mut stack = Stack::new();
    for item in items {
        stack.push(node_of(alloc, *item)?);
    }
    Ok(stack)
}

/// Runs a command on its list. If the list has to be created from a stack, it returns the stack.
fn run_on<O: Order<Item>>(
    alloc: Global,
    list: &mut SortedList<Item, O>,
    command: &SortedCommand,
) -> Result<(Reply, Option<Stack<Item>>), AllocError>
    requires { O.can_compare list.old.order }
    ensures ok { IfOk result (λ r. (cmp : Item → Item → Ordering)
        → O.compares_by list.old.order cmp
        → IsSortedBy (less cmp) list.old.elements
        → (made_of cmp list.new.elements r.1, lines_of r.0) ≡ step_on cmp list.old.elements command.now) }
    ensures err { OnErr result (list.new ≡ list.old) }
    ensures order { list.new.order ≡ list.old.order }
{
    match command {
        SortedCommand::Insert(_, item) => Ok((insert(alloc, list, *item)?, None)),
        SortedCommand::PopFront(_) => Ok((pop_front(list), None)),
        SortedCommand::Show(_) => Ok((show(alloc, list)?, None)),
        SortedCommand::FromStack(_, items) => {
            if is_empty(list) {
                Ok((done(), Some(stack_of(alloc, items.as_slice())?)))
            } else {
                Ok((not_there(), None))
            }
        }
    }
}

/// Runs a command on a list that has the least item first.
fn run_least(
    alloc: Global,
    list: &mut SortedList<Item, Least>,
    command: &SortedCommand,
) -> Result<Reply, AllocError>
    ensures ok { IfOk result (λ reply. IsSortedBy (less ⟦<Item as Ord>⟧.cmp) list.old.elements
        → (list.new.elements, lines_of reply) ≡ step_on ⟦<Item as Ord>⟧.cmp list.old.elements command.now) }
    ensures err { OnErr result (list.new ≡ list.old) }
{
    let (reply, stack) = run_on(alloc, list, command)?;
    if let Some(stack) = stack {
        *list = SortedList::from_stack_min(stack);
    }
    Ok(reply)
}

/// Runs a command on a list that has the greatest item first.
fn run_greatest(
    alloc: Global,
    list: &mut SortedList<Item, Greatest>,
    command: &SortedCommand,
) -> Result<Reply, AllocError>
    ensures ok { IfOk result (λ reply. IsSortedBy (less (λ x y. ⟦<Item as Ord>⟧.cmp y x)) list.old.elements
        → (list.new.elements, lines_of reply)
        ≡ step_on (λ x y. ⟦<Item as Ord>⟧.cmp y x) list.old.elements command.now) }
    ensures err { OnErr result (list.new ≡ list.old) }
{
    let (reply, stack) = run_on(alloc, list, command)?;
    if let Some(stack) = stack {
        *list = SortedList::from_stack_max(stack);
    }
    Ok(reply)
}

/// Runs a command on a list that a function keeps sorted.
fn run_own<F: Fn(&Item, &Item) -> Ordering + Copy>(
    alloc: Global,
    list: &mut SortedList<Item, ByFn<Item, F>>,
    by: F,
    command: &SortedCommand,
) -> Result<Reply, AllocError>
    requires same { list.old.order ≡ by }
    requires callable { F.IsAlwaysCallable by }
    requires total { (cmp : Item → Item → Ordering) × Computes F.Fn by cmp }
    ensures ok { IfOk result (λ reply. (cmp : Item → Item → Ordering)
        → Computes F.Fn by cmp
        → IsSortedBy (less cmp) list.old.elements
        → (list.new.elements, lines_of reply) ≡ step_on cmp list.old.elements command.now) }
    ensures err { OnErr result (list.new ≡ list.old) }
    ensures order { list.new.order ≡ by }
{
    let (reply, stack) = run_on(alloc, list, command)?;
    if let Some(stack) = stack {
        *list = SortedList::from_stack_with_cmp(stack, by);
    }
    Ok(reply)
}

/// A list that a function keeps sorted.
type OwnList<F> = SortedList<Item, ByFn<Item, F>>;

/// Five lists that a function keeps sorted. They are no array: the size of an array is bounded only if its items' type
/// is known, and each generic caller would have to show the bound.
#[derive(Drop)]
struct OwnLists<F> {
    first: OwnList<F>,
    second: OwnList<F>,
    third: OwnList<F>,
    fourth: OwnList<F>,
    fifth: OwnList<F>,
}

impl<F> Model for OwnLists<F> {
    ghost use Rattle.std.specs.Prelude.{List, ◌∷◌, []};
    ghost use Rattle.cordyceps_commands.specs.declared.item.Item.{Item};
    ghost use Rattle.cordyceps_single.specs.Arrangement.{Sorted};

    ghost Value = { List (Sorted Item F) };

    ghost view = { λ s. s.first ∷ s.second ∷ s.third ∷ s.fourth ∷ s.fifth ∷ [] };
}

impl<F: Fn(&Item, &Item) -> Ordering + Copy> OwnLists<F> {
    /// Creates five empty lists.
    fn new(by: F) -> Self
        requires callable { F.IsAlwaysCallable by }
        requires total { (cmp : Item → Item → Ordering) × Computes F.Fn by cmp }
        ensures { result ≡ empty_with by ∷ empty_with by ∷ empty_with by ∷ empty_with by ∷ empty_with by ∷ [] }
    {
        OwnLists {
            first: SortedList::new_with_cmp(by),
            second: SortedList::new_with_cmp(by),
            third: SortedList::new_with_cmp(by),
            fourth: SortedList::new_with_cmp(by),
            fifth: SortedList::new_with_cmp(by),
        }
    }

    /// Runs a command on one of the lists.
    fn run(
        &mut self,
        alloc: Global,
        index: usize,
        by: F,
        command: &SortedCommand,
    ) -> Result<Reply, AllocError>
        requires within { index < 5 }
        requires same { All (λ l. l.order ≡ by) self.old }
        requires callable { F.IsAlwaysCallable by }
        requires total { (cmp : Item → Item → Ordering) × Computes F.Fn by cmp }
        ensures ok { IfOk result (λ reply. (new : Sorted Item F)
            × (self.new ≡ slice_set self.old index new)
            × ((cmp : Item → Item → Ordering)
            → Computes F.Fn by cmp
            → IsSortedBy (less cmp) (slice_index_or self.old index (empty_with by)).elements
            → (new.elements, lines_of reply)
            ≡ step_on cmp (slice_index_or self.old index (empty_with by)).elements command.now)) }
        ensures err { OnErr result (self.new ≡ self.old) }
        ensures order { All (λ l. l.order ≡ by) self.new }
    {
        if index < 1 {
            run_own(alloc, &mut self.first, by, command)
        } else if index < 2 {
            run_own(alloc, &mut self.second, by, command)
        } else if index < 3 {
            run_own(alloc, &mut self.third, by, command)
        } else if index < 4 {
            run_own(alloc, &mut self.fourth, by, command)
        } else {
            run_own(alloc, &mut self.fifth, by, command)
        }
    }
}

/// Sixteen sorted lists of items, numbered from 0: six with the least item first, five with the greatest first, and
/// five that a function of the caller's keeps sorted. A contract sees the elements of each, and the function.
///
/// # Complexity
/// Dropping it frees each node once: O(n), for n items.
#[derive(Drop)]
pub struct Sorteds<F> {
    least: [SortedList<Item, Least>; 6],
    greatest: [SortedList<Item, Greatest>; 5],
    own: OwnLists<F>,
    by: F,
}

impl<F> Model for Sorteds<F> {
    ghost use Rattle.std.specs.Prelude.{◌≡◌, ◌++◌, All, length};
    ghost use Rattle.cordyceps_tables.specs.Tables.{Table};
    ghost use Rattle.cordyceps_tables.specs.Sorteds.{contents};

    ghost Value = { Table × F };

    ghost view = { λ s. (contents s.least ++ contents s.greatest ++ contents s.own, s.by) };

    ghost invariant = { λ s. record {
      least : length s.least ≡ 6;
      greatest : length s.greatest ≡ 5;
      own : length s.own ≡ 5;
      ordered : All (λ l. l.order ≡ s.by) s.own;
    } };
}

impl<F: Fn(&Item, &Item) -> Ordering + Copy> Sorteds<F> {
    /// Creates sixteen empty lists, the last five with the function `by`. Requires that it can be called on any two
    /// items and is a total preorder. Allocates nothing.
    ///
    /// # Complexity
    /// O(1).
    pub fn new(by: F) -> Self
        requires callable { F.IsAlwaysCallable by }
        requires total { (cmp : Item → Item → Ordering) × Computes F.Fn by cmp }
        ensures table { result.0 ≡ empty_table 16 }
        ensures in_order { (order : ℕ → Item → Item → Ordering) → AreInOrder order result.0 }
        ensures function { result.1 ≡ by }
    {
        Sorteds {
            least: std::array::from_fn(|_| SortedList::new_min()),
            greatest: std::array::from_fn(|_| SortedList::new_max()),
            own: OwnLists::new(by),
            by,
        }
    }

    /// Runs a command on the list that it names, and returns its reply.
    fn run_named(&mut self, alloc: Global, command: &SortedCommand) -> Result<Reply, AllocError>
        requires fits { Fits command.now }
        requires callable { F.IsAlwaysCallable self.old.1 }
        requires total { (cmp : Item → Item → Ordering) × Computes F.Fn self.old.1 cmp }
        ensures ok { IfOk result (λ reply. (cmp : Item → Item → Ordering)
            → Computes F.Fn self.old.1 cmp
            → AreInOrder (order_of ⟦<Item as Ord>⟧.cmp cmp) self.old.0
            → (self.new.0, lines_of reply) ≡ step (order_of ⟦<Item as Ord>⟧.cmp cmp) self.old.0 command.now) }
        ensures err { OnErr result (self.new ≡ self.old) }
        ensures function { self.new.1 ≡ self.old.1 }
    {
        let list = number_of(command) as usize;
        if list < 6 {
            run_least(alloc, &mut self.least[list], command)
        } else if list < 11 {
            run_greatest(alloc, &mut self.greatest[list - 6], command)
        } else {
            let by = self.by;
            self.own.run(alloc, list - 11, by, command)
        }
    }

    /// Runs a command, and returns its reply. Requires that the command names the lists 0 to 15, and that the function
    /// can be called on any two items and is a total preorder.
    ///
    /// # Errors
    /// If memory for the reply or for nodes is refused, it returns `AllocError`, and has changed nothing.
    ///
    /// # Complexity
    /// O(1) for `PopFront`, and for `Insert` if the item is not less than the last. Otherwise `Insert` is O(n), for n
    /// items of the list, and so is `Show`. `FromStack` inserts each of its items.
    pub fn run(&mut self, alloc: Global, command: &SortedCommand) -> Result<Reply, AllocError>
        requires fits { Fits command.now }
        requires callable { F.IsAlwaysCallable self.old.1 }
        requires total { (cmp : Item → Item → Ordering) × Computes F.Fn self.old.1 cmp }
        ensures ok { IfOk result (λ reply. (cmp : Item → Item → Ordering)
            → Computes F.Fn self.old.1 cmp
            → AreInOrder (order_of ⟦<Item as Ord>⟧.cmp cmp) self.old.0
            → (self.new.0, lines_of reply) ≡ step (order_of ⟦<Item as Ord>⟧.cmp cmp) self.old.0 command.now) }
        ensures in_order { (cmp : Item → Item → Ordering)
            → Computes F.Fn self.old.1 cmp
            → AreInOrder (order_of ⟦<Item as Ord>⟧.cmp cmp) self.old.0
            → AreInOrder (order_of ⟦<Item as Ord>⟧.cmp cmp) self.new.0 }
        ensures err { OnErr result (self.new ≡ self.old) }
        ensures function { self.new.1 ≡ self.old.1 }
    {
        self.run_named(alloc, command)
    }
}

/// Runs commands in order, and returns their replies and the commands that were not run. Requires that the commands
/// name the lists 0 to 15, and that the function can be called on any two items and is a total preorder.
///
/// # Errors
/// If memory for a command's reply or nodes is refused, the replay stops: that command, which has changed nothing, and
/// those after it are the rest. They can be run later on the same lists.
///
/// # Complexity
/// Each command takes the time of its calls: O(1) for `PopFront`, and for `Insert` if the item is not less than the
/// last. Otherwise `Insert` is O(n), for n items of the list, and so is `Show`. `FromStack` inserts each of its items.
/// A reply takes amortized O(1), and `Show` as much for each item.
pub fn replay_sorted<F: Fn(&Item, &Item) -> Ordering + Copy>(
    alloc: Global,
    sorteds: &mut Sorteds<F>,
    commands: VecDeque<SortedCommand>,
) -> Played<SortedCommand>
    requires fit { All Fits commands.items }
    requires callable { F.IsAlwaysCallable sorteds.old.1 }
    requires total { (cmp : Item → Item → Ordering) × Computes F.Fn sorteds.old.1 cmp }
    ensures played { (cmp : Item → Item → Ordering)
        → Computes F.Fn sorteds.old.1 cmp
        → AreInOrder (order_of ⟦<Item as Ord>⟧.cmp cmp) sorteds.old.0
        → Plays (step (order_of ⟦<Item as Ord>⟧.cmp cmp)) sorteds.old.0 commands.items result.replies.items
        result.rest.items sorteds.new.0 }
    ensures in_order { (cmp : Item → Item → Ordering)
        → Computes F.Fn sorteds.old.1 cmp
        → AreInOrder (order_of ⟦<Item as Ord>⟧.cmp cmp) sorteds.old.0
        → AreInOrder (order_of ⟦<Item as Ord>⟧.cmp cmp) sorteds.new.0 }
    ensures function { sorteds.new.1 ≡ sorteds.old.1 }
    ensures answers { AnswersSome commands.items result.replies.items result.rest.items }
{
    let mut replies = Vec::new(alloc);
    let mut rest = commands;
    while let Some(command) = rest.front() {
        if replies.reserve(1).is_err() {
            break;
        }
        let Ok(reply) = sorteds.run(alloc, command) else {
            break;
        };
        let Ok(()) = replies.push(reply) else {
            unreachable!()
        };
        drop(rest.pop_front());
    }
    Played { replies, rest }
}
