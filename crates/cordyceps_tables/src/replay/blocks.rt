//! Cursor blocks: commands that run lines on a cursor.
//!
//! Memory for the replies and for all nodes that the lines insert is allocated before the first line is run. While the
//! lines run, the cursor's list is out of the table, so that a line may change another list.
ghost use Rattle.std.specs.Prelude.{◌≡◌, ◌+◌, ◌<◌, ◌≤◌, [], ◌∷◌, ◌++◌, true, not, ◌&&◌, nat_eq, nat_le, length, take, drop, IfOk, OnOk, OnErr, vec_capacity};
ghost use Rattle.std.specs.List.{flat_map};
ghost use Rattle.cordyceps_base.specs.Runs.{after, replies_to};
ghost use Rattle.cordyceps_list.specs.Cursor.{elements, place, lender, Stands};
ghost use Rattle.cordyceps_commands.specs.Replies.{lines_of};
ghost use Rattle.cordyceps_tables.specs.Tables.{held_at};
ghost use Rattle.cordyceps_tables.specs.Filters.{passes};
ghost use Rattle.cordyceps_tables.specs.Blocks.{first_place, put_beside, cut_beside, insert, split_on, splice_on, line_step, state_of, made_for, made_for_all, block, run_lines, OtherFits, BlockFits, Goes, Obeys, Cuts, Reaches, LineRuns};

use crate::replay::filters::passes;
use crate::replay::nodes::node_of;
use crate::replay::replies::{block_of, done, index_of, len_of, not_there, nothing, reply_of};
use cordyceps_base::list::Links;
use cordyceps_base::node::Node;
use cordyceps_commands::{CursorCommand, Filter, Item, ListEnd, Reply};
use cordyceps_list::cursor_mut::CursorMut;
use cordyceps_list::list::List;
use std::alloc::{AllocError, Global};
use std::mem;

/// A side of a cursor's item.
#[derive(Clone, Copy)]
pub enum Side {
    /// After the item. At the null place, before the first item.
    After,
    /// Before the item. At the null place, after the last item.
    Before,
}

/// Sets the value of the item at the cursor.
fn set(cursor: &mut CursorMut<'_, Item>, value: u64) -> Reply
    ensures { Obeys cursor.old cursor.new (CursorCommand.Set value) result }
{
    let Some(item) = cursor.current_mut() else {
        return nothing();
    };
    item.value = value;
    done()
}

/// Sets the value of the next item.
fn set_next(cursor: &mut CursorMut<'_, Item>, value: u64) -> Reply
    ensures { Obeys cursor.old cursor.new (CursorCommand.SetNext value) result }
{
    let Some(item) = cursor.peek_next_mut() else {
        return nothing();
    };
    item.value = value;
    done()
}

/// Sets the value of the previous item.
fn set_prev(cursor: &mut CursorMut<'_, Item>, value: u64) -> Reply
    ensures { Obeys cursor.old cursor.new (CursorCommand.SetPrev value) result }
{
    let Some(item) = cursor.peek_prev_mut() else {
        return nothing();
    };
    item.value = value;
    done()
}

/// Reads the item at the cursor, and moves the cursor to the next place.
fn step(cursor: &mut CursorMut<'_, Item>) -> Reply
    ensures { Obeys cursor.old cursor.new CursorCommand.Next result }
{
    let Some(item) = cursor.next() else {
        return nothing();
    };
    reply_of(Some(*item))
}

/// Removes the first item that passes, from the cursor on.
fn remove_first(cursor: &mut CursorMut<'_, Item>, filter: Filter) -> Reply
    ensures { Obeys cursor.old cursor.new (CursorCommand.RemoveFirst filter) result }
{
    let mut turn = true;
    let removed = cursor.remove_first(
        move |item: &Item| -> bool
            ensures answer { result ≡ passes filter turn.entry item.now }
            ensures turned { turn.exit ≡ not turn.entry }
        {
            let is = passes(filter, turn, item);
            turn = !turn;
            is
        },
    );
    reply_of(removed.map(Node::into_value))
}

/// Inserts a node on a side of the cursor's.
fn insert(cursor: &mut CursorMut<'_, Item>, side: Side, node: Node<Item, Links<Item>>) -> Reply
    ensures { Goes cursor.old cursor.new (insert side (elements cursor.old) (place cursor.old) node) result }
{
    if cursor.len() == usize::MAX {
        return not_there();
    }
    match side {
        Side::After => cursor.insert_after(node),
        Side::Before => cursor.insert_before(node),
    }
    done()
}

/// Removes the first of the nodes that were made.
fn first_of(nodes: &mut List<Item>) -> Node<Item, Links<Item>>
    requires { 0 < length nodes.old }
    ensures { nodes.old ≡ result ∷ nodes.new }
{
    let Some(node) = nodes.pop_front() else {
        unreachable!()
    };
    node
}

/// Runs a line on the cursor's list alone. Lines that insert an item, or name another list, are not run here.
fn run_call(cursor: &mut CursorMut<'_, Item>, line: CursorCommand) -> Reply
    ensures { Obeys cursor.old cursor.new line result }
{
    match line {
        CursorCommand::MoveNext => {
            cursor.move_next();
            done()
        }
        CursorCommand::MovePrev => {
            cursor.move_prev();
            done()
        }
        CursorCommand::Current => reply_of(cursor.current().copied()),
        CursorCommand::PeekNext => reply_of(cursor.peek_next().copied()),
        CursorCommand::PeekPrev => reply_of(cursor.peek_prev().copied()),
        CursorCommand::Index => index_of(cursor.index()),
        CursorCommand::Len => len_of(cursor.len()),
        CursorCommand::Set(value) => set(cursor, value),
        CursorCommand::SetNext(value) => set_next(cursor, value),
        CursorCommand::SetPrev(value) => set_prev(cursor, value),
        CursorCommand::Next => step(cursor),
        CursorCommand::RemoveCurrent => reply_of(cursor.remove_current().map(Node::into_value)),
        CursorCommand::RemoveFirst(filter) => remove_first(cursor, filter),
        CursorCommand::InsertAfter(_) | CursorCommand::InsertBefore(_) => not_there(),
        CursorCommand::SplitAfter(_) | CursorCommand::SplitBefore(_) => not_there(),
        CursorCommand::SpliceAfter(_) | CursorCommand::SpliceBefore(_) => not_there(),
        CursorCommand::End => done(),
    }
}

/// Returns `true` if another list can take what a split cuts off.
fn is_free(lists: &[List<Item>], list: usize, other: u8) -> bool
    requires { other < length lists.now }
    ensures { result ≡ (not (nat_eq list other) && nat_eq (length (held_at lists.now other)) 0) }
{
    list != other as usize && lists[other as usize].len() == 0
}

/// Returns `true` if another list fits into one with `len` items.
fn fits_in(lists: &[List<Item>], list: usize, len: usize, other: u8) -> bool
    requires { other < length lists.now }
    ensures { result ≡ (not (nat_eq list other) && nat_le (len + length (held_at lists.now other)) usize.MAX) }
{
    list != other as usize && lists[other as usize].len() <= usize::MAX - len
}

/// Cuts off the items on a side of the cursor's.
fn cut(cursor: &mut CursorMut<'_, Item>, side: Side) -> List<Item>
    ensures { Cuts cursor.old cursor.new result (cut_beside side (elements cursor.old) (place cursor.old)) }
{
    match side {
        Side::After => cursor.split_after(),
        Side::Before => cursor.split_before(),
    }
}

/// Moves the items on a side of the cursor's to another list.
fn split(
    lists: &mut [List<Item>],
    list: usize,
    cursor: &mut CursorMut<'_, Item>,
    side: Side,
    other: u8,
) -> Reply
    requires list { list < length lists.old }
    requires other { other < length lists.old }
    ensures { Reaches list lists.new cursor.old cursor.new
        (split_on (state_of lists.old list cursor.old) list side other) result }
{
    if !is_free(lists, list, other) {
        return not_there();
    }
    lists[other as usize] = cut(cursor, side);
    done()
}

/// Puts all items of a list on a side of the cursor's.
fn put(cursor: &mut CursorMut<'_, Item>, side: Side, more: List<Item>)
    requires { length (elements cursor.old) + length more ≤ usize.MAX }
    ensures { let put = put_beside side (elements cursor.old) (place cursor.old) more in
        Stands cursor.old cursor.new put.0 put.1 }
{
    match side {
        Side::After => cursor.splice_after(more),
        Side::Before => cursor.splice_before(more),
    }
}

/// Moves all items of another list to a side of the cursor's.
fn splice(
    lists: &mut [List<Item>],
    list: usize,
    cursor: &mut CursorMut<'_, Item>,
    side: Side,
    other: u8,
) -> Reply
    requires list { list < length lists.old }
    requires other { other < length lists.old }
    ensures { Reaches list lists.new cursor.old cursor.new
        (splice_on (state_of lists.old list cursor.old) list side other) result }
{
    if !fits_in(lists, list, cursor.len(), other) {
        return not_there();
    }
    let more = mem::replace(&mut lists[other as usize], List::new());
    put(cursor, side, more);
    done()
}

/// Runs a line. The cursor's list was taken out of the lists. The node that the line inserts is the first of those that
/// were made.
fn run_line(
    lists: &mut [List<Item>],
    list: usize,
    cursor: &mut CursorMut<'_, Item>,
    nodes: &mut List<Item>,
    line: CursorCommand,
) -> Reply
    requires list { list < length lists.old }
    requires count { length lists.old ≡ 16 }
    requires other { OtherFits line }
    requires nodes { take (length (made_for line)) nodes.old ≡ made_for line }
    ensures steps { LineRuns list lists.old lists.new cursor.old cursor.new line result }
    ensures nodes { nodes.new ≡ drop (length (made_for line)) nodes.old }
{
    match line {
        CursorCommand::InsertAfter(_) => insert(cursor, Side::After, first_of(nodes)),
        CursorCommand::InsertBefore(_) => insert(cursor, Side::Before, first_of(nodes)),
        CursorCommand::SplitAfter(other) => split(lists, list, cursor, Side::After, other),
        CursorCommand::SplitBefore(other) => split(lists, list, cursor, Side::Before, other),
        CursorCommand::SpliceAfter(other) => splice(lists, list, cursor, Side::After, other),
        CursorCommand::SpliceBefore(other) => splice(lists, list, cursor, Side::Before, other),
        _ => run_call(cursor, line),
    }
}

/// Runs lines, with the nodes that were made for them. Requires capacity for the replies.
fn run_lines(
    lists: &mut [List<Item>],
    list: usize,
    cursor: &mut CursorMut<'_, Item>,
    mut nodes: List<Item>,
    lines: &[CursorCommand],
    replies: &mut Vec<Reply>,
)
    requires list { list < length lists.old }
    requires count { length lists.old ≡ 16 }
    requires fit { BlockFits lines.now }
    requires nodes { nodes ≡ made_for_all lines.now }
    requires room { length replies.old.items + length lines.now ≤ vec_capacity replies.old }
    ensures same_reference { lender cursor.new ≡ lender cursor.old }
    ensures state { state_of lists.new list cursor.new
        ≡ after (line_step list) (state_of lists.old list cursor.old) lines.now }
    ensures told { flat_map lines_of replies.new.items
        ≡ flat_map lines_of replies.old.items
        ++ replies_to (line_step list) (state_of lists.old list cursor.old) lines.now }
{
    for line in lines {
        let reply = run_line(lists, list, cursor, &mut nodes, *line);
        let Ok(()) = replies.push(reply) else {
            unreachable!()
        };
    }
}

/// Returns a cursor at an end of a list.
fn cursor_at(list: &mut List<Item>, end: ListEnd) -> CursorMut<'_, Item>
    ensures same_reference { lender result ≡ list.entry.ghost_name }
    ensures elements { elements result ≡ list.old }
    ensures place { place result ≡ first_place end (length list.old) }
{
    match end {
        ListEnd::Front => list.cursor_front_mut(),
        ListEnd::Back => list.cursor_back_mut(),
    }
}

/// Runs lines on a cursor that begins at an end of a list. While they run, the list is out of the table.
fn run_at(
    lists: &mut [List<Item>],
    list: usize,
    end: ListEnd,
    nodes: List<Item>,
    lines: &[CursorCommand],
    replies: &mut Vec<Reply>,
)
    requires list { list < length lists.old }
    requires count { length lists.old ≡ 16 }
    requires fit { BlockFits lines.now }
    requires nodes { nodes ≡ made_for_all lines.now }
    requires room { length replies.old.items + length lines.now ≤ vec_capacity replies.old }
    ensures { (lists.new, flat_map lines_of replies.new.items)
        ≡ run_lines lists.old list end lines.now (flat_map lines_of replies.old.items) }
{
    let mut held = mem::replace(&mut lists[list], List::new());
    let mut cursor = cursor_at(&mut held, end);
    run_lines(lists, list, &mut cursor, nodes, lines, replies);
    drop(cursor);
    lists[list] = held;
}

/// Creates the node of a line that inserts one, and appends it to `nodes`; for other lines it does nothing.
fn make_for(alloc: Global, nodes: &mut List<Item>, line: CursorCommand) -> Result<(), AllocError>
    requires { length nodes.old < usize.MAX }
    ensures { OnOk result (nodes.new ≡ nodes.old ++ made_for line) }
{
    match line {
        CursorCommand::InsertAfter(item) | CursorCommand::InsertBefore(item) => {
            let node = node_of(alloc, item)?;
            nodes.push_back(node);
            Ok(())
        }
        _ => Ok(()),
    }
}

/// Creates the nodes that lines insert, in order.
fn make_all(alloc: Global, lines: &[CursorCommand]) -> Result<List<Item>, AllocError>
    ensures { IfOk result (λ nodes. nodes ≡ made_for_all lines.now) }
{
    let mut nodes = List::new();
    for line in lines {
        make_for(alloc, &mut nodes, *line)?;
    }
    Ok(nodes)
}

/// Runs a block. If memory for its nodes or its replies is refused, it changes nothing.
pub(crate) fn run_block(
    alloc: Global,
    lists: &mut [List<Item>],
    list: usize,
    end: ListEnd,
    lines: &[CursorCommand],
) -> Result<Reply, AllocError>
    requires list { list < length lists.old }
    requires count { length lists.old ≡ 16 }
    requires fit { BlockFits lines.now }
    ensures ok { IfOk result (λ reply. (lists.new, lines_of reply) ≡ block lists.old list end lines.now) }
    ensures err { OnErr result (lists.new ≡ lists.old) }
{
    let mut replies = Vec::new(alloc);
    replies.push(done())?;
    replies.reserve(lines.len())?;
    let nodes = make_all(alloc, lines)?;
    run_at(lists, list, end, nodes, lines, &mut replies);
    Ok(block_of(replies))
}
