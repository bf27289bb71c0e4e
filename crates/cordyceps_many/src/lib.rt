//! Nodes that are in several lists at once.
//!
//! Take a `MultiList` where an element has to be in several orders at a time, as a task in the list of all tasks, in
//! one by state, and in one by deadline. A node is in list 0 from when it comes until it leaves, and in any of up to
//! three others. If nodes are also found by a key, take a `StableMap` of `cordyceps_map`.
//!
//! `multi_list` has the calls, `links` what a call changes in one list, `rows` reads and writes of one hook, and
//! `hooks` the number of lists.
//!
//! Proved: what a call makes of its list, and that it changes nothing else; which spots are valid after it; that list 0
//! has every node, and that no list has one twice. Only tested: that a drop leaves no node, and that `MultiNode::new`
//! is the only call that allocates.
//!
//! A node takes 16 bytes for each list, 16 bytes for its number and the word behind it, its value, and with more than
//! one list 8 bytes for the marks. The lists take 24 bytes each. Calls by a spot are O(1), `remove` and `unlink_others`
//! O(1) for each list, and `link_in_order` O(k + 1), for k nodes that are greater.
#![tactic(auto)]

mod block;
pub mod hook;
pub mod hooks;
pub mod in_order;
pub mod iter;
mod links;
pub mod marked;
pub mod multi_list;
pub mod node;
mod rows;
