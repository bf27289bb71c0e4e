//! Balanced search trees whose elements are reached by stable pointers, their spots, and maps in order of their keys.
//!
//! Take a `StableTree` for many elements that arrive in any order, where the longest call counts and not the mean one,
//! or where elements are searched: the first that is not less than a value, and from there on in order. Where most
//! elements arrive nearly in order, a `StableSortedList` of `cordyceps_stable` is enough, and its nodes are smaller.
//! Where only the least is asked for, a `StableHeap` of `cordyceps_heap` is too, but now and then it sorts many at
//! once.
//!
//! Take a `TreeMap` for values by keys of which no two are equal, where the next key or a range of keys is asked for.
//! Where keys are only looked up, a `StableMap` of `cordyceps_map` is quicker.
//!
//! `stable_tree` and `tree_map` have the calls, `node` the nodes, `iter` and `map_range` the iterators, `rooted` the
//! tree without its order, `keyed` the order by keys, `finding` searches, `planting` and `removing` what comes and
//! leaves, `settle` and `turning` what balances, and `walking` the steps from a node to its neighbours.
//!
//! Proved: that the elements are sorted, and equal ones in order of arrival; that no element is lost; which spots are
//! valid after a call; what a search finds; that a tree of n elements is at most 1.44 log2(n + 2) high, and that
//! `insert_in` counts no more comparisons. Only tested: that it counts each, how often another call asks the order, and
//! that a drop leaves no node.
//!
//! A tree takes 24 bytes and its order, a map 24 bytes, and a node 48 bytes and its value. `first`, `get`, `len` and
//! `height` are O(1). A call that inserts, removes, searches or steps to a neighbour is O(log n) in the worst case, a
//! walk over k elements O(log n + k), and `clear` and a drop O(n log n). No call allocates but `TreeNode::new`, and
//! none recurs.
#![tactic(auto)]

mod alone;
mod block;
mod cutting;
mod finding;
mod hook;
pub mod iter;
mod keyed;
pub mod map_range;
pub mod node;
mod planting;
mod removing;
mod rooted;
mod rows;
mod settle;
pub mod stable_tree;
pub mod tree_map;
mod turning;
mod walking;
