//! Trees and nodes that go to other threads, and that threads share.
//!
//! A generic function says for every type of value what can be sent and shared: it is refused where that is not so.
ghost use Rattle.std.specs.Prelude.{◌≡◌};

use crate::calls::{Keys, holds, insert_all, make, parts};
use crate::compared::same;
use cordyceps_tree::iter::Iter;
use cordyceps_tree::node::TreeNode;
use cordyceps_tree::stable_tree::StableTree;
use std::marker::{Send, Sync};
use test_support::travels::{sent, shared};

/// A tree can be sent where its values and its order can, and a node where its value can.
fn trees_travel<T: Send, O: Send>(
    tree: StableTree<T, O>,
    node: TreeNode<T>,
) -> (StableTree<T, O>, TreeNode<T>)
    ensures { (result.0 ≡ tree) × (result.1 ≡ node) }
{
    (sent(tree), sent(node))
}

/// A tree can be shared where its values and its order can. An iterator can be sent where the values can be shared.
fn trees_are_shared<'a, T: Sync, O: Sync>(
    tree: &StableTree<T, O>,
    iter: Iter<'a, T>,
) -> Iter<'a, T> {
    let _ = shared(tree);
    sent(iter)
}

#[test]
fn trees_go_to_threads(rt: HostRuntime) {
    let mut tree: Keys = StableTree::new_min();
    insert_all(&rt, rt.alloc(), &mut tree, &[(1, 20), (2, 10)]);
    let (tree, node) = trees_travel(tree, make(&rt, rt.alloc(), (3, 30)));
    let mut iter = trees_are_shared(&tree, tree.iter());
    same(&rt, iter.next().is_some(), true);
    holds(&rt, &tree, &[(2, 10), (1, 20)]);
    same(&rt, parts(Some(node)), Some((3, 30)));
}
