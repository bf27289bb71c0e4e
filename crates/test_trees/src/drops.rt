//! How often a tree drops what it holds, and what was removed from it.
ghost use Rattle.std.specs.Prelude.{◌≡◌, refl};
ghost use Rattle.std.specs.Ordering.{nat_cmp};
ghost use Rattle.std.proofs.Common.{subst, sym};
ghost use Rattle.cordyceps_single.specs.Preorder.{IsPreorder, by_number_lawful};

use crate::compared::{at_most, made, same};
use cordyceps_single::sorted_list::Order;
use cordyceps_tree::node::TreeNode;
use cordyceps_tree::stable_tree::StableTree;
use cordyceps_tree::tree_map::TreeMap;
use std::alloc::Global;
use std::cmp::Ordering;
use std::process::Abort;
use test_support::counted::{Counted, Drops};

/// The order of the values.
#[derive(Drop)]
struct ByValue;

impl Order<Counted> for ByValue {
    ghost use Rattle.test_support.specs.declared.counted.Counted.{Counted};

    ghost compares_by = { λ _ cmp. cmp ≡ (λ x y. nat_cmp x.value y.value) };

    ghost computes = { λ _ _. ((λ x y. nat_cmp x.value y.value), refl) };

    ghost lawful = { λ _ cmp e. subst IsPreorder (sym e) (by_number_lawful (λ (x : Counted). x.value)) };

    fn compare(&self, first: &Counted, second: &Counted) -> Ordering {
        first.value.cmp(&second.value)
    }
}

/// Returns a tree of so many elements.
fn counted(
    rt: &impl Abort,
    alloc: Global,
    count: u64,
    drops: &Drops,
) -> StableTree<Counted, ByValue> {
    let mut tree = StableTree::new_with_order(ByValue);
    for number in 0..count {
        at_most(rt, tree.len(), 100);
        let value = made(rt, Counted::new(number % 7, drops));
        tree.insert(made(rt, TreeNode::new(alloc, number, value)));
    }
    tree
}

#[test]
fn a_tree_drops_each_element_once(rt: HostRuntime) {
    let drops = made(&rt, Drops::new(rt.alloc()));
    let mut tree = counted(&rt, rt.alloc(), 60, &drops);
    drop(tree.pop_front());
    drop(tree.pop_back());
    same(&rt, (tree.len(), drops.count()), (58, 2));
    tree.clear();
    same(&rt, (tree.len(), drops.count()), (0, 60));
    let tree = counted(&rt, rt.alloc(), 30, &drops);
    same(&rt, drops.count(), 60);
    drop(tree);
    same(&rt, drops.count(), 90);
}

/// Puts a value at a key of a map, and returns whether the key was there.
fn enter(
    rt: &impl Abort,
    alloc: Global,
    map: &mut TreeMap<u64, Counted>,
    key: u64,
    drops: &Drops,
) -> bool {
    at_most(rt, map.len(), 100);
    let value = made(rt, Counted::new(key, drops));
    let node = made(rt, TreeNode::new(alloc, key, (key, value)));
    map.insert(node).replaced.is_some()
}

#[test]
fn a_map_drops_each_node_once(rt: HostRuntime) {
    let drops = made(&rt, Drops::new(rt.alloc()));
    let mut map = TreeMap::new();
    let mut replaced = 0u64;
    for number in 0..60u64 {
        if enter(&rt, rt.alloc(), &mut map, number % 50, &drops) {
            replaced = replaced.wrapping_add(1);
        }
    }
    same(&rt, (map.len(), replaced, drops.count()), (50, 10, 10));
    drop(map.remove(&7));
    drop(map.pop_first());
    drop(map.pop_last());
    same(&rt, (map.len(), drops.count()), (47, 13));
    map.clear();
    same(&rt, (map.len(), drops.count()), (0, 60));
    enter(&rt, rt.alloc(), &mut map, 1, &drops);
    drop(map);
    same(&rt, drops.count(), 61);
}
