// The tree of a plan's nodes: where the tree at a place ends.
ghost use Rattle.std.specs.Prelude.{◌≡◌, ◌≤◌, ◌+◌, min};
ghost use Rattle.algebra.specs.Places.{size};
ghost use Rattle.reading.specs.Plan.{nodes_of};
ghost use Rattle.reading.specs.Tree.{plan_at, whole_tree};

use crate::bytes::byte_at;
use crate::kinds::children_of;
use crate::plan::node_at;

// How many nodes the plan's header says.
pub fn nodes_of(plan: &[u8]) -> usize
    ensures { (result ≡ nodes_of plan.now) × (result ≤ 255) }
{
    byte_at(plan, 5) as usize
}

// The end of a tree, its columns, its bound and its need are recursions of their own on the nodes that remain, so that each says its rule whole.
// The place after the tree at place i, by recursion on the nodes that remain; one past the last place where the tree lacks a child.
pub fn tree_end(plan: &[u8], i: usize) -> usize
    ensures { result ≡ min (i + size (plan_at plan.now i)) (nodes_of plan.now + 1) }
{
    let n = nodes_of(plan);
    if n <= i {
        return n + 1;
    }
    let node = node_at(plan, i);
    let children = children_of(node.kind);
    if children == 0 {
        return i + 1;
    }
    let next = tree_end(plan, i + 1);
    if children == 1 {
        return next;
    }
    tree_end(plan, next)
}

// Whether no child is missing and no node is left over.
pub fn whole_tree(plan: &[u8]) -> bool
    ensures { result ≡ whole_tree plan.now }
{
    let n = nodes_of(plan);
    tree_end(plan, 0) == n
}
