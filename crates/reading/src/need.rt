// The need in cells: what all nodes count, plus 4,096 cells of scratch.
ghost use Rattle.std.specs.Prelude.{◌≡◌, true, ◌<◌};
ghost use Rattle.algebra.specs.Lists.{all};
ghost use Rattle.algebra.specs.Places.{subtrees};
ghost use Rattle.algebra.specs.Refusals.{has_region, counted_rows, narrow, low, need};
ghost use Rattle.reading.specs.TableSet.{tables_of};
ghost use Rattle.reading.specs.Plan.{nodes_of};
ghost use Rattle.reading.specs.Tree.{operator_of, plan_at, plan_of};
ghost use Rattle.reading.specs.Nodes.{capped_share, capped_part};

use crate::bound::bound_at;
use crate::columns::columns_at;
use crate::kinds::{Kind, children_of};
use crate::plan::{Node, node_at};
use crate::tree::{nodes_of, tree_end};

// Whether a node's rows take a region of scratch; Select, Project, Semi, Anti, Some and Every pass rows on without one.
fn has_region(node: Node) -> bool
    ensures { result ≡ has_region (operator_of node) }
{
    match node.kind {
        Kind::Select | Kind::Project | Kind::Semi | Kind::Anti | Kind::Some | Kind::Every => false,
        _ => true,
    }
}

// The rows that a node of a bound counts: all of them where it has a region; else one, and none where the bound is 0.
pub fn counted_rows(node: Node, bound: usize) -> usize
    ensures { result ≡ counted_rows (has_region (operator_of node)) bound }
{
    if has_region(node) {
        return bound;
    }
    if bound < 1 { 0 } else { 1 }
}

// The cells that the node at place i counts.
fn share_at(set: &[u8], plan: &[u8], i: usize) -> usize
    requires { i < nodes_of plan.now }
    ensures { result ≡ capped_share (tables_of set.now) (plan_at plan.now i) }
{
    let rows = counted_rows(node_at(plan, i), bound_at(set, plan, i));
    rows * columns_at(set, plan, i)
}

// The cells that the tree at place i counts, all its nodes, by recursion on the nodes that remain.
pub fn part_at(set: &[u8], plan: &[u8], i: usize) -> usize
    ensures { result ≡ capped_part (tables_of set.now) (plan_at plan.now i) }
{
    if nodes_of(plan) <= i {
        return 0;
    }
    let node = node_at(plan, i);
    let children = children_of(node.kind);
    let own = share_at(set, plan, i);
    if children == 0 {
        return own;
    }
    let first = part_at(set, plan, i + 1);
    if children == 1 {
        return own + first;
    }
    let j = tree_end(plan, i + 1);
    own + first + part_at(set, plan, j)
}

// The need of a plan that passes 13 and 14.
pub(crate) fn need_of(set: &[u8], plan: &[u8]) -> usize
    requires plan_value { all (narrow (tables_of set.now)) (subtrees (plan_of plan.now)) ≡ true }
    requires plan_value_2 { all (low (tables_of set.now)) (subtrees (plan_of plan.now)) ≡ true }
    ensures { result ≡ need (tables_of set.now) (plan_of plan.now) }
{
    part_at(set, plan, 0) + 4096
}
