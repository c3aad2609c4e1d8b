// Refusal 13: how many columns a node's rows have. 33 stands for every number above 32.
ghost use Rattle.std.specs.Prelude.{◌≡◌, ◌≤◌, min};
ghost use Rattle.algebra.specs.Refusals.{width, narrow};
ghost use Rattle.reading.specs.Bytes.{all_below};
ghost use Rattle.reading.specs.TableSet.{tables_of};
ghost use Rattle.reading.specs.Plan.{nodes_of};
ghost use Rattle.reading.specs.Tree.{operator_of, plan_at};
ghost use Rattle.reading.specs.Nodes.{operator_width};

use crate::kinds::{Kind, children_of};
use crate::plan::{Node, node_at};
use crate::set::{columns_of, table_from};
use crate::tree::{nodes_of, tree_end};

fn capped(x: usize) -> usize
    ensures { result ≡ min x 33 }
{
    if x < 33 { x } else { 33 }
}

// The columns of a node, of those of its children.
fn node_columns(set: &[u8], node: Node, first: usize, second: usize) -> usize
    requires { (first ≤ 33) × (second ≤ 33) }
    ensures { result ≡ min (operator_width (tables_of set.now) (operator_of node) first second) 33 }
{
    match node.kind {
        Kind::Scan => {
            let t = node.arg as usize;
            capped(columns_of(table_from(set, t)))
        }
        Kind::Project | Kind::Distinct => node.list.len(),
        Kind::Cross | Kind::Each => capped(first + second),
        Kind::Fold | Kind::Pair => capped(first + 1),
        Kind::Group => 2,
        Kind::Select | Kind::Semi | Kind::Anti | Kind::Some | Kind::Every | Kind::Sort => first,
        Kind::Unit | Kind::Other(_) => 0,
    }
}

// The columns of the tree at place i, by recursion on the nodes that remain: a recursion of its own, as `tree_end` says.
pub fn columns_at(set: &[u8], plan: &[u8], i: usize) -> usize
    ensures { result ≡ min (width (tables_of set.now) (plan_at plan.now i)) 33 }
{
    if nodes_of(plan) <= i {
        return 0;
    }
    let node = node_at(plan, i);
    let children = children_of(node.kind);
    if children == 0 {
        return node_columns(set, node, 0, 0);
    }
    let first = columns_at(set, plan, i + 1);
    if children == 1 {
        return node_columns(set, node, first, 0);
    }
    let j = tree_end(plan, i + 1);
    let second = columns_at(set, plan, j);
    node_columns(set, node, first, second)
}

// Whether no node's rows have over 32 columns.
pub(crate) fn rows_narrow(set: &[u8], plan: &[u8]) -> bool
    ensures { result ≡ all_below (nodes_of plan.now) (λ i. narrow (tables_of set.now) (plan_at plan.now i)) }
{
    for i in 0..nodes_of(plan) {
        if 32 < columns_at(set, plan, i) {
            return false;
        }
    }
    true
}
