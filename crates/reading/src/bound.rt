// Refusal 14: the row bound of a node, held in 16 bits. 4,097 stands for every number above 4,096.
// A product is tested before it is formed.
ghost use Rattle.std.specs.Prelude.{◌≡◌, ◌*◌, ◌≤◌, min, leb};
ghost use Rattle.algebra.specs.Refusals.{bound, low};
ghost use Rattle.reading.specs.Bytes.{all_below};
ghost use Rattle.reading.specs.TableSet.{tables_of};
ghost use Rattle.reading.specs.Plan.{nodes_of};
ghost use Rattle.reading.specs.Tree.{operator_of, plan_at};
ghost use Rattle.reading.specs.Nodes.{operator_bound};

use crate::kinds::{Kind, children_of};
use crate::plan::{Node, node_at};
use crate::set::{rows_of, table_from};
use crate::tree::{nodes_of, tree_end};

// A count of rows, capped.
fn capped(x: usize) -> u16
    ensures { result ≡ min x 4097 }
{
    if x < 4097 { x as u16 } else { 4097 }
}

// Whether the product is at most 4,096: the quotient tells, and no product is formed.
fn product_low(first: u16, second: u16) -> bool
    ensures { result ≡ leb (first * second) 4096 }
{
    if second == 0 {
        return true;
    }
    first <= 4096 / second
}

// The product, capped. It is formed only where it is low, so that it fits 16 bits.
fn capped_product(first: u16, second: u16) -> u16
    ensures { result ≡ min (first * second) 4097 }
{
    let mut product = 4097;
    if product_low(first, second) {
        product = first * second;
    }
    product
}

// The bound of a node, of those of its children.
fn node_bound(set: &[u8], node: Node, first: u16, second: u16) -> u16
    requires { first ≤ 4097 }
    ensures { result ≡ min (operator_bound (tables_of set.now) (operator_of node) first second) 4097 }
{
    match node.kind {
        Kind::Unit | Kind::Other(_) => 1,
        Kind::Scan => {
            let t = node.arg as usize;
            capped(rows_of(table_from(set, t)))
        }
        Kind::Cross => capped_product(first, second),
        Kind::Each => {
            if second < 1 {
                return first;
            }
            capped_product(first, second)
        }
        _ => first,
    }
}

// The bound of the tree at place i, by recursion on the nodes that remain: a recursion of its own, as `tree_end` says.
fn running_bound(set: &[u8], plan: &[u8], i: usize) -> u16
    ensures { result ≡ min (bound (tables_of set.now) (plan_at plan.now i)) 4097 }
{
    if nodes_of(plan) <= i {
        return 1;
    }
    let node = node_at(plan, i);
    let children = children_of(node.kind);
    if children == 0 {
        return node_bound(set, node, 0, 0);
    }
    let first = running_bound(set, plan, i + 1);
    if children == 1 {
        return node_bound(set, node, first, 0);
    }
    let j = tree_end(plan, i + 1);
    let second = running_bound(set, plan, j);
    node_bound(set, node, first, second)
}

// The bound of the tree at place i. Its callers count cells with it, which takes more than 16 bits.
pub fn bound_at(set: &[u8], plan: &[u8], i: usize) -> usize
    ensures { result ≡ min (bound (tables_of set.now) (plan_at plan.now i)) 4097 }
{
    running_bound(set, plan, i) as usize
}

// Whether no node's bound is over 4,096.
pub(crate) fn bounds_low(set: &[u8], plan: &[u8]) -> bool
    ensures { result ≡ all_below (nodes_of plan.now) (λ i. low (tables_of set.now) (plan_at plan.now i)) }
{
    for i in 0..nodes_of(plan) {
        if 4096 < bound_at(set, plan, i) {
            return false;
        }
    }
    true
}
