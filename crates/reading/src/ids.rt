// Refusal 12, its first half: an id is introduced once in a plan, and none is above 255.
ghost use Rattle.std.specs.Prelude.{◌≡◌, ◌++◌, ◌≤◌, ◌<◌};
ghost use Rattle.algebra.specs.Lists.{upward};
ghost use Rattle.algebra.specs.Refusals.{once};
ghost use Rattle.reading.specs.TableSet.{tables_of};
ghost use Rattle.reading.specs.Plan.{nodes_of};
ghost use Rattle.reading.specs.Tree.{operator_of};
ghost use Rattle.reading.specs.Flags.{Marks};
ghost use Rattle.reading.specs.Nodes.{operator_new, key_new, ids_of};

use crate::flags::mark_ids;
use crate::kinds::Kind;
use crate::plan::{Node, node_at};
use crate::set::{columns_of, table_from};
use crate::tree::nodes_of;

// How many ids the node introduces from byte 2 upward: a Scan its table's columns, a Fold, a Pair and a Group one.
pub fn new_ids(set: &[u8], node: Node) -> usize
    ensures { (operator_new (tables_of set.now) (operator_of node) ≡ key_new node ++ upward result node.id) × (result ≤ 255) }
{
    match node.kind {
        Kind::Scan => columns_of(table_from(set, node.arg as usize)),
        Kind::Fold | Kind::Pair | Kind::Group => 1,
        _ => 0,
    }
}

// Marks the ids that the node introduces, a Group the one in byte 3 first; none where one of them is not new or is above 255.
fn mark_node(flags: [u8; 256], set: &[u8], node: Node) -> Option<[u8; 256]>
    ensures { Marks flags (operator_new (tables_of set.now) (operator_of node)) result }
{
    let first = node.id as usize;
    let count = new_ids(set, node);
    match node.kind {
        Kind::Group => {
            let marks = mark_ids(flags, node.left as usize, 1)?;
            mark_ids(marks, first, count)
        }
        _ => mark_ids(flags, first, count),
    }
}

// Whether each id is introduced once, and none is above 255: flags of the introduced ids, filled in one walk.
pub(crate) fn ids_once(set: &[u8], plan: &[u8]) -> bool
    ensures { result ≡ once (ids_of (tables_of set.now) plan.now (nodes_of plan.now) 0) }
{
    let mut flags = [0u8; 256];
    for i in 0..nodes_of(plan) {
        let Some(marks) = mark_node(flags, set, node_at(plan, i)) else {
            return false;
        };
        flags = marks;
    }
    true
}
