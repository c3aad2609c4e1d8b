// Refusal 11: each Scan's table is there.
ghost use Rattle.reading.specs.Tree.{operator_of};
ghost use Rattle.reading.specs.Nodes.{TableFound, TablesFound};

use crate::kinds::Kind;
use crate::plan::{Node, node_at};
use crate::tree::nodes_of;

// Whether the node is no Scan, or its table is one of so many.
fn table_found(tables: usize, node: Node) -> bool
    ensures { TableFound tables (operator_of node) result }
{
    match node.kind {
        Kind::Scan => (node.arg as usize) < tables,
        _ => true,
    }
}

// Whether every node's table is one of so many.
pub(crate) fn tables_found(tables: usize, plan: &[u8]) -> bool
    ensures { TablesFound tables plan.now result }
{
    for i in 0..nodes_of(plan) {
        if !table_found(tables, node_at(plan, i)) {
            return false;
        }
    }
    true
}
