// What a node with one child gives of its child's rows.
ghost use Rattle.std.specs.Prelude.{◌≡◌, ◌≤◌, length};
ghost use Rattle.reading.specs.Tree.{operator_of};
ghost use Rattle.reading.specs.Nodes.{arity};
ghost use Rattle.reporting.specs.Evaluation.{UnaryRoom, UnaryGiven};

use crate::distinct::distinct_front;
use crate::group::group;
use crate::select::{project, select};
use crate::sort::sort_by;
use reading::kinds::Kind;
use reading::plan::Node;

// Select, Project, Distinct, Group, Sort: of the child's m rows at `own`, at the front.
pub(crate) fn act(
    node: Node,
    cells: &mut [u64],
    own: usize,
    m: usize,
    ids: &[u8],
    env: &[u64],
) -> usize
    requires node_value { (arity (operator_of node) ≡ 1) × (length env.now ≡ 256) × (m ≤ 4096) × (length ids.now ≤ 32) }
    requires unary_room { UnaryRoom (operator_of node) ids.now own m (length cells.old) }
    ensures { UnaryGiven (operator_of node) ids.now env.now own m cells.old result cells.new }
{
    let list = node.list.as_slice();
    match node.kind {
        Kind::Select => {
            let form = node.test;
            select(node.negated, form, cells, own, m, ids, env)
        }
        Kind::Group => group(node, cells, own, m, ids, env),
        Kind::Sort => sort_by(cells, own, m, ids, list, node.arg == 1),
        Kind::Project => project(cells, own, m, ids, list, env),
        _ => {
            let given = project(cells, own, m, ids, list, env);
            distinct_front(cells, given, list.len())
        }
    }
}
