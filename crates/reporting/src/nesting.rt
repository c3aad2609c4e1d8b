// Which inner plans are run for each left row, and which once.
ghost use Rattle.std.specs.Prelude.{◌≡◌};
ghost use Rattle.reading.specs.Tree.{operator_of};
ghost use Rattle.reading.specs.Nodes.{operator_nested};
ghost use Rattle.reporting.specs.Evaluation.{RunsOnce};

use reading::free::avoids_at;
use reading::kinds::Kind;
use reading::plan::Node;

// Whether a node's second child is an inner plan, run for each left row.
fn is_nested(node: Node) -> bool
    ensures { result ≡ operator_nested (operator_of node) }
{
    match node.kind {
        Kind::Some | Kind::Every | Kind::Fold | Kind::Each => true,
        _ => false,
    }
}

// Whether an inner plan names a column of the left rows is found out from so many of them on: that takes as long as running it once or twice.
const FEW: usize = 4;

// Whether the second child of a node, at place `right`, is run once for all of the m rows of the first, at place `left`: where the node is not
// nested, and where there are not few left rows and the inner plan names none of their columns, so that it gives each of them the same rows.
pub(crate) fn runs_once(
    set: &[u8],
    plan: &[u8],
    left: usize,
    right: usize,
    node: Node,
    m: usize,
) -> bool
    ensures { RunsOnce set.now plan.now left right (operator_of node) result }
{
    if !is_nested(node) {
        return true;
    }
    if m < FEW {
        return false;
    }
    avoids_at(set, plan, right, left)
}
