// The rule that can fit at a node, and what it makes of the node's tree, so far as the plan alone decides. Here stand U7 and U8, and which
// function answers for which kind.
ghost use Rattle.std.specs.Prelude.{◌≡◌, ◌⊎◌, false};
ghost use Rattle.algebra.specs.Plans.{is_plain};
ghost use Rattle.reading.specs.Tree.{node_test, operator_of};
ghost use Rattle.reading.specs.declared.kinds.Kind.TheVariants.{Semi, Anti, Each};
ghost use Rattle.unnesting.specs.Shapes.{ShapedAt, number_of_rule, operator_rule};

use crate::change::{Change, More};
use crate::count::{count_shape, group_shape};
use crate::image::plain_node;
use crate::join::join_shape;
use crate::place::Place;
use crate::rule::Rule;
use reading::free::{is_closed, local_at};
use reading::kinds::Kind;
use reading::plan::{Node, Test};

// Whether the node's test is a plain always.
fn is_plain(node: Node) -> bool
    ensures { result ≡ is_plain (node_test node) }
{
    matches!(node.test, Test::Always) && !node.negated
}

// The rule that can fit at a node; None where none can.
pub(crate) fn rule_of(node: Node) -> Option<Rule>
    ensures { number_of_rule result ≡ operator_rule (operator_of node) }
{
    match node.kind {
        Kind::Semi if is_plain(node) => Some(Rule::U3),
        Kind::Anti if is_plain(node) => Some(Rule::U4),
        Kind::Semi | Kind::Anti => Some(Rule::U7),
        Kind::Some => Some(Rule::U1),
        Kind::Every => Some(Rule::U2),
        Kind::Fold => Some(Rule::U5),
        Kind::Each => Some(Rule::U8),
        Kind::Pair => Some(Rule::U6),
        _ => None,
    }
}

// U7: the test of a Semi or an Anti moves to a new Select above f.
fn move_shape(place: Place) -> Option<Change>
    requires { ((place.node.kind ≡ Semi) ⊎ (place.node.kind ≡ Anti)) × (is_plain (node_test place.node) ≡ false) }
    ensures { ShapedAt place.entry.set.now place.entry.plan.now place.entry.i result }
{
    let f = place.second();
    let node = place.node;
    if !local_at(place.set, place.plan, node, f) {
        return None;
    }
    Some(Change {
        first: Node {
            left: node.left,
            right: node.right,
            ..plain_node(node.kind)
        },
        keep: f,
        more: More::One(Node {
            negated: node.negated,
            test: node.test,
            ..plain_node(Kind::Select)
        }),
        from: f,
    })
}

// U8: an Each becomes a Cross.
fn cross_shape(place: Place) -> Option<Change>
    requires { place.node.kind ≡ Each }
    ensures { ShapedAt place.entry.set.now place.entry.plan.now place.entry.i result }
{
    let f = place.second();
    if !is_closed(place.set, place.plan, f) {
        return None;
    }
    Some(Change {
        first: plain_node(Kind::Cross),
        keep: f,
        more: More::Nothing,
        from: f,
    })
}

// What the rule of the node at a place makes of its tree, so far as the plan alone decides.
pub(crate) fn shape_at(place: Place) -> Option<Change>
    ensures { ShapedAt place.entry.set.now place.entry.plan.now place.entry.i result }
{
    match place.node.kind {
        Kind::Semi | Kind::Anti => {
            if is_plain(place.node) {
                return count_shape(place);
            }
            move_shape(place)
        }
        Kind::Some | Kind::Every | Kind::Fold => join_shape(place),
        Kind::Each => cross_shape(place),
        Kind::Pair => group_shape(place),
        _ => None,
    }
}
