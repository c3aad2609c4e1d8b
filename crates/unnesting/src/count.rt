// U3, U4 and U6 so far as the plan alone decides: Semi, Anti and Pair that count or gather by the key of their first child.
ghost use Rattle.std.specs.Prelude.{◌≡◌, ◌⊎◌, true, false, ◌<◌, cond};
ghost use Rattle.std.proofs.Math.Option.{some};
ghost use Rattle.algebra.specs.Cells.{origin};
ghost use Rattle.algebra.specs.Plans.{is_plain};
ghost use Rattle.algebra.specs.Rules.{only_of};
ghost use Rattle.reading.specs.TableSet.{tables_of};
ghost use Rattle.reading.specs.Plan.{nodes_of};
ghost use Rattle.reading.specs.Tree.{node_test, plan_at};
ghost use Rattle.reading.specs.declared.kinds.Kind.TheVariants.{Select, Semi, Anti, Pair, Group};
ghost use Rattle.reading.specs.declared.comparison.Comparison.TheVariants.{Equal, Greater};
ghost use Rattle.reading.specs.declared.plan.Test.TheVariants.{Number};
ghost use Rattle.reporting.specs.Sides.{is_anti};
ghost use Rattle.unnesting.specs.Counts.{count_change, key_only, keyed};
ghost use Rattle.unnesting.specs.Images.{plain_node, project_node};
ghost use Rattle.unnesting.specs.Shapes.{Shaped, ShapedAt};

use crate::change::{Change, More};
use crate::ids::fresh_id;
use crate::image::plain_node;
use crate::place::Place;
use reading::comparison::Comparison;
use reading::free::{is_closed, local_at};
use reading::kinds::Kind;
use reading::plan::{IdList, Node, Test, node_at};

// Whether the tree at place e is a Distinct of that column alone.
fn only_key(plan: &[u8], e: usize, key: u8) -> bool
    requires { e < nodes_of plan.now }
    ensures { result ≡ key_only key (only_of (plan_at plan.now e)) }
{
    let node = node_at(plan, e);
    match node.kind {
        Kind::Distinct => node.list.count == 1 && node.list.ids[0] == key,
        _ => false,
    }
}

// Whether the tree at place e is a Distinct of that column alone, and neither it nor the tree at place f names a column from outside itself.
fn is_keyed(set: &[u8], plan: &[u8], key: u8, e: usize, f: usize) -> bool
    requires { e < nodes_of plan.now }
    ensures { result ≡ keyed (tables_of set.now) key (plan_at plan.now e) (plan_at plan.now f) }
{
    only_key(plan, e, key) && is_closed(set, plan, e) && is_closed(set, plan, f)
}

// A Project of one column.
fn project_node(id: u8) -> Node
    ensures { result ≡ project_node id }
{
    Node {
        list: IdList::one(id),
        ..plain_node(Kind::Project)
    }
}

// A Select of a column with 0: for the kind Anti of =, else of >.
fn count_select(kind: Kind, c: u8) -> Node
    ensures { result ≡ plain_node Select 0 0 0 0 Equal 0 false (Number (cond (is_anti kind) Equal Greater) c origin) }
{
    let comparison = match kind {
        Kind::Anti => Comparison::Equal,
        _ => Comparison::Greater,
    };
    Node {
        test: Test::Number {
            comparison,
            left: c,
            number: 9223372036854775808,
        },
        ..plain_node(Kind::Select)
    }
}

// A Group that counts, by the node's keys, the rows that pass the test, under the id c.
fn count_group(node: Node, c: u8, negated: bool, test: Test) -> Node
    ensures { result ≡ plain_node Group 0 c node.left node.right Equal 0 negated test }
{
    Node {
        id: c,
        left: node.left,
        right: node.right,
        negated,
        test,
        ..plain_node(Kind::Group)
    }
}

// The change at place i that counts over the tree at place h.
fn count_change(i: usize, node: Node, c: u8, negated: bool, test: Test, h: usize) -> Change
    requires { i < 64 }
    ensures { result ≡ count_change i node c negated test h }
{
    Change {
        first: project_node(node.left),
        keep: i + 1,
        more: More::Two(
            count_select(node.kind, c),
            count_group(node, c, negated, test),
        ),
        from: h,
    }
}

// U3 and U4, with the id c for the count. Where the second child is a Select, its test goes into the Group.
fn count_under(place: Place, c: u8) -> Option<Change>
    requires { ((place.node.kind ≡ Semi) ⊎ (place.node.kind ≡ Anti)) × (is_plain (node_test place.node) ≡ true) }
    ensures { Shaped (tables_of place.entry.set.now) (some c) place.entry.plan.now place.entry.i result }
{
    let i = place.i;
    let node = place.node;
    let f = place.second();
    if !is_keyed(place.set, place.plan, node.left, i + 1, f) {
        return None;
    }
    let inner = node_at(place.plan, f);
    match inner.kind {
        Kind::Select => Some(count_change(i, node, c, inner.negated, inner.test, f + 1)),
        _ => Some(count_change(i, node, c, false, Test::Always, f)),
    }
}

// U3 for a Semi and U4 for an Anti with a plain always test; without a free id they do not fit.
pub(crate) fn count_shape(place: Place) -> Option<Change>
    requires { ((place.node.kind ≡ Semi) ⊎ (place.node.kind ≡ Anti)) × (is_plain (node_test place.node) ≡ true) }
    ensures { ShapedAt place.entry.set.now place.entry.plan.now place.entry.i result }
{
    let c = fresh_id(place.set, place.plan)?;
    count_under(place, c)
}

// A Pair's Group: its fields kept.
fn pair_group(node: Node) -> Node
    ensures { result ≡ plain_node Group node.arg node.id node.left node.right node.comparison node.column node.negated node.test }
{
    Node {
        kind: Kind::Group,
        list: IdList::NONE,
        ..node
    }
}

// U6 for a Pair.
pub(crate) fn group_shape(place: Place) -> Option<Change>
    requires { place.node.kind ≡ Pair }
    ensures { ShapedAt place.entry.set.now place.entry.plan.now place.entry.i result }
{
    let set = place.set;
    let plan = place.plan;
    let node = place.node;
    let f = place.second();
    if !is_keyed(set, plan, node.left, place.i + 1, f) || !local_at(set, plan, node, f) {
        return None;
    }
    Some(Change {
        first: pair_group(node),
        keep: place.i + 1,
        more: More::Nothing,
        from: f,
    })
}
