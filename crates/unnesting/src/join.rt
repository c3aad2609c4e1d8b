// U1, U2 and U5: Some and Every become Semi and Anti, and Fold becomes Pair, where the inner plan is a Select of a comparison that links its
// rows with the left row, or a Project over it.
ghost use Rattle.std.specs.Prelude.{◌≡◌, ◌⊎◌, true, false, ◌<◌, cond};
ghost use Rattle.algebra.specs.Lists.{flip};
ghost use Rattle.algebra.specs.Cells.{turn};
ghost use Rattle.algebra.specs.Plans.{columns_of, test as marked};
ghost use Rattle.algebra.specs.Rules.{top};
ghost use Rattle.reading.specs.Check.{input_refusal};
ghost use Rattle.reading.specs.Plan.{nodes_of};
ghost use Rattle.reading.specs.TableSet.{tables_of};
ghost use Rattle.reading.specs.Tree.{comparison_of, form_of, plan_at, whole_tree};
ghost use Rattle.reading.specs.declared.kinds.Kind.TheVariants.{Semi, Anti, Some, Every, Fold, Pair};
ghost use Rattle.reading.specs.declared.comparison.Comparison.TheVariants.{Equal};
ghost use Rattle.unnesting.specs.Images.{is_named, plain_node, test_comparison};
ghost use Rattle.unnesting.specs.Links.{Links, Stand, UnprojectedAt, is_every, key_link, link_comparison, top_link, without_select};
ghost use Rattle.unnesting.specs.Shapes.{ShapedAt};

use crate::change::{Change, More};
use crate::image::plain_node;
use crate::place::Place;
use reading::comparison::Comparison;
use reading::free::avoids_at;
use reading::kinds::Kind;
use reading::plan::{IdList, Node, Test, node_at};
use reading::view::add_columns;

// How a comparison links a left and a right row: a left key, a right key and the comparison of the two.
#[derive(Clone, Copy)]
pub struct Link {
    left: u8,
    right: u8,
    comparison: Comparison,
}

// The comparison that says the same with its sides exchanged: < and > change places, and ≤ and ≥.
fn turned(comparison: Comparison) -> Comparison
    ensures { (comparison_of result ≡ turn (comparison_of comparison)) × (is_named result ≡ true) }
{
    match comparison {
        Comparison::Equal => Comparison::Equal,
        Comparison::Unequal => Comparison::Unequal,
        Comparison::Less => Comparison::Greater,
        Comparison::AtMost => Comparison::AtLeast,
        Comparison::Greater => Comparison::Less,
        Comparison::AtLeast | Comparison::Other(_) => Comparison::AtMost,
    }
}

// Whether id a is flagged in the first and id b in the second.
fn stand(first: [u8; 256], second: [u8; 256], a: u8, b: u8) -> bool
    ensures { Stand first second a b result }
{
    first[a as usize] == 1 && second[b as usize] == 1
}

// How a comparison of two columns links two rows, whose columns are flagged.
fn columns_link(
    first: [u8; 256],
    second: [u8; 256],
    comparison: Comparison,
    a: u8,
    b: u8,
) -> Option<Link>
    ensures links { Links first second (marked false (columns_of (comparison_of comparison) a b)) result }
    ensures result_value { is_named comparison ≡ true → is_named (link_comparison result) ≡ true }
{
    if stand(first, second, a, b) {
        return Some(Link {
            left: a,
            right: b,
            comparison,
        });
    }
    if stand(first, second, b, a) {
        return Some(Link {
            left: b,
            right: a,
            comparison: turned(comparison),
        });
    }
    None
}

// How a test links two rows, whose columns are flagged.
fn link_of(first: [u8; 256], second: [u8; 256], negated: bool, test: Test) -> Option<Link>
    ensures links { Links first second (marked negated (form_of test)) result }
    ensures result_value { is_named (test_comparison test) ≡ true → is_named (link_comparison result) ≡ true }
{
    match test {
        Test::Columns {
            comparison,
            left,
            right,
        } if !negated => columns_link(first, second, comparison, left, right),
        _ => None,
    }
}

// The place of the tree at place f without its top Project, if it has one.
fn unprojected_at(plan: &[u8], f: usize) -> usize
    requires { (whole_tree plan.now ≡ true) × (f < nodes_of plan.now) }
    ensures { UnprojectedAt plan.now f result }
{
    match node_at(plan, f).kind {
        Kind::Project => f + 1,
        _ => f,
    }
}

// How the tree at place f, where it is a Select, links its child with the tree at place e.
fn link_at(set: &[u8], plan: &[u8], e: usize, f: usize) -> Option<Link>
    requires plan_value { input_refusal set.now plan.now ≡ 0 }
    requires f_bound { f < nodes_of plan.now }
    ensures result_value { key_link result ≡ top_link (tables_of set.now) (plan_at plan.now e) (top (plan_at plan.now f)) }
    ensures result_value_2 { is_named (link_comparison result) ≡ true }
{
    let node = node_at(plan, f);
    match node.kind {
        Kind::Select => {
            let none = [0u8; 256];
            let first = add_columns(none, set, plan, e);
            let second = add_columns(none, set, plan, f + 1);
            link_of(first, second, node.negated, node.test)
        }
        _ => None,
    }
}

// The Semi that Some becomes, or the Anti that Every becomes, with its not-mark turned.
fn semi_node(node: Node, left: u8, right: u8) -> Node
    ensures { result ≡ plain_node (cond (is_every node.kind) Anti Semi) 0 0 left right Equal 0 (flip (is_every node.kind) node.negated) node.test }
{
    let (kind, negated) = match node.kind {
        Kind::Every => (Kind::Anti, !node.negated),
        _ => (Kind::Semi, node.negated),
    };
    Node {
        left,
        right,
        negated,
        test: node.test,
        ..plain_node(kind)
    }
}

// The Pair that Fold becomes: its fields kept.
fn pair_node(node: Node, link: Link) -> Node
    ensures { result ≡ plain_node Pair node.arg node.id link.left link.right link.comparison node.column node.negated node.test }
{
    Node {
        kind: Kind::Pair,
        left: link.left,
        right: link.right,
        comparison: link.comparison,
        list: IdList::NONE,
        ..node
    }
}

// The change that puts a node in the place of another, and takes away the nodes from place f up to the Select at place s.
fn without_select(node: Node, f: usize, s: usize) -> Change
    requires { s < 64 }
    ensures { result ≡ without_select node f s }
{
    Change {
        first: node,
        keep: f,
        more: More::Nothing,
        from: s + 1,
    }
}

// U1, U2 and U5 at a place whose node is a Some, an Every or a Fold: f is the second child's place, s that of its Select, which may stand
// under a Project. U1 and U2 ask that the comparison is =.
pub(crate) fn join_shape(place: Place) -> Option<Change>
    requires { (place.node.kind ≡ Some) ⊎ ((place.node.kind ≡ Every) ⊎ (place.node.kind ≡ Fold)) }
    ensures { ShapedAt place.entry.set.now place.entry.plan.now place.entry.i result }
{
    let f = place.second();
    let s = unprojected_at(place.plan, f);
    let link = link_at(place.set, place.plan, place.i + 1, s)?;
    if !avoids_at(place.set, place.plan, s + 1, place.i + 1) {
        return None;
    }
    match place.node.kind {
        Kind::Fold => Some(without_select(pair_node(place.node, link), f, s)),
        _ => match link.comparison {
            Comparison::Equal => {
                let first = semi_node(place.node, link.left, link.right);
                Some(without_select(first, f, s))
            }
            _ => None,
        },
    }
}
