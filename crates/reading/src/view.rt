// Refusal 12, its second half: every column that a node names is in view.
ghost use Rattle.std.specs.Prelude.{◌≡◌, ◌∷◌, take, ◌<◌};
ghost use Rattle.algebra.specs.Names.{measured};
ghost use Rattle.algebra.specs.Plans.{columns, form_names};
ghost use Rattle.reading.specs.TableSet.{tables_of};
ghost use Rattle.reading.specs.Plan.{nodes_of};
ghost use Rattle.reading.specs.Tree.{form_of, node_aggregate, operator_of, plan_at};
ghost use Rattle.reading.specs.Flags.{Adds, Flagged, Sees, SeesOnce};
ghost use Rattle.reading.specs.Nodes.{NamesSeen, RootSeen, TreeSeen, first_names, inner_columns, list_names, own_columns, second_names, test_names};

use crate::flags::{add_id, add_ids};
use crate::kinds::{Kind, children_of};
use crate::plan::{AggregateKind, IdList, Node, Test, node_at};
use crate::set::{columns_of, table_from};
use crate::tree::{nodes_of, tree_end};

// Whether an id is flagged.
fn flagged(flags: [u8; 256], id: u8) -> bool
    ensures { Flagged flags id result }
{
    flags[id as usize] == 1
}

// Whether a test's columns are flagged.
pub fn test_seen(flags: [u8; 256], test: Test) -> bool
    ensures { Sees flags (form_names (form_of test)) result }
{
    match test {
        Test::Always => true,
        Test::Columns {
            comparison: _,
            left,
            right,
        } => {
            if !flagged(flags, left) {
                return false;
            }
            flagged(flags, right)
        }
        Test::Number {
            comparison: _,
            left,
            number: _,
        } => flagged(flags, left),
    }
}

// Whether a list's ids are flagged, and none stands twice: an id that was met loses its flag.
fn list_seen(flags: [u8; 256], list: IdList) -> bool
    ensures { SeesOnce flags (take list.count list.ids) result }
{
    let mut left = flags;
    for id in list.as_slice() {
        let at = *id as usize;
        if left[at] != 1 {
            return false;
        }
        left[at] = 0;
    }
    true
}

// Flags the ids of a node's list.
pub fn add_list(flags: [u8; 256], list: IdList) -> [u8; 256]
    ensures { Adds flags (take list.count list.ids) result }
{
    let mut marks = flags;
    for id in list.as_slice() {
        marks[*id as usize] = 1;
    }
    marks
}

// Flags the columns that a node gives besides those of its children. Where it gives none the flags go back at once, and are copied once.
fn add_own(flags: [u8; 256], set: &[u8], node: Node) -> [u8; 256]
    ensures { Adds flags (own_columns node.kind (tables_of set.now) node) result }
{
    let id = node.id;
    match node.kind {
        Kind::Scan => add_ids(flags, id, columns_of(table_from(set, node.arg as usize))),
        Kind::Project | Kind::Distinct => add_list(flags, node.list),
        Kind::Fold | Kind::Pair => add_id(flags, id),
        Kind::Group => add_id(add_id(flags, id), node.left),
        _ => return flags,
    }
}

// Flags the columns of the tree at place i.
pub fn add_columns(flags: [u8; 256], set: &[u8], plan: &[u8], i: usize) -> [u8; 256]
    ensures { Adds flags (columns (tables_of set.now) (plan_at plan.now i)) result }
{
    if nodes_of(plan) <= i {
        return flags;
    }
    let node = node_at(plan, i);
    let own = add_own(flags, set, node);
    match node.kind {
        Kind::Unit | Kind::Scan | Kind::Project | Kind::Distinct | Kind::Group | Kind::Other(_) =>
            own,
        Kind::Cross | Kind::Each => {
            let first = add_columns(own, set, plan, i + 1);
            let j = tree_end(plan, i + 1);
            add_columns(first, set, plan, j)
        }
        _ => add_columns(own, set, plan, i + 1),
    }
}

// Whether a node's aggregate column is flagged; count has none.
fn measure_seen(flags: [u8; 256], node: Node) -> bool
    ensures { Sees flags (measured (node_aggregate node)) result }
{
    match node.aggregate_kind() {
        AggregateKind::Count => true,
        AggregateKind::Sum | AggregateKind::Least | AggregateKind::Greatest => flagged(
            flags,
            node.column,
        ),
    }
}

// Whether a node's right key and its aggregate column are flagged.
fn right_seen(flags: [u8; 256], node: Node) -> bool
    ensures { Sees flags (node.right ∷ measured (node_aggregate node)) result }
{
    if !flagged(flags, node.right) {
        return false;
    }
    measure_seen(flags, node)
}

// Whether what a node names of its first child is flagged.
fn first_seen(flags: [u8; 256], node: Node) -> bool
    ensures { Sees flags (first_names node.kind node) result }
{
    match node.kind {
        Kind::Semi | Kind::Anti | Kind::Pair => flagged(flags, node.left),
        Kind::Group => right_seen(flags, node),
        _ => true,
    }
}

// Whether what a node names of its second child is flagged.
fn second_seen(flags: [u8; 256], node: Node) -> bool
    ensures { Sees flags (second_names node.kind node) result }
{
    match node.kind {
        Kind::Semi | Kind::Anti => flagged(flags, node.right),
        Kind::Fold => measure_seen(flags, node),
        Kind::Pair => right_seen(flags, node),
        _ => true,
    }
}

// Whether the columns of a node's test are flagged, where its kind has a test.
fn tested_seen(flags: [u8; 256], node: Node) -> bool
    ensures { Sees flags (test_names node.kind node) result }
{
    match node.kind {
        Kind::Select
        | Kind::Semi
        | Kind::Anti
        | Kind::Some
        | Kind::Every
        | Kind::Fold
        | Kind::Pair
        | Kind::Group => {
            let test = node.test;
            test_seen(flags, test)
        }
        _ => true,
    }
}

// Whether the ids of a node's list are flagged, and none stands twice, where its kind has a list.
fn listed_seen(flags: [u8; 256], node: Node) -> bool
    ensures { SeesOnce flags (list_names node.kind node) result }
{
    match node.kind {
        Kind::Project | Kind::Distinct | Kind::Sort => list_seen(flags, node.list),
        _ => true,
    }
}

// Whether a node's names are in view: `first` and `second` flag its children's columns, `seen` all that its test may name.
fn names_seen(node: Node, first: [u8; 256], second: [u8; 256], seen: [u8; 256]) -> bool
    ensures { NamesSeen (operator_of node) first second seen result }
{
    if !listed_seen(first, node) {
        return false;
    }
    if !first_seen(first, node) {
        return false;
    }
    if !second_seen(second, node) {
        return false;
    }
    tested_seen(seen, node)
}

// Whether the names of node i are in view, where `scope` flags the columns of the rows that it is nested in.
fn root_seen(set: &[u8], plan: &[u8], i: usize, scope: [u8; 256]) -> bool
    requires { i < nodes_of plan.now }
    ensures { RootSeen (tables_of set.now) (plan_at plan.now i) scope result }
{
    let node = node_at(plan, i);
    let children = children_of(node.kind);
    if children == 0 {
        return true;
    }
    let none = [0u8; 256];
    let first = add_columns(none, set, plan, i + 1);
    if children == 1 {
        let seen = add_columns(scope, set, plan, i + 1);
        return names_seen(node, first, none, seen);
    }
    let j = tree_end(plan, i + 1);
    let second = add_columns(none, set, plan, j);
    let around = add_columns(scope, set, plan, j);
    let seen = add_columns(around, set, plan, i + 1);
    names_seen(node, first, second, seen)
}

// The rows that a node's second child is nested in: the left row too, for the kinds 8 to 11. The first child is the tree at place i.
fn inner_scope(node: Node, scope: [u8; 256], set: &[u8], plan: &[u8], i: usize) -> [u8; 256]
    ensures { Adds scope (inner_columns (operator_of node) (columns (tables_of set.now) (plan_at plan.now i))) result }
{
    match node.kind {
        Kind::Some | Kind::Every | Kind::Fold | Kind::Each => add_columns(scope, set, plan, i),
        _ => scope,
    }
}

// Whether all names of the tree at place i are in view, where `scope` flags the columns of the rows that it is nested in.
pub(crate) fn tree_seen(set: &[u8], plan: &[u8], i: usize, scope: [u8; 256]) -> bool
    ensures { TreeSeen (tables_of set.now) (plan_at plan.now i) scope result }
{
    if nodes_of(plan) <= i {
        return true;
    }
    if !root_seen(set, plan, i, scope) {
        return false;
    }
    let node = node_at(plan, i);
    let children = children_of(node.kind);
    if children == 0 {
        return true;
    }
    if !tree_seen(set, plan, i + 1, scope) {
        return false;
    }
    if children == 1 {
        return true;
    }
    let j = tree_end(plan, i + 1);
    let inner = inner_scope(node, scope, set, plan, i + 1);
    tree_seen(set, plan, j, inner)
}
