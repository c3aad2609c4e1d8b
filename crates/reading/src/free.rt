// The columns that the tree at a place names from outside itself, and what the rules ask of them.
ghost use Rattle.std.specs.Prelude.{◌≡◌};
ghost use Rattle.algebra.specs.Names.{closed, free, measured};
ghost use Rattle.algebra.specs.Plans.{form_names};
ghost use Rattle.algebra.specs.Rules.{avoids, local};
ghost use Rattle.reading.specs.TableSet.{tables_of};
ghost use Rattle.reading.specs.Tree.{form_of, node_aggregate, node_test, operator_of, plan_at};
ghost use Rattle.reading.specs.Flags.{Adds, Flags};
ghost use Rattle.reading.specs.Frees.{Apart, InnerFree, NodeFree, SetWhere, operator_names, row_names};

use crate::flags::add_id;
use crate::kinds::{Kind, children_of};
use crate::plan::{AggregateKind, Node, Test, node_at};
use crate::tree::{nodes_of, tree_end};
use crate::view::{add_columns, add_list, test_seen};

// The flags with a value wherever `at` flags an id.
fn set_where(flags: [u8; 256], at: [u8; 256], value: u8) -> [u8; 256]
    ensures { SetWhere flags at value result }
{
    let mut marks = flags;
    for (k, flag) in at.iter().enumerate() {
        if *flag == 1 {
            marks[k] = value;
        }
    }
    marks
}

// Whether no id is flagged in both.
fn apart(flags: [u8; 256], other: [u8; 256]) -> bool
    ensures { Apart flags other result }
{
    for k in 0..256 {
        if flags[k] == 1 && other[k] == 1 {
            return false;
        }
    }
    true
}

// Flags the columns that a test names.
fn add_test(flags: [u8; 256], test: Test) -> [u8; 256]
    ensures { Adds flags (form_names (form_of test)) result }
{
    match test {
        Test::Always => flags,
        Test::Columns {
            comparison: _,
            left,
            right,
        } => add_id(add_id(flags, right), left),
        Test::Number {
            comparison: _,
            left,
            number: _,
        } => add_id(flags, left),
    }
}

// Flags a node's aggregate column; count has none.
fn add_measure(flags: [u8; 256], node: Node) -> [u8; 256]
    ensures { Adds flags (measured (node_aggregate node)) result }
{
    match node.aggregate_kind() {
        AggregateKind::Count => flags,
        AggregateKind::Sum | AggregateKind::Least | AggregateKind::Greatest => add_id(
            flags,
            node.column,
        ),
    }
}

// Flags what a node names of a row: its aggregate column and its test's columns.
fn add_row(flags: [u8; 256], node: Node) -> [u8; 256]
    ensures { Adds flags (row_names node) result }
{
    let test = node.test;
    add_measure(add_test(flags, test), node)
}

// The columns that a node names, as flags.
fn node_names(node: Node) -> [u8; 256]
    ensures { Flags result (operator_names (operator_of node)) }
{
    let none = [0u8; 256];
    let test = node.test;
    match node.kind {
        Kind::Project | Kind::Distinct | Kind::Sort => add_list(none, node.list),
        Kind::Select | Kind::Some | Kind::Every => add_test(none, test),
        Kind::Semi | Kind::Anti => add_id(add_id(add_test(none, test), node.right), node.left),
        Kind::Fold => add_row(none, node),
        Kind::Pair => add_id(add_id(add_row(none, node), node.right), node.left),
        Kind::Group => {
            let key = add_id(none, node.left);
            add_id(set_where(add_row(none, node), key, 0), node.right)
        }
        _ => none,
    }
}

// What a node's second child names from outside: where it is nested, the columns of the first are inside.
fn inner_free(node: Node, second: [u8; 256], columns: [u8; 256]) -> [u8; 256]
    ensures { InnerFree (operator_of node) second columns result }
{
    match node.kind {
        Kind::Some | Kind::Every | Kind::Fold | Kind::Each => set_where(second, columns, 0),
        _ => second,
    }
}

// What a node's tree names from outside, of what its children's trees do and of their columns; a child that is not there has none.
fn node_free(
    node: Node,
    first: [u8; 256],
    first_columns: [u8; 256],
    second: [u8; 256],
    second_columns: [u8; 256],
) -> [u8; 256]
    ensures { NodeFree (operator_of node) first first_columns second second_columns result }
{
    let own = set_where(
        set_where(node_names(node), second_columns, 0),
        first_columns,
        0,
    );
    let inner = inner_free(node, second, first_columns);
    set_where(first, set_where(inner, own, 1), 1)
}

// The columns that the tree at place i names from outside itself, by recursion on the nodes that remain.
fn free_columns(set: &[u8], plan: &[u8], i: usize) -> [u8; 256]
    ensures { Flags result (free (tables_of set.now) (plan_at plan.now i)) }
{
    let none = [0u8; 256];
    if nodes_of(plan) <= i {
        return none;
    }
    let node = node_at(plan, i);
    let children = children_of(node.kind);
    if children == 0 {
        return none;
    }
    let first = free_columns(set, plan, i + 1);
    let first_columns = add_columns(none, set, plan, i + 1);
    if children == 1 {
        return node_free(node, first, first_columns, none, none);
    }
    let j = tree_end(plan, i + 1);
    let second = free_columns(set, plan, j);
    let second_columns = add_columns(none, set, plan, j);
    node_free(node, first, first_columns, second, second_columns)
}

// Whether the tree at place i names no column from outside itself.
pub fn is_closed(set: &[u8], plan: &[u8], i: usize) -> bool
    ensures { result ≡ closed (tables_of set.now) (plan_at plan.now i) }
{
    let every = [1u8; 256];
    apart(free_columns(set, plan, i), every)
}

// Whether the tree at place g names no column of the tree at place e.
pub fn avoids_at(set: &[u8], plan: &[u8], g: usize, e: usize) -> bool
    ensures { result ≡ avoids (tables_of set.now) (plan_at plan.now g) (plan_at plan.now e) }
{
    let none = [0u8; 256];
    let columns = add_columns(none, set, plan, e);
    apart(free_columns(set, plan, g), columns)
}

// Whether the node's test names only columns of the tree at place f.
pub fn local_at(set: &[u8], plan: &[u8], node: Node, f: usize) -> bool
    ensures { result ≡ local (tables_of set.now) (node_test node) (plan_at plan.now f) }
{
    let none = [0u8; 256];
    let columns = add_columns(none, set, plan, f);
    let test = node.test;
    test_seen(columns, test)
}
