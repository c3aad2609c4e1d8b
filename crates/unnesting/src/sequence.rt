// The two sequences that U3, U4 and U6 compare, and whether rows stand against a rule.
ghost use Rattle.std.specs.Prelude.{◌≡◌, not, true, ◌≢◌, ◌<◌, ◌≤◌, length, take};
ghost use Rattle.std.proofs.Math.Option.{none};
ghost use Rattle.algebra.specs.Lists.{is_empty};
ghost use Rattle.algebra.specs.Plans.{eval};
ghost use Rattle.algebra.specs.Refusals.{width};
ghost use Rattle.algebra.specs.Rules.{bare, fresh, outside, rule_of, top};
ghost use Rattle.algebra.specs.StayNotes.{comparing, first_difference, sequences_of};
ghost use Rattle.reading.specs.TableSet.{tables_of};
ghost use Rattle.reading.specs.Plan.{node_at, nodes_of};
ghost use Rattle.reading.specs.Tree.{plan_of, plan_at, whole_tree};
ghost use Rattle.unnesting.specs.Shapes.{number_of_rule, shape, ready};
ghost use Rattle.unnesting.specs.Sequences.{ComparedAs, PairCompared, rows_of_one, values_and_keys};

use crate::input::Input;
use crate::rule::Rule;
use crate::shape::rule_of;
use reading::kinds::Kind;
use reading::plan::{Node, node_at};
use reading::tree::tree_end;
use reporting::subplan::{keys_at, rows_at};

// Whether the rule that can fit at a node compares sequences: U3, U4, U6.
pub(crate) fn compares(rule: Option<Rule>) -> bool
    ensures { result ≡ comparing (number_of_rule rule) }
{
    matches!(rule, Some(Rule::U3 | Rule::U4 | Rule::U6))
}

// ---- two sequences

// The length of the common beginning of two sequences of cells.
fn common_beginning(first: &[u64], second: &[u64]) -> usize
    ensures { result ≡ first_difference (rows_of_one first.now) (rows_of_one second.now) }
{
    let n = first.len().min(second.len());
    for i in 0..n {
        if first[i] != second[i] {
            return i;
        }
    }
    n
}

// The first position at which two sequences of cells differ or just one has ended; None where they are the same, which is where the second is
// no longer than the first and all of the first is common.
fn first_difference(first: &[u64], second: &[u64]) -> Option<usize>
    ensures { ComparedAs (rows_of_one first.now) (rows_of_one second.now) result }
{
    let common = common_beginning(first, second);
    if first.len() < second.len() {
        return Some(common);
    }
    if common < first.len() {
        Some(common)
    } else {
        None
    }
}

// A copy of the first n cells.
fn front_of(cells: &[u64], n: usize) -> [u64; 4096]
    requires { (n ≤ 4096) × (n ≤ length cells.now) }
    ensures { take n result ≡ take n cells.now }
{
    let mut copy = [0u64; 4096];
    copy[0..n].copy_from_slice(&cells[0..n]);
    copy
}

// Compares the values of the tree at place e, which has one column, with the Distinct keys of the tree at place h.
pub(crate) fn compare_sequences(
    input: Input<'_>,
    e: usize,
    h: usize,
    key: u8,
    scratch: &mut [u64],
) -> Option<usize>
    requires room { input.need ≤ length scratch.old }
    requires e_value { width (tables_of input.set.now) (plan_at input.plan.now e) ≡ 1 }
    ensures { PairCompared (values_and_keys input.entry.set.now input.entry.plan.now e h key) result }
{
    let first = rows_at(input.set, input.plan, e, scratch).unwrap();
    let n = first.rows;
    let values = front_of(scratch, n);
    let second = keys_at(input.set, input.plan, h, key, scratch).unwrap();
    let m = second.rows;
    first_difference(&values[0..n], &scratch[0..m])
}

// ---- at a place of a plan

// The place of the tree at place f without its top Select, if it has one.
fn bare_at(plan: &[u8], f: usize) -> usize
    requires { (whole_tree plan.now ≡ true) × (f < nodes_of plan.now) }
    ensures { plan_at plan.now result ≡ bare (top (plan_at plan.now f)) }
{
    let node = node_at(plan, f);
    match node.kind {
        Kind::Select => f + 1,
        _ => f,
    }
}

// Compares the two sequences of the rule at place i, which is U3, U4 or U6.
pub(crate) fn sequences_at(
    input: Input<'_>,
    i: usize,
    node: Node,
    scratch: &mut [u64],
) -> Option<usize>
    requires room { input.need ≤ length scratch.old }
    requires i_bound { (i < nodes_of input.plan.now) × (node ≡ node_at input.plan.now i) × (comparing (rule_of (plan_at input.plan.now i)) ≡ true) }
    requires i_nonzero { shape (tables_of input.set.now) (fresh (tables_of input.set.now) (plan_of input.plan.now)) (plan_at input.plan.now i) ≢ none }
    ensures { PairCompared (sequences_of (tables_of input.entry.set.now) (plan_at input.entry.plan.now i)) result }
{
    let e = i + 1;
    let f = tree_end(input.plan, e);
    match node.kind {
        Kind::Pair => compare_sequences(input, e, f, node.right, scratch),
        _ => {
            let h = bare_at(input.plan, f);
            compare_sequences(input, e, h, node.right, scratch)
        }
    }
}

// Whether the tree at place f gives a row.
fn gives_row(input: Input<'_>, f: usize, scratch: &mut [u64]) -> bool
    requires room { input.need ≤ length scratch.old }
    ensures { result ≡ not (is_empty (eval (tables_of input.entry.set.now) (plan_at input.entry.plan.now f) outside)) }
{
    let given = rows_at(input.set, input.plan, f, scratch).unwrap();
    given.rows != 0
}

// Whether rows do not stand against the rule at place i.
pub(crate) fn ready_at(input: Input<'_>, i: usize, node: Node, scratch: &mut [u64]) -> bool
    requires room { input.need ≤ length scratch.old }
    requires i_bound { (i < nodes_of input.plan.now) × (node ≡ node_at input.plan.now i) }
    requires i_nonzero { shape (tables_of input.set.now) (fresh (tables_of input.set.now) (plan_of input.plan.now)) (plan_at input.plan.now i) ≢ none }
    ensures { result ≡ ready (tables_of input.entry.set.now) (plan_at input.entry.plan.now i) }
{
    let rule = rule_of(node);
    if rule == Some(Rule::U8) {
        let f = tree_end(input.plan, i + 1);
        return gives_row(input, f, scratch);
    }
    if !compares(rule) {
        return true;
    }
    sequences_at(input, i, node, scratch).is_none()
}
