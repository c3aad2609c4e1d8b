// The columns of a plan's nodes, as ids.
ghost use Rattle.std.specs.Prelude.{◌≡◌, true, ◌≤◌, length, take};
ghost use Rattle.algebra.specs.Lists.{all, upward};
ghost use Rattle.algebra.specs.Refusals.{byte};
ghost use Rattle.reading.specs.TableSet.{tables_of};
ghost use Rattle.reading.specs.Tree.{operator_of, node_list};
ghost use Rattle.reading.specs.Nodes.{operator_new};
ghost use Rattle.reporting.specs.Columns.{columns_way, own_columns, IdsWritten};
ghost use Rattle.reporting.specs.declared.columns.ColumnsWay.TheVariants.{Own};
ghost use Rattle.reporting.specs.Evaluation.{columns_at, width_at, share_at, part_at, SoundAt};

use reading::bound::bound_at;
use reading::columns::columns_at;
use reading::kinds::Kind;
use reading::need::{counted_rows, part_at};
use reading::plan::{Node, node_at};
use reading::set::{columns_of, table_from};
use reading::tree::{nodes_of, tree_end};

// The cells that the node at place i counts, which stand at the front of its part.
pub(crate) fn share_at(set: &[u8], plan: &[u8], i: usize, node: Node) -> usize
    requires { SoundAt set.now plan.now i }
    ensures { (result ≡ share_at set.now plan.now i (operator_of node)) × (result ≤ 131072) }
{
    let rows = counted_rows(node, bound_at(set, plan, i));
    rows * columns_at(set, plan, i)
}

// The cells of the part of scratch of the tree at place i.
pub(crate) fn tree_part(set: &[u8], plan: &[u8], i: usize) -> usize
    requires { SoundAt set.now plan.now i }
    ensures { result ≡ part_at set.now plan.now i }
{
    part_at(set, plan, i)
}

// ---- A node's own columns

// Copies ids to the front.
fn copy_ids(ids: &mut [u8], from: &[u8])
    requires { length from.now ≤ length ids.old }
    ensures { take (length from.now) ids.new ≡ from.now }
{
    ids[..from.len()].copy_from_slice(from);
}

// Writes n ids from `first` upward to the front.
fn ids_upward(ids: &mut [u8], first: u8, n: usize)
    requires { (n ≤ length ids.old) × (all byte (upward n first) ≡ true) }
    ensures { take n ids.new ≡ upward n first }
{
    let start = first as usize;
    for k in 0..n {
        ids[k] = (start + k) as u8;
    }
}

// Writes the ids of a node's list to the front, and gives how many they are.
fn ids_listed(ids: &mut [u8], node: Node) -> usize
    requires { length (node_list node) ≤ length ids.old }
    ensures { IdsWritten (node_list node) result ids.new }
{
    let list = node.list.as_slice();
    copy_ids(ids, list);
    list.len()
}

// How a node's columns are made: they are its own alone, the first child's, the first child's and then the new id, or the first child's and
// then the second's.
#[derive(Clone, Copy)]
pub enum ColumnsWay {
    Own,
    First,
    FirstAndNew,
    Both,
}

fn columns_way(node: Node) -> ColumnsWay
    ensures { result ≡ columns_way (operator_of node) }
{
    match node.kind {
        Kind::Unit | Kind::Scan | Kind::Project | Kind::Distinct | Kind::Group | Kind::Other(_) =>
            ColumnsWay::Own,
        Kind::Select | Kind::Semi | Kind::Anti | Kind::Some | Kind::Every | Kind::Sort =>
            ColumnsWay::First,
        Kind::Fold | Kind::Pair => ColumnsWay::FirstAndNew,
        Kind::Cross | Kind::Each => ColumnsWay::Both,
    }
}

// Writes the ids of a node whose columns are its own alone: Scan, Project, Distinct, Group; a Unit has none.
fn own_ids(set: &[u8], node: Node, ids: &mut [u8]) -> usize
    requires node_value { (columns_way (operator_of node) ≡ Own) × (all byte (operator_new (tables_of set.now) (operator_of node)) ≡ true) }
    requires node_in_bounds { length (own_columns (tables_of set.now) (operator_of node)) ≤ length ids.old }
    ensures { IdsWritten (own_columns (tables_of set.now) (operator_of node)) result ids.new }
{
    match node.kind {
        Kind::Scan => {
            let t = node.arg as usize;
            let n = columns_of(table_from(set, t));
            ids_upward(ids, node.id, n);
            n
        }
        Kind::Group => {
            let both = [node.left, node.id];
            copy_ids(ids, &both);
            2
        }
        Kind::Project | Kind::Distinct => ids_listed(ids, node),
        _ => 0,
    }
}

// ---- A tree's columns

// Writes the ids of the columns of the tree at place i to the front of ids, and gives how many they are.
pub(crate) fn columns_into(set: &[u8], plan: &[u8], i: usize, ids: &mut [u8]) -> usize
    requires { SoundAt set.now plan.now i × (width_at set.now plan.now i ≤ length ids.old) }
    ensures { IdsWritten (columns_at set.now plan.now i) result ids.new }
{
    if nodes_of(plan) <= i {
        return 0;
    }
    let node = node_at(plan, i);
    match columns_way(node) {
        ColumnsWay::Own => own_ids(set, node, ids),
        ColumnsWay::First => columns_into(set, plan, i + 1, ids),
        ColumnsWay::FirstAndNew => {
            let w = columns_into(set, plan, i + 1, ids);
            ids[w] = node.id;
            w + 1
        }
        ColumnsWay::Both => {
            let w = columns_into(set, plan, i + 1, ids);
            let j = tree_end(plan, i + 1);
            w + columns_into(set, plan, j, &mut ids[w..])
        }
    }
}
