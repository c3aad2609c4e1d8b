// The evaluator. Node evaluation and the evaluation of an inner plan for one left row call each other; the subtree gets smaller.
ghost use Rattle.std.specs.Prelude.{◌≡◌, ◌+◌, ◌*◌, ◌-◌, ◌≤◌, length};
ghost use Rattle.reading.specs.Tree.{operator_of};
ghost use Rattle.reading.specs.Nodes.{arity};
ghost use Rattle.reporting.specs.Rows.{env_of, emitted_most};
ghost use Rattle.reporting.specs.Sides.{FoundFor};
ghost use Rattle.reporting.specs.Evaluation.{columns_at, bound_at, width_at, SoundAt, ReadyAt, TreeGiven, UnaryRoom, UnaryGiven};
ghost use Rattle.reporting.specs.Evaluation.{StepRoom, LoopRoom, PlainGiven, NestedStep, NestedGiven};

use crate::act::act;
use crate::asked::{Asked, Lookup};
use crate::columns::{columns_into, share_at, tree_part};
use crate::emit::emit_row;
use crate::env::inner_env;
use crate::held::HeldRows;
use crate::leaf::leaf;
use crate::matching::{emitted_width, rows_of_each};
use crate::nesting::runs_once;
use crate::side::{Found, find};
use reading::kinds::children_of;
use reading::plan::{Node, node_at};
use reading::tree::{nodes_of, tree_end};

// ---- outside of the cycle: nodes whose children's rows stand in cells

// A node with one child, at place `left`, whose m rows stand at `own`.
pub(crate) fn unary_at(
    set: &[u8],
    plan: &[u8],
    left: usize,
    node: Node,
    cells: &mut [u64],
    own: usize,
    m: usize,
    env: &[u64],
) -> usize
    requires sound_at { SoundAt set.now plan.now left × (arity (operator_of node) ≡ 1) × (length env.now ≡ 256) × (m ≤ 4096) }
    requires unary_room { UnaryRoom (operator_of node) (columns_at set.now plan.now left) own m (length cells.old) }
    ensures { UnaryGiven (operator_of node) (columns_at set.now plan.now left) env.now own m
        cells.old result cells.new }
{
    let mut ids = [0u8; 32];
    let w = columns_into(set, plan, left, &mut ids);
    act(node, cells, own, m, &ids[0..w], env)
}

// A node with two children, at places `left` and `right`, whose right rows are the same for every left row; the rows stand at `own` and at
// `behind`.
fn binary_at(
    set: &[u8],
    plan: &[u8],
    left: usize,
    right: usize,
    node: Node,
    cells: &mut [u64],
    own: usize,
    m: usize,
    behind: usize,
    k: usize,
    env: &[u64],
) -> usize
    requires sound_at { SoundAt set.now plan.now left × SoundAt set.now plan.now right × (arity (operator_of node) ≡ 2) × (length env.now ≡ 256) }
    requires k_bound { (k ≤ 4096) × (m * emitted_most (operator_of node) k ≤ 4096) × (behind + k * width_at set.now plan.now right ≤ length cells.old) }
    requires loop_room { LoopRoom (operator_of node) (columns_at set.now plan.now left) (columns_at set.now plan.now right) k own m behind }
    ensures { PlainGiven (operator_of node) (columns_at set.now plan.now left)
        (columns_at set.now plan.now right) (env_of env.now) own m behind k cells.old result cells.new }
{
    let mut ids = [0u8; 32];
    let w = columns_into(set, plan, left, &mut ids);
    let mut jds = [0u8; 32];
    let v = columns_into(set, plan, right, &mut jds);
    let rows = HeldRows {
        at: behind,
        count: k,
        columns: &jds[0..v],
    };
    rows_of_each(node, cells, own, m, &ids[0..w], rows, env)
}

// ---- the cycle

// Runs the inner plan for the left row at src, in the cells from `behind` on, and gives that row's rows at dst. jds are the inner columns.
#[cycle(eval_nested_at_nested_loop_row_step)]
fn row_step(
    set: &[u8],
    plan: &[u8],
    inner: usize,
    node: Node,
    found: Found,
    cells: &mut [u64],
    src: usize,
    ids: &[u8],
    dst: usize,
    behind: usize,
    jds: &[u8],
    env: &[u64],
) -> usize
    requires found_for { FoundFor node ids.now jds.now (env_of env.now) found }
    requires node_value { (arity (operator_of node) ≡ 2) × (jds.now ≡ columns_at set.now plan.now inner) × (behind ≤ length cells.old) × (length ids.now ≤ 32) }
    requires step_room { StepRoom (operator_of node) ids.now jds.now (bound_at set.now plan.now inner) src dst behind }
    requires ready_at { ReadyAt set.now plan.now inner (length cells.old - behind) (length env.now) }
    ensures { NestedStep set.now plan.now inner (operator_of node) ids.now env.now src dst behind
        cells.old result cells.new }
{
    let w = ids.len();
    let mut inside = [0u64; 256];
    inner_env(&mut inside, env, ids, &cells[src..src + w]);
    let k = eval(set, plan, inner, &mut cells[behind..], &inside);
    let right = HeldRows {
        at: behind,
        count: k,
        columns: jds,
    };
    let asked = Asked {
        node,
        found,
        ids,
        right,
    };
    let mut none = [0u64; 0];
    emit_row(&asked, Lookup::All, cells, src, dst, &mut none)
}

// Gives the rows of each of m left rows at `own`, at the front.
#[cycle(eval_nested_at_nested_loop_row_step)]
fn nested_loop(
    set: &[u8],
    plan: &[u8],
    inner: usize,
    node: Node,
    cells: &mut [u64],
    own: usize,
    m: usize,
    ids: &[u8],
    behind: usize,
    jds: &[u8],
    env: &[u64],
) -> usize
    requires node_value { (arity (operator_of node) ≡ 2) × (jds.now ≡ columns_at set.now plan.now inner) × (length ids.now ≤ 32) × (behind ≤ length cells.old) }
    requires inner_bound { m * emitted_most (operator_of node) (bound_at set.now plan.now inner) ≤ 4096 }
    requires loop_room { LoopRoom (operator_of node) ids.now jds.now (bound_at set.now plan.now inner) own m behind }
    requires ready_at { ReadyAt set.now plan.now inner (length cells.old - behind) (length env.now) }
    ensures { NestedGiven set.now plan.now inner (operator_of node) ids.now env.now own m
        cells.old result cells.new }
{
    let w = ids.len();
    let wo = emitted_width(node, ids, jds);
    let found = find(node, ids, jds, env);
    let mut out = 0;
    let mut src = own;
    let mut dst = 0;
    for _ in 0..m {
        let r = row_step(
            set, plan, inner, node, found, cells, src, ids, dst, behind, jds, env,
        );
        out += r;
        dst += r * wo;
        src += w;
    }
    out
}

// A nested node, with its first child at place `left` and its inner plan at `inner`; the m left rows stand at `own`.
#[cycle(eval_nested_at_nested_loop_row_step)]
fn nested_at(
    set: &[u8],
    plan: &[u8],
    left: usize,
    inner: usize,
    node: Node,
    cells: &mut [u64],
    own: usize,
    m: usize,
    behind: usize,
    env: &[u64],
) -> usize
    requires sound_at { SoundAt set.now plan.now left × (arity (operator_of node) ≡ 2) × (behind ≤ length cells.old) }
    requires inner_bound { m * emitted_most (operator_of node) (bound_at set.now plan.now inner) ≤ 4096 }
    requires loop_room { LoopRoom (operator_of node) (columns_at set.now plan.now left) (columns_at set.now plan.now inner)
        (bound_at set.now plan.now inner) own m behind }
    requires ready_at { ReadyAt set.now plan.now inner (length cells.old - behind) (length env.now) }
    ensures { NestedGiven set.now plan.now inner (operator_of node) (columns_at set.now plan.now left)
        env.now own m cells.old result cells.new }
{
    let mut ids = [0u8; 32];
    let w = columns_into(set, plan, left, &mut ids);
    let mut jds = [0u8; 32];
    let v = columns_into(set, plan, inner, &mut jds);
    nested_loop(
        set,
        plan,
        inner,
        node,
        cells,
        own,
        m,
        &ids[0..w],
        behind,
        &jds[0..v],
        env,
    )
}

// The rows of the tree at a place, at the front of cells. What its node counts stands there, its region or one row, and behind it its
// first child's part; behind that whole part stands the second child's.
#[cycle(eval_nested_at_nested_loop_row_step)]
pub(crate) fn eval(set: &[u8], plan: &[u8], at: usize, cells: &mut [u64], env: &[u64]) -> usize
    requires { ReadyAt set.now plan.now at (length cells.old) (length env.now) }
    ensures { TreeGiven set.now plan.now at env.now result cells.new }
{
    if nodes_of(plan) <= at {
        return 1;
    }
    let node = node_at(plan, at);
    let children = children_of(node.kind);
    if children == 0 {
        return leaf(set, node, cells);
    }
    let own = share_at(set, plan, at, node);
    let left = at + 1;
    let m = eval(set, plan, left, &mut cells[own..], env);
    if children == 1 {
        return unary_at(set, plan, left, node, cells, own, m, env);
    }
    let right = tree_end(plan, left);
    let behind = own + tree_part(set, plan, left);
    if !runs_once(set, plan, left, right, node, m) {
        return nested_at(set, plan, left, right, node, cells, own, m, behind, env);
    }
    let k = eval(set, plan, right, &mut cells[behind..], env);
    binary_at(set, plan, left, right, node, cells, own, m, behind, k, env)
}
