// The plan after a rule, as bytes: the nodes before its place, new nodes, and what is kept of the old ones.
ghost use Rattle.std.specs.Prelude.{◌≡◌, [], ◌∷◌, ◌++◌, ◌+◌, ◌*◌, ◌-◌, ◌≤◌, length, take};
ghost use Rattle.reading.specs.Plan.{nodes_of, plan_mark};
ghost use Rattle.reading.specs.declared.version.Version.TheVariants.{Second};
ghost use Rattle.unnesting.specs.Images.{image};
ghost use Rattle.unnesting.specs.Shapes.{Inside, changed_bytes, changed_count, more_bytes, more_count, node_slice};

use crate::image::{write_bytes, write_node};
use reading::plan::{Node, PLAN_MARK};
use reading::tree::nodes_of;

// The nodes that a change brings besides its first.
#[derive(Clone, Copy)]
pub enum More {
    Nothing,
    One(Node),
    Two(Node, Node),
}

impl More {
    // How many they are.
    fn count(self) -> usize
        ensures { result ≡ more_count self }
    {
        match self {
            More::Nothing => 0,
            More::One(_) => 1,
            More::Two(_, _) => 2,
        }
    }
}

// A change of a plan at a place: `first` stands in the place of the node there; then come the nodes from the next place up to `keep`, then
// `more`, then the nodes from `from` to the plan's end.
#[derive(Clone, Copy)]
pub struct Change {
    pub first: Node,
    pub keep: usize,
    pub more: More,
    pub from: usize,
}

// Each of the helpers below writes right behind what stands before a place of out, and gives the place behind what it wrote.

// A plan's header: the mark and the count of the nodes.
fn write_header(out: &mut [u8], count: u8)
    requires { 6 ≤ length out.old }
    ensures { take 6 out.new ≡ plan_mark Second ++ (count ∷ []) }
{
    write_bytes(out, 0, &PLAN_MARK);
    out[5] = count;
}

// A node.
fn put_node(out: &mut [u8], at: usize, node: Node) -> usize
    requires { at + 32 ≤ length out.old }
    ensures { (result ≡ at + 32) × (take result out.new ≡ take at out.old ++ image node) }
{
    write_node(out, at, node);
    at + 32
}

// The plan's nodes from a place up to another.
fn copy_nodes(plan: &[u8], from: usize, to: usize, out: &mut [u8], at: usize) -> usize
    requires { (from ≤ to) × (6 + 32 * to ≤ length plan.now) × (at + 32 * (to - from) ≤ length out.old) }
    ensures { (result ≡ at + 32 * (to - from)) × (take result out.new ≡ take at out.old ++ node_slice plan.now from to) }
{
    write_bytes(out, at, &plan[6 + 32 * from..6 + 32 * to]);
    at + 32 * (to - from)
}

// The nodes that a change brings besides its first.
fn put_more(out: &mut [u8], at: usize, more: More) -> usize
    requires { at + 32 * more_count more ≤ length out.old }
    ensures { (result ≡ at + 32 * more_count more) × (take result out.new ≡ take at out.old ++ more_bytes more) }
{
    match more {
        More::Nothing => at,
        More::One(node) => put_node(out, at, node),
        More::Two(first, second) => {
            let next = put_node(out, at, first);
            put_node(out, next, second)
        }
    }
}

// Writes the plan after a change at place i to the front of out, and gives its length.
pub(crate) fn write_change(plan: &[u8], i: usize, change: Change, out: &mut [u8]) -> usize
    requires { Inside plan.now i change × (length plan.now ≡ 6 + 32 * nodes_of plan.now) × (length out.old ≡ 2086) }
    ensures { (result ≡ 6 + 32 * changed_count plan.now i change) × (take result out.new ≡ plan_mark Second ++ (changed_count plan.now i change ∷ changed_bytes plan.now i change)) }
{
    let n = nodes_of(plan);
    let keep = change.keep;
    let from = change.from;
    let count = i + (1 + ((keep - (i + 1)) + (change.more.count() + (n - from))));
    write_header(out, count as u8);
    let mut at = copy_nodes(plan, 0, i, out, 6);
    at = put_node(out, at, change.first);
    at = copy_nodes(plan, i + 1, keep, out, at);
    at = put_more(out, at, change.more);
    copy_nodes(plan, from, n, out, at)
}
