// A plan in another version: whether it can be written, how many bytes it takes, and writing it. The header says which version it is of.
ghost use Rattle.std.specs.Prelude.{true, ◌≡◌, ◌+◌, ◌*◌, ◌-◌, ◌≤◌, ◌<◌, length, take};
ghost use Rattle.reading.specs.Versions.{node_size};
ghost use Rattle.reading.specs.Plan.{plan_version, node_at, nodes_of};
ghost use Rattle.conversion.specs.Helpers.{bytes_written, node_end, test_fits, test_tail, nodes_fit, node_in, nodes_in};

use crate::numbers::{code_of, write_bytes};
use reading::plan::{Test, node_at, plan_mark};
use reading::set::number_as;
use reading::tree::nodes_of;
use reading::version::{Version, node_size, version_at};

// ---- Whether a plan can be written

// Whether the version has room for a test's number.
fn test_fits(version: Version, test: Test) -> bool
    ensures { result ≡ test_fits version test }
{
    match test {
        Test::Always | Test::Columns { .. } => true,
        Test::Number { number, .. } => number_as(version, number),
    }
}

// Whether the version has room for the number of every node's test.
pub(crate) fn plan_fits(version: Version, plan: &[u8]) -> bool
    ensures { result ≡ nodes_fit version plan.now }
{
    for i in 0..nodes_of(plan) {
        if !test_fits(version, node_at(plan, i).test) {
            return false;
        }
    }
    true
}

// ---- Its bytes

// How many bytes the plan takes in the version.
pub(crate) fn plan_size(version: Version, plan: &[u8]) -> usize
    ensures { result ≡ 6 + node_size version * nodes_of plan.now }
{
    6 + node_size(version) * nodes_of(plan)
}

// A node's bytes from byte 20 on, by its test. Version 1 has the first four of them.
fn test_tail(version: Version, test: Test) -> [u8; 12]
    requires { test_fits version test ≡ true }
    ensures { take (node_size version - 20) result ≡ test_tail version test }
{
    let mut tail = [0; 12];
    match test {
        Test::Always => {}
        Test::Columns { right, .. } => tail[0] = right,
        Test::Number { number, .. } => {
            tail[..8].copy_from_slice(&code_of(version, number).to_le_bytes())
        }
    }
    tail
}

// Writes node i from a place on: its bytes 0 to 19 as they are, and the rest by its test.
fn write_node(version: Version, plan: &[u8], i: usize, out: &mut [u8], at: usize)
    requires { (node_end plan.now i ≤ length plan.now) × (test_fits version (node_at plan.now i).test ≡ true) × (at + node_size version ≤ length out.old) }
    ensures { out.new ≡ bytes_written out.old at (node_in version plan.now i) }
{
    let start = 6 + node_size(version_at(plan)) * i;
    let end = start + 20;
    write_bytes(out, at, &plan[start..end]);
    let test = node_at(plan, i).test;
    let tail = test_tail(version, test);
    let n = node_size(version) - 20;
    write_bytes(out, at + 20, &tail[0..n]);
}

// Writes the plan to the front of out: the mark of the version, the count of the nodes, and the nodes.
pub(crate) fn write_plan(version: Version, plan: &[u8], out: &mut [u8])
    requires { (6 + node_size (plan_version plan.now) * nodes_of plan.now ≤ length plan.now) × (nodes_fit version plan.now ≡ true)
        × (6 + node_size version * nodes_of plan.now ≤ length out.old) }
    ensures { out.new ≡ bytes_written out.old 0 (nodes_in version plan.now) }
{
    let mark = plan_mark(version);
    write_bytes(out, 0, &mark);
    write_bytes(out, 5, &plan[5..6]);
    let size = node_size(version);
    let mut at = 6;
    for i in 0..nodes_of(plan) {
        write_node(version, plan, i, out, at);
        at += size;
    }
}
