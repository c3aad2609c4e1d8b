// Trying the rules at the places of a plan: the plan after a step stands at the front of a buffer.
ghost use Rattle.std.specs.Prelude.{◌≡◌, ◌<◌, ◌≤◌, length};
ghost use Rattle.algebra.specs.Steps.{attempt};
ghost use Rattle.reading.specs.TableSet.{tables_of};
ghost use Rattle.reading.specs.Plan.{node_at, nodes_of};
ghost use Rattle.reading.specs.Tree.{plan_of};
ghost use Rattle.unnesting.specs.Attempts.{Finds, Tells, named_step, possible};

use crate::change::write_change;
use crate::input::Input;
use crate::place::Place;
use crate::rule::Rule;
use crate::sequence::ready_at;
use crate::shape::{rule_of, shape_at};
use reading::input::check_plan;
use reading::plan::{Node, node_at};
use reading::tree::nodes_of;

// What is known of the plan after a step: its length in bytes and its need in cells.
#[derive(Clone, Copy)]
pub struct Next {
    pub length: usize,
    pub need: usize,
}

// The step at the smallest place where a rule fits, and what is known of the plan after it.
#[derive(Clone, Copy)]
pub struct Found {
    pub rule: Rule,
    pub place: u8,
    pub next: Next,
}

// The plan after the rule at place i, where rows do not stand against it and it passes 8 to 14. The set was read before: it is the same for every
// plan of a run.
pub(crate) fn possible_at(input: Input<'_>, i: usize, node: Node, out: &mut [u8]) -> Option<Next>
    requires i_bound { (i < nodes_of input.plan.now) × (node ≡ node_at input.plan.now i) × (length out.old ≡ 2086) }
    ensures { Tells input.entry.set.now out.new (possible (tables_of input.entry.set.now) (plan_of input.entry.plan.now) i) result }
{
    let place = Place {
        set: input.set,
        plan: input.plan,
        i,
        node,
    };
    let change = shape_at(place)?;
    let length = write_change(input.plan, i, change, out);
    match check_plan(input.set, &out[0..length], input.tables) {
        Err(_) => None,
        Ok(accepted) => Some(Next {
            length,
            need: accepted.need,
        }),
    }
}

// The plan after the rule at place i, where it fits.
fn step_at(
    input: Input<'_>,
    i: usize,
    node: Node,
    out: &mut [u8],
    scratch: &mut [u64],
) -> Option<Next>
    requires i_bound { (i < nodes_of input.plan.now) × (node ≡ node_at input.plan.now i) × (length out.old ≡ 2086) }
    requires room { input.need ≤ length scratch.old }
    ensures { Tells input.entry.set.now out.new (attempt (tables_of input.entry.set.now) (named_step (plan_of input.entry.plan.now) i) (plan_of input.entry.plan.now)) result }
{
    let next = possible_at(input, i, node, out)?;
    if ready_at(input, i, node, scratch) {
        Some(next)
    } else {
        None
    }
}

// The plan after a step that is given, where its rule fits at its place. At a place only the rule that its node names can fit. The
// rule is a number here, since a list made elsewhere holds bytes.
pub(crate) fn try_step(
    input: Input<'_>,
    rule: u8,
    place: usize,
    out: &mut [u8],
    scratch: &mut [u64],
) -> Option<Next>
    requires { (input.need ≤ length scratch.old) × (length out.old ≡ 2086) }
    ensures { Tells input.entry.set.now out.new (attempt (tables_of input.entry.set.now) (record { number = rule; place = place }) (plan_of input.entry.plan.now)) result }
{
    if nodes_of(input.plan) <= place {
        return None;
    }
    let node = node_at(input.plan, place);
    match rule_of(node) {
        Some(named) if u8::from(named) == rule => step_at(input, place, node, out, scratch),
        _ => None,
    }
}

// The step at the smallest place where a rule fits. At a place only the rule that its node names can fit.
pub(crate) fn smallest_step(input: Input<'_>, out: &mut [u8], scratch: &mut [u64]) -> Option<Found>
    requires { (input.need ≤ length scratch.old) × (length out.old ≡ 2086) }
    ensures { Finds input.entry.set.now out.new (plan_of input.entry.plan.now) result }
{
    for i in 0..nodes_of(input.plan) {
        let node = node_at(input.plan, i);
        if let Some(rule) = rule_of(node) {
            if let Some(next) = step_at(input, i, node, out, scratch) {
                return Some(Found {
                    rule,
                    place: i as u8,
                    next,
                });
            }
        }
    }
    None
}
