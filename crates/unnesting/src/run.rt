// The run: at the smallest place where a rule fits, again and again.
ghost use Rattle.std.specs.Prelude.{◌≡◌, [], ◌∷◌, ◌++◌, ◌+◌, ◌*◌, ◌≤◌, length, take};
ghost use Rattle.unnesting.specs.Attempts.{Runs};
ghost use Rattle.unnesting.specs.Shapes.{rule_number};

use crate::image::write_bytes;
use crate::input::Input;
use crate::rule::Rule;
use crate::step::smallest_step;

// How a run ended for whose plans scratch was enough: how many steps there are and how long the last plan is.
#[derive(Clone, Copy)]
pub struct Ran {
    pub steps: usize,
    pub length: usize,
}

// Writes a step's two bytes behind the `count` steps that stand at the front: its rule, and the place before it.
fn write_step(steps: &mut [u8], count: usize, rule: Rule, place: u8)
    requires { 2 * (count + 1) ≤ length steps.old }
    ensures { take (2 * (count + 1)) steps.new ≡ take (2 * count) steps.old ++ (rule_number rule ∷ place ∷ []) }
{
    let bytes = [u8::from(rule), place];
    write_bytes(steps, 2 * count, &bytes);
}

// Runs from the plan given. None where scratch is short of a plan passed through. Leaves the last plan at the front of `current`, and at the
// front of `steps` two bytes for each step; `next` holds the plan after a step while it is tried. No plan takes more than 1,542 bytes, and no
// run more than 192 steps. The loop ends where no rule fits, which no count tells before.
pub(crate) fn run(
    input: Input<'_>,
    current: &mut [u8],
    next: &mut [u8],
    steps: &mut [u8],
    scratch: &mut [u64],
) -> Option<Ran>
    requires { (length current.old ≡ 2086) × (length next.old ≡ 2086) × (length steps.old ≡ 384) }
    ensures { Runs input.entry.set.now input.entry.plan.now (length scratch.old) current.new steps.new result }
{
    write_bytes(current, 0, input.plan);
    let mut bytes = input.plan.len();
    let mut needed = input.need;
    let mut count = 0usize;
    while needed <= scratch.len() {
        let held = Input {
            set: input.set,
            plan: &current[0..bytes],
            tables: input.tables,
            need: needed,
        };
        let Some(found) = smallest_step(held, next, scratch) else {
            return Some(Ran {
                steps: count,
                length: bytes,
            });
        };
        write_step(steps, count, found.rule, found.place);
        bytes = found.next.length;
        needed = found.next.need;
        write_bytes(current, 0, &next[0..bytes]);
        count += 1;
    }
    None
}
