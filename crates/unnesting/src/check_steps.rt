// The call that checks a list of steps made elsewhere, and the plan that it is said to leave.
ghost use Rattle.std.specs.Prelude.{◌≡◌};
ghost use Rattle.algebra.specs.Lists.{same};
ghost use Rattle.reading.specs.Refusals.{number_of};
ghost use Rattle.unnesting.specs.CheckSteps.{StepsChecked, list_number};

use crate::follow::follow;
use crate::input::Input;
use reading::refusal::Refusal;
use reporting::output::clear;

// 20, where the list has an odd length or a rule outside 1 to 8. The whole list is looked at before any step is tried. Its
// rules are numbers, since they are bytes of a list made elsewhere.
fn check_list(steps: &[u8]) -> Result<(), Refusal>
    ensures { number_of result ≡ list_number steps.now }
{
    if steps.len() % 2 != 0 {
        return Err(Refusal::StepList);
    }
    let (pairs, _) = steps.as_chunks::<2>();
    for pair in pairs {
        let rule = pair[0];
        if rule < 1 {
            return Err(Refusal::StepList);
        }
        if 8 < rule {
            return Err(Refusal::StepList);
        }
    }
    Ok(())
}

// Whether the plan left is theirs, byte for byte.
fn same_bytes(left: &[u8], theirs: &[u8]) -> bool
    ensures { result ≡ same left.now theirs.now }
{
    left == theirs
}

// Checks the steps of an input that 1 to 14 do not turn back: 20, then 16, then 21.
fn check_accepted(
    input: Input<'_>,
    steps: &[u8],
    theirs: &[u8],
    scratch: &mut [u64],
) -> Result<(), Refusal>
    ensures { StepsChecked input.entry.set.now input.entry.plan.now steps.now theirs.now scratch.old scratch.new (number_of result) }
{
    if let Err(refusal) = check_list(steps) {
        clear(scratch);
        return Err(refusal);
    }
    let mut current = [0u8; 2086];
    let mut next = [0u8; 2086];
    let followed = follow(input, steps, &mut current, &mut next, scratch);
    clear(scratch);
    let length = followed?;
    if !same_bytes(&current[0..length], theirs) {
        return Err(Refusal::StepUnfit);
    }
    Ok(())
}

// Checks a list of steps made elsewhere, two bytes each, and the plan theirs: Ok exactly where every step fits in its turn, from the plan given and
// over its tables, and the plan left is theirs byte for byte.
pub fn check_steps(
    set: &[u8],
    plan: &[u8],
    steps: &[u8],
    theirs: &[u8],
    scratch: &mut [u64],
) -> Result<(), Refusal>
    ensures { StepsChecked set.now plan.now steps.now theirs.now scratch.old scratch.new (number_of result) }
{
    let input = Input::check(set, plan)?;
    check_accepted(input, steps, theirs, scratch)
}
