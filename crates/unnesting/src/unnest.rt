// The unnesting call.
ghost use Rattle.unnesting.specs.Unnest.{Returned};

use crate::image::write_bytes;
use crate::input::Input;
use crate::run::run;
use reading::refusal::Refusal;
use reporting::output::clear;

// What the unnesting call gives: how many steps there are, and how many bytes the last plan takes.
#[derive(Clone, Copy)]
pub struct Unnested {
    pub steps: usize,
    pub bytes: usize,
}

// Unnests an input that 1 to 14 do not turn back. 16 is tested before 15.
fn unnest_accepted(
    input: Input<'_>,
    out_plan: &mut [u8],
    out_steps: &mut [u8],
    scratch: &mut [u64],
) -> Result<Unnested, Refusal>
    ensures { Returned input.entry.set.now input.entry.plan.now out_plan.old out_plan.new out_steps.old out_steps.new scratch.old scratch.new result }
{
    let mut current = [0u8; 2086];
    let mut next = [0u8; 2086];
    let mut steps = [0u8; 384];
    let ended = run(input, &mut current, &mut next, &mut steps, scratch);
    clear(scratch);
    let Some(ran) = ended else {
        return Err(Refusal::ScratchShort);
    };
    let bytes = ran.length;
    let count = ran.steps;
    if out_plan.len() < bytes {
        return Err(Refusal::OutputShort);
    }
    if out_steps.len() < 2 * count {
        return Err(Refusal::OutputShort);
    }
    write_bytes(out_plan, 0, &current[0..bytes]);
    write_bytes(out_steps, 0, &steps[0..2 * count]);
    Ok(Unnested {
        steps: count,
        bytes,
    })
}

// Unnests a plan: the last plan of its run and the run's steps, two bytes each, at the front of the outputs; or a refusal.
pub fn unnest(
    set: &[u8],
    plan: &[u8],
    out_plan: &mut [u8],
    out_steps: &mut [u8],
    scratch: &mut [u64],
) -> Result<Unnested, Refusal>
    ensures { Returned set.now plan.now out_plan.old out_plan.new out_steps.old out_steps.new scratch.old scratch.new result }
{
    let input = Input::check(set, plan)?;
    unnest_accepted(input, out_plan, out_steps, scratch)
}
