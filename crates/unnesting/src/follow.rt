// Following a list of steps that is given: each is tried at its own place, in its turn.
ghost use Rattle.std.specs.Prelude.{◌≡◌, length};
ghost use Rattle.reading.specs.Refusals.{refusal_number};
ghost use Rattle.unnesting.specs.Attempts.{Follows, stopped_number};

use crate::image::write_bytes;
use crate::input::Input;
use crate::step::try_step;
use reading::refusal::Refusal;

// Why a list of steps is not followed to its end: scratch is short of a plan reached, or a step does not fit.
#[derive(Clone, Copy)]
pub enum Stopped {
    Short,
    Unfit,
}

// The refusal of such a list.
impl From<Stopped> for Refusal {
    ghost from_gives = { λ stopped refusal. refusal_number refusal ≡ stopped_number stopped };

    fn from(stopped: Stopped) -> Refusal {
        match stopped {
            Stopped::Short => Refusal::ScratchShort,
            Stopped::Unfit => Refusal::StepUnfit,
        }
    }
}

// Follows a list of steps from the plan given. Each step is tried at its own place, and each plan's need is met before a step is tried on it. A
// byte left over at the end is no step. Gives the length of the last plan, and leaves it at the front of `current`; `next` holds the plan after
// a step while it is tried.
pub(crate) fn follow(
    input: Input<'_>,
    steps: &[u8],
    current: &mut [u8],
    next: &mut [u8],
    scratch: &mut [u64],
) -> Result<usize, Stopped>
    requires { (length current.old ≡ 2086) × (length next.old ≡ 2086) }
    ensures { Follows input.entry.set.now input.entry.plan.now steps.now (length scratch.old) current.new result }
{
    write_bytes(current, 0, input.plan);
    let mut bytes = input.plan.len();
    let mut needed = input.need;
    if scratch.len() < needed {
        return Err(Stopped::Short);
    }
    let (pairs, _) = steps.as_chunks::<2>();
    for pair in pairs {
        let rule = pair[0];
        let place = pair[1] as usize;
        let held = Input {
            set: input.set,
            plan: &current[0..bytes],
            tables: input.tables,
            need: needed,
        };
        let Some(found) = try_step(held, rule, place, next, scratch) else {
            return Err(Stopped::Unfit);
        };
        bytes = found.length;
        needed = found.need;
        write_bytes(current, 0, &next[0..bytes]);
        if scratch.len() < needed {
            return Err(Stopped::Short);
        }
    }
    Ok(bytes)
}
