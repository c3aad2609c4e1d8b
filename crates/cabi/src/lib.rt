// The C interface. Each slice is passed as a pointer and a length, in this order; include/club.h has the declarations.
// Each word is put together by itself, as the header says it; their parts differ.
#![tactic(auto)]

ghost use Rattle.std.specs.Prelude.{◌≡◌, ◌≤◌};
ghost use Rattle.reading.specs.declared.version.Version.TheVariants.{First, Second};
ghost use Rattle.conversion.specs.Convert.{answered_set, answered_plan};
ghost use Rattle.cabi.specs.Words.{convert_word, ReportCalled, UnnestCalled, StayNoteCalled, CheckStepsCalled, ConvertCalled, PrizeCalled};

use conversion::convert::{Converted, convert_down, convert_up};
use prizes::prize::prize;
use reading::refusal::Refusal;
use reporting::report::report;
use unnesting::check_steps::check_steps;
use unnesting::stay_note::stay_note;
use unnesting::unnest::unnest;

// The reporting call. C gets refusal + 2^8 * columns + 2^16 * rows.
#[unsafe(no_mangle)]
pub extern "C" fn club_report(set: &[u8], plan: &[u8], out: &mut [i64], scratch: &mut [u64]) -> u64
    ensures { ReportCalled set.now plan.now out.old out.new scratch.old scratch.new result }
{
    match report(set, plan, out, scratch) {
        Err(refusal) => u8::from(refusal) as u64,
        Ok(answer) => 256 * (answer.columns as u64) + 65536 * (answer.rows as u64),
    }
}

// The unnesting call. C gets refusal + 2^8 * steps + 2^24 * bytes of the plan.
#[unsafe(no_mangle)]
pub extern "C" fn club_unnest(
    set: &[u8],
    plan: &[u8],
    out_plan: &mut [u8],
    out_steps: &mut [u8],
    scratch: &mut [u64],
) -> u64
    ensures { UnnestCalled set.now plan.now out_plan.old out_plan.new out_steps.old out_steps.new scratch.old scratch.new result }
{
    match unnest(set, plan, out_plan, out_steps, scratch) {
        Err(refusal) => u8::from(refusal) as u64,
        Ok(answer) => 256 * (answer.steps as u64) + 16777216 * (answer.bytes as u64),
    }
}

// The stay note call. C gets the refusal, 0 where there is no note, or 2^8 + 2^16 * position.
#[unsafe(no_mangle)]
pub extern "C" fn club_stay_note(set: &[u8], plan: &[u8], place: usize, scratch: &mut [u64]) -> u64
    ensures { StayNoteCalled set.now plan.now place scratch.old scratch.new result }
{
    match stay_note(set, plan, place, scratch) {
        Err(refusal) => u8::from(refusal) as u64,
        Ok(None) => 0,
        Ok(Some(position)) => 256 + 65536 * (position as u64),
    }
}

// The call that checks steps made elsewhere. C gets the refusal.
#[unsafe(no_mangle)]
pub extern "C" fn club_check_steps(
    set: &[u8],
    plan: &[u8],
    steps: &[u8],
    theirs: &[u8],
    scratch: &mut [u64],
) -> u64
    ensures { CheckStepsCalled set.now plan.now steps.now theirs.now scratch.old scratch.new result }
{
    match check_steps(set, plan, steps, theirs, scratch) {
        Err(refusal) => u8::from(refusal) as u64,
        Ok(()) => 0,
    }
}

// The word of the converter's answer: refusal + 2^8 * bytes of the plan + 2^24 * bytes of the set.
fn convert_word(answer: Result<Converted, Refusal>) -> u64
    requires { (answered_set answer ≤ 1024064) × (answered_plan answer ≤ 2054) }
    ensures { result ≡ convert_word answer }
{
    match answer {
        Err(refusal) => u8::from(refusal) as u64,
        Ok(answer) => 256 * (answer.plan as u64) + 16777216 * (answer.set as u64),
    }
}

// The converter, from version 1 to version 2.
#[unsafe(no_mangle)]
pub extern "C" fn club_convert_up(
    set: &[u8],
    plan: &[u8],
    out_set: &mut [u8],
    out_plan: &mut [u8],
) -> u64
    ensures { ConvertCalled First Second set.now plan.now out_set.old out_set.new out_plan.old out_plan.new result }
{
    convert_word(convert_up(set, plan, out_set, out_plan))
}

// The converter, from version 2 back to version 1.
#[unsafe(no_mangle)]
pub extern "C" fn club_convert_down(
    set: &[u8],
    plan: &[u8],
    out_set: &mut [u8],
    out_plan: &mut [u8],
) -> u64
    ensures { ConvertCalled Second First set.now plan.now out_set.old out_set.new out_plan.old out_plan.new result }
{
    convert_word(convert_down(set, plan, out_set, out_plan))
}

// The prize call. C gets refusal + 2^8 * rows + 2^24 * club line.
#[unsafe(no_mangle)]
pub extern "C" fn club_prize(
    set: &[u8],
    plan: &[u8],
    purse: u64,
    shares: &[u32],
    out: &mut [i64],
    scratch: &mut [u64],
) -> u64
    ensures { PrizeCalled set.now plan.now purse shares.now out.old out.new scratch.old scratch.new result }
{
    match prize(set, plan, purse, shares, out, scratch) {
        Err(refusal) => u8::from(refusal) as u64,
        Ok(answer) => 256 * (answer.rows as u64) + 16777216 * answer.club,
    }
}
