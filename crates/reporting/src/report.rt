// The reporting call.
ghost use Rattle.std.specs.Prelude.{◌≡◌, ◌≤◌, length, replicate};
ghost use Rattle.algebra.specs.Refusals.{need};
ghost use Rattle.reading.specs.TableSet.{tables_of};
ghost use Rattle.reading.specs.Tree.{plan_of};
ghost use Rattle.reading.specs.Check.{input_refusal};
ghost use Rattle.reporting.specs.Report.{Reported};

use crate::answer::Report;
use crate::eval::eval;
use crate::output::{clear, write_codes};
use reading::columns::columns_at;
use reading::input::check_input;
use reading::refusal::Refusal;

// The report of an input that 1 to 14 do not turn back, in scratch of the need at least. Scratch is left to be cleared.
fn run(set: &[u8], plan: &[u8], out: &mut [i64], scratch: &mut [u64]) -> Result<Report, Refusal>
    requires plan_value { input_refusal set.now plan.now ≡ 0 }
    requires plan_in_bounds { need (tables_of set.now) (plan_of plan.now) ≤ length scratch.old }
    ensures { Reported set.now plan.now out.old out.new scratch.old
        (replicate (length scratch.old) 0) result }
{
    let outside = [0u64; 256];
    let rows = eval(set, plan, 0, scratch, &outside);
    let columns = columns_at(set, plan, 0);
    let codes = rows * columns;
    if out.len() < codes {
        return Err(Refusal::OutputShort);
    }
    write_codes(&scratch[..codes], out);
    Ok(Report { rows, columns })
}

// The report of an input that 1 to 14 do not turn back and that needs so many cells of scratch. Scratch is left to be cleared.
fn report_accepted(
    set: &[u8],
    plan: &[u8],
    cells: usize,
    out: &mut [i64],
    scratch: &mut [u64],
) -> Result<Report, Refusal>
    requires plan_value { input_refusal set.now plan.now ≡ 0 }
    requires cells_value { cells ≡ need (tables_of set.now) (plan_of plan.now) }
    ensures { Reported set.now plan.now out.old out.new scratch.old
        (replicate (length scratch.old) 0) result }
{
    if scratch.len() < cells {
        return Err(Refusal::ScratchShort);
    }
    run(set, plan, out, scratch)
}

// The report of a plan over a set of tables: its counts and codes, or a refusal. Any bytes, and buffers of any length, are taken.
pub fn report(
    set: &[u8],
    plan: &[u8],
    out: &mut [i64],
    scratch: &mut [u64],
) -> Result<Report, Refusal>
    ensures { Reported set.now plan.now out.old out.new scratch.old scratch.new result }
{
    let accepted = check_input(set, plan)?;
    let answer = report_accepted(set, plan, accepted.need, out, scratch);
    clear(scratch);
    answer
}
