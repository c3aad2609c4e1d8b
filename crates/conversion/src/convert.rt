// The converter's two calls.
ghost use Rattle.std.specs.Prelude.{◌≡◌};
ghost use Rattle.reading.specs.declared.version.Version.TheVariants.{First, Second};
ghost use Rattle.conversion.specs.Helpers.{AcceptedAs};
ghost use Rattle.conversion.specs.Convert.{ConvertedFrom};

use crate::plans::{plan_fits, plan_size, write_plan};
use crate::tables::{set_fits, set_size, write_set};
use reading::input::check_as;
use reading::refusal::Refusal;
use reading::version::Version;

// The bytes written to each output.
#[derive(Clone, Copy)]
pub struct Converted {
    pub set: usize,
    pub plan: usize,
}

// Converts an input of so many tables that 1 to 14 do not turn back. 25 is tested before 15, and both outputs have room before either is
// written. C lends a set, a plan and two outputs one by one.
fn convert_accepted(
    from: Version,
    to: Version,
    set: &[u8],
    plan: &[u8],
    tables: usize,
    out_set: &mut [u8],
    out_plan: &mut [u8],
) -> Result<Converted, Refusal>
    requires { AcceptedAs from set.now plan.now tables }
    ensures { ConvertedFrom from to set.now plan.now out_set.old out_set.new out_plan.old out_plan.new result }
{
    if !set_fits(to, set, tables) {
        return Err(Refusal::NumberWide);
    }
    if !plan_fits(to, plan) {
        return Err(Refusal::NumberWide);
    }
    let set_bytes = set_size(to, set, tables);
    if out_set.len() < set_bytes {
        return Err(Refusal::OutputShort);
    }
    let plan_bytes = plan_size(to, plan);
    if out_plan.len() < plan_bytes {
        return Err(Refusal::OutputShort);
    }
    write_set(to, set, tables, out_set);
    write_plan(to, plan, out_plan);
    Ok(Converted {
        set: set_bytes,
        plan: plan_bytes,
    })
}

// Converts a set and a plan of version `from` to version `to`, at the front of the outputs.
fn convert(
    from: Version,
    to: Version,
    set: &[u8],
    plan: &[u8],
    out_set: &mut [u8],
    out_plan: &mut [u8],
) -> Result<Converted, Refusal>
    ensures { ConvertedFrom from to set.now plan.now out_set.old out_set.new out_plan.old out_plan.new result }
{
    let accepted = check_as(from, set, plan)?;
    convert_accepted(from, to, set, plan, accepted.tables, out_set, out_plan)
}

// A set and a plan of version 1 in version 2.
pub fn convert_up(
    set: &[u8],
    plan: &[u8],
    out_set: &mut [u8],
    out_plan: &mut [u8],
) -> Result<Converted, Refusal>
    ensures { ConvertedFrom First Second set.now plan.now out_set.old out_set.new out_plan.old out_plan.new result }
{
    convert(
        Version::First,
        Version::Second,
        set,
        plan,
        out_set,
        out_plan,
    )
}

// A set and a plan of version 2 in version 1.
pub fn convert_down(
    set: &[u8],
    plan: &[u8],
    out_set: &mut [u8],
    out_plan: &mut [u8],
) -> Result<Converted, Refusal>
    ensures { ConvertedFrom Second First set.now plan.now out_set.old out_set.new out_plan.old out_plan.new result }
{
    convert(
        Version::Second,
        Version::First,
        set,
        plan,
        out_set,
        out_plan,
    )
}
