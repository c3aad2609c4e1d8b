// The listing program: unnests the plan of `club.rpt` over the tables of `club.tbl`, both in the working folder, and prints the steps and the
// report of the plan left. Where a call turns its input back it prints only `refused` and the number.
#![tactic(auto)]

mod cell;
mod print;

use files::{read_file, set_bytes, zeros};
use print::{show_refusal, show_report, show_steps};
use reading::bytes::head;
use reporting::report::report;
use unnesting::unnest::unnest;

// Lists a set and a plan. Nothing is printed before both calls have answered.
fn list(rt: &impl Print, set: &[u8], plan: &[u8]) {
    let mut last = [0u8; 2054];
    let mut steps = [0u8; 384];
    // A plan whose need is larger is refused.
    let mut scratch: [u64; 262144] = zeros();
    let unnested = match unnest(set, plan, &mut last, &mut steps, &mut scratch) {
        Ok(unnested) => unnested,
        Err(refusal) => return show_refusal(rt, u8::from(refusal)),
    };
    // Room for every report: 4,096 rows of 32 columns.
    let mut codes: [i64; 131072] = zeros();
    match report(set, head(&last, unnested.bytes), &mut codes, &mut scratch) {
        Err(refusal) => show_refusal(rt, u8::from(refusal)),
        Ok(answer) => {
            show_steps(rt, &steps, unnested.steps);
            show_report(rt, &codes, answer.rows, answer.columns);
        }
    }
}

// The plan's buffer has one byte more than the longest plan, so that a longer file is turned back as the whole of it would be.
fn main(rt: HostRuntime) {
    let mut set = set_bytes();
    let mut plan = [0u8; 2055];
    let set_length = read_file(&rt, b"club.tbl", &mut set);
    let plan_length = read_file(&rt, b"club.rpt", &mut plan);
    list(&rt, head(&set, set_length), head(&plan, plan_length));
}
