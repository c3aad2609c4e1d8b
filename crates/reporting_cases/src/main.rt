// Reads cases from standard input and prints what reporting gives for each: a refusal's number, or the counts and the cells of the report,
// each cell as its code plus 2^63. What cannot be printed is lost, and the program goes on.
#![tactic(auto)]

use files::cases::next_case;
use files::zeros;
use reporting::report::report;
use reporting::subplan::rows_at;
use std::io::Read;

// The report's number and counts by the reporting call, and its cells by the call for the rows at a place.
fn show(rt: &impl Print, set: &[u8], plan: &[u8], out: &mut [i64], scratch: &mut [u64]) {
    match report(set, plan, out, scratch) {
        Err(refusal) => {
            let _ = println!(rt; "refused {}", u8::from(refusal));
        }
        Ok(answer) => {
            let _ = print!(rt; "rows {} columns {}", answer.rows, answer.columns);
            if let Ok(given) = rows_at(set, plan, 0, scratch) {
                let count = given.rows.saturating_mul(given.columns);
                for cell in scratch.iter().take(count) {
                    let _ = print!(rt; " {cell}");
                }
            }
            let _ = println!(rt);
        }
    }
}

// Shows the next case, and whether there was one.
fn show_next(rt: &impl Print, input: &mut impl Read) -> bool {
    let mut set = [0u8; 65536];
    let mut plan = [0u8; 4096];
    let Some(case) = next_case(input, &mut set, &mut plan) else {
        return false;
    };
    let mut out: [i64; 4096] = zeros();
    let mut scratch: [u64; 16384] = zeros();
    show(
        rt,
        &set[..case.set],
        &plan[..case.plan],
        &mut out,
        &mut scratch,
    );
    true
}

// At most 4,096 cases.
fn main(rt: HostRuntime) {
    let mut input = rt.reader();
    for _ in 0..4096 {
        if !show_next(&rt, &mut input) {
            return;
        }
    }
}
