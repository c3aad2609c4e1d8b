// Reads cases from standard input and prints what reading gives for each: a refusal's number, or how many tables and nodes there are and
// the need in cells. What cannot be printed is lost, and the program goes on.
#![tactic(auto)]

use files::cases::next_case;
use reading::input::check_input;
use std::io::Read;

fn show(rt: &impl Print, set: &[u8], plan: &[u8]) {
    let _ = match check_input(set, plan) {
        Err(refusal) => println!(rt; "refused {}", u8::from(refusal)),
        Ok(accepted) => println!(rt;
            "tables {} nodes {} need {}",
            accepted.tables, accepted.nodes, accepted.need
        ),
    };
}

// Shows the next case, and whether there was one.
fn show_next(rt: &impl Print, input: &mut impl Read) -> bool {
    let mut set = [0u8; 65536];
    let mut plan = [0u8; 4096];
    let Some(case) = next_case(input, &mut set, &mut plan) else {
        return false;
    };
    show(rt, &set[..case.set], &plan[..case.plan]);
    true
}

// At most 4,096 cases.
fn main(rt: HostRuntime) {
    let mut input = rt.reader();
    for _ in 0..4096 {
        if !show_next(&rt, &mut input) {
            return;
        }
    }
}
