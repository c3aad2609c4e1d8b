// The converter's program: takes the set of `club.tbl` and the plan of `club.rpt`, both in the working folder, to the other version, and
// writes `converted.tbl` and `converted.rpt` beside them, never over a file that is there. Its argument is `up`, from version 1 to version
// 2, or `down`, back. Where the call turns its input back it prints only `refused` and the number. What cannot be printed is lost.
#![tactic(auto)]

mod write;

use conversion::convert::{Converted, convert_down, convert_up};
use files::{read_file, set_bytes};
use reading::bytes::head;
use reading::refusal::Refusal;
use std::alloc::Global;
use std::env::Env;
use std::rt::Files;
use write::write_both;

// Which way to convert.
#[derive(Clone, Copy)]
enum Direction {
    Up,
    Down,
}

// The way that the program's argument tells, if it tells one.
fn told(rt: &impl Env) -> Option<Direction> {
    let mut argument = [0u8; 4096];
    let n = rt.arg(1, &mut argument).unwrap_or(0);
    match argument.get(..n)? {
        b"up" => Some(Direction::Up),
        b"down" => Some(Direction::Down),
        _ => None,
    }
}

// Prints how many bytes a file has.
fn show_bytes(rt: &impl Print, name: &str, bytes: usize) {
    let _ = println!(rt; "{name} {bytes} bytes");
}

// Writes what the call gave, or prints its refusal.
fn keep(
    rt: &(impl Files + Print + Eprint),
    alloc: Global,
    answer: Result<Converted, Refusal>,
    set: &[u8],
    plan: &[u8],
) {
    match answer {
        Err(refusal) => {
            let _ = println!(rt; "refused {}", u8::from(refusal));
        }
        Ok(written) => {
            if write_both(rt, alloc, head(set, written.set), head(plan, written.plan)) {
                show_bytes(rt, "set", written.set);
                show_bytes(rt, "plan", written.plan);
            }
        }
    }
}

// Converts one way or the other, with buffers to write in.
fn convert(
    rt: &(impl Files + Print + Eprint),
    alloc: Global,
    direction: Direction,
    set: &[u8],
    plan: &[u8],
    out_set: &mut [u8],
    out_plan: &mut [u8],
) {
    let answer = match direction {
        Direction::Up => convert_up(set, plan, out_set, out_plan),
        Direction::Down => convert_down(set, plan, out_set, out_plan),
    };
    keep(rt, alloc, answer, out_set, out_plan);
}

// Converts the files. The plan's buffer has one byte more than the longest plan, so that a longer file is turned back as the whole of it would be.
fn convert_files(rt: &(impl Files + Print + Eprint), alloc: Global, direction: Direction) {
    let mut set = set_bytes();
    let mut plan = [0u8; 2055];
    let set_length = read_file(rt, b"club.tbl", &mut set);
    let plan_length = read_file(rt, b"club.rpt", &mut plan);
    let mut out_set = set_bytes();
    let mut out_plan = [0u8; 2054];
    convert(
        rt,
        alloc,
        direction,
        head(&set, set_length),
        head(&plan, plan_length),
        &mut out_set,
        &mut out_plan,
    );
}

// The buffers stand in a function of their own: where one function asks for the argument and has them too, they are cleared twice.
fn main(rt: HostRuntime) {
    match told(&rt) {
        Some(direction) => convert_files(&rt, rt.alloc(), direction),
        None => {
            let _ = println!(rt; "convert up|down");
        }
    }
}
