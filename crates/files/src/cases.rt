// The cases that the case programs read. A case is the set's length and the plan's, 32 bits each, low byte first, then the bytes of both.
ghost use Rattle.std.specs.Prelude.{◌≤◌, length, IfSome};

use crate::read_full;
use std::io::Read;

// How many bytes of a case's set and of its plan stand at the front of their buffers.
#[derive(Clone, Copy)]
pub struct Lengths {
    pub set: usize,
    pub plan: usize,
}

// Reads the next case into two buffers. There is none where the header is cut short, or where a buffer has no room; a body that is cut short
// leaves the rest of its part as it was.
pub fn next_case(input: &mut impl Read, set: &mut [u8], plan: &mut [u8]) -> Option<Lengths>
    ensures { IfSome result (λ case. (case.set ≤ length set.new) × (case.plan ≤ length plan.new)) }
{
    let mut header = [0; 8];
    if read_full(input, &mut header) < header.len() {
        return None;
    }
    // Of the 32 bits of a length the upper 16 are 0 in every case.
    let [set_low, set_high, _, _, plan_low, plan_high, _, _] = header;
    let case = Lengths {
        set: usize::from(u16::from_le_bytes([set_low, set_high])),
        plan: usize::from(u16::from_le_bytes([plan_low, plan_high])),
    };
    read_full(input, set.get_mut(..case.set)?);
    read_full(input, plan.get_mut(..case.plan)?);
    Some(case)
}
