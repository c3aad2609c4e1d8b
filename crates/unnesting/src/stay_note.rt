// The stay note call.
ghost use Rattle.std.specs.Prelude.{◌≡◌, ◌≤◌, length};
ghost use Rattle.unnesting.specs.StayNote.{StayNoted, note_due, position_of};

use crate::input::Input;
use crate::sequence::{compares, sequences_at};
use crate::shape::rule_of;
use crate::step::possible_at;
use reading::plan::node_at;
use reading::refusal::Refusal;
use reading::tree::nodes_of;
use reporting::output::clear;

// The position of the note at a place of an input that 1 to 14 do not turn back, with scratch enough.
fn note_at(input: Input<'_>, place: usize, scratch: &mut [u64]) -> Option<usize>
    requires { input.need ≤ length scratch.old }
    ensures { result ≡ position_of (note_due input.entry.set.now input.entry.plan.now place) }
{
    if nodes_of(input.plan) <= place {
        return None;
    }
    let node = node_at(input.plan, place);
    if !compares(rule_of(node)) {
        return None;
    }
    let mut after = [0u8; 2086];
    // a match in place of `?`, so that an edit of the second arm alone is refused (must-fail, note_unfit)
    match possible_at(input, place, node, &mut after) {
        Some(_) => {
            let note = sequences_at(input, place, node, scratch);
            // said apart, so that an edit of this answer alone is refused (must-fail, note_refused_zero)
            if note.is_none() {
                return None;
            }
            note
        }
        None => None,
    }
}

// The note at a place of an input that 1 to 14 do not turn back; 16 where scratch is short of its need.
fn note_accepted(
    input: Input<'_>,
    place: usize,
    scratch: &mut [u64],
) -> Result<Option<usize>, Refusal>
    ensures { StayNoted input.entry.set.now input.entry.plan.now place scratch.old scratch.new result }
{
    if scratch.len() < input.need {
        clear(scratch);
        return Err(Refusal::ScratchShort);
    }
    let note = note_at(input, place, scratch);
    clear(scratch);
    Ok(note)
}

// The note at a place of a plan: exactly where U3, U4 or U6 fails there only because the sequences differ, the first position at which they differ
// or just one has ended; or a refusal.
pub fn stay_note(
    set: &[u8],
    plan: &[u8],
    place: usize,
    scratch: &mut [u64],
) -> Result<Option<usize>, Refusal>
    ensures { StayNoted set.now plan.now place scratch.old scratch.new result }
{
    let input = Input::check(set, plan)?;
    note_accepted(input, place, scratch)
}
