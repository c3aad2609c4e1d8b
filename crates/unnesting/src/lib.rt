// Unnesting: the eight rules (`rule`) at the places of a plan's bytes, and the three calls. `shape` says what the rule at a `place` makes of the
// plan, so far as the plan alone decides (`join`, `count`, by `ids` and by reading's `free`), `sequence` what rows decide, `change` writes the
// plan after it (`image`), `step` tries a place and finds the smallest that fits, `run` goes on until none does, `follow` takes the steps of a
// list that is given. `input` holds what the calls' check has told of a set and a plan.
#![tactic(auto)]

mod change;
pub mod check_steps;
mod count;
mod follow;
mod ids;
mod image;
mod input;
mod join;
mod place;
mod rule;
mod run;
mod sequence;
mod shape;
pub mod stay_note;
mod step;
pub mod unnest;
