// Reading: a set of tables and a plan, each any bytes at all. `input::check_as` meets the refusals 1 to 14 of one of the two versions, and
// `input::check_input` those of version 2; the other modules give upper layers what they need to walk tables, cells and nodes of either, and
// what a tree names from outside itself.
#![tactic(auto)]

pub mod bound;
pub mod bytes;
pub mod columns;
pub mod comparison;
pub mod flags;
pub mod free;
pub mod ids;
pub mod input;
mod kind_table;
pub mod kinds;
pub mod need;
pub mod plan;
pub mod refusal;
pub mod scan;
pub mod set;
pub mod tree;
pub mod version;
pub mod view;
