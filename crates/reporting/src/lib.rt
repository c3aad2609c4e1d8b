// Reporting: the evaluator of plans, and the reporting call.
#![tactic(auto)]

mod act;
pub mod answer;
mod asked;
pub mod cells;
mod columns;
mod distinct;
mod emit;
mod env;
mod eval;
mod gather;
mod group;
mod held;
mod index;
mod insertion;
mod leaf;
mod matching;
mod merge;
mod nesting;
mod order;
pub mod output;
mod places;
pub mod report;
mod rows;
mod select;
mod side;
mod sort;
pub mod subplan;
mod test;
