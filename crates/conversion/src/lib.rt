// The converter: a set of tables and a plan of one version, written in the other. `convert::convert_up` takes version 1 to version 2, and
// `convert::convert_down` takes version 2 back. `numbers` writes bytes and a number's code, `tables` a set, `plans` a plan.
#![tactic(auto)]

pub mod convert;
mod numbers;
mod plans;
mod tables;
