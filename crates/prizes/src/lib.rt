// The prize fund table: from a report of players and scores to pence that add up to the purse. `prize::prize` is the call. `fund` tests the
// purse and the shares and gives the places' pence, `standings` reads the rows, `pools` finds the runs of equal scores and the club line, `table`
// writes what each row is paid.
#![tactic(auto)]

pub mod answer;
mod fund;
mod pools;
pub mod prize;
mod standings;
mod table;
