// What came of the frames of a replay, how that is tallied, and the report of it.
#![tactic(auto)]

pub mod lines;
pub mod tally;
