// The replay of a trace on any heap: its slots, its frames one by one, and its report.
#![tactic(auto)]

pub mod player;
pub mod slots;
