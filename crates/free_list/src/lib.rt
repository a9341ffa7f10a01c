// A layer over any heap that holds freed blocks back and serves them again.
#![tactic(auto)]

pub mod free_list;
mod held;
