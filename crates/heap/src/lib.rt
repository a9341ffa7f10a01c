// What a heap is, and what any list of calls on one owes its client.
#![tactic(auto)]

pub mod calls;
pub mod checks;
pub mod fault;
pub mod interface;
pub mod rounding;
