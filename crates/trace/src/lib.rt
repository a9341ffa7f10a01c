// A trace of recorded allocations: its frames, what each asks for, and the test of a whole trace.
#![tactic(auto)]

pub mod digits;
pub mod frame;
pub mod recording;
