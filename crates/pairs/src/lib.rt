// Heaps made of two heaps: each owns both, shows their addresses side by side, and is a heap again.
#![tactic(auto)]

pub mod fallback;
pub mod pair;
pub mod segregator;
