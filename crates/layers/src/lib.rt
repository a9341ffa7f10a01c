// Layers over any heap: each owns the heap below, shows a meaning of its own, and is a heap again.
#![tactic(auto)]

pub mod affix;
pub mod quota;
pub mod rounded;
