// Worked cases of the rules, each run on real heaps.
#![tactic(auto)]

#[cfg(test)]
mod bump_cases;
#[cfg(test)]
mod free_list_cases;
#[cfg(test)]
mod layer_cases;
#[cfg(test)]
mod pair_cases;
