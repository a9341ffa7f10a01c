// A worked case of its own, since it takes a megabyte: a pair too large for its second heap.
#![tactic(auto)]

#[cfg(test)]
mod shut_case;
