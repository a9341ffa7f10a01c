// Worked cases of the bitmap and the boundary tag heap, each run on real regions.
#![tactic(auto)]

#[cfg(test)]
mod bitmap_cases;
#[cfg(test)]
mod faults;
#[cfg(test)]
mod tag_cases;
