//! Tests of `dmr_damage`: what a recording is written as by a seed, and that a repeater repeats the same of it.
#![tactic(auto)]

#[cfg(test)]
mod recordings;
#[cfg(test)]
mod repeated_tests;
#[cfg(test)]
mod tests;
