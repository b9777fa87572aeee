//! Tests of `dmr_compare`: what is printed of two recordings, and of two lists.
#![tactic(auto)]

#[cfg(test)]
mod list_tests;
#[cfg(test)]
mod recordings;
#[cfg(test)]
mod tests;
