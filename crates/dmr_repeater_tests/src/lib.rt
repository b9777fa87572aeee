//! Tests of `dmr_repeater`: worked runs from file to file, whose expected files come from outside; and of `dmr_station`: worked
//! frames.
#![tactic(auto)]

#[cfg(test)]
mod station_tests;
#[cfg(test)]
mod tests;
