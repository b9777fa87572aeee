//! Tests of `dmr_hearing`, `dmr_voice` and `dmr_slot`: worked slots, worked recordings of calls, and frames of the channel.
#![tactic(auto)]

#[cfg(test)]
mod hearing_tests;
#[cfg(test)]
mod slot_tests;
#[cfg(test)]
mod tests;
